//! The exact refusals of lists.
use crate::checks::{made, same};
use std::alloc::Global;
use std::process::Abort;
use sync_ids::{Fixed, MessageId};
use sync_rules::{Batch, DepFault, DepList, EmptyBatch};

/// Why so many ids are refused, the last of which is the first again or none is.
fn fault(rt: &impl Abort, alloc: Global, len: usize, repeated: bool) -> Option<DepFault> {
    let mut ids: Vec<MessageId> = Vec::new(alloc);
    for i in 0..len {
        let last = repeated && i + 1 == len;
        let byte = if last { 0 } else { (i % 256) as u8 };
        made(rt, ids.push(Fixed([byte; 32])));
    }
    DepList::new(ids).err()
}

#[test]
fn refuses_lists(rt: HostRuntime) {
    let alloc = rt.alloc();
    for &(len, repeated, want) in &[
        (0, false, None),
        (1, false, None),
        (255, false, None),
        (255, true, Some(DepFault::Repeated)),
        (2, true, Some(DepFault::Repeated)),
        (256, false, Some(DepFault::TooMany)),
        (256, true, Some(DepFault::TooMany)),
    ] {
        let fault = fault(&rt, alloc, len, repeated);
        same(&rt, &(len, repeated, fault), &(len, repeated, want));
    }
    same(&rt, &Batch::new(Vec::new(alloc)).err(), &Some(EmptyBatch));
}
