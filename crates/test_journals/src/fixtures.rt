//! What the files of tests are made of, and a journal on which one entry is committed at a time.
use crate::checks::made;
use std::alloc::Global;
use std::process::Abort;
use sync_ids::{GroupDef, GroupId, IdList, MAX_IDS, Message, MessageId};
use sync_rules::{Batch, Entry};

pub fn definition(
    rt: &impl Abort,
    alloc: Global,
    name: &str,
    major: u32,
    descriptor: &[u8],
) -> GroupDef {
    let name = made(rt, String::from_str(alloc, name));
    let descriptor = made(rt, descriptor.to_vec(alloc));
    made(rt, GroupDef::new(name, major, descriptor))
}

pub fn message(
    rt: &impl Abort,
    alloc: Global,
    group: &GroupId,
    timestamp: u64,
    body: &[u8],
) -> Message {
    let body = made(rt, body.to_vec(alloc));
    made(rt, Message::new(*group, timestamp, body))
}

pub fn list(rt: &impl Abort, alloc: Global, ids: &[MessageId]) -> IdList<MAX_IDS> {
    made(rt, IdList::new(made(rt, ids.to_vec(alloc))))
}

pub fn commit(rt: &impl Abort, alloc: Global, j: &mut Vec<Batch>, entry: Entry) {
    let batch = made(rt, Batch::single(alloc, entry));
    made(rt, j.push(batch));
}
