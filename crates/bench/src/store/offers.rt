//! An OFFER of ids that a file lists.

use crate::stop::Stop;
use session_core::take;
use std::alloc::{AllocError, Global};
use sync_ids::{Fixed, IdList, MessageId, Record};
use sync_rules::{Mode, Session};
use sync_store::Store;

/// The bytes of an id.
pub(crate) const ID_LEN: usize = 32;

/// The session on which the ids are offered.
const SESSION: Session = Session {
    number: 0,
    contact: 0,
    mode: Mode::Interactive,
    latency: 1,
    nonce: None,
};

/// The ids that bytes list, one behind the other; what is left at the end is no id.
pub(crate) fn whole_ids(bytes: &[u8]) -> &[[u8; ID_LEN]] {
    let (ids, _) = bytes.as_chunks::<ID_LEN>();
    ids
}

/// These ids as values.
fn copy_ids(alloc: Global, ids: &[[u8; ID_LEN]]) -> Result<Vec<MessageId>, AllocError> {
    let mut copies = Vec::new(alloc);
    for id in ids {
        copies.push(Fixed(*id))?;
    }
    Ok(copies)
}

/// How many entries an OFFER of these ids is taken as.
fn take_once(alloc: Global, store: &Store, ids: &[[u8; ID_LEN]]) -> Result<usize, Stop> {
    let Ok(ids) = IdList::new(copy_ids(alloc, ids)?) else {
        return Err(Stop::NoValue);
    };
    let batch = take(alloc, store, &SESSION, 0, Record::Offer(ids))?;
    Ok(batch.entries().len())
}

/// How many entries such an OFFER is taken as, found so many times.
pub(crate) fn take_often(
    alloc: Global,
    store: &Store,
    ids: &[[u8; ID_LEN]],
    rounds: u32,
) -> Result<usize, Stop> {
    let mut entries = 0;
    for _ in 0..rounds {
        entries = take_once(alloc, store, ids)?;
    }
    Ok(entries)
}
