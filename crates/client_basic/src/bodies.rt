//! What the clients say of a body (this project's profile).
ghost use Rattle.std.specs.Prelude.{◌≡◌, ◌*◌, ◌+◌, ◌≤◌, [], length, take, drop, IfOk};
ghost use Rattle.std.specs.Str.{is_utf8};
ghost use Rattle.client_basic.specs.Bodies.{feed_verdict, ids_from, note_verdict, previous_of};
ghost use Rattle.client_basic.specs.Bodies.{thread_verdict, thread_verdict_of};

use std::alloc::{AllocError, Global};
use sync_ids::{Fixed, MessageId};
use sync_rules::{DepList, Judgement};

// The length of an id in a body, in bytes.
const ID_LEN: usize = 32;

// Whether the bytes are UTF-8.
fn is_text(bytes: &[u8]) -> bool
    ensures { result ≡ is_utf8 bytes.now }
{
    str::from_utf8(bytes).is_ok()
}

// The id whose bytes begin at this place.
fn id_at(bytes: &[u8], at: usize) -> MessageId
    requires { at + ID_LEN ≤ length bytes.now }
    ensures { result ≡ take ID_LEN (drop at bytes.now) }
{
    let mut id = [0; ID_LEN];
    id.copy_from_slice(&bytes[at..at + ID_LEN]);
    Fixed(id)
}

fn no_deps(alloc: Global) -> DepList
    ensures { result ≡ [] }
{
    match DepList::new(Vec::new(alloc)) {
        Ok(deps) => deps,
        Err(_) => unreachable!(),
    }
}

/// A note's judgement: a body that is not UTF-8 is refused, and any other has no dependencies.
pub fn judge_note(alloc: Global, body: &[u8]) -> Judgement
    ensures { result ≡ note_verdict body.now }
{
    if is_text(body) {
        Judgement::Accept {
            deps: no_deps(alloc),
            share: true,
        }
    } else {
        Judgement::Refuse
    }
}

// ---- threads

// So many ids from the front of the bytes.
fn read_ids(alloc: Global, count: u8, bytes: &[u8]) -> Result<Vec<MessageId>, AllocError>
    requires { ID_LEN * count ≤ length bytes.now }
    ensures items { IfOk result (λ ids. ids.items ≡ ids_from count bytes.now) }
    ensures len { IfOk result (λ ids. length ids.items ≡ count) }
{
    let mut ids = Vec::new(alloc);
    for i in 0..count {
        ids.push(id_at(bytes, ID_LEN * i as usize))?;
    }
    Ok(ids)
}

/// A thread's judgement: a body whose ids are not whole, or of which two are equal, or whose text
/// is not UTF-8, is refused, and any other depends on its parents in order. It fails only for want
/// of memory.
pub fn judge_thread(alloc: Global, body: &[u8]) -> Result<Judgement, AllocError>
    ensures { IfOk result (λ a. a ≡ thread_verdict body.now) }
{
    match body.split_first() {
        Some((count, rest)) => judge_parents(alloc, *count, rest),
        None => Ok(Judgement::Refuse),
    }
}

fn judge_parents(alloc: Global, count: u8, rest: &[u8]) -> Result<Judgement, AllocError>
    ensures { IfOk result (λ a. a ≡ thread_verdict_of count rest.now) }
{
    let end = ID_LEN * count as usize;
    if rest.len() < end {
        return Ok(Judgement::Refuse);
    }
    let ids = read_ids(alloc, count, rest)?;
    let Ok(deps) = DepList::new(ids) else {
        return Ok(Judgement::Refuse);
    };
    if is_text(&rest[end..]) {
        Ok(Judgement::Accept { deps, share: true })
    } else {
        Ok(Judgement::Refuse)
    }
}

// ---- feeds

// No dependency for 32 zero bytes, and else this id.
fn previous(alloc: Global, id: MessageId) -> Result<DepList, AllocError>
    ensures { IfOk result (λ deps. deps ≡ previous_of id) }
{
    if id == Fixed([0; ID_LEN]) {
        return Ok(no_deps(alloc));
    }
    let mut ids = Vec::new(alloc);
    ids.push(id)?;
    match DepList::new(ids) {
        Ok(deps) => Ok(deps),
        Err(_) => unreachable!(),
    }
}

/// A feed's judgement: a body of fewer than 32 bytes, or whose text is not UTF-8, is refused, and
/// any other depends on the previous message, if there is one. It fails only for want of memory.
pub fn judge_feed(alloc: Global, body: &[u8]) -> Result<Judgement, AllocError>
    ensures { IfOk result (λ a. a ≡ feed_verdict body.now) }
{
    if body.len() < ID_LEN {
        return Ok(Judgement::Refuse);
    }
    if !is_text(&body[ID_LEN..]) {
        return Ok(Judgement::Refuse);
    }
    let deps = previous(alloc, id_at(body, 0))?;
    Ok(Judgement::Accept { deps, share: false })
}
