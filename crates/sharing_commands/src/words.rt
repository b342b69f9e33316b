// What was said in a `sharing` group.
ghost use Rattle.std.specs.Prelude.{◌≡◌, ◌++◌, ◌<◌, length, IfOk, OnOk, slice_get, Some};
ghost use Rattle.sync_rules.specs.Facts.{Id, held_at};
ghost use Rattle.sharing_commands.specs.Words.{said_by, said_by_both, said_of, speaker_of};

use client_sharing::{Said, Saying, read_saying};
use std::alloc::{AllocError, Global};
use sync_ids::{GroupId, Message};
use sync_rules::Origin;
use sync_store::Store;

/// All that was said in a group by this device and by a contact, in the order of delivery. It fails
/// only for want of memory.
pub(crate) fn gather_words(
    alloc: Global,
    store: &Store,
    contact: u8,
    group: &GroupId,
) -> Result<Vec<Said>, AllocError>
    ensures { IfOk result
        (λ said. said.items ≡ said_by_both store.now.state.facts contact group.now) }
{
    let mut said = Vec::new(alloc);
    'delivered: for k in 0..store.delivered() {
        add_word(alloc, store, k, contact, group, &mut said)?;
    }
    Ok(said)
}

// Adds what the k-th delivered message says.
fn add_word(
    alloc: Global,
    store: &Store,
    k: u32,
    contact: u8,
    group: &GroupId,
    to: &mut Vec<Said>,
) -> Result<(), AllocError>
    requires { k < length store.now.state.facts.delivered }
    ensures { OnOk result ((id : Id) → slice_get store.now.state.facts.delivered k ≡ Some id
        → to.new.items ≡ to.old.items ++ said_of contact group.now
        (held_at store.now.state.facts.held id)) }
{
    let n = store.delivered_at(k);
    match said_by(alloc, contact, group, store.origin(n), store.message(n))? {
        Some(said) => Ok(to.push(said)?),
        None => Ok(()),
    }
}

// What a message of this origin says.
fn said_by(
    alloc: Global,
    contact: u8,
    group: &GroupId,
    from: Origin,
    message: &Message,
) -> Result<Option<Said>, AllocError>
    ensures { IfOk result (λ said. said ≡ said_by contact group.now from message.now) }
{
    if message.group() != *group {
        return Ok(None);
    }
    let Some(own) = side_of(contact, from) else {
        return Ok(None);
    };
    match read_saying(alloc, message.body())? {
        Some(saying) => {
            let Saying { join, def, .. } = saying;
            Ok(Some(Said { own, join, def }))
        }
        None => Ok(None),
    }
}

// Whether a message of this origin is a word of this device, or of the contact.
fn side_of(contact: u8, from: Origin) -> Option<bool>
    ensures { result ≡ speaker_of contact from }
{
    match from {
        Origin::Author => Some(true),
        Origin::From(c) => (c == contact).then_some(false),
    }
}
