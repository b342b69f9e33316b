//! The bytes of an output, and of what a session begins with (BSP, "Records").
ghost use Rattle.std.specs.Prelude.{◌≡◌, ◌∷◌, ◌++◌, [], IfOk, OnOk};
ghost use Rattle.record_grammar.specs.Spelling.{spelled, spelling};
ghost use Rattle.sync_ids.specs.declared.records.Record.TheVariants as record_kind;
ghost use Rattle.sync_rules.specs.Facts.{held_at};
ghost use Rattle.sync_rules.specs.Output.{message_record, nonce_record, out_records};

use record_grammar::{
    encode_ack, encode_message, encode_offer, encode_priority, encode_request, encode_versions,
};
use std::alloc::{AllocError, Global};
use sync_ids::{MessageId, Nonce, VersionList};
use sync_rules::{Out, View};
use sync_store::Store;

/// The bytes of an output, over the held messages of a store; none of a message that is not held.
/// It fails only for want of memory.
pub fn spell_out(alloc: Global, store: &Store, out: &Out) -> Result<Vec<u8>, AllocError>
    ensures { IfOk result (λ bytes. bytes.items ≡ spelled
        (out_records store.now.state.facts.held out.now)) }
{
    let mut bytes = Vec::new(alloc);
    match out {
        Out::Acks(ids) => encode_ack(ids, &mut bytes)?,
        Out::Requests(ids) => encode_request(ids, &mut bytes)?,
        Out::Offers(ids) => encode_offer(ids, &mut bytes)?,
        Out::Send(id) => spell_message(store, id, &mut bytes)?,
    }
    Ok(bytes)
}

// Adds the bytes of the held message of this id; none where it is not held.
fn spell_message(store: &Store, id: &MessageId, to: &mut Vec<u8>) -> Result<(), AllocError>
    ensures { OnOk result (to.new.items ≡ to.old.items ++ spelled
        (message_record (held_at store.now.state.facts.held id.now))) }
{
    match store.find(id) {
        Some(number) => encode_message(store.message(number), to),
        None => Ok(()),
    }
}

/// The bytes of the VERSIONS that every session begins with: the one version 0. It fails only for
/// want of memory.
pub fn spell_versions(alloc: Global) -> Result<Vec<u8>, AllocError>
    ensures { IfOk result (λ bytes. bytes.items ≡ spelling (record_kind.Versions (0 ∷ []))) }
{
    let mut versions = Vec::new(alloc);
    versions.push(0)?;
    let mut bytes = Vec::new(alloc);
    match VersionList::new(versions) {
        Ok(list) => encode_versions(&list, &mut bytes)?,
        Err(_) => unreachable!(),
    }
    Ok(bytes)
}

/// The bytes of the PRIORITY of a session that has a nonce, and none of one that has not. It fails
/// only for want of memory.
pub fn spell_nonce(alloc: Global, nonce: &Option<Nonce>) -> Result<Vec<u8>, AllocError>
    ensures { IfOk result (λ bytes. bytes.items ≡ spelled (nonce_record nonce.now)) }
{
    let mut bytes = Vec::new(alloc);
    if let Some(nonce) = nonce {
        encode_priority(nonce, &mut bytes)?;
    }
    Ok(bytes)
}
