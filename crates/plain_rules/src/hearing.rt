//! A journal that is played without a disk: it takes messages and settles after each.
ghost use Rattle.std.specs.Option.{option_to_list};
ghost use Rattle.std.specs.Prelude.{◌≡◌, ◌+◌, is_some, true, IfOk, OnOk};
ghost use Rattle.sync_ids.specs.Values.{IsMessage};
ghost use Rattle.sync_ids.specs.declared.records.Record.TheVariants as record_kind;
ghost use Rattle.sync_rules.specs.Clients.{Meaning};
ghost use Rattle.sync_rules.specs.Facts.{contact_of, facts, ExtendsJournal};
ghost use Rattle.sync_rules.specs.Hearing.{HearsRecord, IsHearing, one_session, take_batch};
ghost use Rattle.sync_rules.specs.Legal.{Legal};
ghost use Rattle.sync_rules.specs.Sessions.{is_welcome, taken_message};
ghost use Rattle.sync_rules.specs.Steps.{kind_of_def};

use crate::settling::{push_one, settle_in};
use std::alloc::{AllocError, Global};
use sync_ids::{GroupDef, GroupId, Message, group_id};
use sync_rules::lookups::{group_in, held_in};
use sync_rules::{Batch, Clients, Entry, Level, Mode, Session, id_of, level_in};

// What a message from this contact is taken as.
fn taken_message_in(j: &[Batch], session: u32, contact: u8, message: Message) -> Option<Entry>
    ensures { option_to_list result ≡ taken_message (facts j.now) session contact message }
{
    if !is_welcome_in(j, contact, &message.group()) {
        return None;
    }
    let id = id_of(&message);
    let Some(held) = held_in(j, &id) else {
        return Some(Entry::Arrive(session, message));
    };
    match level_in(j, contact, &held.group()) {
        Level::Invisible => None,
        _ => Some(Entry::Again(session, id)),
    }
}

// Whether a message of this group may come from the contact.
fn is_welcome_in(j: &[Batch], contact: u8, group: &GroupId) -> bool
    ensures { result ≡ is_welcome (facts j.now) contact group.now }
{
    if group_in(j, group).is_none() {
        return false;
    }
    match level_in(j, contact, group) {
        Level::Invisible => false,
        _ => true,
    }
}

/// The batch that takes this message as the session's `k`-th record, `contact` being the session's
/// contact. It fails only for want of memory.
pub fn take_message(
    alloc: Global,
    j: &[Batch],
    session: u32,
    contact: u8,
    k: u64,
    message: Message,
) -> Result<Batch, AllocError>
    requires { contact_of (facts j.now).sessions session ≡ contact }
    ensures { IfOk result
        (λ b. b ≡ take_batch (facts j.now) session k (record_kind.Message message)) }
{
    let mut entries = Vec::new(alloc);
    entries.push(Entry::Take(session, k))?;
    if let Some(entry) = taken_message_in(j, session, contact, message) {
        entries.push(entry)?;
    }
    match Batch::new(entries) {
        Ok(batch) => Ok(batch),
        Err(_) => unreachable!(),
    }
}

// Every message that a program holds is within its limits; a batch that takes it is legal only so.
// It does nothing.
fn messages_are_within(message: &Message)
    ensures { IsMessage message.now }
{
    let _body = message.body();
}

/// Takes this message as the session's `k`-th record, `contact` being the session's contact, and
/// settles. It fails only for want of memory, and then the journal is extended by the batches made
/// before.
pub fn hear_message<C: Clients>(
    alloc: Global,
    j: &mut Vec<Batch>,
    clients: &C,
    session: u32,
    contact: u8,
    k: u64,
    message: Message,
) -> Result<(), AllocError>
    requires { IsHearing (C.meaning clients.now) j.old.items session contact k }
    ensures heard { OnOk result (HearsRecord (C.meaning clients.now) j.old.items session k
        (record_kind.Message message) j.new.items) }
    ensures goes_on { OnOk result (IsHearing (C.meaning clients.now) j.new.items session contact
        (k + 1)) }
    ensures legal { Legal (C.meaning clients.now) j.new.items }
    ensures extends { ExtendsJournal j.new.items j.old.items }
{
    messages_are_within(&message);
    let batch = take_message(alloc, j.as_slice(), session, contact, k, message)?;
    j.push(batch)?;
    settle_in(alloc, j, clients)
}

/// A journal that begins with contact 0, this group, Visible to the contact, and one batch session
/// with it of latency 1. It fails only for want of memory.
pub fn begin_session(alloc: Global, def: GroupDef) -> Result<Vec<Batch>, AllocError>
    ensures begun { IfOk result (λ j. j.items ≡ one_session def) }
    ensures hearing { IfOk result (λ j. (clients : Meaning)
        → is_some (kind_of_def clients def) ≡ true → IsHearing clients j.items 0 0 0) }
{
    let group = group_id(&def);
    let mut j = Vec::new(alloc);
    push_one(alloc, &mut j, Entry::Contact(0))?;
    push_one(alloc, &mut j, Entry::Group(def))?;
    push_one(alloc, &mut j, Entry::Level(0, group, Level::Visible))?;
    let session = Session {
        number: 0,
        contact: 0,
        mode: Mode::Batch,
        latency: 1,
        nonce: None,
    };
    push_one(alloc, &mut j, Entry::Session(session))?;
    Ok(j)
}
