//! What a record that was heard is taken as.
ghost use Rattle.std.specs.Prelude.{◌≡◌, ◌<◌, ◌-◌, ◌++◌, ◌&&◌, false, not, length, slice_get, IfOk};
ghost use Rattle.std.specs.Prelude.{OnOk, MatchOption};
ghost use Rattle.sync_rules.specs.Facts.{is_invisible, level_at, row_at, wanted_from};
ghost use Rattle.sync_rules.specs.Sessions.{is_remembered, is_shown, room_after, taken_acks};
ghost use Rattle.sync_rules.specs.Sessions.{taken_from, taken_message, taken_offer, taken_offers};
ghost use Rattle.sync_rules.specs.Sessions.{taken_requests};
ghost use Rattle.sync_rules.specs.Views.{group_in};
ghost use Rattle.session_core.specs.Known.{id_arrived, IsOfAll};
ghost use Rattle.session_core.specs.Taking.{IsShownPlace, take_of};

use crate::first_ids::first_ids;
use std::alloc::{AllocError, Global};
use sync_ids::{Message, MessageId, Record};
use sync_rules::{Batch, Entry, Level, MAX_WANTED, Session, View, id_of};

/// The batch that the session's `k`-th record makes, `k` counting from 0: that it was taken, and
/// then exactly what it is taken as over the facts of the view. It fails only for want of memory.
pub fn take<V: View>(
    alloc: Global,
    view: &V,
    session: &Session,
    k: u64,
    rec: Record,
) -> Result<Batch, AllocError>
    ensures { IfOk result (λ batch. batch ≡ take_of (V.seen view.now).facts session.now k rec) }
{
    let (batch, _) = take_known(alloc, view, session, k, rec)?;
    Ok(batch)
}

/// The same batch, and the id of the message that arrives by it, which had to be computed; `None`
/// where none arrives. It fails only for want of memory.
#[tactic(auto, using(crate::proofs::Arrived::record_names))]
pub fn take_known<V: View>(
    alloc: Global,
    view: &V,
    session: &Session,
    k: u64,
    rec: Record,
) -> Result<(Batch, Option<MessageId>), AllocError>
    ensures batch { IfOk result (λ taken. taken.0 ≡ take_of (V.seen view.now).facts session.now k
        rec) }
    ensures id { IfOk result (λ taken. taken.1 ≡ id_arrived taken.0) }
    ensures named { IfOk result (λ taken. IsOfAll taken.1 taken.0) }
{
    let mut entries = Vec::new(alloc);
    entries.push(Entry::Take(session.number, k))?;
    let id = add_record(alloc, view, session, rec, &mut entries)?;
    match Batch::new(entries) {
        Ok(batch) => Ok((batch, id)),
        Err(_) => unreachable!(),
    }
}

// Adds what a record is taken as, and answers the id of the message that arrives by it.
#[tactic(auto, using(crate::proofs::Arrived::none_by_acks, crate::proofs::Arrived::none_by_offers, crate::proofs::Arrived::none_by_requests))]
fn add_record<V: View>(
    alloc: Global,
    view: &V,
    session: &Session,
    rec: Record,
    entries: &mut Vec<Entry>,
) -> Result<Option<MessageId>, AllocError>
    ensures entries { OnOk result (entries.new.items ≡ entries.old.items ++ taken_from
        (V.seen view.now).facts session.now.number session.now.contact rec) }
    ensures id { IfOk result (λ id. id ≡ id_arrived (taken_from (V.seen view.now).facts
        session.now.number session.now.contact rec)) }
{
    match rec {
        Record::Message(message) => add_message(view, session, message, entries),
        Record::Ack(ids) => {
            let ids = first_ids(alloc, ids.as_slice())?;
            add_acks(view, session, ids.as_slice(), entries).map(|()| None)
        }
        Record::Offer(ids) => {
            let ids = first_ids(alloc, ids.as_slice())?;
            add_offers(view, session, ids.as_slice(), entries).map(|()| None)
        }
        Record::Request(ids) => {
            let ids = first_ids(alloc, ids.as_slice())?;
            add_requests(view, session, ids.as_slice(), entries).map(|()| None)
        }
        Record::Versions(_) | Record::Priority(_) => Ok(None),
    }
}

// Whether the held message of this number is in a group that is not Invisible to the contact.
fn is_shown_at<V: View>(view: &V, contact: u8, number: u32) -> bool
    requires { number < length (V.seen view.now).facts.held }
    ensures { result ≡ not
        (is_invisible (level_at (V.seen view.now).facts.levels contact
        (group_in (slice_get (V.seen view.now).facts.held number)))) }
{
    view.level(contact, &view.group_at(number)) != Level::Invisible
}

// The number of the message of this id, where it is held in a group that is not Invisible to the
// contact.
fn find_shown<V: View>(view: &V, contact: u8, id: &MessageId) -> Option<u32>
    ensures { MatchOption result (is_shown (V.seen view.now).facts contact id.now ≡ false)
        (IsShownPlace (V.seen view.now).facts contact id.now) }
{
    let number = view.find(id)?;
    if is_shown_at(view, contact, number) {
        Some(number)
    } else {
        None
    }
}

// ---- a message

// Adds what a message is taken as, and answers its id where it arrives.
fn add_message<V: View>(
    view: &V,
    session: &Session,
    message: Message,
    entries: &mut Vec<Entry>,
) -> Result<Option<MessageId>, AllocError>
    ensures entries { OnOk result (entries.new.items ≡ entries.old.items ++ taken_message
        (V.seen view.now).facts session.now.number session.now.contact message) }
    ensures id { IfOk result (λ id. id ≡ id_arrived (taken_message (V.seen view.now).facts
        session.now.number session.now.contact message)) }
{
    if view.level(session.contact, &message.group()) == Level::Invisible {
        return Ok(None);
    }
    let id = id_of(&message);
    match view.find(&id) {
        None => {
            entries.push(Entry::Arrive(session.number, message))?;
            Ok(Some(id))
        }
        Some(number) => {
            if is_shown_at(view, session.contact, number) {
                entries.push(Entry::Again(session.number, id))?;
            }
            Ok(None)
        }
    }
}

// ---- lists of ids

fn add_acks<V: View>(
    view: &V,
    session: &Session,
    ids: &[MessageId],
    entries: &mut Vec<Entry>,
) -> Result<(), AllocError>
    ensures { OnOk result (entries.new.items ≡ entries.old.items ++ taken_acks
        (V.seen view.now).facts session.now.number session.now.contact ids.now) }
{
    for id in ids {
        if is_news(view, session.contact, id) {
            entries.push(Entry::Seen(session.number, *id))?;
        }
    }
    Ok(())
}

// Whether an acknowledgement of this id says something new: the message is shown to the contact,
// which has not seen it.
fn is_news<V: View>(view: &V, contact: u8, id: &MessageId) -> bool
    ensures { result ≡ (is_shown (V.seen view.now).facts contact id.now && not
        (row_at (V.seen view.now).facts.rows contact id.now).seen) }
{
    match find_shown(view, contact, id) {
        None => false,
        Some(number) => !view.is_seen(contact, number),
    }
}

fn add_requests<V: View>(
    view: &V,
    session: &Session,
    ids: &[MessageId],
    entries: &mut Vec<Entry>,
) -> Result<(), AllocError>
    ensures { OnOk result (entries.new.items ≡ entries.old.items ++ taken_requests
        (V.seen view.now).facts session.now.number session.now.contact ids.now) }
{
    for id in ids {
        if find_shown(view, session.contact, id).is_some() {
            entries.push(Entry::Asked(session.number, *id))?;
        }
    }
    Ok(())
}

fn add_offers<V: View>(
    view: &V,
    session: &Session,
    ids: &[MessageId],
    entries: &mut Vec<Entry>,
) -> Result<(), AllocError>
    ensures { OnOk result (entries.new.items ≡ entries.old.items ++ taken_offers
        (V.seen view.now).facts session.now.number session.now.contact
        (MAX_WANTED - length (wanted_from (V.seen view.now).facts.wanted session.now.contact))
        ids.now) }
{
    let mut room = MAX_WANTED.saturating_sub(view.wanted_count(session.contact));
    for id in ids {
        room = add_offer(view, session, room, id, entries)?;
    }
    Ok(())
}

// Adds what an offered id is taken as, with room for so many further wanted ids, and answers the
// room that is left.
fn add_offer<V: View>(
    view: &V,
    session: &Session,
    room: u32,
    id: &MessageId,
    entries: &mut Vec<Entry>,
) -> Result<u32, AllocError>
    ensures entries { OnOk result (entries.new.items ≡ entries.old.items ++ taken_offer
        (V.seen view.now).facts session.now.number session.now.contact room id.now) }
    ensures room { IfOk result
        (λ left. left ≡ room_after (is_remembered (V.seen view.now).facts session.now.contact room
        id.now) room) }
{
    if let Some(number) = view.find(id) {
        if is_shown_at(view, session.contact, number) {
            entries.push(Entry::Again(session.number, *id))?;
        }
        return Ok(room);
    }
    if room == 0 || view.is_wanted(session.contact, id) {
        return Ok(room);
    }
    entries.push(Entry::Offered(session.number, *id))?;
    Ok(room - 1)
}
