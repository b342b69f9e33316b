//! Spelling an entry.
ghost use Rattle.std.specs.Prelude.{◌≡◌, ◌+◌, ◌*◌, ◌++◌, ◌∷◌, ◌≤◌, [], List, ℕ, cond, length, true};
ghost use Rattle.std.specs.Prelude.{OnOk, OnErr};
ghost use Rattle.std.specs.Int.{w16, w32, w64, to_be_bytes};
ghost use Rattle.std.specs.List.{AllByRecursion, flat_map};
ghost use Rattle.entry_codec.specs.Naming.{IsNamed, held_bytes};
ghost use Rattle.entry_codec.specs.Spelling.{AddsTo, EntryNames, IsDef, IsEntry, IsOld};
ghost use Rattle.entry_codec.specs.Spelling.{IsOrigin, IsOut, IsSession, IsStated, IsTried};
ghost use Rattle.entry_codec.specs.Spelling.{MayBeWritten, OutNames, SpellsEntry, SpellsIn};
ghost use Rattle.entry_codec.specs.Spelling.{def_bytes, entry_bytes, flags_byte, ids_bytes};
ghost use Rattle.entry_codec.specs.Spelling.{level_byte, message_bytes, mode_byte, origin_bytes};
ghost use Rattle.entry_codec.specs.Spelling.{out_bytes, session_bytes, spelling, spelling_in};
ghost use Rattle.entry_codec.specs.Spelling.{tried_bytes, whole};
ghost use Rattle.entry_codec.specs.declared.naming.Format.TheVariants as format_kind;
ghost use Rattle.sync_ids.specs.Values.{AreIds, IsIdList, IsMessage};
ghost use Rattle.sync_rules.specs.Lists.{is_among};
ghost use Rattle.sync_rules.specs.declared.entries.Entry.TheVariants as entry_kind;

use crate::naming::{Format, Names, NoNames, show_whole};
use std::alloc::AllocError;
use sync_ids::{GroupDef, GroupId, IdList, MAX_IDS, Message, MessageId};
use sync_rules::{Entry, Level, Mode, Origin, Out, Session, Tried};

fn level_byte(level: Level) -> u8
    ensures { result ≡ level_byte level }
{
    match level {
        Level::Invisible => 0,
        Level::Visible => 1,
        Level::Shared => 2,
    }
}

fn mode_byte(mode: Mode) -> u8
    ensures { result ≡ mode_byte mode }
{
    match mode {
        Mode::Interactive => 0,
        Mode::Batch => 1,
    }
}

fn append_def(def: &GroupDef, to: &mut Vec<u8>) -> Result<(), AllocError>
    ensures ok { OnOk result (to.new.items ≡ to.old.items ++ def_bytes def.now) }
    ensures within { OnOk result (IsDef def.now) }
    ensures err { OnErr result (AddsTo to.old.items to.new.items) }
{
    let name = def.name().as_bytes();
    let descriptor = def.descriptor();
    to.push(name.len() as u8)?;
    to.extend_from_slice(name)?;
    to.extend_from_slice(&def.major().to_be_bytes())?;
    to.extend_from_slice(&(descriptor.len() as u16).to_be_bytes())?;
    to.extend_from_slice(descriptor)
}

fn append_group(def: &GroupDef, to: &mut Vec<u8>) -> Result<(), AllocError>
    ensures ok { OnOk result (to.new.items ≡ to.old.items ++ (2 ∷ def_bytes def.now)) }
    ensures within { OnOk result (IsDef def.now) }
    ensures err { OnErr result (AddsTo to.old.items to.new.items) }
{
    to.push(2)?;
    append_def(def, to)
}

fn append_message(message: &Message, to: &mut Vec<u8>) -> Result<(), AllocError>
    ensures ok { OnOk result (to.new.items ≡ to.old.items ++ message_bytes message.now) }
    ensures within { IsMessage message.now }
    ensures err { OnErr result (AddsTo to.old.items to.new.items) }
{
    let body = message.body();
    to.extend_from_slice(message.group().as_bytes())?;
    to.extend_from_slice(&message.timestamp().to_be_bytes())?;
    to.extend_from_slice(&(body.len() as u16).to_be_bytes())?;
    to.extend_from_slice(body)
}

fn append_session(session: &Session, to: &mut Vec<u8>) -> Result<(), AllocError>
    requires { 1 ≤ session.now.latency }
    ensures ok { OnOk result (to.new.items ≡ to.old.items ++ session_bytes session.now) }
    ensures within { OnOk result (IsSession session.now) }
    ensures err { OnErr result (AddsTo to.old.items to.new.items) }
{
    to.extend_from_slice(&session.number.to_be_bytes())?;
    to.extend_from_slice(&[session.contact, mode_byte(session.mode)])?;
    to.extend_from_slice(&session.latency.to_be_bytes())?;
    match &session.nonce {
        None => to.extend_from_slice(&[0]),
        Some(nonce) => {
            to.extend_from_slice(&[1])?;
            to.extend_from_slice(nonce.as_bytes())
        }
    }
}

fn append_origin(from: Origin, to: &mut Vec<u8>) -> Result<(), AllocError>
    ensures ok { OnOk result (to.new.items ≡ to.old.items ++ origin_bytes from) }
    ensures within { IsOrigin from }
    ensures err { OnErr result (AddsTo to.old.items to.new.items) }
{
    match from {
        Origin::Author => to.extend_from_slice(&[0, 0]),
        Origin::From(contact) => to.extend_from_slice(&[1, contact]),
    }
}

// What a flag adds.
fn flag_weight(flag: bool, weight: u8) -> u8
    ensures { result ≡ cond flag weight 0 }
{
    if flag { weight } else { 0 }
}

fn flags_byte(tried: &Tried) -> u8
    ensures { result ≡ flags_byte tried.now.seen tried.now.owed tried.now.asked }
{
    flag_weight(tried.seen, 1) + (flag_weight(tried.owed, 2) + flag_weight(tried.asked, 4))
}

// The id of a message that is held, as the format names it.
fn append_held<N: Names>(
    format: Format,
    names: &N,
    id: &MessageId,
    to: &mut Vec<u8>,
) -> Result<(), AllocError>
    requires { IsNamed format (N.named names.now) id.now }
    ensures ok { OnOk result
        (to.new.items ≡ to.old.items ++ held_bytes format (N.named names.now) id.now) }
    ensures within { length id.now ≡ 32 }
    ensures err { OnErr result (AddsTo to.old.items to.new.items) }
{
    match format {
        Format::Whole => to.extend_from_slice(id.as_bytes()),
        Format::Short => {
            show_whole(id);
            match names.number(id) {
                Some(number) => to.extend_from_slice(&number.to_be_bytes()),
                None => unreachable!(),
            }
        }
    }
}

fn append_ids<N: Names>(
    format: Format,
    names: &N,
    ids: &[MessageId],
    to: &mut Vec<u8>,
) -> Result<(), AllocError>
    requires { AllByRecursion (IsNamed format (N.named names.now)) ids.now }
    ensures ok { OnOk result (to.new.items
        ≡ to.old.items ++ flat_map (held_bytes format (N.named names.now)) ids.now) }
    ensures err { OnErr result (AddsTo to.old.items to.new.items) }
{
    'ids: for id in ids {
        append_held(format, names, id, to)?;
    }
    Ok(())
}

fn append_list<N: Names>(
    format: Format,
    names: &N,
    kind: u8,
    ids: &IdList<MAX_IDS>,
    to: &mut Vec<u8>,
) -> Result<(), AllocError>
    requires { AllByRecursion (IsNamed format (N.named names.now)) ids.now }
    ensures ok { OnOk result (to.new.items
        ≡ to.old.items ++ (kind ∷ ids_bytes (held_bytes format (N.named names.now)) ids.now)) }
    ensures within { OnOk result (IsIdList MAX_IDS ids.now) }
    ensures err { OnErr result (AddsTo to.old.items to.new.items) }
{
    let ids = ids.as_slice();
    to.push(kind)?;
    to.extend_from_slice(&(ids.len() as u16).to_be_bytes())?;
    append_ids(format, names, ids, to)
}

// The ids that are requested are those of messages that are not held.
fn append_requests(ids: &IdList<MAX_IDS>, to: &mut Vec<u8>) -> Result<(), AllocError>
    ensures ok { OnOk result (to.new.items ≡ to.old.items ++ (1 ∷ ids_bytes whole ids.now)) }
    ensures within { OnOk result (IsIdList MAX_IDS ids.now) }
    ensures err { OnErr result (AddsTo to.old.items to.new.items) }
{
    append_list(Format::Whole, &NoNames, 1, ids, to)
}

fn append_out<N: Names>(
    format: Format,
    names: &N,
    what: &Out,
    to: &mut Vec<u8>,
) -> Result<(), AllocError>
    requires { OutNames (IsNamed format (N.named names.now)) what.now }
    ensures ok { OnOk result (to.new.items
        ≡ to.old.items ++ out_bytes (held_bytes format (N.named names.now)) what.now) }
    ensures within { OnOk result (IsOut what.now) }
    ensures err { OnErr result (AddsTo to.old.items to.new.items) }
{
    match what {
        Out::Acks(ids) => append_list(format, names, 0, ids, to),
        Out::Requests(ids) => append_requests(ids, to),
        Out::Offers(ids) => append_list(format, names, 2, ids, to),
        Out::Send(id) => {
            to.push(3)?;
            append_held(format, names, id, to)
        }
    }
}

fn append_id<N: Names>(
    format: Format,
    names: &N,
    tag: u8,
    id: &MessageId,
    to: &mut Vec<u8>,
) -> Result<(), AllocError>
    requires { IsNamed format (N.named names.now) id.now }
    ensures ok { OnOk result
        (to.new.items ≡ to.old.items ++ (tag ∷ held_bytes format (N.named names.now) id.now)) }
    ensures within { OnOk result (length id.now ≡ 32) }
    ensures err { OnErr result (AddsTo to.old.items to.new.items) }
{
    to.push(tag)?;
    append_held(format, names, id, to)
}

fn append_number(tag: u8, session: u32, to: &mut Vec<u8>) -> Result<(), AllocError>
    ensures ok { OnOk result (to.new.items ≡ to.old.items ++ (tag ∷ to_be_bytes w32 session)) }
    ensures err { OnErr result (AddsTo to.old.items to.new.items) }
{
    to.push(tag)?;
    to.extend_from_slice(&session.to_be_bytes())
}

fn append_pair<N: Names>(
    format: Format,
    names: &N,
    tag: u8,
    session: u32,
    id: &MessageId,
    to: &mut Vec<u8>,
) -> Result<(), AllocError>
    requires { IsNamed format (N.named names.now) id.now }
    ensures ok { OnOk result (to.new.items
        ≡ to.old.items
        ++ (tag ∷ (to_be_bytes w32 session ++ held_bytes format (N.named names.now) id.now))) }
    ensures within { OnOk result (length id.now ≡ 32) }
    ensures err { OnErr result (AddsTo to.old.items to.new.items) }
{
    append_number(tag, session, to)?;
    append_held(format, names, id, to)
}

fn append_level(
    contact: u8,
    group: &GroupId,
    level: Level,
    to: &mut Vec<u8>,
) -> Result<(), AllocError>
    ensures ok { OnOk result
        (to.new.items ≡ to.old.items ++ (3 ∷ contact ∷ (group.now ++ level_byte level ∷ []))) }
    ensures within { OnOk result (length group.now ≡ 32) }
    ensures err { OnErr result (AddsTo to.old.items to.new.items) }
{
    to.extend_from_slice(&[3, contact])?;
    to.extend_from_slice(group.as_bytes())?;
    to.push(level_byte(level))?;
    Ok(())
}

fn append_take(session: u32, k: u64, to: &mut Vec<u8>) -> Result<(), AllocError>
    ensures ok { OnOk result
        (to.new.items ≡ to.old.items ++ (5 ∷ (to_be_bytes w32 session ++ to_be_bytes w64 k))) }
    ensures err { OnErr result (AddsTo to.old.items to.new.items) }
{
    append_number(5, session, to)?;
    to.extend_from_slice(&k.to_be_bytes())
}

fn append_arrival(session: u32, message: &Message, to: &mut Vec<u8>) -> Result<(), AllocError>
    ensures ok { OnOk result
        (to.new.items ≡ to.old.items
        ++ (7 ∷ (to_be_bytes w32 session ++ message_bytes message.now))) }
    ensures within { OnOk result (IsMessage message.now) }
    ensures err { OnErr result (AddsTo to.old.items to.new.items) }
{
    append_number(7, session, to)?;
    append_message(message, to)
}

fn append_sent<N: Names>(
    format: Format,
    names: &N,
    session: u32,
    now: u64,
    what: &Out,
    to: &mut Vec<u8>,
) -> Result<(), AllocError>
    requires { OutNames (IsNamed format (N.named names.now)) what.now }
    ensures ok { OnOk result (to.new.items
        ≡ to.old.items ++ (15
        ∷ (to_be_bytes w32 session
        ++ (to_be_bytes w64 now ++ out_bytes (held_bytes format (N.named names.now)) what.now)))) }
    ensures within { OnOk result (IsOut what.now) }
    ensures err { OnErr result (AddsTo to.old.items to.new.items) }
{
    append_number(15, session, to)?;
    to.extend_from_slice(&now.to_be_bytes())?;
    append_out(format, names, what, to)
}

// A message that was offered is not held.
fn append_offered(session: u32, id: &MessageId, to: &mut Vec<u8>) -> Result<(), AllocError>
    ensures ok { OnOk result
        (to.new.items ≡ to.old.items ++ (12 ∷ (to_be_bytes w32 session ++ whole id.now))) }
    ensures within { OnOk result (length id.now ≡ 32) }
    ensures err { OnErr result (AddsTo to.old.items to.new.items) }
{
    append_pair(Format::Whole, &NoNames, 12, session, id, to)
}

fn append_brief(number: u32, to: &mut Vec<u8>) -> Result<(), AllocError>
    ensures ok { OnOk result (to.new.items ≡ to.old.items ++ (16 ∷ to_be_bytes w32 number)) }
    ensures err { OnErr result (AddsTo to.old.items to.new.items) }
{
    append_number(16, number, to)
}

fn append_kept(from: Origin, message: &Message, to: &mut Vec<u8>) -> Result<(), AllocError>
    ensures ok { OnOk result (to.new.items
        ≡ to.old.items ++ (17 ∷ (origin_bytes from ++ message_bytes message.now))) }
    ensures within { OnOk result (IsEntry (entry_kind.Kept from message.now)) }
    ensures err { OnErr result (AddsTo to.old.items to.new.items) }
{
    to.push(17)?;
    append_origin(from, to)?;
    append_message(message, to)
}

// Shows the prover that a row that may be stated is within its limits. It does nothing.
fn show_tried(tried: &Tried)
    requires { IsStated tried.now }
    ensures { IsTried tried.now }
{
    let _contact = tried.contact;
    let _expiry = tried.expiry;
    show_whole(&tried.id);
}

fn append_tried<N: Names>(
    format: Format,
    names: &N,
    tried: &Tried,
    to: &mut Vec<u8>,
) -> Result<(), AllocError>
    requires stated { IsStated tried.now }
    requires named { IsNamed format (N.named names.now) tried.now.id }
    ensures ok { OnOk result (to.new.items ≡ to.old.items
        ++ (18 ∷ tried_bytes (held_bytes format (N.named names.now)) tried.now)) }
    ensures within { IsTried tried.now }
    ensures err { OnErr result (AddsTo to.old.items to.new.items) }
{
    show_tried(tried);
    to.extend_from_slice(&[18, tried.contact])?;
    append_held(format, names, &tried.id, to)?;
    to.extend_from_slice(&[flags_byte(tried), tried.tries])?;
    to.extend_from_slice(&tried.expiry.to_be_bytes())
}

// A message that is wanted is not held.
fn append_want(contact: u8, id: &MessageId, to: &mut Vec<u8>) -> Result<(), AllocError>
    ensures ok { OnOk result (to.new.items ≡ to.old.items ++ (19 ∷ contact ∷ whole id.now)) }
    ensures within { OnOk result (length id.now ≡ 32) }
    ensures err { OnErr result (AddsTo to.old.items to.new.items) }
{
    to.extend_from_slice(&[19, contact])?;
    to.extend_from_slice(id.as_bytes())
}

// After want of memory a part of the spelling may stand.
fn append_tagged<N: Names>(
    format: Format,
    names: &N,
    entry: &Entry,
    to: &mut Vec<u8>,
) -> Result<(), AllocError>
    requires written { MayBeWritten entry.now }
    requires named { EntryNames (IsNamed format (N.named names.now)) entry.now }
    ensures ok { OnOk result (to.new.items
        ≡ to.old.items ++ entry_bytes (held_bytes format (N.named names.now)) entry.now) }
    ensures within { OnOk result (IsEntry entry.now) }
    ensures err { OnErr result (AddsTo to.old.items to.new.items) }
{
    match entry {
        Entry::Contact(contact) => to.extend_from_slice(&[1, *contact]),
        Entry::Group(def) => append_group(def, to),
        Entry::Level(contact, group, level) => append_level(*contact, group, *level, to),
        Entry::Session(session) => {
            to.push(4)?;
            append_session(session, to)
        }
        Entry::Take(session, k) => append_take(*session, *k, to),
        Entry::Author(message) => {
            to.push(6)?;
            append_message(message, to)
        }
        Entry::Arrive(session, message) => append_arrival(*session, message, to),
        Entry::Judged(id) => append_id(format, names, 8, id, to),
        Entry::Deliver(id) => append_id(format, names, 9, id, to),
        Entry::Invalid(id) => append_id(format, names, 10, id, to),
        Entry::Again(session, id) => append_pair(format, names, 11, *session, id, to),
        Entry::Offered(session, id) => append_offered(*session, id, to),
        Entry::Seen(session, id) => append_pair(format, names, 13, *session, id, to),
        Entry::Asked(session, id) => append_pair(format, names, 14, *session, id, to),
        Entry::Out(session, now, what) => append_sent(format, names, *session, *now, what, to),
        Entry::Brief(number) => append_brief(*number, to),
        Entry::Kept(from, message) => append_kept(*from, message, to),
        Entry::Tried(tried) => append_tried(format, names, tried, to),
        Entry::Want(contact, id) => append_want(*contact, id, to),
    }
}

// Appends the one spelling of an entry in this format. After want of memory the bytes are as they
// were.
#[tactic(auto, unfolding(crate::specs::Spelling::spelling_in))]
pub(crate) fn append_entry<N: Names>(
    format: Format,
    names: &N,
    entry: &Entry,
    to: &mut Vec<u8>,
) -> Result<(), AllocError>
    requires written { MayBeWritten entry.now }
    requires named { EntryNames (IsNamed format (N.named names.now)) entry.now }
    ensures ok { OnOk result
        (to.new.items ≡ to.old.items ++ spelling_in format (N.named names.now) entry.now) }
    ensures within { OnOk result (IsEntry entry.now) }
    ensures err { OnErr result (to.new.items ≡ to.old.items) }
{
    let len = to.len();
    let appended = append_tagged(format, names, entry, to);
    if appended.is_err() {
        to.truncate(len);
    }
    appended
}

/// Appends the one spelling of an entry in format 1, which spells all kinds but the four that stand
/// in a brief account alone. A session's latency is at least 1. It fails only for want of memory,
/// and then leaves the bytes as they were.
pub fn write_entry(entry: &Entry, to: &mut Vec<u8>) -> Result<(), AllocError>
    requires written { MayBeWritten entry.now }
    requires old { IsOld entry.now }
    ensures ok { OnOk result (to.new.items ≡ to.old.items ++ spelling entry.now) }
    ensures spells { OnOk result (SpellsEntry entry.now (spelling entry.now)) }
    ensures err { OnErr result (to.new.items ≡ to.old.items) }
{
    append_entry(Format::Whole, &NoNames, entry, to)
}

/// Appends the one spelling of an entry in format 2, where these are the names of the messages
/// held. A session's latency is at least 1; a row has at most `MAX_TRIES` tries, no expiry without
/// a try, and is not empty; and each message that the entry names as held has a name. It fails only
/// for want of memory, and then leaves the bytes as they were.
pub fn write_short<N: Names>(entry: &Entry, names: &N, to: &mut Vec<u8>) -> Result<(), AllocError>
    requires written { MayBeWritten entry.now }
    requires named { EntryNames (λ id. is_among (N.named names.now) id ≡ true) entry.now }
    ensures ok { OnOk result (to.new.items
        ≡ to.old.items ++ spelling_in format_kind.Short (N.named names.now) entry.now) }
    ensures spells { OnOk result (SpellsIn format_kind.Short (N.named names.now) entry.now
        (spelling_in format_kind.Short (N.named names.now) entry.now)) }
    ensures err { OnErr result (to.new.items ≡ to.old.items) }
{
    append_entry(Format::Short, names, entry, to)
}

/// Appends the spelling in format 2 of the entry that a group of this definition was added,
/// whatever the names. It fails only for want of memory, and then leaves the bytes as they were.
pub fn write_group(def: &GroupDef, to: &mut Vec<u8>) -> Result<(), AllocError>
    ensures ok { (names : List (List ℕ)) → OnOk result (to.new.items
        ≡ to.old.items ++ spelling_in format_kind.Short names (entry_kind.Group def.now)) }
    ensures within { OnOk result (IsEntry (entry_kind.Group def.now)) }
    ensures err { OnErr result (to.new.items ≡ to.old.items) }
{
    let len = to.len();
    let appended = append_group(def, to);
    if appended.is_err() {
        to.truncate(len);
    }
    appended
}

/// Appends the spelling in format 2 of the entry that this message is held, from there, whatever
/// the names. It fails only for want of memory, and then leaves the bytes as they were.
pub fn write_kept(from: Origin, message: &Message, to: &mut Vec<u8>) -> Result<(), AllocError>
    ensures ok { (names : List (List ℕ)) → OnOk result (to.new.items
        ≡ to.old.items ++ spelling_in format_kind.Short names (entry_kind.Kept from message.now)) }
    ensures within { OnOk result (IsEntry (entry_kind.Kept from message.now)) }
    ensures err { OnErr result (to.new.items ≡ to.old.items) }
{
    let len = to.len();
    let appended = append_kept(from, message, to);
    if appended.is_err() {
        to.truncate(len);
    }
    appended
}
