//! Reading the values that an entry holds.
ghost use Rattle.std.specs.Prelude.{◌≡◌, ◌≤◌, length, IfOk};
ghost use Rattle.std.specs.Str.{IsUtf8};
ghost use Rattle.entry_codec.specs.Answers.{ReadsPartFrom, ReadsList, ReadsText};
ghost use Rattle.entry_codec.specs.Reading.{def_in, flags_in, held_in, ids_in, is_stated, level_in};
ghost use Rattle.entry_codec.specs.Reading.{list_in, message_in, mode_in, name_in, nonce_in};
ghost use Rattle.entry_codec.specs.Reading.{origin_in, out_in, session_in, tried_in};

use crate::front::Front;
use crate::naming::{Format, Names};
use crate::stop::Stop;
use std::alloc::Global;
use sync_ids::{
    GroupDef, IdList, MAX_BODY, MAX_DESCRIPTOR, MAX_IDS, MAX_NAME, Message, MessageId, Nonce,
};
use sync_rules::{Level, MAX_TRIES, Mode, Origin, Out, Session, Tried};

#[tactic(auto, unfolding(crate::specs::Reading::name_in))]
fn read_name<'a>(front: &mut Front<'a>) -> Result<&'a str, Stop>
    ensures read { ReadsText name_in front.old.rest.now result front.new.rest.now }
    ensures some { IfOk result (λ name. 1 ≤ length name.now) }
    ensures short { IfOk result (λ name. length name.now ≤ MAX_NAME) }
{
    let len = front.read_byte()?;
    if len == 0 {
        return Err(Stop::BadEntry);
    }
    match str::from_utf8(front.read_front(len as usize)?) {
        Ok(name) => Ok(name),
        Err(_) => Err(Stop::BadEntry),
    }
}

#[tactic(auto, unfolding(crate::specs::Reading::def_in))]
pub(crate) fn read_def(alloc: Global, front: &mut Front) -> Result<GroupDef, Stop>
    ensures { ReadsPartFrom def_in front.old.rest.now result front.new.rest.now }
{
    let name = read_name(front)?;
    let major = front.read_u32()?;
    let descriptor = front.read_counted(0, MAX_DESCRIPTOR)?;
    let name = String::from_str(alloc, name)?;
    match GroupDef::new(name, major, Vec::from_slice(alloc, descriptor)?) {
        Ok(def) => Ok(def),
        Err(_) => unreachable!(),
    }
}

#[tactic(auto, unfolding(crate::specs::Reading::message_in))]
pub(crate) fn read_message(alloc: Global, front: &mut Front) -> Result<Message, Stop>
    ensures { ReadsPartFrom message_in front.old.rest.now result front.new.rest.now }
{
    let group = front.read_id()?;
    let time = front.read_time()?;
    let body = front.read_counted(1, MAX_BODY)?;
    match Message::new(group, time, Vec::from_slice(alloc, body)?) {
        Ok(message) => Ok(message),
        Err(_) => unreachable!(),
    }
}

#[tactic(auto, unfolding(crate::specs::Reading::level_in))]
pub(crate) fn read_level(front: &mut Front) -> Result<Level, Stop>
    ensures { ReadsPartFrom level_in front.old.rest.now result front.new.rest.now }
{
    match front.read_byte()? {
        0 => Ok(Level::Invisible),
        1 => Ok(Level::Visible),
        2 => Ok(Level::Shared),
        _ => Err(Stop::BadEntry),
    }
}

#[tactic(auto, unfolding(crate::specs::Reading::mode_in))]
fn read_mode(front: &mut Front) -> Result<Mode, Stop>
    ensures { ReadsPartFrom mode_in front.old.rest.now result front.new.rest.now }
{
    match front.read_byte()? {
        0 => Ok(Mode::Interactive),
        1 => Ok(Mode::Batch),
        _ => Err(Stop::BadEntry),
    }
}

#[tactic(auto, unfolding(crate::specs::Reading::nonce_in))]
fn read_flagged_nonce(front: &mut Front) -> Result<Option<Nonce>, Stop>
    ensures { ReadsPartFrom nonce_in front.old.rest.now result front.new.rest.now }
{
    match front.read_byte()? {
        0 => Ok(None),
        1 => Ok(Some(front.read_nonce()?)),
        _ => Err(Stop::BadEntry),
    }
}

#[tactic(auto, unfolding(crate::specs::Reading::session_in))]
pub(crate) fn read_session(front: &mut Front) -> Result<Session, Stop>
    ensures { ReadsPartFrom session_in front.old.rest.now result front.new.rest.now }
{
    let number = front.read_u32()?;
    let contact = front.read_byte()?;
    let mode = read_mode(front)?;
    let latency = front.read_latency()?;
    let nonce = read_flagged_nonce(front)?;
    Ok(Session {
        number,
        contact,
        mode,
        latency,
        nonce,
    })
}

#[tactic(auto, unfolding(crate::specs::Reading::ids_in))]
fn read_ids<N: Names>(
    alloc: Global,
    format: Format,
    names: &N,
    front: &mut Front,
) -> Result<IdList<MAX_IDS>, Stop>
    ensures { ReadsPartFrom (ids_in (held_in format (N.named names.now))) front.old.rest.now result
        front.new.rest.now }
{
    let count = front.read_count(1, MAX_IDS)?;
    match IdList::new(read_list(alloc, format, names, front, count)?) {
        Ok(ids) => Ok(ids),
        Err(_) => unreachable!(),
    }
}

fn read_list<N: Names>(
    alloc: Global,
    format: Format,
    names: &N,
    front: &mut Front,
    count: usize,
) -> Result<Vec<MessageId>, Stop>
    ensures read { ReadsList (list_in (held_in format (N.named names.now)) count)
        front.old.rest.now result front.new.rest.now }
    ensures len { IfOk result (λ ids. length ids.items ≡ count) }
{
    let mut ids = Vec::new(alloc);
    'ids: for i in 0..count {
        ids.push(front.read_held(format, names)?)?;
    }
    Ok(ids)
}

// The ids that are requested are those of messages that are not held.
#[tactic(auto, unfolding(crate::specs::Reading::out_in))]
pub(crate) fn read_out<N: Names>(
    alloc: Global,
    format: Format,
    names: &N,
    front: &mut Front,
) -> Result<Out, Stop>
    ensures { ReadsPartFrom (out_in (held_in format (N.named names.now))) front.old.rest.now result
        front.new.rest.now }
{
    match front.read_byte()? {
        0 => Ok(Out::Acks(read_ids(alloc, format, names, front)?)),
        1 => Ok(Out::Requests(read_ids(alloc, Format::Whole, names, front)?)),
        2 => Ok(Out::Offers(read_ids(alloc, format, names, front)?)),
        3 => Ok(Out::Send(front.read_held(format, names)?)),
        _ => Err(Stop::BadEntry),
    }
}

#[tactic(auto, unfolding(crate::specs::Reading::origin_in))]
pub(crate) fn read_origin(front: &mut Front) -> Result<Origin, Stop>
    ensures { ReadsPartFrom origin_in front.old.rest.now result front.new.rest.now }
{
    let flag = front.read_byte()?;
    let contact = front.read_byte()?;
    match flag {
        0 if contact == 0 => Ok(Origin::Author),
        1 => Ok(Origin::From(contact)),
        _ => Err(Stop::BadEntry),
    }
}

// The three flags of a row.
#[tactic(auto, unfolding(crate::specs::Reading::flags_in))]
fn read_flags(front: &mut Front) -> Result<(bool, bool, bool), Stop>
    ensures { ReadsPartFrom flags_in front.old.rest.now result front.new.rest.now }
{
    let flags = front.read_byte()?;
    if flags > 7 {
        return Err(Stop::BadEntry);
    }
    Ok((flags % 2 == 1, flags / 2 % 2 == 1, flags / 4 == 1))
}

// Whether a row may be stated.
fn is_stated(tried: &Tried) -> bool
    ensures { result ≡ is_stated tried.now }
{
    let has_wait = tried.tries != 0 || tried.expiry == 0;
    let is_empty = !tried.seen && !tried.owed && !tried.asked && tried.tries == 0;
    tried.tries <= MAX_TRIES && has_wait && !is_empty
}

// What is kept of a message that is held.
#[tactic(auto, unfolding(crate::specs::Reading::tried_in))]
pub(crate) fn read_tried<N: Names>(
    format: Format,
    names: &N,
    front: &mut Front,
) -> Result<Tried, Stop>
    ensures { ReadsPartFrom (tried_in (held_in format (N.named names.now))) front.old.rest.now result
        front.new.rest.now }
{
    let contact = front.read_byte()?;
    let id = front.read_held(format, names)?;
    let (seen, owed, asked) = read_flags(front)?;
    let tries = front.read_byte()?;
    let expiry = front.read_u64()?;
    let tried = Tried {
        contact,
        id,
        seen,
        owed,
        asked,
        tries,
        expiry,
    };
    if is_stated(&tried) {
        Ok(tried)
    } else {
        Err(Stop::BadEntry)
    }
}
