//! The lines of the commands that show what a store holds, and of a played script. Each builder
//! appends its line; it fails only for want of memory, and then nothing is said of what was
//! appended.
ghost use Rattle.std.specs.Prelude.{◌≡◌, ◌++◌, OnOk};
ghost use Rattle.std.specs.String.{string_bytes};
ghost use Rattle.sync_words.specs.HeldTexts.{contacts_text, device_text, inbox_text};
ghost use Rattle.sync_words.specs.HeldTexts.{known_group_text, message_state_text, sessions_text};
ghost use Rattle.sync_words.specs.HeldTexts.{states_text};
ghost use Rattle.sync_words.specs.Texts.{origin_text, state_text};

use std::alloc::{AllocError, Global};
use sync_ids::{GroupDef, GroupId, MessageId};
use sync_rules::{Fate, Origin};

// A state in words.
fn state_word(fate: Fate) -> &'static str
    ensures { result.now ≡ state_text fate }
{
    match fate {
        Fate::Unknown => "unknown",
        Fate::Pending => "pending",
        Fate::Invalid => "invalid",
        Fate::Delivered => "delivered",
    }
}

/// The number of contacts.
pub fn contacts_line(n: u32, to: &mut String) -> Result<(), AllocError>
    ensures { OnOk result (string_bytes to.new ≡ string_bytes to.old ++ contacts_text n) }
{
    writeln!(to, "contacts {n}")
}

/// A group: its id, its client's name in digits, its major version, and its descriptor in digits.
pub fn known_group_line(
    alloc: Global,
    group: &GroupId,
    def: &GroupDef,
    to: &mut String,
) -> Result<(), AllocError>
    ensures { OnOk result (string_bytes to.new ≡ string_bytes to.old ++ known_group_text group.now
        def.now) }
{
    let group = group.to_hex(alloc)?;
    let name = hex::encode(alloc, def.name().as_bytes())?;
    let major = def.major();
    let descriptor = hex::encode(alloc, def.descriptor())?;
    writeln!(to, "group {group} {name} {major} {descriptor}")
}

/// A held message: its id, its group and its state.
pub fn state_line(
    alloc: Global,
    id: &MessageId,
    group: &GroupId,
    fate: Fate,
    to: &mut String,
) -> Result<(), AllocError>
    ensures { OnOk result (string_bytes to.new ≡ string_bytes to.old ++ message_state_text id.now
        group.now fate) }
{
    let id = id.to_hex(alloc)?;
    let group = group.to_hex(alloc)?;
    let state = state_word(fate);
    writeln!(to, "message {id} {group} {state}")
}

/// The number of sessions.
pub fn sessions_line(n: u32, to: &mut String) -> Result<(), AllocError>
    ensures { OnOk result (string_bytes to.new ≡ string_bytes to.old ++ sessions_text n) }
{
    writeln!(to, "sessions {n}")
}

// Where a message came from.
fn add_origin(origin: Origin, to: &mut String) -> Result<(), AllocError>
    ensures { OnOk result (string_bytes to.new ≡ string_bytes to.old ++ origin_text origin) }
{
    match origin {
        Origin::Author => to.push_str("self"),
        Origin::From(contact) => write!(to, "{contact}"),
    }
}

/// A delivered message: its id, its group, its time, where it came from, and the length of its
/// body.
pub fn inbox_line(
    alloc: Global,
    id: &MessageId,
    group: &GroupId,
    timestamp: u64,
    origin: Origin,
    len: u32,
    to: &mut String,
) -> Result<(), AllocError>
    ensures { OnOk result (string_bytes to.new ≡ string_bytes to.old ++ inbox_text id.now group.now
        timestamp origin len) }
{
    let id = id.to_hex(alloc)?;
    let group = group.to_hex(alloc)?;
    write!(to, "{id} {group} {timestamp} ")?;
    add_origin(origin, to)?;
    writeln!(to, " {len}")
}

/// How many messages a device of a played script holds, and how many of them are in each state.
pub fn device_line(
    device: u8,
    held: u32,
    delivered: u32,
    invalid: u32,
    pending: u32,
    unknown: u32,
    to: &mut String,
) -> Result<(), AllocError>
    ensures { OnOk result (string_bytes to.new ≡ string_bytes to.old ++ device_text device held
        delivered invalid pending unknown) }
{
    write!(to, "device {device} held {held}")?;
    add_states(delivered, invalid, pending, unknown, to)
}

fn add_states(
    delivered: u32,
    invalid: u32,
    pending: u32,
    unknown: u32,
    to: &mut String,
) -> Result<(), AllocError>
    ensures { OnOk result (string_bytes to.new ≡ string_bytes to.old ++ states_text delivered
        invalid pending unknown) }
{
    writeln!(
        to,
        " delivered {delivered} invalid {invalid} pending {pending} unknown {unknown}"
    )
}
