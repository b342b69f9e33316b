//! The lines of the commands that write a journal. Each builder appends its line; it fails only for
//! want of memory, and then nothing is said of what was appended.
ghost use Rattle.std.specs.Prelude.{◌≡◌, ◌++◌, OnOk};
ghost use Rattle.std.specs.String.{string_bytes};
ghost use Rattle.sync_words.specs.EntryTexts.{compacted_text, contact_text, group_text};
ghost use Rattle.sync_words.specs.EntryTexts.{posted_text, ready_text, set_level_text};
ghost use Rattle.sync_words.specs.Texts.{level_text};

use std::alloc::{AllocError, Global};
use sync_ids::{GroupId, MessageId};
use sync_rules::Level;

// A level in words.
fn level_word(level: Level) -> &'static str
    ensures { result.now ≡ level_text level }
{
    match level {
        Level::Invisible => "invisible",
        Level::Visible => "visible",
        Level::Shared => "shared",
    }
}

/// The line of `init`.
pub fn ready_line(to: &mut String) -> Result<(), AllocError>
    ensures { OnOk result (string_bytes to.new ≡ string_bytes to.old ++ ready_text) }
{
    to.push_str("ready\n")
}

/// The line of `contact`: the new contact's number.
pub fn contact_line(n: u8, to: &mut String) -> Result<(), AllocError>
    ensures { OnOk result (string_bytes to.new ≡ string_bytes to.old ++ contact_text n) }
{
    writeln!(to, "contact {n}")
}

/// The line of `group`: the new group's id.
pub fn group_line(alloc: Global, group: &GroupId, to: &mut String) -> Result<(), AllocError>
    ensures { OnOk result (string_bytes to.new ≡ string_bytes to.old ++ group_text group.now) }
{
    let group = group.to_hex(alloc)?;
    writeln!(to, "group {group}")
}

/// The line of a level: the contact, the group and the level.
pub fn level_line(
    alloc: Global,
    contact: u8,
    group: &GroupId,
    level: Level,
    to: &mut String,
) -> Result<(), AllocError>
    ensures { OnOk result (string_bytes to.new ≡ string_bytes to.old ++ set_level_text contact
        group.now level) }
{
    let group = group.to_hex(alloc)?;
    let level = level_word(level);
    writeln!(to, "level {contact} {group} {level}")
}

/// The line of `post`: the new message's id.
pub fn posted_line(alloc: Global, id: &MessageId, to: &mut String) -> Result<(), AllocError>
    ensures { OnOk result (string_bytes to.new ≡ string_bytes to.old ++ posted_text id.now) }
{
    let id = id.to_hex(alloc)?;
    writeln!(to, "posted {id}")
}

/// The line of `compact`: the place, in bytes, where the journal ended before it was written anew as
/// its brief account, and that where it ends now.
pub fn compacted_line(old: u64, new: u64, to: &mut String) -> Result<(), AllocError>
    ensures { OnOk result (string_bytes to.new ≡ string_bytes to.old ++ compacted_text old new) }
{
    writeln!(to, "compacted {old} {new}")
}
