//! The held messages as lines, in order of arrival, and which of them are due.
ghost use Rattle.plain_rules.specs.Lines.{line_by, line_place, lines_in, lines_of};
ghost use Rattle.std.specs.Option.{option_to_list};
ghost use Rattle.std.specs.Prelude.{◌≡◌, ◌+◌, ◌^◌, ◌<◌, ◌++◌, length, IfOk, OnOk};
ghost use Rattle.sync_rules.specs.Facts.{facts};
ghost use Rattle.sync_rules.specs.Sessions.{is_author};

use std::alloc::{AllocError, Global};
use sync_ids::{GroupId, MessageId};
use sync_rules::{Batch, Entry, Origin, id_of};

// A held message as a plain view keeps it.
#[derive(Clone, Copy, Debug, Drop)]
pub(crate) struct HeldLine {
    pub(crate) id: MessageId,
    pub(crate) group: GroupId,
    pub(crate) is_author: bool,
}

fn is_author(from: Origin) -> bool
    ensures { result ≡ is_author from }
{
    match from {
        Origin::Author => true,
        Origin::From(_) => false,
    }
}

// The line that an entry brings.
fn line_in(entry: &Entry) -> Option<HeldLine>
    ensures { option_to_list result ≡ line_by entry.now }
{
    match entry {
        Entry::Author(message) => Some(HeldLine {
            id: id_of(message),
            group: message.group(),
            is_author: true,
        }),
        Entry::Arrive(_, message) => Some(HeldLine {
            id: id_of(message),
            group: message.group(),
            is_author: false,
        }),
        Entry::Kept(from, message) => Some(HeldLine {
            id: id_of(message),
            group: message.group(),
            is_author: is_author(*from),
        }),
        _ => None,
    }
}

fn push_line(lines: &mut Vec<HeldLine>, entry: &Entry) -> Result<(), AllocError>
    ensures { OnOk result (lines.new.items ≡ lines.old.items ++ line_by entry.now) }
{
    if let Some(line) = line_in(entry) {
        lines.push(line)?;
    }
    Ok(())
}

fn push_lines(lines: &mut Vec<HeldLine>, entries: &[Entry]) -> Result<(), AllocError>
    ensures { OnOk result (lines.new.items ≡ lines.old.items ++ lines_in entries.now) }
{
    for entry in entries {
        push_line(lines, entry)?;
    }
    Ok(())
}

#[tactic(auto, using(crate::proofs::LineScans::lines_found))]
pub(crate) fn held_lines(alloc: Global, j: &[Batch]) -> Result<Vec<HeldLine>, AllocError>
    ensures { IfOk result (λ lines. lines.items ≡ lines_of (facts j.now).held) }
{
    let mut lines = Vec::new(alloc);
    for batch in j {
        push_lines(&mut lines, batch.entries())?;
    }
    Ok(lines)
}

// The place of the first line of this id.
pub(crate) fn place_in(lines: &[HeldLine], id: &MessageId) -> Option<u32>
    requires { length lines.now < 2 ^ 32 }
    ensures { result ≡ line_place lines.now id.now }
{
    for (n, line) in lines.iter().enumerate() {
        if line.id == *id {
            return Some(n as u32);
        }
    }
    None
}
