//! The held messages.
ghost use Rattle.std.specs.Prelude.{◌≡◌, ◌<◌, ◌≤◌, ◌^◌, ◌∷◌, ◌++◌, [], length, None, Some, OnOk};
ghost use Rattle.std.specs.Prelude.{slice_get};
ghost use Rattle.std.specs.Option.{option_copied};
ghost use Rattle.sync_rules.specs.Views.{IsFound, place_of};
ghost use Rattle.journal_audit.specs.Lines.{delivered_line, held_in, invalid_line, judged_line};
ghost use Rattle.journal_audit.specs.Lines.{left_for_line, left_in, line_changed};

use crate::answer::Answer;
use std::alloc::{AllocError, Global};
use std::collections::BTreeMap;
use std::marker::Model;
use sync_ids::{Message, MessageId};
use sync_rules::Origin;

/// A held message, what its client says of it, and what became of it. The small fields stand together,
/// so that they take one word.
#[derive(Drop)]
pub(crate) struct Line {
    /// Its id.
    pub(crate) id: MessageId,
    /// The message.
    pub(crate) message: Message,
    /// What its client says of it.
    pub(crate) answer: Answer,
    /// Where it came from.
    pub(crate) origin: Origin,
    /// It has a Judged entry.
    pub(crate) judged: bool,
    /// It has an Invalid entry.
    pub(crate) invalid: bool,
    /// It has a Deliver entry.
    pub(crate) delivered: bool,
}

/// The held messages by id, in order of arrival, fewer than 2^32. Contracts see their lines, and
/// the arrival numbers of the delivered ones in the order of their delivery.
#[derive(Drop)]
pub(crate) struct Messages {
    lines: Vec<Line>,
    places: BTreeMap<MessageId, u32>,
    delivered: Vec<u32>,
}

/// The greatest number of messages that is counted.
const MOST: usize = 0xffff_ffff;

impl Model for Messages {
    ghost use Rattle.journal_audit.specs.Lines.{Kept, kept_code};

    ghost Value = { Kept };

    ghost coded = { kept_code };

    ghost use Rattle.std.specs.Prelude.{◌<◌, ◌^◌, length};
    ghost use Rattle.journal_audit.specs.Lines.{ArePlaces, held_in};

    ghost view = { λ m. record { lines = m.lines.items; delivered = m.delivered.items } };

    ghost invariant = { λ m. ArePlaces (held_in m.lines.items) m.places
        × (length m.lines.items < 2 ^ 32) };
}

impl Messages {
    /// No messages.
    pub(crate) fn new(alloc: Global) -> Messages
        ensures lines { result.lines ≡ [] }
        ensures delivered { result.delivered ≡ [] }
    {
        Messages {
            lines: Vec::new(alloc),
            places: BTreeMap::new(alloc),
            delivered: Vec::new(alloc),
        }
    }

    /// The number of messages.
    pub(crate) fn len(&self) -> u32
        ensures value { result ≡ length self.now.lines }
        ensures few { length self.now.lines < 2 ^ 32 }
    {
        self.lines.len() as u32
    }

    /// The arrival number of the message of this id.
    pub(crate) fn find(&self, id: &MessageId) -> Option<u32>
        ensures place { result ≡ place_of (held_in self.now.lines) id.now }
        ensures found { IsFound (held_in self.now.lines) id.now result }
    {
        self.places.get(id).copied()
    }

    /// The line of this arrival number.
    pub(crate) fn line(&self, n: u32) -> &Line
        requires { n < length self.now.lines }
        ensures { slice_get self.now.lines n ≡ Some result.now }
    {
        &self.lines[n as usize]
    }

    /// The numbers of the delivered messages, in the order of their delivery.
    pub(crate) fn delivered(&self) -> &[u32]
        ensures { result.now ≡ self.now.delivered }
    {
        self.delivered.as_slice()
    }

    /// The number of the delivered message of this place, in the order of their delivery.
    pub(crate) fn delivered_at(&self, k: usize) -> Option<u32>
        ensures { result ≡ slice_get self.now.delivered k }
    {
        self.delivered.get(k).copied()
    }

    /// The line of this arrival number, where there is one.
    pub(crate) fn get(&self, n: u32) -> Option<&Line>
        ensures { option_copied result ≡ slice_get self.now.lines n }
    {
        self.lines.get(n as usize)
    }

    /// Holds a message under a new id. As want of memory counts that 2^32 - 1 are held.
    pub(crate) fn hold(&mut self, line: Line) -> Result<(), AllocError>
        requires { place_of (held_in self.old.lines) line.id ≡ None }
        ensures lines { OnOk result (self.new.lines ≡ self.old.lines ++ line ∷ []) }
        ensures delivered { self.new.delivered ≡ self.old.delivered }
    {
        if self.lines.len() >= MOST {
            return Err(AllocError);
        }
        self.lines.reserve(1)?;
        self.places.insert(line.id, self.lines.len() as u32)?;
        self.lines.push(line).unwrap();
        Ok(())
    }

    /// The message of this arrival number is judged.
    pub(crate) fn judge(&mut self, n: u32)
        requires { n < length self.old.lines }
        ensures lines { self.new.lines ≡ line_changed judged_line n self.old.lines }
        ensures delivered { self.new.delivered ≡ self.old.delivered }
    {
        self.lines[n as usize].judged = true;
    }

    /// It is invalid.
    pub(crate) fn refuse(&mut self, n: u32)
        requires { n < length self.old.lines }
        ensures lines { self.new.lines ≡ line_changed invalid_line n self.old.lines }
        ensures delivered { self.new.delivered ≡ self.old.delivered }
    {
        self.lines[n as usize].invalid = true;
    }

    /// It is delivered.
    pub(crate) fn deliver(&mut self, n: u32) -> Result<(), AllocError>
        requires { n < length self.old.lines }
        ensures lines { OnOk result (self.new.lines ≡ line_changed delivered_line n
            self.old.lines) }
        ensures delivered { OnOk result (self.new.delivered ≡ self.old.delivered ++ n ∷ []) }
    {
        self.delivered.push(n)?;
        self.lines[n as usize].delivered = true;
        Ok(())
    }

    /// How many steps settling may yet make.
    pub(crate) fn left(&self) -> u64
        ensures value { result ≡ left_in self.now.lines }
        ensures few { result < 2 ^ 33 }
    {
        let mut left = 0;
        for line in &self.lines {
            left += left_for(line);
        }
        left
    }
}

// How many steps settling may yet make of a message.
fn left_for(line: &Line) -> u64
    ensures value { result ≡ left_for_line line.now }
    ensures few { result ≤ 2 }
{
    if !line.judged {
        return 2;
    }
    if line.delivered || line.invalid { 0 } else { 1 }
}
