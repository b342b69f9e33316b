//! The two formats of a journal, and the names that messages have in the second.
ghost use Rattle.std.specs.Prelude.{◌≡◌, is_some, length};
ghost use Rattle.std.specs.List.{slice_get};
ghost use Rattle.sync_rules.specs.Lists.{is_among};
ghost use Rattle.entry_codec.specs.Naming.{AreNames, format_of, place_in};

use sync_ids::MessageId;

/// How the entries of a journal name the messages that are held.
#[derive(Clone, Copy, Debug, PartialEq, Eq)]
pub enum Format {
    /// Format 1: by their ids, of 32 bytes.
    Whole,
    /// Format 2: by their arrival numbers, of four bytes.
    Short,
}

/// The format of this number, 1 or 2. `None` comes exactly for another number.
pub fn format_of(number: u8) -> Option<Format>
    ensures { result ≡ format_of number }
{
    match number {
        1 => Some(Format::Whole),
        2 => Some(Format::Short),
        _ => None,
    }
}

/// The names of the messages that are held, seen as the list of their ids in order of arrival:
/// distinct ids, at most 2^32. A message is named by its place in the list, from 0.
pub trait Names {
    ghost use Rattle.std.specs.Prelude.{List, ℕ};

    ghost named: { Self → List (List ℕ) };

    /// The number of this id. `None` comes exactly where the id is not in the list.
    fn number(&self, id: &MessageId) -> Option<u32>
        ensures place { result ≡ place_in (named self.now) id.now }
        ensures known { is_some result ≡ is_among (named self.now) id.now };

    /// The id of this number. `None` comes exactly where the list has no such number.
    fn name(&self, n: u32) -> Option<MessageId>
        ensures { result ≡ slice_get (named self.now) n };

    /// The ids are distinct, and at most 2^32. It does nothing: its clause is the law.
    fn show_names(&self)
        ensures { AreNames (named self.now) };
}

/// The names of no message: none is held before the first batch of a journal, and format 1 asks
/// for none.
#[derive(Drop)]
pub struct NoNames;

impl Names for NoNames {
    ghost use Rattle.std.specs.Prelude.{[]};

    ghost named = { λ _. [] };

    fn number(&self, _id: &MessageId) -> Option<u32> {
        None
    }

    fn name(&self, _n: u32) -> Option<MessageId> {
        None
    }

    fn show_names(&self) {}
}

// Shows the prover that an id has 32 bytes. It does nothing.
pub(crate) fn show_whole(id: &MessageId)
    ensures { length id.now ≡ 32 }
{
    let _ = id.as_bytes();
}
