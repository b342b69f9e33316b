//! How far the messages stand in the sets of each contact.
ghost use Rattle.std.specs.Prelude.{◌≡◌, ℕ, cond, nat_eq, IfOk};
ghost use Rattle.journal_audit.specs.Numbers.{from_of};

use std::alloc::{AllocError, Global};
use std::marker::Model;

/// For each contact how many of the delivered messages stand in its sets, in the order of their
/// delivery. Contracts see the numbers of the 256 contacts.
#[derive(Drop)]
pub(crate) struct Cursors {
    from: Vec<usize>,
}

/// How many contacts a byte tells apart.
const CONTACTS: usize = 256;

impl Model for Cursors {
    ghost use Rattle.std.specs.Prelude.{◌≡◌, List, ℕ, length};

    ghost Value = { List ℕ };

    ghost view = { λ c. c.from.items };

    ghost invariant = { λ c. length c.from.items ≡ 256 };
}

impl Cursors {
    /// No message stands in a set.
    pub(crate) fn new(alloc: Global) -> Result<Cursors, AllocError>
        ensures { IfOk result (λ cursors. (contact : ℕ) → from_of cursors contact ≡ 0) }
    {
        Ok(Cursors {
            from: vec![in alloc; 0usize; CONTACTS]?,
        })
    }

    /// The number of a contact.
    pub(crate) fn from(&self, contact: u8) -> usize
        ensures { result ≡ from_of self.now contact }
    {
        self.from[contact as usize]
    }

    /// Sets the number of a contact.
    pub(crate) fn set_from(&mut self, contact: u8, from: usize)
        ensures { (c : ℕ) → from_of self.new c ≡ cond (nat_eq c contact) from
            (from_of self.old c) }
    {
        self.from[contact as usize] = from;
    }
}
