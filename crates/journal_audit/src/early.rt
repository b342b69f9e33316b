//! How far no message goes before its time to each contact.
ghost use Rattle.std.specs.Prelude.{◌≡◌, ◌≤◌, ◌<◌, ℕ, cond, nat_eq, IfOk};
ghost use Rattle.journal_audit.specs.Early.{lowered, mark_of};

use std::alloc::{AllocError, Global};
use std::marker::Model;

/// No message of a smaller arrival number goes before its time, by a session of this latency in
/// milliseconds at this time.
#[derive(Clone, Copy)]
pub(crate) struct Mark {
    pub(crate) from: u32,
    pub(crate) latency: u32,
    pub(crate) now: u64,
}

/// For each contact a mark. What is no sooner at some time stays so as time goes on, and for a longer
/// latency: so a mark holds until a row changes, and goes on from there. Contracts see the marks of
/// the 256 contacts.
#[derive(Drop)]
pub(crate) struct Early {
    marks: Vec<Mark>,
}

/// How many contacts a byte tells apart.
const CONTACTS: usize = 256;

impl Model for Early {
    ghost use Rattle.std.specs.Prelude.{◌≡◌, List, length};
    ghost use Rattle.journal_audit.specs.declared.early.Mark.{Mark};

    ghost Value = { List Mark };

    ghost view = { λ e. e.marks.items };

    ghost invariant = { λ e. length e.marks.items ≡ 256 };
}

impl Early {
    /// All marks are at the first message.
    pub(crate) fn new(alloc: Global) -> Result<Early, AllocError>
        ensures { IfOk result (λ early. (contact : ℕ) → (mark_of early contact).from ≡ 0) }
    {
        let none = Mark {
            from: 0,
            latency: 0,
            now: 0,
        };
        let mut marks = Vec::with_capacity(alloc, CONTACTS)?;
        for _ in 0..CONTACTS {
            marks.push(none)?;
        }
        Ok(Early { marks })
    }

    /// The number of a message before which none goes before its time to the contact, by a session of
    /// this latency at this time: where the mark is of a longer latency or a later time, the first.
    pub(crate) fn start(&self, contact: u8, latency: u32, now: u64) -> u32
        ensures from { result ≤ (mark_of self.now contact).from }
        ensures latency { (n : ℕ) → n < result → (mark_of self.now contact).latency ≤ latency }
        ensures time { (n : ℕ) → n < result → (mark_of self.now contact).now ≤ now }
    {
        let mark = self.marks[contact as usize];
        if mark.latency <= latency && mark.now <= now {
            mark.from
        } else {
            0
        }
    }

    /// Sets the mark of a contact.
    pub(crate) fn set(&mut self, contact: u8, mark: Mark)
        ensures { (c : ℕ) → mark_of self.new c ≡ cond (nat_eq c contact) mark (mark_of self.old c) }
    {
        self.marks[contact as usize] = mark;
    }

    /// The row of a message changed for a contact: the mark falls back to it.
    pub(crate) fn fall_back(&mut self, contact: u8, n: u32)
        ensures { (c : ℕ) → mark_of self.new c ≡ cond (nat_eq c contact)
            (lowered n (mark_of self.old c)) (mark_of self.old c) }
    {
        let mark = self.marks[contact as usize];
        self.set(
            contact,
            Mark {
                from: mark.from.min(n),
                latency: mark.latency,
                now: mark.now,
            },
        );
    }
}
