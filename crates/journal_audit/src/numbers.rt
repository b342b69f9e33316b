//! Sets of the arrival numbers of messages.
ghost use Rattle.std.specs.Prelude.{◌≡◌, ◌<◌, ℕ, cond, false, true, nat_eq, ◌&&◌, length, IfOk, OnOk};
ghost use Rattle.std.specs.List.Sorted.{IsStrictlySortedBy};
ghost use Rattle.std.specs.Ordering.{nat_cmp};
ghost use Rattle.journal_audit.specs.Numbers.{has, has_for};

use std::alloc::{AllocError, Global};
use std::collections::BTreeSet;
use std::marker::Model;

/// A set of arrival numbers. Contracts see the list of them, which ascends.
#[derive(Drop)]
pub(crate) struct Numbers {
    set: BTreeSet<u32>,
}

impl Model for Numbers {
    ghost use Rattle.std.specs.Prelude.{List, ℕ};

    ghost Value = { List ℕ };

    ghost view = { λ n. n.set.keys };
}

impl Numbers {
    /// No numbers.
    pub(crate) fn new(alloc: Global) -> Numbers
        ensures { (n : ℕ) → has result n ≡ false }
    {
        Numbers {
            set: BTreeSet::new(alloc),
        }
    }

    /// Adds a number. After want of memory nothing is said of the set.
    pub(crate) fn add(&mut self, number: u32) -> Result<(), AllocError>
        ensures { OnOk result ((n : ℕ) → has self.new n ≡ cond (nat_eq n number) true
            (has self.old n)) }
    {
        self.set.insert(number)?;
        Ok(())
    }

    /// Takes a number out.
    pub(crate) fn remove(&mut self, number: u32)
        ensures { (n : ℕ) → has self.new n ≡ cond (nat_eq n number) false (has self.old n) }
    {
        self.set.remove(&number);
    }

    /// The numbers, in ascending order.
    pub(crate) fn as_set(&self) -> &BTreeSet<u32>
        ensures value { result.now.keys ≡ self.now }
        ensures ascends { IsStrictlySortedBy nat_cmp self.now }
    {
        let _len = self.set.len();
        &self.set
    }
}

/// A set of arrival numbers for each contact. Contracts see the sets of the 256 contacts.
#[derive(Drop)]
pub(crate) struct ByContact {
    sets: Vec<Numbers>,
}

/// How many contacts a byte tells apart.
const CONTACTS: usize = 256;

impl Model for ByContact {
    ghost use Rattle.std.specs.Prelude.{◌≡◌, List, ℕ, length};

    ghost Value = { List (List ℕ) };

    ghost view = { λ m. m.sets.items };

    ghost invariant = { λ m. length m.sets.items ≡ 256 };
}

impl ByContact {
    /// No numbers for any contact.
    pub(crate) fn new(alloc: Global) -> Result<ByContact, AllocError>
        ensures { IfOk result (λ sets. (contact n : ℕ) → has_for sets contact n ≡ false) }
    {
        let mut sets = Vec::with_capacity(alloc, CONTACTS)?;
        for _ in 0..CONTACTS {
            sets.push(Numbers::new(alloc))?;
        }
        Ok(ByContact { sets })
    }

    // Adds a number for a contact. After want of memory nothing is said of the sets.
    fn add(&mut self, contact: u8, number: u32) -> Result<(), AllocError>
        ensures { OnOk result ((c n : ℕ) → has_for self.new c n ≡ cond (nat_eq c contact && nat_eq
            n number) true (has_for self.old c n)) }
    {
        let set = &mut self.sets[contact as usize];
        set.add(number)
    }

    // Takes a number out for a contact.
    fn remove(&mut self, contact: u8, number: u32)
        ensures { (c n : ℕ) → has_for self.new c n ≡ cond (nat_eq c contact && nat_eq n number)
            false (has_for self.old c n) }
    {
        let set = &mut self.sets[contact as usize];
        set.remove(number);
    }

    /// A number is in the set of a contact, or not. After want of memory nothing is said of the sets.
    pub(crate) fn mark(&mut self, contact: u8, number: u32, is_in: bool) -> Result<(), AllocError>
        ensures { OnOk result ((c n : ℕ) → has_for self.new c n ≡ cond (nat_eq c contact && nat_eq
            n number) is_in (has_for self.old c n)) }
    {
        if is_in {
            self.add(contact, number)
        } else {
            self.remove(contact, number);
            Ok(())
        }
    }

    /// The numbers for a contact, in ascending order.
    pub(crate) fn of(&self, contact: u8) -> &BTreeSet<u32>
        ensures value { (n : ℕ) → has result.now.keys n ≡ has_for self.now contact n }
        ensures ascends { IsStrictlySortedBy nat_cmp result.now.keys }
    {
        self.sets[contact as usize].as_set()
    }
}
