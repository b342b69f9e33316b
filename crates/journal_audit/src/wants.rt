//! The ids that are wanted from each contact.
ghost use Rattle.std.specs.Prelude.{◌≡◌, ◌<◌, ◌^◌, [], length, unwrap_or, OnOk};
ghost use Rattle.std.specs.FinMap as fin_map;
ghost use Rattle.sync_rules.specs.Facts.{wanted_by_none, wanted_from, with_want};
ghost use Rattle.sync_rules.specs.Facts.{without_each};
ghost use Rattle.sync_rules.specs.Lists.{is_among, without};

use std::alloc::{AllocError, Global};
use std::collections::BTreeMap;
use std::marker::Model;
use sync_ids::MessageId;

/// The ids wanted from one contact, in the order of their offers, fewer than 2^32. Contracts see
/// the list.
#[derive(Drop)]
struct WantedIds {
    ids: Vec<MessageId>,
}

impl Model for WantedIds {
    ghost use Rattle.std.specs.Prelude.{List, ℕ};

    ghost Value = { List (List ℕ) };

    ghost use Rattle.std.specs.Prelude.{◌<◌, ◌^◌, length};

    ghost view = { λ w. w.ids.items };

    ghost invariant = { λ w. length w.ids.items < 2 ^ 32 };
}

/// The greatest number of ids that is counted.
const MOST: usize = 0xffff_ffff;

impl WantedIds {
    // An id is wanted no more.
    fn remove(&mut self, id: &MessageId)
        ensures { self.new ≡ without id.now self.old }
    {
        let gone = *id;
        self.ids.retain(move |wanted| *wanted != gone);
    }

    // None of these is wanted any more.
    fn remove_all(&mut self, ids: &[MessageId])
        ensures { self.new ≡ without_each ids.now self.old }
    {
        for id in ids {
            self.remove(id);
        }
    }

    // An id comes to be wanted, where its message is not held and it is not wanted yet. As want of
    // memory counts that 2^32 - 1 are.
    fn add(&mut self, held: bool, id: MessageId) -> Result<(), AllocError>
        ensures { OnOk result (self.new ≡ with_want held self.old id) }
    {
        if held || self.ids.contains(&id) {
            return Ok(());
        }
        if self.ids.len() >= MOST {
            return Err(AllocError);
        }
        self.ids.push(id)?;
        Ok(())
    }
}

// The list that was found, or one that has no ids.
fn ids_or(alloc: Global, found: Option<WantedIds>) -> WantedIds
    ensures { result ≡ unwrap_or found [] }
{
    match found {
        Some(wanted) => wanted,
        None => WantedIds {
            ids: Vec::new(alloc),
        },
    }
}

/// The ids wanted from each contact. Contracts see a map from contacts to lists.
#[derive(Drop)]
pub(crate) struct Wants {
    wants: BTreeMap<u8, WantedIds>,
}

impl Model for Wants {
    ghost use Rattle.std.specs.FinMap as fin_map;
    ghost use Rattle.std.specs.Ordering.{nat_cmp};
    ghost use Rattle.sync_rules.specs.Codes.{wants_code};
    ghost use Rattle.sync_rules.specs.Facts.{Wants};

    ghost Value = { Wants };

    ghost coded = { wants_code };

    ghost view = { λ w. fin_map.from_entries {R = nat_cmp} w.wants.entries };
}

impl Wants {
    /// Nothing is wanted from any contact.
    pub(crate) fn new(alloc: Global) -> Wants
        ensures { result ≡ fin_map.empty }
    {
        Wants {
            wants: BTreeMap::new(alloc),
        }
    }

    /// The ids wanted from the contact.
    pub(crate) fn ids(&self, contact: u8) -> &[MessageId]
        ensures value { result.now ≡ wanted_from self.now contact }
        ensures few { length result.now < 2 ^ 32 }
    {
        match self.wants.get(&contact) {
            Some(wanted) => wanted.ids.as_slice(),
            None => &[],
        }
    }

    // The list of a contact, taken out.
    fn take(&mut self, alloc: Global, contact: u8) -> WantedIds
        ensures ids { result ≡ wanted_from self.old contact }
        ensures rest { self.new ≡ fin_map.remove self.old contact }
    {
        let found = self.wants.remove(&contact);
        ids_or(alloc, found)
    }

    // The list of a contact, put in.
    fn put(&mut self, contact: u8, ids: WantedIds) -> Result<(), AllocError>
        ensures { OnOk result (self.new ≡ fin_map.insert self.old contact ids) }
    {
        self.wants.insert(contact, ids)?;
        Ok(())
    }

    /// The contact has a list.
    pub(crate) fn open(&mut self, alloc: Global, contact: u8) -> Result<(), AllocError>
        ensures { OnOk result (self.new ≡ fin_map.insert self.old contact
            (wanted_from self.old contact)) }
    {
        let ids = self.take(alloc, contact);
        self.put(contact, ids)?;
        Ok(())
    }

    /// An id comes to be wanted from the contact, where its message is not held and it is not
    /// wanted yet.
    pub(crate) fn add(
        &mut self,
        alloc: Global,
        contact: u8,
        held: bool,
        id: MessageId,
    ) -> Result<(), AllocError>
        ensures { OnOk result (self.new ≡ fin_map.insert self.old contact
            (with_want held (wanted_from self.old contact) id)) }
    {
        let mut ids = self.take(alloc, contact);
        ids.add(held, id)?;
        self.put(contact, ids)?;
        Ok(())
    }

    /// These were requested from the contact.
    pub(crate) fn request(
        &mut self,
        alloc: Global,
        contact: u8,
        requested: &[MessageId],
    ) -> Result<(), AllocError>
        ensures { OnOk result (self.new ≡ fin_map.insert self.old contact
            (without_each requested.now (wanted_from self.old contact))) }
    {
        let mut ids = self.take(alloc, contact);
        ids.remove_all(requested);
        self.put(contact, ids)?;
        Ok(())
    }

    /// The message of this id is held, so it is wanted from nobody.
    pub(crate) fn hold(&mut self, id: &MessageId)
        ensures { self.new ≡ wanted_by_none self.old id.now }
    {
        let held = *id;
        self.wants.retain(move |_, ids| {
            ids.remove(&held);
            true
        });
    }
}
