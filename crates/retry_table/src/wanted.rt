//! The ids wanted from one contact.
ghost use Rattle.std.specs.Prelude.{◌≡◌, ◌+◌, ◌-◌, ◌^◌, ◌<◌, ◌≤◌, ◌++◌, ◌∷◌, [], false, IfOk, OnOk};
ghost use Rattle.std.specs.Prelude.{OnErr, Some, length, slice_get};
ghost use Rattle.sync_rules.specs.Lists.{is_among, without};
ghost use Rattle.retry_table.specs.Table.{no_wants, with_room};
ghost use Rattle.retry_table.specs.Due.{requests_in};

use indexmap::IndexSet;
use std::alloc::{AllocError, Global};
use std::hash::RandomState;
use std::marker::Model;
use sync_ids::{MAX_IDS, MessageId};

/// The ids wanted from one contact, in the order in which they were added, and for how many more
/// there is room.
#[derive(Drop)]
pub(crate) struct Wanted {
    ids: IndexSet<MessageId, RandomState>,
    room: usize,
}

impl Model for Wanted {
    ghost use Rattle.std.specs.Prelude.{◌≤◌, ◌<◌, ◌^◌, length};
    ghost use Rattle.indexmap.specs.IndexSet.{spare};
    ghost use Rattle.retry_table.specs.Table.{WantedFromContact};

    ghost Value = { WantedFromContact };

    ghost view = { λ w. record { ids = w.ids.keys; room = w.room } };

    ghost invariant = { λ w. (w.room ≤ spare w.ids) × (length w.ids.keys < 2 ^ 32) };
}

impl Wanted {
    /// No ids, and no room; ids are hashed by `hasher`.
    pub(crate) fn new(alloc: Global, hasher: RandomState) -> Wanted
        ensures { result ≡ no_wants }
    {
        Wanted {
            ids: IndexSet::with_hasher(alloc, hasher),
            room: 0,
        }
    }

    /// Makes room for so many more ids. It alone takes memory; after an error all is as before.
    pub(crate) fn reserve(&mut self, room: usize) -> Result<(), AllocError>
        ensures ok { OnOk result (self.new ≡ with_room room self.old) }
        ensures err { OnErr result (self.new ≡ self.old) }
    {
        self.ids.reserve(room)?;
        self.room = self.room.max(room);
        Ok(())
    }

    /// For how many more ids there is room.
    pub(crate) fn room(&self) -> usize
        ensures { result ≡ self.now.room }
    {
        self.room
    }

    /// Counts less room.
    pub(crate) fn lower(&mut self, room: usize)
        requires { room ≤ self.old.room }
        ensures { self.new ≡ record self.old { room = room } }
    {
        self.room = room;
    }

    /// Puts an id at the end.
    pub(crate) fn want(&mut self, id: MessageId)
        requires new { is_among self.old.ids id ≡ false }
        requires room { 0 < self.old.room }
        requires few { length self.old.ids < 2 ^ 32 - 1 }
        ensures { self.new ≡ record { ids = self.old.ids ++ id ∷ []; room = self.old.room - 1 } }
    {
        self.ids.insert(id).unwrap();
        self.room -= 1;
    }

    /// Takes an id out.
    pub(crate) fn unwant(&mut self, id: &MessageId)
        ensures { self.new ≡ record self.old { ids = without id.now self.old.ids } }
    {
        // Where nothing is wanted the id is not even hashed: each message that comes is taken out.
        if !self.ids.is_empty() {
            self.ids.shift_remove(id);
        }
    }

    /// Whether an id is wanted.
    pub(crate) fn contains(&self, id: &MessageId) -> bool
        ensures { result ≡ is_among self.now.ids id.now }
    {
        self.ids.contains(id)
    }

    /// The id of this place, from 0.
    pub(crate) fn at(&self, place: u32) -> MessageId
        requires { place < length self.now.ids }
        ensures { slice_get self.now.ids place ≡ Some result }
    {
        *self.ids.get_index(place as usize).unwrap()
    }

    /// The number of ids.
    pub(crate) fn len(&self) -> u32
        ensures { result ≡ length self.now.ids }
    {
        self.ids.len() as u32
    }

    /// The ids to be requested, at most 1,536.
    pub(crate) fn requests(&self) -> Result<Vec<MessageId>, AllocError>
        ensures { IfOk result (λ v. v.items ≡ requests_in self.now.ids) }
    {
        let ids = self.ids.as_slice();
        let count = MAX_IDS.min(ids.len());
        Vec::from_slice(*self.ids.allocator(), &ids[..count])
    }
}
