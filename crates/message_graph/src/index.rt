//! Names, who holds each, and who waits for each.
ghost use Rattle.std.specs.Prelude.{◌≡◌, ◌+◌, ◌-◌, ◌^◌, ◌<◌, ◌≤◌, ◌++◌, ◌∷◌, [], true, IfOk, OnOk};
ghost use Rattle.std.specs.Prelude.{OnErr, IfSome, Some, None, ℕ, List, length, if◌then◌else◌, slice_get};
ghost use Rattle.std.specs.Prelude.{map, slice_index_or};
ghost use Rattle.message_graph.specs.Nodes.{same_name};
ghost use Rattle.message_graph.specs.Links.{place_of, holder_of, edge_at, last_before};
ghost use Rattle.message_graph.specs.Links.{first_for, first_place, holder_at, holder_if};

use indexmap::IndexSet;
use same_bytes::same_bytes;
use std::alloc::{AllocError, Global};
use std::hash::{Hash, Hasher, RandomState};
use std::marker::Model;

/// A name as the table of names keeps it. Contracts see the list of its bytes.
#[derive(Clone, Copy, PartialEq, Eq)]
struct Key([u8; 32]);

impl Model for Key {
    ghost use Rattle.std.specs.Prelude.{◌≡◌, List, ℕ, length};

    ghost Value = { List ℕ };

    ghost view = { λ k. k.0 };

    ghost invariant = { λ k. length k.0 ≡ 32 };

    ghost inverse = { λ bytes. record { 0 = bytes } };
}

// All bytes are fed at once: a name is looked up several times for each message.
impl Hash for Key {
    ghost use Rattle.std.specs.Prelude.{◌∷◌, []};
    ghost use Rattle.std.specs.Cmp.Rules.{hashing};
    ghost use Rattle.std.proofs.Common.{rules};

    ghost hash_input = { λ name. name ∷ [] };

    ghost respects_eq = { Prim.search (hashing, rules) };

    fn hash<H: Hasher>(&self, state: &mut H) {
        state.write(&self.0);
    }
}

/// What is kept for a name: the number of the node that holds it, and the last edge of those who
/// wait for it. Numbers, places and edges have four bytes each, since there are many of them.
#[derive(Clone, Copy)]
pub(crate) struct Slot {
    pub(crate) holder: Option<u32>,
    pub(crate) last: Option<u32>,
}

/// One node that waits for one name: the name's place, the node's number, and the edge before it of
/// the same name.
#[derive(Clone, Copy)]
pub(crate) struct Edge {
    pub(crate) place: u32,
    pub(crate) waiter: u32,
    pub(crate) before: Option<u32>,
}

/// Names, also those that no node holds yet, with their holders and waiters, and the place of each
/// node's name by the node's number.
#[derive(Drop)]
pub(crate) struct Index {
    names: IndexSet<Key, RandomState>,
    slots: Vec<Slot>,
    places: Vec<u32>,
    edges: Vec<Edge>,
    recent: u32,
}

impl Model for Index {
    ghost use Rattle.std.specs.Prelude.{◌-◌, ◌^◌, length, map, min, vec_capacity};
    ghost use Rattle.indexmap.specs.IndexSet.{spare};
    ghost use Rattle.message_graph.specs.Links.{WaitIndex, named, names_at, IsLinked, IsPlaced};

    ghost Value = { WaitIndex };

    ghost view = { λ i. record {
      names = i.names.keys;
      holders = map (λ slot. slot.holder) i.slots.items;
      numbers = record {
        names = names_at i.names.keys i.places.items;
        room = vec_capacity i.places - length i.places.items;
      };
      edges = map (named i.names.keys) i.edges.items;
      room = min (2 ^ 32 - 1 - length i.names.keys)
          (min (spare i.names) (vec_capacity i.slots - length i.slots.items));
      edge_room = min (2 ^ 32 - 1 - length i.edges.items)
          (vec_capacity i.edges - length i.edges.items);
    } };

    ghost invariant = { λ i. IsLinked i.names.keys i.slots.items i.edges.items
        × IsPlaced i.slots.items i.places.items };
}

// Of each node the holder of the name of its first edge.
fn first_holders(
    alloc: Global,
    slots: &[Slot],
    edges: &[Edge],
    nodes: usize,
) -> Result<Vec<Option<u32>>, AllocError>
    requires places { (edge : ℕ) → edge < length edges.now
        → slice_index_or (map (λ e. e.place) edges.now) edge 0 < length slots.now }
    requires waiters { (edge : ℕ) → edge < length edges.now
        → slice_index_or (map (λ e. e.waiter) edges.now) edge 0 < nodes }
    ensures many { IfOk result (λ firsts. length firsts.items ≡ nodes) }
    ensures each { IfOk result (λ firsts. (n : ℕ) → n < nodes
        → slice_index_or firsts.items n None ≡ holder_at (map (λ slot. slot.holder) slots.now)
        (first_place edges.now n)) }
{
    let mut firsts = vec![in alloc; None; nodes]?;
    let count = edges.len();
    // From the last edge to the first: what stays of each node is its first one's.
    'edges: for behind in 0..count {
        let edge = edges[count - 1 - behind];
        firsts[edge.waiter as usize] = slots[edge.place as usize].holder;
    }
    Ok(firsts)
}

/// Whether that many more can be numbered in four bytes beside those that are.
fn can_number(used: usize, more: usize) -> bool
    ensures { result ≡ true → more ≤ 2 ^ 32 - 1 - used }
{
    let most = u32::MAX as usize;
    used <= most && more <= most - used
}

impl Index {
    /// No names; they are hashed by `hasher`.
    pub(crate) fn new(alloc: Global, hasher: RandomState) -> Index
        ensures names { result.names ≡ [] }
        ensures held { result.numbers.names ≡ [] }
        ensures edges { result.edges ≡ [] }
    {
        Index {
            names: IndexSet::with_hasher(alloc, hasher),
            slots: Vec::new(alloc),
            places: Vec::new(alloc),
            edges: Vec::new(alloc),
            recent: 0,
        }
    }

    /// Makes room for that many more names and edges; of each there are fewer than 2^32.
    pub(crate) fn reserve(&mut self, names: usize, edges: usize) -> Result<(), AllocError>
        ensures names { self.new.names ≡ self.old.names }
        ensures holders { self.new.holders ≡ self.old.holders }
        ensures numbers { self.new.numbers ≡ self.old.numbers }
        ensures edges { self.new.edges ≡ self.old.edges }
        ensures room { self.old.room ≤ self.new.room }
        ensures ok { OnOk result (names ≤ self.new.room) }
        ensures edge_room { OnOk result (edges ≤ self.new.edge_room) }
    {
        if !can_number(self.names.len(), names) || !can_number(self.edges.len(), edges) {
            return Err(AllocError);
        }
        self.names.reserve(names)?;
        self.slots.reserve(names)?;
        self.edges.reserve(edges)
    }

    /// Makes room for that many more nodes, each with a name.
    pub(crate) fn reserve_nodes(&mut self, nodes: usize) -> Result<(), AllocError>
        ensures names { self.new.names ≡ self.old.names }
        ensures holders { self.new.holders ≡ self.old.holders }
        ensures held { self.new.numbers.names ≡ self.old.numbers.names }
        ensures edges { self.new.edges ≡ self.old.edges }
        ensures room { self.old.room ≤ self.new.room }
        ensures numbers { self.old.numbers.room ≤ self.new.numbers.room }
        ensures ok { OnOk result (nodes ≤ self.new.room) }
        ensures more { OnOk result (nodes ≤ self.new.numbers.room) }
    {
        self.reserve(nodes, 0)?;
        self.places.reserve(nodes)
    }

    /// The number of the node that holds the name.
    pub(crate) fn holder(&self, name: &[u8; 32]) -> Option<u32>
        ensures { result ≡ holder_of self.now name.now }
    {
        match self.recent_place(name) {
            Some(place) => self.slots[place as usize].holder,
            None => self.sought_holder(name),
        }
    }

    /// The same, by the hash of the name.
    fn sought_holder(&self, name: &[u8; 32]) -> Option<u32>
        ensures { result ≡ holder_of self.now name.now }
    {
        let place = self.names.get_index_of(&Key(*name))?;
        self.slots[place].holder
    }

    /// The name of the node of this number.
    pub(crate) fn name(&self, number: u32) -> [u8; 32]
        requires { number < length self.now.numbers.names }
        ensures { slice_get self.now.numbers.names number ≡ Some result }
    {
        let place = self.places[number as usize] as usize;
        let key = &self.names.as_slice()[place];
        key.0
    }

    /// What hashes names.
    pub(crate) fn hasher(&self) -> RandomState {
        *self.names.hasher()
    }

    /// The last edge of those who wait for the name of the node of this number.
    pub(crate) fn last(&self, number: u32) -> Option<u32>
        requires { number < length self.now.numbers.names }
        ensures { (name : List ℕ) → holder_of self.now name ≡ Some number
            → result ≡ last_before self.now.edges name (length self.now.edges) }
    {
        self.slots[self.places[number as usize] as usize].last
    }

    /// The number of the node that waits by the edge.
    pub(crate) fn waiter(&self, edge: u32) -> u32
        requires { edge < length self.now.edges }
        ensures { result ≡ (edge_at self.now.edges edge).1 }
    {
        self.edges[edge as usize].waiter
    }

    /// The edge before this one of the same name.
    pub(crate) fn before(&self, edge: u32) -> Option<u32>
        requires { edge < length self.now.edges }
        ensures { result ≡ last_before self.now.edges (edge_at self.now.edges edge).0 edge }
    {
        self.edges[edge as usize].before
    }

    /// Of each node the number of the node that holds the name of its first edge, in so many nodes.
    /// It fails only for want of memory.
    pub(crate) fn firsts(&self, alloc: Global, nodes: usize) -> Result<Vec<Option<u32>>, AllocError>
        requires { (edge : ℕ) → edge < length self.now.edges
            → (edge_at self.now.edges edge).1 < nodes }
        ensures many { IfOk result (λ firsts. length firsts.items ≡ nodes) }
        ensures each { IfOk result (λ firsts. (n : ℕ) → n < nodes
            → slice_index_or firsts.items n None ≡ holder_if self.now
            (first_for self.now.edges n)) }
    {
        first_holders(alloc, &self.slots, &self.edges, nodes)
    }

    /// The place of a name, which is added where it is new.
    fn place(&mut self, name: [u8; 32]) -> u32
        requires { 0 < self.old.room }
        ensures place { place_of self.new.names name ≡ Some result }
        ensures edges { self.new.edges ≡ self.old.edges }
        ensures holders { (other : List ℕ) → holder_of self.new other ≡ holder_of self.old other }
        ensures numbers { self.new.numbers ≡ self.old.numbers }
        ensures room { self.old.room ≤ self.new.room + 1 }
        ensures edge_room { self.new.edge_room ≡ self.old.edge_room }
    {
        let (place, is_new) = self.names.insert_full(Key(name)).unwrap();
        if !is_new {
            return place as u32;
        }
        let slot = Slot {
            holder: None,
            last: None,
        };
        self.slots.push(slot).unwrap();
        place as u32
    }

    /// The place of the name that was added last by `add`, if it is this one.
    fn recent_place(&self, name: &[u8; 32]) -> Option<u32>
        ensures place { IfSome result (λ place. place_of self.now.names name.now ≡ Some place) }
        ensures within { IfSome result (λ place. place < length self.now.names) }
    {
        let key = self.names.get_index(self.recent as usize)?;
        if same_bytes(&key.0, name) {
            Some(self.recent)
        } else {
            None
        }
    }

    /// The place of a name, which is added where it is new. When it is asked for next, it is found by
    /// a comparison.
    pub(crate) fn add(&mut self, name: [u8; 32]) -> u32
        requires { 0 < self.old.room }
        ensures place { place_of self.new.names name ≡ Some result }
        ensures edges { self.new.edges ≡ self.old.edges }
        ensures holders { (other : List ℕ) → holder_of self.new other ≡ holder_of self.old other }
        ensures numbers { self.new.numbers ≡ self.old.numbers }
        ensures room { self.old.room ≤ self.new.room + 1 }
        ensures edge_room { self.new.edge_room ≡ self.old.edge_room }
    {
        match self.recent_place(&name) {
            Some(place) => place,
            None => {
                let place = self.place(name);
                self.recent = place;
                place
            }
        }
    }

    /// The next node holds the name from now on; answers the last edge of those who wait for it.
    pub(crate) fn hold(&mut self, name: [u8; 32], number: u32) -> Option<u32>
        requires room { 0 < self.old.room }
        requires numbers { 0 < self.old.numbers.room }
        requires next { number ≡ length self.old.numbers.names }
        ensures last { result ≡ last_before self.old.edges name (length self.old.edges) }
        ensures holders { (other : List ℕ)
            → holder_of self.new other ≡ (if same_name other name then Some number else holder_of
            self.old other) }
        ensures held { self.new.numbers.names ≡ self.old.numbers.names ++ name ∷ [] }
        ensures left { self.old.numbers.room ≤ self.new.numbers.room + 1 }
        ensures edges { self.new.edges ≡ self.old.edges }
        ensures room { self.old.room ≤ self.new.room + 1 }
    {
        let place = self.add(name);
        self.places.push(place).unwrap();
        let slot = &mut self.slots[place as usize];
        slot.holder = Some(number);
        slot.last
    }

    /// A node waits for the name from now on.
    pub(crate) fn wait(&mut self, name: [u8; 32], waiter: u32)
        requires room { 0 < self.old.room }
        requires edge_room { 0 < self.old.edge_room }
        ensures holders { (other : List ℕ) → holder_of self.new other ≡ holder_of self.old other }
        ensures numbers { self.new.numbers ≡ self.old.numbers }
        ensures edges { self.new.edges ≡ self.old.edges ++ (name, waiter) ∷ [] }
        ensures room { self.old.room ≤ self.new.room + 1 }
        ensures edge_room { self.old.edge_room ≤ self.new.edge_room + 1 }
    {
        let place = self.place(name);
        let edge = self.edges.len() as u32;
        let before = self.slots[place as usize].last;
        let edge_to = Edge {
            place,
            waiter,
            before,
        };
        self.edges.push(edge_to).unwrap();
        let slot = &mut self.slots[place as usize];
        slot.last = Some(edge);
    }
}
