//! `Replies`.
ghost use Rattle.std.specs.Prelude.{◌≡◌, [], ◌∷◌, ◌++◌, ◌-◌, ◌^◌, ◌<◌, ◌↔◌, length};
ghost use Rattle.std.specs.Prelude.{IfOk, IfSome, IsTrue, OnErr, OnOk};

use crate::tree::Tree;
use std::alloc::{AllocError, Global};
use std::marker::Model;

/// Items of a tree of replies. They have numbers from 0 on, in the order in which they are added;
/// contracts see the list of their parents.
#[derive(Drop)]
pub struct Replies {
    alloc: Global,
    parents: Vec<Option<u32>>,
}

impl Model for Replies {
    ghost use Rattle.std.specs.Prelude.{ℕ, ◌^◌, ◌<◌, List, Option, length};
    ghost use Rattle.reply_tree.specs.Walks.{RepliesToEarlier};

    ghost Value = { List (Option ℕ) };

    ghost view = { λ r. r.parents.items };

    ghost invariant = { λ r. RepliesToEarlier r.parents.items
        × (length r.parents.items < 2 ^ 32) };
}

impl Replies {
    /// No items. It takes no memory.
    pub fn new(alloc: Global) -> Replies
        ensures { result ≡ [] }
    {
        Replies {
            alloc,
            parents: Vec::new(alloc),
        }
    }

    /// The number of items.
    pub fn len(&self) -> u32
        ensures { result ≡ length self.now }
    {
        self.parents.len() as u32
    }

    /// Whether there are no items.
    pub fn is_empty(&self) -> bool
        ensures { IsTrue result ↔ (length self.now ≡ 0) }
    {
        self.parents.is_empty()
    }

    /// Adds an item that replies to an earlier one, or to none, and answers its number. It fails
    /// only for want of memory; then all is as before.
    pub fn add(&mut self, parent: Option<u32>) -> Result<u32, AllocError>
        requires earlier { IfSome parent (λ p. p < length self.old) }
        requires room { length self.old < 2 ^ 32 - 1 }
        ensures number { IfOk result (λ n. n ≡ length self.old) }
        ensures added { OnOk result (self.new ≡ self.old ++ parent ∷ []) }
        ensures same { OnErr result (self.new ≡ self.old) }
    {
        let number = self.len();
        self.parents.push(parent)?;
        Ok(number)
    }

    /// The tree of all items, in a few steps for each of them; no items are left. It fails only for
    /// want of memory; then all is as before.
    pub fn finish(&mut self) -> Result<Tree, AllocError>
        ensures tree { IfOk result (λ t. t ≡ self.old) }
        ensures taken { OnOk result (self.new ≡ []) }
        ensures same { OnErr result (self.new ≡ self.old) }
    {
        let tree = Tree::of(self.alloc, &mut self.parents)?;
        Ok(tree)
    }
}
