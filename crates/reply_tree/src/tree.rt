//! `Tree`.
ghost use Rattle.std.specs.Prelude.{◌≡◌, [], ◌^◌, ◌<◌, ◌↔◌, length};
ghost use Rattle.std.specs.Prelude.{IfOk, IsTrue, OnErr, OnOk};
ghost use Rattle.reply_tree.specs.Walks.{IsWindow, RepliesToEarlier, depth_of, size_of};

use crate::passes::{depths, sizes, walk};
use std::alloc::{AllocError, Global};
use std::marker::Model;
use std::mem;

/// A tree of replies. Its items have numbers from 0 on; contracts see the list of their parents.
/// The walk goes through all items, each behind what it replies to, with all that is below it before
/// the next reply to the same item, older replies first.
#[derive(Drop)]
pub struct Tree {
    alloc: Global,
    parents: Vec<Option<u32>>,
    depths: Vec<u32>,
    sizes: Vec<u32>,
    walk: Vec<u32>,
}

impl Model for Tree {
    ghost use Rattle.std.specs.Prelude.{ℕ, List, Option};
    ghost use Rattle.reply_tree.specs.Kept.{IsFinished};

    ghost Value = { List (Option ℕ) };

    ghost view = { λ t. t.parents.items };

    ghost invariant = { λ t. IsFinished t.parents.items t.depths.items t.sizes.items
        t.walk.items };
}

impl Tree {
    // The tree of these items, of which none is left. It fails only for want of memory; then they
    // are as before.
    pub(crate) fn of(alloc: Global, parents: &mut Vec<Option<u32>>) -> Result<Tree, AllocError>
        requires earlier { RepliesToEarlier parents.old.items }
        requires few { length parents.old.items < 2 ^ 32 }
        ensures tree { IfOk result (λ t. t ≡ parents.old.items) }
        ensures taken { OnOk result (parents.new.items ≡ []) }
        ensures same { OnErr result (parents.new.items ≡ parents.old.items) }
    {
        let depths = depths(alloc, parents.as_slice())?;
        let sizes = sizes(alloc, parents.as_slice())?;
        let walk = walk(alloc, parents.as_slice(), sizes.as_slice())?;
        Ok(Tree {
            alloc,
            parents: mem::replace(parents, Vec::new(alloc)),
            depths,
            sizes,
            walk,
        })
    }

    /// The number of items.
    pub fn len(&self) -> u32
        ensures { result ≡ length self.now }
    {
        self.parents.len() as u32
    }

    /// Whether there are no items.
    pub fn is_empty(&self) -> bool
        ensures { IsTrue result ↔ (length self.now ≡ 0) }
    {
        self.parents.is_empty()
    }

    /// How many items stand above this one, whose number is below the number of items.
    pub fn depth(&self, n: u32) -> u32
        requires { n < length self.now }
        ensures { result ≡ depth_of self.now n }
    {
        self.depths[n as usize]
    }

    /// How many items there are below this one, and itself; its number is below the number of
    /// items.
    pub fn size(&self, n: u32) -> u32
        requires { n < length self.now }
        ensures { result ≡ size_of self.now n }
    {
        self.sizes[n as usize]
    }

    /// At most so many items of the walk, from this place of it on: all that there are. It fails
    /// only for want of memory.
    pub fn walk(&self, from: u32, count: u32) -> Result<Vec<u32>, AllocError>
        ensures { IfOk result (λ items. IsWindow self.now from count items.items) }
    {
        let len = self.walk.len();
        let start = (from as usize).min(len);
        let count = (count as usize).min(len - start);
        Vec::from_slice(self.alloc, &self.walk[start..start + count])
    }
}
