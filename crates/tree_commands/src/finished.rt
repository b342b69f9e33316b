//! `FinishedThread`.
ghost use Rattle.std.specs.Prelude.{◌≡◌, ◌<◌, List, length, IfOk, slice_index_or};
ghost use Rattle.reply_tree.specs.Walks.{IsWindow, depth_of, size_of};
ghost use Rattle.tree_commands.specs.Threads.{IsNumbered};

use reply_tree::Tree;
use std::alloc::AllocError;
use std::marker::Model;

/// The delivered messages of a group as a tree of replies, by their arrival numbers, each with its
/// place. Contracts see the arrival number and the parent of each item, and the number of held
/// messages.
#[derive(Drop)]
pub(crate) struct FinishedThread {
    tree: Tree,
    numbers: Vec<u32>,
    held: usize,
}

impl Model for FinishedThread {
    ghost use Rattle.tree_commands.specs.Threads.{IsNumbered, ThreadValue};

    ghost Value = { ThreadValue };

    ghost view = { λ t. record {
      numbers = t.numbers.items;
      parents = t.tree;
      held = t.held;
    } };

    ghost invariant = { λ t. IsNumbered t.numbers.items t.tree t.held };
}

impl FinishedThread {
    // The messages of these arrival numbers, of so many that are held.
    pub(crate) fn of(tree: Tree, numbers: Vec<u32>, held: usize) -> FinishedThread
        requires { IsNumbered numbers.items tree held }
        ensures { result ≡ record { numbers = numbers.items; parents = tree; held = held } }
    {
        FinishedThread {
            tree,
            numbers,
            held,
        }
    }

    /// At most so many items of the walk, from this place of it on. It fails only for want of
    /// memory.
    pub(crate) fn walk(&self, from: u32, count: u32) -> Result<Vec<u32>, AllocError>
        ensures { IfOk result (λ items. IsWindow self.now.parents from count items.items) }
    {
        self.tree.walk(from, count)
    }

    /// The arrival number of an item.
    pub(crate) fn number(&self, item: u32) -> u32
        requires { item < length self.now.numbers }
        ensures value { result ≡ slice_index_or self.now.numbers item 0 }
        ensures within { result < self.now.held }
    {
        self.numbers[item as usize]
    }

    /// How many items stand above an item.
    pub(crate) fn depth(&self, item: u32) -> u32
        requires { item < length self.now.numbers }
        ensures { result ≡ depth_of self.now.parents item }
    {
        self.tree.depth(item)
    }

    /// How many items there are below an item, and itself.
    pub(crate) fn size(&self, item: u32) -> u32
        requires { item < length self.now.numbers }
        ensures { result ≡ size_of self.now.parents item }
    {
        self.tree.size(item)
    }
}
