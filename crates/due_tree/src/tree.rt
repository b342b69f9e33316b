//! `DueTree`.
ghost use Rattle.std.specs.Prelude.{◌≡◌, ◌-◌, ◌<◌, ◌++◌, ◌↔◌, [], IfOk, OnOk, OnErr, IsTrue, None};
ghost use Rattle.std.specs.Prelude.{Some, length, replicate, slice_set, slice_get};
ghost use Rattle.due_tree.specs.Due.{first_due, next_due};

use crate::cells::{at, descend, first_cell, is_due, moved, put, size_for};
use std::alloc::{AllocError, Global};
use std::marker::Model;

/// Places from 0 on, each absent or with a number, among which the first one with a number of at
/// most some bound is found in time logarithmic in their count. Contracts see the list of the
/// places, each an optional number.
#[derive(Drop)]
pub struct DueTree {
    height: usize,
    leaves: usize,
    cells: Vec<Option<u64>>,
}

impl Model for DueTree {
    ghost use Rattle.std.specs.Prelude.{ℕ, List, Option, drop};
    ghost use Rattle.due_tree.specs.Cells.{IsTreeWhole};

    ghost Value = { List (Option ℕ) };

    ghost view = { λ t. drop t.leaves t.cells.items };

    ghost invariant = { λ t. IsTreeWhole t.height t.leaves t.cells.items };
}

impl DueTree {
    /// A tree with no places. Answers an error where there is no memory.
    pub fn new(alloc: Global) -> Result<DueTree, AllocError>
        ensures { IfOk result (λ t. t ≡ []) }
    {
        let mut cells = Vec::new(alloc);
        cells.push(None)?;
        Ok(DueTree {
            height: 0,
            leaves: 1,
            cells,
        })
    }

    /// The number of places.
    pub fn len(&self) -> usize
        ensures { result ≡ length self.now }
    {
        self.cells.len() - self.leaves
    }

    /// Whether there are no places.
    pub fn is_empty(&self) -> bool
        ensures { IsTrue result ↔ (length self.now ≡ 0) }
    {
        self.len() == 0
    }

    /// Makes absent places at the end until there are `places` of them, and never takes one away.
    /// It alone takes memory; after an error all is as before.
    pub fn reserve(&mut self, places: usize) -> Result<(), AllocError>
        ensures ok { OnOk result (self.new ≡ self.old ++ replicate (places - length self.old)
            None) }
        ensures err { OnErr result (self.new ≡ self.old) }
    {
        if places <= self.len() {
            return Ok(());
        }
        if places <= self.leaves {
            return self.widen(places);
        }
        *self = self.grown(places)?;
        Ok(())
    }

    /// Makes absent places in the cells that the tree has.
    fn widen(&mut self, places: usize) -> Result<(), AllocError>
        requires more { length self.old < places }
        ensures ok { OnOk result (self.new ≡ self.old ++ replicate (places - length self.old)
            None) }
        ensures err { OnErr result (self.new ≡ self.old) }
    {
        if places > self.leaves {
            return Err(AllocError);
        }
        self.cells.resize(self.leaves + places, None)
    }

    /// A higher tree with the same places, and absent ones after them.
    fn grown(&self, places: usize) -> Result<DueTree, AllocError>
        requires { length self.now < places }
        ensures { IfOk result (λ t. t ≡ self.now ++ replicate (places - length self.now) None) }
    {
        let (height, leaves) = size_for(places)?;
        let cells = moved(&self.cells, self.leaves, leaves, places)?;
        Ok(DueTree {
            height,
            leaves,
            cells,
        })
    }

    /// Puts a number at a place.
    pub fn set(&mut self, place: usize, number: u64)
        requires { place < length self.old }
        ensures { self.new ≡ slice_set self.old place (Some number) }
    {
        put(&mut self.cells, self.leaves, place, Some(number));
    }

    /// Makes a place absent.
    pub fn clear(&mut self, place: usize)
        requires { place < length self.old }
        ensures { self.new ≡ slice_set self.old place None }
    {
        put(&mut self.cells, self.leaves, place, None);
    }

    /// The number at a place, if it is there.
    pub fn get(&self, place: usize) -> Option<u64>
        requires { place < length self.now }
        ensures { slice_get self.now place ≡ Some result }
    {
        self.cells[self.leaves + place]
    }

    /// The first place whose number is there and at most the bound; `None` exactly where there is
    /// none.
    pub fn first_at_most(&self, bound: u64) -> Option<usize>
        ensures { result ≡ first_due bound self.now }
    {
        // The root has the least number of all.
        if !is_due(at(&self.cells, 1), bound) {
            return None;
        }
        let cell = descend(&self.cells, self.leaves, 1, self.height, bound);
        Some(cell - self.leaves)
    }

    /// The first place from `from` on whose number is there and at most the bound; `None` exactly
    /// where there is none.
    pub fn next_at_most(&self, from: usize, bound: u64) -> Option<usize>
        ensures { result ≡ next_due from bound self.now }
    {
        if from >= self.len() {
            return None;
        }
        // The root has the least number of all.
        if !is_due(at(&self.cells, 1), bound) {
            return None;
        }
        let found = first_cell(
            &self.cells,
            self.leaves,
            self.height,
            self.leaves + from,
            bound,
        )?;
        Some(found - self.leaves)
    }
}
