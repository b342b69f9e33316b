//! The queues of messages that may go before their time, one for each number of tries that occurs. A
//! message goes so where a try on the session at hand would set an expiry less than the one that
//! stands, which for so many tries is a bound on that expiry.
ghost use Rattle.std.specs.Prelude.{◌≡◌, ◌≢◌, ◌+◌, ◌/◌, ◌^◌, ◌<◌, ◌≤◌, [], ℕ, true, IfOk, OnOk};
ghost use Rattle.std.specs.Prelude.{drop, length, slice_set};
ghost use Rattle.std.specs.List.{position_from};
ghost use Rattle.due_tree.specs.Cells.{lesser};
ghost use Rattle.retry_table.specs.Due.{is_sooner_at};
ghost use Rattle.retry_table.specs.Queues.{AreClasses, AreLeast, class_at, is_sooner_in};
ghost use Rattle.retry_table.specs.declared.blocks.Times.TheVariants as times;

use crate::blocks::{Times, least_in, mend, next_at_most};
use crate::places::put;
use crate::rows::{KeptRow, sooner_bound};
use due_tree::DueTree;
use std::alloc::{AllocError, Global};

/// The most queues: at most 64 tries are counted.
const CLASSES: usize = 65;

/// For the first so many numbers of tries, from 0, a queue of the rows that were tried so often; and
/// a number greater than all tries there are. Where there are fewer queues than that, the rows are
/// to be gone over.
#[derive(Drop)]
pub(crate) struct Classes {
    trees: Vec<DueTree>,
    most: usize,
}

/// The earlier of two places.
fn earlier(a: Option<usize>, b: Option<usize>) -> Option<usize>
    ensures { result ≡ lesser a b }
{
    match (a, b) {
        (None, _) => b,
        (Some(_), None) => a,
        (Some(m), Some(n)) => Some(m.min(n)),
    }
}

/// A queue of the rows that were tried so often.
fn class_of(alloc: Global, rows: &[KeptRow], tries: u8) -> Result<DueTree, AllocError>
    requires few { length rows.now < 2 ^ 32 }
    ensures { IfOk result (AreLeast (times.Sooner tries) rows.now) }
{
    let blocks = rows.len().div_ceil(64);
    let mut tree = DueTree::new(alloc)?;
    tree.reserve(rows.len() / 64 + 1)?;
    for block in 0..blocks {
        put(
            &mut tree,
            block,
            least_in(rows, Times::Sooner(tries), block, Some(0)),
        );
    }
    Ok(tree)
}

impl Classes {
    /// No queues, and no row that was tried.
    pub(crate) fn new(alloc: Global) -> Classes
        ensures { AreClasses [] result }
    {
        Classes {
            trees: Vec::new(alloc),
            most: 1,
        }
    }

    /// Whether there is a queue for each number of tries that occurs.
    pub(crate) fn are_whole(&self) -> bool
        ensures { result ≡ true → self.now.most ≤ length self.now.trees.items }
    {
        self.most <= self.trees.len()
    }

    /// Makes places for more blocks of rows. It takes memory; after an error each queue has as many
    /// places as before, or these.
    pub(crate) fn reserve(&mut self, rows: &[KeptRow], places: usize) -> Result<(), AllocError>
        requires kept { AreClasses rows.now self.old }
        requires fits { places ≤ 2 ^ 32 }
        ensures kept { AreClasses rows.now self.new }
        ensures room { OnOk result ((tries : ℕ) → tries < length self.new.trees.items
            → places ≤ length (class_at self.new.trees.items tries)) }
    {
        for tries in 0..self.trees.len() {
            self.trees[tries].reserve(places)?;
        }
        Ok(())
    }

    /// Makes a queue for each number of tries that occurs, and for one more, since an output adds a
    /// try. It takes memory; after an error there are as many queues as before, or more.
    pub(crate) fn grow(&mut self, alloc: Global, rows: &[KeptRow]) -> Result<(), AllocError>
        requires kept { AreClasses rows.now self.old }
        requires few { length rows.now < 2 ^ 32 }
        ensures { AreClasses rows.now self.new }
    {
        while self.trees.len() <= self.most && self.trees.len() < CLASSES {
            let tree = class_of(alloc, rows, self.trees.len() as u8)?;
            self.trees.push(tree)?;
        }
        Ok(())
    }

    /// Mends the queue of so many tries, if there is one, after a row was written in place of an old
    /// one.
    fn mend_class(&mut self, tries: u8, rows: &[KeptRow], n: usize, old: KeptRow)
        requires within { n < length rows.now }
        requires before { tries < length self.old.trees.items → AreLeast (times.Sooner tries)
            (slice_set rows.now n old) (class_at self.old.trees.items tries) }
        ensures here { tries < length self.new.trees.items → AreLeast (times.Sooner tries) rows.now
            (class_at self.new.trees.items tries) }
        ensures others { (other : ℕ) → other ≢ tries → class_at self.new.trees.items other
            ≡ class_at self.old.trees.items other }
        ensures many { length self.new.trees.items ≡ length self.old.trees.items }
        ensures most { self.new.most ≡ self.old.most }
    {
        let class = tries as usize;
        if class < self.trees.len() {
            mend(&mut self.trees[class], Times::Sooner(tries), rows, n, old);
        }
    }

    /// Mends the queues after a row was written in place of an old one: those of the old and of the
    /// new number of tries.
    pub(crate) fn mend(&mut self, rows: &[KeptRow], n: usize, old: KeptRow)
        requires within { n < length rows.now }
        requires before { AreClasses (slice_set rows.now n old) self.old }
        ensures { AreClasses rows.now self.new }
    {
        let was = old.tries();
        let is = rows[n].tries();
        self.most = self.most.max(is as usize + 1);
        self.mend_class(was, rows, n, old);
        if is != was {
            self.mend_class(is, rows, n, old);
        }
    }

    /// The first row from `from` on that goes before its time, of those that were tried so often.
    fn next_in(
        &self,
        rows: &[KeptRow],
        tries: usize,
        latency: u32,
        now: u64,
        from: usize,
    ) -> Option<usize>
        requires kept { AreClasses rows.now self.now }
        requires within { tries < length self.now.trees.items }
        ensures { result ≡ position_from (is_sooner_in latency now tries) from
            (drop from rows.now) }
    {
        let class = tries as u8;
        let bound = sooner_bound(latency, now, class)?;
        next_at_most(&self.trees[tries], Times::Sooner(class), rows, from, bound)
    }

    /// The first row from `from` on that goes before its time.
    pub(crate) fn next_sooner(
        &self,
        rows: &[KeptRow],
        latency: u32,
        now: u64,
        from: usize,
    ) -> Option<usize>
        requires kept { AreClasses rows.now self.now }
        requires whole { self.now.most ≤ length self.now.trees.items }
        ensures { result ≡ position_from (is_sooner_at latency now) from (drop from rows.now) }
    {
        let mut first = None;
        for tries in 0..self.trees.len() {
            first = earlier(first, self.next_in(rows, tries, latency, now, from));
        }
        first
    }
}
