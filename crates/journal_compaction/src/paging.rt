//! How items are cut into payloads, and how long these are.
ghost use Rattle.std.specs.Prelude.{◌≡◌, ◌-◌, ◌^◌, ◌≤◌, min};
ghost use Rattle.std.specs.List.{AllByRecursion};
ghost use Rattle.journal_compaction.specs.Items.{IsItem};
ghost use Rattle.journal_compaction.specs.Paging.{added_len, items_len, joins, left_after};

use crate::items::{Item, item_len};
use journal_state::State;

/// Whether an item's entry goes into the payload that is being filled, which takes so many more.
pub(crate) fn joins(left: usize, item: Item) -> bool
    ensures { result ≡ joins left item }
{
    !item.is_alone() && left > 0
}

/// How many more a payload takes behind an item that was put into it, or began it, where it takes so
/// many at most.
pub(crate) fn left_after(most: usize, left: usize, item: Item) -> usize
    requires { 1 ≤ most }
    ensures { result ≡ left_after most left item }
{
    if joins(left, item) {
        return left - 1;
    }
    if item.is_alone() { 0 } else { most - 1 }
}

/// What an item adds to the length of all frames, where the payload that is being filled takes so
/// many more; the number stands still at 2^64 - 1.
fn added_len(state: &State, item: Item, left: usize) -> u64
    requires { IsItem state.now.facts item }
    ensures { result ≡ min (added_len state.now.facts left item) (2 ^ 64 - 1) }
{
    let frame = if joins(left, item) { 0u64 } else { 5u64 };
    frame.saturating_add(item_len(state, item) as u64)
}

/// The length of the frames that items fill, where a payload takes so many at most; the number
/// stands still at 2^64 - 1.
pub(crate) fn items_len(state: &State, items: &[Item], most: usize) -> u64
    requires there { AllByRecursion (IsItem state.now.facts) items.now }
    requires most { 1 ≤ most }
    ensures { result ≡ min (items_len state.now.facts most 0 items.now) (2 ^ 64 - 1) }
{
    let mut len = 0u64;
    let mut left = 0usize;
    'items: for item in items {
        len = len.saturating_add(added_len(state, *item, left));
        left = left_after(most, left, *item);
    }
    len
}
