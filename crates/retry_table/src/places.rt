//! Writing a queue's places, and listing those that are due.
ghost use Rattle.std.specs.Prelude.{◌≡◌, ◌^◌, ◌<◌, IfOk, length, slice_set, take};
ghost use Rattle.retry_table.specs.Due.{numbers_where};
ghost use Rattle.retry_table.specs.Queues.{is_timely, AreLeast};
ghost use Rattle.sync_ids.specs.declared.lists.TheConstants.{MAX_IDS};

use crate::blocks::{Times, next_at_most};
use crate::rows::KeptRow;
use due_tree::{Bits, DueTree};
use std::alloc::{AllocError, Global};
use sync_ids::MAX_IDS;

/// Puts a number at a place, or makes it absent; a place that has it is not written.
pub(crate) fn put(queue: &mut DueTree, place: usize, number: Option<u64>)
    requires { place < length queue.old }
    ensures { queue.new ≡ slice_set queue.old place number }
{
    if queue.get(place) == number {
        return;
    }
    match number {
        None => queue.clear(place),
        Some(at) => queue.set(place, at),
    }
}

/// The first 1,536 rows whose number is at most the bound, in order.
pub(crate) fn timely_places(
    alloc: Global,
    tree: &DueTree,
    times: Times,
    rows: &[KeptRow],
    bound: u64,
) -> Result<Vec<u32>, AllocError>
    requires least { AreLeast times rows.now tree.now }
    requires few { length rows.now < 2 ^ 32 }
    ensures { IfOk result
        (λ v. v.items ≡ take MAX_IDS (numbers_where (is_timely times bound) 0 rows.now)) }
{
    let mut places = Vec::new(alloc);
    let mut from = 0;
    for _i in 0..MAX_IDS {
        match next_at_most(tree, times, rows, from, bound) {
            None => return Ok(places),
            Some(place) => {
                places.push(place as u32)?;
                from = place + 1;
            }
        }
    }
    Ok(places)
}

/// The first 1,536 places of a set, in order.
pub(crate) fn set_places(alloc: Global, set: &Bits) -> Result<Vec<u32>, AllocError>
    requires { length set.now < 2 ^ 32 }
    ensures { IfOk result
        (λ v. v.items ≡ take MAX_IDS (numbers_where (λ is_in. is_in) 0 set.now)) }
{
    let mut places = Vec::new(alloc);
    let mut from = 0;
    for _i in 0..MAX_IDS {
        match set.next(from) {
            None => return Ok(places),
            Some(place) => {
                places.push(place as u32)?;
                from = place + 1;
            }
        }
    }
    Ok(places)
}
