//! What is counted of each item, each in one pass over all items.
ghost use Rattle.std.specs.Prelude.{◌≡◌, ◌+◌, ◌^◌, ◌<◌, length, slice_index, IfOk, IfSome};
ghost use Rattle.reply_tree.specs.Kept.{IsOfEach, count_added, depth_under};
ghost use Rattle.reply_tree.specs.Kept.{free_at, free_behind, top_behind};
ghost use Rattle.reply_tree.specs.Walks.{RepliesToEarlier, depth_of, size_of, walk_of};

use std::alloc::{AllocError, Global};

/// How many items stand above each: one more than above its parent, which comes first.
pub(crate) fn depths(alloc: Global, parents: &[Option<u32>]) -> Result<Vec<u32>, AllocError>
    requires earlier { RepliesToEarlier parents.now }
    requires few { length parents.now < 2 ^ 32 }
    ensures { IfOk result (λ depths. IsOfEach parents.now (depth_of parents.now) depths.items) }
{
    let mut depths = Vec::with_capacity(alloc, parents.len())?;
    'items: for n in 0..parents.len() {
        let depth = depth_under(depths.as_slice(), parents[n]);
        depths.push(depth)?;
    }
    Ok(depths)
}

// The depth of an item that replies to `parent`.
fn depth_under(depths: &[u32], parent: Option<u32>) -> u32
    requires within { IfSome parent (λ p. p < length depths.now) }
    requires room { IfSome parent (λ p. slice_index depths.now p + 1 < 2 ^ 32) }
    ensures { result ≡ depth_under depths.now parent }
{
    match parent {
        Some(p) => depths[p as usize] + 1,
        None => 0,
    }
}

/// How many items there are below each, and itself: each is counted in its parent, which comes last.
pub(crate) fn sizes(alloc: Global, parents: &[Option<u32>]) -> Result<Vec<u32>, AllocError>
    requires earlier { RepliesToEarlier parents.now }
    requires few { length parents.now < 2 ^ 32 }
    ensures { IfOk result (λ sizes. IsOfEach parents.now (size_of parents.now) sizes.items) }
{
    let mut sizes = vec![in alloc; 1; parents.len()]?;
    let mut left = parents.len();
    while left > 0 {
        left -= 1;
        count_in(sizes.as_mut_slice(), left, parents[left]);
    }
    Ok(sizes)
}

// Counts an item, and all below it, in what it replies to.
fn count_in(sizes: &mut [u32], item: usize, parent: Option<u32>)
    requires within { item < length sizes.old }
    requires parent { IfSome parent (λ p. p < length sizes.old) }
    requires room { IfSome parent (λ p. slice_index sizes.old p + slice_index sizes.old item
        < 2 ^ 32) }
    ensures { sizes.new ≡ count_added sizes.old item parent }
{
    if let Some(p) = parent {
        let size = sizes[p as usize] + sizes[item];
        sizes[p as usize] = size;
    }
}

/// The walk of all items, by their sizes: each item takes the next place that is free below its
/// parent, and as many behind it as its size says are for those below it.
pub(crate) fn walk(
    alloc: Global,
    parents: &[Option<u32>],
    sizes: &[u32],
) -> Result<Vec<u32>, AllocError>
    requires earlier { RepliesToEarlier parents.now }
    requires few { length parents.now < 2 ^ 32 }
    requires sizes { IsOfEach parents.now (size_of parents.now) sizes.now }
    ensures { IfOk result (λ walk. walk.items ≡ walk_of parents.now) }
{
    let mut walk = vec![in alloc; 0; parents.len()]?;
    let mut free = Vec::with_capacity(alloc, parents.len())?;
    let mut top = 0;
    'items: for n in 0..parents.len() {
        let place = take_place(free.as_mut_slice(), &mut top, parents[n], sizes[n]);
        free.push(place + 1)?;
        walk[place as usize] = n as u32;
    }
    Ok(walk)
}

// Takes so many places for an item that replies to `parent`, and all below it, and answers the first
// of them. `top` is the next free place for a root, `free` that below each item.
fn take_place(free: &mut [u32], top: &mut u32, parent: Option<u32>, size: u32) -> u32
    requires within { IfSome parent (λ p. p < length free.old) }
    requires room { free_at top.old free.old parent + size < 2 ^ 32 }
    ensures place { result ≡ free_at top.old free.old parent }
    ensures top { top.new ≡ top_behind top.old parent size }
    ensures below { free.new ≡ free_behind free.old parent size }
{
    match parent {
        Some(p) => {
            let place = free[p as usize];
            free[p as usize] = place + size;
            place
        }
        None => {
            let place = *top;
            *top = place + size;
            place
        }
    }
}
