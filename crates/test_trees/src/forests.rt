//! Forests that look random.
ghost use Rattle.std.specs.Prelude.{◌<◌, IfSome};

use crate::dice::Dice;
use crate::plain::{are_placed, is_part, sorted_paths};
use reply_tree::{Replies, Tree};
use std::alloc::{AllocError, Global};

// The most items of a forest, less one.
const MOST: u64 = 23;

// How many parts of a walk are compared.
const PARTS: u32 = 4;

/// Whether the tree of a forest is that of the definition, with some parts of its walk.
pub(crate) fn compare_forest(alloc: Global, case: u32) -> Result<bool, AllocError> {
    let mut dice = Dice::new(case);
    let parents = draw_forest(alloc, &mut dice)?;
    let tree = tree_of(alloc, parents.as_slice())?;
    let sorted = sorted_paths(alloc, parents.as_slice())?;
    let mut agrees = are_placed(&tree, sorted.as_slice());
    agrees &= is_part(&tree, sorted.as_slice(), 0, u32::MAX)?;
    for _ in 0..PARTS {
        let from = dice.below(MOST + 3) as u32;
        let count = dice.below(MOST + 3) as u32;
        agrees &= is_part(&tree, sorted.as_slice(), from, count)?;
    }
    Ok(agrees)
}

// What each item replies to. Some forests are flat, and some are deep.
fn draw_forest(alloc: Global, dice: &mut Dice) -> Result<Vec<Option<u32>>, AllocError> {
    let items = (dice.below(MOST) as u32).saturating_add(1);
    let roots = dice.below(6).saturating_add(1);
    let near = dice.below(4).saturating_add(1);
    let mut parents = Vec::new(alloc);
    for n in 0..items {
        let parent = draw_parent(dice, n, roots, near);
        parents.push(parent)?;
    }
    Ok(parents)
}

// What the item of this number replies to.
fn draw_parent(dice: &mut Dice, n: u32, roots: u64, near: u64) -> Option<u32> {
    if n == 0 || dice.one_in(roots) {
        return None;
    }
    if dice.one_in(near) {
        return Some(n.saturating_sub(1));
    }
    Some(dice.below(u64::from(n)) as u32)
}

/// The tree of items that reply to these.
pub(crate) fn tree_of(alloc: Global, parents: &[Option<u32>]) -> Result<Tree, AllocError> {
    let mut replies = Replies::new(alloc);
    for parent in parents {
        let len = replies.len();
        if len < u32::MAX {
            replies.add(earlier(*parent, len))?;
        }
    }
    replies.finish()
}

// The parent, where it is an earlier item.
fn earlier(parent: Option<u32>, len: u32) -> Option<u32>
    ensures { IfSome result (λ p. p < len) }
{
    match parent {
        Some(p) if p < len => Some(p),
        _ => None,
    }
}
