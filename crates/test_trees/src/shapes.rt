//! A chain, a star and a comb, whose walks are told by their numbers.

use crate::forests::tree_of;
use reply_tree::Tree;
use std::alloc::{AllocError, Global};

/// The shapes: each item replies to the one before it; all reply to the first one; one half is a
/// chain, and each item of the other half replies to one of the chain, in order.
#[derive(Clone, Copy)]
pub(crate) enum Shape {
    Chain,
    Star,
    Comb,
}

impl Shape {
    // What an item of so many replies to.
    fn parent(self, n: u32, items: u32) -> Option<u32> {
        match self {
            Shape::Chain => n.checked_sub(1),
            Shape::Star => n.checked_sub(1).map(|_| 0),
            Shape::Comb if n < items / 2 => n.checked_sub(1),
            Shape::Comb => n.checked_sub(items / 2),
        }
    }

    // The item at a place of the walk: of a comb the chain comes first, and then the other half from
    // its last one on.
    fn item(self, place: u32, items: u32) -> u32 {
        match self {
            Shape::Chain | Shape::Star => place,
            Shape::Comb if place < items / 2 => place,
            Shape::Comb => (items / 2)
                .saturating_add(items.saturating_sub(place))
                .saturating_sub(1),
        }
    }

    // How many items stand above one.
    fn depth(self, n: u32, items: u32) -> u32 {
        match self {
            Shape::Chain => n,
            Shape::Star => n.min(1),
            Shape::Comb if n < items / 2 => n,
            Shape::Comb => n.saturating_sub(items / 2).saturating_add(1),
        }
    }

    // How many there are below one, and itself.
    fn size(self, n: u32, items: u32) -> u32 {
        match self {
            Shape::Chain => items.saturating_sub(n),
            Shape::Star if n == 0 => items,
            Shape::Comb if n < items / 2 => items.saturating_sub(n.saturating_mul(2)),
            Shape::Star | Shape::Comb => 1,
        }
    }
}

/// Whether the tree of a shape is as its numbers tell. The number of items is even.
pub(crate) fn is_shaped(alloc: Global, shape: Shape, items: u32) -> Result<bool, AllocError> {
    let mut parents = Vec::new(alloc);
    for n in 0..items {
        parents.push(shape.parent(n, items))?;
    }
    let tree = tree_of(alloc, parents.as_slice())?;
    let walk = tree.walk(0, items)?;
    Ok(are_items(shape, &tree, walk.as_slice(), items))
}

// Whether each item of the walk is the one of its place, with its depth and its size.
fn are_items(shape: Shape, tree: &Tree, walk: &[u32], items: u32) -> bool {
    if walk.len() != items as usize {
        return false;
    }
    for (place, item) in walk.iter().enumerate() {
        if !is_item(shape, tree, place as u32, *item, items) {
            return false;
        }
    }
    true
}

fn is_item(shape: Shape, tree: &Tree, place: u32, item: u32, items: u32) -> bool {
    item < tree.len()
        && item == shape.item(place, items)
        && tree.depth(item) == shape.depth(item, items)
        && tree.size(item) == shape.size(item, items)
}
