//! Makes a tree of replies of its items, for its speed and memory, as chains, as a star or as replies
//! that look random.

ghost use Rattle.std.specs.Prelude.{◌<◌, IfSome};

use crate::words::{number_at, word_at};
use anyhow::{Context, Result, bail};
use reply_tree::{Replies, Tree};
use std::alloc::{AllocError, Global};

/// The shapes: chains of this length, one root to which all others reply, and replies to items that
/// look random.
#[derive(Clone, Copy)]
enum Shape {
    Chains(u32),
    Star,
    Random,
}

impl Shape {
    // What the item of this number replies to.
    fn parent(self, n: u32) -> Option<u32> {
        let before = n.checked_sub(1)?;
        match self {
            Shape::Chains(length) if n.checked_rem(length) == Some(0) => None,
            Shape::Chains(_) => Some(before),
            Shape::Star => Some(0),
            Shape::Random => scatter(n).checked_rem(u64::from(n)).map(|p| p as u32),
        }
    }
}

// A number that looks random.
fn scatter(n: u32) -> u64 {
    let mut x = u64::from(n).wrapping_mul(0x9e37_79b9_7f4a_7c15);
    x ^= x >> 29;
    x = x.wrapping_mul(0xbf58_476d_1ce4_e5b9);
    x ^ (x >> 32)
}

// The parent, where it is an earlier item.
fn earlier(parent: Option<u32>, len: u32) -> Option<u32>
    ensures { IfSome result (λ p. p < len) }
{
    match parent {
        Some(p) if p < len => Some(p),
        _ => None,
    }
}

// The tree of so many items.
fn build(alloc: Global, shape: Shape, count: u32) -> Result<Tree, AllocError> {
    let mut replies = Replies::new(alloc);
    for n in 0..count {
        let len = replies.len();
        if len < u32::MAX {
            replies.add(earlier(shape.parent(n), len))?;
        }
    }
    replies.finish()
}

// The sum of the depths of all items.
fn sum_depths(tree: &Tree) -> u64 {
    let mut depths = 0u64;
    for n in 0..tree.len() {
        depths = depths.saturating_add(u64::from(tree.depth(n)));
    }
    depths
}

// The shape of a word, and the length of chains.
fn shape_of(word: &str) -> Result<Shape> {
    match word {
        "star" => Ok(Shape::Star),
        "random" => Ok(Shape::Random),
        word => Ok(Shape::Chains(word.parse::<u32>().context("reading a length")?)),
    }
}

/// Makes the tree of so many items of a shape, and prints what their depths and the walk come to.
pub(crate) fn measure(rt: &HostRuntime, words: &[String]) -> Result<()> {
    let shape = shape_of(word_at(words, 0))?;
    let count = number_at(words, 1)?;
    let tree = build(rt.alloc(), shape, count)?;
    let depths = sum_depths(&tree);
    let last = tree.walk(count / 2, 1)?;
    let Some(last) = last.first() else {
        bail!("no items");
    };
    println!(rt;
        "{} items, depths {depths}, {last} in the middle",
        tree.len()
    )?;
    Ok(())
}
