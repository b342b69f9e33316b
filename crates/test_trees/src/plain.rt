//! The definition, plainly: the paths of all items, sorted.

use reply_tree::Tree;
use std::alloc::{AllocError, Global};

/// The numbers of the items from a root down to one.
pub(crate) type Path = Vec<u32>;

// The path of each item, in the order of their numbers.
fn paths_of(alloc: Global, parents: &[Option<u32>]) -> Result<Vec<Path>, AllocError> {
    let mut paths: Vec<Path> = Vec::new(alloc);
    for parent in parents {
        let path = next_path(alloc, paths.as_slice(), *parent)?;
        paths.push(path)?;
    }
    Ok(paths)
}

// The path of one more item.
fn next_path(alloc: Global, paths: &[Path], parent: Option<u32>) -> Result<Path, AllocError> {
    let mut path = Vec::new(alloc);
    if let Some(p) = parent {
        if let Some(above) = paths.get(p as usize) {
            path.extend_from_slice(above.as_slice())?;
        }
    }
    // A forest has fewer items than a number may name.
    let number = u32::try_from(paths.len()).unwrap_or(u32::MAX);
    path.push(number)?;
    Ok(path)
}

/// The paths of all items, a front of a path before it, and else by the first number in which they
/// differ.
pub(crate) fn sorted_paths(
    alloc: Global,
    parents: &[Option<u32>],
) -> Result<Vec<Path>, AllocError> {
    let mut paths = paths_of(alloc, parents)?;
    paths.sort()?;
    Ok(paths)
}

// How many paths begin with this one.
fn count_below(paths: &[Path], front: &[u32]) -> u32 {
    let mut count = 0u32;
    for path in paths {
        if path.as_slice().starts_with(front) {
            count = count.saturating_add(1);
        }
    }
    count
}

/// Whether each item has its depth and its size.
pub(crate) fn are_placed(tree: &Tree, sorted: &[Path]) -> bool {
    let mut agrees = sorted.len() == tree.len() as usize;
    for path in sorted {
        agrees &= is_placed(tree, sorted, path.as_slice());
    }
    agrees
}

// Whether the item of this path has its depth and its size.
fn is_placed(tree: &Tree, sorted: &[Path], path: &[u32]) -> bool {
    match path.last() {
        Some(n) if *n < tree.len() => {
            let above = path.len().saturating_sub(1);
            tree.depth(*n) as usize == above && tree.size(*n) == count_below(sorted, path)
        }
        _ => false,
    }
}

/// Whether a part of the walk is that of the paths.
pub(crate) fn is_part(
    tree: &Tree,
    sorted: &[Path],
    from: u32,
    count: u32,
) -> Result<bool, AllocError> {
    let items = tree.walk(from, count)?;
    let from = (from as usize).min(sorted.len());
    let to = from.saturating_add(count as usize).min(sorted.len());
    Ok(are_last(items.as_slice(), &sorted[from..to]))
}

// Whether the paths end with these items.
fn are_last(items: &[u32], paths: &[Path]) -> bool {
    if items.len() != paths.len() {
        return false;
    }
    for (item, path) in items.iter().zip(paths) {
        if path.as_slice().last() != Some(item) {
            return false;
        }
    }
    true
}
