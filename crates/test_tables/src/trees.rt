ghost use Rattle.std.specs.Prelude.{◌≡◌, length};

use crate::checks::{made, must, same};
use due_tree::DueTree;
use std::process::Abort;

/// The first place from `from` on whose number is at most `bound`, by a walk.
fn walked(places: &[Option<u64>], from: usize, bound: u64) -> Option<usize> {
    for (place, number) in places.iter().enumerate() {
        if let Some(number) = number {
            if place >= from && *number <= bound {
                return Some(place);
            }
        }
    }
    None
}

/// Sets or clears a place by chance, in both, and compares it.
fn change(rt: &impl Abort, tree: &mut DueTree, places: &mut [Option<u64>], seed: u64) {
    let place = (seed >> 33) as usize % places.len().max(1);
    must(rt, seed, place < places.len() && place < tree.len());
    let number = if seed % 7 == 0 {
        u64::MAX
    } else {
        (seed >> 20) % 50
    };
    if seed % 3 == 0 {
        tree.clear(place);
        places[place] = None;
    } else {
        tree.set(place, number);
        places[place] = Some(number);
    }
    same(rt, seed, &tree.get(place), &places[place]);
}

/// Compares what both find.
fn compare(rt: &impl Abort, tree: &DueTree, places: &[Option<u64>], seed: u64) {
    let from = (seed >> 40) as usize % 60;
    for bound in [0, 9, 25, 49, u64::MAX - 1, u64::MAX] {
        let first = tree.first_at_most(bound);
        same(rt, bound, &first, &walked(places, 0, bound));
        let next = tree.next_at_most(from, bound);
        same(rt, bound, &next, &walked(places, from, bound));
    }
}

#[test]
fn finds_what_a_walk_finds(rt: HostRuntime) {
    let mut tree = made(&rt, DueTree::new(rt.alloc()));
    let mut places: Vec<Option<u64>> = Vec::new(rt.alloc());
    let mut seed: u64 = 7;
    for round in 0..600u64 {
        seed = seed
            .wrapping_mul(6364136223846793005)
            .wrapping_add(1442695040888963407);
        if round % 12 == 0 {
            made(&rt, tree.reserve(places.len().wrapping_add(1)));
            made(&rt, places.push(None));
        }
        change(&rt, &mut tree, places.as_mut_slice(), seed);
        compare(&rt, &tree, places.as_slice(), seed);
    }
    same(&rt, 600, &tree.len(), &50);
    must(&rt, 600, !tree.is_empty());
}

/// Compares the first place of a number of at most `bound`, and how many places there are.
fn finds(rt: &impl Abort, at: u64, tree: &DueTree, bound: u64, first: Option<usize>, len: usize)
    ensures { length tree.now ≡ len }
{
    same(rt, at, &tree.first_at_most(bound), &first);
    must(rt, at, tree.len() == len);
}

#[test]
fn the_greatest_number_is_not_absence(rt: HostRuntime) {
    let mut tree = made(&rt, DueTree::new(rt.alloc()));
    finds(&rt, 1, &tree, u64::MAX, None, 0);
    made(&rt, tree.reserve(3));
    finds(&rt, 2, &tree, u64::MAX, None, 3);
    tree.set(2, u64::MAX);
    finds(&rt, 3, &tree, u64::MAX, Some(2), 3);
    finds(&rt, 4, &tree, u64::MAX - 1, None, 3);
    made(&rt, tree.reserve(1));
    finds(&rt, 5, &tree, u64::MAX, Some(2), 3);
}
