//! What labels stand for.
ghost use Rattle.std.specs.Prelude.{◌≡◌, [], IfOk, MatchOption, OnErr, position};
ghost use Rattle.std.specs.Prelude.{slice_get};
ghost use Rattle.world_scripts.specs.Labels.{has_twice, is_pair};
ghost use Rattle.world_scripts.specs.Labels.{are_made, labelled, place_of, suits_kind};

use crate::lists::Labels;
use crate::step::{FEED, NOTE, THREAD};
use std::alloc::{AllocError, Global};
use std::marker::Model;
use sync_rules::MAX_DEPS;
use sync_words::Word;

/// The groups that the lines of a script have named so far. A group's label is the place of its
/// kind and descriptor in the order of their first lines. Contracts see the list of these pairs.
#[derive(Debug, Drop)]
pub struct GroupLabels {
    pairs: Vec<(u8, Word)>,
}

impl Model for GroupLabels {
    ghost use Rattle.std.specs.Prelude.{List, ℕ};

    ghost Value = { List (ℕ × List ℕ) };

    ghost view = { λ l. l.pairs.items };
}

impl GroupLabels {
    /// No groups.
    pub fn new(alloc: Global) -> GroupLabels
        ensures { result ≡ [] }
    {
        GroupLabels {
            pairs: Vec::new(alloc),
        }
    }

    /// The label of this kind and descriptor, which is a new one where no line named them before.
    /// It fails only for want of memory, and then all is as before.
    pub fn label(&mut self, alloc: Global, kind: u8, descriptor: &str) -> Result<u64, AllocError>
        ensures ok { IfOk result (λ label. self.new ≡ labelled (kind, descriptor.now) self.old) }
        ensures place { IfOk result (λ label. label ≡ place_of (kind, descriptor.now) self.old) }
        ensures err { OnErr result (self.new ≡ self.old) }
    {
        let place = self.place(kind, descriptor);
        if place == self.pairs.len() {
            let descriptor = Word::new(String::from_str(alloc, descriptor)?);
            self.pairs.push((kind, descriptor))?;
        }
        Ok(place as u64)
    }

    // The place of a pair, or the number of pairs where it is none of them.
    fn place(&self, kind: u8, descriptor: &str) -> usize
        ensures { result ≡ place_of (kind, descriptor.now) self.now }
    {
        match self.position(kind, descriptor) {
            Some(place) => place,
            None => self.pairs.len(),
        }
    }

    fn position(&self, kind: u8, descriptor: &str) -> Option<usize>
        ensures { result ≡ position (is_pair (kind, descriptor.now)) self.now }
    {
        self.pairs
            .iter()
            .position(|pair| pair.0 == kind && pair.1.as_str() == descriptor)
    }

    /// What a label stands for: the kind and the descriptor, if a line has named them.
    pub fn get(&self, label: u64) -> Option<(u8, &str)>
        ensures { MatchOption result (slice_get self.now label ≡ None)
            (λ group. slice_get self.now label ≡ Some (group.0, group.1.now)) }
    {
        match self.pairs.get(label as usize) {
            Some((kind, descriptor)) => Some((*kind, descriptor.as_str())),
            None => None,
        }
    }
}

/// Whether each parent is the label of one of the first so many posts.
pub fn are_made(parents: &Labels, posts: u64) -> bool
    ensures { result ≡ are_made parents.now posts }
{
    parents.as_slice().iter().all(|label| *label < posts)
}

/// Whether a post of a group of this kind may have these parents: of a note none, of a thread up to
/// 255 distinct ones, of a feed one at most.
pub fn suits_kind(kind: u8, parents: &Labels) -> bool
    ensures { result ≡ suits_kind kind parents.now }
{
    let labels = parents.as_slice();
    match kind {
        NOTE => labels.is_empty(),
        THREAD => labels.len() <= MAX_DEPS && !has_twice(labels),
        FEED => labels.len() <= 1,
        _ => false,
    }
}

fn has_twice(labels: &[u64]) -> bool
    ensures { result ≡ has_twice labels.now }
{
    for (place, label) in labels.iter().enumerate() {
        if labels[place + 1..].contains(label) {
            return true;
        }
    }
    false
}
