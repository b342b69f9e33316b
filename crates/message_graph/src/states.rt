//! What each node waits for, and the set of those that have a step.
ghost use Rattle.std.specs.Prelude.{◌≡◌, ◌+◌, ◌-◌, ◌<◌, ◌≤◌, ◌++◌, ◌∷◌, [], false, IfOk, OnOk};
ghost use Rattle.std.specs.Prelude.{OnErr};
ghost use Rattle.std.specs.Prelude.{length, slice_set, slice_get};
ghost use Rattle.std.specs.List.{position_from};
ghost use Rattle.message_graph.specs.Waits.{has_step, told, missing_after, from_missing};
ghost use Rattle.message_graph.specs.Waits.{AreClear, Marked, but_last};
ghost use Rattle.due_tree.specs.Sets.{next_set};

use due_tree::Bits;
use std::alloc::{AllocError, Global};
use std::marker::Model;

/// What a node waits for: its judgement; nothing, since it can only become invalid; that many
/// dependencies that are not delivered; or nothing, since it has ended.
#[derive(Clone, Copy)]
pub(crate) enum Waiting {
    Unjudged,
    Doomed,
    Missing(usize),
    Ended,
}

/// What a node hears of one that it depends on: it came in this group; it is invalid; it is
/// delivered.
#[derive(Clone, Copy)]
pub(crate) enum News {
    Arrived(u32),
    Failed,
    Delivered,
}

/// What the nodes wait for, by number, and the set of those that have a step. The last node is not
/// in the set: where each node ends before the next one comes, as mostly in a load, the set stays
/// empty. It is not searched while no node was in it.
#[derive(Drop)]
pub(crate) struct States {
    waits: Vec<Waiting>,
    ready: Bits,
    is_used: bool,
}

impl Model for States {
    ghost use Rattle.std.specs.Prelude.{◌≡◌, ◌-◌, ◌≤◌, false, length, vec_capacity};
    ghost use Rattle.message_graph.specs.Waits.{NodeWaits, AreClear, Marked, but_last};

    ghost Value = { NodeWaits };

    ghost view = { λ s. record {
      waits = s.waits.items;
      room = length s.ready - length s.waits.items;
    } };

    ghost invariant = { λ s. Marked s.ready (but_last s.waits.items)
        × (length s.ready ≤ vec_capacity s.waits) × (s.is_used ≡ false → AreClear s.ready) };
}

/// Whether a node that waits for this has a step.
fn has_step(waiting: Waiting) -> bool
    ensures { result ≡ has_step waiting }
{
    match waiting {
        Waiting::Unjudged | Waiting::Doomed => true,
        Waiting::Missing(count) => count == 0,
        Waiting::Ended => false,
    }
}

/// The first of a set, which is empty where it is not used.
fn first_in(ready: &Bits, is_used: bool) -> Option<usize>
    requires { is_used ≡ false → AreClear ready.now }
    ensures { result ≡ next_set 0 ready.now }
{
    if !is_used {
        return None;
    }
    ready.next(0)
}

/// Puts the last node into the set, where it has a step; answers whether it has.
fn mark_last(ready: &mut Bits, waits: &[Waiting]) -> bool
    requires { length waits.now ≤ length ready.old }
    ensures marked { Marked ready.old (but_last waits.now) → Marked ready.new waits.now }
    ensures len { length ready.new ≡ length ready.old }
    ensures clear { result ≡ false → AreClear ready.old → AreClear ready.new }
{
    let Some(last) = waits.len().checked_sub(1) else {
        return false;
    };
    let is_ready = has_step(waits[last]);
    ready.put(last, is_ready);
    is_ready
}

/// What a node of the group waits for, after news of one that it waits for.
pub(crate) fn told(news: News, group: u32, waiting: Waiting) -> Waiting
    ensures { result ≡ told news group waiting }
{
    match (waiting, news) {
        (Waiting::Missing(count), News::Arrived(other)) => {
            if other == group {
                Waiting::Missing(count)
            } else {
                Waiting::Doomed
            }
        }
        (Waiting::Missing(_), News::Failed) => Waiting::Doomed,
        (Waiting::Missing(count), News::Delivered) => Waiting::Missing(count.saturating_sub(1)),
        (other, _) => other,
    }
}

impl States {
    /// No nodes.
    pub(crate) fn new(alloc: Global) -> Result<States, AllocError>
        ensures { IfOk result (λ s. s ≡ record { waits = []; room = 0 }) }
    {
        let ready = Bits::new(alloc)?;
        Ok(States {
            waits: Vec::new(alloc),
            ready,
            is_used: false,
        })
    }

    /// Makes room for that many more nodes.
    pub(crate) fn reserve(&mut self, more: usize) -> Result<(), AllocError>
        ensures waits { self.new.waits ≡ self.old.waits }
        ensures room { self.old.room ≤ self.new.room }
        ensures ok { OnOk result (more ≤ self.new.room) }
    {
        let places = match self.waits.len().checked_add(more) {
            None => return Err(AllocError),
            Some(places) => places,
        };
        if places <= self.ready.len() {
            return Ok(());
        }
        self.waits.reserve(more)?;
        self.ready.reserve(places)?;
        Ok(())
    }

    /// One more node, which is not judged.
    pub(crate) fn push(&mut self)
        requires { 0 < self.old.room }
        ensures waits { self.new.waits ≡ self.old.waits ++ Waiting.Unjudged ∷ [] }
        ensures room { self.new.room + 1 ≡ self.old.room }
    {
        let is_ready = mark_last(&mut self.ready, &self.waits);
        self.is_used |= is_ready;
        self.waits.push(Waiting::Unjudged).unwrap();
    }

    /// What a node waits for.
    pub(crate) fn get(&self, number: usize) -> Waiting
        requires { number < length self.now.waits }
        ensures { slice_get self.now.waits number ≡ Some result }
    {
        self.waits[number]
    }

    /// Changes what a node waits for.
    pub(crate) fn set(&mut self, number: usize, waiting: Waiting)
        requires { number < length self.old.waits }
        ensures { self.new ≡ record self.old { waits = slice_set self.old.waits number waiting } }
    {
        self.waits[number] = waiting;
        if self.waits.len() - number > 1 {
            let is_ready = has_step(waiting);
            self.ready.put(number, is_ready);
            self.is_used |= is_ready;
        }
    }

    /// The first node that has a step.
    pub(crate) fn first(&self) -> Option<usize>
        ensures { result ≡ position_from has_step 0 self.now.waits }
    {
        let before = first_in(&self.ready, self.is_used);
        if before.is_some() {
            return before;
        }
        let last = self.waits.len().checked_sub(1)?;
        if has_step(self.waits[last]) {
            Some(last)
        } else {
            None
        }
    }
}
