//! The held messages, by number.
ghost use Rattle.std.specs.Prelude.{◌≡◌, ◌+◌, ◌<◌, ◌≤◌, [], length, IfOk, OnOk, None, Some};
ghost use Rattle.std.specs.Prelude.{slice_get, vec_capacity};
ghost use Rattle.std.specs.Option.{option_map};
ghost use Rattle.message_graph.specs.Nodes.{after_step, fate_of, next_step, node_number, with_answer, EndsNode};
ghost use Rattle.journal_play.specs.Holding.{with_more};

use crate::kept::{Head, Rest};
use message_graph::{Fate, Graph, Judged, Step};
use std::alloc::{AllocError, Global};
use std::hash::RandomState;
use std::marker::Model;
use sync_ids::{Fixed, MessageId};

/// The number of the one group.
const GROUP: u32 = 0;

/// The messages for which room is made at a time.
const STEP: usize = 256;

/// The held messages, by number: a graph of their nodes, which keeps their ids, and the rest of
/// what their lines say. Contracts see what their lines say, and their nodes.
#[derive(Drop)]
pub(crate) struct HeldGraph {
    rest: Vec<Rest>,
    graph: Graph,
    room: usize,
}

impl Model for HeldGraph {
    ghost use Rattle.std.specs.Prelude.{◌≡◌, ◌+◌, ◌<◌, ◌≤◌, ◌^◌, length, vec_capacity};
    ghost use Rattle.journal_play.specs.Holding.{HeldHeads, heads_of};

    ghost Value = { HeldHeads };

    ghost view = { λ h. record {
      heads = heads_of h.rest.items h.graph.nodes;
      nodes = h.graph.nodes;
    } };

    ghost invariant = { λ h. (length h.graph.nodes ≡ length h.rest.items)
        × ((length h.rest.items < 2 ^ 32) × ((h.room ≤ h.graph.spare)
        × (length h.rest.items + h.room ≤ vec_capacity h.rest))) };
}

/// Makes room for more messages where there is none, and answers for how many there is room. It
/// fails only for want of memory.
fn make_room(graph: &mut Graph, rest: &mut Vec<Rest>, room: usize) -> Result<usize, AllocError>
    requires graph { room ≤ graph.old.spare }
    requires rest { length rest.old.items + room ≤ vec_capacity rest.old }
    ensures ok { IfOk result (λ more. (0 < more) × ((more ≤ graph.new.spare)
        × (length rest.new.items + more ≤ vec_capacity rest.new))) }
    ensures nodes { graph.new.nodes ≡ graph.old.nodes }
    ensures items { rest.new.items ≡ rest.old.items }
    ensures spare { graph.old.spare ≤ graph.new.spare }
    ensures capacity { vec_capacity rest.old ≤ vec_capacity rest.new }
{
    if room > 0 {
        return Ok(room);
    }
    graph.reserve(STEP)?;
    rest.reserve(STEP)?;
    Ok(STEP)
}

impl HeldGraph {
    /// No messages; their ids are hashed by `hasher`. It fails only for want of memory.
    pub(crate) fn new(alloc: Global, hasher: RandomState) -> Result<HeldGraph, AllocError>
        ensures { IfOk result (λ h. h ≡ record { heads = []; nodes = [] }) }
    {
        let graph = Graph::new(alloc, hasher)?;
        Ok(HeldGraph {
            rest: Vec::new(alloc),
            graph,
            room: 0,
        })
    }

    /// Holds a message, and answers its number. It fails only for want of memory, also where
    /// 2^32 - 1 messages are held.
    pub(crate) fn hold(&mut self, head: Head) -> Result<u32, AllocError>
        requires { node_number self.old.nodes head.id ≡ None }
        ensures held { OnOk result (self.new ≡ with_more head self.old) }
        ensures number { IfOk result (λ number. number ≡ length self.old.heads) }
    {
        if self.rest.len() >= u32::MAX as usize {
            return Err(AllocError);
        }
        let room = make_room(&mut self.graph, &mut self.rest, self.room)?;
        let number = self.graph.hold(head.id.0, GROUP);
        let rest = Rest::of(&head);
        self.rest.push(rest).unwrap();
        self.room = room - 1;
        Ok(number)
    }

    /// The number of messages.
    pub(crate) fn len(&self) -> u32
        ensures heads { result ≡ length self.now.heads }
        ensures nodes { result ≡ length self.now.nodes }
    {
        self.graph.len()
    }

    /// The number of the message of this id. `None` comes exactly where it is not held.
    pub(crate) fn number(&self, id: &MessageId) -> Option<u32>
        ensures { result ≡ node_number self.now.nodes id.now }
    {
        self.graph.number(&id.0)
    }

    /// What the line of a message says.
    pub(crate) fn head(&self, n: u32) -> Head
        requires { n < length self.now.nodes }
        ensures { slice_get self.now.heads n ≡ Some result }
    {
        let name = self.graph.name(n);
        let rest = &self.rest[n as usize];
        rest.with_id(Fixed(name))
    }

    /// The fate of a message.
    pub(crate) fn fate(&self, n: u32) -> Fate
        requires { n < length self.now.nodes }
        ensures { option_map fate_of (slice_get self.now.nodes n) ≡ Some result }
    {
        self.graph.fate(n)
    }

    /// The next step. `None` comes exactly where no message has a step.
    pub(crate) fn next(&self) -> Option<Step>
        ensures { result ≡ next_step self.now.nodes }
    {
        self.graph.next()
    }

    /// Takes the answer of a message's client, which is the next step.
    pub(crate) fn judged(&mut self, n: u32, answer: Judged) -> Result<(), AllocError>
        requires { next_step self.old.nodes ≡ Some (Step.Judge n) }
        ensures { OnOk result
            (self.new ≡ record self.old { nodes = with_answer n answer self.old.nodes }) }
    {
        self.graph.judged(n, answer)
    }

    /// Makes the next step, which is no judgement; takes no memory.
    pub(crate) fn apply(&mut self, step: Step)
        requires next { next_step self.old.nodes ≡ Some step }
        requires ends { EndsNode step }
        ensures { self.new ≡ record self.old { nodes = after_step step self.old.nodes } }
    {
        self.graph.apply(step);
    }
}
