//! `CountedGraph`.
ghost use Rattle.std.specs.Prelude.{◌≡◌, ◌+◌, ◌-◌, ◌^◌, ◌<◌, ◌++◌, ◌∷◌, [], max, length, IfOk};
ghost use Rattle.std.specs.Prelude.{OnOk, OnErr, None, Some, slice_get};
ghost use Rattle.std.specs.Option.{option_map};
ghost use Rattle.message_graph.specs.Nodes.{after_step, fate_of, fresh_node, next_step, node_number};
ghost use Rattle.message_graph.specs.Nodes.{with_answer, EndsNode};
ghost use Rattle.journal_state.specs.Left.{left_in};

use message_graph::{Fate, Graph, Judged, Step};
use std::alloc::{AllocError, Global};
use std::hash::RandomState;
use std::marker::Model;

/// The waiting graph of the held messages, with the number of entries that settling may yet add, so
/// that the room for them is told without a walk. Contracts see the nodes, and for how many more
/// there is room.
#[derive(Drop)]
pub(crate) struct CountedGraph {
    graph: Graph,
    left: u64,
}

impl Model for CountedGraph {
    ghost use Rattle.message_graph.specs.Nodes.{Shown};

    ghost Value = { Shown };

    ghost use Rattle.std.specs.Prelude.{◌≡◌, ◌<◌, ◌^◌};
    ghost use Rattle.journal_state.specs.Left.{left_in};

    ghost view = { λ g. g.graph };

    ghost invariant = { λ g. (g.left ≡ left_in g.graph.nodes) × (g.left < 2 ^ 33) };
}

impl CountedGraph {
    /// A graph with no nodes and no room, whose names are hashed by `hasher`. Answers an error
    /// where there is no memory.
    pub(crate) fn new(alloc: Global, hasher: RandomState) -> Result<CountedGraph, AllocError>
        ensures { IfOk result (λ g. g ≡ record { nodes = []; spare = 0 }) }
    {
        let graph = Graph::new(alloc, hasher)?;
        Ok(CountedGraph { graph, left: 0 })
    }

    /// Makes room for that many more nodes; it never takes room away. After an error all is as
    /// before.
    pub(crate) fn reserve(&mut self, nodes: usize) -> Result<(), AllocError>
        ensures ok { OnOk result (self.new ≡ record self.old { spare = max self.old.spare nodes }) }
        ensures err { OnErr result (self.new ≡ self.old) }
    {
        self.graph.reserve(nodes)
    }

    /// Makes a name known that may be held next, so that it is hashed once. Nothing that is seen
    /// changes. It fails only for want of memory.
    pub(crate) fn announce(&mut self, name: [u8; 32]) -> Result<(), AllocError>
        ensures { self.new ≡ self.old }
    {
        self.graph.announce(name)
    }

    /// Holds a message of a group under a new name, and answers its number; takes no memory.
    pub(crate) fn hold(&mut self, name: [u8; 32], group: u32) -> u32
        requires new { node_number self.old.nodes name ≡ None }
        requires room { 0 < self.old.spare }
        requires few { length self.old.nodes < 2 ^ 32 - 1 }
        ensures number { result ≡ length self.old.nodes }
        ensures nodes { self.new ≡ record {
          nodes = self.old.nodes ++ fresh_node name group ∷ [];
          spare =
              self.old.spare - 1;
        } }
    {
        let number = self.graph.hold(name, group);
        self.left += 2;
        number
    }

    /// The number of the node that has the name; `None` exactly where the name is new.
    pub(crate) fn number(&self, name: &[u8; 32]) -> Option<u32>
        ensures { result ≡ node_number self.now.nodes name.now }
    {
        self.graph.number(name)
    }

    /// The name of a node.
    pub(crate) fn name(&self, n: u32) -> [u8; 32]
        requires { n < length self.now.nodes }
        ensures { option_map (λ node. node.name) (slice_get self.now.nodes n) ≡ Some result }
    {
        self.graph.name(n)
    }

    /// The group of a node.
    pub(crate) fn group(&self, n: u32) -> u32
        requires { n < length self.now.nodes }
        ensures { option_map (λ node. node.group) (slice_get self.now.nodes n) ≡ Some result }
    {
        self.graph.group(n)
    }

    /// What hashes names.
    pub(crate) fn hasher(&self) -> RandomState {
        self.graph.hasher()
    }

    /// Takes the answer of a message's client, which is the next step. After an error all is as
    /// before.
    pub(crate) fn judged(&mut self, n: u32, answer: Judged) -> Result<(), AllocError>
        requires { next_step self.old.nodes ≡ Some (Step.Judge n) }
        ensures ok { OnOk result
            (self.new ≡ record self.old { nodes = with_answer n answer self.old.nodes }) }
        ensures err { OnErr result (self.new ≡ self.old) }
    {
        self.graph.judged(n, answer)?;
        self.left -= 1;
        Ok(())
    }

    /// The next step: that of the least number that has one. `None` exactly where no node has a
    /// step.
    pub(crate) fn next(&self) -> Option<Step>
        ensures { result ≡ next_step self.now.nodes }
    {
        self.graph.next()
    }

    /// Makes the next step, which is no judgement; takes no memory.
    pub(crate) fn apply(&mut self, step: Step)
        requires next { next_step self.old.nodes ≡ Some step }
        requires ends { EndsNode step }
        ensures { self.new ≡ record self.old { nodes = after_step step self.old.nodes } }
    {
        self.graph.apply(step);
        self.left -= 1;
    }

    /// The fate of a message.
    pub(crate) fn fate(&self, n: u32) -> Fate
        requires { n < length self.now.nodes }
        ensures { option_map fate_of (slice_get self.now.nodes n) ≡ Some result }
    {
        self.graph.fate(n)
    }

    /// The number of entries that settling may yet add.
    pub(crate) fn left(&self) -> u64
        ensures count { result ≡ left_in self.now.nodes }
        ensures few { result < 2 ^ 33 }
    {
        self.left
    }

    /// The graph.
    pub(crate) fn graph(&self) -> &Graph
        ensures { result.now ≡ self.now }
    {
        &self.graph
    }
}
