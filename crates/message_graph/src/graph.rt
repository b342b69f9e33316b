//! `Graph`.
ghost use Rattle.std.specs.Prelude.{◌≡◌, ◌+◌, ◌-◌, ◌^◌, ◌<◌, ◌++◌, ◌∷◌, ◌↔◌, [], max, length};
ghost use Rattle.std.specs.Prelude.{map, IsTrue, IfOk, OnOk, OnErr, None, Some, slice_get};
ghost use Rattle.std.specs.Option.{option_map};
ghost use Rattle.message_graph.specs.Nodes.{node_number, next_step, fresh_node, fate_of, with_answer};
ghost use Rattle.message_graph.specs.Nodes.{with_ending, after_step, EndsNode};
ghost use Rattle.message_graph.specs.Whole.{ending_step, ending_news, first_held};

use crate::index::Index;
use crate::nodes::{Ending, Fate, Judged, Step, Unnamed, fate_by};
use crate::states::{News, States, Waiting};
use crate::waiters::{answered, tell};
use std::alloc::{AllocError, Global};
use std::hash::RandomState;
use std::marker::Model;

/// Held messages by number, and the next step among them, found in time logarithmic in their count.
/// Contracts see the list of the nodes, and for how many more there is room. The table of names alone
/// has a node's name.
#[derive(Drop)]
pub struct Graph {
    nodes: Vec<Unnamed>,
    index: Index,
    states: States,
    spare: usize,
}

impl Model for Graph {
    ghost use Rattle.std.specs.Prelude.{◌≡◌, ◌+◌, ◌≤◌, length, vec_capacity};
    ghost use Rattle.message_graph.specs.Nodes.{Shown, with_names};

    ghost Value = { Shown };

    ghost use Rattle.message_graph.specs.Whole.{IsGraph};

    ghost view = { λ g. record {
      nodes = with_names g.index.numbers.names g.nodes.items;
      spare = g.spare;
    } };

    ghost invariant = { λ g. IsGraph (with_names g.index.numbers.names g.nodes.items) g.index
        g.states g.spare × (length g.nodes.items + g.spare ≤ vec_capacity g.nodes)
        × (length g.index.numbers.names ≡ length g.nodes.items) };
}

impl Graph {
    /// A graph with no nodes and no room, whose names are hashed by `hasher`. Answers an error
    /// where there is no memory.
    pub fn new(alloc: Global, hasher: RandomState) -> Result<Graph, AllocError>
        ensures { IfOk result (λ g. g ≡ record { nodes = []; spare = 0 }) }
    {
        let states = States::new(alloc)?;
        Ok(Graph {
            nodes: Vec::new(alloc),
            index: Index::new(alloc, hasher),
            states,
            spare: 0,
        })
    }

    /// Makes room for that many more nodes; it never takes room away. After an error all is as
    /// before.
    pub fn reserve(&mut self, nodes: usize) -> Result<(), AllocError>
        ensures ok { OnOk result (self.new ≡ record self.old { spare = max self.old.spare nodes }) }
        ensures err { OnErr result (self.new ≡ self.old) }
    {
        self.nodes.reserve(nodes)?;
        self.index.reserve_nodes(nodes)?;
        self.states.reserve(nodes)?;
        self.spare = self.spare.max(nodes);
        Ok(())
    }

    /// Makes a name known that may be held next, so that it is hashed once: to look it up and to hold
    /// it is a comparison then. Nothing that is seen changes. It fails only for want of memory.
    pub fn announce(&mut self, name: [u8; 32]) -> Result<(), AllocError>
        ensures { self.new ≡ self.old }
    {
        let room = match self.spare.checked_add(1) {
            None => return Err(AllocError),
            Some(room) => room,
        };
        self.index.reserve(room, 0)?;
        self.index.add(name);
        Ok(())
    }

    /// Holds a message of a group under a new name, and answers its number; takes no memory.
    pub fn hold(&mut self, name: [u8; 32], group: u32) -> u32
        requires new { node_number self.old.nodes name ≡ None }
        requires room { 0 < self.old.spare }
        requires few { length self.old.nodes < 2 ^ 32 - 1 }
        ensures number { result ≡ length self.old.nodes }
        ensures nodes { self.new ≡ record {
          nodes = self.old.nodes ++ fresh_node name group ∷ [];
          spare =
              self.old.spare - 1;
        } }
    {
        let number = self.nodes.len() as u32;
        let node = Unnamed {
            group,
            answer: None,
            ending: None,
        };
        self.nodes.push(node).unwrap();
        let last = self.index.hold(name, number);
        self.states.push();
        self.spare -= 1;
        tell(
            &mut self.states,
            &self.index,
            &self.nodes,
            last,
            News::Arrived(group),
        );
        number
    }

    /// The number of nodes.
    pub fn len(&self) -> u32
        ensures { result ≡ length self.now.nodes }
    {
        self.nodes.len() as u32
    }

    /// Whether there are no nodes.
    pub fn is_empty(&self) -> bool
        ensures { IsTrue result ↔ (length self.now.nodes ≡ 0) }
    {
        self.nodes.is_empty()
    }

    /// The number of the node that has the name; `None` exactly where the name is new.
    pub fn number(&self, name: &[u8; 32]) -> Option<u32>
        ensures { result ≡ node_number self.now.nodes name.now }
    {
        self.index.holder(name)
    }

    /// The name of a node; the number is below the number of nodes.
    pub fn name(&self, n: u32) -> [u8; 32]
        requires { n < length self.now.nodes }
        ensures { option_map (λ node. node.name) (slice_get self.now.nodes n) ≡ Some result }
    {
        self.index.name(n)
    }

    /// The group of a node; the number is below the number of nodes.
    pub fn group(&self, n: u32) -> u32
        requires { n < length self.now.nodes }
        ensures { option_map (λ node. node.group) (slice_get self.now.nodes n) ≡ Some result }
    {
        self.nodes[n as usize].group
    }

    /// What hashes names.
    pub fn hasher(&self) -> RandomState {
        self.index.hasher()
    }

    /// Takes the answer of a message's client, which is the next step. After an error all is as
    /// before.
    pub fn judged(&mut self, n: u32, answer: Judged) -> Result<(), AllocError>
        requires { next_step self.old.nodes ≡ Some (Step.Judge n) }
        ensures ok { OnOk result
            (self.new ≡ record self.old { nodes = with_answer n answer self.old.nodes }) }
        ensures err { OnErr result (self.new ≡ self.old) }
    {
        let number = n as usize;
        let group = self.nodes[number].group;
        let waiting = answered(&mut self.index, &self.nodes, self.spare, n, group, &answer)?;
        self.states.set(number, waiting);
        let node = &mut self.nodes[number];
        node.answer = Some(answer);
        Ok(())
    }

    /// The next step: that of the least number that has one. `None` exactly where no node has a
    /// step.
    pub fn next(&self) -> Option<Step>
        ensures { result ≡ next_step self.now.nodes }
    {
        let number = self.states.first()?;
        let n = number as u32;
        match self.states.get(number) {
            Waiting::Unjudged => Some(Step::Judge(n)),
            Waiting::Doomed => Some(Step::Invalid(n)),
            Waiting::Missing(_) => Some(Step::Deliver(n)),
            Waiting::Ended => None,
        }
    }

    /// Makes the next step, which is no judgement; takes no memory.
    pub fn apply(&mut self, step: Step)
        requires next { next_step self.old.nodes ≡ Some step }
        requires ends { EndsNode step }
        ensures { self.new ≡ record self.old { nodes = after_step step self.old.nodes } }
    {
        match step {
            Step::Judge(_) => unreachable!(),
            Step::Invalid(n) => self.end(n, Ending::Invalid, News::Failed),
            Step::Deliver(n) => self.end(n, Ending::Delivered, News::Delivered),
        }
    }

    /// The fate of a message.
    pub fn fate(&self, n: u32) -> Fate
        requires { n < length self.now.nodes }
        ensures { option_map fate_of (slice_get self.now.nodes n) ≡ Some result }
    {
        let node = &self.nodes[n as usize];
        fate_by(&node.answer, node.ending)
    }

    /// Of each node the number of the node that holds the first name that it depends on; `None`
    /// where it depends on none, as before it is judged, or where no node holds that name. It fails
    /// only for want of memory.
    pub fn firsts(&self, alloc: Global) -> Result<Vec<Option<u32>>, AllocError>
        ensures { IfOk result (λ firsts. firsts.items ≡ map (first_held self.now.nodes)
            self.now.nodes) }
    {
        self.index.firsts(alloc, self.nodes.len())
    }

    /// Ends a node, and tells those who wait for it.
    fn end(&mut self, n: u32, ending: Ending, news: News)
        requires next { next_step self.old.nodes ≡ Some (ending_step ending n) }
        requires news { news ≡ ending_news ending }
        ensures { self.new ≡ record self.old { nodes = with_ending n ending self.old.nodes } }
    {
        let number = n as usize;
        let node = &mut self.nodes[number];
        node.ending = Some(ending);
        self.states.set(number, Waiting::Ended);
        let last = self.index.last(n);
        tell(&mut self.states, &self.index, &self.nodes, last, news);
    }
}
