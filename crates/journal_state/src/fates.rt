//! What became of the held messages.
ghost use Rattle.std.specs.Prelude.{◌≡◌, ◌<◌, ◌^◌, length, IfOk, Some, slice_get};
ghost use Rattle.std.specs.Option.{option_map};
ghost use Rattle.sync_rules.specs.Facts.{Id};
ghost use Rattle.sync_rules.specs.Steps.{fate_held};
ghost use Rattle.sync_rules.specs.Views.{IsPlace};
ghost use Rattle.journal_state.specs.Fates.{fate_as};
ghost use Rattle.journal_state.specs.Firsts.{firsts_of};
ghost use Rattle.journal_state.specs.Lent.{StandsForNodes};
ghost use Rattle.sync_rules.specs.Left.{left_of};

use crate::state::State;
use message_graph::{Fate as NodeFate, Graph};
use std::alloc::{AllocError, Global};
use sync_rules::Fate;

/// A message's state as the graph says it.
fn fate_as(fate: NodeFate) -> Fate
    ensures { result ≡ fate_as fate }
{
    match fate {
        NodeFate::Unknown => Fate::Unknown,
        NodeFate::Pending => Fate::Pending,
        NodeFate::Invalid => Fate::Invalid,
        NodeFate::Delivered => Fate::Delivered,
    }
}

impl State {
    /// The steps that settling may yet make: two for each held message that is not judged, one for
    /// each that is judged and neither delivered nor invalid.
    pub fn left(&self) -> u64
        ensures count { result ≡ left_of self.now.facts }
        ensures few { result < 2 ^ 33 }
    {
        self.graph.left()
    }

    /// The state of the held message of this arrival number, which is below the number of held
    /// messages.
    pub fn fate(&self, n: u32) -> Fate
        requires { n < length self.now.facts.held }
        ensures { option_map (λ h. fate_held self.now.facts h.id) (slice_get self.now.facts.held n)
            ≡ Some result }
    {
        fate_as(self.graph.fate(n))
    }

    /// The number of delivered messages.
    pub fn delivered(&self) -> u32
        ensures { result ≡ length self.now.facts.delivered }
    {
        self.show_sound();
        self.delivered.len() as u32
    }

    /// The arrival number of the k-th delivered message, from 0, in the order of delivery.
    pub fn delivered_at(&self, k: u32) -> u32
        requires { k < length self.now.facts.delivered }
        ensures within { result < length self.now.facts.held }
        ensures place { (id : Id) → slice_get self.now.facts.delivered k ≡ Some id
            → IsPlace self.now.facts.held id result }
    {
        self.delivered[k as usize]
    }

    /// Of each held message, in order of arrival, the arrival number of the first dependency of its
    /// judgement; `None` where it is not judged, or refused, or depends on none, or where none of
    /// that id is held. It fails only for want of memory.
    pub fn firsts(&self, alloc: Global) -> Result<Vec<Option<u32>>, AllocError>
        ensures value { IfOk result (λ firsts. firsts.items ≡ firsts_of self.now) }
        ensures many { IfOk result (λ firsts. length firsts.items ≡ length self.now.facts.held) }
    {
        self.graph.graph().firsts(alloc)
    }

    /// The waiting graph.
    pub fn graph(&self) -> &Graph
        ensures { StandsForNodes self.now result.now.nodes }
    {
        self.graph.graph()
    }
}
