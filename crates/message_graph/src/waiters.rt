//! Telling those who wait, and noting who waits.
ghost use Rattle.std.specs.Prelude.{◌≡◌, ℕ, List, ◌+◌, ◌<◌, ◌≤◌, ◌++◌, length, map, option_copied};
ghost use Rattle.std.specs.Prelude.{IfOk, OnOk, OnErr, Some};
ghost use Rattle.std.specs.Option.{option_map};
ghost use Rattle.message_graph.specs.Nodes.{node_named, node_number, with_name, with_names};
ghost use Rattle.message_graph.specs.Waits.{missing, from_missing, waiting_open, told_times};
ghost use Rattle.message_graph.specs.Waits.{wait_at, group_in};
ghost use Rattle.message_graph.specs.Links.{holder_of, edge_at, count_before, last_before};
ghost use Rattle.message_graph.specs.Whole.{dependencies};

use crate::index::Index;
use crate::nodes::{Judged, Unnamed, fails, serves};
use crate::states::{News, States, Waiting, told};
use std::alloc::AllocError;

/// Tells each node that waits for a name, whose last edge is this one.
pub(crate) fn tell(
    states: &mut States,
    index: &Index,
    nodes: &[Unnamed],
    last: Option<u32>,
    news: News,
)
    requires many { length states.old.waits ≡ length nodes.now }
    requires last { (name : List ℕ)
        × (last ≡ last_before index.now.edges name (length index.now.edges)) }
    requires waiters { (edge : ℕ) → edge < length index.now.edges
        → (edge_at index.now.edges edge).1 < length nodes.now }
    ensures many { length states.new.waits ≡ length states.old.waits }
    ensures room { states.new.room ≡ states.old.room }
    ensures waits { (name : List ℕ)
        → last ≡ last_before index.now.edges name (length index.now.edges) → (number : ℕ)
        → wait_at states.new.waits number ≡ told_times news (group_in nodes.now number)
        (count_before index.now.edges name number (length index.now.edges))
        (wait_at states.old.waits number) }
{
    let mut cursor = last;
    while let Some(edge) = cursor {
        let waiter = index.waiter(edge) as usize;
        let waiting = told(news, nodes[waiter].group, states.get(waiter));
        states.set(waiter, waiting);
        cursor = index.before(edge);
    }
}

/// The node that holds the name.
fn held<'a>(nodes: &'a [Unnamed], index: &Index, name: &[u8; 32]) -> Option<&'a Unnamed>
    requires { (other : List ℕ) → holder_of index.now other ≡ node_number (with_names
        index.now.numbers.names nodes.now) other }
    ensures { option_map (with_name name.now) (option_copied result) ≡ node_named (with_names
        index.now.numbers.names nodes.now) name.now }
{
    let number = index.holder(name)?;
    Some(&nodes[number as usize])
}

/// What an accepted node of the group waits for.
pub(crate) fn missing(nodes: &[Unnamed], index: &Index, group: u32, names: &[[u8; 32]]) -> Waiting
    requires { (other : List ℕ) → holder_of index.now other ≡ node_number (with_names
        index.now.numbers.names nodes.now) other }
    ensures { result ≡ from_missing (missing (node_named (with_names index.now.numbers.names
        nodes.now)) group names.now) }
{
    let mut count = 0;
    for name in names {
        let held = held(nodes, index, name);
        if fails(held, group) {
            return Waiting::Doomed;
        }
        if !serves(held, group) {
            count += 1;
        }
    }
    Waiting::Missing(count)
}

/// Notes that a node waits for each of the names.
pub(crate) fn enlist(index: &mut Index, names: &[[u8; 32]], waiter: u32)
    requires room { length names.now ≤ index.old.room }
    requires edge_room { length names.now ≤ index.old.edge_room }
    ensures holders { (other : List ℕ) → holder_of index.new other ≡ holder_of index.old other }
    ensures numbers { index.new.numbers ≡ index.old.numbers }
    ensures edges { index.new.edges ≡ index.old.edges ++ map (λ name. (name, waiter)) names.now }
    ensures room { index.old.room ≤ index.new.room + length names.now }
{
    for name in names {
        index.wait(*name, waiter);
    }
}

/// What an accepted node of the group waits for, noted with each of the names; `spare` more nodes
/// can still be held after it.
fn accepted(
    index: &mut Index,
    nodes: &[Unnamed],
    spare: usize,
    n: u32,
    group: u32,
    names: &[[u8; 32]],
) -> Result<Waiting, AllocError>
    requires holders { (other : List ℕ) → holder_of index.old other ≡ node_number (with_names
        index.old.numbers.names nodes.now) other }
    requires room { spare ≤ index.old.room }
    ensures waiting { IfOk result
        (λ waiting. waiting ≡ from_missing (missing (node_named (with_names index.old.numbers.names
        nodes.now)) group names.now)) }
    ensures edges { OnOk result (index.new.edges ≡ index.old.edges ++ map (λ name. (name, n))
        names.now) }
    ensures err { OnErr result (index.new.edges ≡ index.old.edges) }
    ensures holders { (other : List ℕ) → holder_of index.new other ≡ holder_of index.old other }
    ensures numbers { index.new.numbers ≡ index.old.numbers }
    ensures room { spare ≤ index.new.room }
{
    // Most messages depend on none, and take no room of those who wait.
    if names.is_empty() {
        return Ok(Waiting::Missing(0));
    }
    let room = match spare.checked_add(names.len()) {
        None => return Err(AllocError),
        Some(room) => room,
    };
    index.reserve(room, names.len())?;
    let waiting = missing(nodes, index, group, names);
    enlist(index, names, n);
    Ok(waiting)
}

/// What a node of the group waits for after its answer, noted with each name that it depends on.
pub(crate) fn answered(
    index: &mut Index,
    nodes: &[Unnamed],
    spare: usize,
    n: u32,
    group: u32,
    answer: &Judged,
) -> Result<Waiting, AllocError>
    requires holders { (other : List ℕ) → holder_of index.old other ≡ node_number (with_names
        index.old.numbers.names nodes.now) other }
    requires room { spare ≤ index.old.room }
    ensures waiting { IfOk result (λ waiting. waiting ≡ waiting_open (node_named (with_names
        index.old.numbers.names nodes.now)) group answer.now) }
    ensures edges { OnOk result (index.new.edges ≡ index.old.edges ++ map (λ name. (name, n))
        (dependencies (Some answer.now))) }
    ensures err { OnErr result (index.new.edges ≡ index.old.edges) }
    ensures holders { (other : List ℕ) → holder_of index.new other ≡ holder_of index.old other }
    ensures numbers { index.new.numbers ≡ index.old.numbers }
    ensures room { spare ≤ index.new.room }
{
    match answer {
        Judged::Refused => Ok(Waiting::Doomed),
        Judged::Accepted(names) => accepted(index, nodes, spare, n, group, names.as_slice()),
    }
}
