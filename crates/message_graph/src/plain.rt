//! The same answers by a scan over a list of nodes: the yardstick of the tests.
ghost use Rattle.std.specs.Prelude.{◌≡◌, ◌^◌, ◌<◌, ◌≤◌, length, option_copied};
ghost use Rattle.std.specs.List.{list_any, list_all};
ghost use Rattle.message_graph.specs.Nodes.{same_name, node_named, fails, serves, step_accepted};
ghost use Rattle.message_graph.specs.Nodes.{step_of, next_step, fate_of};

use crate::nodes::{Ending, Fate, Judged, Node, Step, fate_by};

/// The node of that name.
fn node_named<'a>(nodes: &'a [Node], name: &[u8; 32]) -> Option<&'a Node>
    ensures { option_copied result ≡ node_named nodes.now name.now }
{
    for node in nodes {
        if *name == node.name {
            return Some(node);
        }
    }
    None
}

/// Whether a dependency can never be delivered to a node of the group.
fn fails(held: Option<&Node>, group: u32) -> bool
    ensures { result ≡ fails group (option_copied held.entry) }
{
    match held {
        None => false,
        Some(node) => node.group != group || node.ending == Some(Ending::Invalid),
    }
}

/// Whether a dependency is delivered, in the group.
fn serves(held: Option<&Node>, group: u32) -> bool
    ensures { result ≡ serves group (option_copied held.entry) }
{
    match held {
        None => false,
        Some(node) => node.group == group && node.ending == Some(Ending::Delivered),
    }
}

/// Whether some dependency can never be delivered.
fn any_fails(nodes: &[Node], group: u32, names: &[[u8; 32]]) -> bool
    ensures { result ≡ list_any (λ name. fails group (node_named nodes.now name)) names.now }
{
    for name in names {
        if fails(node_named(nodes, name), group) {
            return true;
        }
    }
    false
}

/// Whether all dependencies are delivered.
fn all_serve(nodes: &[Node], group: u32, names: &[[u8; 32]]) -> bool
    ensures { result ≡ list_all (λ name. serves group (node_named nodes.now name)) names.now }
{
    for name in names {
        if !serves(node_named(nodes, name), group) {
            return false;
        }
    }
    true
}

/// The step of an accepted node that has no ending.
fn step_accepted(nodes: &[Node], number: u32, group: u32, names: &[[u8; 32]]) -> Option<Step>
    ensures { result ≡ step_accepted (node_named nodes.now) number group names.now }
{
    if any_fails(nodes, group, names) {
        Some(Step::Invalid(number))
    } else if all_serve(nodes, group, names) {
        Some(Step::Deliver(number))
    } else {
        None
    }
}

/// The step that is open to a node.
fn step_of(nodes: &[Node], number: u32, node: &Node) -> Option<Step>
    ensures { result ≡ step_of nodes.now number node.now }
{
    match &node.answer {
        None => Some(Step::Judge(number)),
        Some(answer) => {
            if node.ending.is_some() {
                return None;
            }
            match answer {
                Judged::Refused => Some(Step::Invalid(number)),
                Judged::Accepted(names) => {
                    step_accepted(nodes, number, node.group, names.as_slice())
                }
            }
        }
    }
}

/// The next step of a list of nodes, by looking at one after the other.
pub fn next_in(nodes: &[Node]) -> Option<Step>
    requires { length nodes.now < 2 ^ 32 }
    ensures { result ≡ next_step nodes.now }
{
    let mut number = 0;
    for node in nodes {
        let step = step_of(nodes, number, node);
        if step.is_some() {
            return step;
        }
        number += 1;
    }
    None
}

/// The fate of a node.
pub fn fate_in(node: &Node) -> Fate
    ensures { result ≡ fate_of node.now }
{
    fate_by(&node.answer, node.ending)
}
