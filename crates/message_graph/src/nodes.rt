//! Nodes, and what is said of them.
ghost use Rattle.std.specs.Prelude.{◌≡◌, ℕ, List, option_copied};
ghost use Rattle.std.specs.Option.{option_map};
ghost use Rattle.message_graph.specs.Nodes.{fails, serves, fate_by, with_name};

use std::marker::Model;

/// The names of the messages that a message depends on. Contracts see the list.
#[derive(Drop)]
pub struct Names {
    names: Vec<[u8; 32]>,
}

impl Model for Names {
    ghost use Rattle.std.specs.Prelude.{ℕ, List};

    ghost Value = { List (List ℕ) };

    ghost view = { λ n. n.names.items };
}

impl Names {
    /// The names in that order; takes no memory.
    pub fn new(names: Vec<[u8; 32]>) -> Names
        ensures { result ≡ names.items }
    {
        Names { names }
    }

    /// The names, in their order.
    pub fn as_slice(&self) -> &[[u8; 32]]
        ensures { result.now ≡ self.now }
    {
        self.names.as_slice()
    }
}

/// What its client says of a message: it is refused, or valid once all that it depends on is
/// delivered.
#[derive(Drop)]
pub enum Judged {
    Refused,
    Accepted(Names),
}

/// How a message ended.
#[derive(Clone, Copy, Debug, PartialEq, Eq)]
pub enum Ending {
    Invalid,
    Delivered,
}

/// A held message: its name, its group, its client's answer if it was judged, its ending if that is
/// decided.
#[derive(Drop)]
pub struct Node {
    pub name: [u8; 32],
    pub group: u32,
    pub answer: Option<Judged>,
    pub ending: Option<Ending>,
}

/// All of a node but its name. A graph keeps each name once, in its table of names.
#[derive(Drop)]
pub(crate) struct Unnamed {
    pub(crate) group: u32,
    pub(crate) answer: Option<Judged>,
    pub(crate) ending: Option<Ending>,
}

/// What is to be done next, with the number of the node.
#[derive(Clone, Copy, Debug, PartialEq, Eq)]
pub enum Step {
    Judge(u32),
    Invalid(u32),
    Deliver(u32),
}

/// The state of a held message: not judged, valid and not delivered, invalid, or delivered.
#[derive(Clone, Copy, Debug, PartialEq, Eq)]
pub enum Fate {
    Unknown,
    Pending,
    Invalid,
    Delivered,
}

/// The fate of a message, by its answer and its ending.
pub(crate) fn fate_by(answer: &Option<Judged>, ending: Option<Ending>) -> Fate
    ensures { result ≡ fate_by answer.now ending }
{
    match (answer, ending) {
        (_, Some(Ending::Invalid)) => Fate::Invalid,
        (_, Some(Ending::Delivered)) => Fate::Delivered,
        (None, None) => Fate::Unknown,
        (Some(_), None) => Fate::Pending,
    }
}

/// Whether a dependency can never be delivered to a node of the group: it is held in another group,
/// or invalid.
pub(crate) fn fails(held: Option<&Unnamed>, group: u32) -> bool
    ensures { (name : List ℕ) → result ≡ fails group (option_map (with_name name) (option_copied
        held.entry)) }
{
    match held {
        None => false,
        Some(node) => node.group != group || node.ending == Some(Ending::Invalid),
    }
}

/// Whether a dependency is delivered, in the group.
pub(crate) fn serves(held: Option<&Unnamed>, group: u32) -> bool
    ensures { (name : List ℕ) → result ≡ serves group (option_map (with_name name) (option_copied
        held.entry)) }
{
    match held {
        None => false,
        Some(node) => node.group == group && node.ending == Some(Ending::Delivered),
    }
}
