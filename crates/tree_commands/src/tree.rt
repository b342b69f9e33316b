// The command `tree GROUP FROM COUNT`.
ghost use Rattle.std.specs.Prelude.{◌≡◌, ◌++◌, OnOk};
ghost use Rattle.std.specs.String.{string_bytes};
ghost use Rattle.sync_rules.specs.Clients.{Meaning};
ghost use Rattle.sync_words.specs.Outcomes.{came_to};
ghost use Rattle.journal_state.specs.Whole.{KnowsJudgements};
ghost use Rattle.store_commands.specs.Looking.{HasLooked};
ghost use Rattle.store_commands.specs.Serving.{WasLoaded};
ghost use Rattle.store_commands.specs.Show.{PrintsShowing, PrintsText};
ghost use Rattle.tree_commands.specs.Trees.{delivered_in, parents_of, tree_shown, walk_text};

use crate::gather::gather;
use crate::lines::add_lines;
use outside::{Disk, Sink, write_text};
use reply_tree::{walk_is_sorted, walks_are_one};
use std::alloc::{AllocError, Global};
use std::hash::RandomState;
use store_commands::load_store;
use sync_ids::GroupId;
use sync_rules::{Clients, Refused};
use sync_store::Store;
use sync_words::Outcome;

/// A part of the walk of a group's replies: so many messages from a place on.
#[derive(Clone, Copy, Debug, PartialEq, Eq)]
pub struct Window {
    /// The group.
    pub group: GroupId,
    /// The place of the first message, from 0.
    pub from: u32,
    /// How many messages, if there are as many.
    pub count: u32,
}

/// Prints a part of the walk of the delivered messages of a group, a line each: its depth, its size
/// and its id. It writes nothing to the files.
pub fn print_tree<D: Disk, W: Sink, C: Clients>(
    alloc: Global,
    hasher: RandomState,
    window: &Window,
    disk: &mut D,
    out: &mut W,
    clients: &C,
) -> Result<(), Outcome>
    ensures { HasLooked (C.meaning clients.now) (tree_shown (C.meaning clients.now) window.now)
        (D.tells disk.old) (D.tells disk.new) (W.tells out.old) (W.tells out.new)
        (came_to result) }
{
    let store = load_store(alloc, hasher, disk, clients)?;
    print_tree_loaded(alloc, &store, window, disk, out)
}

/// The same of a store that was loaded from this disk, of which no call is made.
pub fn print_tree_loaded<D: Disk, W: Sink>(
    alloc: Global,
    store: &Store,
    window: &Window,
    disk: &D,
    out: &mut W,
) -> Result<(), Outcome>
    requires { (clients : Meaning) × KnowsJudgements clients store.now.state }
    ensures { (clients : Meaning) (start : D)
        → WasLoaded clients store.now (D.tells start) (D.tells disk.now)
        → HasLooked clients (tree_shown clients window.now) (D.tells start) (D.tells disk.now)
        (W.tells out.old) (W.tells out.new) (came_to result) }
{
    let _as_it_is = disk;
    print_window(alloc, store, window, out)
}

// Prints a part of the walk, by the judgements that the store keeps.
fn print_window<W: Sink>(
    alloc: Global,
    store: &Store,
    window: &Window,
    out: &mut W,
) -> Result<(), Outcome>
    requires { (clients : Meaning) × KnowsJudgements clients store.now.state }
    ensures { (clients : Meaning) → KnowsJudgements clients store.now.state
        → PrintsShowing (tree_shown clients window.now store.now.state.facts)
        (W.tells out.old) (W.tells out.new) (came_to result) }
{
    if !store.state().knows_group(&window.group) {
        return Err(Outcome::Refused(Refused::UnknownGroup));
    }
    let mut text = String::new(alloc);
    add_window(alloc, store, window, &mut text)?;
    print_text(text.as_str(), out)
}

// The lines of a part of the walk.
fn add_window(
    alloc: Global,
    store: &Store,
    window: &Window,
    to: &mut String,
) -> Result<(), AllocError>
    requires { (clients : Meaning) × KnowsJudgements clients store.now.state }
    ensures { (clients : Meaning) → KnowsJudgements clients store.now.state
        → OnOk result (string_bytes to.new ≡ string_bytes to.old ++ walk_text
        (delivered_in store.now.state.facts window.now.group)
        (parents_of clients store.now.state.facts
        (delivered_in store.now.state.facts window.now.group)) window.now.from window.now.count) }
{
    walks_are_one();
    walk_is_sorted();
    let thread = gather(alloc, store, &window.group)?;
    let items = thread.walk(window.from, window.count)?;
    add_lines(alloc, store, &thread, items.as_slice(), to)
}

// Prints a text.
fn print_text<W: Sink>(text: &str, out: &mut W) -> Result<(), Outcome>
    ensures { PrintsText text.now (W.tells out.old) (W.tells out.new) (came_to result) }
{
    match write_text(out, text) {
        Ok(()) => Ok(()),
        Err(_) => Err(Outcome::WriteFault),
    }
}
