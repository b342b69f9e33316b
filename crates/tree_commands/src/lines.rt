// The lines of a part of a walk.
ghost use Rattle.std.specs.Prelude.{◌≡◌, ◌<◌, ◌++◌, length, map, OnOk, slice_index};
ghost use Rattle.std.specs.List.{flat_map};
ghost use Rattle.std.specs.String.{string_bytes};
ghost use Rattle.journal_state.specs.Whole.{id_at};
ghost use Rattle.tree_commands.specs.Threads.{AreItemNumbers};
ghost use Rattle.tree_commands.specs.Trees.{walk_line, tree_text};

use crate::finished::FinishedThread;
use std::alloc::{AllocError, Global};
use sync_ids::MessageId;
use sync_store::Store;

/// A message of a walk: how many stand above it, how many there are below it and itself, and its
/// id. It fails only for want of memory, and then nothing is said of what was appended.
pub fn tree_line(
    alloc: Global,
    depth: u32,
    size: u32,
    id: &MessageId,
    to: &mut String,
) -> Result<(), AllocError>
    ensures { OnOk result (string_bytes to.new ≡ string_bytes to.old ++ tree_text depth size
        id.now) }
{
    let id = id.to_hex(alloc)?;
    writeln!(to, "{depth} {size} {id}")
}

/// The lines of these items.
pub(crate) fn add_lines(
    alloc: Global,
    store: &Store,
    thread: &FinishedThread,
    items: &[u32],
    to: &mut String,
) -> Result<(), AllocError>
    requires sized { thread.now.held ≡ length store.now.state.facts.held }
    requires within { AreItemNumbers thread.now items.now }
    ensures { OnOk result (string_bytes to.new ≡ string_bytes to.old ++ flat_map
        (walk_line (map (id_at store.now.state.facts.held) thread.now.numbers) thread.now.parents)
        items.now) }
{
    'items: for i in 0..items.len() {
        add_line(alloc, store, thread, items[i], to)?;
    }
    Ok(())
}

fn add_line(
    alloc: Global,
    store: &Store,
    thread: &FinishedThread,
    item: u32,
    to: &mut String,
) -> Result<(), AllocError>
    requires sized { thread.now.held ≡ length store.now.state.facts.held }
    requires within { item < length thread.now.numbers }
    ensures { OnOk result (string_bytes to.new ≡ string_bytes to.old ++ walk_line
        (map (id_at store.now.state.facts.held) thread.now.numbers) thread.now.parents item) }
{
    let id = store.id_at(thread.number(item));
    tree_line(alloc, thread.depth(item), thread.size(item), &id, to)
}
