// The command `status`.
ghost use Rattle.sync_rules.specs.Clients.{Meaning};
ghost use Rattle.sync_store.specs.Store.{written_in};
ghost use Rattle.sync_words.specs.Outcomes.{came_to};
ghost use Rattle.store_commands.specs.Serving.{WasLoaded};
ghost use Rattle.store_commands.specs.Show.{PrintsText};
ghost use Rattle.status_commands.specs.Statuses.{HasToldStatus};
ghost use Rattle.status_commands.specs.Texts.{status_text};

use crate::lines::add_status;
use outside::{Disk, Sink};
use std::alloc::Global;
use std::hash::RandomState;
use store_commands::{load_store, print_bytes};
use sync_rules::Clients;
use sync_store::Store;
use sync_words::Outcome;

/// Prints how many messages a store holds and has delivered and how many sessions it began, where
/// its journal ends, in bytes, and how many a batch may still take behind it, and the version of the
/// program. The journal is told of as it stands: it is neither migrated nor settled.
pub fn print_status<D: Disk, W: Sink, C: Clients>(
    alloc: Global,
    hasher: RandomState,
    disk: &mut D,
    out: &mut W,
    clients: &C,
) -> Result<(), Outcome>
    ensures { HasToldStatus (C.meaning clients.now) (D.tells disk.old) (D.tells disk.new)
        (W.tells out.old) (W.tells out.new) (came_to result) }
{
    let store = load_store(alloc, hasher, disk, clients)?;
    print_status_loaded(alloc, &store, disk, out)
}

/// The same of a store that was loaded from this disk, of which no call is made.
pub fn print_status_loaded<D: Disk, W: Sink>(
    alloc: Global,
    store: &Store,
    disk: &D,
    out: &mut W,
) -> Result<(), Outcome>
    ensures { (clients : Meaning) (start : D)
        → WasLoaded clients store.now (D.tells start) (D.tells disk.now)
        → HasToldStatus clients (D.tells start) (D.tells disk.now) (W.tells out.old)
        (W.tells out.new) (came_to result) }
{
    let _as_it_is = disk;
    print_lines(alloc, store, out)
}

// Prints all lines.
fn print_lines<W: Sink>(alloc: Global, store: &Store, out: &mut W) -> Result<(), Outcome>
    ensures { PrintsText (status_text (written_in store.now) store.now.end store.now.state.facts)
        (W.tells out.old) (W.tells out.new) (came_to result) }
{
    let mut text = String::new(alloc);
    add_status(store, &mut text)?;
    print_bytes(text.as_bytes(), out)
}
