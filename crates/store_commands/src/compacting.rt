// The command `compact`.
ghost use Rattle.std.specs.Prelude.{◌≡◌};
ghost use Rattle.outside.specs.Outside.{DiskRun};
ghost use Rattle.entry_codec.specs.declared.naming.Format.TheVariants as kind;
ghost use Rattle.sync_rules.specs.Steps.{IsSettled};
ghost use Rattle.sync_store.specs.Ready.{IsReady};
ghost use Rattle.sync_store.specs.Store.{written_in};
ghost use Rattle.sync_words.specs.EntryTexts.{compacted_text};
ghost use Rattle.sync_words.specs.Outcomes.{came_to};
ghost use Rattle.store_commands.specs.Commit.{ExtendsBy, StoreStaysReady};
ghost use Rattle.store_commands.specs.Compact.{CompactsAs, HasCompacted, MakesBrief};
ghost use Rattle.store_commands.specs.Load.{MayExtend};
ghost use Rattle.store_commands.specs.Serving.{IsServed, ServesOn, StaysSettled, WasLoaded};
ghost use Rattle.store_commands.specs.Show.{PrintsText};

use crate::commit::migrate_and_settle;
use crate::load::load_store;
use crate::print::print_bytes;
use brief_account::by_facts;
use outside::{Disk, Sink};
use std::alloc::Global;
use std::hash::RandomState;
use sync_rules::Clients;
use sync_store::{Store, StoreFault};
use sync_words::{Outcome, compacted_line};

/// Migrates the journal and settles it, writes it anew as its brief account, and prints the places,
/// in bytes, where it ended before and where it ends then. After `Memory` and `DiskFault` the
/// journal may be the brief account too.
pub fn compact<D: Disk, W: Sink, C: Clients>(
    alloc: Global,
    hasher: RandomState,
    disk: &mut D,
    out: &mut W,
    clients: &C,
) -> Result<(), Outcome>
    ensures { HasCompacted (C.meaning clients.now) (D.tells disk.old) (D.tells disk.new)
        (W.tells out.old) (W.tells out.new) (came_to result) }
{
    let mut store = load_store(alloc, hasher, disk, clients)?;
    compact_loaded(alloc, &mut store, disk, out, clients)
}

/// The same of a store that was loaded. After each outcome but `DiskFault` it may be used again;
/// after `Memory` it is to be settled first.
pub fn compact_loaded<D: Disk, W: Sink, C: Clients>(
    alloc: Global,
    store: &mut Store,
    disk: &mut D,
    out: &mut W,
    clients: &C,
) -> Result<(), Outcome>
    requires { MayExtend (C.meaning clients.now) store.old (D.tells disk.old).files }
    ensures compacted { (start : D)
        → WasLoaded (C.meaning clients.now) store.old (D.tells start) (D.tells disk.old)
        → HasCompacted (C.meaning clients.now) (D.tells start) (D.tells disk.new) (W.tells out.old)
        (W.tells out.new) (came_to result) }
    ensures serves { IsServed (C.meaning clients.now) store.old (D.tells disk.old)
        → ServesOn (C.meaning clients.now) store.new (D.tells disk.new) (came_to result) }
{
    shorten(alloc, store, disk, out, clients)
}

// Migrates the journal and settles it, and writes it anew.
fn shorten<D: Disk, W: Sink, C: Clients>(
    alloc: Global,
    store: &mut Store,
    disk: &mut D,
    out: &mut W,
    clients: &C,
) -> Result<(), Outcome>
    requires { MayExtend (C.meaning clients.now) store.old (D.tells disk.old).files }
    ensures made { MakesBrief (C.meaning clients.now) store.old (D.tells disk.old)
        (D.tells disk.new) (W.tells out.old) (W.tells out.new) (came_to result) }
    ensures serves { IsServed (C.meaning clients.now) store.old (D.tells disk.old)
        → ServesOn (C.meaning clients.now) store.new (D.tells disk.new) (came_to result) }
{
    // The law by which the store's sum is that of the brief account.
    by_facts();
    migrate_and_settle(store, disk, clients)?;
    let old = store.end();
    make_brief(store, disk, clients)?;
    print_ends(alloc, old, store.end(), out)
}

// Writes a settled journal in format 2 anew as its brief account. A store that is ready is not
// closed.
fn make_brief<D: Disk, C: Clients>(
    store: &mut Store,
    disk: &mut D,
    clients: &C,
) -> Result<(), Outcome>
    requires ready { IsReady (C.meaning clients.now) store.old (D.tells disk.old).files }
    requires settled { IsSettled (C.meaning clients.now) store.old.state.facts }
    requires short { written_in store.old ≡ kind.Short }
    ensures run { DiskRun (D.tells disk.old) (D.tells disk.new) }
    ensures by { ExtendsBy (D.tells disk.old) (D.tells disk.new) result }
    ensures compacted { CompactsAs (C.meaning clients.now) store.old store.new (D.tells disk.old)
        (D.tells disk.new) result }
    ensures stays { StoreStaysReady (C.meaning clients.now) store.new (D.tells disk.new).files
        result }
    ensures settled { StaysSettled (C.meaning clients.now) store.new result }
    ensures limit { store.new.limit ≡ store.old.limit }
    ensures short { written_in store.new ≡ kind.Short }
{
    match store.compact(disk, clients) {
        Ok(()) => Ok(()),
        Err(StoreFault::Full) => Err(Outcome::Full),
        Err(StoreFault::Memory) => Err(Outcome::Memory),
        Err(StoreFault::DiskFault) => Err(Outcome::DiskFault),
        Err(StoreFault::Closed) => unreachable!(),
    }
}

// Prints the line of a journal that was written anew.
fn print_ends<W: Sink>(alloc: Global, old: u64, new: u64, out: &mut W) -> Result<(), Outcome>
    ensures { PrintsText (compacted_text old new) (W.tells out.old) (W.tells out.new)
        (came_to result) }
{
    let mut line = String::new(alloc);
    compacted_line(old, new, &mut line)?;
    print_bytes(line.as_bytes(), out)
}
