// The commands that only look: `show`, `inbox` and `body ID`.
ghost use Rattle.sync_rules.specs.Clients.{Meaning};
ghost use Rattle.sync_words.specs.Outcomes.{came_to};
ghost use Rattle.store_commands.specs.Looking.{HasLooked};
ghost use Rattle.store_commands.specs.Serving.{WasLoaded};
ghost use Rattle.store_commands.specs.Show.{PrintsShowing, PrintsText};
ghost use Rattle.store_commands.specs.Shown.{body_shown, listing_shown, listing_text};

use crate::listing::{Listing, add_listing};
use crate::load::load_store;
use crate::print::print_bytes;
use outside::{Disk, Sink};
use std::alloc::Global;
use std::hash::RandomState;
use sync_ids::MessageId;
use sync_rules::{Clients, Refused, View};
use sync_store::Store;
use sync_words::Outcome;

/// Prints a listing of a store.
pub fn list<D: Disk, W: Sink, C: Clients>(
    alloc: Global,
    hasher: RandomState,
    listing: Listing,
    disk: &mut D,
    out: &mut W,
    clients: &C,
) -> Result<(), Outcome>
    ensures { HasLooked (C.meaning clients.now) (listing_shown listing) (D.tells disk.old)
        (D.tells disk.new) (W.tells out.old) (W.tells out.new) (came_to result) }
{
    let store = load_store(alloc, hasher, disk, clients)?;
    list_loaded(alloc, &store, listing, disk, out)
}

/// The same of a store that was loaded from this disk, of which no call is made.
pub fn list_loaded<D: Disk, W: Sink>(
    alloc: Global,
    store: &Store,
    listing: Listing,
    disk: &D,
    out: &mut W,
) -> Result<(), Outcome>
    ensures { (clients : Meaning) (start : D)
        → WasLoaded clients store.now (D.tells start) (D.tells disk.now)
        → HasLooked clients (listing_shown listing) (D.tells start) (D.tells disk.now)
        (W.tells out.old) (W.tells out.new) (came_to result) }
{
    let _as_it_is = disk;
    print_listing(alloc, store, listing, out)
}

fn print_listing<W: Sink>(
    alloc: Global,
    store: &Store,
    listing: Listing,
    out: &mut W,
) -> Result<(), Outcome>
    ensures { PrintsText (listing_text listing store.now.state.facts) (W.tells out.old)
        (W.tells out.new) (came_to result) }
{
    let mut text = String::new(alloc);
    add_listing(alloc, store, listing, &mut text)?;
    print_bytes(text.as_bytes(), out)
}

/// Writes the body of a held message as it is.
pub fn write_body<D: Disk, W: Sink, C: Clients>(
    alloc: Global,
    hasher: RandomState,
    id: &MessageId,
    disk: &mut D,
    out: &mut W,
    clients: &C,
) -> Result<(), Outcome>
    ensures { HasLooked (C.meaning clients.now) (body_shown id.now) (D.tells disk.old)
        (D.tells disk.new) (W.tells out.old) (W.tells out.new) (came_to result) }
{
    let store = load_store(alloc, hasher, disk, clients)?;
    write_body_loaded(&store, id, disk, out)
}

/// The same of a store that was loaded from this disk, of which no call is made.
pub fn write_body_loaded<D: Disk, W: Sink>(
    store: &Store,
    id: &MessageId,
    disk: &D,
    out: &mut W,
) -> Result<(), Outcome>
    ensures { (clients : Meaning) (start : D)
        → WasLoaded clients store.now (D.tells start) (D.tells disk.now)
        → HasLooked clients (body_shown id.now) (D.tells start) (D.tells disk.now)
        (W.tells out.old) (W.tells out.new) (came_to result) }
{
    let _as_it_is = disk;
    print_body(store, id, out)
}

fn print_body<W: Sink>(store: &Store, id: &MessageId, out: &mut W) -> Result<(), Outcome>
    ensures { PrintsShowing (body_shown id.now store.now.state.facts) (W.tells out.old) (W.tells out.new)
        (came_to result) }
{
    match store.find(id) {
        Some(n) => print_bytes(store.message(n).body(), out),
        None => Err(Outcome::Refused(Refused::UnknownMessage)),
    }
}
