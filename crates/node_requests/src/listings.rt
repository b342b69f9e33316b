// Listings of a store that is served.
ghost use Rattle.sync_rules.specs.Clients.{Meaning};
ghost use Rattle.sync_words.specs.Outcomes.{came_to};
ghost use Rattle.store_commands.specs.Looking.{HasLooked};
ghost use Rattle.store_commands.specs.Serving.{WasLoaded};
ghost use Rattle.store_commands.specs.Show.{PrintsText};
ghost use Rattle.store_commands.specs.Shown.{listing_shown, listing_text};
ghost use Rattle.node_service.specs.Outputs.{output_told};

use node_service::Output;
use outside::Disk;
use std::alloc::Global;
use store_commands::{Listing, add_listing};
use sync_store::Store;
use sync_words::Outcome;

/// Prints a listing of a store that was loaded from this disk, of which no call is made. Its text is
/// made once, and the output takes it over.
pub(crate) fn put_listing<D: Disk>(
    alloc: Global,
    store: &Store,
    listing: Listing,
    disk: &D,
    out: &mut Output,
) -> Result<(), Outcome>
    ensures { (clients : Meaning) (start : D)
        → WasLoaded clients store.now (D.tells start) (D.tells disk.now)
        → HasLooked clients (listing_shown listing) (D.tells start) (D.tells disk.now)
        (output_told out.old) (output_told out.new) (came_to result) }
{
    let _as_it_is = disk;
    put_text(alloc, store, listing, out)
}

fn put_text(alloc: Global, store: &Store, listing: Listing, out: &mut Output) -> Result<(), Outcome>
    ensures { PrintsText (listing_text listing store.now.state.facts) (output_told out.old)
        (output_told out.new) (came_to result) }
{
    let mut text = String::new(alloc);
    add_listing(alloc, store, listing, &mut text)?;
    put_bytes(text.into_bytes(), out)
}

// Prints bytes that were made for the output.
fn put_bytes(bytes: Vec<u8>, out: &mut Output) -> Result<(), Outcome>
    ensures { PrintsText bytes.items (output_told out.old) (output_told out.new) (came_to result) }
{
    match out.put(bytes) {
        Ok(()) => Ok(()),
        Err(_) => Err(Outcome::WriteFault),
    }
}
