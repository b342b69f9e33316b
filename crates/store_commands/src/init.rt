// The command `init`.
ghost use Rattle.sync_words.specs.Outcomes.{came_to};
ghost use Rattle.store_commands.specs.Init.{HasBegun, PrintsReady};

use outside::{Disk, Sink, write_text};
use sync_store::{InitFault, Store};
use sync_words::Outcome;

/// Begins a store and prints that it is ready. It takes no memory.
pub fn make_store<D: Disk, W: Sink>(disk: &mut D, out: &mut W) -> Result<(), Outcome>
    ensures { HasBegun (D.tells disk.old) (D.tells disk.new) (W.tells out.old) (W.tells out.new)
        (came_to result) }
{
    match Store::init(disk) {
        Ok(()) => print_ready(out),
        Err(InitFault::Exists) => Err(Outcome::Exists),
        Err(InitFault::DiskFault) => Err(Outcome::DiskFault),
    }
}

// Prints the line of a store that was begun.
fn print_ready<W: Sink>(out: &mut W) -> Result<(), Outcome>
    ensures { PrintsReady (W.tells out.old) (W.tells out.new) (came_to result) }
{
    match write_text(out, "ready\n") {
        Ok(()) => Ok(()),
        Err(_) => Err(Outcome::WriteFault),
    }
}
