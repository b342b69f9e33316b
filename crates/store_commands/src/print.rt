// Bytes as they go out.
ghost use Rattle.sync_words.specs.Outcomes.{came_to};
ghost use Rattle.store_commands.specs.Show.{PrintsText};

use outside::{Sink, write_all};
use sync_words::Outcome;

/// Prints bytes as they are.
pub fn print_bytes<W: Sink>(bytes: &[u8], out: &mut W) -> Result<(), Outcome>
    ensures { PrintsText bytes.now (W.tells out.old) (W.tells out.new) (came_to result) }
{
    match write_all(out, bytes) {
        Ok(()) => Ok(()),
        Err(_) => Err(Outcome::WriteFault),
    }
}
