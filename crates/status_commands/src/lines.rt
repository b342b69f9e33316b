// The lines of `status`. Each builder appends its line; it fails only for want of memory, and then
// nothing is said of what was appended.
ghost use Rattle.std.specs.Prelude.{◌≡◌, ◌++◌, OnOk};
ghost use Rattle.std.specs.String.{string_bytes};
ghost use Rattle.sync_store.specs.Store.{written_in};
ghost use Rattle.status_commands.specs.Texts.{counts_text, journal_text, status_text};

use outside::MAX_JOURNAL;
use std::alloc::AllocError;
use sync_store::Store;
use sync_words::version_line;

/// All that `status` prints of a store.
pub fn add_status(store: &Store, to: &mut String) -> Result<(), AllocError>
    ensures { OnOk result (string_bytes to.new ≡ string_bytes to.old ++ status_text
        (written_in store.now) store.now.end store.now.state.facts) }
{
    let end = store.end();
    let free = MAX_JOURNAL - (end + store.room());
    counts_line(store.held(), store.delivered(), store.sessions(), to)?;
    journal_line(end, free, to)?;
    to.push_str(version_line("version").as_str())
}

// How many messages are held, how many of them are delivered, and how many sessions have begun.
fn counts_line(held: u32, delivered: u32, sessions: u32, to: &mut String) -> Result<(), AllocError>
    ensures { OnOk result (string_bytes to.new ≡ string_bytes to.old ++ counts_text held delivered
        sessions) }
{
    writeln!(to, "held {held} delivered {delivered} sessions {sessions}")
}

// Where the journal ends, in bytes, and how many are left behind it.
fn journal_line(end: u64, free: u64, to: &mut String) -> Result<(), AllocError>
    ensures { OnOk result (string_bytes to.new ≡ string_bytes to.old ++ journal_text end free) }
{
    writeln!(to, "journal {end} free {free}")
}
