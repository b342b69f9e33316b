// The line of a report.
ghost use Rattle.std.specs.Prelude.{◌≡◌, ◌++◌, OnOk};
ghost use Rattle.std.specs.String.{string_bytes};
ghost use Rattle.audit_commands.specs.Texts.{legal_text, settled_text};

use journal_audit::Report;
use std::alloc::AllocError;

// Whether no step is open, in a word.
fn settled_word(settled: bool) -> &'static str
    ensures { result.now ≡ settled_text settled }
{
    if settled { "settled" } else { "open" }
}

/// A legal journal: how many batches it has, how many entries, good and bad messages, and whether
/// it is settled. It fails only for want of memory, and then nothing is said of what was appended.
pub fn legal_line(report: &Report, to: &mut String) -> Result<(), AllocError>
    ensures { OnOk result (string_bytes to.new ≡ string_bytes to.old ++ legal_text report.now) }
{
    let Report {
        batches,
        entries,
        good,
        bad,
        settled,
    } = *report;
    let word = settled_word(settled);
    writeln!(to, "legal {batches} {entries} {good} {bad} {word}")
}
