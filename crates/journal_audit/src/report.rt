//! What an audit reports.
ghost use Rattle.std.specs.Prelude.{◌≡◌, IfOk};
ghost use Rattle.journal_audit.specs.Answers.{ReportsFrames};
ghost use Rattle.journal_audit.specs.Plain.{IsPlainSound};
ghost use Rattle.journal_audit.specs.Reading.{whole_of};
ghost use Rattle.journal_audit.specs.Telling.{TellsReport};

use crate::AuditFault;
use crate::files::Taken;
use crate::playing::is_settled;
use crate::reading::{Played, read};
use crate::rounds::round_count;
use std::alloc::{AllocError, Global};
use sync_rules::Clients;
use sync_rules::growth::counts;

/// What is told of a journal.
#[derive(Clone, Copy, Debug, PartialEq, Eq)]
pub struct Report {
    /// How many batches it has.
    pub batches: u64,
    /// How many entries they have.
    pub entries: u64,
    /// How many held messages are good: accepted, and their dependencies all held in the same group
    /// and good.
    pub good: u32,
    /// How many are bad: refused, or with a dependency that is held in another group or bad.
    pub bad: u32,
    /// No step is open.
    pub settled: bool,
}

// What is told of a journal that was played.
fn tell(alloc: Global, played: &Played) -> Result<Report, AllocError>
    requires { IsPlainSound played.now.facts }
    ensures { IfOk result (TellsReport played.now) }
{
    let messages = &played.facts.messages;
    Ok(Report {
        batches: played.batches,
        entries: played.entries,
        good: round_count(alloc, messages, true, messages.delivered())?,
        bad: round_count(alloc, messages, false, played.facts.hints.refused())?,
        settled: is_settled(&played.facts),
    })
}

/// The report of the journal in this file.
pub(crate) fn report_of<C: Clients>(
    alloc: Global,
    clients: &C,
    taken: &Taken,
) -> Result<Report, AuditFault>
    ensures { ReportsFrames (C.meaning clients.now) (whole_of (C.meaning clients.now) taken.now.file
        taken.now.format taken.now.bytes.items) result }
{
    let bytes = taken.bytes.as_slice();
    let played = read(alloc, clients, taken.file, taken.format, bytes)?;
    counts();
    let told = tell(alloc, &played)?;
    Ok(told)
}
