// The command `audit`.
ghost use Rattle.std.specs.Prelude.{◌≡◌, Some};
ghost use Rattle.outside.specs.Disk.{RelatesTold};
ghost use Rattle.outside.specs.Files.{File, ReadsSame, Two, read_files};
ghost use Rattle.outside.specs.Outside.{AnyImage, DiskRun};
ghost use Rattle.file_standing.specs.Standing.{stands};
ghost use Rattle.sync_words.specs.Outcomes.{came_to};
ghost use Rattle.store_commands.specs.Serving.{IsServed, ServesOn};
ghost use Rattle.store_commands.specs.Show.{PrintsText};
ghost use Rattle.audit_commands.specs.Audits.{AuditedBy, HasAudited, LeavesSynced, TellsOutcome};
ghost use Rattle.audit_commands.specs.Texts.{legal_text};

use crate::lines::legal_line;
use journal_audit::{AuditFault, Report, audit};
use outside::{Disk, Sink};
use std::alloc::Global;
use store_commands::print_bytes;
use sync_rules::Clients;
use sync_store::Store;
use sync_words::Outcome;

/// Audits the two files of a store, and prints the line of what is reported of their journal. It
/// syncs both files, and writes nothing to them.
pub fn print_audit<D: Disk, W: Sink, C: Clients>(
    alloc: Global,
    disk: &mut D,
    out: &mut W,
    clients: &C,
) -> Result<(), Outcome>
    ensures { HasAudited (C.meaning clients.now) (D.tells disk.old) (D.tells disk.new)
        (W.tells out.old) (W.tells out.new) (came_to result) }
{
    let report = audit_files(alloc, disk, clients)?;
    print_report(alloc, &report, out)
}

/// The same beside a store that was loaded from these files: it may be used again after each outcome
/// but `DiskFault`, since its files are as they were.
pub fn print_audit_loaded<D: Disk, W: Sink, C: Clients>(
    alloc: Global,
    store: &Store,
    disk: &mut D,
    out: &mut W,
    clients: &C,
) -> Result<(), Outcome>
    ensures audited { HasAudited (C.meaning clients.now) (D.tells disk.old) (D.tells disk.new)
        (W.tells out.old) (W.tells out.new) (came_to result) }
    ensures serves { IsServed (C.meaning clients.now) store.now (D.tells disk.old)
        → ServesOn (C.meaning clients.now) store.now (D.tells disk.new) (came_to result) }
{
    let _as_it_is = store;
    print_audit(alloc, disk, out, clients)
}

// The report of the files, or what the command comes to without one.
fn audit_files<D: Disk, C: Clients>(
    alloc: Global,
    disk: &mut D,
    clients: &C,
) -> Result<Report, Outcome>
    ensures run { DiskRun (D.tells disk.old) (D.tells disk.new) }
    ensures by { AuditedBy (D.tells disk.old) (D.tells disk.new) result }
    ensures moments { AnyImage (D.tells disk.old) (D.tells disk.new) }
    ensures reads { RelatesTold ReadsSame (D.tells disk.old).files (D.tells disk.new).files }
    ensures synced { LeavesSynced (D.tells disk.old).files (D.tells disk.new).files result }
    ensures tells { (two : Two File) → (D.tells disk.old).files ≡ Some two
        → TellsOutcome (C.meaning clients.now) (stands (C.meaning clients.now) (read_files two)) result }
{
    match audit(alloc, disk, clients) {
        Ok(report) => Ok(report),
        Err(AuditFault::Memory) => Err(Outcome::Memory),
        Err(AuditFault::DiskFault) => Err(Outcome::DiskFault),
        Err(AuditFault::NoStore) => Err(Outcome::NoStore),
        Err(AuditFault::Damaged(place)) => Err(Outcome::Damaged(place)),
    }
}

// Prints the line of a report.
fn print_report<W: Sink>(alloc: Global, report: &Report, out: &mut W) -> Result<(), Outcome>
    ensures { PrintsText (legal_text report.now) (W.tells out.old) (W.tells out.new)
        (came_to result) }
{
    let mut text = String::new(alloc);
    legal_line(report, &mut text)?;
    print_bytes(text.as_bytes(), out)
}
