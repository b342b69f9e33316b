// The command `mailbox in CONTACT`.
ghost use Rattle.std.specs.Prelude.{◌≡◌, ◌++◌, ◌<◌, IfOk, MatchOption, OnOk};
ghost use Rattle.std.specs.String.{string_bytes};
ghost use Rattle.entry_codec.specs.declared.naming.Format.TheVariants as kind;
ghost use Rattle.sync_rules.specs.declared.limits.TheConstants.{MAX_SESSIONS};
ghost use Rattle.sync_rules.specs.Steps.{IsSettled};
ghost use Rattle.sync_store.specs.Ready.{IsReady};
ghost use Rattle.sync_store.specs.Store.{written_in};
ghost use Rattle.sync_words.specs.Outcomes.{came_to};
ghost use Rattle.mailbox_core.specs.Files.{box_ending, box_records};
ghost use Rattle.store_commands.specs.Commit.{StoreStaysReady};
ghost use Rattle.store_commands.specs.Load.{MayExtend};
ghost use Rattle.store_commands.specs.Serving.{IsServed, ServesOn, StaysSettled, WasLoaded};
ghost use Rattle.mailbox_commands.specs.Tests.{MayBeginWith};
ghost use Rattle.store_commands.specs.Running.{DoesErrand, PrintedSo, PrintsOut, RunsErrand, ended_as};
ghost use Rattle.mailbox_commands.specs.Taking.{HasTakenMail, IsInput, TellsEnd, in_errand, outcome_at};
ghost use Rattle.mailbox_commands.specs.Taking.{HasTakenBytes, taken_text};

use crate::tests::refusal;
use mailbox_core::{BoxEnd, BoxEnding, read_box};
use outside::{Disk, InputFault, Sink, Source, read_input, write_all};
use std::alloc::{AllocError, Global};
use std::hash::RandomState;
use store_commands::{load_store, migrate_and_settle};
use sync_rules::Clients;
use sync_store::{Store, StoreFault};
use sync_words::Outcome;

/// The most that is read of a mailbox file, in bytes.
pub const MAX_MAIL: u64 = 268_435_456;

/// Reads the input whole, migrates the journal and settles it, takes the records of the input as a
/// file from a contact, each with settling behind it, and prints how many were taken. Where the
/// input could not be read whole, or is longer than `MAX_MAIL`, nothing is taken.
pub fn take_mail<D: Disk, S: Source, W: Sink, C: Clients>(
    alloc: Global,
    hasher: RandomState,
    contact: u8,
    disk: &mut D,
    input: &mut S,
    out: &mut W,
    clients: &C,
) -> Result<(), Outcome>
    ensures { HasTakenMail (C.meaning clients.now) contact (D.tells disk.old) (D.tells disk.new)
        (S.tells input.old) (S.tells input.new) (W.tells out.old) (W.tells out.new)
        (came_to result) }
{
    let mut store = load_store(alloc, hasher, disk, clients)?;
    take_mail_loaded(alloc, &mut store, contact, disk, input, out, clients)
}

/// The same of a store that was loaded. After each outcome but `DiskFault` it may be used again;
/// after `Memory` it is to be settled first.
pub fn take_mail_loaded<D: Disk, S: Source, W: Sink, C: Clients>(
    alloc: Global,
    store: &mut Store,
    contact: u8,
    disk: &mut D,
    input: &mut S,
    out: &mut W,
    clients: &C,
) -> Result<(), Outcome>
    requires ready { MayExtend (C.meaning clients.now) store.old (D.tells disk.old).files }
    ensures taken { (start : D)
        → WasLoaded (C.meaning clients.now) store.old (D.tells start) (D.tells disk.old)
        → HasTakenMail (C.meaning clients.now) contact (D.tells start) (D.tells disk.new)
        (S.tells input.old) (S.tells input.new) (W.tells out.old) (W.tells out.new)
        (came_to result) }
    ensures serves { IsServed (C.meaning clients.now) store.old (D.tells disk.old)
        → ServesOn (C.meaning clients.now) store.new (D.tells disk.new) (came_to result) }
{
    if let Some(why) = refusal(store, contact) {
        return Err(Outcome::Refused(why));
    }
    let bytes = read_mail(alloc, input)?;
    take_bytes(alloc, store, contact, bytes.as_slice(), disk, out, clients)
}

/// The same of a store that was loaded, over bytes that lie in memory: they are the input, of which no
/// read fails, and they are not copied.
pub fn take_mail_bytes<D: Disk, W: Sink, C: Clients>(
    alloc: Global,
    store: &mut Store,
    contact: u8,
    bytes: &[u8],
    disk: &mut D,
    out: &mut W,
    clients: &C,
) -> Result<(), Outcome>
    requires ready { MayExtend (C.meaning clients.now) store.old (D.tells disk.old).files }
    ensures taken { (start : D)
        → WasLoaded (C.meaning clients.now) store.old (D.tells start) (D.tells disk.old)
        → HasTakenBytes (C.meaning clients.now) contact bytes.now (D.tells start) (D.tells disk.new)
        (W.tells out.old) (W.tells out.new) (came_to result) }
    ensures serves { IsServed (C.meaning clients.now) store.old (D.tells disk.old)
        → ServesOn (C.meaning clients.now) store.new (D.tells disk.new) (came_to result) }
{
    if let Some(why) = refusal(store, contact) {
        return Err(Outcome::Refused(why));
    }
    if bytes.len() as u64 > MAX_MAIL {
        return Err(Outcome::TooMuch);
    }
    take_bytes(alloc, store, contact, bytes, disk, out, clients)
}

// Reads the input whole.
fn read_mail<S: Source>(alloc: Global, input: &mut S) -> Result<Vec<u8>, Outcome>
    ensures { IsInput (S.tells input.old) (S.tells input.new) result }
{
    let mut bytes = Vec::new(alloc);
    match read_input(input, MAX_MAIL, &mut bytes) {
        Ok(()) => Ok(bytes),
        Err(InputFault::TooMuch) => Err(Outcome::TooMuch),
        Err(InputFault::ReadFault) => Err(Outcome::ReadFault),
        Err(InputFault::Memory) => Err(Outcome::Memory),
    }
}

// Migrates, settles, takes the records of a file, and prints their number.
fn take_bytes<D: Disk, W: Sink, C: Clients>(
    alloc: Global,
    store: &mut Store,
    contact: u8,
    bytes: &[u8],
    disk: &mut D,
    out: &mut W,
    clients: &C,
) -> Result<(), Outcome>
    requires ready { MayExtend (C.meaning clients.now) store.old (D.tells disk.old).files }
    requires begins { MayBeginWith store.old.state.facts contact }
    ensures ran { RunsErrand (C.meaning clients.now) (in_errand (C.meaning clients.now) contact
        bytes.now) store.old (D.tells disk.old) (D.tells disk.new) (W.tells out.old)
        (W.tells out.new) (came_to result) }
    ensures serves { written_in store.old ≡ kind.Short
        → ServesOn (C.meaning clients.now) store.new (D.tells disk.new) (came_to result) }
{
    migrate_and_settle(store, disk, clients)?;
    // What every store keeps.
    let _end = store.end();
    let end = take_records(alloc, store, contact, bytes, disk, clients)?;
    print_end(alloc, end, out)
}

// Takes the records of a file from a contact into a settled store.
fn take_records<D: Disk, C: Clients>(
    alloc: Global,
    store: &mut Store,
    contact: u8,
    bytes: &[u8],
    disk: &mut D,
    clients: &C,
) -> Result<BoxEnd, Outcome>
    requires ready { IsReady (C.meaning clients.now) store.old (D.tells disk.old).files }
    requires settled { IsSettled (C.meaning clients.now) store.old.state.facts }
    requires begins { MayBeginWith store.old.state.facts contact }
    ensures does { DoesErrand (C.meaning clients.now) (in_errand (C.meaning clients.now) contact
        bytes.now) store.old store.new (D.tells disk.old) (D.tells disk.new) (ended_as result) }
    ensures end { IfOk result (TellsEnd bytes.now) }
    ensures stays { StoreStaysReady (C.meaning clients.now) store.new (D.tells disk.new).files
        (ended_as result) }
    ensures settled { StaysSettled (C.meaning clients.now) store.new (ended_as result) }
{
    match read_box(alloc, store, disk, clients, contact, bytes) {
        Ok(end) => Ok(end),
        Err(StoreFault::Full) => Err(Outcome::Full),
        Err(StoreFault::Memory) => Err(Outcome::Memory),
        Err(StoreFault::DiskFault) => Err(Outcome::DiskFault),
        Err(StoreFault::Closed) => unreachable!(),
    }
}

// Prints how many records were taken, and says how the reading ended.
fn print_end<W: Sink>(alloc: Global, end: BoxEnd, out: &mut W) -> Result<(), Outcome>
    ensures { PrintsOut (outcome_at end.ending) (taken_text end.taken) (W.tells out.old)
        (W.tells out.new) (came_to result) }
{
    let mut line = String::new(alloc);
    taken_line(end.taken, &mut line)?;
    print_line(line.as_bytes(), out)?;
    ended(end.ending)
}

// Prints a line.
fn print_line<W: Sink>(line: &[u8], out: &mut W) -> Result<(), Outcome>
    ensures { PrintedSo line.now (W.tells out.old) (W.tells out.new) result }
{
    match write_all(out, line) {
        Ok(()) => Ok(()),
        Err(_) => Err(Outcome::WriteFault),
    }
}

/// The line of `mailbox in`: how many records were taken. It fails only for want of memory, and
/// then nothing is said of what was appended.
pub fn taken_line(taken: u64, to: &mut String) -> Result<(), AllocError>
    ensures { OnOk result (string_bytes to.new ≡ string_bytes to.old ++ taken_text taken) }
{
    writeln!(to, "taken {taken}")
}

// What a file whose reading ended so comes to.
fn ended(ending: BoxEnding) -> Result<(), Outcome>
    ensures { came_to result ≡ outcome_at ending }
{
    match ending {
        BoxEnding::Clean => Ok(()),
        BoxEnding::Inside(place) => Err(Outcome::Inside(place)),
        BoxEnding::Bad(place, reason) => Err(Outcome::Bad(place, reason)),
        BoxEnding::NoVersion(place) => Err(Outcome::NoVersion(place)),
    }
}
