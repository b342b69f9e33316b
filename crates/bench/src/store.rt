//! Commits messages to a store on a disk in memory, or computes their ids alone; loads the store whose
//! file lies in the folder that it runs in, audits it, writes it anew in format 2, or takes an OFFER
//! of ids over it: for the speed and memory of a store. The error output has the microseconds of
//! processor time that this alone took.

mod messages;
mod offers;

use crate::stop::Stop;
use crate::store::messages::{Entries, Plan};
use crate::store::offers::{ID_LEN, take_often, whole_ids};
use crate::words::{number_at, word_at};
use anyhow::{Result, bail};
use client_basic::Bundle;
use journal_audit::{Report, audit};
use outside::{MAX_JOURNAL, MemDisk};
use std::alloc::Global;
use std::fs;
use std::time::{CpuClock, Duration};
use sync_rules::Batch;
use sync_store::Store;
use test_device::Device;

// Prints the processor time since this one.
fn print_time(rt: &HostRuntime, start: Duration) -> Result<()> {
    let spent = rt.process_cpu_time()?.saturating_sub(start);
    eprintln!(rt; "{}", spent.as_micros())?;
    Ok(())
}

fn print_store(rt: &HostRuntime, store: &Store) -> Result<()> {
    let held = store.held();
    let delivered = store.delivered();
    let end = store.end();
    println!(rt; "{held} held, {delivered} delivered, {end} bytes")?;
    Ok(())
}

// Computes the ids of the messages alone.
fn measure_ids(rt: &HostRuntime, plan: Plan) -> Result<()> {
    let entries = Entries::new(rt.alloc(), plan)?;
    let start = rt.process_cpu_time()?;
    let sum = entries.mixed_ids()?;
    print_time(rt, start)?;
    let text = sum.to_hex(rt.alloc())?;
    println!(rt; "{text}")?;
    Ok(())
}

// A disk in memory with the file of the folder that the program runs in.
fn read_disk(rt: &HostRuntime) -> Result<MemDisk> {
    let file = fs::read(rt, "bsp.0")?;
    let disk = MemDisk::new(rt.alloc(), file, Vec::new(rt.alloc()))?;
    Ok(disk)
}

// Reads the folder's file, and no store.
fn measure_read(rt: &HostRuntime) -> Result<()> {
    let start = rt.process_cpu_time()?;
    let disk = read_disk(rt)?;
    print_time(rt, start)?;
    let bytes = disk.file(0).len();
    println!(rt; "{bytes} bytes")?;
    Ok(())
}

fn print_report(rt: &HostRuntime, report: Report) -> Result<()> {
    let Report {
        batches,
        entries,
        good,
        bad,
        settled,
    } = report;
    let word = if settled { "settled" } else { "open" };
    println!(rt; "{batches} batches, {entries} entries, {good} good, {bad} bad, {word}")?;
    Ok(())
}

// Loads the store of a disk.
fn load(rt: &HostRuntime, disk: MemDisk) -> Result<Device<MemDisk, Bundle>> {
    Device::load(rt.alloc(), disk, Bundle::new(), MAX_JOURNAL)
}

// Loads the store of the folder's file.
fn measure_load(rt: &HostRuntime) -> Result<()> {
    let disk = read_disk(rt)?;
    let start = rt.process_cpu_time()?;
    let device = load(rt, disk)?;
    print_time(rt, start)?;
    print_store(rt, device.store())
}

// Writes the journal of the folder's file anew, which is of format 1 and loaded.
fn measure_migrate(rt: &HostRuntime) -> Result<()> {
    let mut device = load(rt, read_disk(rt)?)?;
    let start = rt.process_cpu_time()?;
    let answer = device.migrate();
    print_time(rt, start)?;
    if answer.is_err() {
        bail!("the journal was not written anew");
    }
    print_store(rt, device.store())
}

// Audits the store of the folder's file.
fn measure_audit(rt: &HostRuntime) -> Result<()> {
    let mut disk = read_disk(rt)?;
    let start = rt.process_cpu_time()?;
    let answer = audit(rt.alloc(), &mut disk, &Bundle::new());
    print_time(rt, start)?;
    match answer {
        Ok(report) => print_report(rt, report),
        Err(fault) => bail!("no report: {fault:?}"),
    }
}

// Takes an OFFER of ids over a store so many times.
fn time_offers(rt: &HostRuntime, store: &Store, ids: &[[u8; ID_LEN]], rounds: u32) -> Result<()> {
    let start = rt.process_cpu_time()?;
    let entries = take_often(rt.alloc(), store, ids, rounds)?;
    print_time(rt, start)?;
    println!(rt; "{entries} entries")?;
    Ok(())
}

// Takes an OFFER of the ids in the file `ids`, over the store of the folder's file.
fn measure_offer(rt: &HostRuntime, rounds: u32) -> Result<()> {
    let bytes = fs::read(rt, "ids")?;
    let device = load(rt, read_disk(rt)?)?;
    time_offers(rt, device.store(), whole_ids(bytes.as_slice()), rounds)
}

// Commits the entry of a number, and settles the store.
fn add_next(
    alloc: Global,
    entries: &Entries,
    k: u64,
    device: &mut Device<MemDisk, Bundle>,
) -> Result<(), Stop> {
    let batch = Batch::single(alloc, entries.get(k)?)?;
    device.add_settled(batch)?;
    Ok(())
}

// Commits all entries, and settles the store behind each.
fn add_all(
    alloc: Global,
    entries: &Entries,
    device: &mut Device<MemDisk, Bundle>,
) -> Result<(), Stop> {
    for k in 0..entries.len() {
        add_next(alloc, entries, k, device)?;
    }
    Ok(())
}

// A new store.
fn begin_store(alloc: Global) -> Result<Device<MemDisk, Bundle>> {
    let disk = MemDisk::new(alloc, Vec::new(alloc), Vec::new(alloc))?;
    Device::begin(alloc, disk, Bundle::new())
}

// A store with the messages of a plan.
fn fill_store(alloc: Global, plan: Plan) -> Result<Device<MemDisk, Bundle>> {
    let entries = Entries::new(alloc, plan)?;
    let mut device = begin_store(alloc)?;
    add_all(alloc, &entries, &mut device)?;
    Ok(device)
}

// Commits the messages to a new store.
fn measure_commit(rt: &HostRuntime, plan: Plan) -> Result<()> {
    let start = rt.process_cpu_time()?;
    let device = fill_store(rt.alloc(), plan)?;
    print_time(rt, start)?;
    print_store(rt, device.store())
}

// So many messages, of such a length, in a group that is shared with so many contacts.
fn plan_of(words: &[String]) -> Result<Plan> {
    let messages = number_at(words, 1)?;
    let length = number_at(words, 2)?;
    let contacts = number_at(words, 3)?;
    Ok(Plan {
        messages,
        length: length as usize,
        contacts: u8::try_from(contacts)?,
    })
}

/// Makes the step that the words name, and prints what it came to: over a plan (`ids`, `commit`), or
/// over the folder's file, in an OFFER so many times as the second word says.
pub(crate) fn measure(rt: &HostRuntime, words: &[String]) -> Result<()> {
    match word_at(words, 0) {
        "ids" => measure_ids(rt, plan_of(words)?),
        "commit" => measure_commit(rt, plan_of(words)?),
        "read" => measure_read(rt),
        "file" => measure_load(rt),
        "migrate" => measure_migrate(rt),
        "audit" => measure_audit(rt),
        "offer" => measure_offer(rt, number_at(words, 1)?),
        other => bail!("no step: {other}"),
    }
}
