//! The queues of times, each with a number for every block of 64 rows: the least that a row there
//! has.
ghost use Rattle.std.specs.Prelude.{◌≡◌, ◌*◌, ◌/◌, ◌+◌, ◌^◌, ◌<◌, ◌≤◌, true, false, IfSome, IfNone};
ghost use Rattle.std.specs.Prelude.{None, length, slice_set};
ghost use Rattle.retry_table.specs.Table.{kept_in};
ghost use Rattle.due_tree.specs.Cells.{lesser};
ghost use Rattle.retry_table.specs.Queues.{time_place, is_later, least_from, AreLeast};
ghost use Rattle.retry_table.specs.Queues.{is_timely, next_timely, IsUntimely};

use crate::places::put;
use crate::rows::KeptRow;
use due_tree::{DueTree, is_due, lesser};

/// The rows of a block.
const BLOCK: usize = 64;

/// What a time is waited for: to send a message in batch mode, or to offer it; or to send or offer
/// one before its time that was tried so often.
#[derive(Clone, Copy)]
pub(crate) enum Times {
    ToSend,
    ToOffer,
    Sooner(u8),
}

/// The place of a row in a queue of times.
fn place_of(times: Times, row: KeptRow) -> Option<u64>
    ensures { result ≡ time_place times row }
{
    match times {
        Times::ToSend => row.message_place(),
        Times::ToOffer => row.offer_place(),
        Times::Sooner(tries) => row.sooner_place(tries),
    }
}

/// Whether a number is greater than another, or absent where that is there.
fn is_later(new: Option<u64>, old: Option<u64>) -> bool
    ensures { result ≡ is_later new old }
{
    match (new, old) {
        (_, None) => false,
        (None, Some(_)) => true,
        (Some(m), Some(n)) => m > n,
    }
}

/// Whether a row's expiry lets its number be at most the bound.
fn may_be_timely(times: Times, row: KeptRow, bound: u64) -> bool
    ensures { result ≡ false → is_timely times bound row ≡ false }
{
    match times {
        Times::ToSend => row.expiry() <= bound,
        Times::ToOffer => row.expiry() <= bound,
        Times::Sooner(_) => u64::MAX - row.expiry() <= bound,
    }
}

/// Whether a row's number is there, and at most the bound. Of most rows the expiry alone tells.
fn is_timely(times: Times, row: KeptRow, bound: u64) -> bool
    ensures { result ≡ is_timely times bound row }
{
    if !may_be_timely(times, row, bound) {
        return false;
    }
    is_due(place_of(times, row), bound)
}

/// The least number that a row of a block has, where none has one below `floor`: once a row has that
/// one, no other is looked at.
pub(crate) fn least_in(
    rows: &[KeptRow],
    times: Times,
    block: usize,
    floor: Option<u64>,
) -> Option<u64>
    requires there { 64 * block < length rows.now }
    requires few { length rows.now < 2 ^ 60 }
    requires above { lesser floor (least_from times rows.now (64 * block) 64) ≡ floor }
    ensures { result ≡ least_from times rows.now (64 * block) 64 }
{
    let first = BLOCK * block;
    let mut n = rows.len().min(first + BLOCK);
    let mut least = None;
    while n > first {
        n -= 1;
        let place = place_of(times, rows[n]);
        if place == floor {
            return floor;
        }
        least = lesser(place, least);
    }
    least
}

/// Mends the number of a row's block after the row was written in place of an old one. Only where the
/// old row had the least number of the block, and the new one has a later one, are others looked at.
pub(crate) fn mend(tree: &mut DueTree, times: Times, rows: &[KeptRow], n: usize, old: KeptRow)
    requires within { n < length rows.now }
    requires before { AreLeast times (slice_set rows.now n old) tree.old }
    ensures { AreLeast times rows.now tree.new }
{
    let block = n / BLOCK;
    let new = place_of(times, rows[n]);
    let was = place_of(times, old);
    let held = tree.get(block);
    let least = if !is_later(new, was) {
        lesser(new, held)
    } else if is_later(was, held) {
        held
    } else {
        least_in(rows, times, block, was)
    };
    put(tree, block, least);
}

/// The first row of a block, from `from` on, whose number is at most the bound.
fn next_in_block(rows: &[KeptRow], times: Times, from: usize, bound: u64) -> Option<usize>
    requires { from < 2 ^ 60 }
    ensures low { IfSome result (λ n. from ≤ n) }
    ensures timely { IfSome result (λ n. is_timely times bound (kept_in rows.now n) ≡ true) }
    ensures before { IfSome result (IsUntimely times bound rows.now from) }
    ensures none { IfNone result (IsUntimely times bound rows.now from (64 * (from / 64) + 64)) }
{
    let end = rows.len().min(BLOCK * (from / BLOCK) + BLOCK);
    for n in from..end {
        if is_timely(times, rows[n], bound) {
            return Some(n);
        }
    }
    None
}

/// The first row of `from`'s block, from `from` on, whose number is at most the bound: no row is
/// looked at where the least number of the block is greater.
fn next_here(
    tree: &DueTree,
    times: Times,
    rows: &[KeptRow],
    from: usize,
    bound: u64,
) -> Option<usize>
    requires least { AreLeast times rows.now tree.now }
    requires within { from < length rows.now }
    ensures low { IfSome result (λ n. from ≤ n) }
    ensures timely { IfSome result (λ n. is_timely times bound (kept_in rows.now n) ≡ true) }
    ensures before { IfSome result (IsUntimely times bound rows.now from) }
    ensures none { IfNone result (IsUntimely times bound rows.now from (64 * (from / 64) + 64)) }
{
    if !is_due(tree.get(from / BLOCK), bound) {
        return None;
    }
    next_in_block(rows, times, from, bound)
}

/// The first row from `from` on whose number is at most the bound.
pub(crate) fn next_at_most(
    tree: &DueTree,
    times: Times,
    rows: &[KeptRow],
    from: usize,
    bound: u64,
) -> Option<usize>
    requires { AreLeast times rows.now tree.now }
    ensures { result ≡ next_timely times from bound rows.now }
{
    if from >= rows.len() {
        return None;
    }
    if let Some(n) = next_here(tree, times, rows, from, bound) {
        return Some(n);
    }
    let block = tree.next_at_most(from / BLOCK + 1, bound)?;
    next_in_block(rows, times, BLOCK * block, bound)
}
