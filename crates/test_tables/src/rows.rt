ghost use Rattle.std.specs.Prelude.{◌≡◌, ◌<◌};

use crate::checks::{made, must, same};
use retry_table::Retry;
use std::alloc::Global;
use std::hash::RandomState;
use std::process::Abort;
use sync_ids::{Fixed, MessageId};
use sync_rules::{Mode, Tried};

/// What a plain table keeps of one message.
#[derive(Clone, Copy)]
struct Plain {
    seen: bool,
    owed: bool,
    asked: bool,
    ready: bool,
    tries: u32,
    expiry: u64,
}

/// What a plain table keeps for one contact.
#[derive(Drop)]
struct PlainPeer {
    contact: u8,
    rows: Vec<Plain>,
    wanted: Vec<MessageId>,
}

const NUMBERS: usize = 12;

impl PlainPeer {
    fn new(rt: &impl Abort, alloc: Global, contact: u8) -> PlainPeer {
        let none = Plain {
            seen: false,
            owed: false,
            asked: false,
            ready: false,
            tries: 0,
            expiry: 0,
        };
        PlainPeer {
            contact,
            rows: made(rt, vec![in alloc; none; NUMBERS]),
            wanted: Vec::new(alloc),
        }
    }
}

/// What is stated of a row: whether it is seen, owed and asked by the bits 1, 2 and 4, the tries and
/// the expiry.
#[derive(Clone, Copy)]
struct Stated {
    flags: u8,
    tries: u8,
    expiry: u64,
}

/// A change of a row; a try has its time and the latency.
#[derive(Clone, Copy)]
enum RowChange {
    Owe,
    Pay,
    See,
    Ask,
    Send(u64, u32),
    Offer(u64, u32),
    Ready,
    Unready,
    Restore(Stated),
}

/// A step of a row of chance.
fn next(seed: u64) -> u64 {
    seed.wrapping_mul(6364136223846793005)
        .wrapping_add(1442695040888963407)
}

/// A change by chance.
fn drawn(what: u64, now: u64) -> RowChange {
    let latency = ((now >> 3) % 4000) as u32;
    match what % 12 {
        0 => RowChange::Owe,
        1 => RowChange::Pay,
        2 => RowChange::See,
        3 | 4 => RowChange::Ask,
        5 => RowChange::Send(now, latency),
        6 => RowChange::Offer(now, latency),
        7 => RowChange::Unready,
        8 => RowChange::Restore(Stated {
            flags: (now % 8) as u8,
            tries: ((now >> 5) % 65) as u8,
            expiry: now,
        }),
        _ => RowChange::Ready,
    }
}

/// The least of 2^64 - 1 and the time of the next try.
fn expiry_by_doubling(now: u64, latency: u32, tries: u32) -> u64 {
    let mut wait = u64::from(latency).saturating_mul(2);
    for _ in 1..tries {
        wait = wait.saturating_mul(2);
    }
    now.saturating_add(wait)
}

fn try_again(row: &mut Plain, now: u64, latency: u32) {
    row.tries = row.tries.saturating_add(1).min(64);
    row.expiry = expiry_by_doubling(now, latency, row.tries);
}

/// Changes a row of the plain table.
fn change_plain(row: &mut Plain, change: RowChange) {
    match change {
        RowChange::Owe => row.owed = true,
        RowChange::Pay => row.owed = false,
        RowChange::See => row.seen = true,
        RowChange::Ask => {
            row.asked = true;
            row.tries = 0;
            row.expiry = 0;
        }
        RowChange::Send(now, latency) => {
            row.asked = false;
            try_again(row, now, latency);
        }
        RowChange::Offer(now, latency) => try_again(row, now, latency),
        RowChange::Ready => row.ready = true,
        RowChange::Unready => row.ready = false,
        RowChange::Restore(stated) => {
            row.seen = stated.flags & 1 != 0;
            row.owed = stated.flags & 2 != 0;
            row.asked = stated.flags & 4 != 0;
            row.tries = u32::from(stated.tries);
            row.expiry = stated.expiry;
        }
    }
}

/// The id under which a row is stated and told.
const ROW_ID: MessageId = Fixed([7; 32]);

/// What is stated of a row of a contact.
fn tried_of(contact: u8, stated: Stated) -> Tried
    ensures contact { result.contact ≡ contact }
    ensures tries { result.tries ≡ stated.tries }
{
    Tried {
        contact,
        id: ROW_ID,
        seen: stated.flags & 1 != 0,
        owed: stated.flags & 2 != 0,
        asked: stated.flags & 4 != 0,
        tries: stated.tries,
        expiry: stated.expiry,
    }
}

/// States a row.
fn restore(rt: &impl Abort, retry: &mut Retry, contact: u8, n: u32, stated: Stated)
    requires { n < 12 }
{
    must(rt, u64::from(stated.tries), stated.tries <= 64);
    made(rt, retry.reserve(contact, n + 1, 0));
    retry.restore(&tried_of(contact, stated), n);
}

/// Changes a row of the table.
fn change(rt: &impl Abort, retry: &mut Retry, contact: u8, n: u32, change: RowChange) {
    must(rt, u64::from(n), n < 12);
    if let RowChange::Restore(stated) = change {
        restore(rt, retry, contact, n, stated);
        return;
    }
    made(rt, retry.reserve(contact, n + 1, 0));
    match change {
        RowChange::Owe => retry.owe(contact, n),
        RowChange::Pay => retry.paid(contact, n),
        RowChange::See => retry.saw(contact, n),
        RowChange::Ask => retry.ask(contact, n),
        RowChange::Send(now, latency) => retry.sent(contact, n, now, latency),
        RowChange::Offer(now, latency) => retry.offered(contact, n, now, latency),
        RowChange::Ready => retry.ready(contact, n),
        RowChange::Unready => retry.unready(contact, n),
        RowChange::Restore(_) => {}
    }
}

/// Wants one more id, in both tables, or as before if it is wanted.
fn want(
    rt: &impl Abort,
    retry: &mut Retry,
    wanted: &mut Vec<MessageId>,
    contact: u8,
    id: MessageId,
) {
    made(rt, retry.reserve(contact, 0, 1));
    if !retry.is_wanted(contact, &id) {
        must(rt, 5, retry.wanted_count(contact) < 5);
        retry.want(contact, id);
    }
    if !wanted.contains(&id) {
        made(rt, wanted.push(id));
    }
}

/// One change by chance, in both tables; answers its time.
fn play(rt: &impl Abort, retry: &mut Retry, peer: &mut PlainPeer, seed: u64) -> u64 {
    let now = if seed % 13 == 0 {
        u64::MAX - 5
    } else {
        (seed >> 20) % 20_000
    };
    let contact = peer.contact;
    let drawn = drawn(seed >> 33, now);
    let n = (seed >> 40) as usize % NUMBERS;
    change(rt, retry, contact, n as u32, drawn);
    must(rt, seed, n < peer.rows.len());
    change_plain(&mut peer.rows[n], drawn);
    let id = Fixed([((seed >> 50) % 5) as u8; 32]);
    if seed >> 45 & 3 != 0 {
        want(rt, retry, &mut peer.wanted, contact, id);
    } else {
        retry.unwant(contact, &id);
        peer.wanted.retain(|other| *other != id);
    }
    now
}

/// The numbers whose acknowledgement is owed, or that are to be offered, by a walk.
fn listed(rt: &impl Abort, alloc: Global, rows: &[Plain], owed: bool, now: u64) -> Vec<u32> {
    let mut numbers = Vec::new(alloc);
    let mut n = 0u32;
    for row in rows {
        let is_offered = row.ready && !row.seen && !row.asked && row.expiry <= now;
        if (owed && row.owed) || (!owed && is_offered) {
            made(rt, numbers.push(n));
        }
        n = n.wrapping_add(1);
    }
    numbers
}

/// The message to be sent, by a walk.
fn message(rows: &[Plain], mode: Mode, now: u64) -> Option<u32> {
    let mut n = 0u32;
    for row in rows {
        let is_ripe = match mode {
            Mode::Interactive => row.asked,
            Mode::Batch => row.expiry <= now,
        };
        if row.ready && !row.seen && is_ripe {
            return Some(n);
        }
        n = n.wrapping_add(1);
    }
    None
}

/// Whether a try now would set an expiry less than the one that stands, of a message that may be sent
/// and was not asked for.
fn is_sooner(row: &Plain, latency: u32, now: u64) -> bool {
    let mut tried = *row;
    try_again(&mut tried, now, latency);
    row.ready && !row.seen && !row.asked && tried.expiry < row.expiry
}

/// The numbers that go before their time, by a walk.
fn sooner(rt: &impl Abort, alloc: Global, rows: &[Plain], latency: u32, now: u64) -> Vec<u32> {
    let mut numbers = Vec::new(alloc);
    let mut n = 0u32;
    for row in rows {
        if is_sooner(row, latency, now) {
            made(rt, numbers.push(n));
        }
        n = n.wrapping_add(1);
    }
    numbers
}

/// Compares what both tables answer of what goes before its time.
fn compare_sooner(
    rt: &impl Abort,
    alloc: Global,
    retry: &Retry,
    peer: &PlainPeer,
    latency: u32,
    now: u64,
) {
    let contact = peer.contact;
    let numbers = sooner(rt, alloc, &peer.rows, latency, now);
    let first = numbers.first().copied();
    same(
        rt,
        now,
        &retry.sooner_message(contact, latency, now),
        &first,
    );
    let offers = made(rt, retry.sooner_offers(contact, latency, now));
    same(rt, now, &offers, &numbers);
}

/// Compares what both tables answer at a time.
fn compare(rt: &impl Abort, alloc: Global, retry: &Retry, peer: &PlainPeer, now: u64) {
    let contact = peer.contact;
    for mode in [Mode::Interactive, Mode::Batch] {
        let due = retry.due_message(contact, mode, now);
        same(rt, now, &due, &message(&peer.rows, mode, now));
    }
    let offers = made(rt, retry.due_offers(contact, now));
    same(rt, now, &offers, &listed(rt, alloc, &peer.rows, false, now));
    let owed = made(rt, retry.owed(contact));
    same(rt, now, &owed, &listed(rt, alloc, &peer.rows, true, now));
    for latency in [0, 1, 1_000, u32::MAX] {
        compare_sooner(rt, alloc, retry, peer, latency, now);
    }
}

/// What the plain table keeps of a message, as it may be stated.
fn told(contact: u8, row: &Plain) -> Tried {
    Tried {
        contact,
        id: ROW_ID,
        seen: row.seen,
        owed: row.owed,
        asked: row.asked,
        tries: row.tries.min(64) as u8,
        expiry: row.expiry,
    }
}

/// Compares what both tables keep.
fn compare_kept(rt: &impl Abort, retry: &Retry, peer: &PlainPeer) {
    let contact = peer.contact;
    let mut n = 0u32;
    for row in &peer.rows {
        same(rt, u64::from(n), &retry.expiry(contact, n), &row.expiry);
        same(rt, u64::from(n), &retry.is_seen(contact, n), &row.seen);
        same(
            rt,
            u64::from(n),
            &retry.tried(contact, n, ROW_ID),
            &told(contact, row),
        );
        n = n.wrapping_add(1);
    }
    same(rt, 100, &retry.expiry(contact, n), &0);
    same(rt, 101, &retry.is_seen(contact, n), &false);
    same(rt, 102, &made(rt, retry.wanted(contact)), &peer.wanted);
    let count = retry.wanted_count(contact) as usize;
    same(rt, 103, &count, &peer.wanted.len());
    let mut place = 0u32;
    for id in &peer.wanted {
        must(rt, 104, place < retry.wanted_count(contact));
        same(rt, 105, &retry.wanted_at(contact, place), id);
        place = place.wrapping_add(1);
    }
}

fn table_of(rt: &impl Abort, alloc: Global, hasher: RandomState) -> Retry {
    made(rt, Retry::new(alloc, hasher))
}

/// The end of a table, which is proved anew at each place where one goes.
fn let_go(_retry: Retry) {}

/// Plays with three contacts, and compares both tables behind each change.
fn play_all(rt: &impl Abort, alloc: Global, retry: &mut Retry) {
    let mut peers = Vec::new(alloc);
    for contact in [0, 7, 255] {
        made(rt, peers.push(PlainPeer::new(rt, alloc, contact)));
    }
    let mut seed = 11;
    for _ in 0..400 {
        for peer in peers.iter_mut() {
            seed = next(seed);
            let now = play(rt, retry, peer, seed);
            compare_kept(rt, retry, peer);
            for at in [0, now, u64::MAX - 1, u64::MAX] {
                compare(rt, alloc, retry, peer, at);
            }
        }
    }
}

#[test]
fn answers_what_a_plain_table_answers(rt: HostRuntime) {
    let hasher = made(&rt, RandomState::new(&rt));
    let mut retry = table_of(&rt, rt.alloc(), hasher);
    play_all(&rt, rt.alloc(), &mut retry);
    let_go(retry);
}

/// Changes message 0 of a contact, and answers its expiry.
fn changed(rt: &impl Abort, retry: &mut Retry, contact: u8, what: RowChange) -> u64 {
    change(rt, retry, contact, 0, what);
    retry.expiry(contact, 0)
}

#[test]
fn the_wait_doubles_until_a_request(rt: HostRuntime) {
    let hasher = made(&rt, RandomState::new(&rt));
    let mut retry = table_of(&rt, rt.alloc(), hasher);
    for (now, expiry) in [(1_000, 61_000), (61_000, 181_000), (181_000, 421_000)] {
        let offer = RowChange::Offer(now, 30_000);
        same(&rt, now, &changed(&rt, &mut retry, 3, offer), &expiry);
    }
    change(&rt, &mut retry, 3, 0, RowChange::Ready);
    same(&rt, 1, &retry.due_message(3, Mode::Batch, 420_999), &None);
    change(&rt, &mut retry, 3, 0, RowChange::Ask);
    same(
        &rt,
        2,
        &retry.due_message(3, Mode::Interactive, 200_000),
        &Some(0),
    );
    same(&rt, 3, &retry.due_message(3, Mode::Batch, 0), &Some(0));
    let send = RowChange::Send(200_000, 30_000);
    same(&rt, 4, &changed(&rt, &mut retry, 3, send), &260_000);
    same(
        &rt,
        5,
        &retry.due_message(3, Mode::Interactive, u64::MAX),
        &None,
    );
    let_go(retry);
}

/// Compares whether a message of a contact is due in batch mode at a time, and how many are to be
/// offered then.
fn due(rt: &impl Abort, retry: &Retry, now: u64, message: Option<u32>, offers: usize) {
    same(rt, now, &retry.due_message(4, Mode::Batch, now), &message);
    same(rt, now, &made(rt, retry.due_offers(4, now)).len(), &offers);
}

/// The message that goes before its time to a contact, by a session of this latency.
fn goes_sooner(
    rt: &impl Abort,
    retry: &Retry,
    latency: u32,
    now: u64,
    message: Option<u32>,
    offers: usize,
) {
    same(rt, now, &retry.sooner_message(5, latency, now), &message);
    same(
        rt,
        now,
        &made(rt, retry.sooner_offers(5, latency, now)).len(),
        &offers,
    );
}

#[test]
fn a_quicker_way_is_sooner_where_its_doubled_wait_is_less(rt: HostRuntime) {
    let hasher = made(&rt, RandomState::new(&rt));
    let mut retry = table_of(&rt, rt.alloc(), hasher);
    change(&rt, &mut retry, 5, 0, RowChange::Ready);
    let day = 86_400_000;
    same(
        &rt,
        1,
        &changed(&rt, &mut retry, 5, RowChange::Send(0, day)),
        &172_800_000,
    );
    // behind one try the next waits four ways: from an hour on until two days
    goes_sooner(&rt, &retry, 42_299_999, 3_600_000, Some(0), 1);
    goes_sooner(&rt, &retry, 42_300_000, 3_600_000, None, 0);
    made(&rt, retry.reserve(5, NUMBERS as u32, 0));
    goes_sooner(&rt, &retry, 42_299_999, 3_600_000, Some(0), 1);
    goes_sooner(&rt, &retry, 42_300_000, 3_600_000, None, 0);
    let quick = RowChange::Offer(3_600_000, 1_000);
    same(&rt, 2, &changed(&rt, &mut retry, 5, quick), &3_604_000);
    goes_sooner(&rt, &retry, 1_000, 3_600_000, None, 0);
    // eight of 499 are 3,992 and less than the 4,000 that stand, of 500 they are as many
    goes_sooner(&rt, &retry, 499, 3_600_000, Some(0), 1);
    goes_sooner(&rt, &retry, 500, 3_600_000, None, 0);
    change(&rt, &mut retry, 5, 0, RowChange::Unready);
    goes_sooner(&rt, &retry, 1, 0, None, 0);
    change(&rt, &mut retry, 5, 0, RowChange::Ready);
    goes_sooner(&rt, &retry, 1, 0, Some(0), 1);
    change(&rt, &mut retry, 5, 0, RowChange::See);
    goes_sooner(&rt, &retry, 1, 0, None, 0);
    let_go(retry);
}

#[test]
fn the_greatest_expiry_is_a_time(rt: HostRuntime) {
    let hasher = made(&rt, RandomState::new(&rt));
    let mut retry = table_of(&rt, rt.alloc(), hasher);
    change(&rt, &mut retry, 4, 0, RowChange::Ready);
    let mut expiry = 0;
    for _ in 0..40 {
        expiry = changed(&rt, &mut retry, 4, RowChange::Offer(1, u32::MAX));
    }
    same(&rt, 1, &expiry, &u64::MAX);
    due(&rt, &retry, u64::MAX - 1, None, 0);
    due(&rt, &retry, u64::MAX, Some(0), 1);
    let_go(retry);
}
