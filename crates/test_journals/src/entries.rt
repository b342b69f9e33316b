// Each kind of entry against bytes that were written by hand, whole and cut at each byte, and the
// borders of every limit.

ghost use Rattle.entry_codec.specs.Spelling.{IsOld, MayBeWritten};

use crate::checks::{made, same};
use crate::fixtures::{definition, list, message};
use entry_codec::{EntryFound, entry_len, read_entry, write_entry};
use std::alloc::Global;
use std::process::Abort;
use sync_ids::{Fixed, GroupId, IdList, MAX_IDS, MessageId, Nonce};
use sync_rules::{Entry, Level, Mode, Out, Session};

const GROUP: GroupId = Fixed(*b"GGGGGGGGGGGGGGGGGGGGGGGGGGGGGGGG");

const ID: MessageId = Fixed(*b"0123456789abcdef0123456789ABCDEF");

// How many bytes the entry takes that the bytes begin with; none where there is no such entry.
fn used_in(rt: &impl Abort, alloc: Global, bytes: &[u8]) -> Option<usize> {
    match made(rt, read_entry(alloc, bytes)) {
        EntryFound::One(_, used) => Some(used),
        EntryFound::BadEntry => None,
    }
}

fn text_of(rt: &impl Abort, alloc: Global, entry: &Entry) -> String {
    made(rt, format!(in alloc; "{entry:?}"))
}

fn check_read(rt: &impl Abort, alloc: Global, bytes: &[u8], entry: &Entry, len: usize) {
    match made(rt, read_entry(alloc, bytes)) {
        EntryFound::One(again, used) => {
            same(rt, &used, &len);
            same(rt, &text_of(rt, alloc, &again), &text_of(rt, alloc, entry));
        }
        EntryFound::BadEntry => panic!(rt; "not read"),
    }
}

fn check_fronts(rt: &impl Abort, alloc: Global, bytes: &[u8]) {
    for cut in 0..bytes.len() {
        same(rt, &(cut, used_in(rt, alloc, &bytes[..cut])), &(cut, None));
    }
}

// The entry is written so, read again whatever follows, and no front of the bytes is read.
fn check(rt: &impl Abort, alloc: Global, entry: Entry, bytes: &[u8])
    requires written { MayBeWritten entry }
    requires old { IsOld entry }
{
    let len = entry_len(&entry);
    let mut written = Vec::new(alloc);
    made(rt, write_entry(&entry, &mut written));
    same(rt, &(len, written.as_slice()), &(bytes.len(), bytes));
    made(rt, written.push(0));
    check_read(rt, alloc, written.as_slice(), &entry, len);
    check_fronts(rt, alloc, bytes);
}

fn session(mode: Mode, nonce: Option<Nonce>) -> Entry
    ensures written { MayBeWritten result }
    ensures old { IsOld result }
{
    Entry::Session(Session {
        number: 0x01020304,
        contact: 7,
        mode,
        latency: 30_000,
        nonce,
    })
}

#[test]
fn what_is_known(rt: HostRuntime) {
    let alloc = rt.alloc();
    check(&rt, alloc, Entry::Contact(0), b"\x01\x00");
    let def = definition(&rt, alloc, "note", 0x0a0b0c0d, b"d");
    let bytes = b"\x02\x04note\x0a\x0b\x0c\x0d\x00\x01d";
    check(&rt, alloc, Entry::Group(def), bytes);
    let level = b"\x03\x05GGGGGGGGGGGGGGGGGGGGGGGGGGGGGGGG\x02";
    check(&rt, alloc, Entry::Level(5, GROUP, Level::Shared), level);
    let batch = b"\x04\x01\x02\x03\x04\x07\x01\x00\x00\x75\x30\x00";
    check(&rt, alloc, session(Mode::Batch, None), batch);
    let dialled = b"\x04\x01\x02\x03\x04\x07\x00\x00\x00\x75\x30\x01abcdefghijklmnop";
    let nonce = Fixed(*b"abcdefghijklmnop");
    check(&rt, alloc, session(Mode::Interactive, Some(nonce)), dialled);
}

#[test]
fn messages_and_steps(rt: HostRuntime) {
    let alloc = rt.alloc();
    let take = b"\x05\x00\x00\x00\x09\x00\x00\x00\x00\x00\x01\x00\x02";
    check(&rt, alloc, Entry::Take(9, 65_538), take);
    let first = message(&rt, alloc, &GROUP, 5, b"x");
    let author = b"\x06GGGGGGGGGGGGGGGGGGGGGGGGGGGGGGGG\x00\x00\x00\x00\x00\x00\x00\x05\x00\x01x";
    check(&rt, alloc, Entry::Author(first), author);
    let second = message(&rt, alloc, &GROUP, 0x7fff_ffff_ffff_fffe, b"hi");
    let arrive =
        b"\x07\x00\x00\x01\x00GGGGGGGGGGGGGGGGGGGGGGGGGGGGGGGG\x7f\xff\xff\xff\xff\xff\xff\xfe\x00\x02hi";
    check(&rt, alloc, Entry::Arrive(256, second), arrive);
    let judged = b"\x080123456789abcdef0123456789ABCDEF";
    check(&rt, alloc, Entry::Judged(ID), judged);
    let deliver = b"\x090123456789abcdef0123456789ABCDEF";
    check(&rt, alloc, Entry::Deliver(ID), deliver);
    let invalid = b"\x0a0123456789abcdef0123456789ABCDEF";
    check(&rt, alloc, Entry::Invalid(ID), invalid);
}

#[test]
fn heard_and_sent(rt: HostRuntime) {
    let alloc = rt.alloc();
    let again = b"\x0b\xff\xfe\xfd\xfc0123456789abcdef0123456789ABCDEF";
    check(&rt, alloc, Entry::Again(0xfffe_fdfc, ID), again);
    let offered = b"\x0c\x00\x00\x00\x010123456789abcdef0123456789ABCDEF";
    check(&rt, alloc, Entry::Offered(1, ID), offered);
    let seen = b"\x0d\x00\x00\x00\x010123456789abcdef0123456789ABCDEF";
    check(&rt, alloc, Entry::Seen(1, ID), seen);
    let asked = b"\x0e\x00\x00\x00\x010123456789abcdef0123456789ABCDEF";
    check(&rt, alloc, Entry::Asked(1, ID), asked);
    let send =
        b"\x0f\x00\x00\x00\x02\x01\x02\x03\x04\x05\x06\x07\x08\x030123456789abcdef0123456789ABCDEF";
    let out = Out::Send(ID);
    check(&rt, alloc, Entry::Out(2, 0x0102_0304_0506_0708, out), send);
}

fn two_ids(rt: &impl Abort, alloc: Global) -> IdList<MAX_IDS> {
    let a = Fixed(*b"AAAAAAAAAAAAAAAAAAAAAAAAAAAAAAAA");
    let b = Fixed(*b"BBBBBBBBBBBBBBBBBBBBBBBBBBBBBBBB");
    list(rt, alloc, &[a, b])
}

#[test]
fn lists_sent(rt: HostRuntime) {
    let alloc = rt.alloc();
    let acks =
        b"\x0f\x00\x00\x00\x02\x00\x00\x00\x00\x00\x00\x03\xe8\x00\x00\x02AAAAAAAAAAAAAAAAAAAAAAAAAAAAAAAABBBBBBBBBBBBBBBBBBBBBBBBBBBBBBBB";
    let out = Out::Acks(two_ids(&rt, alloc));
    check(&rt, alloc, Entry::Out(2, 1000, out), acks);
    let requests =
        b"\x0f\x00\x00\x00\x02\x00\x00\x00\x00\x00\x00\x03\xe8\x01\x00\x02AAAAAAAAAAAAAAAAAAAAAAAAAAAAAAAABBBBBBBBBBBBBBBBBBBBBBBBBBBBBBBB";
    let out = Out::Requests(two_ids(&rt, alloc));
    check(&rt, alloc, Entry::Out(2, 1000, out), requests);
    let offers =
        b"\x0f\x00\x00\x00\x02\x00\x00\x00\x00\x00\x00\x03\xe8\x02\x00\x02AAAAAAAAAAAAAAAAAAAAAAAAAAAAAAAABBBBBBBBBBBBBBBBBBBBBBBBBBBBBBBB";
    let out = Out::Offers(two_ids(&rt, alloc));
    check(&rt, alloc, Entry::Out(2, 1000, out), offers);
}

// How many bytes the entry takes that begins so and goes on with zeros; none where there is no such
// entry.
fn used_of(rt: &impl Abort, alloc: Global, front: &[u8]) -> Option<usize> {
    let zeros = made(rt, vec![in alloc; 0u8; 50_000]);
    let mut bytes = made(rt, Vec::from_slice(alloc, front));
    made(rt, bytes.extend_from_slice(zeros.as_slice()));
    used_in(rt, alloc, bytes.as_slice())
}

// Each limit from both sides. A group, a message and an output are made of their parts.
#[test]
fn borders(rt: HostRuntime) {
    let cases: &[(&[u8], Option<usize>)] = &[
        (b"", None),
        (b"\x10", None),
        (b"\xff", None),
        (b"\x02\x00", None),
        (b"\x02\x01a", Some(9)),
        (b"\x02\x01\xff", None),
        (b"\x02\x02\xc3\xa9", Some(10)),
        (b"\x02\x02\xc3a", None),
        (b"\x02\xff", Some(263)),
        (b"\x02\x01a\x00\x00\x00\x00\x40\x00", Some(16_393)),
        (b"\x02\x01a\x00\x00\x00\x00\x40\x01", None),
        (b"\x03\x00GGGGGGGGGGGGGGGGGGGGGGGGGGGGGGGG\x00", Some(35)),
        (b"\x03\x00GGGGGGGGGGGGGGGGGGGGGGGGGGGGGGGG\x03", None),
        (
            b"\x04\x00\x00\x00\x00\x00\x00\x00\x00\x00\x01\x00",
            Some(12),
        ),
        (b"\x04\x00\x00\x00\x00\x00\x00\x00\x00\x00\x00\x00", None),
        (
            b"\x04\x00\x00\x00\x00\x00\x00\xff\xff\xff\xff\x01",
            Some(28),
        ),
        (b"\x04\x00\x00\x00\x00\x00\x00\x00\x00\x00\x01\x02", None),
        (b"\x04\x00\x00\x00\x00\x00\x02\x00\x00\x00\x01\x00", None),
        (
            b"\x06GGGGGGGGGGGGGGGGGGGGGGGGGGGGGGGG\x7f\xff\xff\xff\xff\xff\xff\xff\x00\x01",
            Some(44),
        ),
        (
            b"\x06GGGGGGGGGGGGGGGGGGGGGGGGGGGGGGGG\x80\x00\x00\x00\x00\x00\x00\x00\x00\x01",
            None,
        ),
        (
            b"\x06GGGGGGGGGGGGGGGGGGGGGGGGGGGGGGGG\x00\x00\x00\x00\x00\x00\x00\x00\x00\x00",
            None,
        ),
        (
            b"\x06GGGGGGGGGGGGGGGGGGGGGGGGGGGGGGGG\x00\x00\x00\x00\x00\x00\x00\x00\x80\x00",
            Some(32_811),
        ),
        (
            b"\x06GGGGGGGGGGGGGGGGGGGGGGGGGGGGGGGG\x00\x00\x00\x00\x00\x00\x00\x00\x80\x01",
            None,
        ),
        (
            b"\x07\x00\x00\x00\x00GGGGGGGGGGGGGGGGGGGGGGGGGGGGGGGG\x80",
            None,
        ),
        (b"\x08", Some(33)),
        (b"\x0b", Some(37)),
        (
            b"\x0f\x00\x00\x00\x00\x00\x00\x00\x00\x00\x00\x00\x00\x00\x00\x00",
            None,
        ),
        (
            b"\x0f\x00\x00\x00\x00\x00\x00\x00\x00\x00\x00\x00\x00\x00\x00\x01",
            Some(48),
        ),
        (
            b"\x0f\x00\x00\x00\x00\x00\x00\x00\x00\x00\x00\x00\x00\x00\x06\x00",
            Some(49_168),
        ),
        (
            b"\x0f\x00\x00\x00\x00\x00\x00\x00\x00\x00\x00\x00\x00\x00\x06\x01",
            None,
        ),
        (
            b"\x0f\x00\x00\x00\x00\x00\x00\x00\x00\x00\x00\x00\x00\x01\x00\x00",
            None,
        ),
        (
            b"\x0f\x00\x00\x00\x00\x00\x00\x00\x00\x00\x00\x00\x00\x01\x06\x01",
            None,
        ),
        (
            b"\x0f\x00\x00\x00\x00\x00\x00\x00\x00\x00\x00\x00\x00\x02\x00\x00",
            None,
        ),
        (
            b"\x0f\x00\x00\x00\x00\x00\x00\x00\x00\x00\x00\x00\x00\x02\x06\x01",
            None,
        ),
        (
            b"\x0f\x00\x00\x00\x00\x00\x00\x00\x00\x00\x00\x00\x00\x03",
            Some(46),
        ),
        (
            b"\x0f\x00\x00\x00\x00\x00\x00\x00\x00\x00\x00\x00\x00\x04",
            None,
        ),
    ];
    for (front, want) in cases {
        let used = used_of(&rt, rt.alloc(), front);
        same(&rt, &(*front, used), &(*front, *want));
    }
}
