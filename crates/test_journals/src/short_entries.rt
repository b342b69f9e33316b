// Entries in format 2 against bytes that were written by hand, where two messages are held: whole,
// cut at each byte, with a number that names no message, and beside format 1.

ghost use Rattle.std.specs.Prelude.{◌≡◌, true};
ghost use Rattle.sync_rules.specs.Lists.{is_among};
ghost use Rattle.entry_codec.specs.Spelling.{IsOld};
ghost use Rattle.entry_codec.specs.Spelling.{EntryNames, MayBeWritten};

use crate::checks::{made, same};
use crate::fixtures::{definition, list, message};
use crate::two_names::TwoNames;
use entry_codec::{
    EntryFound, entry_len, group_len, kept_len, read_entry, read_short, short_len, write_group,
    write_kept, write_short,
};
use std::alloc::Global;
use std::process::Abort;
use sync_ids::{Fixed, GroupId, MessageId};
use sync_rules::{Entry, Origin, Out, Tried};

const FIRST: MessageId = Fixed(*b"AAAAAAAAAAAAAAAAAAAAAAAAAAAAAAAA");

const SECOND: MessageId = Fixed(*b"BBBBBBBBBBBBBBBBBBBBBBBBBBBBBBBB");

const OTHER: MessageId = Fixed(*b"0123456789abcdef0123456789ABCDEF");

const GROUP: GroupId = Fixed(*b"GGGGGGGGGGGGGGGGGGGGGGGGGGGGGGGG");

// How many bytes the entry takes that the bytes begin with; none where there is no such entry.
fn used_in(rt: &impl Abort, alloc: Global, names: &TwoNames, bytes: &[u8]) -> Option<usize> {
    match made(rt, read_short(alloc, bytes, names)) {
        EntryFound::One(_, used) => Some(used),
        EntryFound::BadEntry => None,
    }
}

fn text_of(rt: &impl Abort, alloc: Global, entry: &Entry) -> String {
    made(rt, format!(in alloc; "{entry:?}"))
}

// The entry is read of these bytes, of which it takes all, and of no front of them; in format 1 it
// has so many bytes.
fn check(rt: &impl Abort, alloc: Global, entry: Entry, bytes: &[u8], whole: usize)
    requires { IsOld entry }
{
    same(rt, &entry_len(&entry), &whole);
    check_short(rt, alloc, entry, bytes);
}

// The same of an entry of any kind, in format 2 alone.
fn check_short(rt: &impl Abort, alloc: Global, entry: Entry, bytes: &[u8]) {
    let names = made(rt, TwoNames::new(FIRST, SECOND));
    same(rt, &short_len(&entry), &bytes.len());
    match made(rt, read_short(alloc, bytes, &names)) {
        EntryFound::One(again, used) => {
            same(rt, &used, &bytes.len());
            same(rt, &text_of(rt, alloc, &again), &text_of(rt, alloc, &entry));
        }
        EntryFound::BadEntry => panic!(rt; "not read"),
    }
    for cut in 0..bytes.len() {
        same(
            rt,
            &(cut, used_in(rt, alloc, &names, &bytes[..cut])),
            &(cut, None),
        );
    }
}

#[test]
fn steps_and_marks(rt: HostRuntime) {
    let alloc = rt.alloc();
    check(&rt, alloc, Entry::Contact(7), b"\x01\x07", 2);
    check(
        &rt,
        alloc,
        Entry::Judged(FIRST),
        b"\x08\x00\x00\x00\x00",
        33,
    );
    check(
        &rt,
        alloc,
        Entry::Deliver(SECOND),
        b"\x09\x00\x00\x00\x01",
        33,
    );
    check(
        &rt,
        alloc,
        Entry::Invalid(FIRST),
        b"\x0a\x00\x00\x00\x00",
        33,
    );
    let again = b"\x0b\xff\xfe\xfd\xfc\x00\x00\x00\x01";
    check(&rt, alloc, Entry::Again(0xfffe_fdfc, SECOND), again, 37);
    let offered = b"\x0c\x00\x00\x00\x030123456789abcdef0123456789ABCDEF";
    check(&rt, alloc, Entry::Offered(3, OTHER), offered, 37);
    let seen = b"\x0d\x00\x00\x00\x03\x00\x00\x00\x01";
    check(&rt, alloc, Entry::Seen(3, SECOND), seen, 37);
    let asked = b"\x0e\x00\x00\x00\x03\x00\x00\x00\x00";
    check(&rt, alloc, Entry::Asked(3, FIRST), asked, 37);
}

#[test]
fn outputs(rt: HostRuntime) {
    let alloc = rt.alloc();
    let acks =
        b"\x0f\x00\x00\x00\x02\x00\x00\x00\x00\x00\x00\x03\xe8\x00\x00\x02\x00\x00\x00\x01\x00\x00\x00\x00";
    let out = Out::Acks(list(&rt, alloc, &[SECOND, FIRST]));
    check(&rt, alloc, Entry::Out(2, 1000, out), acks, 80);
    let requests =
        b"\x0f\x00\x00\x00\x02\x00\x00\x00\x00\x00\x00\x03\xe8\x01\x00\x010123456789abcdef0123456789ABCDEF";
    let out = Out::Requests(list(&rt, alloc, &[OTHER]));
    check(&rt, alloc, Entry::Out(2, 1000, out), requests, 48);
    let offers =
        b"\x0f\x00\x00\x00\x02\x00\x00\x00\x00\x00\x00\x03\xe8\x02\x00\x01\x00\x00\x00\x01";
    let out = Out::Offers(list(&rt, alloc, &[SECOND]));
    check(&rt, alloc, Entry::Out(2, 1000, out), offers, 48);
    let send = b"\x0f\x00\x00\x00\x02\x00\x00\x00\x00\x00\x00\x03\xe8\x03\x00\x00\x00\x01";
    check(&rt, alloc, Entry::Out(2, 1000, Out::Send(SECOND)), send, 46);
}

// A number that is not below the number of held messages is no spelling.
#[test]
fn numbers_of_none(rt: HostRuntime) {
    let names = made(&rt, TwoNames::new(FIRST, SECOND));
    let cases: &[(&[u8], Option<usize>)] = &[
        (b"\x08\x00\x00\x00\x01", Some(5)),
        (b"\x08\x00\x00\x00\x02", None),
        (b"\x09\xff\xff\xff\xff", None),
        (b"\x0b\x00\x00\x00\x00\x00\x00\x00\x02", None),
        (
            b"\x0f\x00\x00\x00\x00\x00\x00\x00\x00\x00\x00\x00\x00\x00\x00\x02\x00\x00\x00\x00\x00\x00\x00\x02",
            None,
        ),
        (
            b"\x0f\x00\x00\x00\x00\x00\x00\x00\x00\x00\x00\x00\x00\x02\x00\x00",
            None,
        ),
        (
            b"\x0f\x00\x00\x00\x00\x00\x00\x00\x00\x00\x00\x00\x00\x03\x00\x00\x01\x00",
            None,
        ),
    ];
    for (bytes, want) in cases {
        let used = used_in(&rt, rt.alloc(), &names, bytes);
        same(&rt, &(*bytes, used), &(*bytes, *want));
    }
}

fn check_written(rt: &impl Abort, alloc: Global, names: &TwoNames, entry: &Entry, bytes: &[u8])
    requires written { MayBeWritten entry.now }
    requires named { EntryNames (λ id. is_among names.now id ≡ true) entry.now }
{
    let mut written = Vec::new(alloc);
    made(rt, write_short(entry, names, &mut written));
    same(rt, &written.as_slice(), &bytes);
}

#[test]
fn written(rt: HostRuntime) {
    let alloc = rt.alloc();
    let names = made(&rt, TwoNames::new(FIRST, SECOND));
    let second = names.second();
    let judged = Entry::Judged(second);
    check_written(&rt, alloc, &names, &judged, b"\x08\x00\x00\x00\x01");
    let seen = Entry::Seen(3, second);
    check_written(
        &rt,
        alloc,
        &names,
        &seen,
        b"\x0d\x00\x00\x00\x03\x00\x00\x00\x01",
    );
    let offered = Entry::Offered(3, OTHER);
    let bytes = b"\x0c\x00\x00\x00\x030123456789abcdef0123456789ABCDEF";
    check_written(&rt, alloc, &names, &offered, bytes);
    let send = Entry::Out(2, 1000, Out::Send(second));
    let bytes = b"\x0f\x00\x00\x00\x02\x00\x00\x00\x00\x00\x00\x03\xe8\x03\x00\x00\x00\x01";
    check_written(&rt, alloc, &names, &send, bytes);
}

const KEPT: &[u8] =
    b"\x11\x00\x00GGGGGGGGGGGGGGGGGGGGGGGGGGGGGGGG\x00\x00\x00\x00\x00\x00\x00\x05\x00\x01x";

const KEPT_FROM: &[u8] =
    b"\x11\x01\x07GGGGGGGGGGGGGGGGGGGGGGGGGGGGGGGG\x7f\xff\xff\xff\xff\xff\xff\xfe\x00\x02hi";

// A row of the second message for contact 7: seen and asked, tried three times.
const ROW: Tried = Tried {
    contact: 7,
    id: SECOND,
    seen: true,
    owed: false,
    asked: true,
    tries: 3,
    expiry: 0x0102_0304_0506_0708,
};

const TRIED: &[u8] = b"\x12\x07\x00\x00\x00\x01\x05\x03\x01\x02\x03\x04\x05\x06\x07\x08";

const WANT: &[u8] = b"\x13\x070123456789abcdef0123456789ABCDEF";

#[test]
fn of_a_brief_account(rt: HostRuntime) {
    let alloc = rt.alloc();
    check_short(
        &rt,
        alloc,
        Entry::Brief(0x0102_0304),
        b"\x10\x01\x02\x03\x04",
    );
    let first = message(&rt, alloc, &GROUP, 5, b"x");
    check_short(&rt, alloc, Entry::Kept(Origin::Author, first), KEPT);
    let second = message(&rt, alloc, &GROUP, 0x7fff_ffff_ffff_fffe, b"hi");
    check_short(&rt, alloc, Entry::Kept(Origin::From(7), second), KEPT_FROM);
    check_short(&rt, alloc, Entry::Tried(ROW), TRIED);
    check_short(&rt, alloc, Entry::Want(7, OTHER), WANT);
    for bytes in &[b"\x10\x01\x02\x03\x04", KEPT, KEPT_FROM, TRIED, WANT] {
        match made(&rt, read_entry(alloc, bytes)) {
            EntryFound::BadEntry => {}
            EntryFound::One(_, _) => panic!(&rt; "read in format 1"),
        }
    }
}

// A message written here that names a contact, another flag, and rows that are empty, of no held
// message, with a further flag, too many tries, or a wait without a try.
#[test]
fn of_no_brief_account(rt: HostRuntime) {
    let names = made(&rt, TwoNames::new(FIRST, SECOND));
    let cases: &[(&[u8], Option<usize>)] = &[
        (
            b"\x11\x00\x01GGGGGGGGGGGGGGGGGGGGGGGGGGGGGGGG\x00\x00\x00\x00\x00\x00\x00\x05\x00\x01x",
            None,
        ),
        (
            b"\x11\x02\x00GGGGGGGGGGGGGGGGGGGGGGGGGGGGGGGG\x00\x00\x00\x00\x00\x00\x00\x05\x00\x01x",
            None,
        ),
        (
            b"\x12\x07\x00\x00\x00\x01\x00\x40\xff\xff\xff\xff\xff\xff\xff\xff",
            Some(16),
        ),
        (
            b"\x12\x07\x00\x00\x00\x01\x02\x01\x00\x00\x00\x00\x00\x00\x00\x00",
            Some(16),
        ),
        (
            b"\x12\x07\x00\x00\x00\x01\x07\x00\x00\x00\x00\x00\x00\x00\x00\x00",
            Some(16),
        ),
        (
            b"\x12\x07\x00\x00\x00\x01\x00\x00\x00\x00\x00\x00\x00\x00\x00\x00",
            None,
        ),
        (
            b"\x12\x07\x00\x00\x00\x02\x01\x00\x00\x00\x00\x00\x00\x00\x00\x00",
            None,
        ),
        (
            b"\x12\x07\x00\x00\x00\x01\x08\x01\x00\x00\x00\x00\x00\x00\x00\x00",
            None,
        ),
        (
            b"\x12\x07\x00\x00\x00\x01\x01\x41\x00\x00\x00\x00\x00\x00\x00\x00",
            None,
        ),
        (
            b"\x12\x07\x00\x00\x00\x01\x01\x00\x00\x00\x00\x00\x00\x00\x00\x01",
            None,
        ),
        (b"\x14\x00", None),
    ];
    for (bytes, want) in cases {
        let used = used_in(&rt, rt.alloc(), &names, bytes);
        same(&rt, &(*bytes, used), &(*bytes, *want));
    }
}

#[test]
fn an_account_is_written(rt: HostRuntime) {
    let alloc = rt.alloc();
    let names = made(&rt, TwoNames::new(FIRST, SECOND));
    let kept = Entry::Kept(
        Origin::From(7),
        message(&rt, alloc, &GROUP, 0x7fff_ffff_ffff_fffe, b"hi"),
    );
    check_written(&rt, alloc, &names, &kept, KEPT_FROM);
    let row = Tried {
        id: names.second(),
        ..ROW
    };
    check_written(&rt, alloc, &names, &Entry::Tried(row), TRIED);
    check_written(&rt, alloc, &names, &Entry::Want(7, OTHER), WANT);
}

// Two kinds that are written of what they hold.
#[test]
fn parts_are_written(rt: HostRuntime) {
    let alloc = rt.alloc();
    let held = message(&rt, alloc, &GROUP, 0x7fff_ffff_ffff_fffe, b"hi");
    let mut written = Vec::new(alloc);
    made(&rt, write_kept(Origin::From(7), &held, &mut written));
    same(
        &rt,
        &(kept_len(&held), written.as_slice()),
        &(KEPT_FROM.len(), KEPT_FROM),
    );
    let def = definition(&rt, alloc, "note", 2, b"d");
    let group: &[u8] = b"\x02\x04note\x00\x00\x00\x02\x00\x01d";
    let mut written = Vec::new(alloc);
    made(&rt, write_group(&def, &mut written));
    same(
        &rt,
        &(group_len(&def), written.as_slice()),
        &(group.len(), group),
    );
}
