// Expected answers are those of the protocol's table of records.

use crate::answers::{Seen, answer_to};
use crate::checks::{made, same};
use crate::record_of_zeros;
use record_grammar::{Ending, Item, Reason};
use record_stream::read_pieces;
use std::alloc::Global;
use std::process::Abort;
use sync_ids::Record;

type Answer = (Seen, usize);

// What is answered before the end of a record of this type and length, and at its end.
fn wanted(type_byte: u8, used: usize, want: Option<Reason>) -> (Answer, Answer) {
    let more = (Seen::More, 0);
    match want {
        Some(reason) => ((Seen::Bad(reason), 0), (Seen::Bad(reason), 0)),
        None if type_byte > 5 => (more, (Seen::Skipped(type_byte), used)),
        None => (more, (Seen::One, used)),
    }
}

// What is answered at three bytes, at four, one byte before the end, and at the end.
fn check_length(rt: &impl Abort, alloc: Global, type_byte: u8, len: u16, want: Option<Reason>) {
    let bytes = made(rt, record_of_zeros(alloc, type_byte, len));
    let whole = bytes.as_slice();
    let used = whole.len();
    let (before, at_end) = wanted(type_byte, used, want);
    let at_three = answer_to(rt, alloc, &whole[..3]);
    let answers = (at_three, answer_to(rt, alloc, whole));
    same(
        rt,
        &(type_byte, len, answers),
        &(type_byte, len, ((Seen::More, 0), at_end)),
    );
    if len > 0 {
        let at_four = answer_to(rt, alloc, &whole[..4]);
        let answers = (at_four, answer_to(rt, alloc, &whole[..used - 1]));
        same(
            rt,
            &(type_byte, len, answers),
            &(type_byte, len, (before, before)),
        );
    }
}

fn check_lengths(rt: &impl Abort, alloc: Global, type_byte: u8, rows: &[(u16, Option<Reason>)]) {
    for (len, want) in rows {
        check_length(rt, alloc, type_byte, *len, *want);
    }
}

#[test]
fn lists_of_ids(rt: HostRuntime) {
    let rows = [
        (0, Some(Reason::EmptyIds)),
        (1, Some(Reason::RaggedIds)),
        (31, Some(Reason::RaggedIds)),
        (32, None),
        (33, Some(Reason::RaggedIds)),
        (49_120, None),
        (49_151, Some(Reason::RaggedIds)),
        (49_152, None),
        (49_153, Some(Reason::TooLong)),
        (49_184, Some(Reason::TooLong)),
        (65_535, Some(Reason::TooLong)),
    ];
    for type_byte in [0, 2, 3] {
        check_lengths(&rt, rt.alloc(), type_byte, &rows);
    }
}

#[test]
fn messages(rt: HostRuntime) {
    let rows = [
        (0, Some(Reason::ShortMessage)),
        (40, Some(Reason::ShortMessage)),
        (41, None),
        (32_808, None),
        (32_809, Some(Reason::BodyTooLong)),
        (49_152, Some(Reason::BodyTooLong)),
        (49_153, Some(Reason::TooLong)),
    ];
    check_lengths(&rt, rt.alloc(), 1, &rows);
}

#[test]
fn versions_and_nonces(rt: HostRuntime) {
    let versions = [
        (0, Some(Reason::BadVersions)),
        (1, None),
        (10, None),
        (11, Some(Reason::BadVersions)),
        (49_153, Some(Reason::TooLong)),
    ];
    check_lengths(&rt, rt.alloc(), 4, &versions);
    let nonces = [
        (0, Some(Reason::BadNonce)),
        (15, Some(Reason::BadNonce)),
        (16, None),
        (17, Some(Reason::BadNonce)),
        (49_153, Some(Reason::TooLong)),
    ];
    check_lengths(&rt, rt.alloc(), 5, &nonces);
}

#[test]
fn other_types(rt: HostRuntime) {
    let rows = [
        (0, None),
        (1, None),
        (49_152, None),
        (49_153, Some(Reason::TooLong)),
    ];
    for type_byte in [6, 9, 255] {
        check_lengths(&rt, rt.alloc(), type_byte, &rows);
    }
}

fn check_answers(rt: &impl Abort, alloc: Global, rows: &[(&[u8], Answer)]) {
    for (bytes, want) in rows {
        same(rt, &(*bytes, answer_to(rt, alloc, bytes)), &(*bytes, *want));
    }
}

#[test]
fn versions_of_records(rt: HostRuntime) {
    let wrong = (Seen::Bad(Reason::WrongVersion), 0);
    check_answers(
        &rt,
        rt.alloc(),
        &[
            (b"", (Seen::More, 0)),
            (b"\x00", (Seen::More, 0)),
            (&[1], wrong),
            (&[2], wrong),
            (&[128], wrong),
            (&[255], wrong),
        ],
    );
}

#[test]
fn times(rt: HostRuntime) {
    let greatest =
        b"\x00\x01\x00\x29GGGGGGGGGGGGGGGGGGGGGGGGGGGGGGGG\x7f\xff\xff\xff\xff\xff\xff\xffx";
    let too_great =
        b"\x00\x01\x00\x29GGGGGGGGGGGGGGGGGGGGGGGGGGGGGGGG\x80\x00\x00\x00\x00\x00\x00\x00x";
    check_answers(
        &rt,
        rt.alloc(),
        &[
            (greatest, (Seen::One, 45)),
            (&too_great[..44], (Seen::More, 0)),
            (too_great, (Seen::Bad(Reason::BadTimestamp), 0)),
        ],
    );
}

// A VERSIONS record, a skipped one and a PRIORITY record.
const STREAM: &[u8; 31] =
    b"\x00\x04\x00\x01\x00\x00\x09\x00\x02\xaa\xbb\x00\x05\x00\x10\x00\x01\x02\x03\x04\x05\x06\x07\x08\x09\x0a\x0b\x0c\x0d\x0e\x0f";

// An item by its place, its type and the length of its payload.
fn label(item: &Item) -> (u64, u8, u64) {
    match item {
        Item::One(place, Record::Versions(versions)) => (
            *place,
            4,
            versions.as_slice().len() as u64,
        ),
        Item::One(place, Record::Priority(_)) => (*place, 5, 16),
        Item::One(place, _) => (*place, 0, 0),
        Item::Skipped(place, type_byte, len) => (*place, *type_byte, *len),
    }
}

// How many items a stream is to have, of those of `STREAM`, and how it is to end.
type Course = (usize, Ending);

fn check_stream(rt: &impl Abort, alloc: Global, pieces: &[Vec<u8>], course: Course) {
    let heard = made(rt, read_pieces(alloc, pieces));
    same(rt, &(heard.items.len(), heard.ending), &course);
    for (item, want) in heard.items.iter().zip(&[(0, 4, 1), (5, 9, 2), (11, 5, 16)]) {
        same(rt, &label(item), want);
    }
}

fn check_in_two(rt: &impl Abort, alloc: Global, bytes: &[u8], at: usize, course: Course) {
    let (front, back) = bytes.split_at(at.min(bytes.len()));
    let mut pieces = Vec::new(alloc);
    made(rt, pieces.push(made(rt, front.to_vec(alloc))));
    made(rt, pieces.push(made(rt, back.to_vec(alloc))));
    check_stream(rt, alloc, pieces.as_slice(), course);
}

fn check_by_bytes(rt: &impl Abort, alloc: Global, bytes: &[u8], course: Course) {
    let mut pieces = Vec::new(alloc);
    for byte in bytes {
        made(rt, pieces.push(made(rt, [*byte].to_vec(alloc))));
    }
    check_stream(rt, alloc, pieces.as_slice(), course);
}

#[test]
fn a_stream_in_every_cut(rt: HostRuntime) {
    for at in 0..32 {
        check_in_two(&rt, rt.alloc(), STREAM, at, (3, Ending::Clean));
    }
    check_by_bytes(&rt, rt.alloc(), STREAM, (3, Ending::Clean));
}

// How many items a front of the stream has, and how it ends.
fn front_of_stream(len: usize) -> Course {
    match len {
        0 => (0, Ending::Clean),
        1..=4 => (0, Ending::Inside(0)),
        5 => (1, Ending::Clean),
        6..=10 => (1, Ending::Inside(5)),
        11 => (2, Ending::Clean),
        12..=30 => (2, Ending::Inside(11)),
        _ => (3, Ending::Clean),
    }
}

#[test]
fn each_front_of_a_stream(rt: HostRuntime) {
    for len in 0..32 {
        check_by_bytes(&rt, rt.alloc(), &STREAM[..len], front_of_stream(len));
    }
}

#[test]
fn a_stream_that_goes_wrong(rt: HostRuntime) {
    let mut bytes = made(&rt, STREAM.to_vec(rt.alloc()));
    made(&rt, bytes.extend_from_slice(&[1, 0]));
    for at in 0..34 {
        let ending = Ending::Bad(31, Reason::WrongVersion);
        check_in_two(&rt, rt.alloc(), bytes.as_slice(), at, (3, ending));
    }
    let ending = Ending::Bad(0, Reason::WrongVersion);
    check_by_bytes(&rt, rt.alloc(), b"\x01", (0, ending));
}
