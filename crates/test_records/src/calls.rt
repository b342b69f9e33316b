// One stream, by its calls. Its cuts stand in the crate of vectors.

use crate::answers::Seen;
use crate::checks::{made, same};
use record_stream::{Ending, Next, Piece, Reader, Reason};
use std::process::Abort;

const VERSIONS_AND_MORE: &[u8; 9] = b"\x00\x04\x00\x01\x00\x00\x09\x00\x02";

// What a reader answers, at which place, and the length of a payload that is skipped.
type Answer = (Seen, u64, u64);

fn seen(next: &Next) -> Answer {
    match next {
        Next::One(place, _) => (Seen::One, *place, 0),
        Next::Skipped(place, type_byte, len) => (Seen::Skipped(*type_byte), *place, *len),
        Next::More => (Seen::More, 0, 0),
        Next::Bad(place, reason) => (Seen::Bad(*reason), *place, 0),
    }
}

fn check_next(rt: &impl Abort, reader: &mut Reader, want: Answer) {
    same(rt, &seen(&made(rt, reader.next())), &want);
}

#[test]
fn calls_of_a_reader(rt: HostRuntime) {
    let wrong = (Seen::Bad(Reason::WrongVersion), 11, 0);
    let mut reader = made(&rt, Reader::new(rt.alloc()));
    same(&rt, &reader.feed(VERSIONS_AND_MORE), &9);
    check_next(&rt, &mut reader, (Seen::One, 0, 0));
    check_next(&rt, &mut reader, (Seen::More, 0, 0));
    same(&rt, &reader.feed(b"ab\x01"), &3);
    check_next(&rt, &mut reader, (Seen::Skipped(9), 5, 2));
    check_next(&rt, &mut reader, wrong);
    same(&rt, &reader.feed(b"\x00"), &0);
    check_next(&rt, &mut reader, wrong);
}

fn check_item(rt: &impl Abort, reader: &mut Reader, piece: &mut Piece, want: Answer) {
    same(rt, &seen(&made(rt, reader.next_in(piece))), &want);
}

// The piece is read to its end, where the stream would end so.
fn check_end(
    rt: &impl Abort,
    reader: &mut Reader,
    piece: &mut Piece,
    want: Answer,
    ending: Ending,
) {
    let last = made(rt, reader.next_in(piece));
    same(rt, &seen(&last), &want);
    assert!(rt; matches!(last, Next::More | Next::Bad(..)));
    same(rt, &(piece.left().len(), reader.end()), &(0, ending));
}

#[test]
fn reads_on_in_the_middle_of_a_piece(rt: HostRuntime) {
    let mut reader = made(&rt, Reader::new(rt.alloc()));
    let mut piece = Piece::new(VERSIONS_AND_MORE);
    check_item(&rt, &mut reader, &mut piece, (Seen::One, 0, 0));
    let more = (Seen::More, 0, 0);
    check_end(&rt, &mut reader, &mut piece, more, Ending::Inside(5));
    let mut piece = Piece::new(b"ab\x01\x00");
    check_item(&rt, &mut reader, &mut piece, (Seen::Skipped(9), 5, 2));
    let wrong = (Seen::Bad(Reason::WrongVersion), 11, 0);
    let ending = Ending::Bad(11, Reason::WrongVersion);
    check_end(&rt, &mut reader, &mut piece, wrong, ending);
}
