// Heads and answers as they are worked out in the page on formats, and a stream in every cut.
ghost use Rattle.std.specs.Prelude.{◌≡◌, ◌≤◌, Ok, length};

use crate::{
    Ending, FoundHead, HEAD_LEN, Head, InputSize, Next, Reader, answer_line, append_head, head_of,
};
use std::alloc::Global;
use std::fmt::Debug;
use std::process::Abort;

// The value is the one that is wanted. In a table it stands beside what its row is known by.
fn same<T: PartialEq + Debug>(rt: &impl Abort, got: &T, want: &T) {
    assert_eq!(rt; *got, *want);
}

// What was made, which fails only where memory is short.
fn made<T, E: Debug + Drop>(rt: &impl Abort, outcome: Result<T, E>) -> T
    ensures { outcome ≡ Ok result }
{
    outcome.expect(rt, "it is made")
}

fn whole(words: usize, input: InputSize, used: usize) -> FoundHead {
    FoundHead::Whole(Head { words, input }, used)
}

fn check_heads(rt: &impl Abort, rows: &[(&[u8], FoundHead)]) {
    for (bytes, want) in rows {
        same(rt, &(*bytes, head_of(bytes)), &(*bytes, *want));
    }
}

#[test]
fn heads(rt: HostRuntime) {
    let most = InputSize::Bytes(268_435_456);
    let rows: &[(&[u8], FoundHead)] = &[
        (b"5 0\nshow\x00", whole(5, InputSize::Bytes(0), 4)),
        (b"72 5\n", whole(72, InputSize::Bytes(5), 5)),
        (b"0 failed\n", whole(0, InputSize::Failed, 9)),
        (b"0 long\n", whole(0, InputSize::Long, 7)),
        (b"32768 268435456\n", whole(32_768, most, HEAD_LEN)),
        (b"32768 268435456", FoundHead::More),
        (b"32768 268435456 \n", FoundHead::Fault),
        (b"32768 268435456 ", FoundHead::Fault),
        (b"32769 0\n", FoundHead::Fault),
        (b"0 268435457\n", FoundHead::Fault),
        (b"05 0\n", FoundHead::Fault),
        (b"5 00\n", FoundHead::Fault),
    ];
    check_heads(&rt, rows);
}

#[test]
fn spellings(rt: HostRuntime) {
    let mut text = Vec::new(rt.alloc());
    for (words, input) in &[
        (5, InputSize::Bytes(0)),
        (72, InputSize::Bytes(5)),
        (0, InputSize::Failed),
        (0, InputSize::Long),
    ] {
        let head = Head {
            words: *words,
            input: *input,
        };
        made(&rt, append_head(&head, &mut text));
    }
    let want = b"5 0\n72 5\n0 failed\n0 long\n".as_slice();
    same(&rt, &text.as_slice(), &want);
}

#[test]
fn answer_lines(rt: HostRuntime) {
    for (status, out, error, want) in &[
        (0, 72, 0, "0 72 0\n"),
        (4, 0, 23, "4 0 23\n"),
        (1, 0, 18, "1 0 18\n"),
        (12, 0, 14, "12 0 14\n"),
        (
            255,
            usize::MAX,
            usize::MAX,
            "255 18446744073709551615 18446744073709551615\n",
        ),
    ] {
        same(&rt, &answer_line(*status, *out, *error).as_str(), want);
    }
}

// Two requests, the second with an input of five bytes.
static STREAM: [u8; 91] = *b"5 0\nshow\x0072 5\npost\x000123456789abcdef0123456789abcdef\
0123456789abcdef0123456789abcdef\x001\x00hello";

// Hears on, keeps three bytes of an input at most, and spells what is told: how many bytes were
// taken, and how the stream ends where nothing more is told.
fn hear_once(
    rt: &impl Abort,
    reader: &mut Reader,
    piece: &[u8],
    told: &mut Vec<u8>,
) -> (usize, Option<Ending>)
    ensures { result.0 ≤ length piece.now }
{
    let heard = reader.hear(piece);
    let ending = match heard.next {
        Next::Words => {
            if let Some(input) = reader.input_size() {
                let words = reader.words().len();
                made(rt, append_head(&Head { words, input }, told));
            }
            made(rt, told.extend_from_slice(reader.words()));
            made(rt, reader.keep(3));
            None
        }
        Next::Whole => {
            made(rt, told.extend_from_slice(reader.kept()));
            None
        }
        Next::More => Some(reader.end()),
        Next::Fault => Some(Ending::Fault),
    };
    (heard.used, ending)
}

// Hears a piece whole, which tells of two requests at most: how the stream ends behind it.
fn hear_all(
    rt: &impl Abort,
    reader: &mut Reader,
    piece: &[u8],
    told: &mut Vec<u8>,
) -> Option<Ending> {
    let mut left = piece;
    for _ in 0..5 {
        let (used, ending) = hear_once(rt, reader, left, told);
        left = &left[used..];
        if ending.is_some() {
            return ending;
        }
    }
    None
}

fn check_cut(rt: &impl Abort, alloc: Global, cut: usize, first: &[u8], second: &[u8]) {
    let mut reader = made(rt, Reader::new(alloc));
    let mut told = Vec::new(alloc);
    let at_cut = hear_all(rt, &mut reader, first, &mut told);
    let at_end = hear_all(rt, &mut reader, second, &mut told);
    let want = match cut {
        0 | 9 | 91 => Ending::Clean,
        _ => Ending::Inside,
    };
    same(
        rt,
        &(cut, at_cut, at_end),
        &(cut, Some(want), Some(Ending::Clean)),
    );
    same(rt, &(cut, told.as_slice()), &(cut, &STREAM[..89]));
}

#[test]
fn two_requests_in_every_cut(rt: HostRuntime) {
    for cut in 0..92 {
        let (first, second) = STREAM.split_at(cut);
        check_cut(&rt, rt.alloc(), cut, first, second);
    }
}
