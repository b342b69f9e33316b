// The input of a command, heard in pieces.
ghost use Rattle.std.specs.Prelude.{◌≡◌, ◌≤◌, IfOk, length};
ghost use Rattle.std.specs.Io.KnownBytes.{ReadConsumes};
ghost use Rattle.outside.specs.Faults.{HasCause};
ghost use Rattle.record_grammar.specs.Stream.{IsRest, ending};
ghost use Rattle.stream_commands.specs.Input.{HearsInput};

use outside::{Failed, Source};
use record_stream::{Ending, Listener, Reader, hear_piece, readings_are_whole, readings_join};
use std::alloc::{AllocError, Global};

/// The most that is read of an input, in bytes.
pub const MAX_INPUT: usize = 268_435_456;

// How many bytes a read asks for at most.
const PIECE: usize = 65_536;

/// Why the reading of an input stopped.
#[derive(Clone, Copy, Debug, PartialEq, Eq)]
pub enum Stop {
    /// At its end.
    End,
    /// A read failed.
    ReadFault,
    /// One byte more than the limit was read.
    TooMuch,
}

/// How an input was heard: why the reading stopped, and how the stream of what was heard ends.
#[derive(Clone, Copy)]
pub struct Heard {
    pub stop: Stop,
    pub ending: Ending,
}

/// Reads the input to its end, at most 268,435,456 bytes and one more, and hands all items of the
/// first 268,435,456 bytes to the listener. It fails only for want of memory.
pub fn hear_input<S: Source, L: Listener>(
    alloc: Global,
    input: &mut S,
    listener: &mut L,
) -> Result<Heard, AllocError>
    ensures { IfOk result (λ h. HearsInput L.heard (S.tells input.old) (S.tells input.new)
        listener.old listener.new h.stop h.ending) }
{
    readings_join();
    readings_are_whole();
    let mut reader = Reader::new(alloc)?;
    let mut buf = zeros(alloc, PIECE)?;
    let mut total = 0;
    'pieces: loop {
        buf.truncate(PIECE.min(MAX_INPUT + 1 - total));
        let n = match read_piece(input, &mut buf) {
            Ok(n) => n,
            Err(_) => return Ok(stopped(&reader, Stop::ReadFault)),
        };
        if n == 0 {
            return Ok(stopped(&reader, Stop::End));
        }
        let wanted = n.min(MAX_INPUT - total);
        hear_piece(alloc, &mut reader, &buf.as_slice()[..wanted], listener)?;
        if wanted < n {
            return Ok(stopped(&reader, Stop::TooMuch));
        }
        total += n;
    }
}

// Room for a piece.
fn zeros(alloc: Global, len: usize) -> Result<Vec<u8>, AllocError>
    ensures { IfOk result (λ v. length v.items ≡ len) }
{
    vec![in alloc; 0u8; len]
}

// One read into the buffer.
fn read_piece<S: Source>(input: &mut S, buf: &mut Vec<u8>) -> Result<usize, Failed>
    ensures len { length buf.new.items ≡ length buf.old.items }
    ensures bound { IfOk result (λ n. n ≤ length buf.new.items) }
    ensures bytes { ReadConsumes (S.tells input.old).bytes (S.tells input.new).bytes result
        buf.new.items }
    ensures cause { HasCause (S.tells input.old).faults (S.tells input.new).faults result }
{
    input.read(buf.as_mut_slice())
}

// The reading stopped here.
fn stopped(reader: &Reader, stop: Stop) -> Heard
    requires { IsRest reader.now.bytes }
    ensures stop { result.stop ≡ stop }
    ensures ending { result.ending ≡ ending reader.now.place reader.now.bytes }
{
    Heard {
        stop,
        ending: reader.end(),
    }
}
