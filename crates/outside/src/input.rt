//! Reading an input whole.
ghost use Rattle.std.specs.Prelude.{◌≡◌, ℕ, ◌+◌, ◌^◌, ◌<◌, ◌-◌, ◌≤◌, [], length, take, drop};
ghost use Rattle.std.specs.Prelude.{vec_len, IfOk, OnErr, IsErrOf};
ghost use Rattle.std.specs.Io.KnownBytes.{ReadConsumes};
ghost use Rattle.outside.specs.declared.input.InputFault.TheVariants.{Memory};
ghost use Rattle.outside.specs.Faults.{HasCause, CountRose};
ghost use Rattle.outside.specs.Input.{ReadsInput};

use crate::{Failed, Source};
use std::alloc::AllocError;

// How many bytes a read asks for at most.
const PIECE: usize = 65_536;

/// Why an input was not read to its end.
#[derive(Clone, Copy, Debug, PartialEq, Eq)]
pub enum InputFault {
    /// No memory was found.
    Memory,
    /// A read failed.
    ReadFault,
    /// The input is longer than the limit.
    TooMuch,
}

impl From<AllocError> for InputFault {
    ghost from_gives = { λ _ e. e ≡ Memory };

    fn from(_: AllocError) -> InputFault {
        InputFault::Memory
    }
}

/// Reads `input` to its end into `to`, which begins empty. `TooMuch` comes exactly where `limit +
/// 1` bytes were read; `to` has the first `limit` of them then, and in each other case all bytes
/// read.
pub fn read_input<S: Source>(input: &mut S, limit: u64, to: &mut Vec<u8>) -> Result<(), InputFault>
    requires empty { to.old.items ≡ [] }
    requires limit { limit < 2 ^ 32 }
    ensures reads { ReadsInput limit (S.tells input.old) (S.tells input.new) to.new.items
        result }
    ensures later { (S.tells input.old).faults ≤ (S.tells input.new).faults }
    ensures fault { IsErrOf result InputFault.ReadFault
        → CountRose (S.tells input.old).faults (S.tells input.new).faults }
{
    let most = limit as usize;
    'pieces: loop {
        let had = to.len();
        to.resize(had + PIECE.min(most + 1 - had), 0)?;
        match read_behind(input, to, had) {
            Ok(0) => {
                to.truncate(had);
                return Ok(());
            }
            Ok(n) if had + n > most => {
                to.truncate(most);
                return Err(InputFault::TooMuch);
            }
            Ok(n) => to.truncate(had + n),
            Err(_) => {
                to.truncate(had);
                return Err(InputFault::ReadFault);
            }
        }
    }
}

// Reads into the places of `to` from `from` on.
fn read_behind<S: Source>(input: &mut S, to: &mut Vec<u8>, from: usize) -> Result<usize, Failed>
    requires { from ≤ vec_len to.old }
    ensures len { vec_len to.new ≡ vec_len to.old }
    ensures front { take from to.new.items ≡ take from to.old.items }
    ensures bound { IfOk result (λ n. n ≤ vec_len to.old - from) }
    ensures bytes { ReadConsumes (S.tells input.old).bytes (S.tells input.new).bytes result
        (drop from to.new.items) }
    ensures cause { HasCause (S.tells input.old).faults (S.tells input.new).faults result }
{
    input.read(&mut to.as_mut_slice()[from..])
}
