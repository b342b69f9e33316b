//! The words of the command line, for the programs of this repository, and of what else comes as bytes.
#![tactic(auto)]

ghost use Rattle.std.specs.Prelude.{◌<◌, length, IfOk};
ghost use Rattle.std.specs.String.{string_bytes};
ghost use Rattle.arguments.specs.Arguments.{IsWordOf};

use std::alloc::{AllocError, Global};
use std::env::FillError;
use std::rt::Env;
use sync_ids::MAX_DESCRIPTOR;

// The most bytes of one argument that the system hands on.
const MAX_ARGUMENT: usize = 131_072;

// More bytes than any word of a command has: such a word is wrong wherever it stands.
const NOT_A_WORD: usize = MAX_DESCRIPTOR + 1;

/// The words after the program's name. An argument that is not text is handed on as a word that is
/// wrong wherever it stands. It fails only for want of memory.
pub fn words<R: Env>(rt: &R, alloc: Global) -> Result<Vec<String>, AllocError> {
    let mut buf = vec![in alloc; 0u8; MAX_ARGUMENT]?;
    let mut words = Vec::new(alloc);
    for i in 1..usize::MAX {
        match rt.arg(i, buf.as_mut_slice()) {
            Ok(n) => words.push(word(alloc, &buf.as_slice()[..n])?)?,
            Err(FillError::TooLong) => words.push(not_a_word(alloc)?)?,
            Err(FillError::NotPresent) => break,
        }
    }
    Ok(words)
}

/// The word that these bytes are handed on as: themselves, where they are text, and else a word that
/// is wrong wherever it stands. It fails only for want of memory.
pub fn word(alloc: Global, bytes: &[u8]) -> Result<String, AllocError>
    ensures { IfOk result (λ word. IsWordOf bytes.now (string_bytes word)) }
{
    match str::from_utf8(bytes) {
        Ok(text) => String::from_str(alloc, text),
        Err(_) => not_a_word(alloc),
    }
}

fn not_a_word(alloc: Global) -> Result<String, AllocError>
    ensures { IfOk result (λ word. MAX_DESCRIPTOR < length (string_bytes word)) }
{
    "x".repeat(alloc, NOT_A_WORD)
}
