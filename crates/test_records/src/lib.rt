//! Tables of cases for the formats: every length border of every type, each refusal at its point,
//! and a stream in every cut. The tables stand in the tests.
#![tactic(auto)]

ghost use Rattle.std.specs.Prelude.{◌≡◌, ◌+◌, ◌++◌, vec_len, IfOk, replicate};
ghost use Rattle.record_grammar.specs.Spelling.{header};

use std::alloc::{AllocError, Global};

/// The bytes of a record of this type whose payload is so many zeros. It fails only for want of
/// memory.
pub fn record_of_zeros(alloc: Global, type_byte: u8, len: u16) -> Result<Vec<u8>, AllocError>
    ensures items { IfOk result (λ bytes. bytes.items ≡ header type_byte len ++ replicate len 0) }
    ensures len { IfOk result (λ bytes. vec_len bytes ≡ 4 + len) }
{
    let [high, low] = len.to_be_bytes();
    let mut bytes = vec![in alloc; 0, type_byte, high, low]?;
    let payload = vec![in alloc; 0u8; len as usize]?;
    bytes.extend_from_slice(payload.as_slice())?;
    Ok(bytes)
}

#[cfg(test)]
mod answers;
#[cfg(test)]
mod calls;
#[cfg(test)]
mod checks;
#[cfg(test)]
mod digests;
#[cfg(test)]
mod spellings;
#[cfg(test)]
mod tests;
#[cfg(test)]
mod values;
