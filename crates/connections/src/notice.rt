//! What a node tells without being asked.
ghost use Rattle.std.specs.Prelude.{◌≡◌, ◌++◌, ◌∷◌, ◌+◌, OnOk, IfOk, IfSome, decimal};
ghost use Rattle.connections.specs.Notices.{lines_in, notice_text};

use itoa::Buffer;
use std::alloc::{AllocError, Global};

/// A notice: a line of its word, its number and how many bytes follow, and these.
pub(crate) fn notice_of(
    alloc: Global,
    word: &str,
    number: u32,
    bytes: &[u8],
) -> Result<Vec<u8>, AllocError>
    ensures { IfOk result (λ v. v.items ≡ notice_text word.now number bytes.now) }
{
    let mut notice = Vec::new(alloc);
    notice.extend_from_slice(word.as_bytes())?;
    append_number(number as usize, &mut notice)?;
    append_number(bytes.len(), &mut notice)?;
    notice.extend_from_slice(b"\n")?;
    notice.extend_from_slice(bytes)?;
    Ok(notice)
}

// Appends a space and a number.
fn append_number(number: usize, to: &mut Vec<u8>) -> Result<(), AllocError>
    ensures { OnOk result (to.new.items ≡ to.old.items ++ (32 ∷ decimal number)) }
{
    let mut digits = Buffer::new();
    to.extend_from_slice(b" ")?;
    to.extend_from_slice(digits.format(number).as_bytes())
}

/// How many lines these bytes have.
pub fn lines_in(bytes: &[u8]) -> usize
    ensures { result ≡ lines_in bytes.now }
{
    bytes.iter().filter(|byte| **byte == b'\n').count()
}

// The place so many lines behind another, where there is such a place.
pub(crate) fn place_behind(from: u32, lines: usize) -> Option<u32>
    ensures { IfSome result (λ place. place ≡ from + lines) }
{
    match u32::try_from(lines) {
        Ok(lines) => from.checked_add(lines),
        Err(_) => None,
    }
}
