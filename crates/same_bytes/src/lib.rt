//! Whether two names of 32 bytes are the same, by words of eight bytes: the comparison of two arrays
//! goes over them in a loop.
#![tactic(auto)]

ghost use Rattle.std.specs.Prelude.{◌≡◌, ◌+◌, ◌≤◌, nat_eq, take, drop};
ghost use Rattle.std.specs.Int.{w64, from_le_bytes};
ghost use Rattle.std.specs.Cmp.Lexicographic.{pointwise};

/// The eight bytes from a place on, as a number.
#[inline(always)]
fn word_at(bytes: &[u8; 32], at: usize) -> u64
    requires { at + 8 ≤ 32 }
    ensures { result ≡ from_le_bytes w64 (take 8 (drop at bytes.now)) }
{
    u64::from_le_bytes([
        bytes[at],
        bytes[at + 1],
        bytes[at + 2],
        bytes[at + 3],
        bytes[at + 4],
        bytes[at + 5],
        bytes[at + 6],
        bytes[at + 7],
    ])
}

/// Whether two names are the same, byte by byte.
#[inline(always)]
pub fn same_bytes(a: &[u8; 32], b: &[u8; 32]) -> bool
    ensures { result ≡ pointwise nat_eq a.now b.now }
{
    if word_at(a, 0) != word_at(b, 0) {
        return false;
    }
    if word_at(a, 8) != word_at(b, 8) {
        return false;
    }
    if word_at(a, 16) != word_at(b, 16) {
        return false;
    }
    word_at(a, 24) == word_at(b, 24)
}
