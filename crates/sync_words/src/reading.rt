//! What single words stand for.
ghost use Rattle.std.specs.Prelude.{◌≡◌, ◌≤◌, IfSome};
ghost use Rattle.std.specs.Char.{is_ascii_digit};
ghost use Rattle.std.specs.List.{list_all};
ghost use Rattle.sync_words.specs.Words.{number_in, positive_in, id_in, level_in, mode_in};
ghost use Rattle.sync_words.specs.Words.{is_digits, is_number, has_leading_zero};

use sync_ids::Fixed;
use sync_rules::{Level, Mode};

/// The number that a word spells, if it is one from 1 to `most`.
pub fn positive(word: &str, most: u64) -> Option<u64>
    ensures value { result ≡ positive_in most word.now }
    ensures least { IfSome result (λ n. 1 ≤ n) }
    ensures most { IfSome result (λ n. n ≤ most) }
{
    match number(word, most) {
        Some(n) => (n > 0).then_some(n),
        None => None,
    }
}

/// The number that a word spells, if it is one: `0`, or decimal digits without a leading zero, at
/// most `most`. It may have any number of digits.
pub fn number(word: &str, most: u64) -> Option<u64>
    ensures read { result ≡ number_in most word.now }
    ensures most { IfSome result (λ n. n ≤ most) }
{
    if !is_number(word.as_bytes()) {
        return None;
    }
    match word.parse::<u64>() {
        Ok(n) => (n <= most).then_some(n),
        Err(_) => None,
    }
}

// Whether a word is a number without a leading zero.
fn is_number(word: &[u8]) -> bool
    ensures { result ≡ is_number word.now }
{
    is_digits(word) && !has_leading_zero(word)
}

fn is_digits(word: &[u8]) -> bool
    ensures { result ≡ is_digits word.now }
{
    !word.is_empty() && has_digits_alone(word)
}

fn has_digits_alone(word: &[u8]) -> bool
    ensures { result ≡ list_all is_ascii_digit word.now }
{
    word.iter().all(|digit| digit.is_ascii_digit())
}

fn has_leading_zero(digits: &[u8]) -> bool
    ensures { result ≡ has_leading_zero digits.now }
{
    matches!(digits, [b'0', _, ..])
}

/// The id that a word spells, if it is one: 64 hexadecimal digits of either case.
pub fn id(word: &str) -> Option<Fixed<32>>
    ensures { result ≡ id_in word.now }
{
    match Fixed::from_hex(word) {
        Ok(id) => Some(id),
        Err(_) => None,
    }
}

/// The level that a word names: `invisible`, `visible` or `shared`.
pub fn level(word: &str) -> Option<Level>
    ensures { result ≡ level_in word.now }
{
    match word {
        "invisible" => Some(Level::Invisible),
        "visible" => Some(Level::Visible),
        "shared" => Some(Level::Shared),
        _ => None,
    }
}

/// The mode of a session that a word names: `interactive` or `batch`.
pub fn mode(word: &str) -> Option<Mode>
    ensures { result ≡ mode_in word.now }
{
    match word {
        "interactive" => Some(Mode::Interactive),
        "batch" => Some(Mode::Batch),
        _ => None,
    }
}
