// The words of a command line, one by one.
ghost use Rattle.std.specs.Prelude.{◌≡◌, ◌≤◌, length, nat_le, not, true, IfOk};
ghost use Rattle.sync_words.specs.Words.{mode_in, number_in, positive_in, spec_in, texts};
ghost use Rattle.stay_words.specs.Asking.{IsReadAs, read_or_wrong, way_in, word_of};

use crate::stay::Way;
use commands::WordsFault;
use std::alloc::Global;
use sync_rules::{MAX_CONTACTS, Mode};
use sync_words::{Word, is_spec, is_std, mode, number, positive};

// The greatest number of a contact.
const MAX_CONTACT: u64 = MAX_CONTACTS as u64 - 1;

// The greatest latency of a session, in milliseconds.
const MAX_LATENCY: u64 = 4_294_967_295;

// The greatest place of the delivered messages.
const MAX_FROM: u64 = 4_294_967_295;

// What a word was read as, or that it is wrong at this place.
fn read_so<V: Drop>(read: Option<V>, place: usize) -> Result<V, WordsFault>
    ensures { IsReadAs (read_or_wrong place read) result }
{
    match read {
        Some(value) => Ok(value),
        None => Err(WordsFault::Usage(place)),
    }
}

/// Reads the word at this place as the number of a contact.
pub fn contact_at(words: &[String], place: usize) -> Result<u8, WordsFault>
    ensures { IsReadAs (word_of (number_in MAX_CONTACT) (texts words.now) place) result }
{
    let contact = number_at(words, place, MAX_CONTACT)?;
    Ok(contact as u8)
}

/// Reads the word at this place as a mode.
pub fn mode_at(words: &[String], place: usize) -> Result<Mode, WordsFault>
    ensures { IsReadAs (word_of mode_in (texts words.now) place) result }
{
    match words.get(place) {
        Some(word) => read_so(mode(word.as_str()), place),
        None => Err(WordsFault::Usage(place)),
    }
}

/// Reads the word at this place as a latency.
pub fn latency_at(words: &[String], place: usize) -> Result<u32, WordsFault>
    ensures read { IsReadAs (word_of (positive_in MAX_LATENCY) (texts words.now) place) result }
    ensures least { IfOk result (λ n. 1 ≤ n) }
{
    let Some(word) = words.get(place) else {
        return Err(WordsFault::Usage(place));
    };
    match positive(word.as_str(), MAX_LATENCY) {
        Some(latency) => Ok(latency as u32),
        None => Err(WordsFault::Usage(place)),
    }
}

/// Reads the word at this place as a place of the delivered messages.
pub fn from_at(words: &[String], place: usize) -> Result<u32, WordsFault>
    ensures { IsReadAs (word_of (number_in MAX_FROM) (texts words.now) place) result }
{
    let from = number_at(words, place, MAX_FROM)?;
    Ok(from as u32)
}

// Reads the word at this place as a number, at most `most`.
fn number_at(words: &[String], place: usize, most: u64) -> Result<u64, WordsFault>
    ensures read { IsReadAs (word_of (number_in most) (texts words.now) place) result }
    ensures most { IfOk result (λ n. n ≤ most) }
{
    let Some(word) = words.get(place) else {
        return Err(WordsFault::Usage(place));
    };
    match number(word.as_str(), most) {
        Some(value) => Ok(value),
        None => Err(WordsFault::Usage(place)),
    }
}

/// Reads the word at this place as the spec of a link that is not `std`.
pub fn spec_at(alloc: Global, words: &[String], place: usize) -> Result<Word, WordsFault>
    ensures { IsReadAs (word_of (spec_in true) (texts words.now) place) result }
{
    let Some(word) = words.get(place) else {
        return Err(WordsFault::Usage(place));
    };
    let word = word.as_str();
    if is_std(word) || !is_spec(word) {
        return Err(WordsFault::Usage(place));
    }
    let text = String::from_str(alloc, word)?;
    Ok(Word::new(text))
}

/// Reads the word at this place as the way of a node that stays.
pub fn way_at(words: &[String], place: usize) -> Result<Way, WordsFault>
    ensures { IsReadAs (word_of way_in (texts words.now) place) result }
{
    match words.get(place) {
        Some(word) => read_so(way(word.as_str()), place),
        None => Err(WordsFault::Usage(place)),
    }
}

// The way that a word names: `std` or `socket`.
fn way(word: &str) -> Option<Way>
    ensures { result ≡ way_in word.now }
{
    match word {
        "std" => Some(Way::Std),
        "socket" => Some(Way::Socket),
        _ => None,
    }
}

/// Whether a word stands at this place.
pub fn is_left_at(words: &[String], place: usize) -> bool
    ensures { result ≡ not (nat_le (length (texts words.now)) place) }
{
    place < words.len()
}
