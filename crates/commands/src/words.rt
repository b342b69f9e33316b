// The words of a command line, one by one.
ghost use Rattle.std.specs.Prelude.{◌≡◌, ◌+◌, ◌≤◌, ◌∷◌, [], drop, IfOk, IfErr, MatchOption};
ghost use Rattle.commands.specs.Reading.{is_left, IsDescriptor, IsName, ReadsWord, StopsAtWord};
ghost use Rattle.commands.specs.Reading.{stance_in, std_in, way_in};
ghost use Rattle.sync_words.specs.Words.{name_in, descriptor_in, number_in, positive_in, id_in};
ghost use Rattle.sync_words.specs.Words.{level_in, mode_in, spec_in, texts};

use crate::fault::WordsFault;
use std::alloc::Global;
use sync_ids::{Fixed, MAX_DESCRIPTOR, MAX_NAME};
use sync_rules::{Level, Mode};
use sync_words::{Word, id, is_spec, is_std, level, mode, number, positive};

// The word at a place, if there is one.
fn word_at(words: &[String], place: usize) -> Option<&str>
    ensures { MatchOption result (drop place (texts words.now) ≡ [])
        (λ word. drop place (texts words.now) ≡ word.now ∷ drop (place + 1) (texts words.now)) }
{
    match words.get(place) {
        Some(word) => Some(word.as_str()),
        None => None,
    }
}

/// Reads the word at this place as a client's name.
pub fn name_at(alloc: Global, words: &[String], place: usize) -> Result<Word, WordsFault>
    ensures ok { IfOk result (ReadsWord name_in (texts words.now) place) }
    ensures within { IfOk result IsName }
    ensures err { IfErr result (StopsAtWord name_in (texts words.now) place) }
{
    match word_at(words, place) {
        Some(word) if (1..=MAX_NAME).contains(&word.len()) => copied(alloc, word),
        _ => Err(WordsFault::Usage(place)),
    }
}

/// Reads the word at this place as a descriptor.
pub fn descriptor_at(alloc: Global, words: &[String], place: usize) -> Result<Word, WordsFault>
    ensures ok { IfOk result (ReadsWord descriptor_in (texts words.now) place) }
    ensures within { IfOk result IsDescriptor }
    ensures err { IfErr result (StopsAtWord descriptor_in (texts words.now) place) }
{
    match word_at(words, place) {
        Some(word) if word.len() <= MAX_DESCRIPTOR => copied(alloc, word),
        _ => Err(WordsFault::Usage(place)),
    }
}

fn copied(alloc: Global, word: &str) -> Result<Word, WordsFault>
    ensures ok { IfOk result (λ copy. copy ≡ word.now) }
    ensures err { IfErr result (λ e. e ≡ WordsFault.Memory) }
{
    let text = String::from_str(alloc, word)?;
    Ok(Word::new(text))
}

/// Reads the word at this place as a number, at most `most`.
pub fn number_at(words: &[String], place: usize, most: u64) -> Result<u64, WordsFault>
    ensures ok { IfOk result (ReadsWord (number_in most) (texts words.now) place) }
    ensures most { IfOk result (λ n. n ≤ most) }
    ensures err { IfErr result (StopsAtWord (number_in most) (texts words.now) place) }
{
    match word_at(words, place) {
        Some(word) => number(word, most).ok_or(WordsFault::Usage(place)),
        None => Err(WordsFault::Usage(place)),
    }
}

/// Reads the word at this place as a number from 1 to `most`.
pub fn positive_at(words: &[String], place: usize, most: u64) -> Result<u64, WordsFault>
    ensures ok { IfOk result (ReadsWord (positive_in most) (texts words.now) place) }
    ensures least { IfOk result (λ n. 1 ≤ n) }
    ensures most { IfOk result (λ n. n ≤ most) }
    ensures err { IfErr result (StopsAtWord (positive_in most) (texts words.now) place) }
{
    match word_at(words, place) {
        Some(word) => positive(word, most).ok_or(WordsFault::Usage(place)),
        None => Err(WordsFault::Usage(place)),
    }
}

/// Reads the word at this place as an id.
pub fn id_at(words: &[String], place: usize) -> Result<Fixed<32>, WordsFault>
    ensures ok { IfOk result (ReadsWord id_in (texts words.now) place) }
    ensures err { IfErr result (StopsAtWord id_in (texts words.now) place) }
{
    match word_at(words, place) {
        Some(word) => id(word).ok_or(WordsFault::Usage(place)),
        None => Err(WordsFault::Usage(place)),
    }
}

/// Reads the word at this place as a level.
pub fn level_at(words: &[String], place: usize) -> Result<Level, WordsFault>
    ensures ok { IfOk result (ReadsWord level_in (texts words.now) place) }
    ensures err { IfErr result (StopsAtWord level_in (texts words.now) place) }
{
    match word_at(words, place) {
        Some(word) => level(word).ok_or(WordsFault::Usage(place)),
        None => Err(WordsFault::Usage(place)),
    }
}

/// Reads the word at this place as a mode.
pub fn mode_at(words: &[String], place: usize) -> Result<Mode, WordsFault>
    ensures ok { IfOk result (ReadsWord mode_in (texts words.now) place) }
    ensures err { IfErr result (StopsAtWord mode_in (texts words.now) place) }
{
    match word_at(words, place) {
        Some(word) => mode(word).ok_or(WordsFault::Usage(place)),
        None => Err(WordsFault::Usage(place)),
    }
}

/// Reads the word at this place as a stance: whether it is to join.
pub fn stance_at(words: &[String], place: usize) -> Result<bool, WordsFault>
    ensures ok { IfOk result (ReadsWord stance_in (texts words.now) place) }
    ensures err { IfErr result (StopsAtWord stance_in (texts words.now) place) }
{
    match word_at(words, place) {
        Some(word) => stance(word).ok_or(WordsFault::Usage(place)),
        None => Err(WordsFault::Usage(place)),
    }
}

// The stance that a word names: `join` or `leave`.
fn stance(word: &str) -> Option<bool>
    ensures { result ≡ stance_in word.now }
{
    match word {
        "join" => Some(true),
        "leave" => Some(false),
        _ => None,
    }
}

/// Reads the word at this place as the way of a mailbox file: whether it comes in.
pub fn way_at(words: &[String], place: usize) -> Result<bool, WordsFault>
    ensures ok { IfOk result (ReadsWord way_in (texts words.now) place) }
    ensures err { IfErr result (StopsAtWord way_in (texts words.now) place) }
{
    match word_at(words, place) {
        Some(word) => way(word).ok_or(WordsFault::Usage(place)),
        None => Err(WordsFault::Usage(place)),
    }
}

// The way that a word names: `in` or `out`.
fn way(word: &str) -> Option<bool>
    ensures { result ≡ way_in word.now }
{
    match word {
        "in" => Some(true),
        "out" => Some(false),
        _ => None,
    }
}

/// Reads the word at this place, which is `std`.
pub fn std_at(words: &[String], place: usize) -> Result<(), WordsFault>
    ensures ok { IfOk result (ReadsWord std_in (texts words.now) place) }
    ensures err { IfErr result (StopsAtWord std_in (texts words.now) place) }
{
    match word_at(words, place) {
        Some(word) => std_word(word).ok_or(WordsFault::Usage(place)),
        None => Err(WordsFault::Usage(place)),
    }
}

// Nothing more, where the word is `std`.
fn std_word(word: &str) -> Option<()>
    ensures { result ≡ std_in word.now }
{
    match word {
        "std" => Some(()),
        _ => None,
    }
}

/// Reads the word at this place as the spec of a link; where a link before it is `std`, that is
/// wrong.
pub fn spec_at(
    alloc: Global,
    words: &[String],
    place: usize,
    has_std: bool,
) -> Result<Word, WordsFault>
    ensures ok { IfOk result (ReadsWord (spec_in has_std) (texts words.now) place) }
    ensures err { IfErr result (StopsAtWord (spec_in has_std) (texts words.now) place) }
{
    match word_at(words, place) {
        Some(word) if is_spec(word) && !(has_std && is_std(word)) => copied(alloc, word),
        _ => Err(WordsFault::Usage(place)),
    }
}

/// Whether a word stands at this place.
pub fn is_left_at(words: &[String], place: usize) -> bool
    ensures { result ≡ is_left (drop place (texts words.now)) }
{
    word_at(words, place).is_some()
}
