//! The words of a part.

use anyhow::{Context, Result};

/// The word at this place, and an empty one where there is none.
pub(crate) fn word_at(words: &[String], place: usize) -> &str {
    match words.get(place) {
        Some(word) => word.as_str(),
        None => "",
    }
}

/// The number that the word at this place says.
pub(crate) fn number_at(words: &[String], place: usize) -> Result<u32> {
    let number = word_at(words, place)
        .parse::<u32>()
        .context("reading a number")?;
    Ok(number)
}
