//! A case as it stands in the input.

use anyhow::{Result, bail};
use std::alloc::{AllocError, Global};

/// The parts of a case.
#[derive(Clone, Copy, Debug)]
pub(crate) struct Case<'a> {
    pub(crate) name: &'a str,
    words: &'a str,
    /// What is apart in it.
    pub(crate) apart: &'a str,
    pub(crate) script: &'a [u8],
}

impl<'a> Case<'a> {
    /// The case with these bytes.
    pub(crate) fn of(bytes: &'a [u8]) -> Result<Case<'a>> {
        let (name, rest) = first_line(bytes)?;
        let (words, rest) = first_line(rest)?;
        let (apart, script) = first_line(rest)?;
        Ok(Case {
            name,
            words,
            apart,
            script,
        })
    }

    /// The words after the program's name.
    pub(crate) fn words(&self, alloc: Global) -> Result<Vec<String>, AllocError> {
        let mut words = Vec::new(alloc);
        if !self.words.is_empty() {
            for word in self.words.split(' ') {
                words.push(String::from_str(alloc, word)?)?;
            }
        }
        Ok(words)
    }
}

// The first line, and what follows it.
fn first_line(bytes: &[u8]) -> Result<(&str, &[u8])> {
    for place in 0..bytes.len() {
        if bytes[place] == b'\n' {
            return Ok((str::from_utf8(&bytes[..place])?, &bytes[place + 1..]));
        }
    }
    bail!("a case of fewer than three lines")
}
