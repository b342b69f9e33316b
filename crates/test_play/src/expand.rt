//! A line with what it repeats written out.

use anyhow::{Context, Result};
use std::alloc::{AllocError, Global};

/// The line, in which each `{TEXT*N}` stands for N times its text.
pub(crate) fn expanded(alloc: Global, line: &str) -> Result<String> {
    let mut whole = String::new(alloc);
    for part in line.split('{') {
        match part.split_once('}') {
            Some((repeated, behind)) => {
                repeat(&mut whole, repeated)?;
                whole.push_str(behind)?;
            }
            None => whole.push_str(part)?,
        }
    }
    Ok(whole)
}

fn repeat(whole: &mut String, repeated: &str) -> Result<()> {
    let (text, count) = repeated.split_once('*').context("a count is missing")?;
    Ok(repeat_text(whole, text, count.parse::<u32>()?)?)
}

fn repeat_text(whole: &mut String, text: &str, count: u32) -> Result<(), AllocError> {
    for _ in 0..count {
        whole.push_str(text)?;
    }
    Ok(())
}
