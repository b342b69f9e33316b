//! What the scripts of `bench/` measure: parts, each by its name and words, as `tables 10`. A word
//! `and` stands between two parts of one run, which make one after the other what they print.
//!
//! - `hash`: the digest of the standard input.
//! - `tree SHAPE COUNT`: items that are added to a tree of replies.
//! - `tables COUNT`: the table of what is due, for eight contacts.
//! - `store STEP ..`: a store on a disk in memory, or that of the folder's file.
#![tactic(auto)]

mod group;
mod hash;
mod stop;
mod store;
mod tables;
mod tree;
mod words;

use anyhow::{Result, bail};
use std::env;

// The word that stands between two parts.
const BETWEEN: &str = "and";

// Measures the part of this name.
fn measure(rt: &HostRuntime, name: &str, words: &[String]) -> Result<()> {
    match name {
        "hash" => hash::measure(rt),
        "tree" => tree::measure(rt, words),
        "tables" => tables::measure(rt, words),
        "store" => store::measure(rt, words),
        other => bail!("no part: {other}"),
    }
}

fn main(rt: HostRuntime) -> Result<()> {
    let words = env::args(&rt)?.skip(1).collect::<Vec<String>>(rt.alloc())?;
    for part in words.as_slice().split(|word| word.as_str() == BETWEEN) {
        let Some((name, words)) = part.split_first() else {
            bail!("a part is missing");
        };
        measure(&rt, name.as_str(), words)?;
    }
    Ok(())
}
