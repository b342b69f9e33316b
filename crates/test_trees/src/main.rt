//! Compares trees of replies with the plain definition: forests that look random, each with parts of
//! its walk, and a chain, a star and a comb of 2,000 items.
#![tactic(auto)]

mod dice;
mod forests;
mod plain;
mod shapes;

use crate::forests::compare_forest;
use crate::shapes::{Shape, is_shaped};
use anyhow::Result;
use std::env;

static SHAPES: [(&str, Shape); 3] = [
    ("chain", Shape::Chain),
    ("star", Shape::Star),
    ("comb", Shape::Comb),
];

// How many items a shape has.
const ITEMS: u32 = 2_000;

fn main(rt: HostRuntime) -> Result<()> {
    let mut count = 10u32;
    for word in env::args(&rt)?.skip(1) {
        count = word.parse::<u32>()?;
    }
    let mut apart = 0u32;
    for case in 0..count {
        let agrees = compare_forest(rt.alloc(), case)?;
        apart = apart.saturating_add(u32::from(!agrees));
    }
    println!(rt; "{count} forests, {apart} apart")?;
    for (name, shape) in &SHAPES {
        let verdict = if is_shaped(rt.alloc(), *shape, ITEMS)? {
            "agrees"
        } else {
            "is apart"
        };
        println!(rt; "{name} of {ITEMS} {verdict}")?;
    }
    Ok(())
}
