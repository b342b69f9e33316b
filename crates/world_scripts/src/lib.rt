//! The language of scripts: the lines that move a world of several devices, the labels that they
//! name things by, and the scripts that are made from a seed.
#![tactic(auto)]

mod cut;
mod fault;
mod generator;
mod labels;
mod line;
mod lists;
mod reading;
mod script;
mod step;
mod steps;
mod words;

pub use fault::{LineFault, ScriptFault};
pub use generator::{GENERATED_DEVICES, Generator, MAX_POSTS};
pub use labels::{GroupLabels, are_made, suits_kind};
pub use line::read_line;
pub use lists::{Labels, Text};
pub use reading::open_script;
pub use script::{MAX_SCRIPT, Opened, Script};
pub use step::{Action, FEED, Line, MAX_DEVICES, MAX_ROUNDS, MIN_DEVICES, NOTE, THREAD, WorldStep};
