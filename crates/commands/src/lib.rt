//! The commands of a node, and what the words of a command line ask for.
//!
//! - `command`: a command, and whether it may write the files of a store.
//! - `grammar`: a command from the words of a command line; `words` reads them one by one, and
//!   `links` the words of links.
#![tactic(auto)]

mod command;
mod fault;
mod grammar;
mod links;
mod words;

pub use command::Command;
pub use fault::WordsFault;
pub use grammar::{MAX_TURNS, read_words};
