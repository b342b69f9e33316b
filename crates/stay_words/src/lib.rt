//! What the words of a command line ask for that are for a node that stays: `serve` with a way and
//! its links, and `watch`. Other words are those of crate `commands`.
//!
//! - `stay`: what is asked for; `staying` the links that are.
//! - `grammar`: what the words ask for; `words` reads them one by one, and `links` those of links.
#![tactic(auto)]

mod grammar;
mod links;
mod stay;
mod staying;
mod words;

pub use grammar::read_stay;
pub use stay::{Stay, Way};
pub use staying::LinksOfStay;
