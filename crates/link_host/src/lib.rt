//! A host to which links come by themselves, in place of being dialled, and whose links are forgotten
//! all at once.
//!
//! - `link_host`: the trait.
#![tactic(auto)]

mod link_host;

pub use self::link_host::{LINK_NUMBERS, LinkHost};
