//! A node: a store whose sessions run over up to eight links (BSP, "Sync modes"). Whatever a link
//! brings, whatever call fails and whenever the device stops, its files stand for a legal journal
//! that took what was heard in order and has every byte that was sent.
//!
//! - `aside`: what a node has beside its store, with its calls over a store that is lent to each.
//! - `node`: a store with what stands beside it.
//! - `link`: a link with its session, and what it does.
//! - `turning`: the turn of one link; `hearing` takes what is heard on it, `sending` sends what is
//!   due.
//! - `redundant`: which of the links with one contact is kept.
//! - `told`: each call on the store or the host, with what it leaves.
#![tactic(auto)]

mod aside;
mod attaching;
mod fault;
mod hearing;
mod limits;
mod link;
mod node;
mod redundant;
mod sending;
mod told;
mod turning;

pub use aside::Aside;
pub use fault::NodeFault;
pub use limits::MOST_LINKS;
pub use node::{Node, Plan, Turned};
pub use sync_course::LinkEnd;
