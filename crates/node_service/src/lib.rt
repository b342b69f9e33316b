//! A node that serves: it answers the requests of its input, one behind the other.
//!
//! - `life`: the loop: a request is heard, answered over the host, and its answer is told.
//! - `node`: a node that can be asked; `specs/Lives.antt`: what its life over a stream of requests is.
//! - `ear`: the requests of an input, one by one; `words`: the words of a request, and how much its
//!   command reads of an input; `output`: what it prints, as it goes out with the answer.
#![tactic(auto)]

mod ear;
mod life;
mod node;
mod output;
mod words;

pub use life::serve;
pub use node::{Node, Reply};
pub use output::Output;
pub use words::{command_of, reads_most, words_of};
