//! What is asked for of or by a node that stays.
use crate::staying::LinksOfStay;

/// Whether a node that stays serves the standard streams.
#[derive(Clone, Copy, Debug, PartialEq, Eq)]
pub enum Way {
    /// `std`: requests come on the standard input too, and answers go to the standard output.
    Std,
    /// `socket`: by its socket alone.
    Socket,
}

/// What the words ask for.
#[derive(Debug, Drop)]
pub enum Stay {
    /// `serve WAY` and the words of each link: holds the store, keeps the links up and answers.
    Serve(Way, LinksOfStay),
    /// `watch FROM`: tells of what is delivered, from this place of the delivered messages on.
    Watch(u32),
}
