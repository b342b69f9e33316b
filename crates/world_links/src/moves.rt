//! What may become of the records in flight on a link, by itself.

/// What becomes of the first records in flight from an end.
#[derive(Clone, Copy, Debug, PartialEq, Eq)]
pub enum Move {
    /// The first arrives at the other end.
    Carry,
    /// The first is lost.
    Lose,
    /// The first arrives, and stays in flight.
    Repeat,
    /// The first two change places.
    Swap,
}

/// One of the two ends of a link.
#[derive(Clone, Copy, Debug, PartialEq, Eq)]
pub enum Side {
    /// The end that dialled.
    Near,
    /// The other one.
    Far,
}
