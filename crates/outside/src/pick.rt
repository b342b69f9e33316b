/// Which of the images that a crash may leave.
#[derive(Clone, Copy, Debug, PartialEq, Eq)]
pub enum Pick {
    /// The bytes of the last sync.
    Old,
    /// All that was written, what failed included.
    New,
    /// The greatest length, with 0 at each place that is not synced.
    Zero,
    /// The greatest length, with 1 at each place that is not synced.
    Ones,
}
