//! What is needed of the files of a store.

/// What a process needs of the files of a store.
#[derive(Clone, Copy, Debug, PartialEq, Eq)]
pub enum Need {
    /// They are not touched.
    Nothing,
    /// They are read.
    Read,
    /// They are written too, by one that will be done at once: others wait for it.
    Write,
    /// As `Write`, by one that makes them where they are not there, in a folder that may be new.
    Make,
    /// They are written too, for as long as others take: who reads goes on beside it.
    Stay,
}
