//! What a line of a script says.
use crate::lists::{Labels, Text};
use outside::Pick;
use sync_rules::{Level, Mode};
use sync_words::Word;

/// The fewest devices of a world.
pub const MIN_DEVICES: u64 = 2;

/// The most devices of a world.
pub const MAX_DEVICES: u64 = 8;

/// The most rounds of one `rest`.
pub const MAX_ROUNDS: u64 = 1_000_000;

// The greatest number of a device.
pub(crate) const MAX_DEVICE: u64 = MAX_DEVICES - 1;

// The greatest latency of a session, in milliseconds.
pub(crate) const MAX_LATENCY: u64 = 4_294_967_295;

/// The kind of a group of notes.
pub const NOTE: u8 = 0;

/// The kind of a group of threads.
pub const THREAD: u8 = 1;

/// The kind of a group of feeds.
pub const FEED: u8 = 2;

/// A step of a world. Devices, labels and links are numbered from 0; the parts are those of the
/// line, in order.
#[derive(Debug, Drop)]
pub enum WorldStep {
    /// `group D KIND DESC`: the device adds the group of this kind and descriptor.
    Group(u8, u8, Word),
    /// `share D E G LEVEL`: the first device sets the level of the group for the second.
    Share(u8, u8, u64, Level),
    /// `post D G TIME PARENTS TEXT`: the device writes a message in the group.
    Post(u8, u64, u64, Labels, Text),
    /// `link D E MODE LATENCY`: the first device dials the second. The latency is in milliseconds.
    Link(u8, u8, Mode, u32),
    /// `turn D`: the device makes a turn.
    Turn(u8),
    /// `carry L D`: the first record in flight from the device on the link arrives.
    Carry(u64, u8),
    /// `lose L D`: it is dropped.
    Lose(u64, u8),
    /// `repeat L D`: it arrives, and stays in flight.
    Repeat(u64, u8),
    /// `swap L D`: the first two change places.
    Swap(u64, u8),
    /// `cut L`: the link ends.
    Cut(u64),
    /// `clock T`: the clock is set, in milliseconds since 1970.
    Clock(u64),
    /// `stop D K PICK`: the device's disk fails at its K-th call from now, counted from 0, and
    /// the device crashes to the picked image.
    Stop(u8, u64, Pick),
    /// `restart D`: the device loads its store anew.
    Restart(u8),
    /// `rest N`: at most so many rounds.
    Rest(u32),
}

/// What a line asks for behind the first one.
#[derive(Debug, Drop)]
pub enum Action {
    /// A step of the world.
    Step(WorldStep),
    /// `show D`: what the device holds is printed at the end.
    Show(u8),
}

/// What a line says.
#[derive(Debug, Drop)]
pub enum Line {
    /// `devices N`: the world has so many devices.
    Devices(u8),
    /// What is to be done.
    Does(Action),
}
