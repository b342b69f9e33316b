//! A source and a sink in memory that move a few bytes at a time, so that a command makes many
//! calls.
ghost use Rattle.std.specs.Prelude.{◌<◌, None};

use outside::{Failed, MemSink, MemSource, Sink, Source};

/// The most bytes that a sink takes at a call.
pub(crate) const PIECE: usize = 7;

/// The most bytes of a source of this length at a call: it is read in about four calls, and then
/// there is its end.
pub(crate) fn part_of(len: usize) -> usize
    ensures { 0 < result }
{
    (len / 4).saturating_add(1)
}

/// A source that gives no more than so many bytes at a time.
#[derive(Drop)]
pub(crate) struct SlowSource {
    pub(crate) source: MemSource,
    pub(crate) most: usize,
}

impl Source for SlowSource {
    ghost tells = { λ s. record { bytes = None; faults = s.source.faults } };

    fn read(&mut self, buf: &mut [u8]) -> Result<usize, Failed> {
        let n = buf.len().min(self.most);
        self.source.read(&mut buf[..n])
    }
}

/// A sink that takes seven bytes at a time.
#[derive(Drop)]
pub(crate) struct SlowSink(pub(crate) MemSink);

impl Sink for SlowSink {
    ghost tells = { λ s. record { bytes = None; faults = s.0.faults } };

    fn write(&mut self, bytes: &[u8]) -> Result<usize, Failed> {
        let n = bytes.len().min(PIECE);
        self.0.write(&bytes[..n])
    }
}
