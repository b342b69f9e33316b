//! The input of a request.
ghost use Rattle.std.specs.Prelude.{◌≡◌, ◌<◌, Some};
ghost use Rattle.node_life.specs.Inputs.{failing_told, given_told, IsGivenTooLong};

use outside::{Failed, Source};
use request_frames::MAX_INPUT;

/// A byte that begins no record.
pub const NO_RECORD: u8 = 255;

/// The input of a request that could be read: its bytes, or more bytes than any command takes.
#[derive(Drop)]
pub struct Given<'a> {
    pub bytes: &'a [u8],
    pub filling: usize,
}

impl<'a> Given<'a> {
    /// An input of these bytes.
    pub fn of(bytes: &'a [u8]) -> Given<'a>
        ensures { (given_told result).bytes ≡ Some bytes.now }
    {
        Given { bytes, filling: 0 }
    }

    /// An input of more bytes than any command takes, none of which begins a record.
    pub fn too_long() -> Given<'static>
        ensures { IsGivenTooLong (given_told result) }
    {
        Given {
            bytes: &[],
            filling: past_all(),
        }
    }
}

// More bytes than any command takes.
fn past_all() -> usize
    ensures { MAX_INPUT < result }
{
    MAX_INPUT + 1
}

impl Source for Given<'_> {
    ghost use Rattle.node_life.specs.Inputs.{given_told};

    ghost tells = { given_told };

    fn read(&mut self, buf: &mut [u8]) -> Result<usize, Failed> {
        if self.bytes.is_empty() {
            let n = buf.len().min(self.filling);
            buf[..n].fill(NO_RECORD);
            self.filling -= n;
            return Ok(n);
        }
        let n = buf.len().min(self.bytes.len());
        buf[..n].copy_from_slice(&self.bytes[..n]);
        self.bytes = &self.bytes[n..];
        Ok(n)
    }
}

/// The input of a request that could not be read: each call fails.
#[derive(Drop)]
pub struct Failing {
    pub faults: u64,
}

impl Failing {
    /// An input of which no call was made.
    pub fn new() -> Failing
        ensures { result ≡ record { faults = 0 } }
    {
        Failing { faults: 0 }
    }
}

impl Source for Failing {
    ghost use Rattle.node_life.specs.Inputs.{failing_told};

    ghost tells = { failing_told };

    fn read(&mut self, _buf: &mut [u8]) -> Result<usize, Failed> {
        self.faults = self.faults.saturating_add(1);
        Err(Failed)
    }
}
