//! A disk with links and a clock.
ghost use Rattle.std.specs.Prelude.{◌≡◌, ◌<◌, length};
ghost use Rattle.outside.specs.Outside.{LinkCall, QuietCall};
ghost use Rattle.outside.specs.Host.{DialsLink, AsksNonce, HearsAnswer, IsAnswerCaused, SendsOnLink, SendsPart};
ghost use Rattle.outside.specs.Host.{ReadsClock};

use crate::{Disk, Failed, LINKS};

/// What a link answered.
#[derive(Clone, Copy, Debug, PartialEq, Eq)]
pub enum Heard {
    /// So many bytes, at least one, at the front of the buffer.
    Got(usize),
    /// Nothing came for now.
    Idle,
    /// The other side has ended.
    End,
    /// The call failed.
    Failed,
}

/// A disk, links and a clock, with one time for all. Links are numbered from 0 in the order of the
/// dials that succeeded. The clock need not rise.
pub trait Host: Disk {
    /// Makes a link, the next number, of fewer than `LINKS` before.
    fn dial(&mut self, spec: &str) -> Result<u8, Failed>
        requires { (Self.tells self.old).links.dialled < LINKS }
        ensures call { QuietCall (Self.tells self.old) (Self.tells self.new) }
        ensures links { DialsLink spec.now result (Self.tells self.old).links
            (Self.tells self.new).links };

    /// Sixteen bytes for a link that no one else has.
    fn nonce(&mut self, link: u8) -> Result<[u8; 16], Failed>
        requires { link < (Self.tells self.old).links.dialled }
        ensures call { QuietCall (Self.tells self.old) (Self.tells self.new) }
        ensures links { AsksNonce link result (Self.tells self.old).links
            (Self.tells self.new).links };

    /// Hears on a link, into the front of `buf`.
    fn recv(&mut self, link: u8, buf: &mut [u8]) -> Heard
        requires link { link < (Self.tells self.old).links.dialled }
        requires room { 0 < length buf.old }
        ensures call { QuietCall (Self.tells self.old) (Self.tells self.new) }
        ensures links { HearsAnswer link result buf.new (Self.tells self.old).links
            (Self.tells self.new).links }
        ensures answer { IsAnswerCaused result (length buf.new) ((Self.tells self.old).links.faults link)
            ((Self.tells self.new).links.faults link) };

    /// Sends all bytes on a link. At `Failed` a front of them went out.
    fn send(&mut self, link: u8, bytes: &[u8]) -> Result<(), Failed>
        requires { link < (Self.tells self.old).links.dialled }
        ensures call { LinkCall (SendsPart (Self.tells self.old) link bytes.now)
            (Self.tells self.old) (Self.tells self.new) }
        ensures links { SendsOnLink link bytes.now result (Self.tells self.old).links
            (Self.tells self.new).links };

    /// Ends a link on this side.
    fn hang_up(&mut self, link: u8)
        requires { link < (Self.tells self.old).links.dialled }
        ensures call { QuietCall (Self.tells self.old) (Self.tells self.new) }
        ensures links { (Self.tells self.new).links ≡ (Self.tells self.old).links };

    /// A reading of the clock, in milliseconds.
    fn now(&mut self) -> u64
        ensures call { QuietCall (Self.tells self.old) (Self.tells self.new) }
        ensures links { ReadsClock result (Self.tells self.old).links (Self.tells self.new).links };
}
