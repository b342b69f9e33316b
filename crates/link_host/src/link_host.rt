//! A host to which links come by themselves.
ghost use Rattle.std.specs.Prelude.{◌≡◌, ◌<◌};
ghost use Rattle.outside.specs.Outside.{QuietCall};
ghost use Rattle.link_host.specs.declared.link_host.TheConstants.{LINK_NUMBERS};
ghost use Rattle.link_host.specs.Coming.{ForgetsLinks, TakesUp};

use outside::Host;

/// How many links are taken up at most before all are forgotten: their numbers are a byte's.
pub const LINK_NUMBERS: usize = 255;

/// A host to which links come by themselves, and whose links are forgotten all at once.
pub trait LinkHost: Host {
    /// Takes up the link that was brought last, and answers its number: the next one, of fewer than
    /// `LINK_NUMBERS` before.
    fn take_up(&mut self) -> u8
        requires { (Self.tells self.old).links.dialled < LINK_NUMBERS }
        ensures call { QuietCall (Self.tells self.old) (Self.tells self.new) }
        ensures links { TakesUp result (Self.tells self.old).links (Self.tells self.new).links };

    /// Forgets all links: none is up, and their numbers begin at 0 again.
    fn renew(&mut self)
        ensures call { QuietCall (Self.tells self.old) (Self.tells self.new) }
        ensures links { ForgetsLinks (Self.tells self.old).links (Self.tells self.new).links };
}
