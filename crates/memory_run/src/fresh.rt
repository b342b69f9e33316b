// A host in memory on which no link was made.
ghost use Rattle.std.specs.Prelude.{◌≡◌, ◌<◌, [], ◌∷◌, ◌++◌, IfOk, OnErr, OnOk, Some};
ghost use Rattle.outside.specs.declared.limits.TheConstants.{LINKS};
ghost use Rattle.outside.specs.MemHost.{fresh_host, links_of, reading_added, script_of};
ghost use Rattle.outside.specs.MemHost.{with_script};
ghost use Rattle.outside.specs.Script.{planned_of};

use outside::{Answer, LINKS, MemDisk, MemHost};
use std::alloc::{AllocError, Global};
use std::marker::Model;

/// A host in memory on which no link was made, with what is to come of its links, its clock and its
/// nonces, and which of its calls are to fail. It is seen as its host.
#[derive(Drop)]
pub struct FreshHost {
    host: MemHost,
}

impl Model for FreshHost {
    ghost use Rattle.std.specs.Prelude.{◌≡◌, []};
    ghost use Rattle.outside.specs.MemHost.{links_of, MemHostValue};

    ghost Value = { MemHostValue };

    ghost view = { λ f. f.host };

    ghost invariant = { λ f. links_of f.host.disk ≡ [] };
}

impl FreshHost {
    /// A host over this disk, of which no call was made. It fails only for want of memory.
    pub fn over(alloc: Global, disk: MemDisk) -> Result<FreshHost, AllocError>
        ensures { IfOk result (λ f. f ≡ fresh_host disk) }
    {
        Ok(FreshHost {
            host: MemHost::new(alloc, disk)?,
        })
    }

    /// Adds an answer to the script of the link of this number, which is below `LINKS`.
    pub fn script(&mut self, link: u8, answer: Answer) -> Result<(), AllocError>
        requires { link < LINKS }
        ensures ok { OnOk result
            (self.new ≡ record self.old {
              scripts = with_script link
                  (script_of link self.old.scripts ++ planned_of answer) self.old.scripts;
            }) }
        ensures err { OnErr result (self.new ≡ self.old) }
    {
        self.host.script(link, answer)
    }

    /// Adds a reading of the clock, in milliseconds.
    pub fn reading(&mut self, at: u64) -> Result<(), AllocError>
        ensures ok { OnOk result
            (self.new ≡ record self.old { clock = reading_added at self.old.clock }) }
        ensures err { OnErr result (self.new ≡ self.old) }
    {
        self.host.reading(at)
    }

    /// Gives a nonce, for the next call that no nonce was given for.
    pub fn give_nonce(&mut self, nonce: [u8; 16]) -> Result<(), AllocError>
        ensures ok { OnOk result
            (self.new ≡ record self.old { nonces = self.old.nonces ++ nonce ∷ [] }) }
        ensures err { OnErr result (self.new ≡ self.old) }
    {
        self.host.give_nonce(nonce)
    }

    /// The dial of this number, counted from 0, is to fail.
    pub fn fail_dial(&mut self, k: u8) -> Result<(), AllocError>
        ensures ok { OnOk result
            (self.new ≡ record self.old {
              dials = record self.old.dials { failing = self.old.dials.failing ++ k ∷ [] };
            }) }
        ensures err { OnErr result (self.new ≡ self.old) }
    {
        self.host.fail_dial(k)
    }

    /// The send of this number, counted from 0 over all links, is to fail.
    pub fn fail_send(&mut self, k: u64) -> Result<(), AllocError>
        ensures ok { OnOk result
            (self.new ≡ record self.old {
              sends = record self.old.sends { failing = self.old.sends.failing ++ k ∷ [] };
            }) }
        ensures err { OnErr result (self.new ≡ self.old) }
    {
        self.host.fail_send(k)
    }

    /// The host.
    pub fn host(&self) -> &MemHost
        ensures { result.now ≡ self.now }
    {
        &self.host
    }

    /// The host, alone.
    pub fn into_host(self) -> MemHost
        ensures host { result ≡ self }
        ensures no_links { links_of result.disk ≡ [] }
    {
        let FreshHost { host } = self;
        host
    }
}
