//! A host in memory on which no link was made.
ghost use Rattle.std.specs.Prelude.{◌≡◌, []};
ghost use Rattle.outside.specs.MemHost.{links_of};

use crate::files::decoded;
use crate::slow::{SlowSink, SlowSource, part_of};
use anyhow::{Context, Result, anyhow};
use outside::{Answer, LINKS, MemDisk, MemHost, MemSink, MemSource};
use std::alloc::{AllocError, Global};

/// A host on which no link was made, with what is to come of its links, its clock and its nonces, and
/// the calls of the streams that are to fail.
#[derive(Drop)]
pub(crate) struct Stage {
    host: MemHost,
    reads: Vec<u64>,
    outs: Vec<u64>,
    errs: Vec<u64>,
    ghost no_links: { links_of host.disk ≡ [] },
}

impl Stage {
    /// A host over this disk.
    pub(crate) fn over(alloc: Global, disk: MemDisk) -> Result<Stage> {
        Ok(Stage {
            host: MemHost::new(alloc, disk)?,
            reads: Vec::new(alloc),
            outs: Vec::new(alloc),
            errs: Vec::new(alloc),
        })
    }

    /// The host.
    pub(crate) fn into_host(self) -> MemHost
        ensures { links_of result.disk ≡ [] }
    {
        let Stage {
            host,
            reads: _,
            outs: _,
            errs: _,
        } = self;
        host
    }

    /// The input of these bytes.
    pub(crate) fn source(&self, alloc: Global, input: &[u8]) -> Result<SlowSource, AllocError> {
        Ok(SlowSource {
            most: part_of(input.len()),
            source: MemSource::new(input.to_vec(alloc)?, self.reads.clone()?),
        })
    }

    /// The output.
    pub(crate) fn out(&self, alloc: Global) -> Result<SlowSink, AllocError> {
        Ok(SlowSink(MemSink::new(alloc, self.outs.clone()?)))
    }

    /// The error output.
    pub(crate) fn err(&self, alloc: Global) -> Result<SlowSink, AllocError> {
        Ok(SlowSink(MemSink::new(alloc, self.errs.clone()?)))
    }

    /// Adds what a line says of links, clock, nonces and failing calls.
    pub(crate) fn prepare(&mut self, alloc: Global, line: &str) -> Result<()> {
        let (kind, rest) = line.split_once(' ').context("a line of one word")?;
        match kind {
            "got" | "idle" | "end" | "fail" => self.script(alloc, kind, rest),
            "nonce" => self.give_nonce(alloc, rest),
            "clock" => Ok(self.host.reading(rest.parse::<u64>()?)?),
            "faildial" => Ok(self.host.fail_dial(rest.parse::<u8>()?)?),
            _ => self.fail(kind, rest.parse::<u64>()?),
        }
    }

    // The call of this number of this kind is to fail.
    fn fail(&mut self, kind: &str, call: u64) -> Result<()> {
        match kind {
            "faildisk" => self.fail_at(call)?,
            "failread" => self.reads.push(call)?,
            "failout" => self.outs.push(call)?,
            "failerr" => self.errs.push(call)?,
            "failsend" => self.host.fail_send(call)?,
            _ => return Err(anyhow!("no line begins with {kind}")),
        }
        Ok(())
    }

    // Adds answers to the script of a link.
    fn script(&mut self, alloc: Global, kind: &str, rest: &str) -> Result<()> {
        let (link, rest) = rest.split_once(' ').context("an answer of one part")?;
        let link = link.parse::<u8>()?;
        if kind == "got" {
            return self.answer(link, Answer::Bytes(decoded(alloc, rest)?));
        }
        for _ in 0..rest.parse::<u32>()? {
            self.answer(link, answer_of(kind))?;
        }
        Ok(())
    }

    fn answer(&mut self, link: u8, answer: Answer) -> Result<()> {
        if usize::from(link) < LINKS {
            self.host.script(link, answer)?;
        }
        Ok(())
    }

    fn give_nonce(&mut self, alloc: Global, digits: &str) -> Result<()> {
        let bytes = decoded(alloc, digits)?;
        let nonce = <[u8; 16]>::try_from(bytes.as_slice())?;
        self.host.give_nonce(nonce)?;
        Ok(())
    }

    /// Each call of the disk from this one on is to fail, counted from those that were made.
    pub(crate) fn stop_at(&mut self, call: u64) {
        let made = self.host.disk().calls();
        self.host.stop_at(made.saturating_add(call));
    }

    /// This call of the disk is to fail, counted from those that were made.
    pub(crate) fn fail_at(&mut self, call: u64) -> Result<(), AllocError> {
        let made = self.host.disk().calls();
        self.host.fail_at(made.saturating_add(call))
    }
}

fn answer_of(kind: &str) -> Answer {
    match kind {
        "idle" => Answer::Idle,
        "end" => Answer::End,
        _ => Answer::Fail,
    }
}
