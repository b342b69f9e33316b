//! A command over a host in memory.
ghost use Rattle.std.specs.Prelude.{◌≡◌, []};
ghost use Rattle.outside.specs.MemHost.{links_of};

use crate::slow::{SlowSink, SlowSource};
use crate::stage::Stage;
use anyhow::Result;
use outside::{MemDisk, MemHost, MemRandom};
use std::alloc::{AllocError, Global};
use std::hash::RandomState;
use std::str;
use sync_rules::Clients;
use sync_top::run;

/// What a command came to: its status, what it wrote to both outputs, and the host.
pub(crate) struct Came {
    pub(crate) status: u8,
    out: SlowSink,
    err: SlowSink,
    host: MemHost,
}

// Written out, so that whoever drops it proves one call.
impl Drop for Came {
    fn drop(self) {
        let Came {
            status: _,
            out: _,
            err: _,
            host: _,
        } = self;
    }
}

impl Came {
    /// What it wrote to the output.
    pub(crate) fn out_text(&self) -> Result<&str> {
        Ok(str::from_utf8(self.out.0.bytes())?)
    }

    /// The bytes that it wrote to the output.
    pub(crate) fn out_bytes(&self) -> &[u8] {
        self.out.0.bytes()
    }

    /// What it wrote to the error output.
    pub(crate) fn err_text(&self) -> Result<&str> {
        Ok(str::from_utf8(self.err.0.bytes())?)
    }

    /// The bytes that it wrote to the error output.
    pub(crate) fn err_bytes(&self) -> &[u8] {
        self.err.0.bytes()
    }

    /// Whether it came to the same status and wrote the same as another.
    pub(crate) fn says(&self, other: &Came) -> bool {
        (self.status == other.status)
            & (self.out_bytes() == other.out_bytes())
            & (self.err_bytes() == other.err_bytes())
    }

    /// Whether it left both files as they are on this disk.
    pub(crate) fn leaves(&self, disk: &MemDisk) -> bool {
        (self.disk().file(0) == disk.file(0)) & (self.disk().file(1) == disk.file(1))
    }

    /// The disk as the command left it.
    pub(crate) fn disk(&self) -> &MemDisk {
        self.host.disk()
    }

    /// The host as the command left it.
    pub(crate) fn host(&self) -> &MemHost {
        &self.host
    }
}

/// Runs the command of these words, with single spaces between them, for these clients.
pub(crate) fn command<C: Clients>(
    alloc: Global,
    words: &str,
    stage: Stage,
    input: &[u8],
    clients: &C,
) -> Result<Came> {
    let words = words_of(alloc, words)?;
    let hasher = RandomState::new(&MemRandom(0))?;
    let streams = Streams {
        source: stage.source(alloc, input)?,
        out: stage.out(alloc)?,
        err: stage.err(alloc)?,
    };
    let host = stage.into_host();
    Ok(obeyed(alloc, hasher, words.as_slice(), host, streams, clients))
}

// What a command reads and writes.
#[derive(Drop)]
struct Streams {
    source: SlowSource,
    out: SlowSink,
    err: SlowSink,
}

// The one call of `run`.
fn obeyed<C: Clients>(
    alloc: Global,
    hasher: RandomState,
    words: &[String],
    host: MemHost,
    streams: Streams,
    clients: &C,
) -> Came
    requires no_links { links_of host.disk ≡ [] }
{
    let mut host = host;
    let Streams {
        mut source,
        mut out,
        mut err,
    } = streams;
    let status = run(
        alloc,
        hasher,
        words,
        &mut host,
        &mut source,
        &mut out,
        &mut err,
        clients,
    );
    Came {
        status: status.number(),
        out,
        err,
        host,
    }
}

/// The words of a line; an empty line has none.
pub(crate) fn words_of(alloc: Global, line: &str) -> Result<Vec<String>, AllocError> {
    let mut words = Vec::new(alloc);
    if line.is_empty() {
        return Ok(words);
    }
    for word in line.split(' ') {
        words.push(String::from_str(alloc, word)?)?;
    }
    Ok(words)
}
