// A command over a host in memory.
ghost use Rattle.commands.specs.Reading.{asks};
ghost use Rattle.sync_words.specs.Words.{texts};
ghost use Rattle.memory_run.specs.Opens.{OpensInMemory};
ghost use Rattle.memory_run.specs.Ran.{RanInMemory};

use crate::fresh::FreshHost;
use outside::{MemHost, MemSink, MemSource};
use std::alloc::Global;
use std::hash::RandomState;
use sync_rules::Clients;
use sync_top::{Status, run};

/// What a command came to: its status, what it left of its source, what it wrote to both outputs,
/// and the host that it left.
pub struct Came {
    /// The status.
    pub status: Status,
    /// The source, behind what was read.
    pub input: MemSource,
    /// The output.
    pub out: MemSink,
    /// The error output.
    pub err: MemSink,
    /// The host.
    pub host: MemHost,
}

// Written out, so that whoever drops it proves one call.
impl Drop for Came {
    fn drop(self) {
        let Came {
            status: _,
            input: _,
            out: _,
            err: _,
            host: _,
        } = self;
    }
}

/// Runs the command of these words, those after the program's name, over a host in memory, reading
/// this source. Of the words of `sync` it holds of every such host: whatever its links answer and
/// whichever of its calls fail, and after however many of its calls a crash comes, its files stand
/// for a sound journal, or are as a crash might have left them before, nothing being sent; and so it
/// is of the words `serve std`, whatever its source asks. What the words ask for came to an outcome, and the status and the error output tell it.
pub fn run_in_memory<C: Clients>(
    alloc: Global,
    hasher: RandomState,
    words: &[String],
    fresh: FreshHost,
    source: MemSource,
    clients: &C,
) -> Came
    ensures opens { OpensInMemory (C.meaning clients.now) (asks (texts words.now)) fresh
        result.host }
    ensures ran { RanInMemory (C.meaning clients.now) (asks (texts words.now)) fresh result.host
        source result.input result.out result.err result.status }
{
    let mut host = fresh.into_host();
    let mut input = source;
    let mut out = MemSink::new(alloc, Vec::new(alloc));
    let mut err = MemSink::new(alloc, Vec::new(alloc));
    let status = run(
        alloc, hasher, words, &mut host, &mut input, &mut out, &mut err, clients,
    );
    Came {
        status,
        input,
        out,
        err,
        host,
    }
}
