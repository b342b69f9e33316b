// The words of a request, and what they ask for.
ghost use Rattle.std.specs.Prelude.{◌≡◌, IfOk};
ghost use Rattle.commands.specs.Reading.{IsCommandWithin};
ghost use Rattle.node_service.specs.Words.{AreWords, IsAskedBy, parts_of, reads_most};
ghost use Rattle.sync_words.specs.Words.{texts};

use arguments::word;
use commands::{Command, WordsFault, read_words};
use request_frames::MAX_INPUT;
use std::alloc::{AllocError, Global};
use sync_ids::MAX_BODY;

/// The words that these bytes have, a zero byte behind each. It fails only for want of memory.
pub fn words_of(alloc: Global, bytes: &[u8]) -> Result<Vec<String>, AllocError>
    ensures { IfOk result (λ words. AreWords (parts_of bytes.now) (texts words.items)) }
{
    let mut words = Vec::new(alloc);
    let mut part = Vec::new(alloc);
    'bytes: for byte in bytes {
        if *byte == 0 {
            words.push(word(alloc, part.as_slice())?)?;
            part.clear();
        } else {
            part.push(*byte)?;
        }
    }
    Ok(words)
}

/// The command that the words of these bytes ask for.
///
/// # Errors `Usage` exactly where the words are not in the grammar, with the place; `Memory` for
/// want of memory.
pub fn command_of(alloc: Global, bytes: &[u8]) -> Result<Command, WordsFault>
    ensures asked { IsAskedBy bytes.now result }
    ensures within { IfOk result IsCommandWithin }
{
    let words = words_of(alloc, bytes)?;
    read_words(alloc, words.as_slice())
}

/// How many bytes of its input a command reads at most, one more than it takes.
pub fn reads_most(command: &Command) -> usize
    ensures { result ≡ reads_most command.now }
{
    match command {
        Command::Post(_, _) => MAX_BODY + 1,
        Command::MailboxIn(_) | Command::Try(_, _) | Command::Records => MAX_INPUT + 1,
        _ => 0,
    }
}
