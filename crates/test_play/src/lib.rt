//! Plays a text of cases over a host in memory, by the commands of a node, for the programs that
//! test: each prints what came of the text that is its input, which is compared with what programs
//! of `oracle/` or a hand have written.
//!
//! A line that is empty or begins with `#` says nothing; `{TEXT*N}` in any other stands for N times
//! TEXT. A case is a line `case NAME`, at which a store is begun, and lines of these forms:
//!
//! - `do WORDS`: a command, of which a status other than 0 is printed; `input HEX` before it is its
//!   input.
//! - `run WORDS`: a command whose words, outputs and status are printed, and each file that it
//!   changed; where it made no call of the disk, that is said.
//! - `try WORDS`: the same on a copy of the files, which stay as they are.
//! - `loaded WORDS`: the same where the first call of the disk that a load does not make fails.
//! - `words WORDS`: what is read of these words, with its parts.
//! - `find`: what `show` and `audit` come to, and where there is no store each other command that
//!   comes to something else.
//! - `crash WORDS / NEXT`: each call of the disk of this command fails in turn, and then none. Each
//!   image that a crash then leaves is audited, the words NEXT are run on it, and the journal then is
//!   looked at. A row is printed for what the command answered and for each kind of image: the
//!   numbers of what was seen, and how often one behind another; the first, which a load is among,
//!   is not counted. What was seen is printed behind the rows.
//! - `fails WORDS / NEXT`: the same of the files as they read, with no crash.
//! - `twice WORDS / NEXT`: the command is crashed, and crashed again on each image.
//! - `files HEX HEX`: the files are these; `-` is an empty one. `old HEX`: the second is empty.
//! - `journal FORMAT GENERATION`: file 0 is an empty journal, and file 1 is empty.
//! - `add PAYLOAD ..`: frames of these payloads stand in the place of the closed gate of file 0;
//!   `count N SIZE PAYLOAD`: N frames, each of this payload and its number in SIZE bytes.
//! - `got LINK HEX`, `idle LINK N`, `end LINK N`, `fail LINK N`: answers of a link to come.
//! - `clock N`, `nonce HEX`: a reading of the clock and a nonce to come.
//! - `faildial K`, `failsend K`, `faildisk K`, `failread K`, `failout K`, `failerr K`: of the dials,
//!   sends, calls of the disk, reads of the input and writes of an output the one of this number,
//!   from 0, fails.
//! - `crossed ID ID`: from now on there is a client of every group, for which a message of time 1
//!   depends on the second of these ids, and any other one on the first.
//! - `ask WORDS`: a request of these words, and of the input that was prepared, behind those before;
//!   `failed WORDS`, `long WORDS`: one whose input could not be read, or had more than a request can
//!   bring; `raw HEX`: these bytes behind the requests.
//! - `serve`: a node is asked these requests, and printed as by `run`; `cuts`: a node is asked each
//!   front of these bytes, and what it comes to is printed where it is another than before, with how
//!   many bytes they are.
//! - `asked`: how many commands of `run` and `try` were asked of a node too since the case began:
//!   each whose files a node holds as they are, and none of whose calls is to fail, but `sync`,
//!   `serve` and `quit`. Where the answer or the files are others than by the command itself, that is
//!   printed.
//! - `sync WORDS`: a run whose outcome is printed: its status, its lines, what was sent on each link,
//!   and file 0.
//! - `mailbox WORDS`: a mailbox file is read or written, and what it came to is printed, and both
//!   files.
//! - `load HEX`: the files are this one and an empty one, and the status of `show` over them and what
//!   it says of a fault are printed.
//! - `compact`: the line of the command `compact` is printed, or its status where it is another than
//!   0, and both files.
//! - `states`: the state of each held message is printed, as `show` does.
//! - `other`: the other file is printed.
//! - `stops compact`: the command is stopped at each call of the disk, and each image that a crash
//!   then leaves is asked whether it has the journal or its brief account, opens, and can be
//!   compacted to the same; how many had which is printed.
//! - `stops WORDS`: this run, or this mailbox file, is stopped at each call of the disk instead, and
//!   behind the last, and for each image that a crash then leaves it is asked whether it opens to a
//!   journal that goes on from the old one and holds each message that was acknowledged.
#![tactic(auto)]

mod answer;
mod case;
mod command;
mod compacting;
mod crash;
mod crossed;
mod expand;
mod files;
mod served;
mod slow;
mod stage;
mod stops;

use crate::case::Case;
use crate::expand::expanded;
use anyhow::Result;
use std::alloc::Global;

/// Plays the lines of a text, and prints what came of each. An error is a line that can't be read, or
/// that there is no memory.
pub fn play_text(rt: &impl Print, alloc: Global, text: &str) -> Result<()> {
    let mut case = Case::new(alloc)?;
    for line in text.split('\n') {
        if !line.is_empty() && !line.starts_with('#') {
            case.play(expanded(alloc, line)?.as_str())?;
            case.print(rt)?;
        }
    }
    Ok(())
}
