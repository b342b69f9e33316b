//! The status of a run.
ghost use Rattle.std.specs.Prelude.{◌≡◌};
ghost use Rattle.std.specs.Process.{exit_status};
ghost use Rattle.sync_words.specs.Statuses.{number_of};

use std::process::ExitCode;

/// What a run of a command came to.
#[derive(Clone, Copy, Debug, PartialEq, Eq)]
pub enum Status {
    /// All that the command says was done.
    Done,
    /// The words are not in the grammar.
    Usage,
    /// Neither file has an open header.
    NoStore,
    /// `init` where a file has an open header.
    Exists,
    /// A test of the command failed.
    Refused,
    /// The files stand for no journal.
    Damaged,
    /// A call on the disk failed.
    DiskFault,
    /// A call on a link failed.
    LinkFault,
    /// A read of the input failed.
    ReadFault,
    /// The input, or a link's, is no stream of records.
    BadStream,
    /// The journal has no room.
    Full,
    /// The turns of `sync` were used up.
    TurnsUsed,
    /// Memory ran out.
    Memory,
    /// A write to the output failed.
    WriteFault,
    /// More than 268,435,456 bytes were read.
    TooMuch,
    /// A script of several devices has a bad line.
    BadScript,
    /// The node that was asked went away before its answer, so it was done or not.
    NoAnswer,
}

impl Status {
    /// The exit status of a program that ends so, as its `main` answers it.
    pub fn exit_code(self) -> ExitCode
        ensures { exit_status result ≡ number_of self }
    {
        ExitCode::from(self.number())
    }

    /// The number of the exit status of a program that ends so.
    pub fn number(self) -> u8
        ensures { result ≡ number_of self }
    {
        match self {
            Status::Done => 0,
            Status::Usage => 1,
            Status::NoStore => 2,
            Status::Exists => 3,
            Status::Refused => 4,
            Status::Damaged => 5,
            Status::DiskFault => 6,
            Status::LinkFault => 7,
            Status::ReadFault => 8,
            Status::BadStream => 9,
            Status::Full => 10,
            Status::TurnsUsed => 11,
            Status::Memory => 12,
            Status::WriteFault => 13,
            Status::TooMuch => 14,
            Status::BadScript => 15,
            Status::NoAnswer => 17,
        }
    }
}
