//! What a command needs of the files of a store.
ghost use Rattle.std.specs.Prelude.{◌≡◌};
ghost use Rattle.node_program.specs.Needs.{touches};
ghost use Rattle.commands.specs.Writing.{may_write, uses_store};
ghost use Rattle.outside_real.specs.Need.{writes};

use commands::Command;
use mailbox_commands::MAX_MAIL;
use outside_real::Need;
use sync_ids::MAX_BODY;

/// What a command needs of the files of the store in its folder.
pub fn need_of(command: &Command) -> Need
    ensures writes { writes result ≡ may_write command.now }
    ensures touches { touches result ≡ uses_store command.now }
{
    match command {
        Command::Try(_, _) | Command::Records | Command::Quit => Need::Nothing,
        Command::Init => Need::Make,
        Command::Sync(_, _, _) | Command::Serve => Need::Stay,
        _ if command.may_write() => Need::Write,
        _ => Need::Read,
    }
}

/// How many bytes of its input a command reads before it asks for the files, so that nobody waits
/// for it while it waits for that: all that it reads at most.
pub fn early_input(command: &Command) -> usize {
    match command {
        Command::MailboxIn(_) => MAX_MAIL as usize + 1,
        _ if command.reads_body() => MAX_BODY + 1,
        _ => 0,
    }
}
