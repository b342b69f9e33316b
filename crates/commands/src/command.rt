//! The commands.
ghost use Rattle.std.specs.Prelude.{◌≡◌};
ghost use Rattle.commands.specs.Writing.{may_write, reads_body};

use sync_ids::{GroupId, MessageId};
use sync_rules::Level;
use sync_words::{LinkList, Word};

/// What the words of a command line ask for. The parts are those of the command, in order.
#[derive(Debug, Drop)]
pub enum Command {
    /// `try NAME DESCRIPTOR`: plays a stream of records in a group of this client and descriptor.
    Try(Word, Word),
    /// `records`: lists a stream of records.
    Records,
    /// `init`: makes a store.
    Init,
    /// `contact`: adds a contact.
    Contact,
    /// `group NAME MAJOR DESCRIPTOR`: adds a group.
    Group(Word, u32, Word),
    /// `share CONTACT GROUP LEVEL`: sets a level.
    Share(u8, GroupId, Level),
    /// `post GROUP TIMESTAMP`: writes a message.
    Post(GroupId, u64),
    /// `show`: prints what a store knows.
    Show,
    /// `inbox`: prints the delivered messages.
    Inbox,
    /// `inbox FROM COUNT`: prints so many of the delivered messages, from a place on.
    InboxFrom(u32, u32),
    /// `body ID`: writes the body of a message.
    Body(MessageId),
    /// `tree GROUP FROM COUNT`: prints so many messages of the walk of a group's replies, from a
    /// place on.
    Tree(GroupId, u32, u32),
    /// `audit`: reads the two files of a store a second time and in another way, and prints what
    /// their journal comes to.
    Audit,
    /// `say GROUP TIMESTAMP STANCE NAME MAJOR DESCRIPTOR`: says in a sharing group that its author
    /// joins the group of this client, major version and descriptor, or leaves it.
    Say(GroupId, u64, bool, Word, u32, Word),
    /// `agree CONTACT GROUP`: sets the levels of the groups on which this device and a contact agree
    /// in a sharing group.
    Agree(u8, GroupId),
    /// `status`: prints how many messages and sessions a store has, what its journal takes and what is
    /// left, and the version of the program.
    Status,
    /// `quit`: ends a node that serves, which alone can be asked for it.
    Quit,
    /// `compact`: writes the journal anew as its brief account.
    Compact,
    /// `mailbox in CONTACT`: takes the records of the input, a file from a contact.
    MailboxIn(u8),
    /// `mailbox out CONTACT LATENCY COUNT`: writes a file for a contact, with at most so many outputs,
    /// on a session of this latency, in milliseconds.
    MailboxOut(u8, u32, u32),
    /// `serve std`: answers the requests of its standard input, as a node that holds the store.
    Serve,
    /// `sync TURNS QUIET` and the words of each link: runs sessions over the links, at most so many
    /// turns, and until so many turns in a row were still.
    Sync(u32, u32, LinkList),
}

impl Command {
    /// Whether the command reads the body of a message from its input, which comes when it comes.
    pub fn reads_body(&self) -> bool
        ensures { result ≡ reads_body self.now }
    {
        matches!(self, Command::Post(_, _))
    }

    /// Whether the command may write the files of a store.
    pub fn may_write(&self) -> bool
        ensures { result ≡ may_write self.now }
    {
        match self {
            Command::Init
            | Command::Contact
            | Command::Group(_, _, _)
            | Command::Share(_, _, _)
            | Command::Post(_, _)
            | Command::Say(_, _, _, _, _, _)
            | Command::Agree(_, _)
            | Command::Compact
            | Command::MailboxIn(_)
            | Command::MailboxOut(_, _, _)
            | Command::Serve
            | Command::Sync(_, _, _) => true,
            Command::Try(_, _)
            | Command::Records
            | Command::Show
            | Command::Inbox
            | Command::InboxFrom(_, _)
            | Command::Body(_)
            | Command::Tree(_, _, _)
            | Command::Audit
            | Command::Status
            | Command::Quit => false,
        }
    }
}
