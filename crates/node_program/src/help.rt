//! What the words of a command line ask of the program itself, and its answers.
ghost use Rattle.std.specs.Prelude.{◌≡◌};
ghost use Rattle.node_program.specs.Help.{AnswersHelp, TellsText, asks_help, asks_topic};
ghost use Rattle.node_program.specs.Help.{begins_nothing, ends_topic, is_alone, mailbox_topic};
ghost use Rattle.node_program.specs.Help.{text_of, topic_in};
ghost use Rattle.sync_words.specs.Words.{texts};

use crate::texts;
use outside::{Sink, write_text};
use sync_top::{Outcome, Status, report};
use sync_words::version_line;

/// What help is about.
#[derive(Clone, Copy)]
pub enum Topic {
    /// What commands there are.
    Overview,
    /// `init`.
    Init,
    /// `contact`.
    Contact,
    /// `group`.
    Group,
    /// `share`.
    Share,
    /// `post`.
    Post,
    /// `show`.
    Show,
    /// `inbox`, whole or a part.
    Inbox,
    /// `body`.
    Body,
    /// `tree`.
    Tree,
    /// `audit`.
    Audit,
    /// `status`.
    Status,
    /// `say`.
    Say,
    /// `agree`.
    Agree,
    /// `compact`.
    Compact,
    /// `mailbox in` and `mailbox out`.
    Mailbox,
    /// `mailbox in`.
    MailboxIn,
    /// `mailbox out`.
    MailboxOut,
    /// `sync`.
    Sync,
    /// `serve`.
    Serve,
    /// `watch`.
    Watch,
    /// `quit`.
    Quit,
    /// `records`.
    Records,
    /// `try`.
    Try,
}

impl Topic {
    /// What the program tells of it.
    pub fn text(self) -> &'static str
        ensures { result.now ≡ text_of self }
    {
        match self {
            Topic::Overview => texts::OVERVIEW,
            Topic::Init => texts::INIT,
            Topic::Contact => texts::CONTACT,
            Topic::Group => texts::GROUP,
            Topic::Share => texts::SHARE,
            Topic::Post => texts::POST,
            Topic::Show => texts::SHOW,
            Topic::Inbox => texts::INBOX,
            Topic::Body => texts::BODY,
            Topic::Tree => texts::TREE,
            Topic::Audit => texts::AUDIT,
            Topic::Status => texts::STATUS,
            Topic::Say => texts::SAY,
            Topic::Agree => texts::AGREE,
            Topic::Compact => texts::COMPACT,
            Topic::Mailbox => texts::MAILBOX,
            Topic::MailboxIn => texts::MAILBOX_IN,
            Topic::MailboxOut => texts::MAILBOX_OUT,
            Topic::Sync => texts::SYNC,
            Topic::Serve => texts::SERVE,
            Topic::Watch => texts::WATCH,
            Topic::Quit => texts::QUIT,
            Topic::Records => texts::RECORDS,
            Topic::Try => texts::TRY,
        }
    }
}

/// What is asked of the program itself.
#[derive(Clone, Copy)]
pub enum Help {
    /// To be told of this.
    Tell(Topic),
    /// To be told the version of the program.
    Version,
    /// Something that is not there: the place of the first wrong word.
    Wrong(usize),
}

/// What the words ask of the program itself, if they do.
pub fn help_asked(words: &[String]) -> Option<Help>
    ensures { result ≡ asks_help (texts words.now) }
{
    let [word, rest @ ..] = words else {
        return None;
    };
    match word.as_str() {
        "help" => Some(topic_asked(rest)),
        "--help" | "-h" => alone(Help::Tell(Topic::Overview), rest),
        "--version" => alone(Help::Version, rest),
        _ => None,
    }
}

// This is asked, where no word follows.
fn alone(asked: Help, words: &[String]) -> Option<Help>
    ensures { result ≡ is_alone asked (texts words.now) }
{
    if words.is_empty() { Some(asked) } else { None }
}

// What the words behind `help` ask.
fn topic_asked(words: &[String]) -> Help
    ensures { result ≡ asks_topic (texts words.now) }
{
    let [word, rest @ ..] = words else {
        return Help::Tell(Topic::Overview);
    };
    match topic_named(word.as_str()) {
        Some(Topic::Mailbox) => mailbox_asked(rest),
        Some(topic) => ended(topic, 2, rest),
        None => Help::Wrong(1),
    }
}

// The command of this name.
fn topic_named(name: &str) -> Option<Topic>
    ensures { result ≡ topic_in name.now }
{
    match name {
        "init" => Some(Topic::Init),
        "contact" => Some(Topic::Contact),
        "group" => Some(Topic::Group),
        "share" => Some(Topic::Share),
        "post" => Some(Topic::Post),
        "show" => Some(Topic::Show),
        "inbox" => Some(Topic::Inbox),
        "body" => Some(Topic::Body),
        "tree" => Some(Topic::Tree),
        "audit" => Some(Topic::Audit),
        "status" => Some(Topic::Status),
        "say" => Some(Topic::Say),
        "agree" => Some(Topic::Agree),
        "compact" => Some(Topic::Compact),
        "mailbox" => Some(Topic::Mailbox),
        "sync" => Some(Topic::Sync),
        "serve" => Some(Topic::Serve),
        "watch" => Some(Topic::Watch),
        "quit" => Some(Topic::Quit),
        "records" => Some(Topic::Records),
        "try" => Some(Topic::Try),
        _ => None,
    }
}

// What the words behind `help mailbox` ask.
fn mailbox_asked(words: &[String]) -> Help
    ensures { result ≡ mailbox_topic (texts words.now) }
{
    let [word, rest @ ..] = words else {
        return Help::Tell(Topic::Mailbox);
    };
    match word.as_str() {
        "in" => ended(Topic::MailboxIn, 3, rest),
        "out" => ended(Topic::MailboxOut, 3, rest),
        _ => Help::Wrong(2),
    }
}

// To be told of this, where no word stands from this place on.
fn ended(topic: Topic, place: usize, words: &[String]) -> Help
    ensures { result ≡ ends_topic topic place (texts words.now) }
{
    if words.is_empty() {
        Help::Tell(topic)
    } else {
        Help::Wrong(place)
    }
}

/// Answers what was asked, on the output, and says the status. It takes no memory.
pub fn answer<O: Sink, E: Sink>(asked: Help, out: &mut O, err: &mut E) -> Status
    ensures { AnswersHelp asked (O.tells out.old) (O.tells out.new) (E.tells err.old)
        (E.tells err.new) result }
{
    match asked {
        Help::Wrong(place) => report(&Outcome::Usage(place), err),
        Help::Version => tell(version_line("bsp").as_str(), out, err),
        Help::Tell(topic) => tell(topic.text(), out, err),
    }
}

// Tells a text on the output.
fn tell<O: Sink, E: Sink>(text: &str, out: &mut O, err: &mut E) -> Status
    ensures { TellsText text.now (O.tells out.old) (O.tells out.new) (E.tells err.old)
        (E.tells err.new) result }
{
    match write_text(out, text) {
        Ok(()) => Status::Done,
        Err(_) => report(&Outcome::WriteFault, err),
    }
}

/// Whether the words begin with no command: there are none, or the first is none.
pub fn is_lost(words: &[String]) -> bool
    ensures { result ≡ begins_nothing (texts words.now) }
{
    match words.first() {
        Some(word) => topic_named(word.as_str()).is_none(),
        None => true,
    }
}
