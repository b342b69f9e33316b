//! What the words of a command line ask of the program itself, and its answers.
ghost use Rattle.std.specs.Prelude.{◌≡◌};
ghost use Rattle.replay_program.specs.Help.{AnswersHelp, ReportsOutcome, asks_help, asks_topic};
ghost use Rattle.replay_program.specs.Help.{begins_nothing, ends_topic, is_alone, text_of};
ghost use Rattle.sync_words.specs.Words.{texts};

use crate::texts;
use outside::{Sink, write_text};
use sync_words::{Outcome, Status};

/// What help is about.
#[derive(Clone, Copy)]
pub enum Topic {
    /// What the program plays.
    Overview,
    /// The version of the program.
    Version,
    /// `gen`.
    Gen,
}

impl Topic {
    /// What the program tells of it.
    pub fn text(self) -> &'static str
        ensures { result.now ≡ text_of self }
    {
        match self {
            Topic::Overview => texts::OVERVIEW,
            Topic::Version => texts::VERSION,
            Topic::Gen => texts::GEN,
        }
    }
}

/// What is asked of the program itself.
#[derive(Clone, Copy)]
pub enum Help {
    /// To be told of this.
    Tell(Topic),
    /// Something that is not there: the place of the first wrong word.
    Wrong(usize),
}

/// What the words ask of the program itself, if they do.
pub fn help_asked(words: &[String]) -> Option<Help>
    ensures { result ≡ asks_help (texts words.now) }
{
    let [word, rest @ ..] = words else {
        return None;
    };
    match word.as_str() {
        "help" => Some(topic_asked(rest)),
        "--help" | "-h" => alone(Topic::Overview, rest),
        "--version" => alone(Topic::Version, rest),
        _ => None,
    }
}

// To be told of this, where no word follows.
fn alone(topic: Topic, words: &[String]) -> Option<Help>
    ensures { result ≡ is_alone topic (texts words.now) }
{
    if words.is_empty() {
        Some(Help::Tell(topic))
    } else {
        None
    }
}

// What the words behind `help` ask.
fn topic_asked(words: &[String]) -> Help
    ensures { result ≡ asks_topic (texts words.now) }
{
    let [word, rest @ ..] = words else {
        return Help::Tell(Topic::Overview);
    };
    match word.as_str() {
        "gen" => ended(Topic::Gen, rest),
        _ => Help::Wrong(1),
    }
}

// To be told of this, where no word stands behind its name.
fn ended(topic: Topic, words: &[String]) -> Help
    ensures { result ≡ ends_topic topic (texts words.now) }
{
    if words.is_empty() {
        Help::Tell(topic)
    } else {
        Help::Wrong(2)
    }
}

/// Answers what was asked, on the output, and says the status. It takes no memory.
pub fn answer<O: Sink, E: Sink>(asked: Help, out: &mut O, err: &mut E) -> Status
    ensures { AnswersHelp asked (O.tells out.old) (O.tells out.new) (E.tells err.old)
        (E.tells err.new) result }
{
    match asked {
        Help::Wrong(place) => report(&Outcome::Usage(place), err),
        Help::Tell(topic) => match write_text(out, topic.text()) {
            Ok(()) => Status::Done,
            Err(_) => report(&Outcome::WriteFault, err),
        },
    }
}

/// Writes what the error output gets of an outcome, and says its status. It takes no memory.
pub fn report<E: Sink>(outcome: &Outcome, err: &mut E) -> Status
    ensures { ReportsOutcome outcome.now (E.tells err.old) (E.tells err.new) result }
{
    let _ = write_text(err, outcome.text().as_str());
    outcome.status()
}

/// Whether the first word is none that the program knows.
pub fn is_lost(words: &[String]) -> bool
    ensures { result ≡ begins_nothing (texts words.now) }
{
    match words.first() {
        Some(word) => word.as_str() != "gen",
        None => false,
    }
}
