//! What a command came to.
ghost use Rattle.std.specs.Prelude.{◌≡◌, ◌≤◌, [], length};
ghost use Rattle.sync_words.specs.Outcomes.{came_to, ends_text, status_of, text_of};

use crate::error_lines::{
    ErrorText, add_bad_record, add_damaged, add_inside, add_link, add_no_node, add_no_request,
    add_no_version, add_node_busy, add_node_holds, add_plain, add_refused, add_script, add_usage,
};
use crate::links::LinkEnds;
use crate::status::Status;
use outside::{LINKS, Place};
use record_grammar::Reason;
use std::alloc::AllocError;
use sync_course::LinkEnd;
use sync_rules::Refused;

/// What a command came to, with what its lines on the error output name.
#[derive(Debug, Drop)]
pub enum Outcome {
    /// All was done; there is no line.
    Done,
    /// The place of the first wrong word.
    Usage(usize),
    /// What came to a node is no request.
    NoRequest,
    /// Neither file has an open header.
    NoStore,
    /// A file has an open header where a store was to be made.
    Exists,
    /// A test of the command failed.
    Refused(Refused),
    /// A node holds the store, and it is the node that was asked.
    NodeHolds,
    /// What only a node that serves can do was asked where none does.
    NoNode,
    /// The node that serves was asked, and did not say in time that it hears.
    NodeBusy,
    /// The files stand for no journal: this place of theirs is damaged.
    Damaged(Place),
    /// A call on the disk failed.
    DiskFault,
    /// The run over the links of the command came to its end, and they ended so; there is a line for
    /// each.
    Links(LinkEnds),
    /// A call on the link of this number failed before the run began.
    LinkFailed(u8),
    /// A read of the input failed.
    ReadFault,
    /// At this place of the input something begins that is no record.
    Bad(u64, Reason),
    /// The input ends inside a record that begins at this place.
    Inside(u64),
    /// The versions that the input lists at this place lack this side's.
    NoVersion(u64),
    /// The journal has no room for what was to be added.
    Full,
    /// Memory ran out.
    Memory,
    /// A write to the output failed.
    WriteFault,
    /// The input is too long.
    TooMuch,
    /// The first bad line of a script, counted from 1.
    BadScript(u64),
    /// The node that was asked went away before its answer: it was done or not.
    NoAnswer,
}

impl From<AllocError> for Outcome {
    ghost use Rattle.std.specs.Prelude.{◌≡◌};
    ghost use Rattle.sync_words.specs.declared.outcome.Outcome.TheVariants as outcome;

    ghost from_gives = { λ _ came. came ≡ outcome.Memory };

    fn from(_: AllocError) -> Outcome {
        Outcome::Memory
    }
}

impl From<Refused> for Outcome {
    ghost use Rattle.std.specs.Prelude.{◌≡◌};
    ghost use Rattle.sync_words.specs.declared.outcome.Outcome.TheVariants as outcome;

    ghost from_gives = { λ why came. came ≡ outcome.Refused why };

    fn from(why: Refused) -> Outcome {
        Outcome::Refused(why)
    }
}

impl Outcome {
    /// What a command came to that did all, or ended before with an outcome.
    pub fn of(ended: Result<(), Outcome>) -> Outcome
        ensures { result ≡ came_to ended }
    {
        match ended {
            Ok(()) => Outcome::Done,
            Err(came) => came,
        }
    }

    /// The status of this outcome.
    pub fn status(&self) -> Status
        ensures { result ≡ status_of self.now }
    {
        match self {
            Outcome::Done => Status::Done,
            Outcome::Usage(_) | Outcome::NoRequest => Status::Usage,
            Outcome::NoStore => Status::NoStore,
            Outcome::Exists => Status::Exists,
            Outcome::Refused(_) => Status::Refused,
            Outcome::NodeHolds | Outcome::NoNode | Outcome::NodeBusy => Status::Refused,
            Outcome::Damaged(_) => Status::Damaged,
            Outcome::DiskFault => Status::DiskFault,
            Outcome::Links(ends) => ends.status(),
            Outcome::LinkFailed(_) => Status::LinkFault,
            Outcome::ReadFault => Status::ReadFault,
            Outcome::Bad(_, _) | Outcome::Inside(_) | Outcome::NoVersion(_) => Status::BadStream,
            Outcome::Full => Status::Full,
            Outcome::Memory => Status::Memory,
            Outcome::WriteFault => Status::WriteFault,
            Outcome::TooMuch => Status::TooMuch,
            Outcome::BadScript(_) => Status::BadScript,
            Outcome::NoAnswer => Status::NoAnswer,
        }
    }

    /// What the error output gets: a line, nothing where all was done, or a line for each link. It
    /// takes no memory.
    pub fn text(&self) -> ErrorText
        ensures { result.bytes ≡ text_of self.now }
    {
        let mut text = ErrorText::new();
        self.add_to(&mut text);
        text
    }

    fn add_to(&self, to: &mut ErrorText)
        requires { to.old.bytes ≡ [] }
        ensures { to.new.bytes ≡ text_of self.now }
    {
        match self {
            Outcome::Done => {}
            Outcome::Usage(place) => add_usage(*place, to),
            Outcome::NoRequest => add_no_request(to),
            Outcome::NoStore => add_plain(Status::NoStore, to),
            Outcome::Exists => add_plain(Status::Exists, to),
            Outcome::Refused(why) => add_refused(*why, to),
            Outcome::NodeHolds => add_node_holds(to),
            Outcome::NoNode => add_no_node(to),
            Outcome::NodeBusy => add_node_busy(to),
            Outcome::Damaged(place) => add_damaged(place.file, place.at, to),
            Outcome::DiskFault => add_plain(Status::DiskFault, to),
            Outcome::Links(ends) => add_links(ends.is_over(), ends.as_slice(), to),
            Outcome::LinkFailed(link) => add_link(*link, false, LinkEnd::Failed, to),
            Outcome::ReadFault => add_plain(Status::ReadFault, to),
            Outcome::Bad(place, reason) => add_bad_record(*place, *reason, to),
            Outcome::Inside(place) => add_inside(*place, to),
            Outcome::NoVersion(place) => add_no_version(*place, to),
            Outcome::Full => add_plain(Status::Full, to),
            Outcome::Memory => add_plain(Status::Memory, to),
            Outcome::WriteFault => add_plain(Status::WriteFault, to),
            Outcome::TooMuch => add_plain(Status::TooMuch, to),
            Outcome::BadScript(line) => add_script(*line, to),
            Outcome::NoAnswer => add_plain(Status::NoAnswer, to),
        }
    }
}

// A line for each link of a run that was over or not.
fn add_links(over: bool, ends: &[LinkEnd], to: &mut ErrorText)
    requires few { length ends.now ≤ LINKS }
    requires start { to.old.bytes ≡ [] }
    ensures { to.new.bytes ≡ ends_text 0 over ends.now }
{
    'links: for link in 0..ends.len() {
        add_link(link as u8, over, ends[link], to);
    }
}
