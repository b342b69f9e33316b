//! How the links of a command ended.
ghost use Rattle.std.specs.Prelude.{◌≡◌, ◌≤◌, length};
ghost use Rattle.sync_words.specs.Outcomes.{ends_status, link_status, links_status};

use crate::status::Status;
use outside::LINKS;
use std::marker::Model;
use sync_course::LinkEnd;

/// How the links of a run ended: whether it was over, and how each link stood then, at most 8 of
/// them in the order of the words. Contracts see the closing of the run.
#[derive(Debug, Drop)]
pub struct LinkEnds {
    over: bool,
    ends: Vec<LinkEnd>,
}

impl Model for LinkEnds {
    ghost use Rattle.std.specs.Prelude.{◌≤◌, length};
    ghost use Rattle.outside.specs.declared.limits.TheConstants.{LINKS};
    ghost use Rattle.sync_course.specs.Closing.{Closing};

    ghost Value = { Closing };

    ghost view = { λ l. record { over = l.over; ends = l.ends.items } };

    ghost invariant = { λ l. length l.ends.items ≤ LINKS };
}

impl LinkEnds {
    /// The links in this order, of a run that was over or not. It takes no memory.
    pub fn new(over: bool, ends: Vec<LinkEnd>) -> LinkEnds
        requires { length ends.items ≤ LINKS }
        ensures { result ≡ record { over = over; ends = ends.items } }
    {
        LinkEnds { over, ends }
    }

    /// Whether the run was over.
    pub fn is_over(&self) -> bool
        ensures { result ≡ self.now.over }
    {
        self.over
    }

    /// How each link stood at the end, in order.
    pub fn as_slice(&self) -> &[LinkEnd]
        ensures ends { result.now ≡ self.now.ends }
        ensures few { length result.now ≤ LINKS }
    {
        self.ends.as_slice()
    }

    /// The status of a command whose links ended so: that of the first link that did not end well.
    pub fn status(&self) -> Status
        ensures { result ≡ links_status self.now }
    {
        status_of_all(self.over, self.as_slice())
    }
}

fn status_of_all(over: bool, ends: &[LinkEnd]) -> Status
    ensures { result ≡ ends_status over ends.now }
{
    for end in ends {
        match status_of_one(over, *end) {
            Status::Done => {}
            status => return status,
        }
    }
    Status::Done
}

// Whether a link ended well is told by `Done`.
fn status_of_one(over: bool, end: LinkEnd) -> Status
    ensures { result ≡ link_status over end }
{
    match end {
        LinkEnd::Going | LinkEnd::Clean if !over => Status::TurnsUsed,
        LinkEnd::Going | LinkEnd::Clean | LinkEnd::Redundant => Status::Done,
        LinkEnd::Inside(_) | LinkEnd::Bad(_, _) | LinkEnd::NoVersion(_) => Status::BadStream,
        LinkEnd::Failed => Status::LinkFault,
    }
}
