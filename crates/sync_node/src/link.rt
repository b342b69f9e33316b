//! A link with its session.
ghost use Rattle.std.specs.Prelude.{◌≡◌, ◌↔◌, IsTrue};
ghost use Rattle.sync_course.specs.Links.{stands_ended};
ghost use Rattle.sync_node.specs.Sending.{MaySend};

use record_grammar::Ending;
use record_stream::Reader;
use sync_course::LinkEnd;
use sync_ids::Nonce;
use sync_rules::Session;

/// How a link stands whose other side has ended.
pub(crate) fn ended(ending: Ending) -> LinkEnd
    ensures { result ≡ stands_ended ending }
{
    match ending {
        Ending::Clean => LinkEnd::Clean,
        Ending::Inside(place) => LinkEnd::Inside(place),
        Ending::Bad(place, reason) => LinkEnd::Bad(place, reason),
    }
}

/// A link that is attached.
#[derive(Drop)]
pub(crate) struct Link {
    /// The session that runs on it.
    pub(crate) session: Session,
    /// Reads what is heard on it.
    pub(crate) reader: Reader,
    /// The nonce by which it may be kept: its own, or the first that was heard.
    pub(crate) nonce: Option<Nonce>,
    /// How it stands.
    pub(crate) end: LinkEnd,
}

impl Link {
    /// Whether it is still asked.
    pub(crate) fn is_asked(&self) -> bool
        ensures { IsTrue result ↔ (self.now.end ≡ LinkEnd.Going) }
    {
        self.end == LinkEnd::Going
    }

    /// Whether something may be sent on it.
    pub(crate) fn may_send(&self) -> bool
        ensures { IsTrue result ↔ MaySend self.now.end }
    {
        matches!(self.end, LinkEnd::Going | LinkEnd::Clean)
    }
}
