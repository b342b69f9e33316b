//! What holds of the journal that a run of sessions or a node that serves leaves at any moment. The
//! functions do nothing; their clauses are the laws.
ghost use Rattle.sync_top.specs.Sound.{LivesAreSound, RunsAreSound};

use entry_codec::laws::standing_is_legal;
use sync_rules::laws::{once, order, origin, output};

/// Sound: a journal of a run is legal and extends the one that the run began with; in it each
/// message comes, is judged and ends at most once, is delivered behind its judgement and all that
/// it depends on, and was written here or came from a contact to whom its group was not Invisible;
/// the records taken on a link are the first of those heard on it, in order; and what was sent on
/// it is a front of its session's output, which acknowledges what is held and sends and offers what
/// is Delivered and in a group Shared with the contact.
pub fn runs_are_sound()
    ensures { RunsAreSound }
{
    once();
    order();
    origin();
    output();
    standing_is_legal();
}

/// Sound in a life: a journal that goes on from that with which a node began, perhaps through brief
/// accounts, is legal, and in it each message comes, is judged and ends at most once, is delivered
/// behind its judgement and all that it depends on, and was written here or came from a contact to
/// whom its group was not Invisible.
pub fn lives_are_sound()
    ensures { LivesAreSound }
{
    once();
    order();
    origin();
    standing_is_legal();
}
