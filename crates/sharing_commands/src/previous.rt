// The last message of a group that was written here.
ghost use Rattle.std.specs.Prelude.{◌≡◌, ◌&&◌, ◌<◌, length, slice_get, Some};
ghost use Rattle.sync_rules.specs.Facts.{Id, held_at};
ghost use Rattle.sync_rules.specs.Lists.{same_id};
ghost use Rattle.sync_rules.specs.Sessions.{is_author};
ghost use Rattle.sharing_commands.specs.Sayings.{own_or, previous_own};

use sync_ids::{Fixed, GroupId, Message, MessageId};
use sync_rules::Origin;
use sync_store::Store;

// The length of an id, in bytes.
const ID_LEN: usize = 32;

/// The id of the delivered message of the group that was written here and delivered last; 32 zero
/// bytes where there is none.
pub(crate) fn previous_own(store: &Store, group: &GroupId) -> MessageId
    ensures { result ≡ previous_own store.now.state.facts group.now }
{
    let mut last = Fixed([0; ID_LEN]);
    'delivered: for k in 0..store.delivered() {
        last = own_or(store, k, group, last);
    }
    last
}

// The k-th delivered message where it is one of the group that was written here, and else an
// earlier one.
fn own_or(store: &Store, k: u32, group: &GroupId, earlier: MessageId) -> MessageId
    requires { k < length store.now.state.facts.delivered }
    ensures { (id : Id) → slice_get store.now.state.facts.delivered k ≡ Some id
        → result ≡ own_or store.now.state.facts group.now earlier id }
{
    let n = store.delivered_at(k);
    if is_own(store.origin(n), store.message(n), group) {
        store.id_at(n)
    } else {
        earlier
    }
}

// Whether a message is one of a group and was written here.
fn is_own(origin: Origin, message: &Message, group: &GroupId) -> bool
    ensures { result ≡ is_author origin && same_id message.now.group group.now }
{
    match origin {
        Origin::Author => message.group() == *group,
        Origin::From(_) => false,
    }
}
