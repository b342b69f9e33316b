// What a command plans to add to a store, as it was loaded.
ghost use Rattle.std.specs.Prelude.{◌≡◌, ◌≤◌, true, is_some};
ghost use Rattle.sync_rules.specs.Facts.{group_at};
ghost use Rattle.store_commands.specs.Plans.{contact_plan, group_plan, level_plan, message_plan};
ghost use Rattle.store_commands.specs.Plans.{plan_of, post_plan};
ghost use Rattle.store_commands.specs.Post.{IsPlanOfPost, posted_message};

use sync_ids::{GroupDef, GroupId, MAX_TIMESTAMP, Message, MessageFault, MessageId};
use sync_rules::{Clients, Entry, Level, Refused};
use sync_store::{PostFault, Store};
use sync_words::Outcome;

/// The next contact.
pub fn plan_contact(store: &Store) -> Result<Entry, Refused>
    ensures { contact_plan store.now.state.facts ≡ plan_of result }
{
    let n = store.may_contact()?;
    Ok(Entry::Contact(n))
}

/// The group of this definition.
pub fn plan_group<C: Clients>(store: &Store, clients: &C, def: GroupDef) -> Result<Entry, Refused>
    ensures { group_plan (C.meaning clients.now) store.now.state.facts def ≡ plan_of result }
{
    store.may_group(clients, &def)?;
    Ok(Entry::Group(def))
}

/// The level of a group for a contact.
pub fn plan_level(
    store: &Store,
    contact: u8,
    group: &GroupId,
    level: Level,
) -> Result<Entry, Refused>
    ensures { level_plan store.now.state.facts contact group.now level ≡ plan_of result }
{
    store.may_level(contact, group)?;
    Ok(Entry::Level(contact, *group, level))
}

/// A message that a command adds, with its id.
#[derive(Drop)]
pub struct PlannedPost {
    /// The message.
    pub message: Message,
    /// Its id.
    pub id: MessageId,
}

/// The message of this body in a known group, with its id.
pub fn plan_post<C: Clients>(
    store: &Store,
    clients: &C,
    group: GroupId,
    timestamp: u64,
    body: Vec<u8>,
) -> Result<PlannedPost, Outcome>
    requires known { is_some (group_at store.now.state.facts.groups group) ≡ true }
    requires timestamp { timestamp ≤ MAX_TIMESTAMP }
    ensures { IsPlanOfPost (post_plan (C.meaning clients.now) store.now.state.facts
        (posted_message group timestamp body.items)) result }
{
    match Message::new(group, timestamp, body) {
        Ok(message) => plan_message(store, clients, message),
        Err(MessageFault::EmptyBody) => Err(Outcome::Refused(Refused::EmptyBody)),
        Err(MessageFault::BodyTooLong) => Err(Outcome::Refused(Refused::BodyTooLong)),
        Err(MessageFault::BadTimestamp) => unreachable!(),
    }
}

/// The message, within its limits, with its id.
pub fn plan_message<C: Clients>(
    store: &Store,
    clients: &C,
    message: Message,
) -> Result<PlannedPost, Outcome>
    ensures { IsPlanOfPost (message_plan (C.meaning clients.now) store.now.state.facts message)
        result }
{
    match store.may_post(clients, &message) {
        Ok(id) => Ok(PlannedPost { message, id }),
        Err(PostFault::Refused(why)) => Err(Outcome::Refused(why)),
        Err(PostFault::Memory) => Err(Outcome::Memory),
    }
}
