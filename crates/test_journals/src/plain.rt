//! A cycle of two messages, each of which names the other as its dependency, and a plain view of a
//! journal.
use crate::checks::{made, same};
use crate::fixtures::{commit, definition, message};
use plain_rules::{PlainFault, PlainView, begin_session, hear_message};
use std::alloc::{AllocError, Global};
use std::process::Abort;
use sync_ids::{Fixed, GroupDef, GroupId, Message, MessageId, group_id};
use sync_rules::{
    Batch, Clients, DepList, Entry, Fate, Judgement, Level, Mode, Session, View, fate_in, id_of,
    level_in, next_step_in,
};

/// A client of all groups whose messages depend on one another: each names the other of two ids.
#[derive(Drop)]
struct Crossed {
    first: MessageId,
    second: MessageId,
}

impl Clients for Crossed {
    ghost use Rattle.std.specs.Prelude.{true, [], ◌∷◌, cond, Some};
    ghost use Rattle.sync_ids.specs.Ids.{message_id_of};
    ghost use Rattle.sync_rules.specs.Lists.{same_id};
    ghost use Rattle.sync_rules.specs.declared.answers.Judgement.TheVariants as judgement;

    ghost meaning = { λ c. record {
      kind_of = λ name major. Some 0;
      verdict = λ kind m. judgement.Accept
          (cond (same_id (message_id_of m) c.first) c.second c.first ∷ []) true;
    } };

    fn kind_of(&self, _name: &str, _major: u32) -> Option<u8> {
        Some(0)
    }

    fn judge(&self, alloc: Global, _kind: u8, message: &Message) -> Result<Judgement, AllocError> {
        let other = if id_of(message) == self.first {
            self.second
        } else {
            self.first
        };
        let mut ids = Vec::new(alloc);
        ids.push(other)?;
        match DepList::new(ids) {
            Ok(deps) => Ok(Judgement::Accept { deps, share: true }),
            Err(_) => unreachable!(),
        }
    }
}

fn note(rt: &impl Abort, alloc: Global) -> GroupDef {
    definition(rt, alloc, "note", 0, b"")
}

/// The journal of a session on which contact 0 sends both messages.
fn hear_both(
    alloc: Global,
    def: GroupDef,
    clients: &Crossed,
    first: Message,
    second: Message,
) -> Result<Vec<Batch>, AllocError> {
    let mut j = begin_session(alloc, def)?;
    hear_message(alloc, &mut j, clients, 0, 0, 0, first)?;
    hear_message(alloc, &mut j, clients, 0, 0, 1, second)?;
    Ok(j)
}

/// At its start the session has its contact, which sees the group, and none of its messages.
fn check_begun(rt: &impl Abort, alloc: Global, group: &GroupId, id: &MessageId) {
    let j = made(rt, begin_session(alloc, note(rt, alloc)));
    same(rt, &level_in(j.as_slice(), 0, group), &Level::Visible);
    same(rt, &level_in(j.as_slice(), 1, group), &Level::Invisible);
    same(rt, &fate_in(j.as_slice(), id), &None);
}

#[test]
fn leaves_a_cycle_pending(rt: HostRuntime) {
    let alloc = rt.alloc();
    let def = note(&rt, alloc);
    let group = group_id(&def);
    let a = message(&rt, alloc, &group, 7, b"a");
    let b = message(&rt, alloc, &group, 7, b"b");
    let clients = Crossed {
        first: id_of(&a),
        second: id_of(&b),
    };
    check_begun(&rt, alloc, &group, &clients.first);
    let j = made(&rt, hear_both(alloc, def, &clients, a, b));
    let first = fate_in(j.as_slice(), &clients.first);
    let second = fate_in(j.as_slice(), &clients.second);
    same(
        &rt,
        &(first, second),
        &(Some(Fate::Pending), Some(Fate::Pending)),
    );
    let step = made(&rt, next_step_in(alloc, j.as_slice(), &clients));
    assert!(rt; step.is_none());
}

/// A journal of contact 0, with whom the group is Shared, a session with it of latency 30,000, and
/// a delivered message that was written here.
fn shared_message(rt: &impl Abort, alloc: Global, def: GroupDef, message: Message) -> Vec<Batch> {
    let group = group_id(&def);
    let id = id_of(&message);
    let mut j = Vec::new(alloc);
    commit(rt, alloc, &mut j, Entry::Contact(0));
    commit(rt, alloc, &mut j, Entry::Group(def));
    commit(rt, alloc, &mut j, Entry::Level(0, group, Level::Shared));
    let session = Session {
        number: 0,
        contact: 0,
        mode: Mode::Interactive,
        latency: 30_000,
        nonce: None,
    };
    commit(rt, alloc, &mut j, Entry::Session(session));
    commit(rt, alloc, &mut j, Entry::Author(message));
    commit(rt, alloc, &mut j, Entry::Judged(id));
    commit(rt, alloc, &mut j, Entry::Deliver(id));
    j
}

/// The group of a held message.
fn group_of<V: View>(view: &V, id: &MessageId) -> Option<GroupId> {
    let n = view.find(id)?;
    Some(view.group_at(n))
}

/// Whether the contact has the message.
fn is_seen_by<V: View>(view: &V, contact: u8, id: &MessageId) -> bool {
    match view.find(id) {
        Some(n) => view.is_seen(contact, n),
        None => false,
    }
}

/// What a view tells of the shared message, and of another id that is wanted.
fn check_view<V: View>(
    rt: &impl Abort,
    view: &V,
    group: &GroupId,
    id: &MessageId,
    other: &MessageId,
) {
    let levels = (view.level(0, group), view.level(1, group));
    same(rt, &levels, &(Level::Shared, Level::Invisible));
    let places = (view.find(id), view.find(other));
    same(rt, &places, &(Some(0), None));
    same(rt, &group_of(view, id), &Some(*group));
    let seen = (is_seen_by(view, 0, id), is_seen_by(view, 1, id));
    same(rt, &seen, &(true, false));
    let wanted = (view.wanted_count(0), view.wanted_count(1));
    same(rt, &wanted, &(1, 0));
    assert!(rt; view.is_wanted(0, other));
}

/// One message is owed to the contact, and one id is wanted from it.
fn check_owed<V: View>(rt: &impl Abort, alloc: Global, view: &V) {
    let owed = made(rt, view.owed(alloc, 0));
    let wanted = made(rt, view.wanted(alloc, 0));
    same(rt, &(owed.len(), wanted.len()), &(1, 1));
}

fn check_views(
    rt: &impl Abort,
    alloc: Global,
    j: &[Batch],
    clients: &Crossed,
    group: &GroupId,
    other: &MessageId,
) {
    let view = made(rt, PlainView::new(alloc, j, clients));
    check_view(rt, &view, group, &clients.first, other);
    check_owed(rt, alloc, &view);
}

#[test]
fn views_a_journal(rt: HostRuntime) {
    let alloc = rt.alloc();
    let def = note(&rt, alloc);
    let group = group_id(&def);
    let m = message(&rt, alloc, &group, 7, b"m");
    let id = id_of(&m);
    let other = Fixed([9; 32]);
    let clients = Crossed {
        first: id,
        second: id,
    };
    let mut j = shared_message(&rt, alloc, def, m);
    commit(&rt, alloc, &mut j, Entry::Again(0, id));
    commit(&rt, alloc, &mut j, Entry::Offered(0, other));
    commit(&rt, alloc, &mut j, Entry::Offered(0, id));
    check_views(&rt, alloc, j.as_slice(), &clients, &group, &other);
    commit(&rt, alloc, &mut j, Entry::Level(0, other, Level::Visible));
    let refused = PlainView::new(alloc, j.as_slice(), &clients);
    same(&rt, &refused.err(), &Some(PlainFault::UnknownGroup));
}
