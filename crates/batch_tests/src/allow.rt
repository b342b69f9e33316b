//! Whether a batch may follow a journal.
ghost use Rattle.std.specs.Prelude.{◌≡◌, ◌&&◌, false, is_none, is_some, nat_eq, nat_lt, IfOk};
ghost use Rattle.std.specs.List.{list_all};
ghost use Rattle.sync_ids.specs.Ids.{message_id_of};
ghost use Rattle.sync_rules.specs.Facts.{group_at, held_at, session_at};
ghost use Rattle.sync_rules.specs.Legal.{accepts_served, suits_nonce};
ghost use Rattle.sync_rules.specs.Sessions.{shared_ids};
ghost use Rattle.sync_rules.specs.Steps.{is_served, verdict_in};
ghost use Rattle.sync_rules.specs.declared.limits.TheConstants.{MAX_CONTACTS};
ghost use Rattle.sync_rules.specs.Allows.{allows, is_due_on, is_settled, is_settling_kind};
ghost use Rattle.sync_rules.specs.Allows.{is_empty_start, is_opening, may_add_group, may_author};
ghost use Rattle.sync_rules.specs.Allows.{may_begin, may_keep, may_take};
ghost use Rattle.session_core.specs.Known.{IsIdOf, IsOfAll, IsOfEntry};
ghost use Rattle.sync_rules.specs.Allows.{is_rows_kind, may_stand_alone};

use crate::given::gives;
use crate::journal_view::JournalView;
use crate::known_id::id_known;
use session_core::due;
use std::alloc::{AllocError, Global};
use sync_ids::{GroupDef, GroupId, Message, MessageId, group_id};
use sync_rules::{
    Batch, Clients, Entry, Judgement, MAX_GROUPS, MAX_SESSIONS, Mode, Origin, Out, Session, Start,
    same_out,
};

// ---- one entry

// Whether a contact of this number may be added.
fn allows_contact<J: JournalView>(journal: &J, contact: u8) -> bool
    ensures { result ≡ (nat_eq contact (J.seen journal.now).facts.contacts
        && nat_lt contact MAX_CONTACTS) }
{
    u32::from(contact) == journal.contacts()
}

// Whether a group may be added.
fn allows_group<J: JournalView, C: Clients>(journal: &J, clients: &C, def: &GroupDef) -> bool
    ensures { result ≡ may_add_group (C.meaning clients.now) (J.seen journal.now).facts def.now }
{
    let known = clients.kind_of(def.name(), def.major());
    if known.is_none() || journal.knows_group(&group_id(def)) {
        return false;
    }
    (journal.groups() as usize) < MAX_GROUPS
}

// Whether a level may be set for this contact and group.
fn allows_level<J: JournalView>(journal: &J, contact: u8, group: &GroupId) -> bool
    ensures { result ≡ (nat_lt contact (J.seen journal.now).facts.contacts && is_some
        (group_at (J.seen journal.now).facts.groups group.now)) }
{
    u32::from(contact) < journal.contacts() && journal.knows_group(group)
}

// Whether a session has a nonce only in interactive mode.
fn suits_nonce(session: &Session) -> bool
    ensures { result ≡ suits_nonce session.now.mode session.now.nonce }
{
    match session.mode {
        Mode::Interactive => true,
        Mode::Batch => session.nonce.is_none(),
    }
}

// Whether a session may begin.
fn allows_session<J: JournalView>(journal: &J, session: &Session) -> bool
    ensures { result ≡ may_begin (J.seen journal.now).facts session.now }
{
    if session.number != journal.begun() || session.number >= MAX_SESSIONS {
        return false;
    }
    if u32::from(session.contact) >= journal.contacts() {
        return false;
    }
    session.latency >= 1 && suits_nonce(session)
}

// What its client says of a message; Refuse where its group or its client is not known. It fails
// only for want of memory.
fn judgement<J: JournalView, C: Clients>(
    alloc: Global,
    journal: &J,
    clients: &C,
    message: &Message,
) -> Result<Judgement, AllocError>
    ensures { IfOk result (λ j. j ≡ verdict_in (C.meaning clients.now)
        (J.seen journal.now).facts.groups message.now) }
{
    let Some(def) = journal.def(&message.group()) else {
        return Ok(Judgement::Refuse);
    };
    match clients.kind_of(def.name(), def.major()) {
        Some(kind) => clients.judge(alloc, kind, message),
        None => Ok(Judgement::Refuse),
    }
}

// Whether each of these dependencies of a message of this group is served.
fn serves_all<J: JournalView>(journal: &J, group: &GroupId, ids: &[MessageId]) -> bool
    ensures { result ≡ list_all (is_served (J.seen journal.now).facts group.now) ids.now }
{
    ids.iter().all(|id| journal.serves(group, id))
}

// Whether a judgement accepts a message of this group, each of whose dependencies is served.
fn accepts_served<J: JournalView>(journal: &J, group: &GroupId, judgement: &Judgement) -> bool
    ensures { result ≡ accepts_served (J.seen journal.now).facts group.now judgement.now }
{
    match judgement {
        Judgement::Refuse => false,
        Judgement::Accept { deps, .. } => serves_all(journal, group, deps.as_slice()),
    }
}

// Whether a message may be written.
#[tactic(auto, using(crate::proofs::Authored::authored))]
fn allows_author<J: JournalView, C: Clients>(
    alloc: Global,
    journal: &J,
    clients: &C,
    known: &Option<MessageId>,
    message: &Message,
) -> Result<bool, AllocError>
    requires { IsIdOf known.now message.now }
    ensures { IfOk result (λ yes. yes ≡ may_author (C.meaning clients.now)
        (J.seen journal.now).facts message.now) }
{
    if journal.find(&id_known(known, message)).is_some() {
        return Ok(false);
    }
    // A message whose group is not known is refused.
    let judgement = judgement(alloc, journal, clients, message)?;
    Ok(accepts_served(journal, &message.group(), &judgement))
}

// Whether a journal has no entry yet.
fn is_empty_start(start: Start) -> bool
    ensures { result ≡ is_empty_start start }
{
    match start {
        Start::Empty => true,
        Start::Opening | Start::Going => false,
    }
}

// Whether a journal is a brief account so far.
fn is_opening(start: Start) -> bool
    ensures { result ≡ is_opening start }
{
    match start {
        Start::Opening => true,
        Start::Empty | Start::Going => false,
    }
}

// Whether a message that came from this contact may be held.
fn allows_held<J: JournalView>(
    journal: &J,
    known: &Option<MessageId>,
    contact: u8,
    message: &Message,
) -> bool
    requires { IsIdOf known.now message.now }
    ensures { result ≡ (is_some (group_at (J.seen journal.now).facts.groups message.now.group)
        && (is_none (held_at (J.seen journal.now).facts.held (message_id_of message.now))
        && nat_lt contact (J.seen journal.now).facts.contacts)) }
{
    if !journal.knows_group(&message.group()) {
        return false;
    }
    let new = journal.find(&id_known(known, message)).is_none();
    new && u32::from(contact) < journal.contacts()
}

// Whether a message may be kept, by a brief account.
fn allows_kept<J: JournalView, C: Clients>(
    alloc: Global,
    journal: &J,
    clients: &C,
    known: &Option<MessageId>,
    from: Origin,
    message: &Message,
) -> Result<bool, AllocError>
    requires { IsIdOf known.now message.now }
    ensures { IfOk result (λ yes. yes ≡ (is_opening (J.seen journal.now).facts.start
        && may_keep (C.meaning clients.now) (J.seen journal.now).facts from message.now)) }
{
    if !is_opening(journal.start()) {
        return Ok(false);
    }
    match from {
        Origin::Author => allows_author(alloc, journal, clients, known, message),
        Origin::From(contact) => Ok(allows_held(journal, known, contact, message)),
    }
}

// Whether this is what is due on a session at this time, by what these clients let be sent on.
#[tactic(auto, using(crate::proofs::Due::due_along))]
fn allows_out<J: JournalView, C: Clients>(
    alloc: Global,
    journal: &J,
    clients: &C,
    session: u32,
    now: u64,
    what: &Out,
) -> Result<bool, AllocError>
    requires { (J.seen journal.now).shared ≡ shared_ids (C.meaning clients.now)
        (J.seen journal.now).facts }
    ensures { IfOk result (λ yes. yes ≡ is_due_on (C.meaning clients.now) (J.seen journal.now).facts
        (session_at (J.seen journal.now).facts.sessions session) now what.now) }
{
    let Some(on) = journal.session_of(session) else {
        return Ok(false);
    };
    match due(alloc, journal, &on, now)? {
        None => Ok(false),
        Some(output) => Ok(same_out(&output, what)),
    }
}

// Whether an entry may follow a settled journal as a batch of its own, where it is no Take and
// begins no brief account.
fn may_stand_alone<J: JournalView, C: Clients>(
    alloc: Global,
    journal: &J,
    clients: &C,
    known: &Option<MessageId>,
    entry: &Entry,
) -> Result<bool, AllocError>
    requires shared { (J.seen journal.now).shared ≡ shared_ids (C.meaning clients.now)
        (J.seen journal.now).facts }
    requires named { IsOfEntry known.now entry.now }
    ensures { IfOk result (λ yes. yes ≡ may_stand_alone (C.meaning clients.now)
        (J.seen journal.now).facts entry.now) }
{
    match entry {
        Entry::Contact(contact) => Ok(allows_contact(journal, *contact)),
        Entry::Group(def) => Ok(allows_group(journal, clients, def)),
        Entry::Level(contact, group, _) => Ok(allows_level(journal, *contact, group)),
        Entry::Session(session) => Ok(allows_session(journal, session)),
        Entry::Author(message) => allows_author(alloc, journal, clients, known, message),
        Entry::Out(session, now, what) => {
            allows_out(alloc, journal, clients, *session, *now, what)
        }
        Entry::Kept(from, message) => {
            allows_kept(alloc, journal, clients, known, *from, message)
        }
        _ => Ok(false),
    }
}

// Whether these entries may follow the session's Take of this number.
fn allows_take<J: JournalView>(
    alloc: Global,
    journal: &J,
    session: u32,
    k: u64,
    known: &Option<MessageId>,
    entries: &[Entry],
) -> Result<bool, AllocError>
    requires { IsOfAll known.now entries.now }
    ensures { IfOk result (λ yes. yes ≡ may_take (J.seen journal.now).facts session k entries.now) }
{
    let Some(found) = journal.session_of(session) else {
        return Ok(false);
    };
    if k != journal.takes_on(session) {
        return Ok(false);
    }
    gives(alloc, journal, &found, k, known, entries)
}

// ---- batches

/// Whether a batch that begins neither with a step nor with a row or a wanted id may follow the
/// journal that the view shows. The caller says whether the journal is settled, and may give the id
/// of the one message that the batch brings, which is then not computed. It fails only for want of
/// memory.
pub fn allows<J: JournalView, C: Clients>(
    alloc: Global,
    journal: &J,
    clients: &C,
    settled: bool,
    batch: &Batch,
    id: Option<MessageId>,
) -> Result<bool, AllocError>
    requires shared { (J.seen journal.now).shared ≡ shared_ids (C.meaning clients.now)
        (J.seen journal.now).facts }
    requires settled { settled ≡ is_settled (C.meaning clients.now) (J.seen journal.now).facts }
    requires kind { is_settling_kind batch.now ≡ false }
    requires plain { is_rows_kind batch.now ≡ false }
    requires named { IsOfAll id batch.now }
    ensures { IfOk result (λ yes. yes ≡ allows (C.meaning clients.now) (J.seen journal.now).facts
        batch.now) }
{
    let Some((first, rest)) = batch.entries().split_first() else {
        return Ok(false);
    };
    if let Entry::Brief(_) = first {
        return Ok(rest.is_empty() && is_empty_start(journal.start()));
    }
    if !settled {
        return Ok(false);
    }
    if let Entry::Take(session, k) = first {
        return allows_take(alloc, journal, *session, *k, &id, rest);
    }
    if !rest.is_empty() {
        return Ok(false);
    }
    may_stand_alone(alloc, journal, clients, &id, first)
}
