//! Whether some record is taken as entries.
ghost use Rattle.std.specs.Prelude.{◌≡◌, ◌∷◌, ◌&&◌, true, false, nat_eq, List};
ghost use Rattle.std.specs.Prelude.{IfOk, MatchOption, Some};
ghost use Rattle.std.specs.Cmp.Lexicographic.{pointwise};
ghost use Rattle.sync_ids.specs.declared.records.Record.TheVariants as record_kind;
ghost use Rattle.sync_ids.specs.Values.{IsMessage};
ghost use Rattle.sync_rules.specs.Facts.{session_at};
ghost use Rattle.sync_rules.specs.declared.entries.Entry.{Entry};
ghost use Rattle.sync_rules.specs.Allows.{gives, ids_named, is_id_list, is_record};
ghost use Rattle.sync_rules.specs.Allows.{read_as, same_entry};
ghost use Rattle.sync_rules.specs.Heard.{arrives};
ghost use Rattle.session_core.specs.Known.{IsIdOf, IsOfAll};
ghost use Rattle.batch_tests.specs.Listing.{record_of};

use crate::journal_view::JournalView;
use crate::known_id::id_known;
use session_core::take;
use std::alloc::{AllocError, Global};
use sync_ids::{IdList, MAX_IDS, Message, MessageId, Record};
use sync_rules::{Entry, Level, Session, ids_named, same_entries};

// Whether these entries are those of a batch behind its first one.
fn same_rest(entries: &[Entry], batch: &[Entry]) -> bool
    ensures { (first : Entry) → (rest : List Entry) → batch.now ≡ first ∷ rest
        → result ≡ pointwise same_entry entries.now rest }
{
    match batch.split_first() {
        None => false,
        Some((_, rest)) => same_entries(entries, rest),
    }
}

// The kind of a record that lists ids.
#[derive(Clone, Copy)]
enum ListKind {
    Acks,
    Offers,
    Requests,
}

// The record of this kind that lists these ids.
fn record_of(kind: ListKind, ids: IdList<MAX_IDS>) -> Record
    ensures { result ≡ record_of kind ids }
{
    match kind {
        ListKind::Acks => Record::Ack(ids),
        ListKind::Offers => Record::Offer(ids),
        ListKind::Requests => Record::Request(ids),
    }
}

// The ids that these entries name, as a record may list them; `None` comes exactly where there are
// none, or too many. It fails only for want of memory.
fn list_named(alloc: Global, entries: &[Entry]) -> Result<Option<IdList<MAX_IDS>>, AllocError>
    ensures { IfOk result (λ list. MatchOption list (is_id_list (ids_named entries.now) ≡ false)
        (λ ids. (ids ≡ ids_named entries.now) × (is_id_list ids ≡ true))) }
{
    match IdList::new(ids_named(alloc, entries)?) {
        Ok(ids) => Ok(Some(ids)),
        Err(_) => Ok(None),
    }
}

// Shows the prover that a message is within its limits, as every message is. It does nothing.
fn show_limits(message: &Message)
    ensures { IsMessage message.now }
{
    let _time = message.timestamp();
}

// Whether a record is taken as these entries.
fn gives_record<J: JournalView>(
    alloc: Global,
    journal: &J,
    session: &Session,
    k: u64,
    entries: &[Entry],
    rec: Record,
) -> Result<bool, AllocError>
    requires session { session_at (J.seen journal.now).facts.sessions session.now.number ≡ Some
        session.now }
    requires within { is_record rec ≡ true }
    ensures { IfOk result (λ yes. yes ≡ gives (J.seen journal.now).facts session.now.number
        entries.now rec) }
{
    let batch = take(alloc, journal, session, k, rec)?;
    Ok(same_rest(entries, batch.entries()))
}

// Whether the record of this kind that lists the ids which these entries name is taken as these
// entries.
#[tactic(auto, using(crate::proofs::Arrivals::listed_is, crate::proofs::Arrivals::listed_never))]
fn gives_list<J: JournalView>(
    alloc: Global,
    journal: &J,
    session: &Session,
    k: u64,
    entries: &[Entry],
    kind: ListKind,
) -> Result<bool, AllocError>
    requires { session_at (J.seen journal.now).facts.sessions session.now.number ≡ Some session.now }
    ensures { IfOk result (λ yes. yes ≡ gives (J.seen journal.now).facts session.now.number
        entries.now (record_of kind (ids_named entries.now))) }
{
    match list_named(alloc, entries)? {
        None => Ok(false),
        Some(ids) => gives_record(alloc, journal, session, k, entries, record_of(kind, ids)),
    }
}

// Whether a message arrives from the session's contact: its group is not Invisible to the contact,
// and its id is not held.
fn arrives<J: JournalView>(
    journal: &J,
    session: &Session,
    known: &Option<MessageId>,
    message: &Message,
) -> bool
    requires { IsIdOf known.now message.now }
    ensures new { result ≡ arrives (J.seen journal.now).facts session.now.contact message.now }
    ensures within { IsMessage message.now }
{
    show_limits(message);
    if journal.level(session.contact, &message.group()) == Level::Invisible {
        return false;
    }
    journal.find(&id_known(known, message)).is_none()
}

// Whether a message that arrived is taken as its arrival on a session of this number, and these
// entries.
#[tactic(auto, using(crate::proofs::Arrivals::arrival_is))]
fn gives_arrival<J: JournalView>(
    journal: &J,
    session: &Session,
    number: u32,
    known: &Option<MessageId>,
    message: &Message,
    rest: &[Entry],
) -> bool
    requires session { session_at (J.seen journal.now).facts.sessions session.now.number ≡ Some
        session.now }
    requires named { IsIdOf known.now message.now }
    ensures { result ≡ gives (J.seen journal.now).facts session.now.number
        (Entry.Arrive number message.now ∷ rest.now) (record_kind.Message message.now) }
{
    let new = arrives(journal, session, known, message);
    number == session.number && (rest.is_empty() && new)
}

// Whether some record is taken as these entries. It fails only for want of memory.
pub(crate) fn gives<J: JournalView>(
    alloc: Global,
    journal: &J,
    session: &Session,
    k: u64,
    known: &Option<MessageId>,
    entries: &[Entry],
) -> Result<bool, AllocError>
    requires named { IsOfAll known.now entries.now }
    requires session { session_at (J.seen journal.now).facts.sessions session.now.number ≡ Some
        session.now }
    ensures { IfOk result (λ yes. yes ≡ gives (J.seen journal.now).facts session.now.number
        entries.now (read_as entries.now)) }
{
    let Some((first, rest)) = entries.split_first() else {
        return Ok(true);
    };
    match first {
        Entry::Arrive(number, message) => {
            Ok(gives_arrival(journal, session, *number, known, message, rest))
        }
        Entry::Again(_, _) | Entry::Offered(_, _) => {
            gives_list(alloc, journal, session, k, entries, ListKind::Offers)
        }
        Entry::Seen(_, _) => gives_list(alloc, journal, session, k, entries, ListKind::Acks),
        Entry::Asked(_, _) => gives_list(alloc, journal, session, k, entries, ListKind::Requests),
        _ => Ok(false),
    }
}
