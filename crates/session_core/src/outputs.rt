//! What output is due on a session.
ghost use Rattle.std.specs.Prelude.{◌≡◌, ◌≤◌, [], length, IfOk, MatchOption};
ghost use Rattle.sync_rules.specs.Sessions.{acks_due, due_by, offers_due, offers_of, owed_to};
ghost use Rattle.sync_rules.specs.Sessions.{requests_due, sooner_due, sooner_of, sooner_offers_of};
ghost use Rattle.sync_rules.specs.Sessions.{wanted_of};

use std::alloc::{AllocError, Global};
use sync_ids::{IdList, MAX_IDS, MessageId};
use sync_rules::{Mode, Out, Session, View};

/// The output that is due on a session at this time, in milliseconds, over the facts of the view.
/// `None` comes exactly where nothing is due. It fails only for want of memory.
pub fn due<V: View>(
    alloc: Global,
    view: &V,
    session: &Session,
    now: u64,
) -> Result<Option<Out>, AllocError>
    ensures { IfOk result (λ what. what ≡ due_by (V.seen view.now).facts (V.seen view.now).shared
        session.now now) }
{
    if let Some(acks) = acks(alloc, view, session)? {
        return Ok(Some(acks));
    }
    if let Some(requests) = requests(alloc, view, session)? {
        return Ok(Some(requests));
    }
    if let Some(id) = view.next_send(session.contact, session.mode, now) {
        return Ok(Some(Out::Send(id)));
    }
    if let Some(offers) = offers(alloc, view, session, now)? {
        return Ok(Some(offers));
    }
    sooner(alloc, view, session, now)
}

// The acknowledgements that are owed.
fn acks<V: View>(alloc: Global, view: &V, session: &Session) -> Result<Option<Out>, AllocError>
    ensures { IfOk result
        (λ what. what ≡ acks_due (owed_to (V.seen view.now).facts session.now.contact)) }
{
    let ids = view.owed(alloc, session.contact)?;
    Ok(id_list(ids).map(Out::Acks))
}

// The requests for what was offered.
fn requests<V: View>(alloc: Global, view: &V, session: &Session) -> Result<Option<Out>, AllocError>
    ensures { IfOk result (λ what. what ≡ requests_due session.now.mode
        (wanted_of (V.seen view.now).facts session.now.contact)) }
{
    if session.mode == Mode::Batch {
        return Ok(None);
    }
    let ids = view.wanted(alloc, session.contact)?;
    Ok(id_list(ids).map(Out::Requests))
}

// The offers whose time has come.
fn offers<V: View>(
    alloc: Global,
    view: &V,
    session: &Session,
    now: u64,
) -> Result<Option<Out>, AllocError>
    ensures { IfOk result (λ what. what ≡ offers_due session.now.mode
        (offers_of (V.seen view.now).facts (V.seen view.now).shared session.now.contact now)) }
{
    if session.mode == Mode::Batch {
        return Ok(None);
    }
    let ids = view.offers(alloc, session.contact, now)?;
    Ok(id_list(ids).map(Out::Offers))
}

// What goes again before its time.
fn sooner<V: View>(
    alloc: Global,
    view: &V,
    session: &Session,
    now: u64,
) -> Result<Option<Out>, AllocError>
    ensures { IfOk result (λ what. what ≡ sooner_due session.now.mode
        (sooner_of (V.seen view.now).facts (V.seen view.now).shared session.now.contact
        session.now.latency now)
        (sooner_offers_of (V.seen view.now).facts (V.seen view.now).shared session.now.contact
        session.now.latency now)) }
{
    if session.mode == Mode::Batch {
        let first = view.next_sooner(session.contact, session.latency, now);
        return Ok(first.map(Out::Send));
    }
    let ids = view.sooner_offers(alloc, session.contact, session.latency, now)?;
    Ok(id_list(ids).map(Out::Offers))
}

// A list of these ids, unless there are none.
fn id_list(ids: Vec<MessageId>) -> Option<IdList<MAX_IDS>>
    requires { length ids.items ≤ MAX_IDS }
    ensures { MatchOption result (ids.items ≡ []) (λ list. list ≡ ids.items) }
{
    IdList::new(ids).ok()
}
