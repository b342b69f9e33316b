//! The sessions at a place in a list of batches: behind some batches and some entries of the next
//! one.
ghost use Rattle.plain_rules.specs.Sessions.{first_session, first_session_in, session_named};
ghost use Rattle.std.specs.Option.{option_copied};
ghost use Rattle.std.specs.Prelude.{◌≡◌};
ghost use Rattle.sync_rules.specs.Facts.{after_all, contact_of, facts, latency_of, session_at};

use sync_rules::{Batch, Entry, Session};

fn session_named_in(entry: &Entry, number: u32) -> Option<&Session>
    ensures { option_copied result ≡ session_named number entry.now }
{
    match entry {
        Entry::Session(session) => {
            if session.number == number {
                Some(session)
            } else {
                None
            }
        }
        _ => None,
    }
}

fn find_session(entries: &[Entry], number: u32) -> Option<&Session>
    ensures { option_copied result ≡ first_session number entries.now }
{
    for entry in entries {
        if let Some(session) = session_named_in(entry, number) {
            return Some(session);
        }
    }
    None
}

fn find_session_in(j: &[Batch], number: u32) -> Option<&Session>
    ensures { option_copied result ≡ first_session_in number j.now }
{
    for batch in j {
        if let Some(session) = find_session(batch.entries(), number) {
            return Some(session);
        }
    }
    None
}

#[tactic(auto, using(crate::proofs::SessionScans::session_found))]
fn session_before<'a>(earlier: &'a [Batch], before: &'a [Entry], number: u32) -> Option<&'a Session>
    ensures { option_copied result ≡ session_at (after_all (facts earlier.now) before.now).sessions
        number }
{
    match find_session_in(earlier, number) {
        Some(session) => Some(session),
        None => find_session(before, number),
    }
}

pub(crate) fn contact_before(earlier: &[Batch], before: &[Entry], session: u32) -> u8
    ensures { result ≡ contact_of (after_all (facts earlier.now) before.now).sessions session }
{
    match session_before(earlier, before, session) {
        Some(session) => session.contact,
        None => 0,
    }
}

pub(crate) fn latency_before(earlier: &[Batch], before: &[Entry], session: u32) -> u32
    ensures { result ≡ latency_of (after_all (facts earlier.now) before.now).sessions session }
{
    match session_before(earlier, before, session) {
        Some(session) => session.latency,
        None => 0,
    }
}
