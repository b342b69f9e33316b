//! A session that begins on a link.
ghost use Rattle.std.specs.Prelude.{◌≡◌, ◌<◌, ◌∷◌, [], length, IfOk, OnErr, OnOk};
ghost use Rattle.record_stream.specs.Reading.{AwaitsBytes, fresh_reader};
ghost use Rattle.sync_rules.specs.Legal.{Allowed};
ghost use Rattle.sync_rules.specs.declared.entries.Entry.TheVariants as entry;
ghost use Rattle.sync_store.specs.Ready.{IsReady};
ghost use Rattle.sync_node.specs.Causes.{LinkGoes};
ghost use Rattle.sync_node.specs.Keeps.{stop_of};
ghost use Rattle.sync_node.specs.OnRuns.{GreetsBy, StartWent, StartWentLast, StartWorks};

use crate::fault::Fault;
use crate::link::Link;
use crate::sending::send_on;
use crate::told::{cite_laws, commit};
use output_spelling::{spell_nonce, spell_versions};
use outside::Host;
use record_stream::Reader;
use std::alloc::Global;
use sync_course::LinkEnd;
use sync_rules::{Batch, Clients, Entry, Session};
use sync_store::Store;

/// Begins a session on the next link, and puts the link behind the others. It takes the buffer of
/// the link's reader, and room for the link, before anything else. `went`: the session stands in
/// the journal, and the link greeted, or its greeting failed and it is closed. `work`: else nothing
/// was done for want of memory or of room; or a call of the disk failed in the commit, and nothing
/// was sent.
pub(crate) fn attach_on<H: Host, C: Clients>(
    alloc: Global,
    store: &mut Store,
    host: &mut H,
    clients: &C,
    links: &mut Vec<Link>,
    number: u8,
    session: Session,
) -> Result<(), Fault>
    requires ready { IsReady (C.meaning clients.now) store.old (H.tells host.old).files }
    requires allowed { Allowed (C.meaning clients.now) store.old.state.facts
        (entry.Session session ∷ []) }
    requires last { length links.old.items ≡ number }
    requires dialled { number < (H.tells host.old).links.dialled }
    ensures work { StartWorks (C.meaning clients.now) session store.old store.new host.old host.new
        (H.tells host.old) (H.tells host.new) (stop_of result) }
    ensures went { OnOk result (StartWentLast (C.meaning clients.now) number session
        links.old.items links.new.items store.old store.new (H.tells host.old)
        (H.tells host.new)) }
    ensures same { OnErr result (links.new.items ≡ links.old.items) }
{
    let reader = Reader::new(alloc)?;
    links.reserve(1)?;
    let link = start(alloc, store, host, clients, number, session, reader)?;
    links.push(link).unwrap();
    Ok(())
}

// Commits a session, and then sends what it begins with. All is spelled first, so that nothing may
// fail between the two but a send, which closes the link.
fn start<H: Host, C: Clients>(
    alloc: Global,
    store: &mut Store,
    host: &mut H,
    clients: &C,
    number: u8,
    session: Session,
    reader: Reader,
) -> Result<Link, Fault>
    requires ready { IsReady (C.meaning clients.now) store.old (H.tells host.old).files }
    requires allowed { Allowed (C.meaning clients.now) store.old.state.facts
        (entry.Session session ∷ []) }
    requires fresh { reader ≡ fresh_reader }
    requires waits { AwaitsBytes reader }
    requires dialled { number < (H.tells host.old).links.dialled }
    ensures work { StartWorks (C.meaning clients.now) session store.old store.new host.old host.new
        (H.tells host.old) (H.tells host.new) (stop_of result) }
    ensures went { IfOk result (λ link. StartWent (C.meaning clients.now) number session link
        store.old store.new (H.tells host.old) (H.tells host.new)) }
{
    let versions = spell_versions(alloc)?;
    let priority = spell_nonce(alloc, &session.nonce)?;
    let batch = Batch::single(alloc, Entry::Session(session))?;
    commit(store, host, clients, batch, None)?;
    let Some(begun) = store.state().session(session.number) else {
        unreachable!()
    };
    let mut link = Link {
        session: begun,
        reader,
        nonce: begun.nonce,
        end: LinkEnd::Going,
    };
    greet(
        host,
        number,
        &mut link,
        versions.as_slice(),
        priority.as_slice(),
    );
    Ok(link)
}

// Sends VERSIONS, and then PRIORITY where the session has a nonce.
fn greet<H: Host>(host: &mut H, number: u8, link: &mut Link, versions: &[u8], priority: &[u8])
    requires dialled { number < (H.tells host.old).links.dialled }
    requires going { link.old.end ≡ LinkEnd.Going }
    ensures went { GreetsBy number versions.now priority.now link.old link.new
        (H.tells host.old) (H.tells host.new) }
    ensures run { LinkGoes number link.old link.new (H.tells host.old) (H.tells host.new) }
{
    cite_laws();
    send_on(host, number, link, versions);
    if link.may_send() && !priority.is_empty() {
        send_on(host, number, link, priority);
    }
}
