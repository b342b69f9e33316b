// The work of a session's call on the parts of a node, and settling before it.
ghost use Rattle.std.specs.Prelude.{◌≡◌, ◌<◌, ◌≤◌, length, true, IfOk, IfSome, None, OnErr, Some};
ghost use Rattle.sync_rules.specs.Growth.{OnlySettles};
ghost use Rattle.sync_rules.specs.declared.limits.TheConstants.{MAX_SESSIONS};
ghost use Rattle.sync_course.specs.Links.{is_going, is_sent_to};
ghost use Rattle.store_commands.specs.Serving.{IsReadyToServe, IsServed};
ghost use Rattle.sync_node.specs.declared.limits.TheConstants.{MOST_LINKS};
ghost use Rattle.resident.specs.Sessions.{AsksLink, DrawsNonce, EraStands, HasEra, ReadsAndSends};
ghost use Rattle.resident.specs.Sessions.{SettledStands, SettlesFirst, SettlesOr, TakesLink, end_in};
ghost use Rattle.resident.specs.Sessions.{fault_of, links_in, may_have, stands_so};
ghost use Rattle.resident.specs.Staying.{RunsBeside};

use link_host::LinkHost;
use outside::Host;
use std::alloc::{AllocError, Global};
use store_commands::settle_loaded;
use sync_ids::{Fixed, Nonce};
use sync_node::{Aside, NodeFault, Plan};
use sync_rules::Clients;
use sync_store::Store;
use sync_words::Outcome;

/// Settles the journal, where a step is left.
pub(crate) fn settle<H: Host, C: Clients>(
    store: &mut Store,
    host: &mut H,
    clients: &C,
) -> Result<(), NodeFault>
    requires { IsReadyToServe (C.meaning clients.now) store.old (H.tells host.old) }
    ensures settles { SettlesOr (C.meaning clients.now) store.old store.new (H.tells host.old)
        (H.tells host.new) result }
    ensures stands { SettledStands (C.meaning clients.now) result store.new (H.tells host.new) }
    ensures only { OnlySettles store.old.state.facts store.new.state.facts }
{
    match settle_loaded(store, host, clients) {
        Ok(()) => Ok(()),
        Err(came) => Err(fault_of(came)),
    }
}

// The fault of a call that was stopped so while the journal was settled.
fn fault_of(came: Outcome) -> NodeFault
    ensures { result ≡ fault_of came }
{
    match came {
        Outcome::Memory => NodeFault::Memory,
        _ => NodeFault::DiskFault,
    }
}

/// The era that runs; or, where none does, one that begins now, before which all links of the host are
/// forgotten.
pub(crate) fn ready_era<H: LinkHost>(
    alloc: Global,
    era: Option<Aside>,
    store: &Store,
    host: &mut H,
) -> Result<Aside, AllocError>
    requires { IfSome era (λ a. RunsBeside a store.now (H.tells host.old)) }
    ensures era { IfOk result (HasEra H.tells era store.now host.old host.new) }
    ensures runs { IfOk result (λ a. RunsBeside a store.now (H.tells host.new)) }
    ensures few { IfOk result (λ a. length a.links ≡ links_in era) }
    ensures files { (H.tells host.new).files ≡ (H.tells host.old).files }
    ensures none { OnErr result ((era ≡ None) × (host.new ≡ host.old)) }
{
    match era {
        Some(aside) => Ok(aside),
        None => match Aside::new(alloc, store) {
            Ok(aside) => {
                host.renew();
                Ok(aside)
            }
            Err(e) => Err(e),
        },
    }
}

// A nonce for a link, where one is wanted; none where none can be drawn.
fn draw_nonce<H: Host>(host: &mut H, link: u8, has_nonce: bool) -> Option<Nonce>
    requires { link < (H.tells host.old).links.dialled }
    ensures draws { DrawsNonce H.tells link has_nonce host.old host.new result }
    ensures files { (H.tells host.new).files ≡ (H.tells host.old).files }
    ensures dialled { (H.tells host.new).links.dialled ≡ (H.tells host.old).links.dialled }
{
    if has_nonce {
        match host.nonce(link) {
            Ok(bytes) => Some(Fixed(bytes)),
            Err(_) => None,
        }
    } else {
        None
    }
}

/// Takes up the link that was brought last for the next session of the era, of this plan, and begins
/// it, over a journal that is settled. Answers its number, and what became of it.
pub(crate) fn begin_on<H: LinkHost, C: Clients>(
    aside: &mut Aside,
    store: &mut Store,
    host: &mut H,
    clients: &C,
    plan: &Plan,
    has_nonce: bool,
) -> (u8, Result<(), NodeFault>)
    requires served { IsServed (C.meaning clients.now) store.old (H.tells host.old) }
    requires runs { RunsBeside aside.old store.old (H.tells host.old) }
    requires few { length aside.old.links < MOST_LINKS }
    requires begun { store.old.state.facts.begun < MAX_SESSIONS }
    requires contact { plan.now.contact < store.old.state.facts.contacts }
    requires latency { 1 ≤ plan.now.latency }
    requires mode { may_have plan.now.mode has_nonce ≡ true }
    ensures stands { EraStands (C.meaning clients.now) result.1 aside.new store.new
        (H.tells host.new) }
    ensures did { TakesLink H.tells (C.meaning clients.now) plan.now has_nonce result.0 aside.old
        aside.new store.old store.new host.old host.new result.1 }
{
    let link = host.take_up();
    let nonce = draw_nonce(host, link, has_nonce);
    let begun = aside.attach(store, host, clients, link, plan, nonce);
    (link, begun)
}

/// Asks a link once that is still asked, once the journal is settled.
pub(crate) fn hear_on<H: Host, C: Clients>(
    aside: &mut Aside,
    store: &mut Store,
    host: &mut H,
    clients: &C,
    link: u8,
) -> Result<bool, NodeFault>
    requires ready { IsReadyToServe (C.meaning clients.now) store.old (H.tells host.old) }
    requires runs { RunsBeside aside.old store.old (H.tells host.old) }
    requires asked { stands_so is_going (end_in (Some aside.old) link) ≡ true }
    ensures stands { EraStands (C.meaning clients.now) result aside.new store.new
        (H.tells host.new) }
    ensures did { SettlesFirst H.tells (C.meaning clients.now) store.old store.new host.old host.new
        result (λ s settled. AsksLink H.tells (C.meaning clients.now) link aside.old aside.new s
        store.new settled host.new result) }
{
    match settle(store, host, clients) {
        Ok(()) => aside.receive(store, host, clients, link),
        Err(fault) => Err(fault),
    }
}

/// Sends what is due on a link that is not closed, once the journal is settled.
pub(crate) fn send_on<H: Host, C: Clients>(
    aside: &mut Aside,
    store: &mut Store,
    host: &mut H,
    clients: &C,
    link: u8,
) -> Result<u32, NodeFault>
    requires ready { IsReadyToServe (C.meaning clients.now) store.old (H.tells host.old) }
    requires runs { RunsBeside aside.old store.old (H.tells host.old) }
    requires open { stands_so is_sent_to (end_in (Some aside.old) link) ≡ true }
    ensures stands { EraStands (C.meaning clients.now) result aside.new store.new
        (H.tells host.new) }
    ensures did { SettlesFirst H.tells (C.meaning clients.now) store.old store.new host.old host.new
        result (λ s settled. ReadsAndSends H.tells (C.meaning clients.now) link aside.old aside.new s
        store.new settled host.new result) }
{
    match settle(store, host, clients) {
        Ok(()) => {
            let reading = host.now();
            aside.send_due(store, host, clients, link, reading)
        }
        Err(fault) => Err(fault),
    }
}
