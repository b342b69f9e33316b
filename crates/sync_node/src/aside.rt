//! What a node has beside its store, and the calls of a node over a store that is lent to each.
ghost use Rattle.std.specs.Prelude.{◌≡◌, ◌≤◌, false, true, length, IfOk};
ghost use Rattle.sync_node.specs.declared.limits.TheConstants.{MOST_LINKS};
ghost use Rattle.sync_node.specs.Faults.{answer_of, has_failed};
ghost use Rattle.sync_node.specs.Node.{asked_among};

use crate::attaching::attach_on;
use crate::fault::{Fault, NodeFault};
use crate::hearing::receive_on;
use crate::link::Link;
use crate::node::{Plan, Turned};
use crate::redundant::close_redundant;
use crate::sending::send_all;
use crate::told::add_settled;
use crate::turning::turn_all;
use outside::Host;
use std::alloc::{AllocError, Global};
use std::marker::Model;
use sync_course::{LinkEnd, PIECE_LEN};
use sync_ids::Nonce;
use sync_rules::{Batch, Clients, Session};
use sync_store::Store;

/// What a node has beside its store, for up to `MOST_LINKS` links: the store is lent to each call,
/// and between two calls it may do what leaves its sessions as they are. Contracts see the number of
/// sessions when it was made, the links with their sessions, and whether a call failed; with the
/// store that is a node (`node_with`).
#[derive(Drop)]
pub struct Aside {
    alloc: Global,
    first: u32,
    links: Vec<Link>,
    buffer: Vec<u8>,
    closed: bool,
}

impl Model for Aside {
    ghost use Rattle.std.specs.Prelude.{◌≡◌, ◌≤◌, length};
    ghost use Rattle.sync_node.specs.Node.{AsideValue, aside_code};

    ghost Value = { AsideValue };

    ghost coded = { aside_code };

    ghost use Rattle.sync_course.specs.declared.TheConstants.{PIECE_LEN};
    ghost use Rattle.sync_node.specs.declared.limits.TheConstants.{MOST_LINKS};

    ghost view = { λ a. record {
      first = a.first;
      links = a.links.items;
      closed = a.closed;
    } };

    ghost invariant = { λ a. (length a.buffer.items ≡ PIECE_LEN)
        × (length a.links.items ≤ MOST_LINKS) };
}

// What a node answers whose work came to this; where the work failed it is closed from then on.
fn answer<T>(closed: &mut bool, work: Result<T, Fault>) -> Result<T, NodeFault>
    requires { closed.old ≡ false }
    ensures answer { result ≡ answer_of work }
    ensures closed { closed.new ≡ has_failed work }
{
    match work {
        Ok(value) => Ok(value),
        Err(fault) => {
            *closed = true;
            Err(NodeFault::from(fault))
        }
    }
}

// A buffer of so many bytes.
fn zeros(alloc: Global, len: usize) -> Result<Vec<u8>, AllocError>
    ensures { IfOk result (λ v. length v.items ≡ len) }
{
    vec![in alloc; 0u8; len]
}

impl Aside {
    ghost use Rattle.std.specs.Prelude.{ℕ, List, ◌<◌, slice_get, IfErr, OnOk, Some};
    ghost use Rattle.std.specs.Option.{option_map};
    ghost use Rattle.sync_node.specs.declared.link.Link.{Link};
    ghost use Rattle.outside.specs.Files.{Two, File};
    ghost use Rattle.sync_rules.specs.Legal.{Allowed, suits_nonce};
    ghost use Rattle.sync_rules.specs.Steps.{IsSettled};
    ghost use Rattle.sync_rules.specs.declared.limits.TheConstants.{MAX_SESSIONS};
    ghost use Rattle.sync_store.specs.Fitting.{FitsFiles};
    ghost use Rattle.sync_store.specs.Moments.{LeadsTo};
    ghost use Rattle.sync_store.specs.Store.{StoreValue};
    ghost use Rattle.sync_course.specs.Free.{IsPlain};
    ghost use Rattle.sync_course.specs.Links.{without_redundant};
    ghost use Rattle.sync_node.specs.Adding.{AddsAtMost};
    ghost use Rattle.sync_node.specs.Batches.{Added, AddStops};
    ghost use Rattle.sync_node.specs.Calls.{AddCallStops, AsideGoes, AttachStops, CallAnswers};
    ghost use Rattle.sync_node.specs.Calls.{CallStops};
    ghost use Rattle.sync_node.specs.Causes.{PushesOne};
    ghost use Rattle.sync_node.specs.Courses.{is_still, links_from};
    ghost use Rattle.sync_node.specs.Sending.{ClosesSome, MaySend};
    ghost use Rattle.sync_node.specs.Node.{IsAside, KeepsSessions, MayRun, new_aside, node_with};
    ghost use Rattle.sync_node.specs.OnRuns.{AskingStopped, AskingWent, BeginStopped, BeginWent};
    ghost use Rattle.sync_node.specs.OnRuns.{ByFault, OutsSent, OutsStopped, RoundStopped};
    ghost use Rattle.sync_node.specs.OnRuns.{RoundWent};
    ghost use Rattle.sync_rules.specs.Facts.{Journal};
    ghost use Rattle.sync_node.specs.Plans.{session_of};

    /// What a node has beside this store that has no links yet, and which no failed call has
    /// closed. It takes the buffer here that links are asked with. It fails only for want of memory.
    pub fn new(alloc: Global, store: &Store) -> Result<Aside, AllocError>
        ensures value { IfOk result (λ a. a ≡ new_aside store.now) }
        ensures aside { IfOk result (λ a. IsAside (node_with a store.now)) }
    {
        let buffer = zeros(alloc, PIECE_LEN)?;
        Ok(Aside {
            alloc,
            first: store.sessions(),
            links: Vec::new(alloc),
            buffer,
            closed: false,
        })
    }

    /// The number of sessions when it was made: the session of a link has this number and the
    /// link's.
    pub fn first(&self) -> u32
        ensures { result ≡ self.now.first }
    {
        self.first
    }

    /// The number of links that were attached since it was made; the number of the next one.
    pub fn count(&self) -> u8
        ensures { result ≡ length self.now.links }
    {
        self.links.len() as u8
    }

    /// The number of links that are still asked.
    pub fn asked(&self) -> u32
        ensures { result ≡ asked_among self.now.links }
    {
        count_asked(self.links.as_slice())
    }

    /// How a link stands that is attached.
    pub fn ending(&self, link: u8) -> LinkEnd
        requires { link < length self.now.links }
        ensures { option_map (λ l. l.end) (slice_get self.now.links link) ≡ Some result }
    {
        self.links[link as usize].end
    }

    /// Whether a call failed: nothing is done any more.
    pub fn is_closed(&self) -> bool
        ensures { result ≡ self.now.closed }
    {
        self.closed
    }

    /// Commits a batch of one entry that adds a contact, a group or a message, or sets a level, and
    /// may follow the journal; and settles. Nothing is sent: at each moment the files stand for the
    /// journal, or for it with the batch and settling behind it (`leads`).
    ///
    /// Ok: the batch and settling behind it were committed, and nothing is left to be settled.
    /// Memory: nothing was committed, or the batch and some of that settling. Full: with the batch
    /// the journal would pass its limit, and nothing was done. DiskFault: a front of the batch and
    /// its settling stands, and a crash may leave more of it.
    pub(crate) fn add<H: Host, C: Clients>(
        &mut self,
        store: &mut Store,
        host: &mut H,
        clients: &C,
        batch: Batch,
    ) -> Result<(), NodeFault>
        requires aside { IsAside (node_with self.old store.old) }
        requires may { MayRun (C.meaning clients.now) (node_with self.old store.old)
            (H.tells host.old) }
        requires allowed { self.old.closed ≡ false
            → Allowed (C.meaning clients.now) store.old.state.facts batch }
        requires plain { IsPlain batch }
        ensures answers { CallAnswers (node_with self.old store.old) (node_with self.new store.new)
            host.old host.new result }
        ensures may { MayRun (C.meaning clients.now) (node_with self.new store.new)
            (H.tells host.new) }
        ensures goes { AsideGoes (node_with self.old store.old) (node_with self.new store.new)
            (H.tells host.old) (H.tells host.new) }
        ensures links { self.new.links ≡ self.old.links }
        ensures stops { self.old.closed ≡ false → AddCallStops (C.meaning clients.now)
            (node_with self.old store.old) (node_with self.new store.new) host.old host.new
            (H.tells host.old) (H.tells host.new) result }
        ensures went { OnOk result (Added (C.meaning clients.now) batch store.old
            store.new (H.tells host.old) (H.tells host.new)) }
        ensures stopped { self.old.closed ≡ false → IfErr result (ByFault (AddStops
            (C.meaning clients.now) batch store.old store.new (H.tells host.old)
            (H.tells host.new))) }
        ensures leads { self.old.closed ≡ false → (two : Two File)
            → (H.tells host.old).files ≡ Some two → (j : Journal)
            → FitsFiles (C.meaning clients.now) store.old j two
            → LeadsTo (C.meaning clients.now) (AddsAtMost (C.meaning clients.now) j batch)
            (AddsAtMost (C.meaning clients.now) j batch) store.new (H.tells host.old)
            (H.tells host.new) }
    {
        if self.closed {
            return Err(NodeFault::Closed);
        }
        let work = add_settled(store, host, clients, batch);
        answer(&mut self.closed, work)
    }

    /// Begins a session on a link that was dialled, the next number: commits it, and sends VERSIONS
    /// and, where it has a nonce, PRIORITY. The journal is settled and has fewer than 4,294,967,295
    /// sessions, the contact is known, the latency is at least 1, and a nonce is given in
    /// interactive mode alone. A failed send closes the link, and the answer is Ok.
    ///
    /// Ok: the session was committed, and then its greeting was sent, or a front of it. Memory:
    /// nothing was done. Full: with the session the journal would pass its limit, and nothing was
    /// done. DiskFault: nothing was sent, and a crash may leave the session or not.
    pub fn attach<H: Host, C: Clients>(
        &mut self,
        store: &mut Store,
        host: &mut H,
        clients: &C,
        link: u8,
        plan: &Plan,
        nonce: Option<Nonce>,
    ) -> Result<(), NodeFault>
        requires aside { IsAside (node_with self.old store.old) }
        requires may { MayRun (C.meaning clients.now) (node_with self.old store.old)
            (H.tells host.old) }
        requires settled { self.old.closed ≡ false
            → IsSettled (C.meaning clients.now) store.old.state.facts }
        requires begun { store.old.state.facts.begun < MAX_SESSIONS }
        requires contact { plan.now.contact < store.old.state.facts.contacts }
        requires latency { 1 ≤ plan.now.latency }
        requires nonce { suits_nonce plan.now.mode nonce ≡ true }
        requires next { link ≡ length self.old.links }
        requires few { link < MOST_LINKS }
        requires dialled { link < (H.tells host.old).links.dialled }
        ensures answers { CallAnswers (node_with self.old store.old) (node_with self.new store.new)
            host.old host.new result }
        ensures may { MayRun (C.meaning clients.now) (node_with self.new store.new)
            (H.tells host.new) }
        ensures goes { AsideGoes (node_with self.old store.old) (node_with self.new store.new)
            (H.tells host.old) (H.tells host.new) }
        ensures links { PushesOne result self.old.links self.new.links }
        ensures stops { self.old.closed ≡ false → AttachStops (C.meaning clients.now)
            (node_with self.old store.old) (node_with self.new store.new) host.old host.new
            (H.tells host.old) (H.tells host.new) result }
        ensures went { self.old.closed ≡ false → OnOk result (BeginWent (C.meaning clients.now)
            (session_of store.old.state.facts.begun plan.now nonce) self.old.links
            self.new.links store.old store.new (H.tells host.old) (H.tells host.new)) }
        ensures stopped { self.old.closed ≡ false → IfErr result (ByFault (BeginStopped
            (C.meaning clients.now) (session_of store.old.state.facts.begun plan.now nonce)
            self.old.links self.new.links store.old store.new (H.tells host.old)
            (H.tells host.new))) }
    {
        if self.closed {
            return Err(NodeFault::Closed);
        }
        let session = Session {
            number: store.sessions(),
            contact: plan.contact,
            mode: plan.mode,
            latency: plan.latency,
            nonce,
        };
        let work = attach_on(
            self.alloc,
            store,
            host,
            clients,
            &mut self.links,
            link,
            session,
        );
        answer(&mut self.closed, work)
    }

    /// Asks a link once that is attached and still asked, and takes what came: the batch of each
    /// record, and settling behind it. Answers whether nothing came for now.
    ///
    /// Ok: all that came was taken, and the link waits for the clock, or it is closed. Memory: some
    /// of it was. Full: some of it was, and with the next record the journal would pass its limit.
    /// DiskFault: some of it was, and a crash may leave a front of the batches that were next.
    pub fn receive<H: Host, C: Clients>(
        &mut self,
        store: &mut Store,
        host: &mut H,
        clients: &C,
        link: u8,
    ) -> Result<bool, NodeFault>
        requires aside { IsAside (node_with self.old store.old) }
        requires may { MayRun (C.meaning clients.now) (node_with self.old store.old)
            (H.tells host.old) }
        requires attached { link < length self.old.links }
        requires asked { (l : Link) → slice_get self.old.links link ≡ Some l
            → l.end ≡ LinkEnd.Going }
        ensures answers { CallAnswers (node_with self.old store.old) (node_with self.new store.new)
            host.old host.new result }
        ensures may { MayRun (C.meaning clients.now) (node_with self.new store.new)
            (H.tells host.new) }
        ensures goes { AsideGoes (node_with self.old store.old) (node_with self.new store.new)
            (H.tells host.old) (H.tells host.new) }
        ensures kept { KeepsSessions (node_with self.old store.old) (node_with self.new store.new) }
        ensures stops { self.old.closed ≡ false → CallStops (C.meaning clients.now)
            (node_with self.new store.new) (H.tells host.old) (H.tells host.new) result }
        ensures went { self.old.closed ≡ false → IfOk result (AskingWent (C.meaning clients.now)
            self.old.first link self.old.links self.new.links store.old store.new
            (H.tells host.old) (H.tells host.new)) }
        ensures stopped { self.old.closed ≡ false → IfErr result (ByFault (AskingStopped
            (C.meaning clients.now) self.old.first link self.old.links self.new.links
            store.old store.new (H.tells host.old) (H.tells host.new))) }
    {
        if self.closed {
            return Err(NodeFault::Closed);
        }
        let idle = receive_on(
            self.alloc,
            store,
            host,
            clients,
            link,
            &mut self.links[link as usize],
            self.buffer.as_mut_slice(),
        );
        answer(&mut self.closed, idle)
    }

    /// Commits and sends what is due at this time in milliseconds on a link that is attached and
    /// not closed, at most `MAX_OUTPUTS` outputs, and answers how many that were.
    ///
    /// Ok: so many outputs were committed, each of them was sent behind its commit, and nothing
    /// more is due, or they are as many as may be, or a send failed and the link is closed. Memory:
    /// some were committed and sent. Full: some were, and with the next one the journal would pass
    /// its limit. DiskFault: some were, and a crash may leave the next one or not; it was not sent.
    pub fn send_due<H: Host, C: Clients>(
        &mut self,
        store: &mut Store,
        host: &mut H,
        clients: &C,
        link: u8,
        now: u64,
    ) -> Result<u32, NodeFault>
        requires aside { IsAside (node_with self.old store.old) }
        requires may { MayRun (C.meaning clients.now) (node_with self.old store.old)
            (H.tells host.old) }
        requires attached { link < length self.old.links }
        requires unclosed { (l : Link) → slice_get self.old.links link ≡ Some l
            → MaySend l.end }
        ensures answers { CallAnswers (node_with self.old store.old) (node_with self.new store.new)
            host.old host.new result }
        ensures may { MayRun (C.meaning clients.now) (node_with self.new store.new)
            (H.tells host.new) }
        ensures goes { AsideGoes (node_with self.old store.old) (node_with self.new store.new)
            (H.tells host.old) (H.tells host.new) }
        ensures kept { KeepsSessions (node_with self.old store.old) (node_with self.new store.new) }
        ensures stops { self.old.closed ≡ false → CallStops (C.meaning clients.now)
            (node_with self.new store.new) (H.tells host.old) (H.tells host.new) result }
        ensures went { self.old.closed ≡ false → IfOk result (OutsSent (C.meaning clients.now)
            self.old.first link now self.old.links self.new.links store.old store.new
            (H.tells host.old) (H.tells host.new)) }
        ensures stopped { self.old.closed ≡ false → IfErr result (ByFault (OutsStopped
            (C.meaning clients.now) self.old.first link now self.old.links self.new.links
            store.old store.new (H.tells host.old) (H.tells host.new))) }
    {
        if self.closed {
            return Err(NodeFault::Closed);
        }
        let made = send_all(
            self.alloc,
            store,
            host,
            clients,
            link,
            &mut self.links[link as usize],
            now,
        );
        answer(&mut self.closed, made)
    }

    /// Goes through the links in order: asks each that is still asked, and sends what is due on
    /// each that is not closed. Then the redundant ones are closed.
    ///
    /// Ok: one whole turn of the course, which was still where nothing came and nothing was
    /// committed to be sent. Memory, Full, DiskFault: the turn was stopped at some link, in what
    /// `receive` and `send_due` say of it.
    pub(crate) fn turn<H: Host, C: Clients>(
        &mut self,
        store: &mut Store,
        host: &mut H,
        clients: &C,
    ) -> Result<Turned, NodeFault>
        requires aside { IsAside (node_with self.old store.old) }
        requires may { MayRun (C.meaning clients.now) (node_with self.old store.old)
            (H.tells host.old) }
        ensures answers { CallAnswers (node_with self.old store.old) (node_with self.new store.new)
            host.old host.new result }
        ensures may { MayRun (C.meaning clients.now) (node_with self.new store.new)
            (H.tells host.new) }
        ensures goes { AsideGoes (node_with self.old store.old) (node_with self.new store.new)
            (H.tells host.old) (H.tells host.new) }
        ensures kept { KeepsSessions (node_with self.old store.old) (node_with self.new store.new) }
        ensures stops { self.old.closed ≡ false → CallStops (C.meaning clients.now)
            (node_with self.new store.new) (H.tells host.old) (H.tells host.new) result }
        ensures went { self.old.closed ≡ false → IfOk result (λ turned. RoundWent
            (C.meaning clients.now) self.old.first self.old.links self.new.links store.old
            store.new (H.tells host.old) (H.tells host.new) (is_still turned)) }
        ensures stopped { self.old.closed ≡ false → IfErr result (ByFault (RoundStopped
            (C.meaning clients.now) self.old.first self.old.links self.new.links store.old
            store.new (H.tells host.old) (H.tells host.new))) }
    {
        if self.closed {
            return Err(NodeFault::Closed);
        }
        let turned = turn_all(
            self.alloc,
            store,
            host,
            clients,
            self.links.as_mut_slice(),
            self.buffer.as_mut_slice(),
        );
        answer(&mut self.closed, turned)
    }

    /// Of the links with one contact that are still asked and have a known nonce keeps the one with
    /// the greatest nonce, of several the first, and closes the others. It is made behind the turns
    /// of all links.
    pub fn close_redundant(&mut self)
        ensures some { ClosesSome self.old.links self.new.links }
        ensures exact { (heard : ℕ → List ℕ) → links_from 0 self.new.links heard
            ≡ without_redundant (links_from 0 self.old.links heard) }
        ensures rest { self.new ≡ record self.old { links = self.new.links } }
        ensures kept { (store : StoreValue)
            → KeepsSessions (node_with self.old store) (node_with self.new store) }
        ensures aside { (store : StoreValue) → IsAside (node_with self.old store)
            → IsAside (node_with self.new store) }
    {
        close_redundant(self.links.as_mut_slice());
    }
}

// How many links are still asked.
fn count_asked(links: &[Link]) -> u32
    requires { length links.now ≤ MOST_LINKS }
    ensures { result ≡ asked_among links.now }
{
    let mut asked = 0;
    'links: for link in links {
        if link.is_asked() {
            asked += 1;
        }
    }
    asked
}
