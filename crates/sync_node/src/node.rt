//! The node.
ghost use Rattle.std.specs.Prelude.{◌≡◌, ◌<◌, ◌≤◌, false, true, length, IfOk};
ghost use Rattle.outside.specs.declared.limits.TheConstants.{LINKS};
ghost use Rattle.sync_node.specs.Node.{asked_among};

use crate::aside::Aside;
use crate::fault::NodeFault;
use outside::Host;
use std::alloc::{AllocError, Global};
use std::marker::Model;
use sync_course::LinkEnd;
use sync_ids::Nonce;
use sync_rules::{Batch, Clients, Mode};
use sync_store::Store;

/// What runs on a link.
#[derive(Clone, Copy, Debug, PartialEq, Eq)]
pub struct Plan {
    /// The contact at the other end.
    pub contact: u8,
    /// How the session sends.
    pub mode: Mode,
    /// The greatest expected time of one way, in milliseconds, at least 1.
    pub latency: u32,
}

/// What a turn did.
#[derive(Clone, Copy, Debug, PartialEq, Eq)]
pub enum Turned {
    /// Something came, or something was sent.
    Moving,
    /// Nothing came for now on any link, and nothing was committed to be sent.
    Still,
}

/// A store whose sessions run over links. Contracts see the store, the number of sessions when the
/// node was made, the links with their sessions, and whether a call failed.
#[derive(Drop)]
pub struct Node {
    store: Store,
    aside: Aside,
}

impl Model for Node {
    ghost use Rattle.sync_node.specs.Node.{NodeValue, node_code, node_with};

    ghost Value = { NodeValue };

    ghost coded = { node_code };

    ghost use Rattle.sync_node.specs.Node.{IsNode};

    ghost view = { λ n. node_with n.aside n.store };

    ghost invariant = { λ n. IsNode (node_with n.aside n.store) };
}

impl Node {
    ghost use Rattle.std.specs.Prelude.{slice_get, IfErr, OnOk, Some};
    ghost use Rattle.std.specs.Option.{option_map};
    ghost use Rattle.sync_node.specs.declared.link.Link.{Link};
    ghost use Rattle.outside.specs.Files.{Two, File};
    ghost use Rattle.sync_rules.specs.Legal.{Allowed, suits_nonce};
    ghost use Rattle.sync_rules.specs.Steps.{IsSettled};
    ghost use Rattle.sync_rules.specs.declared.limits.TheConstants.{MAX_SESSIONS};
    ghost use Rattle.sync_store.specs.Fitting.{FitsFiles};
    ghost use Rattle.sync_store.specs.Moments.{LeadsTo};
    ghost use Rattle.sync_course.specs.Free.{IsPlain};
    ghost use Rattle.sync_node.specs.Adding.{AddsAtMost};
    ghost use Rattle.sync_node.specs.Batches.{Added, AddStops};
    ghost use Rattle.sync_node.specs.Calls.{AddCallStops, AttachStops, CallAnswers, CallGoes};
    ghost use Rattle.sync_node.specs.Calls.{CallStops};
    ghost use Rattle.sync_node.specs.Causes.{PushesOne};
    ghost use Rattle.sync_node.specs.Courses.{is_still};
    ghost use Rattle.sync_node.specs.Sending.{MaySend};
    ghost use Rattle.sync_node.specs.Node.{IsNode, KeepsSessions, MayRun, new_node};
    ghost use Rattle.sync_node.specs.OnRuns.{AskingStopped, AskingWent, BeginStopped, BeginWent};
    ghost use Rattle.sync_node.specs.OnRuns.{ByFault, OutsSent, OutsStopped, RoundStopped};
    ghost use Rattle.sync_node.specs.OnRuns.{RoundWent};
    ghost use Rattle.sync_rules.specs.Facts.{Journal};
    ghost use Rattle.sync_node.specs.Plans.{session_of};

    /// A node over a store, which no failed call has closed. It takes the buffer here that links
    /// are asked with. It fails only for want of memory.
    pub fn new(alloc: Global, store: Store) -> Result<Node, AllocError>
        requires { store.closed ≡ false }
        ensures { IfOk result (λ n. n ≡ new_node store) }
    {
        let aside = Aside::new(alloc, &store)?;
        Ok(Node { store, aside })
    }

    /// The store.
    pub fn store(&self) -> &Store
        ensures value { result.now ≡ self.now.store }
        ensures node { IsNode self.now }
    {
        &self.store
    }

    /// The number of links that are still asked.
    pub fn asked(&self) -> u32
        ensures { result ≡ asked_among self.now.links }
    {
        self.aside.asked()
    }

    /// How a link stands that is attached.
    pub fn ending(&self, link: u8) -> LinkEnd
        requires { link < length self.now.links }
        ensures { option_map (λ l. l.end) (slice_get self.now.links link) ≡ Some result }
    {
        self.aside.ending(link)
    }

    /// Commits a batch of one entry that adds a contact, a group or a message, or sets a level, and
    /// may follow the journal; and settles. Nothing is sent: at each moment the files stand for the
    /// journal, or for it with the batch and settling behind it (`leads`).
    ///
    /// Ok: the batch and settling behind it were committed, and nothing is left to be settled.
    /// Memory: nothing was committed, or the batch and some of that settling. Full: with the batch
    /// the journal would pass its limit, and nothing was done. DiskFault: a front of the batch and
    /// its settling stands, and a crash may leave more of it.
    pub fn add<H: Host, C: Clients>(
        &mut self,
        host: &mut H,
        clients: &C,
        batch: Batch,
    ) -> Result<(), NodeFault>
        requires may { MayRun (C.meaning clients.now) self.old (H.tells host.old) }
        requires allowed { self.old.closed ≡ false
            → Allowed (C.meaning clients.now) self.old.store.state.facts batch }
        requires plain { IsPlain batch }
        ensures answers { CallAnswers self.old self.new host.old host.new result }
        ensures may { MayRun (C.meaning clients.now) self.new (H.tells host.new) }
        ensures goes { CallGoes self.old self.new (H.tells host.old) (H.tells host.new) }
        ensures links { self.new.links ≡ self.old.links }
        ensures stops { self.old.closed ≡ false → AddCallStops (C.meaning clients.now) self.old
            self.new host.old host.new (H.tells host.old) (H.tells host.new) result }
        ensures went { OnOk result (Added (C.meaning clients.now) batch self.old.store
            self.new.store (H.tells host.old) (H.tells host.new)) }
        ensures stopped { self.old.closed ≡ false → IfErr result (ByFault (AddStops
            (C.meaning clients.now) batch self.old.store self.new.store (H.tells host.old)
            (H.tells host.new))) }
        ensures leads { self.old.closed ≡ false → (two : Two File)
            → (H.tells host.old).files ≡ Some two → (j : Journal)
            → FitsFiles (C.meaning clients.now) self.old.store j two
            → LeadsTo (C.meaning clients.now) (AddsAtMost (C.meaning clients.now) j batch)
            (AddsAtMost (C.meaning clients.now) j batch) self.new.store (H.tells host.old)
            (H.tells host.new) }
    {
        self.aside.add(&mut self.store, host, clients, batch)
    }

    /// Begins a session on a link that was dialled, the next number: commits it, and sends VERSIONS
    /// and, where it has a nonce, PRIORITY. The journal is settled and has fewer than 4,294,967,295
    /// sessions, the contact is known, the latency is at least 1, and a nonce is given in
    /// interactive mode alone. A failed send closes the link, and the answer is Ok.
    ///
    /// Ok: the session was committed, and then its greeting was sent, or a front of it. Memory:
    /// nothing was done. Full: with the session the journal would pass its limit, and nothing was
    /// done. DiskFault: nothing was sent, and a crash may leave the session or not.
    pub fn attach<H: Host, C: Clients>(
        &mut self,
        host: &mut H,
        clients: &C,
        link: u8,
        plan: &Plan,
        nonce: Option<Nonce>,
    ) -> Result<(), NodeFault>
        requires may { MayRun (C.meaning clients.now) self.old (H.tells host.old) }
        requires settled { self.old.closed ≡ false
            → IsSettled (C.meaning clients.now) self.old.store.state.facts }
        requires begun { self.old.store.state.facts.begun < MAX_SESSIONS }
        requires contact { plan.now.contact < self.old.store.state.facts.contacts }
        requires latency { 1 ≤ plan.now.latency }
        requires nonce { suits_nonce plan.now.mode nonce ≡ true }
        requires next { link ≡ length self.old.links }
        requires few { link < LINKS }
        requires dialled { link < (H.tells host.old).links.dialled }
        ensures answers { CallAnswers self.old self.new host.old host.new result }
        ensures may { MayRun (C.meaning clients.now) self.new (H.tells host.new) }
        ensures goes { CallGoes self.old self.new (H.tells host.old) (H.tells host.new) }
        ensures links { PushesOne result self.old.links self.new.links }
        ensures stops { self.old.closed ≡ false → AttachStops (C.meaning clients.now) self.old
            self.new host.old host.new (H.tells host.old) (H.tells host.new) result }
        ensures went { self.old.closed ≡ false → OnOk result (BeginWent (C.meaning clients.now)
            (session_of self.old.store.state.facts.begun plan.now nonce) self.old.links
            self.new.links self.old.store self.new.store (H.tells host.old) (H.tells host.new)) }
        ensures stopped { self.old.closed ≡ false → IfErr result (ByFault (BeginStopped
            (C.meaning clients.now) (session_of self.old.store.state.facts.begun plan.now nonce)
            self.old.links self.new.links self.old.store self.new.store (H.tells host.old)
            (H.tells host.new))) }
    {
        self.aside
            .attach(&mut self.store, host, clients, link, plan, nonce)
    }

    /// Asks a link once that is attached and still asked, and takes what came: the batch of each
    /// record, and settling behind it. Answers whether nothing came for now.
    ///
    /// Ok: all that came was taken, and the link waits for the clock, or it is closed. Memory: some
    /// of it was. Full: some of it was, and with the next record the journal would pass its limit.
    /// DiskFault: some of it was, and a crash may leave a front of the batches that were next.
    pub fn receive<H: Host, C: Clients>(
        &mut self,
        host: &mut H,
        clients: &C,
        link: u8,
    ) -> Result<bool, NodeFault>
        requires may { MayRun (C.meaning clients.now) self.old (H.tells host.old) }
        requires attached { link < length self.old.links }
        requires asked { (l : Link) → slice_get self.old.links link ≡ Some l
            → l.end ≡ LinkEnd.Going }
        ensures answers { CallAnswers self.old self.new host.old host.new result }
        ensures may { MayRun (C.meaning clients.now) self.new (H.tells host.new) }
        ensures goes { CallGoes self.old self.new (H.tells host.old) (H.tells host.new) }
        ensures kept { KeepsSessions self.old self.new }
        ensures stops { self.old.closed ≡ false → CallStops (C.meaning clients.now) self.new
            (H.tells host.old) (H.tells host.new) result }
        ensures went { self.old.closed ≡ false → IfOk result (AskingWent (C.meaning clients.now)
            self.old.first link self.old.links self.new.links self.old.store self.new.store
            (H.tells host.old) (H.tells host.new)) }
        ensures stopped { self.old.closed ≡ false → IfErr result (ByFault (AskingStopped
            (C.meaning clients.now) self.old.first link self.old.links self.new.links
            self.old.store self.new.store (H.tells host.old) (H.tells host.new))) }
    {
        self.aside.receive(&mut self.store, host, clients, link)
    }

    /// Commits and sends what is due at this time in milliseconds on a link that is attached and
    /// not closed, at most `MAX_OUTPUTS` outputs, and answers how many that were.
    ///
    /// Ok: so many outputs were committed, each of them was sent behind its commit, and nothing
    /// more is due, or they are as many as may be, or a send failed and the link is closed. Memory:
    /// some were committed and sent. Full: some were, and with the next one the journal would pass
    /// its limit. DiskFault: some were, and a crash may leave the next one or not; it was not sent.
    pub fn send_due<H: Host, C: Clients>(
        &mut self,
        host: &mut H,
        clients: &C,
        link: u8,
        now: u64,
    ) -> Result<u32, NodeFault>
        requires may { MayRun (C.meaning clients.now) self.old (H.tells host.old) }
        requires attached { link < length self.old.links }
        requires unclosed { (l : Link) → slice_get self.old.links link ≡ Some l
            → MaySend l.end }
        ensures answers { CallAnswers self.old self.new host.old host.new result }
        ensures may { MayRun (C.meaning clients.now) self.new (H.tells host.new) }
        ensures goes { CallGoes self.old self.new (H.tells host.old) (H.tells host.new) }
        ensures kept { KeepsSessions self.old self.new }
        ensures stops { self.old.closed ≡ false → CallStops (C.meaning clients.now) self.new
            (H.tells host.old) (H.tells host.new) result }
        ensures went { self.old.closed ≡ false → IfOk result (OutsSent (C.meaning clients.now)
            self.old.first link now self.old.links self.new.links self.old.store self.new.store
            (H.tells host.old) (H.tells host.new)) }
        ensures stopped { self.old.closed ≡ false → IfErr result (ByFault (OutsStopped
            (C.meaning clients.now) self.old.first link now self.old.links self.new.links
            self.old.store self.new.store (H.tells host.old) (H.tells host.new))) }
    {
        self.aside
            .send_due(&mut self.store, host, clients, link, now)
    }

    /// Goes through the links in order: asks each that is still asked, and sends what is due on
    /// each that is not closed. Then the redundant ones are closed.
    ///
    /// Ok: one whole turn of the course, which was still where nothing came and nothing was
    /// committed to be sent. Memory, Full, DiskFault: the turn was stopped at some link, in what
    /// `receive` and `send_due` say of it.
    pub fn turn<H: Host, C: Clients>(
        &mut self,
        host: &mut H,
        clients: &C,
    ) -> Result<Turned, NodeFault>
        requires may { MayRun (C.meaning clients.now) self.old (H.tells host.old) }
        ensures answers { CallAnswers self.old self.new host.old host.new result }
        ensures may { MayRun (C.meaning clients.now) self.new (H.tells host.new) }
        ensures goes { CallGoes self.old self.new (H.tells host.old) (H.tells host.new) }
        ensures kept { KeepsSessions self.old self.new }
        ensures stops { self.old.closed ≡ false → CallStops (C.meaning clients.now) self.new
            (H.tells host.old) (H.tells host.new) result }
        ensures went { self.old.closed ≡ false → IfOk result (λ turned. RoundWent
            (C.meaning clients.now) self.old.first self.old.links self.new.links self.old.store
            self.new.store (H.tells host.old) (H.tells host.new) (is_still turned)) }
        ensures stopped { self.old.closed ≡ false → IfErr result (ByFault (RoundStopped
            (C.meaning clients.now) self.old.first self.old.links self.new.links self.old.store
            self.new.store (H.tells host.old) (H.tells host.new))) }
    {
        self.aside.turn(&mut self.store, host, clients)
    }
}
