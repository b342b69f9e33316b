// The sessions of a node that stays. Where the condition of a session's call does not hold it does
// nothing.
ghost use Rattle.std.specs.Prelude.{◌≡◌, ◌&&◌, false, true, is_some, nat_lt, Err, IfSome, None, Ok, Some};
ghost use Rattle.sync_rules.specs.Clients.{Meaning};
ghost use Rattle.sync_rules.specs.declared.limits.TheConstants.{MAX_SESSIONS};
ghost use Rattle.store_commands.specs.Serving.{IsServed};
ghost use Rattle.sync_course.specs.Links.{is_going, is_sent_to};
ghost use Rattle.sync_node.specs.declared.fault.NodeFault.TheVariants as node_fault;
ghost use Rattle.sync_node.specs.declared.limits.TheConstants.{MOST_LINKS};
ghost use Rattle.resident.specs.Sessions.{BeginsNow, BeginsSession, FailsBehind, GoesOnBehind};
ghost use Rattle.resident.specs.Sessions.{HearsLink, IsSessionOn, SendsLink, end_in, links_in, may_begin, may_have};
ghost use Rattle.resident.specs.Sessions.{stands_so};
ghost use Rattle.resident.specs.Staying.{MayStay, RunsBeside};

use crate::resident::Resident;
use crate::working::{begin_on, hear_on, ready_era, send_on, settle};
use link_host::LinkHost;
use outside::Host;
use sync_node::{Aside, LinkEnd, MOST_LINKS, NodeFault, Plan};
use sync_rules::{Clients, MAX_SESSIONS, Mode};

impl Resident {
    /// Takes up the link that was brought last, and begins a session on it, of the next number of the
    /// era: where none runs, all links of the host are forgotten first, and one begins. A session that
    /// is to have a nonce has none where none could be drawn. Answers the number of the link.
    ///
    /// # Errors
    /// `Closed`: the node has ended, or there is no such session (`may_begin`), and nothing was done.
    /// Behind all others the era has ended: `Memory`; `Full`, where the journal would pass its limit;
    /// and `DiskFault`, with which the node has ended.
    pub fn begin_session<H: LinkHost, C: Clients>(
        &mut self,
        host: &mut H,
        clients: &C,
        plan: &Plan,
        has_nonce: bool,
    ) -> Result<u8, NodeFault>
        requires { MayStay (C.meaning clients.now) self.old (H.tells host.old) }
        ensures begun { may_begin self.old plan.now has_nonce ≡ true
            → BeginsSession H.tells (C.meaning clients.now) plan.now has_nonce self.old self.new
            host.old host.new result }
        ensures undone { may_begin self.old plan.now has_nonce ≡ false
            → (result ≡ Err node_fault.Closed) × (self.new ≡ self.old) × (host.new ≡ host.old) }
        ensures may { MayStay (C.meaning clients.now) self.new (H.tells host.new) }
    {
        if !self.may_begin(plan, has_nonce) {
            return Err(NodeFault::Closed);
        }
        match settle(&mut self.store, host, clients) {
            Ok(()) => self.begin_settled(host, clients, plan, has_nonce),
            Err(fault) => {
                self.fail(fault);
                Err(fault)
            }
        }
    }

    // The same of a session that may begin, where the journal is settled.
    fn begin_settled<H: LinkHost, C: Clients>(
        &mut self,
        host: &mut H,
        clients: &C,
        plan: &Plan,
        has_nonce: bool,
    ) -> Result<u8, NodeFault>
        requires served { IsServed (C.meaning clients.now) self.old.store (H.tells host.old) }
        requires era { IfSome self.old.aside
            (λ a. RunsBeside a self.old.store (H.tells host.old)) }
        requires begins { may_begin self.old plan.now has_nonce ≡ true }
        ensures begun { BeginsNow H.tells (C.meaning clients.now) plan.now has_nonce self.old
            self.new host.old host.new result }
        ensures may { MayStay (C.meaning clients.now) self.new (H.tells host.new) }
    {
        let era = self.aside.take();
        let Ok(mut aside) = ready_era(self.alloc, era, &self.store, host) else {
            self.fail(NodeFault::Memory);
            return Err(NodeFault::Memory);
        };
        let (link, begun) = begin_on(&mut aside, &mut self.store, host, clients, plan, has_nonce);
        match self.behind(aside, begun) {
            Ok(()) => Ok(link),
            Err(fault) => Err(fault),
        }
    }

    /// Asks a link once that is still asked, and takes what came. Answers whether nothing came for
    /// now; so too where the era has no such link, or it is asked no more.
    ///
    /// # Errors
    /// Behind each the era has ended: `Memory`; `Full`, where the journal would pass its limit; and
    /// `DiskFault`, with which the node has ended.
    pub fn hear_link<H: Host, C: Clients>(
        &mut self,
        host: &mut H,
        clients: &C,
        link: u8,
    ) -> Result<bool, NodeFault>
        requires { MayStay (C.meaning clients.now) self.old (H.tells host.old) }
        ensures heard { self.old.ended ≡ false
            → stands_so is_going (end_in self.old.aside link) ≡ true
            → HearsLink H.tells (C.meaning clients.now) link self.old self.new host.old host.new
            result }
        ensures undone { self.old.ended ≡ true
            → (result ≡ Ok true) × (self.new ≡ self.old) × (host.new ≡ host.old) }
        ensures unasked { stands_so is_going (end_in self.old.aside link) ≡ false
            → (result ≡ Ok true) × (self.new ≡ self.old) × (host.new ≡ host.old) }
        ensures may { MayStay (C.meaning clients.now) self.new (H.tells host.new) }
    {
        if self.ended || !self.is_asked(link) {
            return Ok(true);
        }
        let Some(mut aside) = self.aside.take() else {
            unreachable!()
        };
        let heard = hear_on(&mut aside, &mut self.store, host, clients, link);
        self.behind(aside, heard)
    }

    /// Commits and sends what is due on a link that is not closed, by the clock of the host, at most
    /// `MAX_OUTPUTS` outputs, and answers how many that were; none where the era has no such link, or
    /// it is closed.
    ///
    /// # Errors
    /// As `hear_link`.
    pub fn send_link<H: Host, C: Clients>(
        &mut self,
        host: &mut H,
        clients: &C,
        link: u8,
    ) -> Result<u32, NodeFault>
        requires { MayStay (C.meaning clients.now) self.old (H.tells host.old) }
        ensures sent { self.old.ended ≡ false
            → stands_so is_sent_to (end_in self.old.aside link) ≡ true
            → SendsLink H.tells (C.meaning clients.now) link self.old self.new host.old host.new
            result }
        ensures undone { self.old.ended ≡ true
            → (result ≡ Ok 0) × (self.new ≡ self.old) × (host.new ≡ host.old) }
        ensures shut { stands_so is_sent_to (end_in self.old.aside link) ≡ false
            → (result ≡ Ok 0) × (self.new ≡ self.old) × (host.new ≡ host.old) }
        ensures may { MayStay (C.meaning clients.now) self.new (H.tells host.new) }
    {
        if self.ended || !self.is_sent_to(link) {
            return Ok(0);
        }
        let Some(mut aside) = self.aside.take() else {
            unreachable!()
        };
        let sent = send_on(&mut aside, &mut self.store, host, clients, link);
        self.behind(aside, sent)
    }

    /// Ends a link on this side, and hears that it has ended; so it is asked no more. Where the era has
    /// no such link nothing is done.
    ///
    /// # Errors
    /// As `hear_link`.
    pub fn hang_up<H: Host, C: Clients>(
        &mut self,
        host: &mut H,
        clients: &C,
        link: u8,
    ) -> Result<(), NodeFault>
        requires { MayStay (C.meaning clients.now) self.old (H.tells host.old) }
        ensures { MayStay (C.meaning clients.now) self.new (H.tells host.new) }
    {
        if self.ended || self.links() <= link {
            return Ok(());
        }
        host.hang_up(link);
        match self.hear_link(host, clients, link) {
            Ok(_) => Ok(()),
            Err(fault) => Err(fault),
        }
    }

    /// Of the links with one contact that are still asked and have a known nonce keeps the one with the
    /// greatest nonce, of several the first, and closes the others. It is made behind the turns of all
    /// links.
    pub fn close_redundant<H: Host, C: Clients>(&mut self, host: &H, clients: &C)
        requires { MayStay (C.meaning clients.now) self.old (H.tells host.now) }
        ensures { MayStay (C.meaning clients.now) self.new (H.tells host.now) }
    {
        let _as_it_is = host;
        let _as_before = clients;
        if let Some(mut aside) = self.aside.take() {
            aside.close_redundant();
            self.aside = Some(aside);
        }
    }

    /// Ends all sessions, and forgets all links of the host. The next session begins an era.
    pub fn end_era<H: LinkHost>(&mut self, host: &mut H)
        ensures none { self.new ≡ record self.old { aside = None } }
        ensures may { (clients : Meaning) → MayStay clients self.old (H.tells host.old)
            → MayStay clients self.new (H.tells host.new) }
    {
        self.aside = None;
        host.renew();
    }

    /// Whether an era runs.
    pub fn has_era(&self) -> bool
        ensures { result ≡ is_some self.now.aside }
    {
        self.aside.is_some()
    }

    /// The number of links that were taken up in this era; the number of the next one.
    pub fn links(&self) -> u8
        ensures { result ≡ links_in self.now.aside }
    {
        match &self.aside {
            Some(aside) => aside.count(),
            None => 0,
        }
    }

    /// How a link of this era stands, if it has it.
    pub fn link_end(&self, link: u8) -> Option<LinkEnd>
        ensures { result ≡ end_in self.now.aside link }
    {
        match &self.aside {
            Some(aside) => end_of(aside, link),
            None => None,
        }
    }

    /// The number of the session on a link of this era, if it has it.
    pub fn session_of(&self, link: u8) -> Option<u32>
        ensures { IfSome result (IsSessionOn self.now.aside link) }
    {
        match &self.aside {
            Some(aside) if link < aside.count() => aside.first().checked_add(link as u32),
            _ => None,
        }
    }

    /// Whether the era has a number left for a link, and the journal one for a session.
    pub fn has_sessions_left(&self) -> bool
        ensures { result ≡ (nat_lt (links_in self.now.aside) MOST_LINKS
            && nat_lt self.now.store.state.facts.begun MAX_SESSIONS) }
    {
        (self.links() as usize) < MOST_LINKS && self.store.sessions() < MAX_SESSIONS
    }

    /// Whether the store knows this contact.
    pub fn knows_contact(&self, contact: u8) -> bool
        ensures { result ≡ nat_lt contact self.now.store.state.facts.contacts }
    {
        (contact as u32) < self.store.contacts()
    }

    /// Whether a session of this plan may begin: the node has not ended, the contact is known, the
    /// latency is at least 1, a nonce is wanted in interactive mode alone, and a number is left.
    pub fn may_begin(&self, plan: &Plan, has_nonce: bool) -> bool
        ensures { result ≡ may_begin self.now plan.now has_nonce }
    {
        !self.ended
            && may_have(plan.mode, has_nonce)
            && 1 <= plan.latency
            && self.knows_contact(plan.contact)
            && self.has_sessions_left()
    }

    // Whether the era has this link, and it is still asked.
    fn is_asked(&self, link: u8) -> bool
        ensures { result ≡ stands_so is_going (end_in self.now.aside link) }
    {
        matches!(self.link_end(link), Some(LinkEnd::Going))
    }

    // Whether the era has this link, and it is not closed.
    fn is_sent_to(&self, link: u8) -> bool
        ensures { result ≡ stands_so is_sent_to (end_in self.now.aside link) }
    {
        matches!(self.link_end(link), Some(LinkEnd::Going | LinkEnd::Clean))
    }

    // Behind a session's call that came to this: the era goes on, or has ended.
    fn behind<T>(&mut self, aside: Aside, came: Result<T, NodeFault>) -> Result<T, NodeFault>
        requires { self.old.ended ≡ false }
        ensures value { result ≡ came }
        ensures goes_on { GoesOnBehind came aside self.new }
        ensures store { self.new.store ≡ self.old.store }
    {
        match came {
            Ok(value) => {
                self.aside = Some(aside);
                Ok(value)
            }
            Err(fault) => {
                self.fail(fault);
                Err(fault)
            }
        }
    }

    // A session's call failed: the era has ended, and where the disk failed the node has.
    fn fail(&mut self, fault: NodeFault)
        ensures fails { FailsBehind fault self.new }
        ensures store { self.new.store ≡ self.old.store }
    {
        self.aside = None;
        self.ended = match fault {
            NodeFault::DiskFault => true,
            NodeFault::Memory | NodeFault::Full | NodeFault::Closed => false,
        };
    }
}

// How a link of an era stands, if it has it.
fn end_of(aside: &Aside, link: u8) -> Option<LinkEnd>
    ensures { result ≡ end_in (Some aside.now) link }
{
    if link < aside.count() {
        Some(aside.ending(link))
    } else {
        None
    }
}

// Whether a session in this mode may have a nonce, or have none.
fn may_have(mode: Mode, has_nonce: bool) -> bool
    ensures { result ≡ may_have mode has_nonce }
{
    match mode {
        Mode::Interactive => true,
        Mode::Batch => !has_nonce,
    }
}
