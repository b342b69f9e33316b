//! The node that is asked, and its sessions.
ghost use Rattle.std.specs.Prelude.{◌≡◌, []};

use connections::Asked;
use link_host::LinkHost;
use node_life::leaves_sessions;
use node_service::{Output, Reply};
use request_frames::InputSize;
use resident::Resident;
use stay_links::{Line, StayHost};
use std::alloc::Global;
use std::fs::{File, Files};
use std::hash::RandomState;
use std::marker::Model;
use std::net::Net;
use std::rt::Runtime;
use sync_course::LinkEnd;
use sync_node::{NodeFault, Plan};
use sync_rules::Clients;
use sync_words::Outcome;

// How many lines of the inbox a notice has at most. A line has 168 bytes at most.
const MOST_LINES: u32 = 390;

/// A node over the files of a host, which nobody else touches, and its sessions over links. What its
/// calls need of both stands at all times; contracts see nothing of it.
#[derive(Drop)]
pub struct Keeper<H: LinkHost + Drop, C: Clients + Drop> {
    alloc: Global,
    host: H,
    resident: Resident,
    clients: C,
}

impl<H: LinkHost + Drop, C: Clients + Drop> Model for Keeper<H, C> {
    ghost use Rattle.resident.specs.Staying.{MayStay};

    ghost Value = { Unit {0} };

    ghost view = { λ _. tt };

    ghost invariant = { λ k. MayStay (C.meaning k.clients) k.resident (H.tells k.host) };
}

impl<H: LinkHost + Drop, C: Clients + Drop> Keeper<H, C> {
    /// Loads the store, and migrates and settles its journal. Where that can't be it says what the node
    /// comes to, and gives the host back.
    pub fn begin(
        alloc: Global,
        hasher: RandomState,
        host: H,
        clients: C,
    ) -> Result<Keeper<H, C>, (Outcome, H)> {
        let mut host = host;
        match Resident::begin(alloc, hasher, &mut host, &clients) {
            Ok(resident) => Ok(Keeper {
                alloc,
                host,
                resident,
                clients,
            }),
            Err(came) => Err((came, host)),
        }
    }

    /// The host.
    pub fn host(&self) -> &H {
        &self.host
    }

    /// Where the node takes memory.
    pub fn alloc(&self) -> Global {
        self.alloc
    }

    /// Answers a request. Where it does not leave the sessions as they are, they have ended, and no link
    /// is up.
    pub fn answer(&mut self, asked: Asked<'_>, out: &mut Output) -> Reply
        requires { out.old.bytes ≡ [] }
    {
        if !leaves_sessions(asked.words) {
            self.end_era();
        }
        self.resident.answer(
            asked.words,
            asked.size,
            asked.most,
            asked.kept,
            &mut self.host,
            out,
            &self.clients,
        )
    }

    /// The lines of the inbox from a place on, so many that a notice has room for them; none where
    /// there is no memory to ask.
    pub fn lines_from(&mut self, from: u32, out: &mut Output) -> Option<Reply>
        requires { out.old.bytes ≡ [] }
    {
        let words = format!(in self.alloc; "inbox\0{from}\0{MOST_LINES}\0").ok()?;
        let asked = Asked {
            words: words.as_bytes(),
            size: InputSize::Bytes(0),
            most: 0,
            kept: &[],
        };
        Some(self.answer(asked, out))
    }

    /// How many lines the inbox has.
    pub fn delivered(&self) -> u32 {
        self.resident.delivered()
    }

    /// Whether there is a contact of this number.
    pub fn knows_contact(&self, contact: u8) -> bool {
        self.resident.knows_contact(contact)
    }

    /// Whether one more session may begin before all end.
    pub fn has_sessions_left(&self) -> bool {
        self.resident.has_sessions_left()
    }

    /// Takes up the link that the host was brought last, and begins a session on it, with a nonce of
    /// its own where that is asked for. Behind an error all sessions have ended, and no link is up.
    pub fn take_up(&mut self, plan: &Plan, has_nonce: bool) -> Result<u8, NodeFault> {
        let begun = self
            .resident
            .begin_session(&mut self.host, &self.clients, plan, has_nonce);
        match begun {
            Ok(link) => Ok(link),
            Err(fault) => self.stopped(fault),
        }
    }

    /// Hears once on a link; whether nothing came. Behind an error all sessions have ended, and no link
    /// is up.
    pub fn hear(&mut self, link: u8) -> Result<bool, NodeFault> {
        let heard = self.resident.hear_link(&mut self.host, &self.clients, link);
        match heard {
            Ok(is_idle) => Ok(is_idle),
            Err(fault) => self.stopped(fault),
        }
    }

    /// Sends what is due on a link, and says how many records these are. Behind an error all sessions
    /// have ended, and no link is up.
    pub fn send(&mut self, link: u8) -> Result<u32, NodeFault> {
        let sent = self.resident.send_link(&mut self.host, &self.clients, link);
        match sent {
            Ok(count) => Ok(count),
            Err(fault) => self.stopped(fault),
        }
    }

    /// Ends a link on this side. Behind an error all sessions have ended, and no link is up.
    pub fn hang_up(&mut self, link: u8) -> Result<(), NodeFault> {
        match self.resident.hang_up(&mut self.host, &self.clients, link) {
            Ok(()) => Ok(()),
            Err(fault) => self.stopped(fault),
        }
    }

    // Ends all sessions behind a fault.
    fn stopped<T>(&mut self, fault: NodeFault) -> Result<T, NodeFault> {
        self.end_era();
        Err(fault)
    }

    /// Of the links to one contact whose nonces are known keeps one, and has the others end.
    pub fn close_redundant(&mut self) {
        self.resident.close_redundant(&self.host, &self.clients);
    }

    /// How a link stands.
    pub fn link_end(&self, link: u8) -> Option<LinkEnd> {
        self.resident.link_end(link)
    }

    /// The number of the session on a link.
    pub fn session_of(&self, link: u8) -> Option<u32> {
        self.resident.session_of(link)
    }

    /// All sessions end, and no link is up.
    pub fn end_era(&mut self) {
        self.resident.end_era(&mut self.host);
    }
}

impl<R, C> Keeper<StayHost<R>, C>
where
    R: Runtime + Files<File = File> + Net,
    C: Clients + Drop,
{
    /// Brings the host a line, which is taken up next.
    #[tactic(auto, using(crate::proofs::KeeperLemmas::stays_over))]
    pub fn bring(&mut self, line: Line) {
        self.host.bring(line);
    }

    /// Sets how many bytes are heard at once on a link at most.
    #[tactic(auto, using(crate::proofs::KeeperLemmas::stays_over))]
    pub fn set_most_heard(&mut self, most: usize) {
        self.host.set_most_heard(most);
    }

    /// Writes a front of what waits to go out on a link.
    #[tactic(auto, using(crate::proofs::KeeperLemmas::stays_over))]
    pub fn write_some(&mut self, link: u8, now: u64) {
        self.host.write_some(link, now);
    }
}
