//! What is asked of a node that stays, and what it says.
ghost use Rattle.std.specs.Prelude.{◌≡◌, []};

use crate::asking::{Asking, asked_by};
use crate::keeper::Keeper;
use crate::lines::add_places;
use crate::spots::Spots;
use connections::{Answerer, Asked, Said};
use node_service::{Output, Reply};
use outside_real::Waiting;
use request_frames::InputSize;
use stay_links::StayHost;
use std::alloc::{AllocError, Global};
use std::fs::{File, Files};
use std::net::Net;
use std::rt::Runtime;
use sync_rules::Clients;
use sync_words::Outcome;

/// The node that holds the store, and where its links come and go.
#[derive(Drop)]
pub struct Holder<R, C>
where
    R: Runtime + Files<File = File> + AllocGlobal + Net,
    C: Clients + Drop,
{
    /// The node.
    pub keeper: Keeper<StayHost<R>, C>,
    /// Where its links come and go.
    pub spots: Spots,
}

impl<R, C> Answerer for Holder<R, C>
where
    R: Runtime + Files<File = File> + AllocGlobal + Net,
    C: Clients + Drop,
{
    ghost answers = { λ _ _ _ _ _ _. Unit {0} };

    ghost gives = { λ _ _ _ _. Unit {0} };

    fn answer(
        &mut self,
        words: &[u8],
        size: InputSize,
        most: usize,
        kept: &[u8],
        out: &mut Output,
    ) -> Said {
        let asked = Asked {
            words,
            size,
            most,
            kept,
        };
        match asked_by(self.keeper.alloc(), words) {
            Asking::Watch(from) => said(plain(Outcome::Done), Some(from)),
            Asking::Nothing(came) => said(plain(came), None),
            Asking::Node => said(self.obey(asked, out), None),
        }
    }

    fn lines_from(&mut self, from: u32, out: &mut Output) -> bool {
        match self.keeper.lines_from(from, out) {
            Some(reply) => reply.shown,
            None => false,
        }
    }
}

impl<R, C> Holder<R, C>
where
    R: Runtime + Files<File = File> + AllocGlobal + Net,
    C: Clients + Drop,
{
    /// Adds the doors and the lines that are to be waited for. It fails only for want of memory.
    pub fn add_to(&mut self, waiting: &mut Waiting, now: u64) -> Result<(), AllocError> {
        self.spots.add_to(waiting, self.keeper.host(), now)
    }

    // Does what is asked for, with what that is for the links.
    fn obey(&mut self, asked: Asked<'_>, out: &mut Output) -> Reply
        requires { out.old.bytes ≡ [] }
    {
        let kind = kind_of(asked.words);
        let reply = self.keeper.answer(asked, out);
        match kind {
            Kind::Status => with_places(self.keeper.alloc(), reply, &self.spots, out),
            Kind::Compact => {
                if matches!(reply.came, Outcome::Done) {
                    self.spots.places.make_room();
                }
                reply
            }
            Kind::Other => reply,
        }
    }
}

// What a request is beside the others.
#[derive(Clone, Copy, Debug, PartialEq, Eq)]
enum Kind {
    // `status`, whose answer tells of the links too.
    Status,
    // `compact`, behind which there is room.
    Compact,
    // Another one.
    Other,
}

fn kind_of(words: &[u8]) -> Kind {
    match words {
        b"status\0" => Kind::Status,
        b"compact\0" => Kind::Compact,
        _ => Kind::Other,
    }
}

fn said(reply: Reply, watch: Option<u32>) -> Said {
    Said { reply, watch }
}

fn plain(came: Outcome) -> Reply {
    Reply {
        came,
        shown: false,
        ends: false,
    }
}

// A reply whose output tells of the places of the words too, where it is shown.
fn with_places(alloc: Global, reply: Reply, spots: &Spots, out: &mut Output) -> Reply {
    if !reply.shown {
        return reply;
    }
    match add_places(alloc, spots, out) {
        Ok(()) => reply,
        Err(AllocError) => plain(Outcome::Memory),
    }
}
