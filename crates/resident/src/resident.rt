//! The node that stays, and its calls.
ghost use Rattle.std.specs.Prelude.{◌≡◌, false, true, [], length, IfErr, IfOk};
ghost use Rattle.outside.specs.Streams.{Stream};
ghost use Rattle.request_frames.specs.Laws.{KeepsOf};
ghost use Rattle.request_frames.specs.Requests.{Request};
ghost use Rattle.request_frames.specs.declared.reader.Stage.TheVariants as stage;
ghost use Rattle.sync_words.specs.Outcomes.{came_to};
ghost use Rattle.sync_words.specs.declared.outcome.Outcome.TheVariants as outcome;
ghost use Rattle.node_service.specs.Lives.{shown_bytes};
ghost use Rattle.node_life.specs.Requests.{AnswersRequest};
ghost use Rattle.node_life.specs.Settling.{HasBegun};
ghost use Rattle.resident.specs.Staying.{EndedReply, EndsBefore, MayStay, era_behind};

use node_life::{answer_request, begin, leaves_sessions};
use node_service::{Output, Reply};
use outside::Host;
use request_frames::InputSize;
use std::alloc::Global;
use std::hash::RandomState;
use sync_node::Aside;
use sync_rules::Clients;
use sync_store::Store;
use sync_words::Outcome;

/// A node that stays. Its sessions run in eras: one begins with the first session, and ends when its
/// owner says so, behind a session's call that failed, and before a request that may change sessions;
/// then all of its sessions have ended.
#[derive(Drop)]
pub struct Resident {
    pub alloc: Global,
    pub hasher: RandomState,
    /// The store.
    pub store: Store,
    /// The sessions of the era that runs.
    pub aside: Option<Aside>,
    /// Whether it has ended: behind `quit` and behind a fault of the disk nothing is done any more.
    pub ended: bool,
}

// What is said where the node has ended.
fn ended_reply() -> Reply
    ensures { EndedReply result }
{
    Reply {
        came: Outcome::DiskFault,
        shown: false,
        ends: true,
    }
}

impl Resident {
    /// Loads the store, and migrates and settles its journal: the node is ready for what comes.
    ///
    /// # Errors
    /// `NoStore`, `Damaged`, `DiskFault`, `Full` and `Memory`, as for a command over files.
    pub fn begin<H: Host, C: Clients>(
        alloc: Global,
        hasher: RandomState,
        host: &mut H,
        clients: &C,
    ) -> Result<Resident, Outcome>
        ensures begun { (out : Stream) → HasBegun (C.meaning clients.now) (H.tells host.old)
            (H.tells host.new) out (came_to result) }
        ensures may { IfOk result (λ r. MayStay (C.meaning clients.now) r (H.tells host.new)) }
        ensures open { IfOk result (λ r. r.ended ≡ false) }
        ensures undone { IfErr result (λ came. came ≡ outcome.Done → ⊥) }
    {
        match begin(alloc, hasher, host, clients) {
            Ok(store) => Ok(Resident {
                alloc,
                hasher,
                store,
                aside: None,
                ended: false,
            }),
            Err(came) => Err(came),
        }
    }

    /// Answers the request of these words, of whose input this is what was kept, at most so many
    /// bytes, as `node_service::Node` says. What is said of the host, that its files are synced among
    /// it, is so when this returns. Where the reply ends the node, it has ended; a node that has ended
    /// does nothing, and says `DiskFault`.
    pub fn answer<H: Host, C: Clients>(
        &mut self,
        words: &[u8],
        size: InputSize,
        most: usize,
        kept: &[u8],
        host: &mut H,
        out: &mut Output,
        clients: &C,
    ) -> Reply
        requires may { MayStay (C.meaning clients.now) self.old (H.tells host.old) }
        requires empty { out.old.bytes ≡ [] }
        ensures answered { self.old.ended ≡ false → (request : Request)
            → request.words ≡ words.now → KeepsOf request (stage.Whole size most) kept.now
            → AnswersRequest H.tells (C.meaning clients.now) request host.old host.new result.came
            (shown_bytes result.shown out.new.bytes) result.ends }
        ensures undone { self.old.ended ≡ true → (self.new ≡ self.old) × (host.new ≡ host.old)
            × EndedReply result }
        ensures ended { self.new.ended ≡ result.ends }
        ensures may { MayStay (C.meaning clients.now) self.new (H.tells host.new) }
    {
        if self.ended {
            return ended_reply();
        }
        self.end_before(words);
        let (alloc, hasher) = (self.alloc, self.hasher);
        let store = &mut self.store;
        let reply = answer_request(
            alloc, hasher, store, words, size, most, kept, host, out, clients,
        );
        self.note(&reply);
        reply
    }

    // Ends the era before a request of these words, unless they leave its sessions as they are.
    fn end_before(&mut self, words: &[u8])
        ensures { EndsBefore words.now self.old self.new }
    {
        if !leaves_sessions(words) {
            self.aside = None;
        }
    }

    // Behind a request that was answered so.
    fn note(&mut self, reply: &Reply)
        ensures { self.new ≡ record self.old {
          aside = era_behind reply.now.came self.old.aside;
          ended = reply.now.ends;
        } }
    {
        if matches!(reply.came, Outcome::DiskFault) {
            self.aside = None;
        }
        self.ended = reply.ends;
    }

    /// Whether the node has ended.
    pub fn is_ended(&self) -> bool
        ensures { result ≡ self.now.ended }
    {
        self.ended
    }

    /// The number of delivered messages: of lines of `inbox`, the place of the next one.
    pub fn delivered(&self) -> u32
        ensures { result ≡ length self.now.store.state.facts.delivered }
    {
        self.store.delivered()
    }
}
