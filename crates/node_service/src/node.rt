//! A node that can be asked.
ghost use Rattle.std.specs.Prelude.{◌≡◌, false, [], List, ℕ, Bool};
ghost use Rattle.request_frames.specs.Laws.{KeepsOf};
ghost use Rattle.request_frames.specs.Requests.{Request};
ghost use Rattle.request_frames.specs.declared.reader.Stage.TheVariants as stage;
ghost use Rattle.node_service.specs.Lives.{shown_bytes};
ghost use Rattle.sync_words.specs.declared.outcome.Outcome.{Outcome};

use crate::output::Output;
use outside::Host;
use request_frames::InputSize;
use sync_words::Outcome;

/// What a node says to a request.
#[derive(Debug, Drop)]
pub struct Reply {
    /// What it came to.
    pub came: Outcome,
    /// Whether what was written to the output goes out.
    pub shown: bool,
    /// Whether the node ends behind it, with this outcome.
    pub ends: bool,
}

/// A node over the files of a host, which is asked one request after the other.
pub trait Node<H: Host> {
    /// It may be asked over this host.
    ghost may: { Self → H → Type 0 };

    /// To a request it does this, from one state of its host to another: what it comes to, what the
    /// output gets, and whether it ends behind it.
    ghost answers: { Self → Request → H → H → Outcome → List ℕ → Bool → Type 0 };

    /// Answers the request of these words, of whose input this is what was kept, at most so many
    /// bytes. What `answers` says of the host, that its files are synced among it, is so when this
    /// returns, and only then is the answer told.
    fn answer(
        &mut self,
        words: &[u8],
        size: InputSize,
        most: usize,
        kept: &[u8],
        host: &mut H,
        out: &mut Output,
    ) -> Reply
        requires may { may self.old host.old }
        requires empty { out.old.bytes ≡ [] }
        ensures answered { (request : Request) → request.words ≡ words.now
            → KeepsOf request (stage.Whole size most) kept.now
            → answers self.old request host.old host.new result.came
            (shown_bytes result.shown out.new.bytes) result.ends }
        ensures same { (request : Request) (old new : H) (came : Outcome) (out : List ℕ)
            (ends : Bool) → answers self.new request old new came out ends
            → answers self.old request old new came out ends }
        ensures stays { result.ends ≡ false → may self.new host.new };
}
