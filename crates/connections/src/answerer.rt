//! What answers requests.
ghost use Rattle.std.specs.Prelude.{◌≡◌, [], ℕ, List, Option};
ghost use Rattle.std.specs.Bool.{OnTrue};
ghost use Rattle.node_service.specs.Lives.{shown_bytes};
ghost use Rattle.request_frames.specs.Laws.{KeepsOf};
ghost use Rattle.request_frames.specs.Requests.{Request};
ghost use Rattle.request_frames.specs.declared.reader.Stage.TheVariants as stage;
ghost use Rattle.sync_words.specs.declared.outcome.Outcome.{Outcome};

use node_service::{Output, Reply};
use request_frames::InputSize;

/// What is said to a request.
#[derive(Debug, Drop)]
pub struct Said {
    /// What it came to, whether what was written to the output goes out, and whether the node ends.
    pub reply: Reply,
    /// The place from which on who asked is told lines of the inbox from now on.
    pub watch: Option<u32>,
}

/// What answers requests, one behind the other.
pub trait Answerer {
    /// To a request it says this, from one state of it to another: what it comes to, what the output
    /// gets, and from which place on who asked is told lines of the inbox.
    ghost answers: { Self → Request → Self → Outcome → List ℕ → Option ℕ → Type 0 };

    /// From a place on it gives these lines of the inbox, from one state of it to another.
    ghost gives: { Self → ℕ → Self → List ℕ → Type 0 };

    /// Answers the request of these words, of whose input this is what was kept, at most so many
    /// bytes.
    fn answer(
        &mut self,
        words: &[u8],
        size: InputSize,
        most: usize,
        kept: &[u8],
        out: &mut Output,
    ) -> Said
        requires { out.old.bytes ≡ [] }
        ensures { (request : Request) → request.words ≡ words.now
            → KeepsOf request (stage.Whole size most) kept.now
            → answers self.old request self.new result.reply.came
            (shown_bytes result.reply.shown out.new.bytes) result.watch };

    /// Writes lines of the inbox from this place on, as many as are told at once, and says whether these
    /// are they: they are not where there is no memory.
    fn lines_from(&mut self, from: u32, out: &mut Output) -> bool
        requires { out.old.bytes ≡ [] }
        ensures { OnTrue result (gives self.old from self.new out.new.bytes) };
}
