//! What the words ask for.
ghost use Rattle.std.specs.Prelude.{◌≡◌, IfOk};
ghost use Rattle.sync_words.specs.Words.{texts};
ghost use Rattle.sync_world.specs.Asking.{IsWorldWithin, answer_of, asks_replay, count_asked, wants};
ghost use Rattle.sync_world.specs.Asking.{world_asked};

use sync_words::{Outcome, number};
use world_scripts::MAX_POSTS;

/// What is to be played.
#[derive(Clone, Copy, Debug, PartialEq, Eq)]
pub(crate) enum Asked {
    /// The script on the input.
    Script,
    /// The world that this seed makes, with so many posts.
    Generated(u64, u32),
}

/// Reads the words: none, or `gen SEED COUNT`. The first wrong word is named, or the number of
/// words where one is missing.
pub(crate) fn read_words(words: &[String]) -> Result<Asked, Outcome>
    ensures asked { result ≡ answer_of (asks_replay (texts words.now)) }
    ensures within { IfOk result IsWorldWithin }
{
    let [name, rest @ ..] = words else {
        return Ok(Asked::Script);
    };
    if name.as_str() != "gen" {
        return Err(Outcome::Usage(0));
    }
    read_world(rest)
}

// Reads the words behind `gen`.
fn read_world(words: &[String]) -> Result<Asked, Outcome>
    ensures asked { result ≡ answer_of (world_asked (texts words.now)) }
    ensures within { IfOk result IsWorldWithin }
{
    let [word, rest @ ..] = words else {
        return Err(Outcome::Usage(1));
    };
    match number(word.as_str(), u64::MAX) {
        Some(seed) => read_count(seed, rest),
        None => Err(Outcome::Usage(1)),
    }
}

// Reads the words behind the seed.
fn read_count(seed: u64, words: &[String]) -> Result<Asked, Outcome>
    ensures asked { result ≡ answer_of (count_asked seed (texts words.now)) }
    ensures within { IfOk result IsWorldWithin }
{
    let [word, rest @ ..] = words else {
        return Err(Outcome::Usage(2));
    };
    match number(word.as_str(), u64::from(MAX_POSTS)) {
        Some(count) if count > 0 => read_end(Asked::Generated(seed, count as u32), rest),
        _ => Err(Outcome::Usage(2)),
    }
}

// Behind the count no word is left.
fn read_end(asked: Asked, words: &[String]) -> Result<Asked, Outcome>
    requires { IsWorldWithin asked }
    ensures asked { result ≡ answer_of (wants asked 3 (texts words.now)) }
    ensures within { IfOk result IsWorldWithin }
{
    if words.is_empty() {
        Ok(asked)
    } else {
        Err(Outcome::Usage(3))
    }
}
