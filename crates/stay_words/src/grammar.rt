//! What the words of a command line ask for.
ghost use Rattle.std.specs.Prelude.{◌≡◌};
ghost use Rattle.sync_words.specs.Words.{texts};
ghost use Rattle.stay_words.specs.Asking.{IsReadAs, asks_stay, serve_of, stay_of_name, watch_of};

use crate::links::read_links;
use crate::stay::Stay;
use crate::words::{from_at, is_left_at, way_at};
use commands::WordsFault;
use std::alloc::Global;

/// Reads the words of a command line, those after the program's name, where they ask for a node
/// that stays or for what it tells; of other words there is nothing.
///
/// # Errors
/// `Usage` exactly where the words begin so and are not in the grammar, with the place; `Memory`
/// for want of memory.
pub fn read_stay(alloc: Global, words: &[String]) -> Result<Option<Stay>, WordsFault>
    ensures { IsReadAs (asks_stay (texts words.now)) result }
{
    match words.first() {
        Some(name) => read_named(alloc, name.as_str(), words),
        None => Ok(None),
    }
}

// Reads the words, of which the first is this.
fn read_named(alloc: Global, name: &str, words: &[String]) -> Result<Option<Stay>, WordsFault>
    ensures { IsReadAs (stay_of_name name.now (texts words.now)) result }
{
    match name {
        "serve" => read_serve(alloc, words),
        "watch" => read_watch(words),
        _ => Ok(None),
    }
}

fn read_serve(alloc: Global, words: &[String]) -> Result<Option<Stay>, WordsFault>
    ensures { IsReadAs (serve_of (texts words.now)) result }
{
    let way = way_at(words, 1)?;
    let links = read_links(alloc, words)?;
    Ok(Some(Stay::Serve(way, links)))
}

fn read_watch(words: &[String]) -> Result<Option<Stay>, WordsFault>
    ensures { IsReadAs (watch_of (texts words.now)) result }
{
    let from = from_at(words, 1)?;
    if is_left_at(words, 2) {
        return Err(WordsFault::Usage(2));
    }
    Ok(Some(Stay::Watch(from)))
}
