//! The words of the links of a node that stays.
ghost use Rattle.std.specs.Prelude.{◌≤◌, IfOk};
ghost use Rattle.outside.specs.declared.limits.TheConstants.{LINKS};
ghost use Rattle.sync_words.specs.Links.{IsLink};
ghost use Rattle.sync_words.specs.Words.{texts};
ghost use Rattle.stay_words.specs.Asking.{IsReadAs, link_of, links_of};

use crate::staying::LinksOfStay;
use crate::words::{contact_at, is_left_at, latency_at, mode_at, spec_at};
use commands::WordsFault;
use outside::LINKS;
use std::alloc::Global;
use sync_words::LinkWords;

// How many words a link has.
const LINK_WORDS: usize = 4;

// The place of the first word of the first link: behind `serve` and the way.
const FIRST_LINK: usize = 2;

/// Reads all words from the first link on: those of at most 8 links.
pub fn read_links(alloc: Global, words: &[String]) -> Result<LinksOfStay, WordsFault>
    ensures { IsReadAs (links_of LINKS (texts words.now) FIRST_LINK) result }
{
    let mut links = Vec::new(alloc);
    for number in 0..LINKS {
        let place = FIRST_LINK + number * LINK_WORDS;
        if !is_left_at(words, place) {
            return Ok(LinksOfStay::new(links));
        }
        let link = read_link(alloc, words, place)?;
        links.push(link)?;
    }
    let end = FIRST_LINK + LINKS * LINK_WORDS;
    if is_left_at(words, end) {
        return Err(WordsFault::Usage(end));
    }
    Ok(LinksOfStay::new(links))
}

// Reads the words of a link from this place on.
fn read_link(alloc: Global, words: &[String], place: usize) -> Result<LinkWords, WordsFault>
    requires { place ≤ 64 }
    ensures read { IsReadAs (link_of (texts words.now) place) result }
    ensures within { IfOk result IsLink }
{
    let contact = contact_at(words, place)?;
    let mode = mode_at(words, place + 1)?;
    let latency = latency_at(words, place + 2)?;
    let spec = spec_at(alloc, words, place + 3)?;
    Ok(LinkWords {
        contact,
        mode,
        latency,
        spec,
    })
}
