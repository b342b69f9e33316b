//! The words of links.
ghost use Rattle.std.specs.Prelude.{◌≡◌, ◌+◌, ◌^◌, ◌<◌, drop, IfErr, IfOk};
ghost use Rattle.commands.specs.Reading.{has_ended, has_std, ReadsLink, ReadsLinks};
ghost use Rattle.commands.specs.Reading.{StopsLink, StopsLinks};
ghost use Rattle.sync_words.specs.Links.{AreLinks, IsLink};
ghost use Rattle.sync_words.specs.Words.{texts};

use crate::fault::WordsFault;
use crate::grammar::MAX_CONTACT;
use crate::words::{is_left_at, mode_at, number_at, positive_at, spec_at};
use outside::LINKS;
use std::alloc::Global;
use sync_words::{LinkList, LinkWords, is_std};

/// The greatest latency of a session, in milliseconds.
pub const MAX_LATENCY: u64 = 4_294_967_295;

// The place of the first word of the first link: behind the command's name and two numbers.
const FIRST_LINK: usize = 3;

// How many words a link has.
const LINK_WORDS: usize = 4;

/// Reads all words from the first link on: those of one link at least and of 8 at most.
pub fn read_links(alloc: Global, words: &[String]) -> Result<LinkList, WordsFault>
    ensures ok { IfOk result (ReadsLinks (texts words.now)) }
    ensures within { IfOk result AreLinks }
    ensures err { IfErr result (StopsLinks (texts words.now)) }
{
    let mut links = Vec::new(alloc);
    for number in 0..LINKS {
        let place = FIRST_LINK + number * LINK_WORDS;
        if has_ended(links.as_slice(), words, place) {
            return Ok(LinkList::new(links));
        }
        let link = read_link(alloc, words, place, links.as_slice())?;
        links.push(link)?;
    }
    let end = FIRST_LINK + LINKS * LINK_WORDS;
    if is_left_at(words, end) {
        return Err(WordsFault::Usage(end));
    }
    Ok(LinkList::new(links))
}

// Whether no link follows at this place: one stands before it, and no word is left.
fn has_ended(before: &[LinkWords], words: &[String], place: usize) -> bool
    ensures { result ≡ has_ended before.now (drop place (texts words.now)) }
{
    !before.is_empty() && !is_left_at(words, place)
}

// Reads the words of a link from this place on. These links stand before it.
fn read_link(
    alloc: Global,
    words: &[String],
    place: usize,
    before: &[LinkWords],
) -> Result<LinkWords, WordsFault>
    requires { place + LINK_WORDS < 2 ^ 64 }
    ensures ok { IfOk result (ReadsLink before.now (texts words.now) place) }
    ensures within { IfOk result IsLink }
    ensures err { IfErr result (StopsLink before.now (texts words.now) place) }
{
    let contact = number_at(words, place, MAX_CONTACT)?;
    let mode = mode_at(words, place + 1)?;
    let latency = positive_at(words, place + 2, MAX_LATENCY)?;
    let spec = spec_at(alloc, words, place + 3, has_std(before))?;
    Ok(LinkWords {
        contact: contact as u8,
        mode,
        latency: latency as u32,
        spec,
    })
}

// Whether one of the links is `std`.
fn has_std(links: &[LinkWords]) -> bool
    ensures { result ≡ has_std links.now }
{
    links.iter().any(|link| is_std(link.spec.as_str()))
}
