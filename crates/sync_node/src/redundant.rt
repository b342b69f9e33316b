//! Which of several links with one contact is kept (this project's profile).
ghost use Rattle.std.specs.Prelude.{◌≡◌, ℕ, ◌<◌, List, length, slice_get, IsTrue, Some};
ghost use Rattle.sync_course.specs.Links.{is_beaten, is_preferred, without_redundant};
ghost use Rattle.sync_node.specs.Courses.{link_at, links_from, outdoes_of};
ghost use Rattle.sync_node.specs.Sending.{ClosesSome};

use crate::link::Link;
use std::cmp::Ordering;
use sync_course::LinkEnd;

/// Of the links with one contact that are still asked and have a known nonce keeps the one with the
/// greatest nonce, of several the first, and closes the others.
pub(crate) fn close_redundant(links: &mut [Link])
    ensures some { ClosesSome links.old links.new }
    ensures exact { (heard : ℕ → List ℕ)
        → links_from 0 links.new heard ≡ without_redundant (links_from 0 links.old heard) }
{
    'links: for place in 0..links.len() {
        if is_redundant(links, place) {
            links[place].end = LinkEnd::Redundant;
        }
    }
}

// Whether another link is kept in place of this one.
fn is_redundant(links: &[Link], place: usize) -> bool
    requires { place < length links.now }
    ensures going { IsTrue result → (l : Link) → slice_get links.now place ≡ Some l
        → l.end ≡ LinkEnd.Going }
    ensures exact { (heard : ℕ → List ℕ) (l : Link) → slice_get links.now place ≡ Some l
        → result ≡ is_beaten 0 (links_from 0 links.now heard) place (link_at l (heard place)) }
{
    'rivals: for (other, rival) in links.iter().enumerate() {
        if outdoes(rival, &links[place], other < place) {
            return true;
        }
    }
    false
}

// Whether of two links with one contact the first one is kept: its nonce is greater, or the same,
// and it stands before the other.
fn outdoes(rival: &Link, link: &Link, before: bool) -> bool
    ensures going { IsTrue result → link.now.end ≡ LinkEnd.Going }
    ensures exact { result ≡ outdoes_of rival.now link.now before }
{
    let same = rival.session.contact == link.session.contact;
    if !same || !rival.is_asked() || !link.is_asked() {
        return false;
    }
    match (&rival.nonce, &link.nonce) {
        (Some(theirs), Some(own)) => goes_first(theirs.cmp(own), before),
        _ => false,
    }
}

// Whether of two nonces that compare so the first is kept: it is greater, or the same, and its link
// stands before the other.
fn goes_first(order: Ordering, before: bool) -> bool
    ensures { result ≡ is_preferred order before }
{
    match order {
        Ordering::Greater => true,
        Ordering::Equal => before,
        Ordering::Less => false,
    }
}
