//! A turn: of one link, and of all links in order.
ghost use Rattle.std.specs.Prelude.{◌≡◌, ◌≤◌, length, OnOk};
ghost use Rattle.sync_course.specs.declared.TheConstants.{PIECE_LEN};
ghost use Rattle.sync_node.specs.declared.limits.TheConstants.{MOST_LINKS};
ghost use Rattle.sync_node.specs.Courses.{is_still};
ghost use Rattle.sync_node.specs.Keeps.{LinkWorks, LinksWork};
ghost use Rattle.sync_node.specs.Node.{AreSome, MayGoOn};
ghost use Rattle.sync_node.specs.OnLinks.{HearingStopped, HearingWent, SendingStopped};
ghost use Rattle.sync_node.specs.OnLinks.{SendingWent, TurnWent};
ghost use Rattle.sync_node.specs.OnRuns.{AllTurned, LinksStopped, LinksWent, RoundStopped};
ghost use Rattle.sync_node.specs.Working.{HasGivenItems, IsAble, MayWork};

use crate::fault::Fault;
use crate::hearing::receive_on;
use crate::link::Link;
use crate::node::Turned;
use crate::redundant::close_redundant;
use crate::sending::send_all;
use outside::Host;
use std::alloc::Global;
use sync_rules::Clients;
use sync_store::Store;

/// Makes the turn of each link in order, and then closes the redundant ones. It is still where all
/// links were: a whole turn of the course. Or in some link's turn memory was wanting, or a batch
/// would pass the limit, or a call of the disk failed.
pub(crate) fn turn_all<H: Host, C: Clients>(
    alloc: Global,
    store: &mut Store,
    host: &mut H,
    clients: &C,
    links: &mut [Link],
    buffer: &mut [u8],
) -> Result<Turned, Fault>
    requires may { MayGoOn (C.meaning clients.now) links.old store.old (H.tells host.old) }
    requires few { length links.old ≤ MOST_LINKS }
    requires attached { AreSome links.old store.old.state.facts }
    requires whole { length buffer.old ≡ PIECE_LEN }
    ensures { LinksWork AllTurned RoundStopped (C.meaning clients.now) links.old links.new store.old
        store.new (H.tells host.old) (H.tells host.new) result }
{
    let still = turn_each(alloc, store, host, clients, links, buffer)?;
    close_redundant(links);
    Ok(turned(still))
}

// What a turn did, by whether all links were still.
fn turned(still: bool) -> Turned
    ensures { is_still result ≡ still }
{
    if still { Turned::Still } else { Turned::Moving }
}

// Makes the turn of each link in order. Answers whether all were still.
fn turn_each<H: Host, C: Clients>(
    alloc: Global,
    store: &mut Store,
    host: &mut H,
    clients: &C,
    links: &mut [Link],
    buffer: &mut [u8],
) -> Result<bool, Fault>
    requires may { MayGoOn (C.meaning clients.now) links.old store.old (H.tells host.old) }
    requires few { length links.old ≤ MOST_LINKS }
    requires attached { AreSome links.old store.old.state.facts }
    requires whole { length buffer.old ≡ PIECE_LEN }
    ensures { LinksWork (LinksWent (length links.old)) LinksStopped (C.meaning clients.now) links.old
        links.new store.old store.new (H.tells host.old) (H.tells host.new) result }
{
    let mut still = true;
    'links: for place in 0..links.len() {
        let link = &mut links[place];
        let quiet = turn_link(alloc, store, host, clients, place as u8, link, buffer)?;
        still = still && quiet;
    }
    Ok(still)
}

// Hears on a link that is still asked, and then sends what is due on one that is not closed.
// Answers whether the link was still: nothing came for now, and no output was committed. Where it
// is stopped, it was in one of the two.
fn turn_link<H: Host, C: Clients>(
    alloc: Global,
    store: &mut Store,
    host: &mut H,
    clients: &C,
    number: u8,
    link: &mut Link,
    buffer: &mut [u8],
) -> Result<bool, Fault>
    requires able { MayWork (C.meaning clients.now) number link.old store.old (H.tells host.old) }
    requires whole { length buffer.old ≡ PIECE_LEN }
    ensures work { LinkWorks TurnWent HearingStopped (C.meaning clients.now) number link.old link.new
        store.old store.new (H.tells host.old) (H.tells host.new) result }
    ensures waits { OnOk result (HasGivenItems link.new) }
{
    let quiet = hear_now(alloc, store, host, clients, number, link, buffer)?;
    let made = send_now(alloc, store, host, clients, number, link)?;
    Ok(quiet && made == 0)
}

// Hears on a link, where it is still asked. Answers whether nothing came for now.
fn hear_now<H: Host, C: Clients>(
    alloc: Global,
    store: &mut Store,
    host: &mut H,
    clients: &C,
    number: u8,
    link: &mut Link,
    buffer: &mut [u8],
) -> Result<bool, Fault>
    requires able { MayWork (C.meaning clients.now) number link.old store.old (H.tells host.old) }
    requires whole { length buffer.old ≡ PIECE_LEN }
    ensures work { LinkWorks HearingWent HearingStopped (C.meaning clients.now) number link.old link.new
        store.old store.new (H.tells host.old) (H.tells host.new) result }
    ensures waits { OnOk result (HasGivenItems link.new) }
{
    if !link.is_asked() {
        return Ok(true);
    }
    receive_on(alloc, store, host, clients, number, link, buffer)
}

// Reads the clock, and sends what is due then, where the link is not closed. Answers how many
// outputs that were.
fn send_now<H: Host, C: Clients>(
    alloc: Global,
    store: &mut Store,
    host: &mut H,
    clients: &C,
    number: u8,
    link: &mut Link,
) -> Result<u32, Fault>
    requires able { IsAble (C.meaning clients.now) number link.old.session store.old
        (H.tells host.old) }
    ensures { LinkWorks SendingWent SendingStopped (C.meaning clients.now) number link.old link.new
        store.old store.new (H.tells host.old) (H.tells host.new) result }
{
    if !link.may_send() {
        return Ok(0);
    }
    let now = host.now();
    send_all(alloc, store, host, clients, number, link, now)
}
