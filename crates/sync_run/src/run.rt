// The command `sync`.
ghost use Rattle.std.specs.Prelude.{◌≡◌, ◌+◌, ◌≤◌, [], false, length, vec_capacity, ◌<◌, IfErr, IfOk};
ghost use Rattle.std.specs.Prelude.{Err, OnOk, Some};
ghost use Rattle.std.specs.List.{All};
ghost use Rattle.outside.specs.Files.{Two, File};
ghost use Rattle.entry_codec.specs.declared.naming.Format.TheVariants as kind;
ghost use Rattle.sync_rules.specs.Steps.{IsSettled};
ghost use Rattle.sync_rules.specs.declared.limits.TheConstants.{MAX_SESSIONS};
ghost use Rattle.sync_rules.specs.Facts.{Journal};
ghost use Rattle.sync_store.specs.Ready.{IsReady};
ghost use Rattle.sync_store.specs.Store.{written_in};
ghost use Rattle.sync_node.specs.Courses.{FitsWith};
ghost use Rattle.sync_node.specs.Going.{LetsNothingFall};
ghost use Rattle.sync_node.specs.Node.{MayRun};
ghost use Rattle.outside.specs.declared.limits.TheConstants.{LINKS, MAX_JOURNAL};
ghost use Rattle.sync_words.specs.Links.{AreLinks};
ghost use Rattle.sync_words.specs.declared.outcome.Outcome.TheVariants as outcome;
ghost use Rattle.sync_run.specs.Causes.{IsCaused, RunCaused};
ghost use Rattle.sync_run.specs.Courses.{HaveSpecs, TestsContacts, TestsWords};
ghost use Rattle.sync_run.specs.Headline.{Headline, LeavesFilesAtRest};
ghost use Rattle.sync_run.specs.Leaving.{LeavesLinks, LinksCameTo, MayHangUp};
ghost use Rattle.sync_run.specs.Needs.{AllMayBegin, HasRoomFor, IsKnown};
ghost use Rattle.sync_run.specs.Parts.{StandsBy};
ghost use Rattle.sync_run.specs.Parts.{RanDialled, RanOnLinks, RanSettled, RunsSessions, StopsRun};
ghost use Rattle.sync_run.specs.Ran.{RanTold};

use crate::closing::close;
use crate::dialling::{Dialled, dial_all, hang_up_all};
use crate::sessions::{attach_all, make_turns};
use outside::Host;
use std::alloc::Global;
use std::hash::RandomState;
use store_commands::{load_store, migrate_and_settle};
use sync_course::laws::{all_is_sent, batches_suit_as_planned, moments_stand, runs_end_quiet};
use sync_node::{Node, NodeFault};
use sync_rules::{Clients, MAX_SESSIONS, Refused};
use sync_store::Store;
use sync_words::{LinkEnds, LinkWords, Outcome};

/// How long a run goes on.
#[derive(Clone, Copy, Debug, PartialEq, Eq)]
pub struct Limits {
    /// How many turns are made at most, 1 to 1,000,000.
    pub turns: u32,
    /// How many still turns one behind the other end the run, 1 to 1,000,000.
    pub quiet: u32,
}

/// Runs a session on each of these links, 1 to 8 of them, over a host on which no link was made,
/// and answers how the links ended. It loads the store, tests the contacts and the number of
/// sessions, dials the links and draws their nonces, migrates the journal and settles it, begins
/// the sessions in order, and makes turns until the run is over or all were made. At the end every
/// link is hung up.
///
/// # Errors
/// `NoStore`, `Damaged`, `Refused(UnknownContact)` and `Refused(TooManySessions)` leave the files
/// as they read, and no link is made; nor is one, nor a byte written, whatever it answers, where
/// one of these is due.
/// `LinkFailed` names the one link whose dial or nonce failed, the journal is as it was,
/// and nothing was sent or heard; `Full`, `Memory` and `DiskFault` break the run off. `Full` comes
/// also where a journal of format 1 has the last generation: then the files read as before, and
/// nothing was sent or heard.
pub fn sync_links<H: Host, C: Clients>(
    alloc: Global,
    hasher: RandomState,
    limits: Limits,
    links: &[LinkWords],
    host: &mut H,
    clients: &C,
) -> Result<LinkEnds, Outcome>
    requires links { AreLinks links.now }
    requires unused { (H.tells host.old).links.dialled ≡ 0 }
    ensures headline { Headline (C.meaning clients.now) links.now (H.tells host.old)
        (H.tells host.new) }
    ensures told { (two : Two File) → (H.tells host.old).files ≡ Some two
        → RanTold (C.meaning clients.now) limits links.now two (H.tells host.old) (H.tells host.new)
        result }
    ensures specs { HaveSpecs links.now (H.tells host.new) }
    ensures caused { IsCaused links.now (H.tells host.old) (H.tells host.new) result }
    ensures leaves { LeavesLinks links.now (H.tells host.old) (H.tells host.new) result }
{
    // The laws of what was sent, of what a crash leaves at each moment, and of what stands at the end
    // of a run that is over.
    all_is_sent();
    batches_suit_as_planned();
    moments_stand();
    runs_end_quiet();
    let store = load_store(alloc, hasher, host, clients)?;
    test_words(&store, links)?;
    let mut dialled = Vec::with_capacity(alloc, links.len())?;
    let ended = run_links(alloc, store, limits, links, &mut dialled, host, clients);
    hang_up_all(host, dialled.len());
    ended
}

// The first refusal: a contact that is not known, or more sessions than there may be.
fn test_words(store: &Store, links: &[LinkWords]) -> Result<(), Refused>
    ensures allowed { OnOk result (HasRoomFor store.now.state.facts links.now) }
    ensures tested { TestsWords store.now.state.facts links.now result }
{
    test_contacts(store, links)?;
    let sessions = store.sessions() as usize + links.len();
    if sessions > MAX_SESSIONS as usize {
        return Err(Refused::TooManySessions);
    }
    Ok(())
}

// The first refusal of the contacts: one that is not known.
fn test_contacts(store: &Store, links: &[LinkWords]) -> Result<(), Refused>
    ensures known { OnOk result (All (IsKnown store.now.state.facts.contacts) links.now) }
    ensures tested { TestsContacts store.now.state.facts links.now result }
{
    let contacts = store.contacts();
    'links: for words in links {
        if u32::from(words.contact) >= contacts {
            return Err(Refused::UnknownContact);
        }
    }
    Ok(())
}

// Dials the links, and runs the sessions on them.
fn run_links<H: Host, C: Clients>(
    alloc: Global,
    store: Store,
    limits: Limits,
    words: &[LinkWords],
    dialled: &mut Vec<Dialled>,
    host: &mut H,
    clients: &C,
) -> Result<LinkEnds, Outcome>
    requires links { AreLinks words.now }
    requires unused { (H.tells host.old).links.dialled ≡ 0 }
    requires ready { IsReady (C.meaning clients.now) store (H.tells host.old).files }
    requires limited { store.limit ≡ MAX_JOURNAL }
    requires known { All (IsKnown store.state.facts.contacts) words.now }
    requires sessions { store.state.facts.begun + length words.now ≤ MAX_SESSIONS }
    requires empty { dialled.old.items ≡ [] }
    requires room { length words.now ≤ vec_capacity dialled.old }
    ensures dialled { MayHangUp dialled.new.items (H.tells host.new) }
    ensures rests { LeavesFilesAtRest (H.tells host.new).files result }
    ensures links { LinksCameTo words.now (H.tells host.old) (H.tells host.new) result }
    ensures ran { (j : Journal) → FitsWith (C.meaning clients.now) store (H.tells host.old).files j
        → RanOnLinks (C.meaning clients.now) limits words.now j (H.tells host.old)
        (H.tells host.new) result }
{
    match dial_all(host, words, dialled) {
        Ok(()) => run_dialled(alloc, store, limits, dialled.as_slice(), host, clients),
        Err(_) => dial_failed(dialled.len()),
    }
}

// What the command comes to where the call on the link of this number failed.
fn dial_failed(link: usize) -> Result<LinkEnds, Outcome>
    requires { link < LINKS }
    ensures { result ≡ Err (outcome.LinkFailed link) }
{
    Err(Outcome::LinkFailed(link as u8))
}

// Migrates and settles the journal, and runs the sessions on links that were dialled.
fn run_dialled<H: Host, C: Clients>(
    alloc: Global,
    store: Store,
    limits: Limits,
    links: &[Dialled],
    host: &mut H,
    clients: &C,
) -> Result<LinkEnds, Outcome>
    requires ready { IsReady (C.meaning clients.now) store (H.tells host.old).files }
    requires limited { store.limit ≡ MAX_JOURNAL }
    requires each { AllMayBegin store.state.facts.contacts links.now }
    requires sessions { store.state.facts.begun + length links.now ≤ MAX_SESSIONS }
    requires few { length links.now ≤ LINKS }
    requires dialled { length links.now ≤ (H.tells host.old).links.dialled }
    ensures goes { LetsNothingFall (H.tells host.old) (H.tells host.new) }
    ensures rests { LeavesFilesAtRest (H.tells host.new).files result }
    ensures caused { RunCaused (H.tells host.old) (H.tells host.new) result }
    ensures ran { RanDialled (C.meaning clients.now) limits links.now store (H.tells host.old)
        (H.tells host.new) result }
{
    let mut store = store;
    migrate_and_settle(&mut store, host, clients)?;
    run_settled(alloc, store, limits, links, host, clients)
}

// Runs them over a store that is settled, in format 2.
fn run_settled<H: Host, C: Clients>(
    alloc: Global,
    store: Store,
    limits: Limits,
    links: &[Dialled],
    host: &mut H,
    clients: &C,
) -> Result<LinkEnds, Outcome>
    requires ready { IsReady (C.meaning clients.now) store (H.tells host.old).files }
    requires settled { IsSettled (C.meaning clients.now) store.state.facts }
    requires short { written_in store ≡ kind.Short }
    requires limited { store.limit ≡ MAX_JOURNAL }
    requires each { AllMayBegin store.state.facts.contacts links.now }
    requires sessions { store.state.facts.begun + length links.now ≤ MAX_SESSIONS }
    requires few { length links.now ≤ LINKS }
    requires dialled { length links.now ≤ (H.tells host.old).links.dialled }
    ensures goes { LetsNothingFall (H.tells host.old) (H.tells host.new) }
    ensures rests { LeavesFilesAtRest (H.tells host.new).files result }
    ensures caused { RunCaused (H.tells host.old) (H.tells host.new) result }
    ensures ran { RanSettled (C.meaning clients.now) limits links.now store (H.tells host.old)
        (H.tells host.new) result }
{
    let mut node = Node::new(alloc, store)?;
    match run_node(&mut node, limits, links, host, clients) {
        Ok(over) => Ok(close(alloc, &node, links.len() as u8, over)?),
        Err(NodeFault::Memory) => Err(Outcome::Memory),
        Err(NodeFault::DiskFault) => Err(Outcome::DiskFault),
        Err(NodeFault::Full) => Err(Outcome::Full),
        Err(NodeFault::Closed) => unreachable!(),
    }
}

// Begins the sessions and makes the turns.
fn run_node<H: Host, C: Clients>(
    node: &mut Node,
    limits: Limits,
    links: &[Dialled],
    host: &mut H,
    clients: &C,
) -> Result<bool, NodeFault>
    requires still_open { node.old.closed ≡ false }
    requires may { MayRun (C.meaning clients.now) node.old (H.tells host.old) }
    requires settled { IsSettled (C.meaning clients.now) node.old.store.state.facts }
    requires none { node.old.links ≡ [] }
    requires first { node.old.store.state.facts.begun ≡ node.old.first }
    requires each { AllMayBegin node.old.store.state.facts.contacts links.now }
    requires sessions { node.old.store.state.facts.begun + length links.now ≤ MAX_SESSIONS }
    requires few { length links.now ≤ LINKS }
    requires dialled { length links.now ≤ (H.tells host.old).links.dialled }
    ensures stands { StandsBy (C.meaning clients.now) (length links.now) node.old node.new
        (H.tells host.old) (H.tells host.new) result }
    ensures went { IfOk result (RunsSessions (C.meaning clients.now) limits links.now node.old
        node.new (H.tells host.old) (H.tells host.new)) }
    ensures stopped { IfErr result (StopsRun (C.meaning clients.now) limits links.now node.old
        node.new (H.tells host.old) (H.tells host.new)) }
{
    attach_all(node, host, clients, links)?;
    make_turns(node, host, clients, limits)
}
