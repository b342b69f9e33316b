// The sessions of a run: they begin, and the turns are made.
ghost use Rattle.std.specs.Prelude.{◌≡◌, ◌+◌, ◌≤◌, ◌<◌, ◌^◌, [], cond, false, length, IfErr};
ghost use Rattle.std.specs.Prelude.{IfOk, OnOk};
ghost use Rattle.outside.specs.declared.limits.TheConstants.{LINKS};
ghost use Rattle.sync_rules.specs.Steps.{IsSettled};
ghost use Rattle.sync_rules.specs.declared.limits.TheConstants.{MAX_SESSIONS};
ghost use Rattle.sync_node.specs.Courses.{AllRead, is_still};
ghost use Rattle.sync_node.specs.Node.{IsNode, MayRun};
ghost use Rattle.sync_run.specs.Parts.{StandsBy};
ghost use Rattle.sync_run.specs.Needs.{AllMayBegin};
ghost use Rattle.sync_run.specs.Courses.{terms_at};
ghost use Rattle.sync_run.specs.Parts.{before_turns, EndsFrom, SessionsBegin, silent, StopsFrom};
ghost use Rattle.sync_run.specs.Parts.{StopsRun};
ghost use Rattle.sync_run.specs.declared.run.Limits.{Limits};

use crate::dialling::Dialled;
use crate::run::Limits;
use outside::Host;
use sync_course::is_over;
use sync_node::{Node, NodeFault, Turned};
use sync_rules::Clients;

/// Begins a session on each of these links, in order.
pub fn attach_all<H: Host, C: Clients>(
    node: &mut Node,
    host: &mut H,
    clients: &C,
    links: &[Dialled],
) -> Result<(), NodeFault>
    requires still_open { node.old.closed ≡ false }
    requires may { MayRun (C.meaning clients.now) node.old (H.tells host.old) }
    requires settled { IsSettled (C.meaning clients.now) node.old.store.state.facts }
    requires none { node.old.links ≡ [] }
    requires first { node.old.store.state.facts.begun ≡ node.old.first }
    requires each { AllMayBegin node.old.store.state.facts.contacts links.now }
    requires sessions { node.old.store.state.facts.begun + length links.now ≤ MAX_SESSIONS }
    requires few { length links.now ≤ LINKS }
    requires dialled { length links.now ≤ (H.tells host.old).links.dialled }
    ensures stands { StandsBy (C.meaning clients.now) (length links.now) node.old node.new
        (H.tells host.old) (H.tells host.new) result }
    ensures went { OnOk result (SessionsBegin (C.meaning clients.now) links.now [] node.old node.new
        (H.tells host.old) (H.tells host.new)) }
    ensures stopped { IfErr result (λ fault. (limits : Limits) → StopsRun (C.meaning clients.now)
        limits links.now node.old node.new (H.tells host.old) (H.tells host.new) fault) }
{
    let mut number = 0;
    'links: for link in links {
        node.attach(host, clients, number, &link.plan, link.nonce)?;
        number += 1;
    }
    Ok(())
}

/// Makes turns until the run is over or all were made, and answers whether it is over. Nothing was
/// heard before on any link.
pub fn make_turns<H: Host, C: Clients>(
    node: &mut Node,
    host: &mut H,
    clients: &C,
    limits: Limits,
) -> Result<bool, NodeFault>
    requires still_open { node.old.closed ≡ false }
    requires may { MayRun (C.meaning clients.now) node.old (H.tells host.old) }
    requires node { IsNode node.old }
    requires read { AllRead silent node.old.links }
    ensures stands { StandsBy (C.meaning clients.now) (length node.old.links) node.old node.new
        (H.tells host.old) (H.tells host.new) result }
    ensures went { IfOk result (EndsFrom (C.meaning clients.now) limits
        (before_turns node.old.links node.old.store.state.facts) node.old node.new
        (H.tells host.old) (H.tells host.new)) }
    ensures stopped { IfErr result (StopsFrom (C.meaning clients.now)
        (terms_at limits node.old.first)
        (before_turns node.old.links node.old.store.state.facts) node.old.store node.new.store
        (H.tells host.old) (H.tells host.new)) }
{
    let mut still = 0;
    'turns: for _ in 0..limits.turns {
        still = count_still(node.turn(host, clients)?, still);
        if is_over(u64::from(limits.quiet), still, node.asked() > 0) {
            return Ok(true);
        }
    }
    Ok(false)
}

// How many of the last turns were still, behind one more.
fn count_still(turned: Turned, still: u64) -> u64
    requires { still + 1 < 2 ^ 64 }
    ensures counts { result ≡ cond (is_still turned) (still + 1) 0 }
    ensures few { result ≤ still + 1 }
{
    match turned {
        Turned::Still => still + 1,
        Turned::Moving => 0,
    }
}
