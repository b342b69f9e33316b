// The delivered messages of a group and what they reply to, as a store has them.
ghost use Rattle.std.specs.Prelude.{◌≡◌, ◌+◌, ◌<◌, ◌≤◌, length, IfOk, OnOk, Some, List, slice_get};
ghost use Rattle.sync_rules.specs.Clients.{Meaning};
ghost use Rattle.sync_rules.specs.Facts.{Id};
ghost use Rattle.sync_rules.specs.Lists.{same_id};
ghost use Rattle.journal_state.specs.Firsts.{firsts_of};
ghost use Rattle.journal_state.specs.Whole.{KnowsJudgements};
ghost use Rattle.tree_commands.specs.Gathered.{IsThreadOf, with_delivered};
ghost use Rattle.tree_commands.specs.Trees.{delivered_in};

use crate::finished::FinishedThread;
use crate::thread::Thread;
use std::alloc::{AllocError, Global};
use sync_ids::{GroupId, Message};
use sync_store::Store;

/// The delivered messages of a group as a tree, by the judgements that the store keeps. It fails
/// only for want of memory.
pub(crate) fn gather(
    alloc: Global,
    store: &Store,
    group: &GroupId,
) -> Result<FinishedThread, AllocError>
    ensures { (clients : Meaning) → KnowsJudgements clients store.now.state
        → IfOk result (IsThreadOf clients store.now.state.facts
        (delivered_in store.now.state.facts group.now)) }
{
    let firsts = store.state().firsts(alloc)?;
    let mut thread = Thread::new(alloc, store.held())?;
    'delivered: for k in 0..store.delivered() {
        add_delivered(store, k, group, firsts.as_slice(), &mut thread)?;
    }
    thread.finish()
}

// Adds the k-th of the delivered messages, if it is of the group; each replies to the first that it
// depends on.
fn add_delivered(
    store: &Store,
    k: u32,
    group: &GroupId,
    firsts: &[Option<u32>],
    thread: &mut Thread,
) -> Result<(), AllocError>
    requires firsts { firsts.now ≡ firsts_of store.now.state }
    requires many { length firsts.now ≡ length store.now.state.facts.held }
    requires there { k < length store.now.state.facts.delivered }
    requires few { length thread.old.numbers ≤ k }
    requires sized { thread.old.held ≡ length store.now.state.facts.held }
    ensures added { OnOk result ((clients : Meaning) → KnowsJudgements clients store.now.state
        → (ids : List Id) (id : Id) → slice_get store.now.state.facts.delivered k ≡ Some id
        → IsThreadOf clients store.now.state.facts ids thread.old
        → IsThreadOf clients store.now.state.facts
        (with_delivered store.now.state.facts group.now ids id) thread.new) }
    ensures few { OnOk result (length thread.new.numbers ≤ k + 1) }
    ensures sized { OnOk result (thread.new.held ≡ length store.now.state.facts.held) }
{
    store.state().show_sound();
    let n = store.delivered_at(k);
    if !is_of(store.message(n), group) {
        return Ok(());
    }
    thread.add(n, firsts[n as usize])
}

// Whether a message is one of a group.
fn is_of(message: &Message, group: &GroupId) -> bool
    ensures { result ≡ same_id message.now.group group.now }
{
    message.group() == *group
}
