//! The ids of the messages whose judgement lets them be sent on.
ghost use Rattle.plain_rules.specs.Shares.{shared_by, shared_of};
ghost use Rattle.std.specs.Option.{option_to_list};
ghost use Rattle.std.specs.Prelude.{◌≡◌, ◌+◌, ◌++◌, Some, IfOk, OnOk};
ghost use Rattle.sync_rules.specs.Facts.{facts};
ghost use Rattle.sync_rules.specs.Scans.{message_of};
ghost use Rattle.sync_rules.specs.Sessions.{shared_ids};

use std::alloc::{AllocError, Global};
use sync_ids::{Message, MessageId};
use sync_rules::lookups::{is_judged_in, judge_in, message_in};
use sync_rules::{Batch, Clients, Entry, Judgement, id_of};

// The id of the message that the entry brings, where its judgement lets it be sent on.
fn shared_in_entry<C: Clients>(
    alloc: Global,
    j: &[Batch],
    clients: &C,
    entry: &Entry,
) -> Result<Option<MessageId>, AllocError>
    ensures { IfOk result (λ id. option_to_list id ≡ shared_by (C.meaning clients.now) (facts j.now)
        (message_of entry.now)) }
{
    match message_in(entry) {
        Some(message) => shared_message(alloc, j, clients, message),
        None => Ok(None),
    }
}

fn shared_message<C: Clients>(
    alloc: Global,
    j: &[Batch],
    clients: &C,
    message: &Message,
) -> Result<Option<MessageId>, AllocError>
    ensures { IfOk result (λ id. option_to_list id ≡ shared_by (C.meaning clients.now) (facts j.now)
        (Some message.now)) }
{
    let id = id_of(message);
    if !is_judged_in(j, &id) {
        return Ok(None);
    }
    match judge_in(alloc, j, clients, message)? {
        Judgement::Refuse => Ok(None),
        Judgement::Accept { share, .. } => { if share { Ok(Some(id)) } else { Ok(None) } }
    }
}

fn push_shared<C: Clients>(
    alloc: Global,
    j: &[Batch],
    clients: &C,
    entries: &[Entry],
    ids: &mut Vec<MessageId>,
) -> Result<(), AllocError>
    ensures { OnOk result (ids.new.items ≡ ids.old.items ++ shared_of (C.meaning clients.now)
        (facts j.now) entries.now) }
{
    for entry in entries {
        if let Some(id) = shared_in_entry(alloc, j, clients, entry)? {
            ids.push(id)?;
        }
    }
    Ok(())
}

#[tactic(auto, using(crate::proofs::ShareScans::shared_found))]
pub(crate) fn shared_in<C: Clients>(
    alloc: Global,
    j: &[Batch],
    clients: &C,
) -> Result<Vec<MessageId>, AllocError>
    ensures { IfOk result (λ ids. ids.items ≡ shared_ids (C.meaning clients.now) (facts j.now)) }
{
    let mut ids = Vec::new(alloc);
    for batch in j {
        push_shared(alloc, j, clients, batch.entries(), &mut ids)?;
    }
    Ok(ids)
}
