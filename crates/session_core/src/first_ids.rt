//! The distinct ids of a list.
ghost use Rattle.std.specs.Prelude.{◌≡◌, ◌<◌, ◌&&◌, length, not, IfOk, OnOk};
ghost use Rattle.sync_rules.specs.Lists.{firsts, is_among};
ghost use Rattle.session_core.specs.Slots.{AreCounted, HasJoined, is_shared, slot_of};

use std::alloc::{AllocError, Global};
use std::collections::BTreeSet;
use sync_ids::MessageId;

/// How many slots there are at least for each id of a list.
const SLOTS_AN_ID: usize = 16;

/// For how many ids there are slots at most: two bytes tell no more slots apart.
const MOST_COUNTED: usize = 4_096;

/// The ids of a list, each once, in the order of their first places. They are counted by slots, and
/// only those that share a slot are compared, by an ordered set; so whoever chose the ids, each
/// costs at most a logarithm of their number. It fails only for want of memory.
pub(crate) fn first_ids(alloc: Global, ids: &[MessageId]) -> Result<Vec<MessageId>, AllocError>
    ensures { IfOk result (λ distinct. distinct.items ≡ firsts ids.now) }
{
    let counts = count_slots(alloc, ids)?;
    let mut known = BTreeSet::new(alloc);
    let mut distinct = Vec::with_capacity(alloc, ids.len())?;
    for id in ids {
        if is_first(counts.as_slice(), &mut known, id)? {
            distinct.push(*id)?;
        }
    }
    Ok(distinct)
}

// Whether an id is none of those before it, of which the set has those that share a slot. It joins
// them there if it shares one.
fn is_first(
    counts: &[u8],
    known: &mut BTreeSet<MessageId>,
    id: &MessageId,
) -> Result<bool, AllocError>
    requires { 0 < length counts.now }
    ensures first { IfOk result (λ first.
        first ≡ not (is_shared counts.now id.now && is_among known.old.keys id.now)) }
    ensures known { OnOk result
        (HasJoined (is_shared counts.now id.now) id.now known.old.keys known.new.keys) }
{
    if is_shared(counts, id) {
        let is_new = known.insert(*id)?;
        Ok(is_new)
    } else {
        Ok(true)
    }
}

// Whether more than one id was counted in the slot of an id.
fn is_shared(counts: &[u8], id: &MessageId) -> bool
    requires { 0 < length counts.now }
    ensures { result ≡ is_shared counts.now id.now }
{
    counts[slot_of(id, counts.len())] > 1
}

// How many of the ids have each slot, as far as a byte counts.
fn count_slots(alloc: Global, ids: &[MessageId]) -> Result<Vec<u8>, AllocError>
    ensures some { IfOk result (λ counts. 0 < length counts.items) }
    ensures counted { IfOk result (λ counts. AreCounted counts.items ids.now) }
{
    let slots = (SLOTS_AN_ID * ids.len().min(MOST_COUNTED)).next_power_of_two();
    let mut counts = vec![in alloc; 0u8; slots]?;
    for id in ids {
        let slot = slot_of(id, slots);
        counts[slot] = counts[slot].saturating_add(1);
    }
    Ok(counts)
}

// The slot of an id, by its first two bytes, where there are so many slots, a power of two.
fn slot_of(id: &MessageId, slots: usize) -> usize
    requires { 0 < slots }
    ensures below { result < slots }
    ensures slot { result ≡ slot_of id.now slots }
{
    let [first, second, ..] = id.0;
    (usize::from(first) + 256 * usize::from(second)) & (slots - 1)
}
