//! The view.
ghost use Rattle.plain_rules.specs.Lines.{lines_of};
ghost use Rattle.plain_rules.specs.Wants.{WantsAre};
ghost use Rattle.std.specs.Prelude.{◌≡◌, ◌↔◌, IfOk, IsErrOf, List};
ghost use Rattle.sync_rules.specs.Facts.{facts};
ghost use Rattle.sync_rules.specs.Sessions.{shared_ids};
ghost use Rattle.sync_rules.specs.Views.{KnowsShown};
ghost use Rattle.plain_rules.specs.declared.view.PlainFault.TheVariants as fault;

use crate::due::{first_sent, first_sooner, offered_ids, owed_ids, sooner_ids};
use crate::levels::knows_levels;
use crate::lines::{HeldLine, held_lines, place_in};
use crate::rows::row_of;
use crate::shares::shared_in;
use crate::wants::{WantedLine, count_wanted, is_wanted_in, list_wanted, wanted_lines};
use std::alloc::{AllocError, Global};
use std::marker::Model;
use sync_ids::{GroupId, MAX_IDS, MessageId};
use sync_rules::{Batch, Clients, Level, Mode, View, level_in};
use thiserror::Error;

/// Why a plain view was not made.
#[derive(Clone, Copy, Debug, PartialEq, Eq, Error)]
pub enum PlainFault {
    /// There was no memory for it, or 2^32 messages are held, or as many ids are wanted.
    #[error("out of memory")]
    Memory,
    /// A group that is not Invisible to some contact is not known.
    #[error("a group is not known")]
    UnknownGroup,
}

impl From<AllocError> for PlainFault {
    ghost from_gives = { λ _ e. e ≡ fault.Memory };

    fn from(_: AllocError) -> PlainFault {
        PlainFault::Memory
    }
}

/// A view of a list of batches by plain scans, which go over all entries at each call: what other
/// views are compared with. Contracts see the batches, and the ids of the messages whose judgement
/// lets them be sent on.
#[derive(Debug, Drop)]
pub struct PlainView<'a> {
    batches: &'a [Batch],
    held: Vec<HeldLine>,
    wanted: Vec<WantedLine>,
    shared: Vec<MessageId>,
}

impl<'a> Model for PlainView<'a> {
    ghost use Rattle.std.specs.Prelude.{List, ℕ};
    ghost use Rattle.sync_rules.specs.declared.entries.Entry.{Entry};
    ghost use Rattle.plain_rules.specs.Plain.{IsPlainView};

    ghost Value = { List (List Entry) × List (List ℕ) };

    ghost view = { λ v. (v.batches.now, v.shared.items) };

    ghost invariant = { λ v. IsPlainView v.batches.now v.held.items v.wanted.items };
}

// The parts, where they are few enough.
fn plain_view<'a>(
    batches: &'a [Batch],
    held: Vec<HeldLine>,
    wanted: Vec<WantedLine>,
    shared: Vec<MessageId>,
) -> Result<PlainView<'a>, PlainFault>
    requires lines { held.items ≡ lines_of (facts batches.now).held }
    requires wants { WantsAre (facts batches.now) wanted.items }
    requires knows { KnowsShown (facts batches.now) }
    ensures made { IfOk result (λ v. v ≡ (batches.now, shared.items)) }
    ensures refused { IsErrOf result PlainFault.UnknownGroup → ⊥ }
{
    if held.len() > MOST || wanted.len() > MOST {
        return Err(PlainFault::Memory);
    }
    Ok(PlainView {
        batches,
        held,
        wanted,
        shared,
    })
}

// The greatest number of held messages, and of wanted ids.
const MOST: usize = 0xffff_ffff;

fn gather<'a, C: Clients>(
    alloc: Global,
    batches: &'a [Batch],
    clients: &C,
) -> Result<PlainView<'a>, PlainFault>
    requires { KnowsShown (facts batches.now) }
    ensures made { IfOk result
        (λ v. v ≡ (batches.now, shared_ids (C.meaning clients.now) (facts batches.now))) }
    ensures refused { IsErrOf result PlainFault.UnknownGroup → ⊥ }
{
    let held = held_lines(alloc, batches)?;
    let wanted = wanted_lines(alloc, batches)?;
    let shared = shared_in(alloc, batches, clients)?;
    plain_view(batches, held, wanted, shared)
}

impl<'a> PlainView<'a> {
    /// A view of these batches, by what these clients judge. `UnknownGroup` comes exactly where a
    /// group that is not Invisible to some contact is not known, which is so in no legal journal;
    /// else it fails only for want of memory, as which 2^32 held messages or wanted ids count.
    pub fn new<C: Clients>(
        alloc: Global,
        batches: &'a [Batch],
        clients: &C,
    ) -> Result<PlainView<'a>, PlainFault>
        ensures made { IfOk result
            (λ v. v ≡ (batches.now, shared_ids (C.meaning clients.now) (facts batches.now))) }
        ensures unknown { IsErrOf result PlainFault.UnknownGroup ↔ (KnowsShown (facts batches.now)
            → ⊥) }
    {
        if knows_levels(batches) {
            gather(alloc, batches, clients)
        } else {
            Err(PlainFault::UnknownGroup)
        }
    }
}

impl<'a> View for PlainView<'a> {
    ghost use Rattle.sync_rules.specs.Facts.{facts};

    ghost seen = { λ v. record { facts = facts v.0; shared = v.1 } };

    fn level(&self, contact: u8, group: &GroupId) -> Level {
        level_in(self.batches, contact, group)
    }

    fn find(&self, id: &MessageId) -> Option<u32> {
        place_in(self.held.as_slice(), id)
    }

    fn group_at(&self, n: u32) -> GroupId {
        self.held[n as usize].group
    }

    fn is_wanted(&self, contact: u8, id: &MessageId) -> bool {
        is_wanted_in(self.wanted.as_slice(), contact, id)
    }

    fn wanted_count(&self, contact: u8) -> u32 {
        count_wanted(self.wanted.as_slice(), contact) as u32
    }

    fn is_seen(&self, contact: u8, n: u32) -> bool {
        let line = &self.held[n as usize];
        row_of(self.batches, contact, &line.id).seen
    }

    fn owed(&self, alloc: Global, contact: u8) -> Result<Vec<MessageId>, AllocError> {
        let mut ids = owed_ids(alloc, self.batches, self.held.as_slice(), contact)?;
        ids.truncate(MAX_IDS);
        Ok(ids)
    }

    fn wanted(&self, alloc: Global, contact: u8) -> Result<Vec<MessageId>, AllocError> {
        let mut ids = list_wanted(alloc, self.wanted.as_slice(), contact)?;
        ids.truncate(MAX_IDS);
        Ok(ids)
    }

    fn next_send(&self, contact: u8, mode: Mode, now: u64) -> Option<MessageId> {
        first_sent(
            self.batches,
            self.shared.as_slice(),
            self.held.as_slice(),
            contact,
            mode,
            now,
        )
    }

    fn offers(&self, alloc: Global, contact: u8, now: u64) -> Result<Vec<MessageId>, AllocError> {
        let mut ids = offered_ids(
            alloc,
            self.batches,
            self.shared.as_slice(),
            self.held.as_slice(),
            contact,
            now,
        )?;
        ids.truncate(MAX_IDS);
        Ok(ids)
    }

    fn next_sooner(&self, contact: u8, latency: u32, now: u64) -> Option<MessageId> {
        first_sooner(
            self.batches,
            self.shared.as_slice(),
            self.held.as_slice(),
            contact,
            latency,
            now,
        )
    }

    fn sooner_offers(
        &self,
        alloc: Global,
        contact: u8,
        latency: u32,
        now: u64,
    ) -> Result<Vec<MessageId>, AllocError> {
        let mut ids = sooner_ids(
            alloc,
            self.batches,
            self.shared.as_slice(),
            self.held.as_slice(),
            contact,
            latency,
            now,
        )?;
        ids.truncate(MAX_IDS);
        Ok(ids)
    }
}
