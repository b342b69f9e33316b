//! What a session may ask of a store.
ghost use Rattle.std.specs.Prelude.{◌≡◌, ◌<◌, not, length, IfOk};
ghost use Rattle.std.specs.List.{slice_get};
ghost use Rattle.sync_rules.specs.Facts.{is_invisible, level_at, wanted_from};
ghost use Rattle.sync_rules.specs.Lists.{is_among};
ghost use Rattle.sync_rules.specs.Sessions.{is_welcome, offers_of, owed_to, send_of, sooner_of};
ghost use Rattle.sync_rules.specs.Sessions.{sooner_offers_of, wanted_of};
ghost use Rattle.sync_rules.specs.Views.{group_in, is_seen_in, IsFound, place_of, Seen};

use crate::entries::{Level, Mode};
use std::alloc::{AllocError, Global};
use sync_ids::{GroupId, MessageId};

/// What a session may ask of a store, seen as the facts of one journal and the ids of the held
/// messages whose judgement lets them be sent on. A held message is named by its arrival number,
/// from 0. A list has at most its first 1,536 ids; what makes one takes the allocator, and fails
/// only for want of memory. A view holds fewer than 2^32 messages, and has fewer than 2^32 ids
/// wanted from each contact.
pub trait View {
    ghost seen: { Self → Seen };

    /// The group's level for the contact (BSP, "Group visibility"), Invisible where the contact or
    /// the group is not known. So a group that is not Invisible is known, and a message of it is
    /// welcome from the contact.
    fn level(&self, contact: u8, group: &GroupId) -> Level
        ensures level { result ≡ level_at (seen self.now).facts.levels contact group.now }
        ensures welcome { is_welcome (seen self.now).facts contact group.now ≡ not
            (is_invisible result) };

    /// The arrival number of the message of this id. `None` comes exactly where the id is not held.
    fn find(&self, id: &MessageId) -> Option<u32>
        ensures place { result ≡ place_of (seen self.now).facts.held id.now }
        ensures found { IsFound (seen self.now).facts.held id.now result };

    /// The group of the held message of this arrival number.
    fn group_at(&self, n: u32) -> GroupId
        requires { n < length (seen self.now).facts.held }
        ensures { result ≡ group_in (slice_get (seen self.now).facts.held n) };

    /// Whether the id is wanted from the contact: it was offered, and is neither held nor requested
    /// since.
    fn is_wanted(&self, contact: u8, id: &MessageId) -> bool
        ensures { result ≡ is_among (wanted_from (seen self.now).facts.wanted contact) id.now };

    /// How many ids are wanted from the contact.
    fn wanted_count(&self, contact: u8) -> u32
        ensures { result ≡ length (wanted_from (seen self.now).facts.wanted contact) };

    /// Whether the contact has the held message of this arrival number.
    fn is_seen(&self, contact: u8, n: u32) -> bool
        requires { n < length (seen self.now).facts.held }
        ensures { result ≡ is_seen_in (seen self.now).facts contact
            (slice_get (seen self.now).facts.held n) };

    /// The ids that wait for an acknowledgement to the contact, in order of arrival.
    fn owed(&self, alloc: Global, contact: u8) -> Result<Vec<MessageId>, AllocError>
        ensures { IfOk result (λ ids. ids.items ≡ owed_to (seen self.now).facts contact) };

    /// The ids wanted from the contact, in the order of their offers.
    fn wanted(&self, alloc: Global, contact: u8) -> Result<Vec<MessageId>, AllocError>
        ensures { IfOk result (λ ids. ids.items ≡ wanted_of (seen self.now).facts contact) };

    /// The first message, in order of arrival, that is to be sent to the contact at this time in
    /// milliseconds: one that may be sent to it and is, in interactive mode, asked for by it, or in
    /// batch mode has no wait left. `None` comes exactly where there is none.
    fn next_send(&self, contact: u8, mode: Mode, now: u64) -> Option<MessageId>
        ensures { result ≡ send_of (seen self.now).facts (seen self.now).shared contact mode now };

    /// The ids to offer to the contact at this time in milliseconds, in order of arrival.
    fn offers(&self, alloc: Global, contact: u8, now: u64) -> Result<Vec<MessageId>, AllocError>
        ensures { IfOk result (λ ids. ids.items ≡ offers_of (seen self.now).facts
            (seen self.now).shared contact now) };

    /// The first message, in order of arrival, that is to be sent to the contact before its time on
    /// a session of this latency in milliseconds: one that may be sent to it, is not asked for by
    /// it, and of which a try now would set an expiry less than the one that stands. `None` comes
    /// exactly where there is none.
    fn next_sooner(&self, contact: u8, latency: u32, now: u64) -> Option<MessageId>
        ensures { result ≡ sooner_of (seen self.now).facts (seen self.now).shared contact latency
            now };

    /// The ids to offer to the contact before their time on a session of this latency, in order of
    /// arrival.
    fn sooner_offers(
        &self,
        alloc: Global,
        contact: u8,
        latency: u32,
        now: u64,
    ) -> Result<Vec<MessageId>, AllocError>
        ensures { IfOk result (λ ids. ids.items ≡ sooner_offers_of (seen self.now).facts
            (seen self.now).shared contact latency now) };
}
