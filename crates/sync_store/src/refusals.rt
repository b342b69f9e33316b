//! What may be added to a store.
ghost use Rattle.std.specs.Prelude.{◌≡◌, ◌<◌, IfOk, length};
ghost use Rattle.sync_rules.specs.Steps.{verdict_in};
ghost use Rattle.sync_store.specs.Refusals.{IsPost, contact_answer, group_answer, level_answer};
ghost use Rattle.sync_store.specs.Refusals.{post_answer};

use crate::PostFault;
use crate::store::Store;
use std::alloc::AllocError;
use sync_ids::{GroupDef, GroupId, Message, MessageId, group_id};
use sync_rules::{Clients, Judgement, MAX_CONTACTS, MAX_GROUPS, Refused, View, id_of};

impl Store {
    /// The number that a further contact gets. `TooManyContacts` comes exactly where `MAX_CONTACTS`
    /// are known.
    pub fn may_contact(&self) -> Result<u8, Refused>
        ensures { result ≡ contact_answer self.now.state.facts }
    {
        let contacts = self.contacts();
        if (contacts as usize) < MAX_CONTACTS {
            Ok(contacts as u8)
        } else {
            Err(Refused::TooManyContacts)
        }
    }

    /// The id of a further group. In this order, each exactly: `UnknownClient`, `GroupExists`,
    /// `TooManyGroups` where `MAX_GROUPS` are known.
    pub fn may_group<C: Clients>(&self, clients: &C, def: &GroupDef) -> Result<GroupId, Refused>
        ensures { result ≡ group_answer (C.meaning clients.now) self.now.state.facts def.now }
    {
        if clients.kind_of(def.name(), def.major()).is_none() {
            return Err(Refused::UnknownClient);
        }
        let id = group_id(def);
        if self.state.knows_group(&id) {
            return Err(Refused::GroupExists);
        }
        if (self.state.groups() as usize) < MAX_GROUPS {
            Ok(id)
        } else {
            Err(Refused::TooManyGroups)
        }
    }

    /// Whether the level of a group may be set for a contact. In this order, each exactly:
    /// `UnknownContact`, `UnknownGroup`.
    pub fn may_level(&self, contact: u8, group: &GroupId) -> Result<(), Refused>
        ensures { result ≡ level_answer self.now.state.facts contact group.now }
    {
        if u32::from(contact) >= self.state.contacts() {
            return Err(Refused::UnknownContact);
        }
        if self.state.knows_group(group) {
            Ok(())
        } else {
            Err(Refused::UnknownGroup)
        }
    }

    /// The id of a message that may be written here. In this order, each exactly but for want of
    /// memory: `UnknownGroup`, `AlreadyHeld`, `InvalidPost` where its client refuses it,
    /// `DependencyNotDelivered` where a dependency is no delivered message of the same group.
    pub fn may_post<C: Clients>(
        &self,
        clients: &C,
        message: &Message,
    ) -> Result<MessageId, PostFault>
        ensures { IsPost (post_answer (C.meaning clients.now) self.now.state.facts message.now)
            result }
    {
        let group = message.group();
        if !self.state.knows_group(&group) {
            return Err(PostFault::Refused(Refused::UnknownGroup));
        }
        let id = id_of(message);
        if self.state.find(&id).is_some() {
            return Err(PostFault::Refused(Refused::AlreadyHeld));
        }
        match self.judgement_of(clients, message)? {
            Judgement::Refuse => Err(PostFault::Refused(Refused::InvalidPost)),
            Judgement::Accept { deps, .. } => {
                if self.state.serves_all(&group, deps.as_slice()) {
                    Ok(id)
                } else {
                    Err(PostFault::Refused(Refused::DependencyNotDelivered))
                }
            }
        }
    }

    // What its client says of a message; Refuse where its group or its client is not known.
    fn judgement_of<C: Clients>(
        &self,
        clients: &C,
        message: &Message,
    ) -> Result<Judgement, AllocError>
        ensures { IfOk result (λ answer. answer ≡ verdict_in (C.meaning clients.now)
            self.now.state.facts.groups message.now) }
    {
        let Some(number) = self.state.group(&message.group()) else {
            return Ok(Judgement::Refuse);
        };
        let def = self.state.group_def(number);
        match clients.kind_of(def.name(), def.major()) {
            Some(kind) => clients.judge(self.alloc, kind, message),
            None => Ok(Judgement::Refuse),
        }
    }
}
