//! Look-ups of groups and of what is served.
ghost use Rattle.std.specs.Prelude.{◌≡◌, ◌<◌, length, IfSome, MatchOption, None, Some, is_some};
ghost use Rattle.std.specs.Prelude.{slice_get};
ghost use Rattle.std.specs.List.{list_all};
ghost use Rattle.sync_rules.specs.Facts.{group_at};
ghost use Rattle.sync_rules.specs.Lists.{is_among};
ghost use Rattle.sync_rules.specs.Steps.{is_served};
ghost use Rattle.sync_rules.specs.Views.{place_of};
ghost use Rattle.visibility_table.specs.Table.{group_number};

use crate::state::State;
use message_graph::Fate;
use sync_ids::{GroupId, MessageId};
use sync_rules::View;

impl State {
    /// The number of the group of this id. `None` comes exactly where no group has it.
    pub fn group(&self, id: &GroupId) -> Option<u32>
        ensures number { result ≡ group_number self.now.facts.groups id.now }
        ensures within { IfSome result (λ n. n < length self.now.facts.groups) }
        ensures found { MatchOption result (group_at self.now.facts.groups id.now ≡ None)
            (λ n. slice_get self.now.facts.groups n ≡ group_at self.now.facts.groups id.now) }
    {
        self.table.group(id)
    }

    /// Whether a group of this id is known.
    pub fn knows_group(&self, id: &GroupId) -> bool
        ensures { result ≡ is_some (group_at self.now.facts.groups id.now) }
    {
        self.table.group(id).is_some()
    }

    /// Whether the message of this id, which is held under this number, is delivered.
    fn is_delivered(&self, id: &MessageId, n: u32) -> bool
        requires { place_of self.now.facts.held id.now ≡ Some n }
        ensures { result ≡ is_among self.now.facts.delivered id.now }
    {
        match self.graph.fate(n) {
            Fate::Delivered => true,
            Fate::Unknown | Fate::Pending | Fate::Invalid => false,
        }
    }

    /// Whether a dependency of a message of this group is served: it is held in the same group, and
    /// delivered.
    pub fn is_served(&self, group: &GroupId, id: &MessageId) -> bool
        ensures { result ≡ is_served self.now.facts group.now id.now }
    {
        let Some(number) = self.find(id) else {
            return false;
        };
        self.group_at(number) == *group && self.is_delivered(id, number)
    }

    /// Whether each of these dependencies of a message of this group is served.
    pub fn serves_all(&self, group: &GroupId, ids: &[MessageId]) -> bool
        ensures { result ≡ list_all (is_served self.now.facts group.now) ids.now }
    {
        for id in ids {
            if !self.is_served(group, id) {
                return false;
            }
        }
        true
    }
}
