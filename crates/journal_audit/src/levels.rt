//! The levels of groups for contacts.
ghost use Rattle.std.specs.Prelude.{◌≡◌, OnOk};
ghost use Rattle.std.specs.FinMap as fin_map;
ghost use Rattle.sync_rules.specs.Facts.{level_at, put_level};

use std::alloc::{AllocError, Global};
use std::collections::BTreeMap;
use std::marker::Model;
use sync_ids::GroupId;
use sync_rules::Level;

/// The level of each group for each contact (BSP, "Group visibility"). Contracts see a map of the
/// levels that are not Invisible.
#[derive(Drop)]
pub(crate) struct Levels {
    levels: BTreeMap<(u8, GroupId), Level>,
}

impl Model for Levels {
    ghost use Rattle.std.specs.FinMap as fin_map;
    ghost use Rattle.sync_rules.specs.Codes.{levels_code};
    ghost use Rattle.sync_rules.specs.Facts.{LevelMap, pair_cmp};

    ghost Value = { LevelMap };

    ghost coded = { levels_code };

    ghost view = { λ l. fin_map.from_entries {R = pair_cmp} l.levels.entries };
}

impl Levels {
    /// Every group is Invisible to every contact.
    pub(crate) fn new(alloc: Global) -> Levels
        ensures { result ≡ fin_map.empty }
    {
        Levels {
            levels: BTreeMap::new(alloc),
        }
    }

    /// The group's level for the contact.
    pub(crate) fn level(&self, contact: u8, group: &GroupId) -> Level
        ensures { result ≡ level_at self.now contact group.now }
    {
        match self.levels.get(&(contact, *group)) {
            Some(level) => *level,
            None => Level::Invisible,
        }
    }

    /// Sets a level; what is Invisible is not kept.
    pub(crate) fn set(
        &mut self,
        contact: u8,
        group: GroupId,
        level: Level,
    ) -> Result<(), AllocError>
        ensures { OnOk result (self.new ≡ put_level self.old (contact, group) level) }
    {
        match level {
            Level::Invisible => {
                self.levels.remove(&(contact, group));
            }
            Level::Visible | Level::Shared => {
                self.levels.insert((contact, group), level)?;
            }
        }
        Ok(())
    }
}
