//! The groups of a journal.
ghost use Rattle.std.specs.Prelude.{◌≡◌, ◌∷◌, ◌++◌, [], is_some, length, OnOk};
ghost use Rattle.std.specs.Option.{option_copied};
ghost use Rattle.sync_rules.specs.Facts.{group_at, known_of};
ghost use Rattle.sync_rules.specs.Scans.{def_at};

use std::alloc::{AllocError, Global};
use std::marker::Model;
use sync_ids::{GroupDef, GroupId, group_id};

/// A group, and its id.
#[derive(Drop)]
struct Group {
    def: GroupDef,
    id: GroupId,
}

impl Model for Group {
    ghost use Rattle.sync_rules.specs.Codes.{known_code};
    ghost use Rattle.sync_rules.specs.Facts.{Known};

    ghost Value = { Known };

    ghost coded = { known_code };

    ghost view = { λ g. record { def = g.def; id = g.id } };
}

/// The groups in the order in which they were added, fewer than 2^32. Contracts see the list.
#[derive(Drop)]
pub(crate) struct Groups {
    groups: Vec<Group>,
}

/// The greatest number of groups that is counted.
const MOST: usize = 0xffff_ffff;

impl Model for Groups {
    ghost use Rattle.std.specs.Prelude.{◌<◌, ◌^◌, List, length};
    ghost use Rattle.sync_rules.specs.Codes.{known_code};
    ghost use Rattle.std.specs.Coded.{coded_list};
    ghost use Rattle.sync_rules.specs.Facts.{Known};

    ghost Value = { List Known };

    ghost coded = { coded_list known_code };

    ghost view = { λ g. g.groups.items };

    ghost invariant = { λ g. length g.groups.items < 2 ^ 32 };
}

impl Groups {
    /// No groups.
    pub(crate) fn new(alloc: Global) -> Groups
        ensures { result ≡ [] }
    {
        Groups {
            groups: Vec::new(alloc),
        }
    }

    /// Adds a group. As want of memory counts that there are 2^32 - 1 groups.
    pub(crate) fn add(&mut self, def: GroupDef) -> Result<(), AllocError>
        ensures { OnOk result (self.new ≡ self.old ++ known_of def ∷ []) }
    {
        if self.groups.len() >= MOST {
            return Err(AllocError);
        }
        let id = group_id(&def);
        self.groups.push(Group { def, id })?;
        Ok(())
    }

    /// The number of groups.
    pub(crate) fn len(&self) -> u32
        ensures { result ≡ length self.now }
    {
        self.groups.len() as u32
    }

    /// Whether a group of this id is known.
    pub(crate) fn knows(&self, id: &GroupId) -> bool
        ensures { result ≡ is_some (group_at self.now id.now) }
    {
        self.def(id).is_some()
    }

    /// The definition of the first group of this id.
    pub(crate) fn def(&self, id: &GroupId) -> Option<&GroupDef>
        ensures { option_copied result ≡ def_at (group_at self.now id.now) }
    {
        find_def(self.groups.as_slice(), id)
    }
}

fn find_def<'a>(groups: &'a [Group], id: &GroupId) -> Option<&'a GroupDef>
    ensures { option_copied result ≡ def_at (group_at groups.now id.now) }
{
    for group in groups {
        if group.id == *id {
            return Some(&group.def);
        }
    }
    None
}
