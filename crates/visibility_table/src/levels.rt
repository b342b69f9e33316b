//! `Levels`.
ghost use Rattle.std.specs.Prelude.{◌≡◌, ◌-◌, ◌^◌, ◌<◌, ◌++◌, ◌∷◌, [], max, length, IfOk, OnOk};
ghost use Rattle.std.specs.Prelude.{OnErr, MatchOption, IfSome, None, Some, false, slice_get};
ghost use Rattle.std.specs.Option.{option_map};
ghost use Rattle.sync_ids.specs.Ids.{group_id_of};
ghost use Rattle.sync_rules.specs.Consistency.{ids_of_groups};
ghost use Rattle.sync_rules.specs.Lists.{has_repeat};
ghost use Rattle.sync_rules.specs.Facts.{group_at, known_of, level_at, put_level};
ghost use Rattle.visibility_table.specs.Table.{after_entry, CanApply, empty_table, group_number};

use indexmap::IndexMap;
use same_bytes::same_bytes;
use std::alloc::{AllocError, Global};
use std::marker::Model;
use sync_ids::{GroupDef, GroupId, group_id};
use sync_rules::{Entry, Level};

/// The contacts and groups of a journal, and the level of each group for each contact (BSP, "Group
/// visibility"). Contacts are numbered from 0, and groups in the order in which they were added.
/// Contracts see the number of contacts, the groups, the levels that are not Invisible, and for how
/// many more groups and levels there is room.
#[derive(Drop)]
pub struct Levels {
    contacts: u32,
    groups: IndexMap<GroupId, GroupDef>,
    levels: IndexMap<(u8, GroupId), Level>,
    room: usize,
    recent: u32,
}

impl Model for Levels {
    ghost use Rattle.visibility_table.specs.Table.{TableOfLevels, table_code, known};

    ghost Value = { TableOfLevels };

    ghost coded = { table_code };

    ghost use Rattle.std.specs.Prelude.{◌<◌, ◌^◌, ◌≤◌, length, map};
    ghost use Rattle.std.specs.FinMap as fin_map;
    ghost use Rattle.sync_rules.specs.Facts.{pair_cmp};
    ghost use Rattle.indexmap.specs.IndexMap.{spare};

    ghost view = { λ t. record {
      contacts = t.contacts;
      groups = map known t.groups.entries;
      levels = fin_map.from_entries {R = pair_cmp} t.levels.entries;
      spare = t.room;
    } };

    ghost invariant = { λ t. (length t.groups.entries < 2 ^ 32) × (t.room ≤ spare t.groups)
        × (t.room ≤ spare t.levels) };
}

impl Levels {
    /// No contacts and no groups, and no room. Answers an error only where there is no memory.
    pub fn new(alloc: Global) -> Result<Levels, AllocError>
        ensures { IfOk result (λ t. t ≡ empty_table) }
    {
        Ok(Levels {
            contacts: 0,
            groups: IndexMap::new(alloc),
            levels: IndexMap::new(alloc),
            room: 0,
            recent: 0,
        })
    }

    /// A table that has copies of the groups and nothing else. Answers an error only where there is
    /// no memory.
    pub fn groups_alone(&self, alloc: Global) -> Result<Levels, AllocError>
        ensures { IfOk result (λ t. t ≡ record empty_table { groups = self.now.groups }) }
    {
        self.show_distinct();
        let mut table = Levels::new(alloc)?;
        for n in 0..self.groups() {
            table.put_group(self.id(n), self.def(n).copy(alloc)?)?;
        }
        Ok(table)
    }

    /// Adds a group under an id that is new, where there is no room for entries.
    fn put_group(&mut self, id: GroupId, def: GroupDef) -> Result<(), AllocError>
        requires new { group_at self.old.groups id ≡ None }
        requires bare { self.old.spare ≡ 0 }
        requires few { length self.old.groups < 2 ^ 32 - 1 }
        ensures { OnOk result (self.new ≡ record self.old {
          groups = self.old.groups ++ record { def = def; id = id } ∷ [];
        }) }
    {
        self.groups.insert(id, def)?;
        Ok(())
    }

    /// Makes room for that many more groups and levels; it never takes room away. After an error
    /// all is as before.
    pub fn reserve(&mut self, entries: usize) -> Result<(), AllocError>
        ensures ok { OnOk result
            (self.new ≡ record self.old { spare = max self.old.spare entries }) }
        ensures err { OnErr result (self.new ≡ self.old) }
    {
        self.groups.reserve(entries)?;
        self.levels.reserve(entries)?;
        self.room = self.room.max(entries);
        Ok(())
    }

    /// Takes an entry of the journal: one more contact, or a level, for which it takes room for
    /// one. Other entries change nothing. It takes no memory.
    pub fn apply(&mut self, entry: &Entry)
        requires { CanApply self.old entry.now }
        ensures { self.new ≡ after_entry self.old entry.now }
    {
        match entry {
            Entry::Contact(_) => self.contacts += 1,
            Entry::Level(contact, group, level) => self.set(*contact, *group, *level),
            _ => {}
        }
    }

    /// Adds a group whose id is new, for which it takes room for one. It takes no memory.
    pub fn add_group(&mut self, def: GroupDef)
        requires new { group_at self.old.groups (group_id_of def) ≡ None }
        requires room { 0 < self.old.spare }
        requires few { length self.old.groups < 2 ^ 32 - 1 }
        ensures { self.new ≡ record self.old {
          groups = self.old.groups ++ known_of def ∷ [];
          spare
              = self.old.spare - 1;
        } }
    {
        let id = group_id(&def);
        self.groups.insert(id, def).unwrap();
        self.room -= 1;
    }

    /// The group's level for the contact: what was last set, else Invisible, also for unknown ones.
    pub fn level(&self, contact: u8, group: &GroupId) -> Level
        ensures { result ≡ level_at self.now.levels contact group.now }
    {
        match self.levels.get(&(contact, *group)) {
            Some(level) => *level,
            None => Level::Invisible,
        }
    }

    /// The number of contacts.
    pub fn contacts(&self) -> u32
        ensures { result ≡ self.now.contacts }
    {
        self.contacts
    }

    /// The number of groups.
    pub fn groups(&self) -> u32
        ensures { result ≡ length self.now.groups }
    {
        self.groups.len() as u32
    }

    /// Shows the prover that no two groups have one id. It does nothing.
    pub fn show_distinct(&self)
        ensures { has_repeat (ids_of_groups self.now.groups) ≡ false }
    {
        let _groups = self.groups.len();
    }

    /// The number of the group of this id. `None` comes exactly where no group has it.
    pub fn group(&self, id: &GroupId) -> Option<u32>
        ensures number { result ≡ group_number self.now.groups id.now }
        ensures within { IfSome result (λ n. n < length self.now.groups) }
        ensures found { MatchOption result (group_at self.now.groups id.now ≡ None)
            (λ n. slice_get self.now.groups n ≡ group_at self.now.groups id.now) }
    {
        match self.recent_group(id) {
            Some(number) => Some(number),
            None => self.sought_group(id),
        }
    }

    /// The same, by the hash of the id.
    fn sought_group(&self, id: &GroupId) -> Option<u32>
        ensures number { result ≡ group_number self.now.groups id.now }
        ensures within { IfSome result (λ n. n < length self.now.groups) }
        ensures found { MatchOption result (group_at self.now.groups id.now ≡ None)
            (λ n. slice_get self.now.groups n ≡ group_at self.now.groups id.now) }
    {
        let number = self.groups.get_index_of(id)?;
        Some(number as u32)
    }

    /// The number of the group that was found last by `find_group`, if its id is this one.
    fn recent_group(&self, id: &GroupId) -> Option<u32>
        ensures number { IfSome result (λ n. Some n ≡ group_number self.now.groups id.now) }
        ensures within { IfSome result (λ n. n < length self.now.groups) }
        ensures found { IfSome result
            (λ n. slice_get self.now.groups n ≡ group_at self.now.groups id.now) }
    {
        self.show_distinct();
        let (known, _) = self.groups.get_index(self.recent as usize)?;
        if same_bytes(known.as_bytes(), id.as_bytes()) {
            Some(self.recent)
        } else {
            None
        }
    }

    /// The number of the group of this id, as `group` gives it. Where the same is asked for next, it
    /// is found by a comparison.
    pub fn find_group(&mut self, id: &GroupId) -> Option<u32>
        ensures same { self.new ≡ self.old }
        ensures number { result ≡ group_number self.old.groups id.now }
        ensures within { IfSome result (λ n. n < length self.old.groups) }
        ensures found { MatchOption result (group_at self.old.groups id.now ≡ None)
            (λ n. slice_get self.old.groups n ≡ group_at self.old.groups id.now) }
    {
        let number = self.group(id)?;
        self.recent = number;
        Some(number)
    }

    /// The definition of the group of this number, which is below the number of groups.
    pub fn def(&self, n: u32) -> &GroupDef
        requires { n < length self.now.groups }
        ensures { option_map (λ g. g.def) (slice_get self.now.groups n) ≡ Some result.now }
    {
        let (_, def) = self.groups.get_index(n as usize).unwrap();
        def
    }

    /// The id of the group of this number, which is below the number of groups.
    pub fn id(&self, n: u32) -> GroupId
        requires { n < length self.now.groups }
        ensures { option_map (λ g. g.id) (slice_get self.now.groups n) ≡ Some result }
    {
        let (id, _) = self.groups.get_index(n as usize).unwrap();
        *id
    }

    /// Sets a level; what is Invisible is not kept.
    fn set(&mut self, contact: u8, group: GroupId, level: Level)
        requires { 0 < self.old.spare }
        ensures { self.new ≡ record self.old {
          levels = put_level self.old.levels (contact, group)
              level;
          spare = self.old.spare - 1;
        } }
    {
        self.room -= 1;
        match level {
            Level::Invisible => {
                self.levels.swap_remove(&(contact, group));
            }
            Level::Visible | Level::Shared => {
                self.levels.insert((contact, group), level).unwrap();
            }
        }
    }
}
