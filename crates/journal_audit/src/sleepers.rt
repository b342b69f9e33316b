//! The messages that sleep under the ids of their dependencies.
ghost use Rattle.std.specs.Prelude.{◌≡◌, ◌&&◌, ◌||◌, ℕ, List, nat_eq, OnOk};
ghost use Rattle.sync_rules.specs.Facts.{Id};
ghost use Rattle.sync_rules.specs.Lists.{same_id};
ghost use Rattle.journal_audit.specs.Numbers.{has};
ghost use Rattle.journal_audit.specs.Sleeping.{is_in, is_under};

use std::alloc::{AllocError, Global};
use std::collections::BTreeMap;
use std::marker::Model;
use sync_ids::MessageId;

/// The arrival numbers of the messages that sleep under one id. Contracts see the list.
#[derive(Drop)]
struct Bed {
    numbers: Vec<u32>,
}

impl Model for Bed {
    ghost use Rattle.std.specs.Prelude.{List, ℕ};

    ghost Value = { List ℕ };

    ghost view = { λ b. b.numbers.items };
}

// The bed that was found, or one where nobody sleeps.
fn bed_or(alloc: Global, found: Option<Bed>) -> Bed
    ensures { (n : ℕ) → has result n ≡ is_in found n }
{
    match found {
        Some(bed) => bed,
        None => Bed {
            numbers: Vec::new(alloc),
        },
    }
}

/// The messages that sleep, by the ids of their dependencies, held or not. Contracts see a list of the
/// ids, each with the arrival numbers of those who sleep under it.
#[derive(Drop)]
pub(crate) struct Sleepers {
    beds: BTreeMap<MessageId, Bed>,
}

impl Model for Sleepers {
    ghost use Rattle.journal_audit.specs.Sleeping.{SleeperLists};

    ghost Value = { SleeperLists };

    ghost view = { λ s. s.beds.entries };
}

impl Sleepers {
    /// Nobody sleeps.
    pub(crate) fn new(alloc: Global) -> Sleepers {
        Sleepers {
            beds: BTreeMap::new(alloc),
        }
    }

    /// Those who sleep under an id.
    pub(crate) fn under(&self, id: &MessageId) -> &[u32]
        ensures { (n : ℕ) → has result.now n ≡ is_under self.now id.now n }
    {
        match self.beds.get(id) {
            Some(bed) => bed.numbers.as_slice(),
            None => &[],
        }
    }

    /// A message comes to sleep under an id. After want of memory nothing is said of the sleepers.
    pub(crate) fn add(
        &mut self,
        alloc: Global,
        id: MessageId,
        number: u32,
    ) -> Result<(), AllocError>
        ensures { OnOk result ((i : Id) (n : ℕ) → is_under self.new i n ≡ (same_id id i && nat_eq number
            n || is_under self.old i n)) }
    {
        let found = self.beds.remove(&id);
        let mut bed = bed_or(alloc, found);
        bed.numbers.push(number)?;
        self.beds.insert(id, bed)?;
        Ok(())
    }
}
