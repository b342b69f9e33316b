//! The levels that follow from what two people said.
ghost use Rattle.std.specs.Prelude.{◌≡◌, IfOk};
ghost use Rattle.sync_ids.specs.Values.{GroupValue};
ghost use Rattle.client_sharing.specs.Targets.{level_for, targets_of};
ghost use Rattle.client_sharing.specs.Stances.{def_of_parts, last_words, spoken, words_at};

use std::alloc::{AllocError, Global};
use std::collections::BTreeMap;
use sync_ids::GroupDef;
use sync_rules::Level;

/// What one of two people said of a group.
#[derive(Debug, Drop)]
pub struct Said {
    /// Whether it was said here, or by the contact.
    pub own: bool,
    /// Whether its author joins the group, or leaves it.
    pub join: bool,
    /// The definition of the group.
    pub def: GroupDef,
}

/// The level of a group that follows from what both said.
#[derive(Debug, Drop)]
pub struct Target {
    /// The definition of the group.
    pub def: GroupDef,
    /// Its level for the contact.
    pub level: Level,
}

// A definition by its name, its version and its descriptor, as they are ordered.
type Parts<'a> = ((&'a str, u32), &'a [u8]);

// The last words on a definition: whether each side joins, and no where it said nothing of it.
#[derive(Clone, Copy)]
pub(crate) struct Stances {
    own: bool,
    other: bool,
}

// The parts of a definition.
fn parts_of(def: &GroupDef) -> Parts<'_>
    ensures { def_of_parts result ≡ def.now }
{
    ((def.name(), def.major()), def.descriptor())
}

// The stances behind one more word.
fn spoken(before: Option<Stances>, own: bool, join: bool) -> Stances
    ensures { result ≡ spoken before own join }
{
    let before = before.unwrap_or(Stances {
        own: false,
        other: false,
    });
    if own {
        Stances {
            own: join,
            ..before
        }
    } else {
        Stances {
            other: join,
            ..before
        }
    }
}

// The last words of both sides on each definition that is spoken of. It fails only for want of
// memory.
fn last_words<'a>(
    alloc: Global,
    said: &'a [Said],
) -> Result<BTreeMap<Parts<'a>, Stances>, AllocError>
    ensures { IfOk result (λ words. (def : GroupValue) → words_at words.entries def
        ≡ last_words said.now def) }
{
    let mut words = BTreeMap::new(alloc);
    'said: for word in said {
        let parts = parts_of(&word.def);
        let stances = spoken(words.get(&parts).copied(), word.own, word.join);
        words.insert(parts, stances)?;
    }
    Ok(words)
}

// The level of a group for the contact.
fn level_for(own: bool, other: bool) -> Level
    ensures { result ≡ level_for own other }
{
    match (own, other) {
        (true, true) => Level::Shared,
        (true, false) => Level::Visible,
        (false, _) => Level::Invisible,
    }
}

/// The level of each definition that is spoken of, in the order of their first naming: Shared where
/// the last words of both sides on it are to join, Visible where only the own side's is, and else
/// Invisible. It goes over the words twice, with a look-up for each. It fails only for want of
/// memory.
pub fn targets(alloc: Global, said: &[Said]) -> Result<Vec<Target>, AllocError>
    ensures { IfOk result (λ targets. targets.items ≡ targets_of said.now) }
{
    let mut words = last_words(alloc, said)?;
    let mut targets = Vec::new(alloc);
    'said: for i in 0..said.len() {
        let def = &said[i].def;
        if let Some(stances) = words.remove(&parts_of(def)) {
            targets.push(Target {
                def: def.copy(alloc)?,
                level: level_for(stances.own, stances.other),
            })?;
        }
    }
    Ok(targets)
}
