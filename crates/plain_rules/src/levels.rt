//! Whether each group that is not Invisible to some contact is known.
ghost use Rattle.plain_rules.specs.KnownLevels.{all_entries, knows_level};
ghost use Rattle.std.specs.List.{list_all};
ghost use Rattle.std.specs.Prelude.{◌≡◌, ◌↔◌, is_some, ◌||◌, true};
ghost use Rattle.sync_rules.specs.Facts.{facts, group_at, is_invisible, level_at};
ghost use Rattle.sync_rules.specs.Views.{KnowsShown};

use sync_ids::GroupId;
use sync_rules::lookups::group_in;
use sync_rules::{Batch, Entry, Level, level_in};

// Whether the group of a Level entry is known, or Invisible to the contact at the end.
fn is_level_known(j: &[Batch], entry: &Entry) -> bool
    ensures { result ≡ knows_level (facts j.now) entry.now }
{
    match entry {
        Entry::Level(contact, group, _) => is_shown_known(j, *contact, group),
        _ => true,
    }
}

fn is_shown_known(j: &[Batch], contact: u8, group: &GroupId) -> bool
    ensures { result ≡ (is_invisible (level_at (facts j.now).levels contact group.now) || is_some
        (group_at (facts j.now).groups group.now)) }
{
    match level_in(j, contact, group) {
        Level::Invisible => true,
        _ => group_in(j, group).is_some(),
    }
}

fn are_levels_known(j: &[Batch], entries: &[Entry]) -> bool
    ensures { result ≡ list_all (knows_level (facts j.now)) entries.now }
{
    entries.iter().all(|entry| is_level_known(j, entry))
}

// Whether each group that is not Invisible to some contact is known.
pub(crate) fn knows_levels(j: &[Batch]) -> bool
    ensures { (result ≡ true) ↔ KnowsShown (facts j.now) }
{
    are_all_known(j)
}

fn are_all_known(j: &[Batch]) -> bool
    ensures { result ≡ all_entries (knows_level (facts j.now)) j.now }
{
    for batch in j {
        if !are_levels_known(j, batch.entries()) {
            return false;
        }
    }
    true
}
