//! Whether the messages that entries name as held have names.
ghost use Rattle.std.specs.Prelude.{◌≡◌, ◌^◌, ◌-◌, true};
ghost use Rattle.std.specs.List.{AllByRecursion};
ghost use Rattle.sync_rules.specs.Lists.{is_among};
ghost use Rattle.entry_codec.specs.Naming.{IsNamed};
ghost use Rattle.entry_codec.specs.Spelling.{EntryNames, OutNames};
ghost use Rattle.entry_codec.specs.declared.naming.Format.TheVariants as kind;
ghost use Rattle.journal_migration.specs.Copying.{brought_by, counted_to, one_brought};

use entry_codec::Names;
use sync_ids::MessageId;
use sync_rules::{Entry, Out};

// Whether each message that the entries name as held has a name.
pub(crate) fn are_named<N: Names>(names: &N, entries: &[Entry]) -> bool
    ensures { result ≡ true
        → AllByRecursion (EntryNames (IsNamed kind.Short (N.named names.now))) entries.now }
{
    'entries: for entry in entries {
        if !is_named(names, entry) {
            return false;
        }
    }
    true
}

fn is_named<N: Names>(names: &N, entry: &Entry) -> bool
    ensures { result ≡ true → EntryNames (IsNamed kind.Short (N.named names.now)) entry.now }
{
    match entry {
        Entry::Judged(id) => names.number(id).is_some(),
        Entry::Deliver(id) => names.number(id).is_some(),
        Entry::Invalid(id) => names.number(id).is_some(),
        Entry::Again(_, id) => names.number(id).is_some(),
        Entry::Seen(_, id) => names.number(id).is_some(),
        Entry::Asked(_, id) => names.number(id).is_some(),
        Entry::Out(_, _, what) => is_output_named(names, what),
        Entry::Tried(tried) => names.number(&tried.id).is_some(),
        Entry::Contact(_) | Entry::Group(_) | Entry::Level(_, _, _) | Entry::Session(_) => true,
        Entry::Take(_, _) | Entry::Author(_) | Entry::Arrive(_, _) | Entry::Offered(_, _) => true,
        Entry::Brief(_) | Entry::Kept(_, _) | Entry::Want(_, _) => true,
    }
}

fn is_output_named<N: Names>(names: &N, what: &Out) -> bool
    ensures { result ≡ true → OutNames (IsNamed kind.Short (N.named names.now)) what.now }
{
    match what {
        Out::Acks(ids) => have_names(names, ids.as_slice()),
        Out::Offers(ids) => have_names(names, ids.as_slice()),
        Out::Requests(_) => true,
        Out::Send(id) => names.number(id).is_some(),
    }
}

fn have_names<N: Names>(names: &N, ids: &[MessageId]) -> bool
    ensures { result ≡ true → AllByRecursion (IsNamed kind.Short (N.named names.now)) ids.now }
{
    'ids: for id in ids {
        if names.number(id).is_none() {
            return false;
        }
    }
    true
}

// How many messages entries bring; the number stands still at 2^32 - 1.
#[tactic(auto, using(crate::proofs::Brought::brought_push))]
pub(crate) fn count_brought(entries: &[Entry]) -> u32
    ensures { result ≡ counted_to (brought_by entries.now) }
{
    let mut count = 0u32;
    'entries: for entry in entries {
        count = count.saturating_add(one_brought(entry));
    }
    count
}

fn one_brought(entry: &Entry) -> u32
    ensures { result ≡ one_brought entry.now }
{
    match entry {
        Entry::Author(_) => 1,
        Entry::Arrive(_, _) => 1,
        Entry::Kept(_, _) => 1,
        _ => 0,
    }
}
