//! How long the spelling of an entry is.
ghost use Rattle.std.specs.Prelude.{◌≡◌, ◌+◌, ◌*◌, ◌≤◌, List, [], length, ℕ};
ghost use Rattle.std.specs.List.{flat_map};
ghost use Rattle.entry_codec.specs.Spelling.{def_bytes, ids_bytes, message_bytes, out_bytes};
ghost use Rattle.entry_codec.specs.Spelling.{session_bytes, spelling, tried_bytes, whole};
ghost use Rattle.entry_codec.specs.Spelling.{EntryNames, IsId, IsOld, OutNames, named_count};
ghost use Rattle.entry_codec.specs.Spelling.{out_count};
ghost use Rattle.entry_codec.specs.Spelling.{spelling_in};
ghost use Rattle.entry_codec.specs.Standing.{step_bytes};
ghost use Rattle.entry_codec.specs.declared.naming.Format.TheVariants as format_kind;
ghost use Rattle.sync_rules.specs.declared.entries.Entry.TheVariants as entry_kind;
ghost use Rattle.sync_rules.specs.declared.states.Origin.{Origin};

use crate::naming::{Format, show_whole};
use sync_ids::{GroupDef, IdList, MAX_IDS, Message, MessageId};
use sync_rules::{Entry, Out, Session, Tried};

/// The length of the longest spelling of an entry, in bytes.
pub const MAX_SPELLING: usize = 49_168;

/// The length of the longest payload of a batch that may follow a journal, in bytes.
pub const MAX_BATCH_LEN: usize = 56_845;

/// The bytes of a step of settling in a frame of its own: 38 in format 1, and 10 in format 2. Its
/// spelling has 5 bytes less, as a frame has 5 beside its payload.
pub fn step_bytes(format: Format) -> u64
    ensures value { result ≡ step_bytes format }
    ensures some { 10 ≤ result }
    ensures few { result ≤ 38 }
{
    match format {
        Format::Whole => 38,
        Format::Short => 10,
    }
}

#[tactic(auto, using(crate::proofs::Bounds::length_def))]
fn def_len(def: &GroupDef) -> usize
    ensures value { result ≡ length (def_bytes def.now) }
    ensures some { 1 ≤ result }
    ensures few { result ≤ 16646 }
{
    7 + def.name().len() + def.descriptor().len()
}

#[tactic(auto, using(crate::proofs::Bounds::length_message))]
fn message_len(message: &Message) -> usize
    ensures value { result ≡ length (message_bytes message.now) }
    ensures some { 1 ≤ result }
    ensures few { result ≤ 32810 }
{
    42 + message.body().len()
}

fn session_len(session: &Session) -> usize
    ensures value { result ≡ length (session_bytes session.now) }
    ensures some { 1 ≤ result }
    ensures few { result ≤ 27 }
{
    match &session.nonce {
        None => 11,
        Some(nonce) => 11 + nonce.as_bytes().len(),
    }
}

fn sum_len(ids: &[MessageId]) -> usize
    requires { length ids.now ≤ MAX_IDS }
    ensures value { result ≡ length (flat_map whole ids.now) }
    ensures few { result ≤ 49152 }
{
    let mut len = 0;
    'ids: for id in ids {
        len += id.as_bytes().len();
    }
    len
}

fn ids_len(ids: &IdList<MAX_IDS>) -> usize
    ensures value { result ≡ length (ids_bytes whole ids.now) }
    ensures few { result ≤ 49154 }
{
    2 + sum_len(ids.as_slice())
}

fn out_len(what: &Out) -> usize
    ensures value { result ≡ length (out_bytes whole what.now) }
    ensures some { 1 ≤ result }
    ensures few { result ≤ 49155 }
{
    match what {
        Out::Acks(ids) | Out::Requests(ids) | Out::Offers(ids) => 1 + ids_len(ids),
        Out::Send(id) => 1 + id.as_bytes().len(),
    }
}

fn tried_len(tried: &Tried) -> usize
    ensures value { result ≡ length (tried_bytes whole tried.now) }
    ensures some { 1 ≤ result }
    ensures few { result ≤ 43 }
{
    11 + tried.id.as_bytes().len()
}

/// How many bytes the spelling of an entry has in format 1, which spells all kinds but the four
/// that stand in a brief account alone: 2 to `MAX_SPELLING`. It takes no memory.
pub fn entry_len(entry: &Entry) -> usize
    requires { IsOld entry.now }
    ensures value { result ≡ length (spelling entry.now) }
    ensures some { 2 ≤ result }
    ensures few { result ≤ MAX_SPELLING }
{
    whole_len(entry)
}

// How many bytes an entry takes whose ids are all written whole.
#[tactic(auto, unfolding(crate::specs::Spelling::spelling))]
fn whole_len(entry: &Entry) -> usize
    ensures value { result ≡ length (spelling entry.now) }
    ensures some { 2 ≤ result }
    ensures few { result ≤ MAX_SPELLING }
{
    match entry {
        Entry::Contact(_) => 2,
        Entry::Group(def) => 1 + def_len(def),
        Entry::Level(_, group, _) => 3 + group.as_bytes().len(),
        Entry::Session(session) => 1 + session_len(session),
        Entry::Take(_, _) => 13,
        Entry::Author(message) => 1 + message_len(message),
        Entry::Arrive(_, message) => 5 + message_len(message),
        Entry::Judged(id) | Entry::Deliver(id) | Entry::Invalid(id) => 1 + id.as_bytes().len(),
        Entry::Again(_, id) | Entry::Offered(_, id) | Entry::Seen(_, id) | Entry::Asked(_, id) => 5
            + id.as_bytes().len(),
        Entry::Out(_, _, what) => 13 + out_len(what),
        Entry::Brief(_) => 5,
        Entry::Kept(_, message) => 3 + message_len(message),
        Entry::Tried(tried) => 1 + tried_len(tried),
        Entry::Want(_, id) => 2 + id.as_bytes().len(),
    }
}

// How many messages an output names as held.
fn out_count(what: &Out) -> usize
    ensures count { result ≡ out_count what.now }
    ensures whole { OutNames IsId what.now }
{
    match what {
        Out::Acks(ids) | Out::Offers(ids) => ids.as_slice().len(),
        Out::Requests(_) => 0,
        Out::Send(id) => {
            show_whole(id);
            1
        }
    }
}

// How many messages an entry names as held.
fn named_count(entry: &Entry) -> usize
    ensures count { result ≡ named_count entry.now }
    ensures whole { EntryNames IsId entry.now }
{
    match entry {
        Entry::Judged(id) | Entry::Deliver(id) | Entry::Invalid(id) => {
            show_whole(id);
            1
        }
        Entry::Again(_, id) | Entry::Seen(_, id) | Entry::Asked(_, id) => {
            show_whole(id);
            1
        }
        Entry::Out(_, _, what) => out_count(what),
        Entry::Tried(tried) => {
            show_whole(&tried.id);
            1
        }
        Entry::Contact(_) | Entry::Group(_) | Entry::Level(_, _, _) | Entry::Session(_) => 0,
        Entry::Take(_, _) | Entry::Author(_) | Entry::Arrive(_, _) | Entry::Offered(_, _) => 0,
        Entry::Brief(_) | Entry::Kept(_, _) | Entry::Want(_, _) => 0,
    }
}

/// How many bytes the spelling of an entry has in format 2, whatever the names: a number has 28
/// bytes less than an id. These are 2 at least, and no more than with whole ids. It takes no memory.
pub fn short_len(entry: &Entry) -> usize
    ensures value { (names : List (List ℕ)) → result
        ≡ length (spelling_in format_kind.Short names entry.now) }
    ensures some { 2 ≤ result }
    ensures few { result ≤ length (spelling entry.now) }
{
    whole_len(entry) - 28 * named_count(entry)
}

/// How many bytes the spelling of an entry has in this format, whatever the names: 2 at least. It
/// takes no memory.
#[tactic(auto, unfolding(crate::specs::Spelling::spelling, crate::specs::Spelling::spelling_in))]
pub fn spelled_len(format: Format, entry: &Entry) -> usize
    ensures value { result ≡ length (spelling_in format [] entry.now) }
    ensures some { 2 ≤ result }
{
    match format {
        Format::Whole => whole_len(entry),
        Format::Short => short_len(entry),
    }
}

/// How many bytes `write_group` appends, whatever the names. It takes no memory.
#[tactic(auto, unfolding(crate::specs::Spelling::spelling_in))]
pub fn group_len(def: &GroupDef) -> usize
    ensures value { (names : List (List ℕ)) → result
        ≡ length (spelling_in format_kind.Short names (entry_kind.Group def.now)) }
    ensures some { 2 ≤ result }
    ensures few { result ≤ MAX_SPELLING }
{
    1 + def_len(def)
}

/// How many bytes `write_kept` appends, from wherever the message came and whatever the names. It
/// takes no memory.
#[tactic(auto, unfolding(crate::specs::Spelling::spelling_in))]
pub fn kept_len(message: &Message) -> usize
    ensures value { (names : List (List ℕ)) (from : Origin) → result
        ≡ length (spelling_in format_kind.Short names (entry_kind.Kept from message.now)) }
    ensures some { 2 ≤ result }
    ensures few { result ≤ MAX_SPELLING }
{
    3 + message_len(message)
}
