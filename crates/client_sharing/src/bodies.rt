//! What the client of `sharing` groups says of a body (this project's profile).
ghost use Rattle.std.specs.Prelude.{◌≡◌, ◌≤◌, ◌++◌, length, take, IfOk, OnOk};
ghost use Rattle.client_basic.specs.Bodies.{previous_of};
ghost use Rattle.entry_codec.specs.Spelling.{IsDef, def_bytes};
ghost use Rattle.client_sharing.specs.Bodies.{IsSaying, SayingsAreSpelled, def_of, is_sharing};
ghost use Rattle.client_sharing.specs.Bodies.{saying_of, saying_verdict, stance_of, whole_def};

use entry_codec::laws::spellings_read_back;
use entry_codec::{EntryFound, read_entry};
use std::alloc::{AllocError, Global};
use sync_ids::{Fixed, GroupDef, MessageId};
use sync_rules::{DepList, Entry, Judgement};

// The length of an id in a body, in bytes.
const ID_LEN: usize = 32;

const JOIN: u8 = 1;

const LEAVE: u8 = 2;

// The tag of a group's definition in a journal.
const GROUP_TAG: u8 = 2;

/// What a body of a `sharing` group says.
#[derive(Debug, Drop)]
pub struct Saying {
    /// Whether its author joins the group that is spoken of, or leaves it.
    pub join: bool,
    /// The id of its author's message before it in the `sharing` group; zeros where there is none.
    pub previous: MessageId,
    /// The definition of the group that is spoken of.
    pub def: GroupDef,
}

/// Whether a group of this definition is a `sharing` group: its client is `sharing` of major
/// version 0.
pub fn is_sharing(def: &GroupDef) -> bool
    ensures { result ≡ is_sharing def.now }
{
    def.major() == 0 && def.name() == "sharing"
}

/// A body says something exactly where it is spelled so, within the limits. It does nothing.
pub fn sayings_are_spelled()
    ensures { SayingsAreSpelled }
{}

// The definition that these bytes spell, all of them together.
fn read_def(alloc: Global, bytes: &[u8]) -> Result<Option<GroupDef>, AllocError>
    ensures { IfOk result (λ def. def ≡ def_of bytes.now) }
{
    let mut spelling = Vec::new(alloc);
    spelling.push(GROUP_TAG)?;
    spelling.extend_from_slice(bytes)?;
    spellings_read_back();
    let found = read_entry(alloc, spelling.as_slice())?;
    Ok(whole_def(found, spelling.len()))
}

// The definition that was found, where it takes so many bytes.
fn whole_def(found: EntryFound, len: usize) -> Option<GroupDef>
    ensures { result ≡ whole_def len found }
{
    match found {
        EntryFound::One(Entry::Group(def), used) if used == len => Some(def),
        _ => None,
    }
}

// The stance of a byte.
fn stance_of(byte: u8) -> Option<bool>
    ensures { result ≡ stance_of byte }
{
    match byte {
        JOIN => Some(true),
        LEAVE => Some(false),
        _ => None,
    }
}

// The id whose bytes begin at this place.
fn front_id(bytes: &[u8]) -> MessageId
    requires { ID_LEN ≤ length bytes.now }
    ensures { result ≡ take ID_LEN bytes.now }
{
    let mut id = [0; ID_LEN];
    id.copy_from_slice(&bytes[..ID_LEN]);
    Fixed(id)
}

/// What a body says: nothing exactly where it is not spelled so (`sayings_are_spelled`). It fails
/// only for want of memory.
pub fn read_saying(alloc: Global, body: &[u8]) -> Result<Option<Saying>, AllocError>
    ensures { IfOk result (λ saying. saying ≡ saying_of body.now) }
{
    let Some((first, rest)) = body.split_first() else {
        return Ok(None);
    };
    let Some(join) = stance_of(*first) else {
        return Ok(None);
    };
    if rest.len() < ID_LEN {
        return Ok(None);
    }
    match read_def(alloc, &rest[ID_LEN..])? {
        Some(def) => Ok(Some(Saying {
            join,
            previous: front_id(rest),
            def,
        })),
        None => Ok(None),
    }
}

fn append_def(def: &GroupDef, to: &mut Vec<u8>) -> Result<(), AllocError>
    ensures ok { OnOk result (to.new.items ≡ to.old.items ++ def_bytes def.now) }
    ensures within { OnOk result (IsDef def.now) }
{
    let name = def.name().as_bytes();
    let descriptor = def.descriptor();
    to.push(name.len() as u8)?;
    to.extend_from_slice(name)?;
    to.extend_from_slice(&def.major().to_be_bytes())?;
    to.extend_from_slice(&(descriptor.len() as u16).to_be_bytes())?;
    to.extend_from_slice(descriptor)
}

/// The body that says this. It fails only for want of memory.
pub fn write_saying(alloc: Global, saying: &Saying) -> Result<Vec<u8>, AllocError>
    ensures { IfOk result (λ body. IsSaying saying.now body.items) }
{
    let mut body = Vec::new(alloc);
    body.push(if saying.join { JOIN } else { LEAVE })?;
    body.extend_from_slice(saying.previous.as_bytes())?;
    append_def(&saying.def, &mut body)?;
    Ok(body)
}

// No dependency for 32 zero bytes, and else this id.
fn previous(alloc: Global, id: MessageId) -> Result<DepList, AllocError>
    ensures { IfOk result (λ deps. deps ≡ previous_of id) }
{
    let mut ids = Vec::new(alloc);
    if id != Fixed([0; ID_LEN]) {
        ids.push(id)?;
    }
    match DepList::new(ids) {
        Ok(deps) => Ok(deps),
        Err(_) => unreachable!(),
    }
}

/// The judgement of a body in a `sharing` group: one that says nothing, or speaks of a group whose
/// client has the name `sharing`, is refused, and any other depends on the previous message, if
/// there is one. It fails only for want of memory.
pub(crate) fn judge_saying(alloc: Global, body: &[u8]) -> Result<Judgement, AllocError>
    ensures { IfOk result (λ a. a ≡ saying_verdict (saying_of body.now)) }
{
    let Some(saying) = read_saying(alloc, body)? else {
        return Ok(Judgement::Refuse);
    };
    if saying.def.name() == "sharing" {
        return Ok(Judgement::Refuse);
    }
    let deps = previous(alloc, saying.previous)?;
    Ok(Judgement::Accept { deps, share: false })
}
