//! The identifiers of groups and messages.

ghost use Rattle.std.specs.Prelude.{◌≡◌, ℕ, ◌+◌, ◌^◌, ◌<◌, ◌≤◌, ◌++◌, List, [], ◌∷◌, length, take};
ghost use Rattle.std.specs.Int.{w64, to_be_bytes};
ghost use Rattle.bramble_hash.specs.Parts.{preimage};
ghost use Rattle.sync_ids.specs.Ids.{block_hash_of, format_version, group_id_of, message_id_of};
ghost use Rattle.sync_ids.specs.Ids.{message_label};
ghost use Rattle.sync_ids.specs.Values.{MessageValue};

use crate::def::GroupDef;
use crate::fixed::{Fixed, GroupId, MessageId};
use bramble_hash::{Blake2b, Parts};

const GROUP_LABEL: &[u8; 33] = b"org.briarproject.bramble/GROUP_ID";

const FORMAT_VERSION: &[u8; 1] = &[1];

// A length of parts stands before each part, in four bytes. What never changes of the bytes that
// an id is the digest of is written out here, so that an id feeds few and long pieces.

// The label and the version of a body's hash.
const BLOCK_HEAD: &[u8; 47] = b"\0\0\0\x26org.briarproject.bramble/MESSAGE_BLOCK\0\0\0\x01\x01";

// The label and the version of a message's id, and the length of its group's id.
const MESSAGE_HEAD: &[u8; 48] =
    b"\0\0\0\x23org.briarproject.bramble/MESSAGE_ID\0\0\0\x01\x01\0\0\0\x20";

// The length of a time, and of a body's hash.
const TIME_LENGTH: &[u8; 4] = &[0, 0, 0, 8];

const HASH_LENGTH: &[u8; 4] = &[0, 0, 0, 32];

/// The id of the group of this definition (BSP, "Group identifiers"). It takes no memory.
pub fn group_id(def: &GroupDef) -> GroupId
    ensures { result ≡ group_id_of def.now }
{
    let mut parts = Parts::new();
    parts.part(GROUP_LABEL);
    parts.part(FORMAT_VERSION);
    parts.part(def.name().as_bytes());
    parts.part(&def.major().to_be_bytes());
    parts.part(def.descriptor());
    Fixed(parts.finish())
}

// Writes `bytes` behind the first `at` bytes of a block.
#[inline(always)]
fn put(block: &mut [u8], at: usize, bytes: &[u8])
    requires { at + length bytes.now ≤ length block.old }
    ensures len { length block.new ≡ length block.old }
    ensures front { (front : List ℕ) → take at block.old ≡ front
        → take (at + length bytes.now) block.new ≡ front ++ bytes.now }
{
    block[at..at + bytes.len()].copy_from_slice(bytes);
}

fn block_hash(body: &[u8]) -> [u8; 32]
    requires { length body.now < 2 ^ 32 }
    ensures value { result ≡ block_hash_of body.now }
    ensures len { length result ≡ 32 }
{
    let mut head = [0u8; 51];
    put(&mut head, 0, BLOCK_HEAD);
    put(&mut head, 47, &(body.len() as u32).to_be_bytes());
    let mut hasher = Blake2b::<32>::new();
    hasher.update(&head);
    hasher.update(body);
    hasher.finalize()
}

// All that an id is the digest of: its parts with their lengths fill one block.
fn message_block(group: &GroupId, timestamp: u64, body_hash: &[u8; 32]) -> [u8; 128]
    ensures { result ≡ preimage (message_label ∷ format_version ∷ group.now
        ∷ to_be_bytes w64 timestamp ∷ body_hash.now ∷ []) }
{
    let mut block = [0u8; 128];
    put(&mut block, 0, MESSAGE_HEAD);
    put(&mut block, 48, group.as_bytes());
    put(&mut block, 80, TIME_LENGTH);
    put(&mut block, 84, &timestamp.to_be_bytes());
    put(&mut block, 92, HASH_LENGTH);
    put(&mut block, 96, body_hash);
    block
}

/// The id of the message of this group, time and body, the body being one block (BSP, "Message
/// identifiers"). The body has fewer than 2^32 bytes. It takes no memory.
pub fn message_id(group: &GroupId, timestamp: u64, body: &[u8]) -> MessageId
    requires { length body.now < 2 ^ 32 }
    ensures { result ≡ message_id_of
        (record { group = group.now; timestamp = timestamp; body = body.now }) }
{
    let mut hasher = Blake2b::<32>::new();
    hasher.update(&message_block(group, timestamp, &block_hash(body)));
    Fixed(hasher.finalize())
}

/// Every message's id has 32 bytes, of messages too that no program holds. It does nothing.
pub fn message_ids_are_whole()
    ensures { (m : MessageValue) → length (message_id_of m) ≡ 32 }
{}
