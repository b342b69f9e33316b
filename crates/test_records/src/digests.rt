// Values of the standard and of an independent program (Python's hashlib).

ghost use Rattle.std.specs.Prelude.{◌≡◌, ◌+◌, ◌*◌, ◌<◌, ◌≤◌, length};

use crate::checks::{made, same};
use bramble_hash::{Blake2b, Parts, parts_have_one_reading};
use std::process::Abort;

// Digests of the first bytes of the message whose byte i is i % 251.
const BY_LENGTH: [(usize, [u8; 32]); 9] = [
    (
        0,
        *b"\x0e\x57\x51\xc0\x26\xe5\x43\xb2\xe8\xab\x2e\xb0\x60\x99\xda\xa1\xd1\xe5\xdf\x47\x77\
        \x8f\x77\x87\xfa\xab\x45\xcd\xf1\x2f\xe3\xa8",
    ),
    (
        1,
        *b"\x03\x17\x0a\x2e\x75\x97\xb7\xb7\xe3\xd8\x4c\x05\x39\x1d\x13\x9a\x62\xb1\x57\xe7\x87\
        \x86\xd8\xc0\x82\xf2\x9d\xcf\x4c\x11\x13\x14",
    ),
    (
        127,
        *b"\xf2\xfe\x67\xff\x34\x2e\x21\xb8\xf4\x5e\x8f\x2e\x0b\xcd\x1d\x92\x43\x24\x5d\x50\xee\
        \x6c\x78\x04\x2e\x9c\x49\x13\x88\x79\x1c\x72",
    ),
    (
        128,
        *b"\xc3\x58\x2f\x71\xeb\xb2\xbe\x66\xfa\x5d\xd7\x50\xf8\x0b\xaa\xe9\x75\x54\xf3\xb0\x15\
        \x66\x3c\x8b\xe3\x77\xcf\xcb\x24\x88\xc1\xd1",
    ),
    (
        129,
        *b"\xf7\xf3\xc4\x6b\xa2\x56\x4f\xf4\xc4\xc1\x62\xda\x1f\x5b\x60\x5f\x9f\x1c\x4a\xa6\xa2\
        \x06\x52\xa9\xf9\xa3\x37\xc1\xa2\xf5\xb9\xc9",
    ),
    (
        255,
        *b"\xd9\xef\x0f\xc5\x21\xb4\x26\x6d\x16\xdf\x66\x2b\xec\x23\x1b\xc2\xec\x39\x89\xe7\xad\
        \xea\xf6\x31\x69\xc2\x95\xdc\x23\x9d\xbb\xea",
    ),
    (
        256,
        *b"\x58\x2f\x78\x22\x26\x01\x8e\xc3\x30\x76\xbd\x8d\x1c\x42\x41\x35\x30\xac\x7e\x11\x26\
        \x26\x0f\xfc\x0f\x30\x6b\xa3\xbe\xfc\x3f\x24",
    ),
    (
        257,
        *b"\x22\x7e\x15\xed\x64\xee\x8e\x93\xeb\x7b\xc5\x38\x28\xf7\x6e\xed\x97\x4f\x2c\x4a\xb1\
        \x40\x8c\x3d\x08\xf2\x12\xb7\xf8\xd6\x99\x04",
    ),
    (
        1000,
        *b"\xb3\x72\xd0\x60\x8f\x72\x0c\x8c\x3d\xd4\x1e\x9c\x8e\xec\xb1\x01\x43\xb4\x1a\xbe\x52\
        \x0b\x61\x66\x07\xe7\x54\xbf\x79\xc0\x83\x31",
    ),
];

fn digest(bytes: &[u8]) -> [u8; 32]
    requires { length bytes.now ≤ 1024 }
{
    let mut hasher = Blake2b::<32>::new();
    hasher.update(bytes);
    hasher.finalize()
}

fn digest_in_two(bytes: &[u8], at: usize) -> [u8; 32]
    requires long { length bytes.now ≤ 1024 }
    requires at { at ≤ length bytes.now }
{
    let mut hasher = Blake2b::<32>::new();
    hasher.update(&bytes[..at]);
    hasher.update(&bytes[at..]);
    hasher.finalize()
}

fn digest_by_bytes(bytes: &[u8]) -> [u8; 32]
    requires { length bytes.now ≤ 1024 }
{
    let mut hasher = Blake2b::<32>::new();
    for byte in bytes {
        hasher.update(&[*byte]);
    }
    hasher.finalize()
}

fn message() -> [u8; 1000] {
    let mut bytes = [0u8; 1000];
    for (i, byte) in bytes.iter_mut().enumerate() {
        *byte = (i % 251) as u8;
    }
    bytes
}

// The bytes have this digest whole, one by one, and in every cut.
fn check_digests(rt: &impl Abort, bytes: &[u8], want: &[u8; 32])
    requires { length bytes.now ≤ 1000 }
{
    let len = bytes.len();
    same(rt, &(len, digest(bytes)), &(len, *want));
    same(rt, &(len, digest_by_bytes(bytes)), &(len, *want));
    for at in 0..len + 1 {
        same(rt, &(at, digest_in_two(bytes, at)), &(at, *want));
    }
}

#[test]
fn digests_by_length_and_cut(rt: HostRuntime) {
    let bytes = message();
    for (len, want) in &BY_LENGTH {
        assert!(rt; *len <= 1000);
        check_digests(&rt, &bytes[..*len], want);
    }
}

#[test]
fn known_texts(rt: HostRuntime) {
    let empty =
        b"\x0e\x57\x51\xc0\x26\xe5\x43\xb2\xe8\xab\x2e\xb0\x60\x99\xda\xa1\xd1\xe5\xdf\x47\x77\
        \x8f\x77\x87\xfa\xab\x45\xcd\xf1\x2f\xe3\xa8";
    let abc =
        b"\xbd\xdd\x81\x3c\x63\x42\x39\x72\x31\x71\xef\x3f\xee\x98\x57\x9b\x94\x96\x4e\x3b\xb1\
        \xcb\x3e\x42\x72\x62\xc8\xc0\x68\xd5\x23\x19";
    same(&rt, &digest(b""), empty);
    same(&rt, &digest(b"abc"), abc);
}

// The sequence of the standard's self-test (appendix E).
fn sequence(bytes: &mut [u8], seed: u32) {
    let mut a = 0xdead_4badu32.wrapping_mul(seed);
    let mut b = 1u32;
    for byte in bytes.iter_mut() {
        let sum = a.wrapping_add(b);
        a = b;
        b = sum;
        *byte = (sum >> 24) as u8;
    }
}

// One length at one size of digest, without and with a key.
fn feed<const N: usize>(rt: &impl Abort, all: &mut Blake2b<32>, len: usize)
    requires least { 1 ≤ N }
    requires most { N ≤ 64 }
    requires len { len ≤ 1024 }
    requires room { all.old.count < 100000 }
    ensures { all.new.count ≡ all.old.count + 2 * N }
{
    let mut input = [0u8; 1024];
    sequence(&mut input[..len], len as u32);
    let mut key = [0u8; N];
    sequence(&mut key, N as u32);
    let mut plain = Blake2b::<N>::new();
    plain.update(&input[..len]);
    all.update(&plain.finalize());
    let mut keyed = Blake2b::<N>::keyed(&key).expect(rt, "a key of at most 64 bytes");
    keyed.update(&input[..len]);
    all.update(&keyed.finalize());
}

fn feed_lengths<const N: usize>(rt: &impl Abort, all: &mut Blake2b<32>)
    requires least { 1 ≤ N }
    requires most { N ≤ 64 }
    requires room { all.old.count < 10000 }
    ensures { all.new.count ≡ all.old.count + 12 * N }
{
    feed::<N>(rt, all, 0);
    feed::<N>(rt, all, 3);
    feed::<N>(rt, all, 128);
    feed::<N>(rt, all, 129);
    feed::<N>(rt, all, 255);
    feed::<N>(rt, all, 1024);
}

#[test]
fn self_test_of_the_standard(rt: HostRuntime) {
    let mut all = Blake2b::<32>::new();
    feed_lengths::<20>(&rt, &mut all);
    feed_lengths::<32>(&rt, &mut all);
    feed_lengths::<48>(&rt, &mut all);
    feed_lengths::<64>(&rt, &mut all);
    let want =
        b"\xc2\x3a\x78\x00\xd9\x81\x23\xbd\x10\xf5\x06\xc6\x1e\x29\xda\x56\x03\xd7\x63\xb8\xbb\
        \xad\x2e\x73\x7f\x5e\x76\x5a\x7b\xcc\xd4\x75";
    same(&rt, &all.finalize(), want);
}

fn keyed(rt: &impl Abort, key: &[u8]) -> Blake2b<32>
    ensures { result.count ≤ 128 }
{
    made(rt, Blake2b::keyed(key))
}

#[test]
fn keys(rt: HostRuntime) {
    assert!(rt; Blake2b::<32>::keyed(&[0; 65]).is_err());
    let mut key = [0u8; 64];
    sequence(&mut key, 64);
    let mut hasher = keyed(&rt, &key);
    hasher.update(b"abc");
    let want =
        b"\xc5\x55\x84\x84\x76\x53\x07\xe8\x66\x83\x9f\x62\x3b\xcc\xf0\x8d\xdc\x12\x6c\xe5\xc1\
        \xfe\x4a\x76\x9b\xb2\x8e\x1b\xf2\x6e\x1f\x0e";
    same(&rt, &hasher.finalize(), want);
    same(&rt, &keyed(&rt, b"").finalize(), &digest(b""));
}

// The hash of at most 8 parts, each of at most 1024 bytes.
fn hash_of(rt: &impl Abort, list: &[&[u8]]) -> [u8; 32] {
    assert!(rt; list.len() <= 8);
    let mut parts = Parts::new();
    for part in list {
        assert!(rt; part.len() <= 1024);
        parts.part(part);
    }
    parts.finish()
}

#[test]
fn parts_by_their_preimage(rt: HostRuntime) {
    let ab_c = digest(b"\x00\x00\x00\x02ab\x00\x00\x00\x01c");
    let a_bc = digest(b"\x00\x00\x00\x01a\x00\x00\x00\x02bc");
    same(&rt, &hash_of(&rt, &[b"ab", b"c"]), &ab_c);
    same(&rt, &hash_of(&rt, &[b"a", b"bc"]), &a_bc);
    assert!(rt; ab_c != a_bc);
    parts_have_one_reading();
}

// Preimages of 63, 52 and 128 bytes, the last exactly one block.
#[test]
fn ids_of_a_group_and_a_message(rt: HostRuntime) {
    let label = b"org.briarproject.bramble/GROUP_ID";
    let group = hash_of(&rt, &[label, &[1], b"note", &[0; 4], b"d"]);
    let want =
        b"\x76\xff\x49\x80\xd3\xb5\xf6\x39\x62\xce\xe4\x54\x01\xb6\xb1\xbb\x92\xef\xe9\x89\xc2\
        \x7d\xe4\x62\x9a\xac\x92\xb1\x81\x63\xe6\xe0";
    same(&rt, &group, want);

    let label = b"org.briarproject.bramble/MESSAGE_BLOCK";
    let block = hash_of(&rt, &[label, &[1], b"x"]);
    let label = b"org.briarproject.bramble/MESSAGE_ID";
    let message = hash_of(&rt, &[label, &[1], &group, &[0; 8], &block]);
    let want =
        b"\x34\x43\x41\x8c\x03\x82\x80\x0e\x42\xae\x01\xfb\x9d\x67\x6b\x7b\x25\x40\x5d\x28\x75\
        \x80\x9c\xf8\xd6\x80\x8f\x04\x74\x1c\x96\xa4";
    same(&rt, &message, want);
}
