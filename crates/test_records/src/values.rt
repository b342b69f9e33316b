//! Ids against an independent program (Python's `hashlib.blake2b` over the parts), and each limit
//! on both of its sides.
use crate::checks::{made, same};
use std::alloc::Global;
use std::process::Abort;
use sync_ids::{
    DefFault, Fixed, GroupDef, GroupId, IdList, ListFault, Message, MessageFault, MessageId,
    NotHex, VersionList, group_id, message_id,
};

fn text(rt: &impl Abort, alloc: Global, len: usize) -> String {
    let mut text = String::new(alloc);
    for _ in 0..len {
        made(rt, text.push('n'));
    }
    text
}

fn bytes(rt: &impl Abort, alloc: Global, byte: u8, len: usize) -> Vec<u8> {
    made(rt, vec![in alloc; byte; len])
}

fn check_hex(rt: &impl Abort, alloc: Global, id: &GroupId, want: &str) {
    let text = made(rt, id.to_hex(alloc));
    same(rt, &text.as_str(), &want);
}

fn check_group(rt: &impl Abort, alloc: Global, name: &str, major: u32, descriptor: &str, id: &str) {
    let own_name = made(rt, String::from_str(alloc, name));
    let bytes = made(rt, descriptor.as_bytes().to_vec(alloc));
    let def = made(rt, GroupDef::new(own_name, major, bytes));
    same(
        rt,
        &(def.name(), def.major(), def.descriptor()),
        &(name, major, descriptor.as_bytes()),
    );
    check_hex(rt, alloc, &group_id(&def), id);
}

#[test]
fn identifies_groups(rt: HostRuntime) {
    for (name, major, descriptor, id) in &[
        (
            "note",
            0,
            "d",
            "76ff4980d3b5f63962cee45401b6b1bb92efe989c27de4629aac92b18163e6e0",
        ),
        (
            "thread",
            4_294_967_295,
            "",
            "4754433210af1e9c80d3ebb12e67965eba564018e7a27b24335686a32810a535",
        ),
    ] {
        check_group(&rt, rt.alloc(), name, *major, descriptor, id);
    }
}

// The greatest time of a message.
const LAST: u64 = 0x7fff_ffff_ffff_ffff;

const GROUP: GroupId = Fixed(
    *b"\x76\xff\x49\x80\xd3\xb5\xf6\x39\x62\xce\xe4\x54\x01\xb6\xb1\xbb\x92\xef\xe9\x89\xc2\
    \x7d\xe4\x62\x9a\xac\x92\xb1\x81\x63\xe6\xe0",
);

fn check_message_id(
    rt: &impl Abort,
    alloc: Global,
    group: &GroupId,
    timestamp: u64,
    body: &[u8],
    want: &str,
) {
    assert!(rt; body.len() < 40_000);
    check_hex(rt, alloc, &message_id(group, timestamp, body), want);
}

#[test]
fn identifies_messages(rt: HostRuntime) {
    let group = GroupId::from_hex(
        "76ff4980d3b5f63962cee45401b6b1bb92efe989c27de4629aac92b18163e6e0",
    );
    same(&rt, &group, &Ok(GROUP));
    let rows: &[(GroupId, u64, &[u8], &str)] = &[
        (
            GROUP,
            0,
            b"x",
            "3443418c0382800e42ae01fb9d676b7b25405d2875809cf8d6808f04741c96a4",
        ),
        (
            GROUP,
            5,
            b"x",
            "b1003684d2c1a8d79d702c3294fed250f4f67b173bd256a946d02641f118cfd2",
        ),
        (
            GROUP,
            0x0102_0304_0506_0708,
            b"",
            "e8217e238f7cfe7fcc48bdb7850befc30d4bd0a5a6c15ab7cfb1733d1b03e0cd",
        ),
        (
            Fixed([0; 32]),
            u64::MAX,
            b"hello",
            "0d27bb3c04bbf7b1646d8e73a736e4d39b0b7e57166a1cab359c20838368fdcb",
        ),
    ];
    for (group, timestamp, body, want) in rows {
        check_message_id(&rt, rt.alloc(), group, *timestamp, body, want);
    }
    check_message_id(
        &rt,
        rt.alloc(),
        &GROUP,
        LAST,
        bytes(&rt, rt.alloc(), 255, 32_768).as_slice(),
        "1c9fcbbef2f12a61e856f9b772b056d96fd84299c9f38e3d21a15b5aa9363dbd",
    );
}

fn def_fault(rt: &impl Abort, alloc: Global, name: usize, descriptor: usize) -> Option<DefFault> {
    GroupDef::new(text(rt, alloc, name), 7, bytes(rt, alloc, 1, descriptor)).err()
}

#[test]
fn limits_definitions(rt: HostRuntime) {
    for &(name, descriptor, want) in &[
        (0, 0, Some(DefFault::BadName)),
        (1, 0, None),
        (255, 16_384, None),
        (256, 16_384, Some(DefFault::BadName)),
        (256, 16_385, Some(DefFault::BadName)),
        (255, 16_385, Some(DefFault::DescriptorTooLong)),
    ] {
        let fault = def_fault(&rt, rt.alloc(), name, descriptor);
        same(&rt, &(name, descriptor, fault), &(name, descriptor, want));
    }
}

fn message_fault(rt: &impl Abort, alloc: Global, time: u64, body: usize) -> Option<MessageFault> {
    Message::new(Fixed([9; 32]), time, bytes(rt, alloc, 1, body)).err()
}

fn check_message(rt: &impl Abort, alloc: Global, timestamp: u64) {
    let group = Fixed([9; 32]);
    let message = made(rt, Message::new(group, timestamp, bytes(rt, alloc, 3, 2)));
    same(
        rt,
        &(message.group(), message.timestamp(), message.body()),
        &(group, timestamp, [3, 3].as_slice()),
    );
}

#[test]
fn limits_messages(rt: HostRuntime) {
    for &(timestamp, body, want) in &[
        (LAST + 1, 0, Some(MessageFault::EmptyBody)),
        (0, 1, None),
        (LAST, 32_768, None),
        (LAST + 1, 32_769, Some(MessageFault::BodyTooLong)),
        (LAST + 1, 32_768, Some(MessageFault::BadTimestamp)),
        (u64::MAX, 1, Some(MessageFault::BadTimestamp)),
    ] {
        let fault = message_fault(&rt, rt.alloc(), timestamp, body);
        same(&rt, &(timestamp, body, fault), &(timestamp, body, want));
    }
    check_message(&rt, rt.alloc(), LAST);
}

const SHORT: Fixed<4> = Fixed([0x00, 0x7f, 0xA9, 0xff]);

fn check_short_hex(rt: &impl Abort, alloc: Global) {
    let text = made(rt, SHORT.to_hex(alloc));
    same(rt, &text.as_str(), &"007fa9ff");
}

#[test]
fn reads_and_writes_hex(rt: HostRuntime) {
    check_short_hex(&rt, rt.alloc());
    for &(text, want) in &[
        ("007fa9ff", Ok(SHORT)),
        ("007FA9fF", Ok(SHORT)),
        ("007fa9f", Err(NotHex)),
        ("007fa9ff0", Err(NotHex)),
        ("007fa9ff00", Err(NotHex)),
        ("", Err(NotHex)),
        ("007fa9fg", Err(NotHex)),
        ("007fa9 f", Err(NotHex)),
    ] {
        same(&rt, &(text, Fixed::<4>::from_hex(text)), &(text, want));
    }
    same(&rt, SHORT.as_bytes(), &[0x00, 0x7f, 0xa9, 0xff]);
    assert!(rt; SHORT < Fixed([0x00, 0x80, 0, 0]));
}

fn ids_fault(rt: &impl Abort, alloc: Global, len: usize) -> Option<ListFault> {
    let id: MessageId = Fixed([1; 32]);
    IdList::<1536>::new(made(rt, vec![in alloc; id; len])).err()
}

fn versions_fault(rt: &impl Abort, alloc: Global, len: usize) -> Option<ListFault> {
    VersionList::new(bytes(rt, alloc, 0, len)).err()
}

fn check_two_ids(rt: &impl Abort, alloc: Global) {
    let ids = made(rt, [Fixed([1; 32]), Fixed([2; 32])].to_vec(alloc));
    let list = made(rt, IdList::<2>::new(ids));
    same(rt, &list.as_slice().len(), &2);
    same(rt, &list.into_vec().len(), &2);
}

fn check_versions(rt: &impl Abort, alloc: Global, versions: &[u8], has_zero: bool) {
    let list = made(rt, VersionList::new(made(rt, versions.to_vec(alloc))));
    same(
        rt,
        &(list.as_slice(), list.has_zero()),
        &(versions, has_zero),
    );
}

#[test]
fn limits_lists(rt: HostRuntime) {
    let alloc = rt.alloc();
    for &(len, want) in &[
        (0, Some(ListFault::Empty)),
        (1, None),
        (1_536, None),
        (1_537, Some(ListFault::TooMany)),
    ] {
        same(&rt, &(len, ids_fault(&rt, alloc, len)), &(len, want));
    }
    for &(len, want) in &[
        (0, Some(ListFault::Empty)),
        (1, None),
        (10, None),
        (11, Some(ListFault::TooMany)),
    ] {
        same(&rt, &(len, versions_fault(&rt, alloc, len)), &(len, want));
    }
    check_two_ids(&rt, alloc);
    check_versions(&rt, alloc, &[1, 0], true);
    check_versions(&rt, alloc, &[1, 2], false);
}
