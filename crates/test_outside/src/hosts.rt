ghost use Rattle.std.specs.Prelude.{◌≡◌, ◌<◌, [], length, OnOk};
ghost use Rattle.outside.specs.MemHost.{links_of};

use crate::checks::{disk_with, hear, holds, kept, same};
use crate::disks::use_disk;
use outside::{Answer, Disk, Failed, Heard, Host, MemHost, Pick};
use std::process::Abort;

// A host over an empty disk.
fn new_host<R: Abort + AllocGlobal>(rt: &R) -> MemHost
    ensures { links_of result.disk ≡ [] }
{
    kept(rt, MemHost::new(rt.alloc(), disk_with(rt, b"")))
}

// Makes two links.
fn dial_two<H: Host>(host: &mut H) -> Result<(), Failed>
    requires { (H.tells host.old).links.dialled ≡ 0 }
    ensures { OnOk result ((H.tells host.new).links.dialled ≡ 2) }
{
    host.dial("a")?;
    host.dial("b")?;
    Ok(())
}

// A host over an empty disk with two links.
fn linked_host<R: Abort + AllocGlobal>(rt: &R) -> MemHost
    ensures { length (links_of result.disk) ≡ 2 }
{
    let mut host = new_host(rt);
    kept(rt, dial_two(&mut host));
    host
}

// What is to be heard: the room that is given, the answer, and the buffer then.
type Hearing = (usize, Heard, [u8; 4]);

// Hears on link 0 into a buffer of so many bytes.
fn hear_into<H: Host>(rt: &impl Abort, host: &mut H, expected: &Hearing)
    requires { 0 < (H.tells host.old).links.dialled }
    ensures { (H.tells host.new).links.dialled ≡ (H.tells host.old).links.dialled }
{
    let (room, heard, bytes) = expected;
    assert!(rt; *room > 0 && *room <= 4);
    let mut buf = [0u8; 4];
    hear(rt, host, &mut buf[..*room], *heard);
    same(rt, &buf, bytes);
}

// Hears as often as there are answers expected.
fn hear_all<H: Host>(rt: &impl Abort, host: &mut H, expected: &[Hearing])
    requires { 0 < (H.tells host.old).links.dialled }
{
    for hearing in expected {
        hear_into(rt, host, hearing);
    }
}

// An answer that is planned.
#[derive(Clone, Copy)]
enum Planned {
    Bytes(&'static [u8]),
    Idle,
    End,
    Fail,
}

impl Planned {
    fn answer<R: Abort + AllocGlobal>(self, rt: &R) -> Answer {
        match self {
            Planned::Bytes(bytes) => Answer::Bytes(kept(rt, bytes.to_vec(rt.alloc()))),
            Planned::Idle => Answer::Idle,
            Planned::End => Answer::End,
            Planned::Fail => Answer::Fail,
        }
    }
}

// Adds answers to the script of link 0.
fn plan<R: Abort + AllocGlobal>(rt: &R, host: &mut MemHost, script: &[Planned])
    ensures { links_of host.new.disk ≡ links_of host.old.disk }
{
    for planned in script {
        kept(rt, host.script(0, planned.answer(rt)));
    }
}

// An answer of each kind.
static SCRIPT: [Planned; 6] = [
    Planned::Bytes(b"abcde"),
    Planned::Bytes(b""),
    Planned::Idle,
    Planned::End,
    Planned::Fail,
    Planned::Bytes(b"fghi"),
];

static HEARINGS: [Hearing; 9] = [
    (2, Heard::Got(2), *b"ab\0\0"),
    (1, Heard::Got(1), *b"c\0\0\0"),
    (4, Heard::Got(2), *b"de\0\0"),
    (1, Heard::Idle, [0; 4]),
    (1, Heard::End, [0; 4]),
    (1, Heard::Failed, [0; 4]),
    (4, Heard::Got(4), *b"fghi"),
    (4, Heard::End, [0; 4]),
    (1, Heard::End, [0; 4]),
];

#[test]
fn scripts(rt: HostRuntime) {
    let mut host = linked_host(&rt);
    plan(&rt, &mut host, &SCRIPT);
    hear_all(&rt, &mut host, &HEARINGS);
    same(&rt, &host.starved(), &0);
}

// Reads the clock as often as there are readings expected.
fn read<H: Host>(rt: &impl Abort, host: &mut H, expected: &[u64]) {
    for reading in expected {
        same(rt, &host.now(), reading);
    }
}

fn give_readings(rt: &impl Abort, host: &mut MemHost, readings: &[u64]) {
    for reading in readings {
        kept(rt, host.reading(*reading));
    }
}

#[test]
fn readings(rt: HostRuntime) {
    let mut host = new_host(&rt);
    read(&rt, &mut host, &[0]);
    give_readings(&rt, &mut host, &[5, 4]);
    read(&rt, &mut host, &[5, 4, 4]);
    give_readings(&rt, &mut host, &[9, 10]);
    read(&rt, &mut host, &[9]);
    kept(&rt, host.set_clock(3));
    read(&rt, &mut host, &[3, 3]);
}

#[test]
fn dials(rt: HostRuntime) {
    let mut host = new_host(&rt);
    kept(&rt, host.fail_dial(1));
    same(&rt, &dial_two(&mut host), &Err(Failed));
}

// A nonce of link 1 is this one.
fn ask<H: Host>(rt: &impl Abort, host: &mut H, expected: Result<[u8; 16], Failed>)
    requires { (H.tells host.old).links.dialled ≡ 2 }
    ensures { (H.tells host.new).links.dialled ≡ 2 }
{
    same(rt, &host.nonce(1), &expected);
}

#[test]
fn nonces(rt: HostRuntime) {
    let mut host = linked_host(&rt);
    ask(&rt, &mut host, Err(Failed));
    kept(&rt, host.give_nonce([1; 16]));
    kept(&rt, host.give_nonce([2; 16]));
    ask(&rt, &mut host, Ok([1; 16]));
    ask(&rt, &mut host, Ok([2; 16]));
    ask(&rt, &mut host, Err(Failed));
}

// Sends on both links.
fn send_three<H: Host>(host: &mut H) -> [Result<(), Failed>; 3]
    requires { (H.tells host.old).links.dialled ≡ 2 }
{
    let first = host.send(0, b"abc");
    let second = host.send(0, b"defgh");
    let third = host.send(1, b"i");
    host.hang_up(1);
    [first, second, third]
}

#[test]
fn sends(rt: HostRuntime) {
    let mut host = linked_host(&rt);
    kept(&rt, host.fail_send(1));
    let answers = send_three(&mut host);
    same(&rt, &answers, &[Ok(()), Err(Failed), Ok(())]);
    same(&rt, &host.sent(0), &b"abcde".as_slice());
    same(&rt, &host.sent(1), &b"i".as_slice());
    holds(&rt, "nothing sent", host.sent(7).is_empty());
}

#[test]
fn the_disk_of_a_host(rt: HostRuntime) {
    let mut host = new_host(&rt);
    kept(&rt, host.fail_at(3));
    same(&rt, &use_disk(&mut host), &Err(Failed));
    kept(&rt, host.fail_at(4));
    host.fail_none();
    same(&rt, &use_disk(&mut host), &Ok(0));
    same(&rt, &host.disk().calls(), &9);
    same(&rt, &host.into_disk().starved(), &0);
}

// A host that planned an answer, a reading and a nonce, and was stopped behind its first call.
fn stopped_host<R: Abort + AllocGlobal>(rt: &R) -> MemHost {
    let mut host = linked_host(rt);
    plan(rt, &mut host, &[Planned::Idle]);
    kept(rt, host.set_clock(7));
    kept(rt, host.give_nonce([1; 16]));
    host.stop_at(1);
    holds(rt, "one write of two", write_twice(&mut host));
    host
}

// Whether the first write was made and the second failed.
fn write_twice<D: Disk>(disk: &mut D) -> bool {
    let first = disk.write_at(0, 0, b"ab").is_ok();
    let second = disk.write_at(0, 0, b"c").is_err();
    first && second
}

// Whether links are made anew, there is no nonce, and the clock gives 0.
fn begins_anew<H: Host>(host: &mut H) -> bool
    requires { (H.tells host.old).links.dialled ≡ 0 }
{
    if dial_two(host).is_err() {
        return false;
    }
    host.now() == 0
}

#[test]
fn restarts(rt: HostRuntime) {
    let mut host = stopped_host(&rt);
    kept(&rt, host.restart());
    same(&rt, &host.disk().calls(), &2);
    holds(&rt, "it begins anew", begins_anew(&mut host));
    same(&rt, &host.disk().file(0), &b"ab".as_slice());
}

#[test]
fn crashes(rt: HostRuntime) {
    let mut host = stopped_host(&rt);
    kept(&rt, host.crash(Pick::Old));
    same(&rt, &host.disk().calls(), &0);
    holds(&rt, "it begins anew", begins_anew(&mut host));
    holds(&rt, "an empty file", host.disk().file(0).is_empty());
}
