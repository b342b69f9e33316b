// Links of this machine over real sockets. Each test has both ends: a listener of its own keeps the
// peer in its backlog. What is asked of a link stands in functions over any host, so that the tests
// themselves are short.
ghost use Rattle.std.specs.Prelude.{◌≡◌, ◌<◌};
ghost use Rattle.outside.specs.declared.limits.TheConstants.{LINKS};

use crate::checks::{hear, holds, kept, same, send};
use crate::real::real_host;
use outside::{Failed, Heard, Host};
use std::fs;
use std::io::{Read, Write};
use std::net::TcpListener;
use std::os::unix::net::UnixListener;
use std::process::Abort;

// The spec of this kind with the port of a listener on this machine.
fn spec_of<R: Abort + AllocGlobal>(rt: &R, kind: &str, listener: &TcpListener) -> String {
    let port = kept(rt, listener.local_addr()).port();
    kept(rt, format!(in rt.alloc(); "{kind}:127.0.0.1:{port}"))
}

// The first link is made.
fn dial<H: Host>(rt: &impl Abort, host: &mut H, spec: &str)
    requires { (H.tells host.old).links.dialled ≡ 0 }
    ensures { 0 < (H.tells host.new).links.dialled }
{
    let link = kept(rt, host.dial(spec));
    same(rt, &link, &0);
}

// Each of these fails, and no link is made.
fn dial_none<H: Host>(rt: &impl Abort, host: &mut H, specs: &[&str])
    requires { (H.tells host.old).links.dialled < LINKS }
    ensures { (H.tells host.new).links.dialled ≡ (H.tells host.old).links.dialled }
{
    for spec in specs {
        assert!(rt; host.dial(spec) == Err(Failed), "{spec}");
    }
}

// A peer that is silent, says a word, hears one, and goes.
fn talk<H: Host, S: Read + Write + Drop>(rt: &impl Abort, host: &mut H, mut peer: S)
    requires { 0 < (H.tells host.old).links.dialled }
    ensures { 0 < (H.tells host.new).links.dialled }
{
    let mut buf = [0u8; 8];
    hear(rt, host, &mut buf, Heard::Idle);
    kept(rt, peer.write_all(b"hello"));
    hear(rt, host, &mut buf, Heard::Got(5));
    same(rt, &buf, b"hello\0\0\0");
    send(rt, host, b"record", Ok(()));
    let mut got = [0u8; 6];
    kept(rt, peer.read_exact(&mut got));
    same(rt, &got, b"record");
    drop(peer);
    hear(rt, host, &mut buf, Heard::End);
}

// Nobody hears the link any more: sends fail, and this process goes on.
fn talk_to_none<H: Host>(rt: &impl Abort, host: &mut H)
    requires { 0 < (H.tells host.old).links.dialled }
{
    let mut buf = [0u8; 8];
    // The system may still take the first one.
    let _ = host.send(0, b"a");
    send(rt, host, b"a", Err(Failed));
    host.hang_up(0);
    hear(rt, host, &mut buf, Heard::Failed);
    send(rt, host, b"a", Err(Failed));
}

// A peer that goes in the middle of a record. What was sent to it was not read, so the system
// resets the connection.
fn break_off<H: Host, S: Write + Drop>(rt: &impl Abort, host: &mut H, mut peer: S)
    requires { 0 < (H.tells host.old).links.dialled }
    ensures { 0 < (H.tells host.new).links.dialled }
{
    let mut buf = [0u8; 8];
    kept(rt, peer.write_all(b"\0\x04\0\x01"));
    hear(rt, host, &mut buf, Heard::Got(4));
    send(rt, host, b"record", Ok(()));
    drop(peer);
    hear(rt, host, &mut buf, Heard::Failed);
}

// A peer that says a word and does not read: the send fails after half a minute, and what the peer
// said was read ahead.
fn stall<H: Host, S: Write + Drop>(rt: &impl Abort, host: &mut H, bytes: &[u8], mut peer: S)
    requires { 0 < (H.tells host.old).links.dialled }
{
    kept(rt, peer.write_all(b"hello"));
    send(rt, host, bytes, Err(Failed));
    let mut buf = [0u8; 3];
    hear(rt, host, &mut buf, Heard::Got(3));
    same(rt, &buf, b"hel");
    hear(rt, host, &mut buf, Heard::Got(2));
    same(rt, &buf, b"lol");
    hear(rt, host, &mut buf, Heard::Idle);
}

// A link whose input is empty.
fn hear_the_end<H: Host>(rt: &impl Abort, host: &mut H)
    requires { 0 < (H.tells host.old).links.dialled }
{
    let mut buf = [0u8; 8];
    hear(rt, host, &mut buf, Heard::End);
    send(rt, host, b"sent on a link\n", Ok(()));
    host.hang_up(0);
    send(rt, host, b"a", Err(Failed));
}

fn differ<H: Host>(rt: &impl Abort, host: &mut H)
    requires { 0 < (H.tells host.old).links.dialled }
{
    let first = host.nonce(0);
    let second = host.nonce(0);
    holds(rt, "two nonces", first.is_ok() && second.is_ok());
    holds(rt, "they differ", first != second);
}

#[test]
fn a_link_over_tcp(rt: HostRuntime) {
    let listener = kept(&rt, TcpListener::bind(&rt, "127.0.0.1:0"));
    let spec = spec_of(&rt, "tcp", &listener);
    let mut host = kept(&rt, real_host(rt, "no_folder"));
    dial(&rt, &mut host.host, spec.as_str());
    let (peer, _) = kept(&rt, listener.accept());
    talk(&rt, &mut host.host, peer);
    talk_to_none(&rt, &mut host.host);
}

#[test]
fn a_link_over_a_unix_socket(rt: HostRuntime) {
    let listener = kept(&rt, UnixListener::bind(&rt, "link_socket"));
    let mut host = kept(&rt, real_host(rt, "no_folder"));
    dial(&rt, &mut host.host, "unix:link_socket");
    let (peer, _) = kept(&rt, listener.accept());
    talk(&rt, &mut host.host, peer);
    talk_to_none(&rt, &mut host.host);
    kept(&rt, fs::remove_file(&rt, "link_socket"));
}

// The standard input of a test is empty.
#[test]
fn a_link_over_the_standard_streams(rt: HostRuntime) {
    let mut host = kept(&rt, real_host(rt, "no_folder"));
    dial(&rt, &mut host.host, "std");
    hear_the_end(&rt, &mut host.host);
}

#[test]
fn nonces(rt: HostRuntime) {
    let mut host = kept(&rt, real_host(rt, "no_folder"));
    dial(&rt, &mut host.host, "std");
    differ(&rt, &mut host.host);
}

#[test]
fn a_peer_that_goes_in_the_middle(rt: HostRuntime) {
    let listener = kept(&rt, TcpListener::bind(&rt, "127.0.0.1:0"));
    let spec = spec_of(&rt, "tcp", &listener);
    let mut host = kept(&rt, real_host(rt, "no_folder"));
    dial(&rt, &mut host.host, spec.as_str());
    let (peer, _) = kept(&rt, listener.accept());
    break_off(&rt, &mut host.host, peer);
    talk_to_none(&rt, &mut host.host);
}

#[test]
fn a_peer_that_does_not_read(rt: HostRuntime) {
    let listener = kept(&rt, UnixListener::bind(&rt, "full_socket"));
    let bytes = kept(&rt, vec![in rt.alloc(); 7; 1_000_000]);
    let mut host = kept(&rt, real_host(rt, "no_folder"));
    dial(&rt, &mut host.host, "unix:full_socket");
    let (peer, _) = kept(&rt, listener.accept());
    stall(&rt, &mut host.host, bytes.as_slice(), peer);
    kept(&rt, fs::remove_file(&rt, "full_socket"));
}

static NO_LINKS: [&str; 20] = [
    "",
    "stdin",
    "std:",
    "udp:127.0.0.1:80",
    "tcp:",
    "unix:",
    "tcp:127.0.0.1",
    "tcp:127.0.0.1:",
    "tcp:127.0.0.1:0",
    "tcp:127.0.0.1:65536",
    "tcp:127.0.0.1:http",
    "listen:127.0.0.1",
    "listen:127.0.0.1:0",
    "tcp::80",
    "tcp:host.invalid:80",
    "listen:192.0.2.1:4000",
    "unix:no_socket",
    "unix:.",
    "unixlisten:.",
    "unixlisten:no_folder/socket",
];

#[test]
fn specs_that_name_no_link(rt: HostRuntime) {
    let long = kept(&rt, format!(in rt.alloc(); "unix:{:0>108}", 0));
    let mut host = kept(&rt, real_host(rt, "no_folder"));
    dial_none(&rt, &mut host.host, &NO_LINKS);
    dial_none(&rt, &mut host.host, &[long.as_str()]);
}

// The file of a listener that is gone stays as it is, and so does the port of one that is there.
#[test]
fn addresses_that_are_taken(rt: HostRuntime) {
    drop(kept(&rt, UnixListener::bind(&rt, "stale_socket")));
    let listener = kept(&rt, TcpListener::bind(&rt, "127.0.0.1:0"));
    let taken = spec_of(&rt, "listen", &listener);
    let refused = spec_of(&rt, "tcp", &listener);
    let mut host = kept(&rt, real_host(rt, "no_folder"));
    let specs = ["unixlisten:stale_socket", "unix:stale_socket"];
    dial_none(&rt, &mut host.host, &specs);
    kept(&rt, fs::remove_file(&rt, "stale_socket"));
    dial_none(&rt, &mut host.host, &[taken.as_str()]);
    drop(listener);
    dial_none(&rt, &mut host.host, &[refused.as_str()]);
}
