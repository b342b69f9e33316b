// What the tests look at by, and what several of them begin with.
ghost use Rattle.std.specs.Prelude.{◌≡◌, ◌<◌, length, Ok};

use outside::{Failed, Heard, Host, MemDisk};
use std::fmt::Debug;
use std::process::Abort;

/// Both are the same.
pub(crate) fn same<T: PartialEq + Debug>(rt: &impl Abort, got: &T, wanted: &T) {
    assert!(rt; *got == *wanted, "{got:?}, and not {wanted:?}");
}

/// It is so.
pub(crate) fn holds(rt: &impl Abort, what: &str, is_so: bool) {
    assert!(rt; is_so, "not so: {what}");
}

/// What a call made, which did not fail.
pub(crate) fn kept<T, E: Debug + Drop>(rt: &impl Abort, made: Result<T, E>) -> T
    ensures { made ≡ Ok result }
{
    made.expect(rt, "a call")
}

/// A disk with these bytes in file 0.
pub(crate) fn disk_with<R: Abort + AllocGlobal>(rt: &R, bytes: &[u8]) -> MemDisk {
    let first = kept(rt, Vec::from_slice(rt.alloc(), bytes));
    kept(rt, MemDisk::new(rt.alloc(), first, Vec::new(rt.alloc())))
}

/// Link 0 answers so.
pub(crate) fn hear<H: Host>(rt: &impl Abort, host: &mut H, buf: &mut [u8], wanted: Heard)
    requires dialled { 0 < (H.tells host.old).links.dialled }
    requires room { 0 < length buf.old }
    ensures { (H.tells host.new).links.dialled ≡ (H.tells host.old).links.dialled }
{
    same(rt, &host.recv(0, buf), &wanted);
}

/// A send on link 0 answers so.
pub(crate) fn send<H: Host>(rt: &impl Abort, host: &mut H, bytes: &[u8], wanted: Result<(), Failed>)
    requires { 0 < (H.tells host.old).links.dialled }
    ensures { (H.tells host.new).links.dialled ≡ (H.tells host.old).links.dialled }
{
    same(rt, &host.send(0, bytes), &wanted);
}
