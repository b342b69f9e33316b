//! What a link is judged by: the versions that its other end speaks, and its nonce.
ghost use Rattle.std.specs.Prelude.{◌↔◌, ◌≡◌, ◌≢◌, [], Contains, IsTrue};
ghost use Rattle.session_core.specs.Links.{IsFirstGreatest};

use sync_ids::{Nonce, VersionList};

/// Whether the other end speaks the version of this node, which is 0.
pub fn versions_ok(list: &VersionList) -> bool
    ensures { IsTrue result ↔ Contains list.now 0 }
{
    list.has_zero()
}

/// The place of the first greatest nonce, compared by their bytes: that of the link which is kept
/// (this project's profile).
pub fn keep(nonces: &[Nonce]) -> usize
    requires { nonces.now ≢ [] }
    ensures { IsFirstGreatest nonces.now result }
{
    let mut kept = 0;
    for (place, nonce) in nonces.iter().enumerate() {
        if *nonce > nonces[kept] {
            kept = place;
        }
    }
    kept
}
