// Links are dialled before anything is committed.
ghost use Rattle.std.specs.Prelude.{◌≡◌, ◌<◌, ◌≤◌, [], length, vec_capacity, is_some, IfOk};
ghost use Rattle.outside.specs.declared.limits.TheConstants.{LINKS};
ghost use Rattle.sync_words.specs.Links.{has_nonce};
ghost use Rattle.sync_run.specs.Dialling.{DialsOnly, DialsAll, MakesOne, PassesTime};

use outside::{Failed, Host};
use sync_ids::{Fixed, Nonce};
use sync_node::Plan;
use sync_words::LinkWords;

/// A link that was dialled: what is to run on it, and its nonce, where it has one.
#[derive(Clone, Copy, Debug, PartialEq, Eq)]
pub struct Dialled {
    /// What is to run on it.
    pub plan: Plan,
    /// The nonce by which it may be kept.
    pub nonce: Option<Nonce>,
}

/// Dials the links of these words and draws their nonces, link by link in order, and adds each link
/// that has both behind the others. At the first call that fails it stops.
pub fn dial_all<H: Host>(
    host: &mut H,
    links: &[LinkWords],
    to: &mut Vec<Dialled>,
) -> Result<(), Failed>
    requires unused { (H.tells host.old).links.dialled ≡ 0 }
    requires few { length links.now ≤ LINKS }
    requires empty { to.old.items ≡ [] }
    requires room { length links.now ≤ vec_capacity to.old }
    ensures dials { DialsAll links.now to.new.items result (H.tells host.old)
        (H.tells host.new) }
    ensures calms { DialsOnly (H.tells host.old) (H.tells host.new) }
{
    'links: for words in links {
        let nonce = dial_one(host, words)?;
        let plan = Plan {
            contact: words.contact,
            mode: words.mode,
            latency: words.latency,
        };
        to.push(Dialled { plan, nonce }).unwrap();
    }
    Ok(())
}

// Makes the link of these words, and draws its nonce where its session has one. A link whose nonce
// could not be drawn is hung up.
fn dial_one<H: Host>(host: &mut H, words: &LinkWords) -> Result<Option<Nonce>, Failed>
    requires { (H.tells host.old).links.dialled < LINKS }
    ensures nonce { IfOk result (λ nonce. is_some nonce ≡ has_nonce words.now) }
    ensures makes { MakesOne words.now result (H.tells host.old).links (H.tells host.new).links }
    ensures calms { DialsOnly (H.tells host.old) (H.tells host.new) }
{
    let link = host.dial(words.spec.as_str())?;
    if !words.has_nonce() {
        return Ok(None);
    }
    match host.nonce(link) {
        Ok(bytes) => Ok(Some(Fixed(bytes))),
        Err(failed) => {
            host.hang_up(link);
            Err(failed)
        }
    }
}

/// Ends the links on this side, so many from the first on.
pub fn hang_up_all<H: Host>(host: &mut H, count: usize)
    requires few { count ≤ LINKS }
    requires dialled { count ≤ (H.tells host.old).links.dialled }
    ensures { PassesTime (H.tells host.old) (H.tells host.new) }
{
    'links: for link in 0..count {
        host.hang_up(link as u8);
    }
}
