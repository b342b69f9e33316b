//! What the devices, groups and links of a world are called.
ghost use Rattle.std.specs.Prelude.{◌≡◌, ◌≢◌, option_copied, true};
ghost use Rattle.sync_rules.specs.Legal.{suits_nonce};
ghost use Rattle.world_laws.specs.Worlds as W;
ghost use Rattle.sync_world.specs.Naming.{IsMade, group_of, name_of, nonce_of};

use std::alloc::Global;
use sync_ids::{Fixed, GroupDef, Nonce};
use sync_rules::Mode;
use world_devices::StepFault;
use world_scripts::{FEED, NOTE, THREAD};

/// The contact that a device has for another one: there is one for each other device, in order.
pub(crate) fn contact_for(device: u8, other: u8) -> u8
    requires { other ≢ device }
    ensures { result ≡ W.contact_for device other }
{
    if other < device { other } else { other - 1 }
}

/// The definition of a group of this kind; it is refused where there is no such kind, or where the
/// descriptor is too long.
pub(crate) fn group_def(alloc: Global, kind: u8, descriptor: &str) -> Result<GroupDef, StepFault>
    ensures { IsMade (group_of kind descriptor.now) result }
{
    let Some(name) = client_name(kind) else {
        return Err(StepFault::Refused);
    };
    let name = String::from_str(alloc, name)?;
    let descriptor = Vec::from_slice(alloc, descriptor.as_bytes())?;
    match GroupDef::new(name, 0, descriptor) {
        Ok(def) => Ok(def),
        Err(_) => Err(StepFault::Refused),
    }
}

// The name of the client of a kind.
fn client_name(kind: u8) -> Option<&'static str>
    ensures { option_copied result ≡ name_of kind }
{
    match kind {
        NOTE => Some("note"),
        THREAD => Some("thread"),
        FEED => Some("feed"),
        _ => None,
    }
}

/// The nonce of the session that dials the link of this number, where it has one: the number plus
/// one.
pub(crate) fn nonce_for(mode: Mode, link: usize) -> Option<Nonce>
    ensures suits { suits_nonce mode result ≡ true }
    ensures value { result ≡ nonce_of mode link }
{
    match mode {
        Mode::Interactive => Some(Fixed((link as u128 + 1).to_be_bytes())),
        Mode::Batch => None,
    }
}
