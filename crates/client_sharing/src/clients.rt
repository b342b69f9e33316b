//! The bundled clients with the client of `sharing` groups.
ghost use Rattle.std.specs.Prelude.{◌≡◌};
ghost use Rattle.client_sharing.specs.Bodies.{sharing_meaning};

use crate::bodies::judge_saying;
use client_basic::Bundle;
use std::alloc::{AllocError, Global};
use sync_ids::Message;
use sync_rules::{Clients, Judgement};

const SHARING: u8 = 3;

/// The three clients of `Bundle`, kinds 0 to 2, and the client of `sharing` groups, kind 3, whose
/// groups have the name `sharing` and major version 0: a body is a byte 1 to join or 2 to leave, the
/// previous id of 32 bytes or 32 zero bytes, and the definition of the group that is spoken of, as
/// in a journal. A `sharing` message is passed on by its author alone. Any other kind refuses every
/// message.
#[derive(Clone, Copy, Debug)]
pub struct SharingBundle;

impl SharingBundle {
    /// The four clients: what they mean is `sharing_meaning`.
    pub fn new() -> SharingBundle
        ensures { ⟦<SharingBundle as Clients>⟧.meaning result ≡ sharing_meaning }
    {
        SharingBundle
    }
}

impl Clients for SharingBundle {
    ghost meaning = { λ _. sharing_meaning };

    fn kind_of(&self, name: &str, major: u32) -> Option<u8> {
        if major == 0 && name == "sharing" {
            Some(SHARING)
        } else {
            Bundle::new().kind_of(name, major)
        }
    }

    fn judge(&self, alloc: Global, kind: u8, message: &Message) -> Result<Judgement, AllocError> {
        if kind == SHARING {
            judge_saying(alloc, message.body())
        } else {
            Bundle::new().judge(alloc, kind, message)
        }
    }
}
