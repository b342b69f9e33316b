//! A client whose messages wait for one another.

use anyhow::{Context, Result};
use std::alloc::{AllocError, Global};
use sync_ids::{Message, MessageId};
use sync_rules::{Clients, DepList, Judgement};

/// A client of every group: a message of time 1 depends on the second of two ids, any other one on
/// the first.
#[derive(Clone, Copy)]
pub(crate) struct Crossed {
    first: MessageId,
    second: MessageId,
}

impl Crossed {
    /// The client of these ids, with a single space between them.
    pub(crate) fn of(digits: &str) -> Result<Crossed> {
        let (first, second) = digits.split_once(' ').context("one id")?;
        Ok(Crossed {
            first: MessageId::from_hex(first)?,
            second: MessageId::from_hex(second)?,
        })
    }
}

impl Clients for Crossed {
    ghost use Rattle.std.specs.Prelude.{true, [], ◌∷◌, ◌==◌, if◌then◌else◌, Some};
    ghost use Rattle.sync_rules.specs.declared.answers.Judgement.TheVariants as judgement;

    ghost meaning = { λ c. record {
      kind_of = λ name major. Some 0;
      verdict = λ kind m. judgement.Accept ((if m.timestamp == 1 then c.second else c.first) ∷ [])
          true;
    } };

    fn kind_of(&self, _name: &str, _major: u32) -> Option<u8> {
        Some(0)
    }

    fn judge(&self, alloc: Global, _kind: u8, message: &Message) -> Result<Judgement, AllocError> {
        let other = if message.timestamp() == 1 {
            self.second
        } else {
            self.first
        };
        let mut ids = Vec::new(alloc);
        ids.push(other)?;
        match DepList::new(ids) {
            Ok(deps) => Ok(Judgement::Accept { deps, share: true }),
            Err(_) => unreachable!(),
        }
    }
}
