//! The names of held messages, by which batches are read.
ghost use Rattle.std.specs.Prelude.{◌≡◌, IfOk};
ghost use Rattle.entry_codec.specs.Naming.{AreNames};
ghost use Rattle.entry_codec.specs.Payloads.{batch_in, names_of};
ghost use Rattle.journal_audit.specs.Plain.{facts_of};

use crate::facts::PlainFacts;
use entry_codec::{Format, Names, read_batch};
use std::alloc::{AllocError, Global};
use std::marker::Model;
use sync_ids::MessageId;
use sync_rules::Batch;

// The messages that are held, each named by its arrival number. Contracts see the facts.
#[derive(Drop)]
struct HeldNames<'a> {
    facts: &'a PlainFacts,
}

impl<'a> Model for HeldNames<'a> {
    ghost use Rattle.entry_codec.specs.Naming.{AreNames};
    ghost use Rattle.entry_codec.specs.Payloads.{names_of};
    ghost use Rattle.journal_audit.specs.Plain.{facts_of};
    ghost use Rattle.journal_audit.specs.declared.facts.PlainFacts.{PlainFacts};
    ghost use Rattle.journal_audit.specs.contracts.facts.PlainFacts as plain_facts;

    ghost Value = { PlainFacts };

    ghost coded = { plain_facts.the_row.coded };

    ghost view = { λ n. n.facts.now };

    ghost invariant = { λ n. AreNames (names_of (facts_of n.facts.now)) };
}

impl<'a> HeldNames<'a> {
    // The names that these facts have.
    fn of(facts: &'a PlainFacts) -> HeldNames<'a>
        requires { AreNames (names_of (facts_of facts.now)) }
        ensures { result ≡ facts.now }
    {
        HeldNames { facts }
    }
}

impl<'a> Names for HeldNames<'a> {
    ghost use Rattle.entry_codec.specs.Payloads.{names_of};
    ghost use Rattle.journal_audit.specs.Plain.{facts_of};

    ghost named = { λ p. names_of (facts_of p) };

    fn number(&self, id: &MessageId) -> Option<u32> {
        self.facts.messages.find(id)
    }

    fn name(&self, n: u32) -> Option<MessageId> {
        Some(self.facts.messages.get(n)?.id)
    }

    fn show_names(&self) {
        let _facts = self.facts;
    }
}

/// The batch of a payload in this format, behind a journal of these facts.
pub(crate) fn read_payload(
    facts: &PlainFacts,
    alloc: Global,
    format: Format,
    payload: &[u8],
) -> Result<Option<Batch>, AllocError>
    requires { AreNames (names_of (facts_of facts.now)) }
    ensures { IfOk result (λ read. read ≡ batch_in format (names_of (facts_of facts.now))
        payload.now) }
{
    read_batch(alloc, format, &HeldNames::of(facts), payload)
}
