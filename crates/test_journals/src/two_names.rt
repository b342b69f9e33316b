// The names of two messages.
ghost use Rattle.std.specs.Prelude.{◌≡◌, ◌∷◌, [], true, IfOk, is_some};
ghost use Rattle.sync_rules.specs.Lists.{is_among};

use entry_codec::Names;
use std::marker::Model;
use sync_ids::MessageId;

// Two ids that are not equal. Contracts see the list of them.
#[derive(Debug, Drop)]
pub struct TwoNames {
    first: MessageId,
    second: MessageId,
}

// The ids are equal.
#[derive(Debug, Drop)]
pub struct EqualNames;

impl Model for TwoNames {
    ghost use Rattle.std.specs.Prelude.{◌≡◌, ◌∷◌, [], List, ℕ, false};
    ghost use Rattle.sync_rules.specs.Lists.{same_id};

    ghost Value = { List (List ℕ) };

    ghost view = { λ n. n.first ∷ n.second ∷ [] };

    ghost invariant = { λ n. same_id n.second n.first ≡ false };
}

impl TwoNames {
    pub fn new(first: MessageId, second: MessageId) -> Result<TwoNames, EqualNames>
        ensures { IfOk result (λ n. n ≡ first ∷ second ∷ []) }
    {
        if second == first {
            return Err(EqualNames);
        }
        Ok(TwoNames { first, second })
    }

    // The second id.
    #[tactic(auto, using(sync_rules::proofs::Elements::same_id_itself))]
    pub fn second(&self) -> MessageId
        ensures { is_among self.now result ≡ true }
    {
        self.second
    }
}

impl Names for TwoNames {
    ghost named = { λ n. n };

    fn number(&self, id: &MessageId) -> Option<u32> {
        if self.first == *id {
            return Some(0);
        }
        if self.second == *id {
            return Some(1);
        }
        None
    }

    fn name(&self, n: u32) -> Option<MessageId> {
        match n {
            0 => Some(self.first),
            1 => Some(self.second),
            _ => None,
        }
    }

    fn show_names(&self) {
        let _ = self.first.as_bytes();
        let _ = self.second.as_bytes();
    }
}
