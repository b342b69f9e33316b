//! The law of what is printed.
ghost use Rattle.std.specs.Prelude.{◌≡◌, ℕ, List, Some};
ghost use Rattle.sync_ids.specs.Ids.{group_id_of};
ghost use Rattle.sync_ids.specs.Values.{GroupValue};
ghost use Rattle.sync_ids.specs.declared.records.Record.{Record};
ghost use Rattle.sync_rules.specs.Clients.{Meaning};
ghost use Rattle.sync_rules.specs.Steps.{kind_of_def};
ghost use Rattle.journal_play.specs.Fates.{SaysFates};
ghost use Rattle.journal_play.specs.Playing.{IsTextOf};

/// The text of a journal that took records says the state of each message that they bring to its
/// group, and says it once: it is delivered exactly where it is good, invalid exactly where it is
/// bad, and else it waits.
pub fn play_says()
    ensures { (clients : Meaning) (kind : ℕ) (def : GroupValue) (records : List Record)
        (text : List ℕ)
        → kind_of_def clients def ≡ Some kind → IsTextOf clients def records text
        → SaysFates clients kind (group_id_of def) records text }
{}
