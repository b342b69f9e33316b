//! Laws for those who drive a journal batch by batch: what goes on, which steps there are, what a
//! batch adds to a session's output, and what each entry of a legal journal meets. Each is the
//! contract of a function that does nothing, over every journal and over every meaning of the
//! clients; most are of facts, so that they serve where the journal is not known. The lemmas of
//! `proofs/` that prove them may be cited as well.
ghost use Rattle.std.specs.Prelude.{◌≡◌, ℕ, ◌≤◌, true, List, [], ◌∷◌, ◌++◌, length, Option, Some};
ghost use Rattle.std.specs.Prelude.{None};
ghost use Rattle.std.specs.List.{AllByRecursion, list_all};
ghost use Rattle.sync_ids.specs.Records.{IsRecord};
ghost use Rattle.sync_rules.specs.Clients.{Meaning};
ghost use Rattle.sync_rules.specs.Consistency.{HasHeld, HasWanted, IsConsistent};
ghost use Rattle.sync_rules.specs.Facts.{after, after_all, after_batches, contact_in};
ghost use Rattle.sync_rules.specs.Facts.{entries_of, ExtendsJournal, Facts, facts, nothing, session_at};
ghost use Rattle.sync_rules.specs.Facts.{takes_of};
ghost use Rattle.sync_rules.specs.Growth.{ContinuesFacts, HasSameSteps, is_silent, IsStepOf};
ghost use Rattle.sync_rules.specs.Growth.{leaves_steps, OnlySettles, output_in, output_of};
ghost use Rattle.sync_rules.specs.Growth.{TakesOne};
ghost use Rattle.sync_rules.specs.Heard.{HeldByRecords, SeenByRecords};
ghost use Rattle.sync_rules.specs.Hearing.{SettlesJournal};
ghost use Rattle.sync_rules.specs.Knowing.{CountsEnds, DeliversInOrder, GroupsLeaveSettled};
ghost use Rattle.sync_rules.specs.Knowing.{KnowsGroups, NamesHeld};
ghost use Rattle.sync_rules.specs.Laws.{IsKeptBy};
ghost use Rattle.sync_rules.specs.Legal.{Allowed, AllSettling, GoesOn, IsDue, IsSettling};
ghost use Rattle.sync_rules.specs.Legal.{IsSettlingBatch, Legal};
ghost use Rattle.sync_rules.specs.Meeting.{AllMeet, EachMeets};
ghost use Rattle.sync_rules.specs.Naming.{BringsWithin, HasLimits, NamesDistinct};
ghost use Rattle.sync_rules.specs.Output.{first_records, out_records, sent};
ghost use Rattle.sync_rules.specs.Rounds.{bad, good, Graph};
ghost use Rattle.sync_rules.specs.Sessions.{due};
ghost use Rattle.sync_rules.specs.Steps.{IsSettled, next};
ghost use Rattle.sync_rules.specs.declared.entries.Entry.{Entry};
ghost use Rattle.sync_rules.specs.declared.entries.Entry.TheVariants as entry;
ghost use Rattle.sync_rules.specs.declared.entries.Out.{Out};
ghost use Rattle.sync_rules.specs.declared.entries.Session.{Session};

use sync_ids::message_ids_are_whole;

/// Continues: the facts behind more entries or more batches, and those of a longer journal, go on
/// from the facts before. Lists go on, counts never fall, and what is known stays as it is. It
/// holds of all entries, legal or not.
pub fn continues()
    ensures one { (f : Facts) (e : Entry) → ContinuesFacts f (after f e) }
    ensures entries { (f : Facts) (es : List Entry) → ContinuesFacts f (after_all f es) }
    ensures batches { (f : Facts) (bs : List (List Entry)) → ContinuesFacts f (after_batches f bs) }
    ensures journals { (j before : List (List Entry)) → ExtendsJournal j before
        → ContinuesFacts (facts before) (facts j) }
    ensures joined { (f g h : Facts) → ContinuesFacts f g → ContinuesFacts g h → ContinuesFacts f h }
{}

/// Extends: a journal extends itself and what it extends in two steps; its facts are those behind
/// the new batches, batch by batch or entry by entry.
pub fn extends()
    ensures itself { (j : List (List Entry)) → ExtendsJournal j j }
    ensures joined { (j mid before : List (List Entry)) → ExtendsJournal j mid → ExtendsJournal mid before
        → ExtendsJournal j before }
    ensures push { (j : List (List Entry)) (b : List Entry)
        → facts (j ++ b ∷ []) ≡ after_all (facts j) b }
    ensures append { (j more : List (List Entry))
        → facts (j ++ more) ≡ after_batches (facts j) more }
    ensures by_entries { (f : Facts) (bs : List (List Entry))
        → after_batches f bs ≡ after_all f (entries_of bs) }
{}

/// Legal: a legal journal and batches that may follow it are a legal journal, and the front and
/// the rest of one are so. Settling batches may follow.
pub fn legal()
    ensures push { (clients : Meaning) (j : List (List Entry)) (b : List Entry) → Legal clients j
        → Allowed clients (facts j) b → Legal clients (j ++ b ∷ []) }
    ensures append { (clients : Meaning) (j more : List (List Entry)) → Legal clients j
        → GoesOn clients (facts j) more → Legal clients (j ++ more) }
    ensures front { (clients : Meaning) (j more : List (List Entry)) → Legal clients (j ++ more)
        → Legal clients j }
    ensures rest { (clients : Meaning) (j more : List (List Entry)) → Legal clients (j ++ more)
        → GoesOn clients (facts j) more }
    ensures settling { (clients : Meaning) (f : Facts) (b : List Entry)
        → IsSettlingBatch clients f b → Allowed clients f b }
    ensures all_settling { (clients : Meaning) (f : Facts) (bs : List (List Entry))
        → AllSettling clients f bs → GoesOn clients f bs }
    ensures settles { (clients : Meaning) (old new : List (List Entry)) → SettlesJournal clients old new
        → Legal clients old → Legal clients new }
{}

/// Steps: the next step judges, delivers or refuses a message that is held. It depends on groups,
/// held messages and their ends alone, so that a settled journal stays settled behind entries that
/// leave these, as an output, a session that begins, and a record that brings no message.
pub fn steps()
    ensures kinds { (clients : Meaning) (f : Facts) (e : Entry) → next clients f ≡ Some e
        → IsStepOf f e }
    ensures same { (clients : Meaning) (f later : Facts) → HasSameSteps f later
        → next clients later ≡ next clients f }
    ensures settled { (clients : Meaning) (f : Facts) (es : List Entry)
        → list_all leaves_steps es ≡ true → IsSettled clients f
        → IsSettled clients (after_all f es) }
{}

/// Groups: in a legal journal the group of each held message is known, and where it is so a group
/// that is added leaves a settled journal settled.
pub fn groups()
    ensures known { (clients : Meaning) (j : List (List Entry)) → Legal clients j
        → KnowsGroups (facts j) }
    ensures settled { GroupsLeaveSettled }
{}

/// Settling leaves all but what is judged, delivered and invalid.
pub fn settling_leaves()
    ensures entries { (clients : Meaning) (f : Facts) (es : List Entry) → IsSettling clients f es
        → OnlySettles f (after_all f es) }
    ensures batches { (clients : Meaning) (f : Facts) (bs : List (List Entry))
        → AllSettling clients f bs → OnlySettles f (after_batches f bs) }
    ensures journals { (clients : Meaning) (old new : List (List Entry)) → SettlesJournal clients old new
        → OnlySettles (facts old) (facts new) }
{}

/// A record that is taken counts one more on its session and none on another.
pub fn take_counts()
    ensures { (clients : Meaning) (f : Facts) (session k : ℕ) (rest : List Entry)
        → Allowed clients f (entry.Take session k ∷ rest)
        → TakesOne f (after_all f (entry.Take session k ∷ rest)) session }
{}

/// Records: what a contact has and what is held once a record is taken, each in one equation over
/// the facts before. They hold of all facts, legal or not.
pub fn records()
    ensures seen { SeenByRecords }
    ensures held { HeldByRecords }
{}

/// Names: a batch that may follow names only messages that are held before it, but for those that
/// it brings, offers or requests.
pub fn names()
    ensures { (clients : Meaning) (f : Facts) (b : List Entry) → Allowed clients f b → NamesHeld f b }
{}

/// Served: in a legal journal the dependencies of each delivered message stand before it among the
/// delivered.
pub fn served()
    ensures { (clients : Meaning) (j : List (List Entry)) → Legal clients j
        → DeliversInOrder clients (facts j) }
{}

/// Counts: in a legal and settled journal as many held messages are good as are delivered, and as
/// many are bad as are invalid.
pub fn counts()
    ensures { (clients : Meaning) (j : List (List Entry)) → Legal clients j
        → IsSettled clients (facts j) → CountsEnds clients (facts j) }
{}

/// Rounds: the good and the bad messages only grow from round to round, and where a journal is
/// extended.
pub fn rounds()
    ensures good { (g : Graph) (k l : ℕ) (id : List ℕ) → k ≤ l → good g k id ≡ true
        → good g l id ≡ true }
    ensures bad { (g : Graph) (k l : ℕ) (id : List ℕ) → k ≤ l → bad g k id ≡ true
        → bad g l id ≡ true }
    ensures journals { (clients : Meaning) (j before : List (List Entry)) → ExtendsJournal j before
        → Legal clients j → IsKeptBy clients (facts before) (facts j) }
{}

/// Sent: what each batch of a legal journal adds to the output of a session, exactly: the session's
/// beginning where it begins, one record for each of its outputs in order, and nothing else.
pub fn sent_adds()
    ensures whole { (clients : Meaning) (j : List (List Entry)) (session : ℕ) → Legal clients j
        → sent j session ≡ output_of nothing session j }
    ensures append { (clients : Meaning) (j more : List (List Entry)) (session : ℕ)
        → Legal clients (j ++ more)
        → sent (j ++ more) session ≡ sent j session ++ output_of (facts j) session more }
    ensures push { (clients : Meaning) (j : List (List Entry)) (b : List Entry) (session : ℕ)
        → Legal clients j → Allowed clients (facts j) b
        → sent (j ++ b ∷ []) session ≡ sent j session ++ output_in (facts j) session b }
    ensures begins { (clients : Meaning) (j : List (List Entry)) (s : Session) → Legal clients j
        → Allowed clients (facts j) (entry.Session s ∷ [])
        → sent (j ++ (entry.Session s ∷ []) ∷ []) s.number ≡ first_records s }
    ensures silent { (f : Facts) (session : ℕ) (es : List Entry) → list_all is_silent es ≡ true
        → output_in f session es ≡ [] }
    ensures settling { (clients : Meaning) (f : Facts) (es : List Entry) → IsSettling clients f es
        → list_all is_silent es ≡ true }
    ensures take { (clients : Meaning) (f : Facts) (session k : ℕ) (rest : List Entry)
        → Allowed clients f (entry.Take session k ∷ rest)
        → list_all is_silent (entry.Take session k ∷ rest) ≡ true }
    ensures one { (f : Facts) (contact : ℕ) (what : Out) → NamesDistinct f contact what
        → length (out_records f.held what) ≡ 1 }
{}

/// A session that has not begun has taken and sent nothing.
pub fn not_begun()
    ensures { (clients : Meaning) (j : List (List Entry)) (session : ℕ) → Legal clients j
        → session_at (facts j).sessions session ≡ None
        → (takes_of (facts j).takes session ≡ 0) × (sent j session ≡ []) }
{}

/// Meets: what each entry of an allowed batch, and of a legal journal at its place, meets.
pub fn meets()
    ensures batch { (clients : Meaning) (f : Facts) (b : List Entry) → Allowed clients f b
        → AllMeet clients f b }
    ensures journal { (clients : Meaning) (j : List (List Entry)) → Legal clients j
        → EachMeets clients j }
{}

/// Consistent: the facts of a legal journal fit together.
pub fn consistent()
    ensures { (clients : Meaning) (j : List (List Entry)) → Legal clients j
        → IsConsistent (facts j) }
{}

/// Due: what is due by the meaning of the clients is allowed where no step is open. It names 1 to
/// `MAX_IDS` distinct ids, or one, of messages that are held, or ids that are wanted from the
/// contact.
pub fn due_is_allowed()
    ensures allowed { (clients : Meaning) (f : Facts) (session now : ℕ) (s : Session) (what : Out)
        → session_at f.sessions session ≡ Some s → IsSettled clients f
        → due clients f s now ≡ Some what → Allowed clients f (entry.Out session now what ∷ []) }
    ensures names { (clients : Meaning) (f : Facts) (o : Option Session) (now : ℕ) (what : Out)
        → HasHeld f → HasWanted f → IsDue clients f o now what
        → NamesDistinct f (contact_in o) what }
{}

/// Limits: where what entries bring is within its limits, so are the facts, the record of each
/// output, and all that a session sends.
pub fn limits()
    ensures entries { (f : Facts) (es : List Entry) → AllByRecursion BringsWithin es → HasLimits f
        → HasLimits (after_all f es) }
    ensures journal { (j : List (List Entry)) → AllByRecursion BringsWithin (entries_of j)
        → HasLimits (facts j) }
    ensures records { (f : Facts) (contact : ℕ) (what : Out) → HasHeld f → HasLimits f
        → NamesDistinct f contact what → AllByRecursion IsRecord (out_records f.held what) }
    ensures sends { (clients : Meaning) (j : List (List Entry)) (session : ℕ) → Legal clients j
        → AllByRecursion BringsWithin (entries_of j) → AllByRecursion IsRecord (sent j session) }
{
    message_ids_are_whole();
}
