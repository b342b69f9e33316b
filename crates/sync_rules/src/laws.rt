//! The laws of legal journals. Each is the contract of a function that does nothing, over every
//! journal and over every meaning of the clients.
ghost use Rattle.std.specs.Prelude.{◌≡◌, ℕ, List, true};
ghost use Rattle.sync_rules.specs.Allows.{AllowsIsAllowed};
ghost use Rattle.sync_rules.specs.Clients.{Meaning};
ghost use Rattle.sync_rules.specs.CountLaws.{EntriesKeepBegun, EntryKeepsBegun, JournalsCountBegun};
ghost use Rattle.sync_rules.specs.CountLaws.{LeftIsBounded, StepLowersLeft};
ghost use Rattle.sync_rules.specs.CountLaws.{StepsLowerLeft};
ghost use Rattle.sync_rules.specs.Facts.{ExtendsJournal, entries_of, facts};
ghost use Rattle.sync_rules.specs.Laws.{BringsOnce, DecidesStates, EndsOnce, HasOrigin, HasOwnOrigin};
ghost use Rattle.sync_rules.specs.Laws.{IsInOrder, IsKeptBy, JudgesOnce};
ghost use Rattle.sync_rules.specs.Legal.{Legal};
ghost use Rattle.sync_rules.specs.Output.{GoesOnFrom, sent, SendsTheOpen};
ghost use Rattle.sync_rules.specs.PeerLaws.{AskedLaw, CutLaw, ExpiryLaw, NoExpiryLaw, OwedLaw};
ghost use Rattle.sync_rules.specs.PeerLaws.{SeenLaw, TriesLaw, WantedLaw};
ghost use Rattle.sync_rules.specs.Rounds.{bad, good, Graph};
ghost use Rattle.sync_rules.specs.SoonerLaws.{NotSoonerStays, SoonerComesLast, SoonerLowersExpiry};
ghost use Rattle.sync_rules.specs.SoonerLaws.{SoonerTriesAreFew, TriedIsNotSooner};
ghost use Rattle.sync_rules.specs.Steps.{IsSettled};
ghost use Rattle.sync_rules.specs.Views.{KnowsShown};
ghost use Rattle.sync_rules.specs.declared.entries.Entry.{Entry};

use sync_ids::message_ids_are_whole;

/// Once: in a legal journal each id has at most one Author, Arrive or Kept entry, at most one Judged
/// entry, and at most one of Deliver and Invalid.
pub fn once()
    ensures brings { (clients : Meaning) (j : List (List Entry)) → Legal clients j → BringsOnce j }
    ensures judges { (clients : Meaning) (j : List (List Entry)) → Legal clients j → JudgesOnce j }
    ensures ends { (clients : Meaning) (j : List (List Entry)) → Legal clients j → EndsOnce j }
{}

/// Order: in a legal journal each Deliver entry stands after the message's Judged entry, the
/// verdict is Accept, and the Deliver entry of each dependency stands before it, all of the same
/// group.
pub fn order()
    ensures { (clients : Meaning) (j : List (List Entry)) → Legal clients j → IsInOrder clients j }
{}

/// Origin: in a legal journal each held message stands in an Author entry, in an Arrive entry of a
/// session whose contact had a level other than Invisible for the message's group at that place, or
/// in a Kept entry with its origin.
pub fn origin()
    ensures { (clients : Meaning) (j : List (List Entry)) → Legal clients j → HasOwnOrigin j }
{}

/// The settled law: in a legal and settled journal a held message is Delivered exactly where it is
/// good, Invalid exactly where it is bad, and otherwise Pending. No message is good and bad, and
/// both only grow where a journal is extended.
pub fn settled()
    ensures decided { (clients : Meaning) (j : List (List Entry)) → Legal clients j
        → IsSettled clients (facts j) → DecidesStates clients (facts j) }
    ensures apart { (g : Graph) (k l : ℕ) (id : List ℕ) → good g k id ≡ true → bad g l id ≡ true
        → ⊥ }
    ensures grow { (clients : Meaning) (j before : List (List Entry)) → ExtendsJournal j before
        → Legal clients j → IsKeptBy clients (facts before) (facts j) }
{}

/// Prefix: each prefix of a legal journal is legal.
pub fn prefix()
    ensures { (clients : Meaning) (j before : List (List Entry)) → ExtendsJournal j before
        → Legal clients j → Legal clients before }
{}

/// Output: in a legal journal each id that an output acknowledges is held, and each id that it
/// sends or offers is Delivered and in a group Shared with the session's contact at that place.
pub fn output()
    ensures { (clients : Meaning) (j : List (List Entry)) → Legal clients j → SendsTheOpen j }
{}

/// Sent: the list of the records that a session sends only grows where a legal journal extends
/// another.
pub fn sent_grows()
    ensures { (clients : Meaning) (j before : List (List Entry)) (session : ℕ) → ExtendsJournal j before
        → Legal clients j
        → GoesOnFrom (sent j session) (sent before session) }
{}

/// Shown: in a legal journal each group that is not Invisible to some contact is known.
pub fn shown()
    ensures { (clients : Meaning) (j : List (List Entry)) → Legal clients j → KnowsShown (facts j) }
{}

/// Seen: a contact has a message exactly where there is an Arrive, Again or Seen entry of it on a
/// session with the contact, or a Tried entry of the pair that says so. This law and the next five
/// hold over every list of batches, legal or not.
pub fn seen()
    ensures { (j : List (List Entry)) → SeenLaw (entries_of j) }
{}

/// Owed: an acknowledgement is owed exactly where the last entry among the message's Arrive and
/// Again entries on sessions with the contact, the Out entries to it whose Acks name the message,
/// and the Tried entries of the pair is an Arrive, an Again, or a Tried that says so.
pub fn owed()
    ensures { (j : List (List Entry)) → OwedLaw (entries_of j) }
{}

/// Wanted: an id is wanted from a contact exactly where it is not held and the last entry among its
/// Offered entries on sessions with the contact, its Want entries for the contact, and the Out
/// entries to it whose Requests name it is an Offered or a Want.
pub fn wanted()
    ensures { (j : List (List Entry)) → WantedLaw (entries_of j) }
{}

/// Asked: a contact asks for a message exactly where the last entry among the message's Asked
/// entries on sessions with the contact, the Out entries that send it the message, and the Tried
/// entries of the pair is an Asked, or a Tried that says so.
pub fn asked()
    ensures { (j : List (List Entry)) → AskedLaw (entries_of j) }
{}

/// Tries: the number of Out entries to the contact that send or offer the message, after the last
/// Asked or Tried entry of the pair or of all where there is none, and the tries that this Tried
/// states, cut at 64. There is always such a place behind the last Asked or Tried entry.
pub fn tries()
    ensures count { (j : List (List Entry)) → TriesLaw (entries_of j) }
    ensures cut { (j : List (List Entry)) → CutLaw (entries_of j) }
{}

/// Expiry: where no Out entry counts for tries, what the last Tried entry states, and else 0; and
/// otherwise by the last Out entry that counts, its time, the latency of its session and the tries.
pub fn expiry()
    ensures none { (j : List (List Entry)) → NoExpiryLaw (entries_of j) }
    ensures last { (j : List (List Entry)) → ExpiryLaw (entries_of j) }
{}

/// Sooner: what is due whatever the latency of its session is due before all that goes again before
/// its time. Behind a sooner try the expiry is less than before; behind any try the message is not
/// sooner at that moment for the same latency or a longer one, and what is not sooner stays so as
/// time goes on. So as long as the clock stands, a session tries a message at most once more until
/// it is asked for; and until then at most 62 tries are sooner ones, whatever the clock does.
pub fn sooner()
    ensures last { SoonerComesLast }
    ensures lower { SoonerLowersExpiry }
    ensures once { TriedIsNotSooner }
    ensures ends { NotSoonerStays }
    ensures few { SoonerTriesAreFew }
{}

/// Begun: in every list of batches, legal or not, no more sessions are in the list than have begun.
/// Where the two numbers are the same, they stay so behind entries that begin no brief account.
pub fn begun()
    ensures entry { EntryKeepsBegun }
    ensures entries { EntriesKeepBegun }
    ensures journals { JournalsCountBegun }
{}

/// Left: in any facts the next step leaves one step fewer, so steps one after the other leave as
/// many fewer; and there are at most two for each held message.
pub fn left()
    ensures step { StepLowersLeft }
    ensures steps { StepsLowerLeft }
    ensures bounded { LeftIsBounded }
{}

/// Allows: the test of a batch says yes exactly where the batch may follow a journal of these
/// facts.
pub fn allows_is_allowed()
    ensures { AllowsIsAllowed }
{
    message_ids_are_whole();
}
