//! The laws of paths and courses. Each is the contract of a function that does nothing, over every
//! meaning of the clients. The lemmas of `proofs/` that prove them may be cited as well.
ghost use Rattle.std.specs.Prelude.{◌≡◌, ◌≢◌, ℕ, suc, ◌+◌, ◌<◌, ◌≤◌, cond, false, true, List, [], ◌∷◌};
ghost use Rattle.std.specs.Prelude.{◌++◌, length, slice_get, slice_set, Some};
ghost use Rattle.record_grammar.specs.Stream.{items};
ghost use Rattle.sync_rules.specs.Clients.{Meaning};
ghost use Rattle.sync_rules.specs.Facts.{after_all, after_batches, Facts, facts, session_at};
ghost use Rattle.sync_rules.specs.Growth.{output_in, output_of};
ghost use Rattle.sync_rules.specs.Legal.{Allowed, GoesOn, Legal};
ghost use Rattle.sync_rules.specs.Output.{sent};
ghost use Rattle.sync_rules.specs.Steps.{IsSettled};
ghost use Rattle.sync_rules.specs.declared.entries.Entry.{Entry};
ghost use Rattle.sync_rules.specs.declared.entries.Entry.TheVariants as entry;
ghost use Rattle.sync_rules.specs.declared.entries.Out.{Out};
ghost use Rattle.sync_rules.specs.declared.entries.Session.{Session};
ghost use Rattle.outside.specs.Outside.{Moment};
ghost use Rattle.sync_course.specs.Acts.{Act, AtFront, batches_in};
ghost use Rattle.sync_course.specs.Events.{batches_of, Commit, Event, has_failure};
ghost use Rattle.sync_course.specs.Closing.{closing};
ghost use Rattle.sync_course.specs.Idle.{idle_end, idle_run};
ghost use Rattle.sync_course.specs.Redundant.{closed_upto, KeptRather};
ghost use Rattle.sync_course.specs.Links.{is_beaten, Link, new_items, without_redundant};
ghost use Rattle.sync_course.specs.LinkTurns.{IsNothingDue, LinkStep, out_batch, Spot};
ghost use Rattle.sync_course.specs.DueOutputs.{OutIsDue};
ghost use Rattle.sync_course.specs.Paths.{Path};
ghost use Rattle.sync_course.specs.Quiet.{EndsQuiet};
ghost use Rattle.sync_course.specs.Pending.{pending_at};
ghost use Rattle.sync_course.specs.Suits.{AllSuitCourse, heard_at_place, IsCounted};
ghost use Rattle.sync_course.specs.Turns.{Broken, Course, first_place, is_over, Place};
ghost use Rattle.sync_course.specs.Turns.{RunStep, Terms, with_spot};
ghost use Rattle.sync_course.specs.Free.{first_free, forget, Free, FreeStep, owing_free};
ghost use Rattle.sync_course.specs.Owing.{ActStep, Owing, OwesNothing};
ghost use Rattle.sync_course.specs.Story.{AllIsSent, AllSuitPlanned, begun_by, FreeActs};
ghost use Rattle.sync_course.specs.Story.{heard_at, LinkFailed, MomentStands};

use crate::ends::LinkEnd;
use record_grammar::{fronts_have_fronts, records_join, streams_go_on};

/// Paths: what leads from one place to another and on to a third leads from the first to the third,
/// one step more at the end too; and a path of two parts leads through a place between them.
pub fn paths_join()
    ensures links { (clients : Meaning) (n session : ℕ) (p q r : Spot) (es fs : List Event)
        → Path (LinkStep clients n session) p es q → Path (LinkStep clients n session) q fs r
        → Path (LinkStep clients n session) p (es ++ fs) r }
    ensures runs { (clients : Meaning) (terms : Terms) (p q r : Place) (es fs : List Event)
        → Path (RunStep clients terms) p es q → Path (RunStep clients terms) q fs r
        → Path (RunStep clients terms) p (es ++ fs) r }
    ensures push { (clients : Meaning) (terms : Terms) (p q r : Place) (es : List Event)
        (e : Event) → Path (RunStep clients terms) p es q → RunStep clients terms q e r
        → Path (RunStep clients terms) p (es ++ e ∷ []) r }
    ensures parts { (clients : Meaning) (terms : Terms) (p r : Place) (es fs : List Event)
        → Path (RunStep clients terms) p (es ++ fs) r
        → (q : Place) × Path (RunStep clients terms) p es q × Path (RunStep clients terms) q fs r }
{}

/// Links: a path of a link's turn is a path of the run, whatever the other links are, and leaves
/// them as they are.
pub fn links_lift()
    ensures lifts { (clients : Meaning) (terms : Terms) (n : ℕ) (place : Place) (p q : Spot)
        (es : List Event) → n < length place.links
        → Path (LinkStep clients n (terms.first + n)) p es q
        → Path (RunStep clients terms) (with_spot n p place) es (with_spot n q place) }
    ensures others { (n i : ℕ) (spot : Spot) (place : Place) → i ≢ n
        → slice_get (with_spot n spot place).links i ≡ slice_get place.links i }
{}

/// Items: the items of all that was heard are those of what was heard before, and then the new
/// ones.
pub fn new_items_are_behind()
    ensures { (heard bytes : List ℕ)
        → items 0 (heard ++ bytes) ≡ items 0 heard ++ new_items heard bytes }
{
    streams_go_on();
}

/// Journal: the batches of a path may follow one behind the other, and the facts at its end are
/// those behind them.
pub fn batches_are_allowed()
    ensures allowed { (clients : Meaning) (terms : Terms) (p q : Place) (es : List Event)
        → Path (RunStep clients terms) p es q → GoesOn clients p.facts (batches_of es) }
    ensures facts { (clients : Meaning) (terms : Terms) (p q : Place) (es : List Event)
        → Path (RunStep clients terms) p es q
        → q.facts ≡ after_batches p.facts (batches_of es) }
{}

/// Suits: a run over a legal journal, wherever it was broken off, added settling batches, the
/// sessions that it was given, outputs of the sessions of its links, and batches that take: the
/// k-th one on a session takes the k-th record that was heard on its link.
pub fn batches_suit()
    ensures { (clients : Meaning) (terms : Terms) (sessions : List Session)
        (j : List (List Entry)) (events : List Event) (last : Place) → Legal clients j
        → Broken clients terms sessions (facts j) events last
        → AllSuitCourse clients terms.first sessions (heard_at_place last) (facts j) (batches_of events) }
{
    streams_go_on();
    records_join();
    fronts_have_fronts();
}

/// Planned: the same as planned: the session that begins is that of the next link, the k-th of those
/// that the run was given for the k-th link.
pub fn batches_suit_as_planned()
    ensures { (clients : Meaning) (terms : Terms) (sessions : List Session)
        (j : List (List Entry)) (events : List Event) (last : Place) → Legal clients j
        → Broken clients terms sessions (facts j) events last
        → AllSuitPlanned clients terms.first sessions (heard_at_place last) (facts j)
        (batches_of events) }
{
    streams_go_on();
    records_join();
    fronts_have_fronts();
}

/// Takes: at every place of a run over a legal journal the records taken on a session are a front
/// of those heard on its link; what is between is to be taken, unless the link was closed by a
/// VERSIONS or a call of it failed.
pub fn takes_are_fronts()
    ensures { (clients : Meaning) (terms : Terms) (sessions : List Session)
        (j : List (List Entry)) (events : List Event) (last : Place) → Legal clients j
        → Broken clients terms sessions (facts j) events last
        → (i : ℕ) (link : Link) → slice_get last.links i ≡ Some link
        → IsCounted last.facts (terms.first + i) (pending_at last.stage i) link }
{
    streams_go_on();
    records_join();
}

/// Due: each output of a run is one of the session of a link, and due by the facts at its place at
/// the last reading that was made for that link.
pub fn outputs_are_due()
    ensures { (clients : Meaning) (terms : Terms) (sessions : List Session) (f : Facts)
        (before behind : List Event) (session now : ℕ) (what : Out) (last : Place)
        → Path (RunStep clients terms) (first_place sessions f)
        (before ++ Commit (out_batch session now what) ∷ behind) last
        → OutIsDue clients terms (first_place sessions f) before session now what }
{}

/// Sent: what a session sends grows by exactly the records of the path's outputs of the session,
/// behind those that it begins with.
pub fn outputs_are_sent()
    ensures { (clients : Meaning) (terms : Terms) (p q : Place) (es : List Event)
        (j : List (List Entry)) (session : ℕ) → Legal clients j → facts j ≡ p.facts
        → Path (RunStep clients terms) p es q
        → sent (j ++ batches_of es) session
        ≡ sent j session ++ output_of (facts j) session (batches_of es) }
{}

/// Over: where a run is over the journal is settled, nothing is due on a link that is not closed at
/// the last reading made for it, each link that is still asked was Idle in as many last turns as
/// the run was asked for, and what was heard was taken.
pub fn runs_end_quiet()
    ensures { (clients : Meaning) (terms : Terms) (sessions : List Session)
        (j : List (List Entry)) (events : List Event) (last : Place) → Legal clients j
        → Course clients terms sessions (facts j) events last
        → is_over terms.quiet last ≡ true → EndsQuiet clients terms events last }
{
    streams_go_on();
    records_join();
}

/// Kept: behind each link that is closed as redundant stands one with the same contact that is kept
/// rather than it and is not closed so; and where links are closed one after the other, each by the
/// links as they then stand, the same ones are closed.
pub fn redundant_links_have_better()
    ensures better { (links : List Link) (k : ℕ) (b : Link) → is_beaten 0 links k b ≡ true
        → KeptRather links k b }
    ensures next { (links : List Link) (m : ℕ) (b : Link) → slice_get links m ≡ Some b
        → closed_upto links 0 (suc m) links
        ≡ slice_set (closed_upto links 0 m links) m (record b {
          stands
              = cond (is_beaten 0 (closed_upto links 0 m links) m b) LinkEnd.Redundant b.stands;
        }) }
    ensures whole { (links : List Link)
        → closed_upto links 0 (length links) links ≡ without_redundant links }
{}

/// Idle: over a settled journal, where a session with one link may begin and nothing is then due on
/// it at a reading, the run whose link is always Idle at that reading is a course. It ends after as
/// many turns as were to be quiet, and the link is quiet; or, where fewer turns may be made, after
/// these, and the link is unfinished.
pub fn idle_links_end_quiet()
    ensures quiet { (clients : Meaning) (terms : Terms) (s : Session) (now : ℕ) (f : Facts)
        → terms.first ≡ f.begun → IsSettled clients f
        → Allowed clients f (entry.Session s ∷ [])
        → IsNothingDue clients (after_all f (entry.Session s ∷ []))
        (session_at (after_all f (entry.Session s ∷ [])).sessions (terms.first + 0)) now
        → 0 < terms.quiet → terms.quiet ≤ terms.turns
        → Course clients terms (s ∷ []) f (idle_run s now terms.quiet)
        (idle_end s terms.quiet (after_all f (entry.Session s ∷ [])))
        × (closing terms.quiet (idle_end s terms.quiet (after_all f (entry.Session s ∷ [])))
        ≡ record { over = true; ends = LinkEnd.Going ∷ [] }) }
    ensures unfinished { (clients : Meaning) (terms : Terms) (s : Session) (now : ℕ) (f : Facts)
        → terms.first ≡ f.begun → IsSettled clients f
        → Allowed clients f (entry.Session s ∷ [])
        → IsNothingDue clients (after_all f (entry.Session s ∷ []))
        (session_at (after_all f (entry.Session s ∷ [])).sessions (terms.first + 0)) now
        → 0 < terms.turns → terms.turns < terms.quiet
        → Course clients terms (s ∷ []) f (idle_run s now terms.turns)
        (idle_end s terms.turns (after_all f (entry.Session s ∷ [])))
        × (closing terms.quiet (idle_end s terms.turns (after_all f (entry.Session s ∷ [])))
        ≡ record { over = false; ends = LinkEnd.Going ∷ [] }) }
{}

/// Free: each path of a run is one of the machine without the order of a run, with what it sends.
pub fn runs_are_free()
    ensures events { (clients : Meaning) (terms : Terms) (p q : Place) (es : List Event)
        → Path (RunStep clients terms) p es q
        → Path (FreeStep clients terms.first) (forget p) es (forget q) }
    ensures acts { (clients : Meaning) (terms : Terms) (p q : Owing Place) (acts : List Act)
        → Path (ActStep (λ (x : Place). x.facts) terms.first (RunStep clients terms)) p acts q
        → Path (ActStep (λ (x : Free). x.facts) terms.first (FreeStep clients terms.first))
        (owing_free p) acts (owing_free q) }
{}

/// Moments: in the middle of the acts of a node over a legal journal, in whatever order its calls
/// are made, the files stand for the journal with batches that suit the node, and what was sent on
/// a link is a front of what they have as output of its session.
pub fn moments_stand()
    ensures { (clients : Meaning) (j : List (List Entry)) (acts : List Act) (to : Owing Free)
        (m : Moment) → Legal clients j → FreeActs clients j acts to
        → AtFront clients acts j (λ link. []) m
        → MomentStands clients j (begun_by (batches_in acts)) (heard_at to.at) m }
{
    streams_go_on();
    records_join();
    fronts_have_fronts();
}

/// Whole: where nothing is owed behind the acts of a node, all output was sent on each link on which
/// no call failed.
pub fn all_is_sent()
    ensures { (clients : Meaning) (j : List (List Entry)) (acts : List Act)
        (to : Owing Free) → Legal clients j → FreeActs clients j acts to → OwesNothing to
        → AllIsSent j acts }
{
    streams_go_on();
    records_join();
}

/// Failed: just the links on which a call failed stand Failed, whatever else a node does, and
/// nothing is committed for one of them.
pub fn failed_links_had_failures()
    ensures stays { (clients : Meaning) (first : ℕ) (f : Facts) (es : List Event) (to : Free)
        (link : ℕ) → Path (FreeStep clients first) (first_free f) es to
        → has_failure link es ≡ true → LinkFailed to.links link }
    ensures cause { (clients : Meaning) (first : ℕ) (f : Facts) (es : List Event) (to : Free)
        (link : ℕ) → Path (FreeStep clients first) (first_free f) es to
        → LinkFailed to.links link → has_failure link es ≡ true }
    ensures spared { (clients : Meaning) (j : List (List Entry)) (es : List Event) (p q : Free)
        (b : List Entry) (link : ℕ) → Legal clients j
        → Path (FreeStep clients (facts j).begun) (first_free (facts j)) es p
        → FreeStep clients (facts j).begun p (Commit b) q → has_failure link es ≡ true
        → output_in p.facts ((facts j).begun + link) b ≡ [] }
{
    streams_go_on();
    records_join();
}
