//! A journal of one group and one session in memory.
ghost use Rattle.std.specs.Prelude.{◌≡◌, ◌≢◌, ℕ, ◌++◌, ◌<◌, ◌^◌, List, [], ◌∷◌, length, IfOk, OnOk};
ghost use Rattle.std.specs.Prelude.{Some, None, slice_get};
ghost use Rattle.std.specs.String.{string_bytes};
ghost use Rattle.sync_ids.specs.Values.{GroupValue};
ghost use Rattle.sync_ids.specs.declared.records.Record.{Record};
ghost use Rattle.sync_rules.specs.Clients.{Meaning};
ghost use Rattle.sync_rules.specs.Steps.{kind_of_def};
ghost use Rattle.sync_rules.specs.declared.entries.Entry.{Entry};
ghost use Rattle.sync_rules.specs.declared.states.Fate.TheVariants as fate_kind;
ghost use Rattle.message_graph.specs.Nodes.{after_step, EndsNode, next_step, node_number, step_number};
ghost use Rattle.journal_play.specs.declared.kept.Head.{Head};
ghost use Rattle.journal_play.specs.Keeping.{ended_as, fresh_in, fresh_one, IsStepDone, IsFresh};
ghost use Rattle.journal_play.specs.Keeping.{IsJudged, open_line, open_text};
ghost use Rattle.journal_play.specs.Keeping.{ReachesShown, ShowsStep, taking_in, taking_one};
ghost use Rattle.journal_play.specs.Keeping.{with_head};
ghost use Rattle.journal_play.specs.Playing.{HasPlayed, IsTextOf, judged_of, shown_of, StoryStandsFor};
ghost use Rattle.journal_play.specs.Playing.{Story};

use crate::held::HeldGraph;
use crate::kept::{Fresh, Head};
use crate::lines::{add_line, make_head};
use message_graph::{Fate, Judged, Names, Step};
use std::alloc::{AllocError, Global};
use std::hash::RandomState;
use std::marker::Model;
use sync_ids::{GroupDef, GroupId, Message, MessageId, Record, group_id, records_are_within};
use sync_rules::{Clients, Judgement};

/// A journal of one group and one session, as far as its lines need it. Contracts see the kind of
/// the group's client, the group's id, what the lines say of the held messages, their nodes in a
/// graph, and the lines so far. A message is let go of once it was judged.
#[derive(Drop)]
pub struct Play {
    kind: u8,
    group: GroupId,
    held: HeldGraph,
    text: String,
}

impl Model for Play {
    ghost use Rattle.std.specs.String.{string_bytes};
    ghost use Rattle.journal_play.specs.Playing.{Played};

    ghost Value = { Played };

    ghost view = { λ p. record {
      kind = p.kind;
      group = p.group;
      heads = p.held.heads;
      nodes = p.held.nodes;
      text =
          string_bytes p.text;
    } };
}

impl Play {
    /// A journal with this group, whose client has this kind, Visible to contact 0, and one batch
    /// session with that contact. `hasher` is for the tables whose keys a stranger chooses. It
    /// fails only for want of memory.
    pub fn begin(
        alloc: Global,
        hasher: RandomState,
        def: GroupDef,
        kind: u8,
    ) -> Result<Play, AllocError>
        ensures { IfOk result (λ play. (clients : Meaning) → kind_of_def clients def ≡ Some kind
            → HasPlayed clients def [] play) }
    {
        let group = group_id(&def);
        let held = HeldGraph::new(alloc, hasher)?;
        Ok(Play {
            kind,
            group,
            held,
            text: String::new(alloc),
        })
    }

    /// Takes a record, and settles. It fails only for want of memory, also where 2^32 - 1 messages
    /// are held, and then it may fail from then on.
    pub fn hear<C: Clients>(
        &mut self,
        alloc: Global,
        clients: &C,
        heard: Record,
    ) -> Result<(), AllocError>
        ensures { OnOk result ((def : GroupValue) (records : List Record)
            → HasPlayed (C.meaning clients.now) def records self.old
            → HasPlayed (C.meaning clients.now) def (records ++ heard ∷ []) self.new) }
    {
        // A batch is legal only where its record is within its limits.
        records_are_within(&heard);
        let just = self.take(heard)?;
        self.settle(alloc, clients, &just)
    }

    /// What is printed: the lines so far, and then a line for each message that has none. It fails
    /// only for want of memory.
    pub fn finish(self, _alloc: Global) -> Result<String, AllocError>
        ensures { IfOk result (λ text. (clients : Meaning) (def : GroupValue)
            (records : List Record) → HasPlayed clients def records self
            → IsTextOf clients def records (string_bytes text)) }
    {
        let Play {
            kind: _,
            group: _,
            held,
            mut text,
        } = self;
        add_pending(&held, &mut text)?;
        Ok(text)
    }

    // ---- a record

    // Takes a record; the message that is held then, if one is.
    fn take(&mut self, heard: Record) -> Result<Option<Fresh>, AllocError>
        ensures taken { OnOk result (self.new ≡ taking_in self.old heard) }
        ensures just { IfOk result (λ just. just ≡ fresh_in self.old heard) }
    {
        match heard {
            Record::Message(message) => self.take_message(message),
            Record::Ack(_)
            | Record::Offer(_)
            | Record::Request(_)
            | Record::Versions(_)
            | Record::Priority(_) => Ok(None),
        }
    }

    // Holds a message of the group whose id is new.
    fn take_message(&mut self, message: Message) -> Result<Option<Fresh>, AllocError>
        ensures taken { OnOk result (self.new ≡ taking_one self.old message) }
        ensures just { IfOk result (λ just. just ≡ fresh_one self.old message) }
    {
        if message.group() != self.group {
            return Ok(None);
        }
        let head = make_head(&message);
        if self.held.number(&head.id).is_some() {
            return Ok(None);
        }
        let number = self.hold(head)?;
        Ok(Some(Fresh { number, message }))
    }

    // Holds a message, and answers its number.
    fn hold(&mut self, head: Head) -> Result<u32, AllocError>
        requires { node_number self.old.nodes head.id ≡ None }
        ensures held { OnOk result (self.new ≡ with_head head self.old) }
        ensures number { IfOk result (λ number. number ≡ length self.old.heads) }
    {
        self.held.hold(head)
    }

    // ---- settling

    // Makes steps until there is none.
    fn settle<C: Clients>(
        &mut self,
        alloc: Global,
        clients: &C,
        just: &Option<Fresh>,
    ) -> Result<(), AllocError>
        ensures reaches { OnOk result ((story : Story) (def : GroupValue) (k : ℕ)
            (j : List (List Entry)) → shown_of story ≡ self.old
            → IsFresh just.now story → StoryStandsFor (C.meaning clients.now) def k j story
            → ReachesShown (C.meaning clients.now) def k j story self.new) }
        ensures settled { OnOk result (next_step self.new.nodes ≡ None) }
    {
        'steps: while let Some(step) = self.next() {
            self.make(alloc, clients, just, step)?;
        }
        Ok(())
    }

    fn next(&self) -> Option<Step>
        ensures { result ≡ next_step self.now.nodes }
    {
        self.held.next()
    }

    fn make<C: Clients>(
        &mut self,
        alloc: Global,
        clients: &C,
        just: &Option<Fresh>,
        step: Step,
    ) -> Result<(), AllocError>
        requires { next_step self.old.nodes ≡ Some step }
        ensures shows { OnOk result (ShowsStep (C.meaning clients.now) just.now step self.old
            self.new) }
        ensures done { OnOk result (IsStepDone step self.old.nodes self.new.nodes) }
    {
        match step {
            Step::Judge(n) => self.judge(alloc, clients, just, n),
            Step::Invalid(n) => self.end(step, n, sync_rules::Fate::Invalid),
            Step::Deliver(n) => self.end(step, n, sync_rules::Fate::Delivered),
        }
    }

    // Judges the message that was just held. Another one that is not judged is left of a call that
    // found no memory.
    fn judge<C: Clients>(
        &mut self,
        alloc: Global,
        clients: &C,
        just: &Option<Fresh>,
        n: u32,
    ) -> Result<(), AllocError>
        requires { next_step self.old.nodes ≡ Some (Step.Judge n) }
        ensures { OnOk result (IsJudged (C.meaning clients.now) just.now n self.old self.new) }
    {
        let Some(one) = just else {
            return Err(AllocError);
        };
        if one.number != n {
            return Err(AllocError);
        }
        let judgement = clients.judge(alloc, self.kind, &one.message)?;
        let answer = answer_of(alloc, &judgement)?;
        self.held.judged(n, answer)
    }

    // Ends the message of that number, as the step says, and adds its line.
    fn end(&mut self, step: Step, n: u32, state: sync_rules::Fate) -> Result<(), AllocError>
        requires next { next_step self.old.nodes ≡ Some step }
        requires ends { EndsNode step }
        requires number { step_number step ≡ n }
        requires state { state ≢ fate_kind.Unknown }
        ensures ended { OnOk result ((h : Head) → slice_get self.old.heads n ≡ Some h
            → self.new ≡ ended_as step state h self.old) }
        ensures done { OnOk result (self.new.nodes ≡ after_step step self.old.nodes) }
    {
        let head = self.held.head(n);
        add_line(state, &head, &mut self.text)?;
        self.held.apply(step);
        Ok(())
    }
}

// ---- answers

fn names_of(alloc: Global, ids: &[MessageId]) -> Result<Vec<[u8; 32]>, AllocError>
    ensures { IfOk result (λ names. names.items ≡ ids.now) }
{
    let mut names = Vec::new(alloc);
    for id in ids {
        names.push(id.0)?;
    }
    Ok(names)
}

fn answer_of(alloc: Global, judgement: &Judgement) -> Result<Judged, AllocError>
    ensures { IfOk result (λ answer. answer ≡ judged_of judgement.now) }
{
    match judgement {
        Judgement::Refuse => Ok(Judged::Refused),
        Judgement::Accept { deps, .. } => {
            let names = names_of(alloc, deps.as_slice())?;
            Ok(Judged::Accepted(Names::new(names)))
        }
    }
}

// ---- the messages that have no end

fn add_if_open(fate: Fate, head: &Head, text: &mut String) -> Result<(), AllocError>
    ensures { OnOk result (string_bytes text.new ≡ string_bytes text.old ++ open_line fate
        head.now) }
{
    match fate {
        Fate::Unknown | Fate::Pending => add_line(sync_rules::Fate::Pending, head, text),
        Fate::Invalid | Fate::Delivered => Ok(()),
    }
}

// Adds a line for each message whose node has no end.
fn add_pending(held: &HeldGraph, text: &mut String) -> Result<(), AllocError>
    ensures { OnOk result (string_bytes text.new ≡ string_bytes text.old ++ open_text held.now.heads
        held.now.nodes) }
{
    for n in 0..held.len() {
        add_if_open(held.fate(n), &held.head(n), text)?;
    }
    Ok(())
}
