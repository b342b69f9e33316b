//! A batch is taken without memory.
ghost use Rattle.std.specs.Prelude.{◌≡◌, ◌≢◌, ◌≤◌, false};
ghost use Rattle.sync_rules.specs.Clients.{Meaning};
ghost use Rattle.sync_rules.specs.Facts.{after_all};
ghost use Rattle.sync_rules.specs.Legal.{Allowed};
ghost use Rattle.sync_rules.specs.Allows.{is_account_kind, is_settling_kind};
ghost use Rattle.sync_rules.specs.Allows.{is_rows_kind};
ghost use Rattle.session_core.specs.Known.{IsIdOf, IsOfAll, IsOfEntry};
ghost use Rattle.journal_state.specs.Taking.{CanTake, CanTakeAll, HasNextNumbers, HasRoom, TakesButBeginning};
ghost use Rattle.journal_state.specs.Taking.{TakesEntry, TakesAll};
ghost use Rattle.journal_state.specs.Whole.{KnowsJudgements};

use crate::marks::Mark;
use crate::state::State;
use batch_tests::id_known;
use sync_ids::{Message, MessageId};
use sync_rules::{Batch, Entry, Origin, Out, Start};

impl State {
    /// Takes an allowed batch for which room was made, and which is neither a settling batch nor of
    /// a brief account's own kinds. It takes no memory.
    #[tactic(auto, using(session_core::proofs::Unknown::unknown))]
    pub fn take(&mut self, batch: Batch)
        requires allowed { (clients : Meaning) × Allowed clients self.old.facts batch }
        requires kind { is_settling_kind batch ≡ false }
        requires plain { is_account_kind batch ≡ false }
        requires room { HasRoom self.old batch }
        requires numbers { HasNextNumbers self.old.facts }
        ensures facts { self.new.facts ≡ after_all self.old.facts batch }
        ensures knows { (clients : Meaning) → KnowsJudgements clients self.old → KnowsJudgements clients self.new }
    {
        self.take_known(batch, None);
    }

    /// The same of a batch with the id of the one message that it brings, where the caller has it:
    /// it is not computed anew.
    #[tactic(auto, using(crate::proofs::Plain::no_rows))]
    pub fn take_known(&mut self, batch: Batch, id: Option<MessageId>)
        requires allowed { (clients : Meaning) × Allowed clients self.old.facts batch }
        requires kind { is_settling_kind batch ≡ false }
        requires plain { is_account_kind batch ≡ false }
        requires named { IsOfAll id batch }
        requires room { HasRoom self.old batch }
        requires numbers { HasNextNumbers self.old.facts }
        ensures facts { self.new.facts ≡ after_all self.old.facts batch }
        ensures knows { (clients : Meaning) → KnowsJudgements clients self.old → KnowsJudgements clients self.new }
    {
        self.take_batch(batch, id);
        self.bring_all();
    }

    /// The same also of a batch that begins a brief account or keeps a message.
    pub(crate) fn take_batch(&mut self, batch: Batch, id: Option<MessageId>)
        requires allowed { (clients : Meaning) × Allowed clients self.old.facts batch }
        requires kind { is_settling_kind batch ≡ false }
        requires plain { is_rows_kind batch ≡ false }
        requires named { IsOfAll id batch }
        requires room { HasRoom self.old batch }
        requires numbers { HasNextNumbers self.old.facts }
        ensures facts { self.new.facts ≡ after_all self.old.facts batch }
        ensures knows { (clients : Meaning) → KnowsJudgements clients self.old → KnowsJudgements clients self.new }
    {
        self.show_sound();
        self.take_all(&id, batch.into_entries());
    }

    /// Takes entries, one after the other.
    fn take_all(&mut self, known: &Option<MessageId>, entries: Vec<Entry>)
        requires can { CanTakeAll self.old entries.items }
        requires named { IsOfAll known.now entries.items }
        ensures { TakesAll self.old self.new entries.items }
    {
        for entry in entries {
            self.take_entry(known, entry);
        }
    }

    /// Takes one entry.
    pub(crate) fn take_entry(&mut self, known: &Option<MessageId>, entry: Entry)
        requires can { CanTake self.old entry }
        requires named { IsOfEntry known.now entry }
        ensures { TakesEntry self.old self.new entry }
    {
        self.note(&entry);
        self.take_noted(known, entry);
    }

    /// Takes one entry, of which is noted already how the journal began.
    fn take_noted(&mut self, known: &Option<MessageId>, entry: Entry)
        requires can { CanTake self.old entry }
        requires named { IsOfEntry known.now entry }
        requires started { self.old.facts.start ≢ Start.Empty }
        ensures { TakesButBeginning self.old self.new entry }
    {
        match entry {
            Entry::Contact(contact) => self.take_contact(contact),
            Entry::Group(def) => self.take_group(def),
            Entry::Level(contact, group, level) => self.take_level(contact, group, level),
            Entry::Session(session) => self.take_session(session),
            Entry::Take(session, k) => self.take_record(session, k),
            Entry::Author(message) => self.take_author(known, message),
            Entry::Arrive(session, message) => self.take_arrival(known, session, message),
            Entry::Again(session, id) => self.take_again(session, id),
            Entry::Offered(session, id) => self.take_offered(session, id),
            Entry::Seen(session, id) => self.take_seen(session, id),
            Entry::Asked(session, id) => self.take_asked(session, id),
            Entry::Out(session, now, out) => self.take_out(session, now, out),
            Entry::Brief(sessions) => self.take_brief(sessions),
            Entry::Kept(from, message) => self.take_kept(known, from, message),
            Entry::Judged(_) | Entry::Deliver(_) | Entry::Invalid(_) => unreachable!(),
            Entry::Tried(_) | Entry::Want(_, _) => unreachable!(),
        }
    }

    /// A message was written on this device.
    fn take_author(&mut self, known: &Option<MessageId>, message: Message)
        requires can { CanTake self.old (Entry.Author message) }
        requires named { IsIdOf known.now message }
        ensures { TakesButBeginning self.old self.new (Entry.Author message) }
    {
        let id = id_known(known, &message);
        self.hold(id, message, Origin::Author);
    }

    /// A message is kept, from where it came.
    fn take_kept(&mut self, known: &Option<MessageId>, from: Origin, message: Message)
        requires can { CanTake self.old (Entry.Kept from message) }
        requires named { IsIdOf known.now message }
        ensures { TakesButBeginning self.old self.new (Entry.Kept from message) }
    {
        let id = id_known(known, &message);
        self.hold(id, message, from);
    }

    /// A message arrived on a session.
    fn take_arrival(&mut self, known: &Option<MessageId>, session: u32, message: Message)
        requires can { CanTake self.old (Entry.Arrive session message) }
        requires named { IsIdOf known.now message }
        ensures { TakesButBeginning self.old self.new (Entry.Arrive session message) }
    {
        let contact = self.known_session(session).contact;
        let id = id_known(known, &message);
        let number = self.hold(id, message, Origin::From(contact));
        self.mark_at(contact, number, Mark::Heard);
    }

    /// A held message was sent or offered again.
    fn take_again(&mut self, session: u32, id: MessageId)
        requires { CanTake self.old (Entry.Again session id) }
        ensures { TakesButBeginning self.old self.new (Entry.Again session id) }
    {
        let contact = self.known_session(session).contact;
        self.mark(contact, &id, Mark::Heard);
    }

    /// A held message was acknowledged.
    fn take_seen(&mut self, session: u32, id: MessageId)
        requires { CanTake self.old (Entry.Seen session id) }
        ensures { TakesButBeginning self.old self.new (Entry.Seen session id) }
    {
        let contact = self.known_session(session).contact;
        self.mark(contact, &id, Mark::Seen);
    }

    /// A held message was requested.
    fn take_asked(&mut self, session: u32, id: MessageId)
        requires { CanTake self.old (Entry.Asked session id) }
        ensures { TakesButBeginning self.old self.new (Entry.Asked session id) }
    {
        let contact = self.known_session(session).contact;
        self.mark(contact, &id, Mark::Asked);
    }

    /// A message that is not held was offered.
    fn take_offered(&mut self, session: u32, id: MessageId)
        requires { CanTake self.old (Entry.Offered session id) }
        ensures { TakesButBeginning self.old self.new (Entry.Offered session id) }
    {
        let contact = self.known_session(session).contact;
        self.want(contact, id);
    }

    /// An output was sent.
    fn take_out(&mut self, session: u32, now: u64, out: Out)
        requires { CanTake self.old (Entry.Out session now out) }
        ensures { TakesButBeginning self.old self.new (Entry.Out session now out) }
    {
        let on = self.known_session(session);
        match out {
            Out::Acks(ids) => self.mark_all(on.contact, ids.as_slice(), Mark::Acked),
            Out::Requests(ids) => self.unwant(on.contact, ids.as_slice()),
            Out::Offers(ids) => {
                self.mark_all(on.contact, ids.as_slice(), Mark::Offered(now, on.latency));
            }
            Out::Send(id) => self.mark(on.contact, &id, Mark::Sent(now, on.latency)),
        }
    }
}
