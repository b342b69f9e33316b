//! What one more entry makes of the facts.
ghost use Rattle.std.specs.Prelude.{◌≡◌, ◌<◌, ◌&&◌, ℕ, cond, true, false, nat_eq, OnOk, IfOk};
ghost use Rattle.std.specs.FinMap as fin_map;
ghost use Rattle.std.specs.List.{list_all};
ghost use Rattle.session_core.specs.Known.{IsIdOf, IsOfEntry};
ghost use Rattle.sync_ids.specs.Ids.{message_id_of};
ghost use Rattle.sync_rules.specs.Clients.{Meaning};
ghost use Rattle.sync_rules.specs.Facts.{after, change_row, change_rows, contact_of, is_held};
ghost use Rattle.sync_rules.specs.Facts.{latency_of, start_after, wanted_from, with_want};
ghost use Rattle.sync_rules.specs.Steps.{verdict_in};
ghost use Rattle.sync_rules.specs.declared.entries.Entry.TheVariants as entry;
ghost use Rattle.journal_audit.specs.Changes.{AreNamed, BecomesFacts, BecomesKnown, MayHoldMessage, MayTakeEntry};
ghost use Rattle.journal_audit.specs.Changes.{FitsOut, with_rows, with_wanted};
ghost use Rattle.journal_audit.specs.Numbers.{has};
ghost use Rattle.journal_audit.specs.Plain.{IsPlainSound, KnowsMeanings, facts_of, rest_after};
ghost use Rattle.journal_audit.specs.Rows.{changed_by};

use crate::answer::Answer;
use crate::due::may_go;
use crate::facts::PlainFacts;
use crate::groups::Groups;
use crate::messages::Line;
use crate::numbers::Numbers;
use crate::rows::RowChange;
use crate::sleeping::{lay_down, wake};
use batch_tests::id_known;
use std::alloc::{AllocError, Global};
use sync_ids::{GroupDef, GroupId, Message, MessageId};
use sync_rules::{Clients, Entry, Judgement, Level, Origin, Out, Session, Start, Tried};

// How a journal began, behind one entry more.
fn started(start: Start, entry: &Entry) -> Start
    ensures { result ≡ start_after start entry.now }
{
    match (start, entry) {
        (Start::Empty, Entry::Brief(_)) => Start::Opening,
        (
            Start::Opening,
            Entry::Contact(_)
            | Entry::Group(_)
            | Entry::Level(_, _, _)
            | Entry::Judged(_)
            | Entry::Deliver(_)
            | Entry::Invalid(_)
            | Entry::Kept(_, _)
            | Entry::Tried(_)
            | Entry::Want(_, _),
        ) => Start::Opening,
        _ => Start::Going,
    }
}

// What its client says of a message; Refuse where its group or its client is not known. It fails
// only for want of memory.
fn judge<C: Clients>(
    alloc: Global,
    groups: &Groups,
    clients: &C,
    message: &Message,
) -> Result<Judgement, AllocError>
    ensures { IfOk result (λ j. j ≡ verdict_in (C.meaning clients.now) groups.now message.now) }
{
    let Some(def) = groups.def(&message.group()) else {
        return Ok(Judgement::Refuse);
    };
    match clients.kind_of(def.name(), def.major()) {
        Some(kind) => clients.judge(alloc, kind, message),
        None => Ok(Judgement::Refuse),
    }
}

// The same as it is kept.
fn answer_to<C: Clients>(
    alloc: Global,
    groups: &Groups,
    clients: &C,
    message: &Message,
) -> Result<Answer, AllocError>
    ensures { IfOk result (λ a. a ≡ verdict_in (C.meaning clients.now) groups.now message.now) }
{
    let judgement = judge(alloc, groups, clients, message)?;
    Answer::new(alloc, judgement)
}

// A message that ends waits no more, if it was judged.
fn stop_waiting(waiting: &mut Numbers, line: &Line, n: u32)
    ensures { (m : ℕ) → has waiting.new m ≡ cond (nat_eq m n && line.now.judged) false
        (has waiting.old m) }
{
    if line.judged {
        waiting.remove(n);
    }
}

impl PlainFacts {
    // ---- contacts, groups and levels

    fn take_contact(&mut self, alloc: Global, contact: u8) -> Result<(), AllocError>
        requires sound { IsPlainSound self.old }
        requires fits { MayTakeEntry (facts_of self.old) (entry.Contact contact) }
        ensures { OnOk result (BecomesFacts self.old self.new (rest_after (facts_of self.old)
            (entry.Contact contact))) }
    {
        self.wants.open(alloc, contact)?;
        self.contacts += 1;
        Ok(())
    }

    fn take_group(&mut self, def: GroupDef) -> Result<(), AllocError>
        requires { IsPlainSound self.old }
        ensures { OnOk result (BecomesFacts self.old self.new (rest_after (facts_of self.old)
            (entry.Group def))) }
    {
        self.groups.add(def)?;
        Ok(())
    }

    fn take_level(&mut self, contact: u8, group: GroupId, level: Level) -> Result<(), AllocError>
        requires sound { IsPlainSound self.old }
        requires fits { MayTakeEntry (facts_of self.old) (entry.Level contact group level) }
        ensures { OnOk result (BecomesFacts self.old self.new (rest_after (facts_of self.old)
            (entry.Level contact group level))) }
    {
        self.levels.set(contact, group, level)?;
        self.ready.cursors.set_from(contact, 0);
        Ok(())
    }

    // ---- messages

    // Holds a message that came from there, and answers its id.
    fn hold<C: Clients>(
        &mut self,
        alloc: Global,
        clients: &C,
        known: &Option<MessageId>,
        from: Origin,
        message: Message,
    ) -> Result<MessageId, AllocError>
        requires sound { IsPlainSound self.old }
        requires knows { KnowsMeanings (C.meaning clients.now) self.old }
        requires named { IsIdOf known.now message }
        requires fits { MayHoldMessage (facts_of self.old) message }
        ensures held { OnOk result (BecomesKnown (C.meaning clients.now) self.new
            (rest_after (facts_of self.old) (entry.Kept from message))) }
        ensures id { IfOk result (λ id. id ≡ message_id_of message) }
    {
        let id = id_known(known, &message);
        let answer = answer_to(alloc, &self.groups, clients, &message)?;
        let n = self.messages.len();
        self.waiting.add(n)?;
        self.hints.add()?;
        self.wants.hold(&id);
        self.messages.hold(Line {
            id,
            message,
            answer,
            origin: from,
            judged: false,
            invalid: false,
            delivered: false,
        })?;
        wake(
            &self.messages,
            self.sleepers.under(&id),
            &mut self.hints,
            &mut self.waiting,
            &id,
        )?;
        Ok(id)
    }

    // A message that arrives on a session.
    fn take_arrival<C: Clients>(
        &mut self,
        alloc: Global,
        clients: &C,
        known: &Option<MessageId>,
        session: u32,
        message: Message,
    ) -> Result<(), AllocError>
        requires sound { IsPlainSound self.old }
        requires knows { KnowsMeanings (C.meaning clients.now) self.old }
        requires named { IsIdOf known.now message }
        requires fits { MayHoldMessage (facts_of self.old) message }
        ensures { OnOk result (BecomesKnown (C.meaning clients.now) self.new
            (rest_after (facts_of self.old) (entry.Arrive session message))) }
    {
        let contact = self.contact_of(session);
        let id = self.hold(alloc, clients, known, Origin::From(contact), message)?;
        self.change_row(contact, id, &RowChange::Heard)?;
        Ok(())
    }

    // A message is judged.
    fn take_judged(&mut self, alloc: Global, id: &MessageId) -> Result<(), AllocError>
        requires sound { IsPlainSound self.old }
        requires fits { is_held (facts_of self.old).held id.now ≡ true }
        ensures { OnOk result (BecomesFacts self.old self.new (rest_after (facts_of self.old)
            (entry.Judged id.now))) }
    {
        let Some(n) = self.messages.find(id) else {
            unreachable!();
        };
        self.messages.judge(n);
        lay_down(
            alloc,
            &self.messages,
            &mut self.sleepers,
            &mut self.waiting,
            n,
        )?;
        Ok(())
    }

    // A message is invalid.
    fn take_invalid(&mut self, id: &MessageId) -> Result<(), AllocError>
        requires sound { IsPlainSound self.old }
        requires fits { is_held (facts_of self.old).held id.now ≡ true }
        ensures { OnOk result (BecomesFacts self.old self.new (rest_after (facts_of self.old)
            (entry.Invalid id.now))) }
    {
        let Some(n) = self.messages.find(id) else {
            unreachable!();
        };
        stop_waiting(&mut self.waiting, self.messages.line(n), n);
        self.hints.note_invalid(n)?;
        self.messages.refuse(n);
        wake(
            &self.messages,
            self.sleepers.under(id),
            &mut self.hints,
            &mut self.waiting,
            id,
        )?;
        Ok(())
    }

    // A message is delivered.
    fn take_delivered(&mut self, id: &MessageId) -> Result<(), AllocError>
        requires sound { IsPlainSound self.old }
        requires fits { is_held (facts_of self.old).held id.now ≡ true }
        ensures { OnOk result (BecomesFacts self.old self.new (rest_after (facts_of self.old)
            (entry.Deliver id.now))) }
    {
        let Some(n) = self.messages.find(id) else {
            unreachable!();
        };
        stop_waiting(&mut self.waiting, self.messages.line(n), n);
        self.messages.deliver(n)?;
        wake(
            &self.messages,
            self.sleepers.under(id),
            &mut self.hints,
            &mut self.waiting,
            id,
        )?;
        Ok(())
    }

    // ---- rows and wanted ids

    /// The contact of a session.
    pub(crate) fn contact_of(&self, session: u32) -> u8
        ensures { result ≡ contact_of (facts_of self.now).sessions session }
    {
        match self.sessions.find(session) {
            Some(found) => found.contact,
            None => 0,
        }
    }

    /// The latency of a session in milliseconds.
    pub(crate) fn latency_of(&self, session: u32) -> u32
        ensures { result ≡ latency_of (facts_of self.now).sessions session }
    {
        match self.sessions.find(session) {
            Some(found) => found.latency,
            None => 0,
        }
    }

    // Changes what is kept of a held message for a contact.
    fn change_row(
        &mut self,
        contact: u8,
        id: MessageId,
        change: &RowChange,
    ) -> Result<(), AllocError>
        requires sound { IsPlainSound self.old }
        requires held { is_held (facts_of self.old).held id ≡ true }
        ensures { OnOk result (BecomesFacts self.old self.new (with_rows (facts_of self.old)
            (change_row self.old.rows contact id (changed_by change.now)))) }
    {
        let Some(n) = self.messages.find(&id) else {
            unreachable!();
        };
        let was = self.rows.row(contact, &id).expiry;
        let kept = self.rows.change(contact, id, change)?;
        self.owed.mark(contact, n, kept.owed)?;
        let goes = may_go(&self.levels, contact, self.messages.line(n), kept);
        self.ready.replace(contact, n, was, goes, kept)?;
        self.early.fall_back(contact, n);
        Ok(())
    }

    // Changes what is kept of held messages for a contact.
    fn change_rows(
        &mut self,
        contact: u8,
        ids: &[MessageId],
        change: &RowChange,
    ) -> Result<(), AllocError>
        requires sound { IsPlainSound self.old }
        requires held { list_all (is_held (facts_of self.old).held) ids.now ≡ true }
        ensures { OnOk result (BecomesFacts self.old self.new (with_rows (facts_of self.old)
            (change_rows self.old.rows contact ids.now (changed_by change.now)))) }
    {
        for id in ids {
            self.change_row(contact, *id, change)?;
        }
        Ok(())
    }

    // An id comes to be wanted from a contact, where it is not held and not wanted yet.
    fn want(&mut self, alloc: Global, contact: u8, id: MessageId) -> Result<(), AllocError>
        requires { IsPlainSound self.old }
        ensures { OnOk result (BecomesFacts self.old self.new (with_wanted (facts_of self.old)
            (fin_map.insert self.old.wants contact (with_want
            (is_held (facts_of self.old).held id) (wanted_from self.old.wants contact) id)))) }
    {
        let held = self.messages.find(&id).is_some();
        self.wants.add(alloc, contact, held, id)?;
        Ok(())
    }

    // Something was sent on a session.
    fn take_out(
        &mut self,
        alloc: Global,
        session: u32,
        now: u64,
        what: Out,
    ) -> Result<(), AllocError>
        requires sound { IsPlainSound self.old }
        requires fits { FitsOut (facts_of self.old) what }
        ensures { OnOk result (BecomesFacts self.old self.new (rest_after (facts_of self.old)
            (entry.Out session now what))) }
    {
        let contact = self.contact_of(session);
        let latency = self.latency_of(session);
        match what {
            Out::Acks(ids) => self.change_rows(contact, ids.as_slice(), &RowChange::Acked),
            Out::Requests(ids) => self.wants.request(alloc, contact, ids.as_slice()),
            Out::Offers(ids) => {
                self.change_rows(contact, ids.as_slice(), &RowChange::Offered(now, latency))
            }
            Out::Send(id) => self.change_row(contact, id, &RowChange::Sent(now, latency)),
        }
    }

    // ---- entries

    // Holds a message.
    fn take_held<C: Clients>(
        &mut self,
        alloc: Global,
        clients: &C,
        known: &Option<MessageId>,
        from: Origin,
        message: Message,
    ) -> Result<(), AllocError>
        requires sound { IsPlainSound self.old }
        requires knows { KnowsMeanings (C.meaning clients.now) self.old }
        requires named { IsIdOf known.now message }
        requires fits { MayHoldMessage (facts_of self.old) message }
        ensures { OnOk result (BecomesKnown (C.meaning clients.now) self.new
            (rest_after (facts_of self.old) (entry.Kept from message))) }
    {
        self.hold(alloc, clients, known, from, message)?;
        Ok(())
    }

    // Changes what is kept of a held message for the contact of a session.
    fn take_row(
        &mut self,
        session: u32,
        id: MessageId,
        change: &RowChange,
    ) -> Result<(), AllocError>
        requires sound { IsPlainSound self.old }
        requires held { is_held (facts_of self.old).held id ≡ true }
        ensures { OnOk result (BecomesFacts self.old self.new (with_rows (facts_of self.old)
            (change_row self.old.rows (contact_of (facts_of self.old).sessions session) id
            (changed_by change.now)))) }
    {
        let contact = self.contact_of(session);
        self.change_row(contact, id, change)
    }

    // This is kept of a held message for a contact.
    fn take_tried(&mut self, tried: Tried) -> Result<(), AllocError>
        requires sound { IsPlainSound self.old }
        requires held { is_held (facts_of self.old).held tried.id ≡ true }
        ensures { OnOk result (BecomesFacts self.old self.new (rest_after (facts_of self.old)
            (entry.Tried tried))) }
    {
        let contact = tried.contact;
        let id = tried.id;
        let change = RowChange::Tried(tried);
        self.change_row(contact, id, &change)
    }

    // An id was offered on a session.
    fn take_offered(&mut self, alloc: Global, session: u32, id: MessageId) -> Result<(), AllocError>
        requires { IsPlainSound self.old }
        ensures { OnOk result (BecomesFacts self.old self.new (rest_after (facts_of self.old)
            (entry.Offered session id))) }
    {
        let contact = self.contact_of(session);
        self.want(alloc, contact, id)
    }

    // Sessions began.
    fn take_session(&mut self, session: Session) -> Result<(), AllocError>
        requires { IsPlainSound self.old }
        ensures { OnOk result (BecomesFacts self.old self.new (rest_after (facts_of self.old)
            (entry.Session session))) }
    {
        self.sessions.begin(session)
    }

    // A record is taken on a session.
    fn take_record(&mut self, session: u32, taken: u64) -> Result<(), AllocError>
        requires { IsPlainSound self.old }
        ensures { OnOk result (BecomesFacts self.old self.new (rest_after (facts_of self.old)
            (entry.Take session taken))) }
    {
        let _ = taken;
        self.sessions.take(session)
    }

    // Sessions began and are dropped.
    fn take_brief(&mut self, sessions: u32) -> Result<(), AllocError>
        requires { IsPlainSound self.old }
        ensures { OnOk result (BecomesFacts self.old self.new (rest_after (facts_of self.old)
            (entry.Brief sessions))) }
    {
        self.sessions.skip(sessions)
    }

    // What one more entry makes of all but the start.
    fn take_rest<C: Clients>(
        &mut self,
        alloc: Global,
        clients: &C,
        known: &Option<MessageId>,
        entry: Entry,
    ) -> Result<(), AllocError>
        requires sound { IsPlainSound self.old }
        requires knows { KnowsMeanings (C.meaning clients.now) self.old }
        requires named { IsOfEntry known.now entry }
        requires fits { MayTakeEntry (facts_of self.old) entry }
        ensures { OnOk result (BecomesKnown (C.meaning clients.now) self.new
            (rest_after (facts_of self.old) entry)) }
    {
        match entry {
            Entry::Contact(contact) => self.take_contact(alloc, contact),
            Entry::Group(def) => self.take_group(def),
            Entry::Level(contact, group, level) => self.take_level(contact, group, level),
            Entry::Session(session) => self.take_session(session),
            Entry::Take(session, taken) => self.take_record(session, taken),
            Entry::Author(m) => self.take_held(alloc, clients, known, Origin::Author, m),
            Entry::Arrive(session, m) => self.take_arrival(alloc, clients, known, session, m),
            Entry::Judged(id) => self.take_judged(alloc, &id),
            Entry::Deliver(id) => self.take_delivered(&id),
            Entry::Invalid(id) => self.take_invalid(&id),
            Entry::Again(session, id) => self.take_row(session, id, &RowChange::Heard),
            Entry::Offered(session, id) => self.take_offered(alloc, session, id),
            Entry::Seen(session, id) => self.take_row(session, id, &RowChange::Seen),
            Entry::Asked(session, id) => self.take_row(session, id, &RowChange::Asked),
            Entry::Out(session, now, what) => self.take_out(alloc, session, now, what),
            Entry::Brief(sessions) => self.take_brief(sessions),
            Entry::Kept(from, m) => self.take_held(alloc, clients, known, from, m),
            Entry::Tried(tried) => self.take_tried(tried),
            Entry::Want(contact, id) => self.want(alloc, contact, id),
        }
    }

    /// Takes one more entry in; the id of its message may be known. It fails only for want of
    /// memory, and then nothing is said of the facts.
    pub(crate) fn take<C: Clients>(
        &mut self,
        alloc: Global,
        clients: &C,
        known: &Option<MessageId>,
        entry: Entry,
    ) -> Result<(), AllocError>
        requires sound { IsPlainSound self.old }
        requires knows { KnowsMeanings (C.meaning clients.now) self.old }
        requires named { IsOfEntry known.now entry }
        requires fits { MayTakeEntry (facts_of self.old) entry }
        ensures { OnOk result (BecomesKnown (C.meaning clients.now) self.new
            (after (facts_of self.old) entry)) }
    {
        self.start = started(self.start, &entry);
        self.take_rest(alloc, clients, known, entry)
    }
}
