//! The node that holds a store.
ghost use Rattle.std.specs.Prelude.{◌≡◌, [], List, ℕ, length, true};
ghost use Rattle.commands.specs.Reading.{IsCommandWithin};
ghost use Rattle.commands.specs.declared.command.Command.TheVariants as command;
ghost use Rattle.request_frames.specs.Laws.{KeepsOf};
ghost use Rattle.request_frames.specs.Requests.{Request};
ghost use Rattle.request_frames.specs.declared.reader.Stage.TheVariants as stage;
ghost use Rattle.store_commands.specs.Serving.{IsReadyToServe, LeavesSessionsBy};
ghost use Rattle.node_requests.specs.Requests.{is_done_by_node, leaves_sessions};
ghost use Rattle.node_service.specs.Lives.{shown_bytes};
ghost use Rattle.node_life.specs.Inputs.{ReadsGiven};
ghost use Rattle.node_life.specs.Leaving.{WordsLeave};
ghost use Rattle.node_life.specs.Requests.{AnswersOr, AnswersRequest, AreStreams, HasDone};
ghost use Rattle.node_life.specs.Requests.{HasDoneOver, StaysReady, bare};
ghost use Rattle.node_life.specs.Requests.{is_enough, said_by, said_of};
ghost use Rattle.node_life.specs.Requests.{goodbye};

use crate::input::{Failing, Given};
use commands::Command;
use mailbox_commands::take_mail_bytes;
use node_requests::obey;
use node_service::{Node, Output, Reply, command_of, reads_most};
use outside::{Host, Source};
use request_frames::InputSize;
use std::alloc::Global;
use std::hash::RandomState;
use store_commands::migrate_and_settle;
use stream_commands::{list_records, try_group};
use sync_ids::MAX_BODY;
use sync_rules::Clients;
use sync_store::Store;
use sync_words::Outcome;

/// A node that holds a store.
#[derive(Drop)]
pub struct Holder<'a, C: Clients> {
    pub alloc: Global,
    pub hasher: RandomState,
    pub store: Store,
    pub clients: &'a C,
}

impl<'a, C: Clients, H: Host> Node<H> for Holder<'a, C> {
    ghost use Rattle.store_commands.specs.Serving.{IsReadyToServe};
    ghost use Rattle.node_life.specs.Requests.{AnswersRequest};

    ghost may = { λ n o. IsReadyToServe (C.meaning n.clients.now) n.store (H.tells o) };

    ghost answers = { λ n request o o' came out ends.
        AnswersRequest H.tells (C.meaning n.clients.now) request o o' came out ends };

    fn answer(
        &mut self,
        words: &[u8],
        size: InputSize,
        most: usize,
        kept: &[u8],
        host: &mut H,
        out: &mut Output,
    ) -> Reply {
        let (alloc, hasher) = (self.alloc, self.hasher);
        let store = &mut self.store;
        answer_request(
            alloc,
            hasher,
            store,
            words,
            size,
            most,
            kept,
            host,
            out,
            self.clients,
        )
    }
}

/// Answers the request of these words over a store that is ready, of whose input this is what was
/// kept, at most so many bytes. After each answer but that of a fault of the disk, which ends the
/// node, the store may be asked again; and its sessions and the host's links are as they were, unless
/// the words ask for `compact` or `mailbox`.
pub fn answer_request<H: Host, C: Clients>(
    alloc: Global,
    hasher: RandomState,
    store: &mut Store,
    words: &[u8],
    size: InputSize,
    most: usize,
    kept: &[u8],
    host: &mut H,
    out: &mut Output,
    clients: &C,
) -> Reply
    requires ready { IsReadyToServe (C.meaning clients.now) store.old (H.tells host.old) }
    requires empty { out.old.bytes ≡ [] }
    ensures answered { (request : Request) → request.words ≡ words.now
        → KeepsOf request (stage.Whole size most) kept.now
        → AnswersRequest H.tells (C.meaning clients.now) request host.old host.new result.came
        (shown_bytes result.shown out.new.bytes) result.ends }
    ensures ready { StaysReady (C.meaning clients.now) store.new (H.tells host.new) result }
    ensures sessions { WordsLeave words.now → LeavesSessionsBy store.old store.new result.came }
    ensures links { WordsLeave words.now → (H.tells host.new).links ≡ (H.tells host.old).links }
{
    match command_of(alloc, words) {
        Ok(asked) => answer_command(
            alloc, hasher, store, asked, size, most, kept, host, out, clients,
        ),
        Err(fault) => nothing_done(Outcome::from(fault)),
    }
}

// Does what a request asks for, of whose input this is what was kept, and says what is answered.
fn answer_command<H: Host, C: Clients>(
    alloc: Global,
    hasher: RandomState,
    store: &mut Store,
    asked: Command,
    size: InputSize,
    most: usize,
    kept: &[u8],
    host: &mut H,
    out: &mut Output,
    clients: &C,
) -> Reply
    requires within { IsCommandWithin asked }
    requires ready { IsReadyToServe (C.meaning clients.now) store.old (H.tells host.old) }
    requires empty { out.old.bytes ≡ [] }
    ensures answers { (request : Request) → KeepsOf request (stage.Whole size most) kept.now
        → AnswersOr H.tells (C.meaning clients.now) (ReadsGiven request.size request.input) asked
        host.old host.new (said_by result out.new.bytes) }
    ensures ready { StaysReady (C.meaning clients.now) store.new (H.tells host.new) result }
    ensures sessions { leaves_sessions asked ≡ true
        → LeavesSessionsBy store.old store.new result.came }
    ensures links { leaves_sessions asked ≡ true
        → (H.tells host.new).links ≡ (H.tells host.old).links }
{
    match size {
        InputSize::Failed => {
            let mut input = Failing::new();
            do_command(alloc, hasher, store, asked, host, &mut input, out, clients)
        }
        InputSize::Long => {
            let mut input = Given::too_long();
            do_command(alloc, hasher, store, asked, host, &mut input, out, clients)
        }
        InputSize::Bytes(_) => {
            if !is_enough(&asked, most, kept) {
                return nothing_done(Outcome::Memory);
            }
            do_kept(alloc, hasher, store, asked, kept, host, out, clients)
        }
    }
}

// Whether this is all of an input of which at most so many bytes were kept, or as much as a command
// reads of it. A message may have no longer body.
fn is_enough(asked: &Command, most: usize, kept: &[u8]) -> bool
    ensures { result ≡ is_enough asked.now most (length kept.now) }
{
    kept.len() < most || reads_most(asked) == 0 || (asked.reads_body() && MAX_BODY < most)
}

// Does what a request asks for, over an input of these bytes, and says what is answered. A mailbox file
// is taken from where it lies, and other inputs are read.
fn do_kept<H: Host, C: Clients>(
    alloc: Global,
    hasher: RandomState,
    store: &mut Store,
    asked: Command,
    kept: &[u8],
    host: &mut H,
    out: &mut Output,
    clients: &C,
) -> Reply
    requires within { IsCommandWithin asked }
    requires ready { IsReadyToServe (C.meaning clients.now) store.old (H.tells host.old) }
    requires empty { out.old.bytes ≡ [] }
    ensures does { HasDoneOver H.tells (C.meaning clients.now) kept.now asked host.old host.new store.new
        result out.new.bytes }
    ensures sessions { leaves_sessions asked ≡ true
        → LeavesSessionsBy store.old store.new result.came }
{
    match asked {
        Command::MailboxIn(contact) => {
            take_kept(alloc, store, contact, kept, host, out, clients)
        }
        asked => {
            let mut input = Given::of(kept);
            do_command(alloc, hasher, store, asked, host, &mut input, out, clients)
        }
    }
}

// Does what a request asks for, over this input, and says what is answered.
fn do_command<H: Host, S: Source, C: Clients>(
    alloc: Global,
    hasher: RandomState,
    store: &mut Store,
    asked: Command,
    host: &mut H,
    input: &mut S,
    out: &mut Output,
    clients: &C,
) -> Reply
    requires within { IsCommandWithin asked }
    requires ready { IsReadyToServe (C.meaning clients.now) store.old (H.tells host.old) }
    requires empty { out.old.bytes ≡ [] }
    ensures does { HasDone H.tells (C.meaning clients.now)
        (AreStreams (S.tells input.old) (S.tells input.new)) asked host.old host.new store.new result
        out.new.bytes }
    ensures sessions { leaves_sessions asked ≡ true
        → LeavesSessionsBy store.old store.new result.came }
{
    match asked {
        Command::Quit => goodbye(),
        Command::Sync(_, _, _) | Command::Serve => nothing_done(Outcome::NodeHolds),
        Command::Try(name, descriptor) => {
            let (name, descriptor) = (name.as_str(), descriptor.as_str());
            let ended = try_group(alloc, hasher, name, descriptor, input, out, clients);
            said(Outcome::of(ended))
        }
        Command::Records => said(Outcome::of(list_records(alloc, input, out))),
        asked => do_on_store(alloc, store, asked, host, input, out, clients),
    }
}

// Does what a request asks of the store, once its journal is settled.
fn do_on_store<H: Host, S: Source, C: Clients>(
    alloc: Global,
    store: &mut Store,
    asked: Command,
    host: &mut H,
    input: &mut S,
    out: &mut Output,
    clients: &C,
) -> Reply
    requires within { IsCommandWithin asked }
    requires done { is_done_by_node asked ≡ true }
    requires ready { IsReadyToServe (C.meaning clients.now) store.old (H.tells host.old) }
    requires empty { out.old.bytes ≡ [] }
    ensures does { HasDone H.tells (C.meaning clients.now)
        (AreStreams (S.tells input.old) (S.tells input.new)) asked host.old host.new store.new result
        out.new.bytes }
    ensures sessions { leaves_sessions asked ≡ true
        → LeavesSessionsBy store.old store.new result.came }
{
    match migrate_and_settle(store, host, clients) {
        Ok(()) => said(Outcome::of(obey(alloc, store, asked, host, input, out, clients))),
        Err(came) => said(came),
    }
}

// Takes the records of a mailbox file of these bytes, once the journal is settled.
fn take_kept<H: Host, C: Clients>(
    alloc: Global,
    store: &mut Store,
    contact: u8,
    kept: &[u8],
    host: &mut H,
    out: &mut Output,
    clients: &C,
) -> Reply
    requires ready { IsReadyToServe (C.meaning clients.now) store.old (H.tells host.old) }
    requires empty { out.old.bytes ≡ [] }
    ensures { HasDoneOver H.tells (C.meaning clients.now) kept.now (command.MailboxIn contact)
        host.old host.new store.new result out.new.bytes }
{
    match migrate_and_settle(store, host, clients) {
        Ok(()) => said(Outcome::of(take_mail_bytes(
            alloc, store, contact, kept, host, out, clients,
        ))),
        Err(came) => said(came),
    }
}

// What is said where nothing was done.
fn nothing_done(came: Outcome) -> Reply
    ensures { (out : List ℕ) → said_by result out ≡ bare came }
{
    Reply {
        came,
        shown: false,
        ends: false,
    }
}

// What is said where the node ends.
fn goodbye() -> Reply
    ensures { (out : List ℕ) → said_by result out ≡ goodbye }
{
    Reply {
        came: Outcome::Done,
        shown: false,
        ends: true,
    }
}

// What is said of a command that came to this: what it printed goes out, unless no memory was found
// for that, and a fault of the disk ends the node.
fn said(came: Outcome) -> Reply
    ensures { (out : List ℕ) → said_by result out ≡ said_of came out }
{
    match came {
        Outcome::WriteFault => nothing_done(Outcome::Memory),
        Outcome::DiskFault => Reply {
            came: Outcome::DiskFault,
            shown: true,
            ends: true,
        },
        came => Reply {
            came,
            shown: true,
            ends: false,
        },
    }
}
