// A command from its words to its status.
ghost use Rattle.std.specs.Prelude.{◌≡◌};
ghost use Rattle.sync_top.specs.Complete.{Complete};
ghost use Rattle.sync_top.specs.Looking.{LooksUnless};
ghost use Rattle.sync_top.specs.Lives.{Serves, ServesAs};
ghost use Rattle.sync_top.specs.Run.{AsksServe, AsksSync, WordsComeTo, Covered, KeepsHost};
ghost use Rattle.sync_top.specs.Run.{RanCommand};
ghost use Rattle.sync_top.specs.Run.{ReportsOutcome};
ghost use Rattle.sync_top.specs.Sound.{AlwaysOpens};
ghost use Rattle.sync_top.specs.States.{TellsWhole};
ghost use Rattle.sync_top.specs.Undamaged.{NeverDamaged};
ghost use Rattle.sync_words.specs.Outcomes.{came_to};
ghost use Rattle.sync_words.specs.Words.{texts};
ghost use Rattle.commands.specs.Reading.{asks, IsCommandWithin};
ghost use Rattle.commands.specs.Reading.Asked.{Do};

use crate::laws::{lives_are_sound, runs_are_sound};
use audit_commands::print_audit;
use commands::{Command, read_words};
use journal_play::play_says;
use mailbox_commands::{Sending, send_mail, take_mail};
use node_life::serve_requests;
use outside::{Host, Sink, Source, write_text};
use sharing_commands::{Speech, agree, say};
use status_commands::print_status;
use std::alloc::Global;
use std::hash::RandomState;
use store_commands::{
    Listing, add_contact, add_group, compact, list, make_store, post_message, set_level, write_body,
};
use stream_commands::{group_of, list_records, try_group};
use sync_ids::{GroupDef, GroupId};
use sync_rules::Clients;
use sync_run::{Limits, sync_links};
use sync_words::{Outcome, Status};
use tree_commands::{Window, print_tree};

/// Runs the command that the words ask for: it reads `input`, writes its text to `out` and its
/// line, if it has one, to `err`, and says what it came to. The words are those after the program's
/// name; `hasher` is for the tables whose keys a stranger chooses. For the words of `sync` no link
/// was made on the host. A failing `err` never changes the status. Where the tests of a command
/// hold, its files serve, there is room and no call fails, it is done, unless memory is wanting;
/// but that for `try`, `records`
/// and `mailbox in` the bytes decide, and for `sync` its course. For the words `serve std` it answers
/// the requests of `input` on `out`, and what it does is said by its life.
pub fn run<H: Host, S: Source, W: Sink, E: Sink, C: Clients>(
    alloc: Global,
    hasher: RandomState,
    words: &[String],
    host: &mut H,
    input: &mut S,
    out: &mut W,
    err: &mut E,
    clients: &C,
) -> Status
    requires unused { AsksSync (asks (texts words.now)) → (H.tells host.old).links.dialled ≡ 0 }
    ensures headline { Covered (C.meaning clients.now) (asks (texts words.now)) (H.tells host.old)
        (H.tells host.new) }
    ensures opens { AlwaysOpens (C.meaning clients.now) (asks (texts words.now))
        (H.tells host.old) (H.tells host.new) }
    ensures ran { RanCommand (C.meaning clients.now) (asks (texts words.now)) (H.tells host.old)
        (H.tells host.new) (S.tells input.old) (S.tells input.new) (W.tells out.old)
        (W.tells out.new) (E.tells err.old) (E.tells err.new) result }
    ensures serves { Serves H.tells (C.meaning clients.now) (asks (texts words.now)) host.old
        host.new (S.tells input.old) (S.tells input.new) (W.tells out.old) (W.tells out.new)
        (E.tells err.old) (E.tells err.new) result }
    ensures states { TellsWhole (C.meaning clients.now) (asks (texts words.now)) (S.tells input.old)
        (S.tells input.new) (W.tells out.old) (W.tells out.new) result }
    ensures host { KeepsHost (asks (texts words.now)) host.old host.new }
    ensures looks { LooksUnless (asks (texts words.now)) (H.tells host.old) (H.tells host.new) }
    ensures undamaged { NeverDamaged (C.meaning clients.now) (asks (texts words.now))
        (H.tells host.old) (H.tells host.new) }
    ensures complete { Complete (C.meaning clients.now) (asks (texts words.now)) (H.tells host.old)
        (H.tells host.new) (S.tells input.old) (S.tells input.new) (W.tells out.old)
        (W.tells out.new) result }
{
    // The laws that the clauses on the states and on what is opened rest on.
    play_says();
    runs_are_sound();
    lives_are_sound();
    let outcome = command(alloc, hasher, words, host, input, out, clients);
    report(&outcome, err)
}

// Does what the words ask for.
fn command<H: Host, S: Source, W: Sink, C: Clients>(
    alloc: Global,
    hasher: RandomState,
    words: &[String],
    host: &mut H,
    input: &mut S,
    out: &mut W,
    clients: &C,
) -> Outcome
    requires unused { AsksSync (asks (texts words.now)) → (H.tells host.old).links.dialled ≡ 0 }
    ensures comes { WordsComeTo (C.meaning clients.now) (asks (texts words.now)) (H.tells host.old)
        (H.tells host.new) (S.tells input.old) (S.tells input.new) (W.tells out.old)
        (W.tells out.new) result }
    ensures serves { ServesAs H.tells (C.meaning clients.now) (asks (texts words.now)) host.old
        host.new (S.tells input.old) (S.tells input.new) (W.tells out.old) (W.tells out.new) result }
    ensures host { KeepsHost (asks (texts words.now)) host.old host.new }
{
    match read_words(alloc, words) {
        Ok(asked) => obey_any(alloc, hasher, asked, host, input, out, clients),
        Err(fault) => Outcome::from(fault),
    }
}

// Does what a command says, also one that runs over links or serves.
fn obey_any<H: Host, S: Source, W: Sink, C: Clients>(
    alloc: Global,
    hasher: RandomState,
    asked: Command,
    host: &mut H,
    input: &mut S,
    out: &mut W,
    clients: &C,
) -> Outcome
    requires within { IsCommandWithin asked }
    requires unused { AsksSync (Do asked) → (H.tells host.old).links.dialled ≡ 0 }
    ensures comes { WordsComeTo (C.meaning clients.now) (Do asked) (H.tells host.old) (H.tells host.new)
        (S.tells input.old) (S.tells input.new) (W.tells out.old) (W.tells out.new) result }
    ensures serves { ServesAs H.tells (C.meaning clients.now) (Do asked) host.old host.new
        (S.tells input.old) (S.tells input.new) (W.tells out.old) (W.tells out.new) result }
    ensures host { KeepsHost (Do asked) host.old host.new }
{
    match asked {
        Command::Sync(turns, quiet, links) => {
            let limits = Limits { turns, quiet };
            match sync_links(alloc, hasher, limits, links.as_slice(), host, clients) {
                Ok(ends) => Outcome::Links(ends),
                Err(came) => came,
            }
        }
        Command::Serve => serve_requests(alloc, hasher, host, input, out, clients),
        asked => Outcome::of(obey(alloc, hasher, asked, host, input, out, clients)),
    }
}

// Does what a command says that runs over no links and does not serve.
fn obey<H: Host, S: Source, W: Sink, C: Clients>(
    alloc: Global,
    hasher: RandomState,
    asked: Command,
    host: &mut H,
    input: &mut S,
    out: &mut W,
    clients: &C,
) -> Result<(), Outcome>
    requires within { IsCommandWithin asked }
    requires alone { AsksSync (Do asked) → ⊥ }
    requires serves_not { AsksServe (Do asked) → ⊥ }
    ensures comes { WordsComeTo (C.meaning clients.now) (Do asked) (H.tells host.old) (H.tells host.new)
        (S.tells input.old) (S.tells input.new) (W.tells out.old) (W.tells out.new)
        (came_to result) }
    ensures host { KeepsHost (Do asked) host.old host.new }
{
    match asked {
        Command::Try(name, descriptor) => try_group(
            alloc,
            hasher,
            name.as_str(),
            descriptor.as_str(),
            input,
            out,
            clients,
        ),
        Command::Records => list_records(alloc, input, out),
        Command::Init => make_store(host, out),
        Command::Contact => add_contact(alloc, hasher, host, out, clients),
        Command::Group(name, major, descriptor) => {
            let def = group_of(alloc, name.as_str(), major, descriptor.as_str())?;
            add_group(alloc, hasher, def, host, out, clients)
        }
        Command::Share(contact, group, level) => {
            set_level(alloc, hasher, contact, &group, level, host, out, clients)
        }
        Command::Post(group, timestamp) => {
            post_message(alloc, hasher, group, timestamp, host, input, out, clients)
        }
        Command::Show => list(alloc, hasher, Listing::Store, host, out, clients),
        Command::Inbox => list(alloc, hasher, Listing::Inbox, host, out, clients),
        Command::InboxFrom(from, count) => {
            let part = Listing::InboxFrom(from, count);
            list(alloc, hasher, part, host, out, clients)
        }
        Command::Body(id) => write_body(alloc, hasher, &id, host, out, clients),
        Command::Tree(group, from, count) => {
            let window = Window { group, from, count };
            print_tree(alloc, hasher, &window, host, out, clients)
        }
        Command::Audit => print_audit(alloc, host, out, clients),
        Command::Status => print_status(alloc, hasher, host, out, clients),
        Command::Quit => Err(Outcome::NoNode),
        Command::Say(group, timestamp, join, name, major, descriptor) => {
            let def = group_of(alloc, name.as_str(), major, descriptor.as_str())?;
            let speech = spoken(group, timestamp, join, def);
            say(alloc, hasher, speech, host, out, clients)
        }
        Command::Agree(contact, group) => {
            agree(alloc, hasher, contact, &group, host, out, clients)
        }
        Command::Compact => compact(alloc, hasher, host, out, clients),
        Command::MailboxIn(contact) => {
            take_mail(alloc, hasher, contact, host, input, out, clients)
        }
        Command::MailboxOut(contact, latency, count) => {
            let sending = Sending {
                contact,
                latency,
                count,
            };
            send_mail(alloc, hasher, sending, host, out, clients)
        }
        Command::Sync(_, _, _) | Command::Serve => unreachable!(),
    }
}

// What is said at this time of the group of this definition.
fn spoken(group: GroupId, timestamp: u64, join: bool, def: GroupDef) -> Speech
    ensures { result ≡ record { group = group; timestamp = timestamp; join = join; def = def } }
{
    Speech {
        group,
        timestamp,
        join,
        def,
    }
}

/// Writes what the error output gets of an outcome, and says its status. It takes no memory.
pub fn report<E: Sink>(outcome: &Outcome, err: &mut E) -> Status
    ensures { ReportsOutcome outcome.now (E.tells err.old) (E.tells err.new) result }
{
    let _ = write_text(err, outcome.text().as_str());
    outcome.status()
}
