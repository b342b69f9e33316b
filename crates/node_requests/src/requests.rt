// A command that is done over a loaded store.
ghost use Rattle.std.specs.Prelude.{◌≡◌, true};
ghost use Rattle.commands.specs.Reading.{IsCommandWithin};
ghost use Rattle.store_commands.specs.Serving.{IsServed, LeavesSessionsBy, ServesOn};
ghost use Rattle.sync_words.specs.Outcomes.{came_to};
ghost use Rattle.node_service.specs.Outputs.{output_told};
ghost use Rattle.node_requests.specs.Requests.{DoesRequest, is_done_by_node, leaves_sessions};

use crate::definitions::{add_named, say_named};
use crate::listings::put_listing;
use audit_commands::print_audit_loaded;
use commands::Command;
use mailbox_commands::{Sending, send_mail_loaded, take_mail_loaded};
use node_service::Output;
use outside::{Host, Source};
use sharing_commands::agree_loaded;
use status_commands::print_status_loaded;
use std::alloc::Global;
use store_commands::{
    Listing, add_contact_loaded, compact_loaded, post_loaded, set_level_loaded, write_body_loaded,
};
use sync_rules::Clients;
use sync_store::Store;
use sync_words::Outcome;
use tree_commands::{Window, print_tree_loaded};

/// Does what a command asks for over a store that is served, as by itself over its files as they
/// stand: `init` finds the store. The words of `try` and `records` use no store, a run of sessions and
/// another node would want it for themselves, and `quit` ends the node: they are not done here. After
/// each outcome but `DiskFault` the store may be used again; after `Memory` it is to be settled first.
pub fn obey<H: Host, S: Source, C: Clients>(
    alloc: Global,
    store: &mut Store,
    asked: Command,
    host: &mut H,
    input: &mut S,
    out: &mut Output,
    clients: &C,
) -> Result<(), Outcome>
    requires within { IsCommandWithin asked }
    requires done { is_done_by_node asked ≡ true }
    requires served { IsServed (C.meaning clients.now) store.old (H.tells host.old) }
    ensures does { DoesRequest (C.meaning clients.now) asked (H.tells host.old) (H.tells host.new)
        (S.tells input.old) (S.tells input.new) (output_told out.old) (output_told out.new)
        (came_to result) }
    ensures serves { ServesOn (C.meaning clients.now) store.new (H.tells host.new)
        (came_to result) }
    ensures sessions { leaves_sessions asked ≡ true
        → LeavesSessionsBy store.old store.new (came_to result) }
{
    match asked {
        Command::Init => Err(Outcome::Exists),
        Command::Contact => add_contact_loaded(alloc, store, host, out, clients),
        Command::Group(name, major, descriptor) => {
            let (name, descriptor) = (name.as_str(), descriptor.as_str());
            add_named(alloc, store, name, major, descriptor, host, out, clients)
        }
        Command::Share(contact, group, level) => {
            set_level_loaded(alloc, store, contact, &group, level, host, out, clients)
        }
        Command::Post(group, timestamp) => {
            post_loaded(alloc, store, group, timestamp, host, input, out, clients)
        }
        Command::Show => put_listing(alloc, store, Listing::Store, host, out),
        Command::Inbox => put_listing(alloc, store, Listing::Inbox, host, out),
        Command::InboxFrom(from, count) => {
            put_listing(alloc, store, Listing::InboxFrom(from, count), host, out)
        }
        Command::Body(id) => write_body_loaded(store, &id, host, out),
        Command::Tree(group, from, count) => {
            let window = Window { group, from, count };
            print_tree_loaded(alloc, store, &window, host, out)
        }
        Command::Audit => print_audit_loaded(alloc, store, host, out, clients),
        Command::Say(group, timestamp, join, name, major, descriptor) => {
            let (name, descriptor) = (name.as_str(), descriptor.as_str());
            say_named(
                alloc, store, group, timestamp, join, name, major, descriptor, host, out, clients,
            )
        }
        Command::Agree(contact, group) => {
            agree_loaded(alloc, store, contact, &group, host, out, clients)
        }
        Command::Compact => compact_loaded(alloc, store, host, out, clients),
        Command::MailboxIn(contact) => {
            take_mail_loaded(alloc, store, contact, host, input, out, clients)
        }
        Command::MailboxOut(contact, latency, count) => {
            let sending = Sending {
                contact,
                latency,
                count,
            };
            send_mail_loaded(alloc, store, sending, host, out, clients)
        }
        Command::Status => print_status_loaded(alloc, store, host, out),
        Command::Try(_, _)
        | Command::Records
        | Command::Sync(_, _, _)
        | Command::Serve
        | Command::Quit => unreachable!(),
    }
}
