//! What the words of a command line ask for.
ghost use Rattle.std.specs.Prelude.{◌≡◌, ◌≤◌, drop, IfOk, IfSome};
ghost use Rattle.commands.specs.Reading.{asks, asks_agree, asks_of, asks_try, asks_group};
ghost use Rattle.commands.specs.Reading.{asks_mailbox, asks_share, asks_sending, asks_taking};
ghost use Rattle.commands.specs.Reading.{asks_post, asks_body, asks_say, asks_saying, asks_sync};
ghost use Rattle.commands.specs.Reading.{asks_inbox, asks_inbox_from, asks_serve, asks_tree, no_more};
ghost use Rattle.commands.specs.Reading.{IsReadAs, IsCommandWithin, plain_in};
ghost use Rattle.sync_words.specs.Words.{texts};

use crate::command::Command;
use crate::fault::WordsFault;
use crate::links::{MAX_LATENCY, read_links};
use crate::words::{
    descriptor_at, id_at, is_left_at, level_at, name_at, number_at, positive_at, stance_at, std_at,
    way_at,
};
use std::alloc::Global;
use sync_ids::{GroupId, MAX_TIMESTAMP};
use sync_rules::MAX_CONTACTS;

/// The greatest number of a contact.
pub const MAX_CONTACT: u64 = MAX_CONTACTS as u64 - 1;

// The greatest major version of a client.
const MAX_MAJOR: u64 = 4_294_967_295;

// The greatest place of a walk or of the delivered messages, and the most messages of it.
const MAX_WALK: u64 = 4_294_967_295;

/// The most outputs in a mailbox file.
pub const MAX_OUTS: u64 = 1_000_000;

/// The most turns of a run, and the most still turns behind which it is over.
pub const MAX_TURNS: u64 = 1_000_000;

/// Reads the words of a command line, those after the program's name.
///
/// # Errors `Usage` exactly where the words are not in the grammar, with the place; `Memory` for
/// want of memory.
pub fn read_words(alloc: Global, words: &[String]) -> Result<Command, WordsFault>
    ensures read { IsReadAs (asks (texts words.now)) result }
    ensures within { IfOk result IsCommandWithin }
{
    match words.first() {
        Some(word) => read_command(alloc, word.as_str(), words),
        None => Err(WordsFault::Usage(0)),
    }
}

// Reads the words behind the first one.
fn read_command(alloc: Global, word: &str, words: &[String]) -> Result<Command, WordsFault>
    ensures read { IsReadAs (asks_of word.now 1 (drop 1 (texts words.now))) result }
    ensures within { IfOk result IsCommandWithin }
{
    match word {
        "try" => read_try(alloc, words),
        "group" => read_group(alloc, words),
        "share" => read_share(words),
        "post" => read_post(words),
        "inbox" => read_inbox(words),
        "body" => read_body(words),
        "tree" => read_tree(words),
        "say" => read_say(alloc, words),
        "agree" => read_agree(words),
        "mailbox" => read_mailbox(words),
        "serve" => read_serve(words),
        "sync" => read_sync(alloc, words),
        word => match plain(word) {
            Some(command) => read_end(words, 1, command),
            None => Err(WordsFault::Usage(0)),
        },
    }
}

// The command without parts of this word.
fn plain(word: &str) -> Option<Command>
    ensures value { result ≡ plain_in word.now }
    ensures within { IfSome result IsCommandWithin }
{
    match word {
        "records" => Some(Command::Records),
        "init" => Some(Command::Init),
        "contact" => Some(Command::Contact),
        "show" => Some(Command::Show),
        "audit" => Some(Command::Audit),
        "status" => Some(Command::Status),
        "quit" => Some(Command::Quit),
        "compact" => Some(Command::Compact),
        _ => None,
    }
}

// The command, where no word stands at this place.
fn read_end(words: &[String], place: usize, command: Command) -> Result<Command, WordsFault>
    ensures read { IsReadAs (no_more command place (drop place (texts words.now))) result }
    ensures same { IfOk result (λ read. read ≡ command) }
{
    if is_left_at(words, place) {
        return Err(WordsFault::Usage(place));
    }
    Ok(command)
}

fn read_try(alloc: Global, words: &[String]) -> Result<Command, WordsFault>
    ensures read { IsReadAs (asks_try 1 (drop 1 (texts words.now))) result }
    ensures within { IfOk result IsCommandWithin }
{
    let name = name_at(alloc, words, 1)?;
    let descriptor = descriptor_at(alloc, words, 2)?;
    read_end(words, 3, Command::Try(name, descriptor))
}

fn read_group(alloc: Global, words: &[String]) -> Result<Command, WordsFault>
    ensures read { IsReadAs (asks_group 1 (drop 1 (texts words.now))) result }
    ensures within { IfOk result IsCommandWithin }
{
    let name = name_at(alloc, words, 1)?;
    let major = number_at(words, 2, MAX_MAJOR)?;
    let descriptor = descriptor_at(alloc, words, 3)?;
    read_end(words, 4, Command::Group(name, major as u32, descriptor))
}

fn read_share(words: &[String]) -> Result<Command, WordsFault>
    ensures read { IsReadAs (asks_share 1 (drop 1 (texts words.now))) result }
    ensures within { IfOk result IsCommandWithin }
{
    let contact = number_at(words, 1, MAX_CONTACT)?;
    let group = id_at(words, 2)?;
    let level = level_at(words, 3)?;
    read_end(words, 4, Command::Share(contact as u8, group, level))
}

fn read_post(words: &[String]) -> Result<Command, WordsFault>
    ensures read { IsReadAs (asks_post 1 (drop 1 (texts words.now))) result }
    ensures within { IfOk result IsCommandWithin }
{
    let group = id_at(words, 1)?;
    let timestamp = number_at(words, 2, MAX_TIMESTAMP)?;
    read_end(words, 3, Command::Post(group, timestamp))
}

fn read_inbox(words: &[String]) -> Result<Command, WordsFault>
    ensures read { IsReadAs (asks_inbox 1 (drop 1 (texts words.now))) result }
    ensures within { IfOk result IsCommandWithin }
{
    if is_left_at(words, 1) {
        read_inbox_from(words)
    } else {
        Ok(Command::Inbox)
    }
}

// Reads which part of the delivered messages is printed.
fn read_inbox_from(words: &[String]) -> Result<Command, WordsFault>
    ensures read { IsReadAs (asks_inbox_from 1 (drop 1 (texts words.now))) result }
    ensures within { IfOk result IsCommandWithin }
{
    let from = number_at(words, 1, MAX_WALK)?;
    let count = number_at(words, 2, MAX_WALK)?;
    read_end(words, 3, Command::InboxFrom(from as u32, count as u32))
}

fn read_body(words: &[String]) -> Result<Command, WordsFault>
    ensures read { IsReadAs (asks_body 1 (drop 1 (texts words.now))) result }
    ensures within { IfOk result IsCommandWithin }
{
    let id = id_at(words, 1)?;
    read_end(words, 2, Command::Body(id))
}

fn read_tree(words: &[String]) -> Result<Command, WordsFault>
    ensures read { IsReadAs (asks_tree 1 (drop 1 (texts words.now))) result }
    ensures within { IfOk result IsCommandWithin }
{
    let group = id_at(words, 1)?;
    let from = number_at(words, 2, MAX_WALK)?;
    let count = number_at(words, 3, MAX_WALK)?;
    read_end(words, 4, Command::Tree(group, from as u32, count as u32))
}

fn read_say(alloc: Global, words: &[String]) -> Result<Command, WordsFault>
    ensures read { IsReadAs (asks_say 1 (drop 1 (texts words.now))) result }
    ensures within { IfOk result IsCommandWithin }
{
    let group = id_at(words, 1)?;
    let timestamp = number_at(words, 2, MAX_TIMESTAMP)?;
    let join = stance_at(words, 3)?;
    read_saying(alloc, words, group, timestamp, join)
}

// Reads the definition of the group that is joined or left.
fn read_saying(
    alloc: Global,
    words: &[String],
    group: GroupId,
    timestamp: u64,
    join: bool,
) -> Result<Command, WordsFault>
    requires { timestamp ≤ MAX_TIMESTAMP }
    ensures read { IsReadAs (asks_saying group timestamp join 4 (drop 4 (texts words.now)))
        result }
    ensures within { IfOk result IsCommandWithin }
{
    let name = name_at(alloc, words, 4)?;
    let major = number_at(words, 5, MAX_MAJOR)?;
    let descriptor = descriptor_at(alloc, words, 6)?;
    let asked = Command::Say(group, timestamp, join, name, major as u32, descriptor);
    read_end(words, 7, asked)
}

fn read_agree(words: &[String]) -> Result<Command, WordsFault>
    ensures read { IsReadAs (asks_agree 1 (drop 1 (texts words.now))) result }
    ensures within { IfOk result IsCommandWithin }
{
    let contact = number_at(words, 1, MAX_CONTACT)?;
    let group = id_at(words, 2)?;
    read_end(words, 3, Command::Agree(contact as u8, group))
}

fn read_mailbox(words: &[String]) -> Result<Command, WordsFault>
    ensures read { IsReadAs (asks_mailbox 1 (drop 1 (texts words.now))) result }
    ensures within { IfOk result IsCommandWithin }
{
    let inward = way_at(words, 1)?;
    if inward {
        read_taking(words)
    } else {
        read_sending(words)
    }
}

// Reads whose file is read.
fn read_taking(words: &[String]) -> Result<Command, WordsFault>
    ensures read { IsReadAs (asks_taking 2 (drop 2 (texts words.now))) result }
    ensures within { IfOk result IsCommandWithin }
{
    let contact = number_at(words, 2, MAX_CONTACT)?;
    read_end(words, 3, Command::MailboxIn(contact as u8))
}

// Reads for whom a file is written, and how.
fn read_sending(words: &[String]) -> Result<Command, WordsFault>
    ensures read { IsReadAs (asks_sending 2 (drop 2 (texts words.now))) result }
    ensures within { IfOk result IsCommandWithin }
{
    let contact = number_at(words, 2, MAX_CONTACT)?;
    let latency = positive_at(words, 3, MAX_LATENCY)?;
    let count = positive_at(words, 4, MAX_OUTS)?;
    let asked = Command::MailboxOut(contact as u8, latency as u32, count as u32);
    read_end(words, 5, asked)
}

fn read_serve(words: &[String]) -> Result<Command, WordsFault>
    ensures read { IsReadAs (asks_serve 1 (drop 1 (texts words.now))) result }
    ensures within { IfOk result IsCommandWithin }
{
    std_at(words, 1)?;
    read_end(words, 2, Command::Serve)
}

fn read_sync(alloc: Global, words: &[String]) -> Result<Command, WordsFault>
    ensures read { IsReadAs (asks_sync 1 (drop 1 (texts words.now))) result }
    ensures within { IfOk result IsCommandWithin }
{
    let turns = positive_at(words, 1, MAX_TURNS)?;
    let quiet = positive_at(words, 2, MAX_TURNS)?;
    let links = read_links(alloc, words)?;
    Ok(Command::Sync(turns as u32, quiet as u32, links))
}
