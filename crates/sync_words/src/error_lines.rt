//! The lines of the error output. Each is made without memory, in a text that lies in the value
//! itself; the public builders append it to a string. They fail only for want of memory, and then
//! the string is as before.
ghost use Rattle.std.specs.Prelude.{◌≡◌, ◌+◌, ◌≤◌, [], ◌∷◌, ◌++◌, codes, decimal, length};
ghost use Rattle.std.specs.Prelude.{OnErr, OnOk, true};
ghost use Rattle.std.specs.String.{string_bytes};
ghost use Rattle.arrayvec.specs.ArrayString.{array_string_len};
ghost use Rattle.sync_words.specs.ErrorTexts.{bad_record_text, damaged_text, ending_text};
ghost use Rattle.sync_words.specs.ErrorTexts.{inside_text, is_plain, link_text, no_node_text};
ghost use Rattle.sync_words.specs.ErrorTexts.{no_request_text, no_version_text, node_busy_text};
ghost use Rattle.sync_words.specs.ErrorTexts.{node_holds_text, plain_text};
ghost use Rattle.sync_words.specs.ErrorTexts.{reason_text, refusal, refused_text, script_text};
ghost use Rattle.sync_words.specs.ErrorTexts.{usage_text};
ghost use Rattle.sync_words.specs.Texts.{AddsLine, AddsPart};

use crate::status::Status;
use arrayvec::ArrayString;
use itoa::Buffer;
use record_grammar::Reason;
use std::alloc::{AllocError, Global};
use sync_course::LinkEnd;
use sync_rules::Refused;

/// The most bytes of what the error output gets: the lines of 8 links fit.
pub const MAX_ERROR: usize = 1_024;

/// What the error output gets. It lies in the value itself.
pub type ErrorText = ArrayString<MAX_ERROR>;

// A number in digits, between two texts.
fn add_number(front: &'static str, n: u64, behind: &'static str, to: &mut ErrorText)
    requires room { array_string_len to.old ≤ 950 }
    requires short { length front.now + length behind.now ≤ 32 }
    ensures { AddsPart to.old to.new (front.now ++ (decimal n ++ behind.now))
        (length front.now + length behind.now + 20) }
{
    let mut digits = Buffer::new();
    to.push_str(front);
    to.push_str(digits.format(n));
    to.push_str(behind);
}

/// Adds the line of words that are not in the grammar, with the place of the first wrong one.
pub(crate) fn add_usage(n: usize, to: &mut ErrorText)
    requires { array_string_len to.old ≤ 900 }
    ensures { AddsLine to.old to.new (usage_text n) }
{
    add_number("usage: word ", n as u64, "\n", to);
}

/// The line of words that are not in the grammar, with the place of the first wrong one.
pub fn usage_line(n: usize, to: &mut String) -> Result<(), AllocError>
    ensures ok { OnOk result (string_bytes to.new ≡ string_bytes to.old ++ usage_text n) }
    ensures err { OnErr result (string_bytes to.new ≡ string_bytes to.old) }
{
    let mut line = ErrorText::new();
    add_usage(n, &mut line);
    to.push_str(line.as_str())
}

/// Adds the line of what is no request.
pub(crate) fn add_no_request(to: &mut ErrorText)
    requires { array_string_len to.old ≤ 900 }
    ensures { AddsLine to.old to.new no_request_text }
{
    to.push_str("usage: no request\n");
}

/// Adds the line of a command that a node can't do, since it holds the store.
pub(crate) fn add_node_holds(to: &mut ErrorText)
    requires { array_string_len to.old ≤ 900 }
    ensures { AddsLine to.old to.new node_holds_text }
{
    to.push_str("refused: a node holds the store\n");
}

/// Adds the line of what only a node that serves can do.
pub(crate) fn add_no_node(to: &mut ErrorText)
    requires { array_string_len to.old ≤ 900 }
    ensures { AddsLine to.old to.new no_node_text }
{
    to.push_str("refused: no node serves\n");
}

/// Adds the line of a node that did not say in time that it hears.
pub(crate) fn add_node_busy(to: &mut ErrorText)
    requires { array_string_len to.old ≤ 900 }
    ensures { AddsLine to.old to.new node_busy_text }
{
    to.push_str("refused: the node is busy\n");
}

// Why a command is refused, in words.
fn refusal(why: Refused) -> &'static str
    ensures words { result.now ≡ refusal why }
    ensures short { length result.now ≤ 32 }
{
    match why {
        Refused::UnknownClient => "unknown client",
        Refused::TooManyContacts => "too many contacts",
        Refused::GroupExists => "group exists",
        Refused::TooManyGroups => "too many groups",
        Refused::UnknownContact => "unknown contact",
        Refused::UnknownGroup => "unknown group",
        Refused::EmptyBody => "empty body",
        Refused::BodyTooLong => "body too long",
        Refused::AlreadyHeld => "already held",
        Refused::InvalidPost => "invalid post",
        Refused::DependencyNotDelivered => "dependency not delivered",
        Refused::UnknownMessage => "unknown message",
        Refused::TooManySessions => "too many sessions",
        Refused::NotSharing => "not a sharing group",
    }
}

/// Adds the line of a refused command.
pub(crate) fn add_refused(why: Refused, to: &mut ErrorText)
    requires { array_string_len to.old ≤ 900 }
    ensures { AddsLine to.old to.new (refused_text why) }
{
    to.push_str("refused: ");
    to.push_str(refusal(why));
    to.push_str("\n");
}

/// The line of a refused command.
pub fn refused_line(why: Refused, to: &mut String) -> Result<(), AllocError>
    ensures ok { OnOk result (string_bytes to.new ≡ string_bytes to.old ++ refused_text why) }
    ensures err { OnErr result (string_bytes to.new ≡ string_bytes to.old) }
{
    let mut line = ErrorText::new();
    add_refused(why, &mut line);
    to.push_str(line.as_str())
}

/// Adds the line of files that stand for no journal: the file's number and the place in it.
pub(crate) fn add_damaged(file: u8, at: u64, to: &mut ErrorText)
    requires { array_string_len to.old ≤ 900 }
    ensures { AddsLine to.old to.new (damaged_text file at) }
{
    add_number("damaged: file ", u64::from(file), " at ", to);
    add_number("", at, "\n", to);
}

/// The line of files that stand for no journal: the file's number and the place in it.
pub fn damaged_line(file: u8, at: u64, to: &mut String) -> Result<(), AllocError>
    ensures ok { OnOk result (string_bytes to.new ≡ string_bytes to.old ++ damaged_text file at) }
    ensures err { OnErr result (string_bytes to.new ≡ string_bytes to.old) }
{
    let mut line = ErrorText::new();
    add_damaged(file, at, &mut line);
    to.push_str(line.as_str())
}

// The line of a status that names nothing; it is empty at a status of which a line says more.
fn plain(status: Status) -> &'static str
    ensures words { result.now ≡ plain_text status }
    ensures short { length result.now ≤ 32 }
{
    match status {
        Status::NoStore => "no store\n",
        Status::Exists => "store exists\n",
        Status::DiskFault => "disk fault\n",
        Status::ReadFault => "read fault\n",
        Status::Full => "full\n",
        Status::Memory => "out of memory\n",
        Status::WriteFault => "write fault\n",
        Status::TooMuch => "input too long\n",
        Status::NoAnswer => "no answer\n",
        Status::Done
        | Status::Usage
        | Status::Refused
        | Status::Damaged
        | Status::LinkFault
        | Status::BadStream
        | Status::TurnsUsed
        | Status::BadScript => "",
    }
}

/// Adds the line of a status that names nothing.
pub(crate) fn add_plain(status: Status, to: &mut ErrorText)
    requires { array_string_len to.old ≤ 900 }
    ensures { AddsLine to.old to.new (plain_text status) }
{
    to.push_str(plain(status));
}

/// The line of a status that names nothing.
pub fn plain_line(status: Status, to: &mut String) -> Result<(), AllocError>
    requires { is_plain status ≡ true }
    ensures ok { OnOk result (string_bytes to.new ≡ string_bytes to.old ++ plain_text status) }
    ensures err { OnErr result (string_bytes to.new ≡ string_bytes to.old) }
{
    to.push_str(plain(status))
}

// A reason in words.
fn reason_word(reason: Reason) -> &'static str
    ensures words { result.now ≡ reason_text reason }
    ensures short { length result.now ≤ 16 }
{
    match reason {
        Reason::WrongVersion => "wrong version",
        Reason::TooLong => "too long",
        Reason::EmptyIds => "empty id list",
        Reason::RaggedIds => "ragged id list",
        Reason::ShortMessage => "short message",
        Reason::BodyTooLong => "body too long",
        Reason::BadTimestamp => "bad timestamp",
        Reason::BadVersions => "bad versions",
        Reason::BadNonce => "bad nonce",
    }
}

/// Adds the line of a stream in which at this place something begins that is no record.
pub(crate) fn add_bad_record(place: u64, reason: Reason, to: &mut ErrorText)
    requires { array_string_len to.old ≤ 930 }
    ensures { AddsPart to.old to.new (bad_record_text place reason) 89 }
{
    add_number("bad record at ", place, ": ", to);
    to.push_str(reason_word(reason));
    to.push_str("\n");
}

/// The line of a stream in which at this place something begins that is no record.
pub fn bad_record_line(place: u64, reason: Reason, to: &mut String) -> Result<(), AllocError>
    ensures ok { OnOk result (string_bytes to.new ≡ string_bytes to.old ++ bad_record_text place
        reason) }
    ensures err { OnErr result (string_bytes to.new ≡ string_bytes to.old) }
{
    let mut line = ErrorText::new();
    add_bad_record(place, reason, &mut line);
    to.push_str(line.as_str())
}

/// Adds the line of a stream that ends inside the record that begins at this place.
pub(crate) fn add_inside(place: u64, to: &mut ErrorText)
    requires { array_string_len to.old ≤ 930 }
    ensures { AddsPart to.old to.new (inside_text place) 89 }
{
    add_number("ended inside a record at ", place, "\n", to);
}

/// The line of a stream that ends inside the record that begins at this place.
pub fn inside_line(place: u64, to: &mut String) -> Result<(), AllocError>
    ensures ok { OnOk result (string_bytes to.new ≡ string_bytes to.old ++ inside_text place) }
    ensures err { OnErr result (string_bytes to.new ≡ string_bytes to.old) }
{
    let mut line = ErrorText::new();
    add_inside(place, &mut line);
    to.push_str(line.as_str())
}

/// Adds the line of a bad script: the first bad line, counted from 1.
pub(crate) fn add_script(line: u64, to: &mut ErrorText)
    requires { array_string_len to.old ≤ 900 }
    ensures { AddsLine to.old to.new (script_text line) }
{
    add_number("bad script: line ", line, "\n", to);
}

/// The line of a bad script: the first bad line, counted from 1.
pub fn script_line(line: u64, to: &mut String) -> Result<(), AllocError>
    ensures ok { OnOk result (string_bytes to.new ≡ string_bytes to.old ++ script_text line) }
    ensures err { OnErr result (string_bytes to.new ≡ string_bytes to.old) }
{
    let mut text = ErrorText::new();
    add_script(line, &mut text);
    to.push_str(text.as_str())
}

// How a link stood at the end of a run, which was over or not, in words.
fn add_ending(over: bool, end: LinkEnd, to: &mut ErrorText)
    requires { array_string_len to.old ≤ 930 }
    ensures { AddsPart to.old to.new (ending_text over end) 89 }
{
    match end {
        LinkEnd::Going if over => to.push_str("quiet\n"),
        LinkEnd::Clean if over => to.push_str("clean\n"),
        LinkEnd::Going | LinkEnd::Clean => to.push_str("unfinished\n"),
        LinkEnd::Redundant => to.push_str("redundant\n"),
        LinkEnd::Inside(place) => add_inside(place, to),
        LinkEnd::Bad(place, reason) => add_bad_record(place, reason, to),
        LinkEnd::NoVersion(place) => add_no_version(place, to),
        LinkEnd::Failed => to.push_str("failed\n"),
    }
}

/// Adds the line of a peer that has no version in common with this side: the place of its list.
pub(crate) fn add_no_version(place: u64, to: &mut ErrorText)
    requires { array_string_len to.old ≤ 930 }
    ensures { AddsPart to.old to.new (no_version_text place) 89 }
{
    add_number("no common version at ", place, "\n", to);
}

/// Adds the line of a link: its number, and how it stood at the end of a run, which was over or
/// not.
pub(crate) fn add_link(link: u8, over: bool, end: LinkEnd, to: &mut ErrorText)
    requires { array_string_len to.old ≤ 900 }
    ensures { AddsPart to.old to.new (link_text link over end) 120 }
{
    add_number("link ", u64::from(link), ": ", to);
    add_ending(over, end, to);
}

/// The line of a link: its number, and how it stood at the end of a run, which was over or not.
///
/// # Errors
/// Only for want of memory; `to` is then as before.
pub fn link_line(link: u8, over: bool, end: LinkEnd, to: &mut String) -> Result<(), AllocError>
    ensures ok { OnOk result (string_bytes to.new ≡ string_bytes to.old ++ link_text link over
        end) }
    ensures err { OnErr result (string_bytes to.new ≡ string_bytes to.old) }
{
    let mut line = ErrorText::new();
    add_link(link, over, end, &mut line);
    to.push_str(line.as_str())
}
