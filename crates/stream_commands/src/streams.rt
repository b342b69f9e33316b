// The commands that read a stream of records: `try NAME DESCRIPTOR` and `records`.
ghost use Rattle.std.specs.Prelude.{◌≡◌, ◌≤◌, Some, length, IfOk};
ghost use Rattle.journal_play.specs.Playing.{IsTextOf};
ghost use Rattle.record_grammar.specs.Stream.{records_of};
ghost use Rattle.sync_rules.specs.Steps.{kind_of_def};
ghost use Rattle.sync_words.specs.Outcomes.{came_to};
ghost use Rattle.stream_commands.specs.RecordText.{items_text};
ghost use Rattle.stream_commands.specs.Streams.{outcome_of, PrintEnds, PrintsPlay, Streams, TriesClient};

use crate::input::{Heard, Stop, hear_input};
use crate::lister::Lister;
use crate::player::Player;
use journal_play::Play;
use outside::{Sink, Source, write_text};
use record_stream::Ending;
use std::alloc::{AllocError, Global};
use std::hash::RandomState;
use sync_ids::{GroupDef, MAX_DESCRIPTOR, MAX_NAME};
use sync_rules::{Clients, Refused};
use sync_words::Outcome;

/// Plays the records of the input in a journal of the group of this client's name, major version 0
/// and this descriptor, and prints what becomes of each message.
pub fn try_group<S: Source, W: Sink, C: Clients>(
    alloc: Global,
    hasher: RandomState,
    name: &str,
    descriptor: &str,
    input: &mut S,
    out: &mut W,
    clients: &C,
) -> Result<(), Outcome>
    requires some_name { 1 ≤ length name.now }
    requires short_name { length name.now ≤ MAX_NAME }
    requires short_descriptor { length descriptor.now ≤ MAX_DESCRIPTOR }
    ensures { TriesClient (C.meaning clients.now) name.now descriptor.now
        ((C.meaning clients.now).kind_of name.now 0) (S.tells input.old) (S.tells input.new)
        (W.tells out.old) (W.tells out.new) (came_to result) }
{
    let Some(kind) = clients.kind_of(name, 0) else {
        return Err(Outcome::Refused(Refused::UnknownClient));
    };
    let def = group_of(alloc, name, 0, descriptor)?;
    try_input(alloc, hasher, kind, def, input, out, clients)
}

/// The definition of the group of these words.
pub fn group_of(
    alloc: Global,
    name: &str,
    major: u32,
    descriptor: &str,
) -> Result<GroupDef, AllocError>
    requires some_name { 1 ≤ length name.now }
    requires short_name { length name.now ≤ MAX_NAME }
    requires short_descriptor { length descriptor.now ≤ MAX_DESCRIPTOR }
    ensures { IfOk result
        (λ def. def ≡ record { name = name.now; major = major; descriptor = descriptor.now }) }
{
    let name = String::from_str(alloc, name)?;
    let descriptor = descriptor.as_bytes().to_vec(alloc)?;
    match GroupDef::new(name, major, descriptor) {
        Ok(def) => Ok(def),
        Err(_) => unreachable!(),
    }
}

// Reads the input and plays its records.
fn try_input<S: Source, W: Sink, C: Clients>(
    alloc: Global,
    hasher: RandomState,
    kind: u8,
    def: GroupDef,
    input: &mut S,
    out: &mut W,
    clients: &C,
) -> Result<(), Outcome>
    requires { kind_of_def (C.meaning clients.now) def ≡ Some kind }
    ensures { Streams (λ items text. IsTextOf (C.meaning clients.now) def (records_of items) text)
        (S.tells input.old) (S.tells input.new) (W.tells out.old) (W.tells out.new)
        (came_to result) }
{
    let play = Play::begin(alloc, hasher, def, kind)?;
    let mut player = Player { clients, play };
    let heard = hear_input(alloc, input, &mut player)?;
    print_play(alloc, player.play, &heard, out)
}

// Finishes a played journal and writes its text.
fn print_play<W: Sink>(alloc: Global, play: Play, heard: &Heard, out: &mut W) -> Result<(), Outcome>
    ensures { PrintsPlay play heard.now.stop heard.now.ending (W.tells out.old) (W.tells out.new)
        (came_to result) }
{
    let text = play.finish(alloc)?;
    print(heard, text.as_str(), out)
}

/// Prints a line for each record and each skipped record of the input.
pub fn list_records<S: Source, W: Sink>(
    alloc: Global,
    input: &mut S,
    out: &mut W,
) -> Result<(), Outcome>
    ensures { Streams (λ items text. text ≡ items_text items) (S.tells input.old)
        (S.tells input.new) (W.tells out.old) (W.tells out.new) (came_to result) }
{
    let mut lister = Lister {
        text: String::new(alloc),
    };
    let heard = hear_input(alloc, input, &mut lister)?;
    print(&heard, lister.text.as_str(), out)
}

// Writes the text, and says what the command came to.
fn print<W: Sink>(heard: &Heard, text: &str, out: &mut W) -> Result<(), Outcome>
    ensures { PrintEnds heard.now.stop heard.now.ending text.now (W.tells out.old) (W.tells out.new)
        (came_to result) }
{
    match heard.stop {
        Stop::TooMuch => {
            let _ = write_text(out, text);
            Err(Outcome::TooMuch)
        }
        Stop::ReadFault => {
            let _ = write_text(out, text);
            Err(Outcome::ReadFault)
        }
        Stop::End => match write_text(out, text) {
            Ok(()) => ended(heard.ending),
            Err(_) => Err(Outcome::WriteFault),
        },
    }
}

// What an input that was read to its end comes to.
fn ended(ending: Ending) -> Result<(), Outcome>
    ensures { came_to result ≡ outcome_of ending }
{
    match ending {
        Ending::Clean => Ok(()),
        Ending::Inside(place) => Err(Outcome::Inside(place)),
        Ending::Bad(place, reason) => Err(Outcome::Bad(place, reason)),
    }
}
