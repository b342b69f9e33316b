//! Scripts played, and what is printed of the world then.
ghost use Rattle.std.specs.Prelude.{◌≡◌, ◌≤◌, length};
ghost use Rattle.sync_words.specs.Outcomes.{came_to};
ghost use Rattle.sync_words.specs.Words.{texts};
ghost use Rattle.sync_world.specs.Asking.{asks_replay};
ghost use Rattle.sync_world.specs.Playing.{ActsAt, CourseComesTo, ScriptComes};
ghost use Rattle.sync_world.specs.Playing.{came_at, came_unread, made_by};
ghost use Rattle.sync_world.specs.Replay.{OfScript, PlaysOut, Replayed, ReplaysWords};
ghost use Rattle.world_scripts.specs.Courses.{said};

use crate::asking::{Asked, read_words};
use crate::player::Player;
use outside::{InputFault, Sink, Source, read_input, write_text};
use std::alloc::Global;
use std::hash::RandomState;
use sync_words::{Outcome, Status};
use world_devices::StepFault;
use world_scripts::{
    Action, GENERATED_DEVICES, Generator, MAX_DEVICES, MAX_POSTS, MAX_SCRIPT, MIN_DEVICES, Script,
    ScriptFault, open_script,
};

/// Plays what the words ask for: without words the script on `input`, or the world that `gen SEED
/// COUNT` makes. Then it writes to `out` what each device holds; a fault is named on `err` alone.
///
/// A script has at most 1,048,576 bytes. The first line is named that is of no form or refused, or
/// line 1 where no line has a word. A failing `err` never changes the status.
pub fn replay<S: Source, W: Sink, E: Sink>(
    alloc: Global,
    hasher: RandomState,
    words: &[String],
    input: &mut S,
    out: &mut W,
    err: &mut E,
) -> Status
    ensures { Replayed (asks_replay (texts words.now)) (S.tells input.old) (S.tells input.new)
        (W.tells out.old) (W.tells out.new) (E.tells err.old) (E.tells err.new) result }
{
    let outcome = Outcome::of(play(alloc, hasher, words, input, out));
    let _ = write_text(err, outcome.text().as_str());
    outcome.status()
}

// Plays what the words ask for and prints it.
fn play<S: Source, W: Sink>(
    alloc: Global,
    hasher: RandomState,
    words: &[String],
    input: &mut S,
    out: &mut W,
) -> Result<(), Outcome>
    ensures { ReplaysWords (asks_replay (texts words.now)) (S.tells input.old) (S.tells input.new)
        (W.tells out.old) (W.tells out.new) (came_to result) }
{
    match read_words(words)? {
        Asked::Script => play_script(alloc, hasher, input, out),
        Asked::Generated(seed, count) => print_seed(alloc, hasher, seed, count, out),
    }
}

// Plays the script that is the whole input and prints it.
fn play_script<S: Source, W: Sink>(
    alloc: Global,
    hasher: RandomState,
    input: &mut S,
    out: &mut W,
) -> Result<(), Outcome>
    ensures { OfScript (S.tells input.old) (S.tells input.new) (W.tells out.old) (W.tells out.new)
        (came_to result) }
{
    let mut bytes = Vec::new(alloc);
    match read_input(input, MAX_SCRIPT as u64, &mut bytes) {
        Ok(()) => print_lines(alloc, hasher, bytes.as_slice(), out),
        Err(InputFault::TooMuch) => Err(Outcome::TooMuch),
        Err(InputFault::ReadFault) => Err(Outcome::ReadFault),
        Err(InputFault::Memory) => Err(Outcome::Memory),
    }
}

// Plays a script and prints it.
fn print_lines<W: Sink>(
    alloc: Global,
    hasher: RandomState,
    bytes: &[u8],
    out: &mut W,
) -> Result<(), Outcome>
    requires { length bytes.now ≤ MAX_SCRIPT }
    ensures { PlaysOut (said bytes.now) (W.tells out.old) (W.tells out.new) (came_to result) }
{
    let player = play_lines(alloc, hasher, bytes)?;
    player.print(alloc, out)
}

// Plays the world that a seed makes and prints it.
fn print_seed<W: Sink>(
    alloc: Global,
    hasher: RandomState,
    seed: u64,
    count: u32,
    out: &mut W,
) -> Result<(), Outcome>
    requires { count ≤ MAX_POSTS }
    ensures { PlaysOut (made_by seed count) (W.tells out.old) (W.tells out.new)
        (came_to result) }
{
    let player = play_seed(alloc, hasher, seed, count)?;
    player.print(alloc, out)
}

// Plays a script.
fn play_lines(alloc: Global, hasher: RandomState, bytes: &[u8]) -> Result<Player, Outcome>
    requires { length bytes.now ≤ MAX_SCRIPT }
    ensures { ScriptComes (said bytes.now) result }
{
    match open_script(alloc, bytes) {
        Ok(opened) => {
            let mut script = opened.script;
            play_course(alloc, hasher, opened.devices, &mut script)
        }
        Err(fault) => Err(unread(fault)),
    }
}

// Plays what follows the first line of a script.
fn play_course(
    alloc: Global,
    hasher: RandomState,
    devices: u8,
    script: &mut Script<'_>,
) -> Result<Player, Outcome>
    requires least { MIN_DEVICES ≤ devices }
    requires most { devices ≤ MAX_DEVICES }
    ensures { CourseComesTo devices script.old result }
{
    let mut player = Player::new(alloc, hasher, devices)?;
    'lines: loop {
        match script.next_action(alloc) {
            Ok(Some((line, action))) => act(&mut player, line, action)?,
            Ok(None) => return Ok(player),
            Err(fault) => return Err(unread(fault)),
        }
    }
}

// Plays the world that a seed makes.
fn play_seed(alloc: Global, hasher: RandomState, seed: u64, count: u32) -> Result<Player, Outcome>
    requires { count ≤ MAX_POSTS }
    ensures { ScriptComes (made_by seed count) result }
{
    let mut steps = Generator::new(seed, count);
    let mut player = Player::new(alloc, hasher, GENERATED_DEVICES)?;
    'steps: while let Some(step) = steps.next_step(alloc)? {
        act(&mut player, 1, Action::Step(step))?;
    }
    Ok(player)
}

// Does what a line says that has this number.
fn act(player: &mut Player, line: u32, action: Action) -> Result<(), Outcome>
    requires { player.old.devices ≤ MAX_DEVICES }
    ensures { ActsAt line action player.old player.new result }
{
    match player.act(&action) {
        Ok(()) => Ok(()),
        Err(fault) => Err(ended_by(line, fault)),
    }
}

// What a fault of the action of a line comes to.
fn ended_by(line: u32, fault: StepFault) -> Outcome
    ensures { result ≡ came_at line fault }
{
    match fault {
        StepFault::Memory => Outcome::Memory,
        StepFault::Full => Outcome::Full,
        StepFault::Refused => Outcome::BadScript(u64::from(line)),
    }
}

// What a fault of a script comes to.
fn unread(fault: ScriptFault) -> Outcome
    ensures { result ≡ came_unread fault }
{
    match fault {
        ScriptFault::Memory => Outcome::Memory,
        ScriptFault::BadLine(line) => Outcome::BadScript(u64::from(line)),
    }
}
