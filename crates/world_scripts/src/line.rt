//! Reading a line.
ghost use Rattle.std.specs.Prelude.{◌≡◌};
ghost use Rattle.std.specs.Option.{option_copied};
ghost use Rattle.world_scripts.specs.Answers.{IsValueRead};
ghost use Rattle.world_scripts.specs.Forms.{devices_in, line_in, said_in, show_in, words_in};

use crate::fault::LineFault;
use crate::step::{Action, Line, MAX_DEVICES, MIN_DEVICES, WorldStep};
use crate::steps::{read_device_step, read_group, read_post};
use crate::words::Words;
use std::alloc::Global;

/// Reads a line, given without its end: what it says, by itself. Whether the things that it names
/// are there is for the world to say.
///
/// # Errors
/// `NoForm` exactly where the line has none of the forms, as an empty one; `Memory` for want of
/// memory.
#[tactic(auto, unfolding(crate::specs::Forms::line_in))]
pub fn read_line(alloc: Global, line: &[u8]) -> Result<Line, LineFault>
    ensures { IsValueRead (line_in line.now) result }
{
    let Ok(text) = str::from_utf8(line) else {
        return Err(LineFault::NoForm);
    };
    read_words(alloc, text)
}

// What the words of a line say.
#[tactic(auto, unfolding(crate::specs::Forms::word_in))]
fn read_words(alloc: Global, text: &str) -> Result<Line, LineFault>
    ensures { IsValueRead (words_in text.now) result }
{
    let mut words = Words { left: Some(text) };
    let word = words.word().ok_or(LineFault::NoForm)?;
    read_said(alloc, word, &mut words)
}

// What a line says whose first word this is.
#[tactic(auto, unfolding(crate::specs::Forms::said_in, crate::specs::Forms::step_forms))]
fn read_said(alloc: Global, word: &str, words: &mut Words) -> Result<Line, LineFault>
    ensures { IsValueRead (said_in word.now (option_copied words.old.left)) result }
{
    match word {
        "devices" => read_devices(words).ok_or(LineFault::NoForm),
        "show" => read_show(words).ok_or(LineFault::NoForm),
        "group" => Ok(does(read_group(alloc, words)?)),
        "post" => Ok(does(read_post(alloc, words)?)),
        word => match read_device_step(word, words) {
            Some(step) => Ok(does(step)),
            None => Err(LineFault::NoForm),
        },
    }
}

fn does(step: WorldStep) -> Line
    ensures { result ≡ Line.Does (Action.Step step) }
{
    Line::Does(Action::Step(step))
}

fn read_devices(words: &mut Words) -> Option<Line>
    ensures { result ≡ devices_in (option_copied words.old.left) }
{
    let devices = words.number(MIN_DEVICES, MAX_DEVICES)?;
    if words.left.is_some() {
        return None;
    }
    Some(Line::Devices(devices as u8))
}

fn read_show(words: &mut Words) -> Option<Line>
    ensures { result ≡ show_in (option_copied words.old.left) }
{
    let device = words.device()?;
    if words.left.is_some() {
        return None;
    }
    Some(Line::Does(Action::Show(device)))
}
