// The forms of the steps: what follows the first word of a line.
ghost use Rattle.std.specs.Prelude.{◌≡◌, ◌==◌, MatchOption, codes};
ghost use Rattle.std.specs.List.{slice_split};
ghost use Rattle.std.specs.Option.{option_copied};
ghost use Rattle.world_scripts.specs.Answers.{IsValueRead, ReadsValue, post_with};
ghost use Rattle.world_scripts.specs.Forms.{device_forms, each_label, end_in, form_in};
ghost use Rattle.world_scripts.specs.Forms.{labels_in, link_forms, post_front, step_forms};
ghost use Rattle.world_scripts.specs.Forms.{world_forms};

use crate::cut::cut;
use crate::fault::LineFault;
use crate::lists::{Labels, Text};
use crate::step::{MAX_LATENCY, MAX_ROUNDS, WorldStep};
use crate::words::Words;
use std::alloc::Global;
use sync_ids::MAX_TIMESTAMP;
use sync_words::{Word, number};

// The words of `group`.
pub(crate) fn read_group(alloc: Global, words: &mut Words) -> Result<WorldStep, LineFault>
    ensures { IsValueRead (form_in step_forms (codes "group") (option_copied words.old.left))
        result }
{
    let Some((device, kind, descriptor)) = read_pair(words) else {
        return Err(LineFault::NoForm);
    };
    let descriptor = Word::new(String::from_str(alloc, descriptor)?);
    Ok(WorldStep::Group(device, kind, descriptor))
}

// The device, the kind and the descriptor of a group.
#[tactic(auto, unfolding(crate::specs::Forms::step_forms))]
fn read_pair<'a>(words: &mut Words<'a>) -> Option<(u8, u8, &'a str)>
    ensures { MatchOption result
        (form_in step_forms (codes "group") (option_copied words.old.left) ≡ None)
        (λ x. form_in step_forms (codes "group") (option_copied words.old.left)
        ≡ Some (WorldStep.Group x.0 x.1 x.2.now)) }
{
    let device = words.device()?;
    let kind = words.kind()?;
    let descriptor = words.descriptor()?;
    if words.left.is_some() {
        return None;
    }
    Some((device, kind, descriptor))
}

// The labels of a post's parents: `-`, or numbers with commas between them.
#[tactic(auto, unfolding(crate::specs::Forms::labels_in))]
fn read_labels(alloc: Global, word: &str) -> Result<Labels, LineFault>
    ensures { IsValueRead (labels_in word.now) result }
{
    if word == "-" {
        return Ok(Labels::new(Vec::new(alloc)));
    }
    read_each(alloc, word)
}

// Labels with one comma between two.
fn read_each(alloc: Global, word: &str) -> Result<Labels, LineFault>
    ensures { IsValueRead (each_label (slice_split (λ b. b == 44) word.now)) result }
{
    let mut labels = Vec::new(alloc);
    let mut left = Some(word);
    while let Some(text) = left {
        let (label, behind) = cut(text, ',');
        let Some(label) = number(label, u64::MAX) else {
            return Err(LineFault::NoForm);
        };
        labels.push(label)?;
        left = behind;
    }
    Ok(Labels::new(labels))
}

// The device, the group and the time of a post.
#[tactic(auto, unfolding(crate::specs::Forms::post_front))]
fn read_place(words: &mut Words) -> Option<(u8, u64, u64)>
    ensures { MatchOption result (post_front (option_copied words.old.left) ≡ None)
        (λ x. post_front (option_copied words.old.left)
        ≡ Some (WorldStep.Post x.0 x.1 x.2, option_copied words.new.left)) }
{
    let device = words.device()?;
    let group = words.number(0, u64::MAX)?;
    let time = words.number(0, MAX_TIMESTAMP)?;
    Some((device, group, time))
}

// The words of `post`, and the text behind them.
pub(crate) fn read_post(alloc: Global, words: &mut Words) -> Result<WorldStep, LineFault>
    ensures { IsValueRead (form_in step_forms (codes "post") (option_copied words.old.left))
        result }
{
    let Some(((device, group, time), parents, text)) = read_parts(words) else {
        return Err(LineFault::NoForm);
    };
    let parents = read_labels(alloc, parents)?;
    let text = Text::new(Vec::from_slice(alloc, text.as_bytes())?);
    Ok(WorldStep::Post(device, group, time, parents, text))
}

// The place of a post, the word of its parents' labels, and its text.
fn read_parts<'a>(words: &mut Words<'a>) -> Option<((u8, u64, u64), &'a str, &'a str)>
    ensures { MatchOption result
        (form_in step_forms (codes "post") (option_copied words.old.left) ≡ None)
        (λ x. form_in step_forms (codes "post") (option_copied words.old.left)
        ≡ post_with (WorldStep.Post x.0.0 x.0.1 x.0.2) x.1.now x.2.now) }
{
    let place = read_place(words)?;
    let parents = words.word()?;
    let text = words.text()?;
    Some((place, parents, text))
}

#[tactic(auto, unfolding(crate::specs::Forms::device_forms))]
fn read_share(words: &mut Words) -> Option<WorldStep>
    ensures { result ≡ form_in device_forms (codes "share") (option_copied words.old.left) }
{
    let device = words.device()?;
    let other = words.device()?;
    let group = words.number(0, u64::MAX)?;
    let level = words.level()?;
    words.ended(WorldStep::Share(device, other, group, level))
}

#[tactic(auto, unfolding(crate::specs::Forms::device_forms))]
fn read_link(words: &mut Words) -> Option<WorldStep>
    ensures { result ≡ form_in device_forms (codes "link") (option_copied words.old.left) }
{
    let device = words.device()?;
    let other = words.device()?;
    let mode = words.mode()?;
    let latency = words.number(1, MAX_LATENCY)?;
    words.ended(WorldStep::Link(device, other, mode, latency as u32))
}

#[tactic(auto, unfolding(crate::specs::Forms::device_forms))]
fn read_stop(words: &mut Words) -> Option<WorldStep>
    ensures { result ≡ form_in device_forms (codes "stop") (option_copied words.old.left) }
{
    let device = words.device()?;
    let call = words.number(0, u64::MAX)?;
    let pick = words.pick()?;
    words.ended(WorldStep::Stop(device, call, pick))
}

// The steps of one device.
#[tactic(auto, unfolding(crate::specs::Forms::device_forms))]
pub(crate) fn read_device_step(word: &str, words: &mut Words) -> Option<WorldStep>
    ensures { result ≡ form_in device_forms word.now (option_copied words.old.left) }
{
    match word {
        "share" => read_share(words),
        "link" => read_link(words),
        "stop" => read_stop(words),
        "turn" => {
            let device = words.device()?;
            words.ended(WorldStep::Turn(device))
        }
        "restart" => {
            let device = words.device()?;
            words.ended(WorldStep::Restart(device))
        }
        word => read_record_step(word, words),
    }
}

// A link and the device at one of its ends.
#[tactic(auto, unfolding(crate::specs::Forms::end_in))]
fn read_end(words: &mut Words) -> Option<(u64, u8)>
    ensures { ReadsValue end_in (option_copied words.old.left) result
        (option_copied words.new.left) }
{
    let link = words.number(0, u64::MAX)?;
    let device = words.device()?;
    Some((link, device))
}

// The steps of the records in flight.
#[tactic(auto, unfolding(crate::specs::Forms::link_forms))]
fn read_record_step(word: &str, words: &mut Words) -> Option<WorldStep>
    ensures { result ≡ form_in link_forms word.now (option_copied words.old.left) }
{
    match word {
        "carry" => {
            let (link, device) = read_end(words)?;
            words.ended(WorldStep::Carry(link, device))
        }
        "lose" => {
            let (link, device) = read_end(words)?;
            words.ended(WorldStep::Lose(link, device))
        }
        "repeat" => {
            let (link, device) = read_end(words)?;
            words.ended(WorldStep::Repeat(link, device))
        }
        "swap" => {
            let (link, device) = read_end(words)?;
            words.ended(WorldStep::Swap(link, device))
        }
        word => read_world_step(word, words),
    }
}

// The steps of the whole world.
fn read_world_step(word: &str, words: &mut Words) -> Option<WorldStep>
    ensures { result ≡ form_in world_forms word.now (option_copied words.old.left) }
{
    match word {
        "cut" => {
            let link = words.number(0, u64::MAX)?;
            words.ended(WorldStep::Cut(link))
        }
        "clock" => {
            let time = words.number(0, u64::MAX)?;
            words.ended(WorldStep::Clock(time))
        }
        "rest" => {
            let rounds = words.number(1, MAX_ROUNDS)?;
            words.ended(WorldStep::Rest(rounds as u32))
        }
        _ => None,
    }
}
