//! A step, spelled as its line.
use outside::Pick;
use std::alloc::{AllocError, Global};
use sync_rules::{Level, Mode};
use world_scripts::{FEED, NOTE, THREAD, WorldStep};

/// The line of a step.
pub fn spelled(alloc: Global, step: &WorldStep) -> Result<String, AllocError> {
    match step {
        WorldStep::Group(device, kind, descriptor) => {
            let (kind, descriptor) = (kind_word(*kind), descriptor.as_str());
            line_of_two(alloc, "group", &[u64::from(*device)], kind, descriptor)
        }
        WorldStep::Share(device, other, group, level) => {
            let numbers = [u64::from(*device), u64::from(*other), *group];
            line(alloc, "share", &numbers, &[level_word(*level)])
        }
        WorldStep::Post(device, group, time, parents, text) => {
            let parents = joined(alloc, parents.as_slice())?;
            let text = str::from_utf8(text.as_slice()).unwrap_or("a text is no text");
            let numbers = [u64::from(*device), *group, *time];
            line_of_two(alloc, "post", &numbers, parents.as_str(), text)
        }
        WorldStep::Link(device, other, mode, latency) => {
            let numbers = [u64::from(*device), u64::from(*other)];
            let latency = joined(alloc, &[u64::from(*latency)])?;
            let mode = mode_word(*mode);
            line_of_two(alloc, "link", &numbers, mode, latency.as_str())
        }
        WorldStep::Stop(device, call, pick) => {
            let numbers = [u64::from(*device), *call];
            line(alloc, "stop", &numbers, &[pick_word(*pick)])
        }
        step => spelled_numbers(alloc, step),
    }
}

// The line of a step whose parts are numbers.
fn spelled_numbers(alloc: Global, step: &WorldStep) -> Result<String, AllocError> {
    match step {
        WorldStep::Turn(device) => line(alloc, "turn", &[u64::from(*device)], &[]),
        WorldStep::Carry(link, device) => of_link(alloc, "carry", *link, *device),
        WorldStep::Lose(link, device) => of_link(alloc, "lose", *link, *device),
        WorldStep::Repeat(link, device) => of_link(alloc, "repeat", *link, *device),
        WorldStep::Swap(link, device) => of_link(alloc, "swap", *link, *device),
        WorldStep::Cut(link) => line(alloc, "cut", &[*link], &[]),
        WorldStep::Clock(time) => line(alloc, "clock", &[*time], &[]),
        WorldStep::Restart(device) => line(alloc, "restart", &[u64::from(*device)], &[]),
        WorldStep::Rest(rounds) => line(alloc, "rest", &[u64::from(*rounds)], &[]),
        _ => line(alloc, "a step has other parts", &[], &[]),
    }
}

fn of_link(alloc: Global, word: &str, link: u64, device: u8) -> Result<String, AllocError> {
    line(alloc, word, &[link, u64::from(device)], &[])
}

// The line of a step with two further words.
fn line_of_two<'a>(
    alloc: Global,
    word: &str,
    numbers: &[u64],
    first: &'a str,
    second: &'a str,
) -> Result<String, AllocError> {
    line(alloc, word, numbers, &[first, second])
}

// A word, and then the numbers and the further words.
fn line(alloc: Global, word: &str, numbers: &[u64], words: &[&str]) -> Result<String, AllocError> {
    let mut text = String::from_str(alloc, word)?;
    add_numbers(&mut text, numbers)?;
    for word in words {
        text.push_str(" ")?;
        text.push_str(word)?;
    }
    Ok(text)
}

fn add_numbers(text: &mut String, numbers: &[u64]) -> Result<(), AllocError> {
    for number in numbers {
        write!(text, " {number}")?;
    }
    Ok(())
}

// The labels with a comma between each two, or a dash.
fn joined(alloc: Global, labels: &[u64]) -> Result<String, AllocError> {
    let mut text = String::new(alloc);
    for label in labels {
        let comma = if text.is_empty() { "" } else { "," };
        write!(text, "{comma}{label}")?;
    }
    if text.is_empty() {
        text.push_str("-")?;
    }
    Ok(text)
}

fn kind_word(kind: u8) -> &'static str {
    match kind {
        NOTE => "note",
        THREAD => "thread",
        FEED => "feed",
        _ => "?",
    }
}

fn level_word(level: Level) -> &'static str {
    match level {
        Level::Invisible => "invisible",
        Level::Visible => "visible",
        Level::Shared => "shared",
    }
}

fn mode_word(mode: Mode) -> &'static str {
    match mode {
        Mode::Interactive => "interactive",
        Mode::Batch => "batch",
    }
}

fn pick_word(pick: Pick) -> &'static str {
    match pick {
        Pick::Old => "old",
        Pick::New => "new",
        Pick::Zero => "zero",
        Pick::Ones => "ones",
    }
}
