//! A command of which each call of the disk fails, with a crash behind it or without one, and what is
//! seen then.

use crate::answer::{tell_answer, tell_journal};
use crate::case::Case;
use crate::command::Came;
use crate::files::copy_of;
use anyhow::{Context, Result};
use outside::{MemDisk, Pick};
use std::alloc::{AllocError, Global};

/// What is looked at.
#[derive(Clone, Copy)]
enum View {
    /// What the command answered.
    Answer,
    /// The files as they read.
    Left,
    /// What a crash leaves.
    Image(Pick),
}

static CRASHED: [(&str, View); 5] = [
    ("answer", View::Answer),
    ("old", View::Image(Pick::Old)),
    ("new", View::Image(Pick::New)),
    ("zero", View::Image(Pick::Zero)),
    ("ones", View::Image(Pick::Ones)),
];

static FAILED: [(&str, View); 2] = [("answer", View::Answer), ("left", View::Left)];

/// A command, and the one that is run on what it leaves; and whether a crash follows.
#[derive(Clone, Copy)]
pub(crate) struct Plan<'a> {
    crashes: bool,
    words: &'a str,
    next: &'a str,
}

impl<'a> Plan<'a> {
    /// The plan of these words.
    pub(crate) fn of(crashes: bool, line: &'a str) -> Result<Plan<'a>> {
        let (words, next) = line.split_once(" / ").context("nothing is next")?;
        Ok(Plan {
            crashes,
            words,
            next,
        })
    }

    fn views(&self) -> &'static [(&'static str, View)] {
        if self.crashes { &CRASHED } else { &FAILED }
    }

    // What the command came to, whose call of this number failed.
    fn failed(&self, case: &Case, call: u64) -> Result<Came> {
        let mut stage = case.stage()?;
        stage.fail_at(call)?;
        case.commanded(self.words, stage)
    }

    // How many calls of the disk the command makes.
    fn calls(&self, case: &Case) -> Result<u64> {
        let whole = case.commanded(self.words, case.stage()?)?;
        Ok(whole.disk().calls())
    }
}

// What was seen, each once, and the rows that count it.
#[derive(Drop)]
struct Seen {
    rows: String,
    kinds: Vec<String>,
}

impl Seen {
    fn new(alloc: Global) -> Seen {
        Seen {
            rows: String::new(alloc),
            kinds: Vec::new(alloc),
        }
    }

    // The number of what was seen.
    fn number(&mut self, kind: String) -> Result<usize, AllocError> {
        for (number, known) in self.kinds.iter().enumerate() {
            if known.as_str() == kind.as_str() {
                return Ok(number);
            }
        }
        self.kinds.push(kind)?;
        Ok(self.kinds.len().saturating_sub(1))
    }

    // The rows, and what they count.
    fn tell(&self, told: &mut String) -> Result<(), AllocError> {
        told.push_str(self.rows.as_str())?;
        for (number, kind) in self.kinds.iter().enumerate() {
            writeln!(told, "seen {number}")?;
            told.push_str(kind.as_str())?;
        }
        Ok(())
    }
}

// Numbers of which the same stand behind one another, so many at the end.
#[derive(Clone, Copy)]
struct Run {
    number: usize,
    count: u64,
    is_first: bool,
}

impl Run {
    fn new() -> Run {
        Run {
            number: 0,
            count: 0,
            is_first: true,
        }
    }

    // Adds a number, and writes those before it where they are other ones.
    fn add(&mut self, number: usize, row: &mut String) -> Result<(), AllocError> {
        if self.count > 0 && number != self.number {
            self.write(row)?;
            self.is_first = false;
            self.count = 0;
        }
        self.number = number;
        self.count = self.count.saturating_add(1);
        Ok(())
    }

    // Writes the numbers at the end. The first are not counted.
    fn write(&self, row: &mut String) -> Result<(), AllocError> {
        if self.is_first {
            write!(row, " {}", self.number)
        } else {
            write!(row, ", {} {}", self.count, self.number)
        }
    }
}

/// Tells what is seen of a command of which each call fails in turn, and then none.
pub(crate) fn crash(alloc: Global, case: &Case, plan: &Plan<'_>, told: &mut String) -> Result<()> {
    let calls = plan.calls(case)?;
    let mut seen = Seen::new(alloc);
    for (name, view) in plan.views() {
        seen.rows.push_str(name)?;
        add_row(alloc, case, plan, *view, calls, &mut seen)?;
        seen.rows.push('\n')?;
    }
    Ok(seen.tell(told)?)
}

fn add_row(
    alloc: Global,
    case: &Case,
    plan: &Plan<'_>,
    view: View,
    calls: u64,
    seen: &mut Seen,
) -> Result<()> {
    let mut run = Run::new();
    for call in 0..=calls {
        let came = plan.failed(case, call)?;
        let kind = look(alloc, &came, view, plan.next)?;
        let number = seen.number(kind)?;
        run.add(number, &mut seen.rows)?;
    }
    Ok(run.write(&mut seen.rows)?)
}

// What is seen of a command that came to its end or did not.
fn look(alloc: Global, came: &Came, view: View, next: &str) -> Result<String> {
    match view {
        View::Answer => {
            let mut told = String::new(alloc);
            tell_answer(alloc, came, &mut told)?;
            Ok(told)
        }
        View::Left => look_behind(alloc, &Case::over(alloc, came.disk())?, next),
        View::Image(pick) => look_behind(
            alloc,
            &Case::over(alloc, &came.disk().image(pick)?)?,
            next,
        ),
    }
}

// What an audit says of the files, what the next command does on them, and the journal then.
fn look_behind(alloc: Global, case: &Case, next: &str) -> Result<String> {
    let mut told = String::from_str(alloc, "audit ")?;
    let audited = case.commanded("audit", case.stage()?)?;
    tell_answer(alloc, &audited, &mut told)?;
    let came = case.commanded(next, case.stage()?)?;
    tell_answer(alloc, &came, &mut told)?;
    tell_journal(alloc, came.disk(), &mut told)?;
    Ok(told)
}

/// Tells what is seen of a command that is crashed on each image of itself.
pub(crate) fn crash_twice(
    alloc: Global,
    case: &Case,
    plan: &Plan<'_>,
    told: &mut String,
) -> Result<()> {
    let calls = plan.calls(case)?;
    let mut seen = Seen::new(alloc);
    for (name, view) in &CRASHED[1..] {
        seen.rows.push_str(name)?;
        add_twice(alloc, case, plan, *view, calls, &mut seen)?;
        seen.rows.push('\n')?;
    }
    Ok(seen.tell(told)?)
}

fn add_twice(
    alloc: Global,
    case: &Case,
    plan: &Plan<'_>,
    view: View,
    calls: u64,
    seen: &mut Seen,
) -> Result<()> {
    let mut run = Run::new();
    for call in 0..=calls {
        let came = plan.failed(case, call)?;
        let number = seen.number(crashed_again(alloc, &came, view, plan)?)?;
        run.add(number, &mut seen.rows)?;
    }
    Ok(run.write(&mut seen.rows)?)
}

// What is seen of the command on an image of itself.
fn crashed_again(alloc: Global, came: &Came, view: View, plan: &Plan<'_>) -> Result<String> {
    let mut told = String::new(alloc);
    let left = left_of(alloc, came.disk(), view)?;
    crash(alloc, &Case::over(alloc, &left)?, plan, &mut told)?;
    Ok(told)
}

fn left_of(alloc: Global, disk: &MemDisk, view: View) -> Result<MemDisk, AllocError> {
    match view {
        View::Image(pick) => disk.image(pick),
        _ => copy_of(alloc, disk),
    }
}
