//! A case: the files as they stand, and what is to come of the next command.

use crate::answer::{tell_answer, tell_bytes, tell_disk};
use crate::command::{Came, command, words_of};
use crate::compacting;
use crate::crash::{Plan, crash, crash_twice};
use crate::crossed::Crossed;
use crate::files::{add_counted, add_frames, begun, copy_of, decoded};
use crate::served::{add_request, compare, tell_cuts, tell_served};
use crate::stage::Stage;
use crate::stops::play_stops;
use anyhow::{Context, Result};
use client_sharing::SharingBundle;
use commands::read_words;
use outside::{LINKS, MemDisk};
use std::alloc::{AllocError, Global};

// The commands that a load refuses.
static LOADING: [&str; 4] = ["contact", "inbox", "group note 0 d", "audit"];

/// A case that is played line by line.
pub(crate) struct Case {
    alloc: Global,
    disk: MemDisk,
    input: Vec<u8>,
    prepared: Vec<String>,
    crossed: Option<Crossed>,
    told: String,
    stream: Vec<u8>,
    asked: u64,
}

// Written out, so that whoever drops it proves one call.
impl Drop for Case {
    fn drop(self) {
        let Case {
            alloc: _,
            disk: _,
            input: _,
            prepared: _,
            crossed: _,
            told: _,
            stream: _,
            asked: _,
        } = self;
    }
}

// A disk without files.
fn blank(alloc: Global) -> Result<MemDisk, AllocError> {
    MemDisk::new(alloc, Vec::new(alloc), Vec::new(alloc))
}

impl Case {
    /// A case without files.
    pub(crate) fn new(alloc: Global) -> Result<Case, AllocError> {
        Ok(Case {
            alloc,
            disk: blank(alloc)?,
            input: Vec::new(alloc),
            prepared: Vec::new(alloc),
            crossed: None,
            told: String::new(alloc),
            stream: Vec::new(alloc),
            asked: 0,
        })
    }

    /// Plays a line.
    pub(crate) fn play(&mut self, line: &str) -> Result<()> {
        match line {
            "states" => return self.tell_states(),
            "other" => return self.tell_other(),
            "compact" => return self.compact(),
            "find" => return self.find(),
            "serve" => return self.serve(),
            "cuts" => return self.cut(),
            "asked" => return self.tell_asked(),
            _ => {}
        }
        let (kind, rest) = line.split_once(' ').context("a line of one word")?;
        match kind {
            "case" => self.begin(line),
            "do" => self.obey(rest),
            "old" => self.set_file(rest),
            "load" => self.load(rest),
            "input" => self.set_input(rest),
            "crossed" => self.set_clients(rest),
            "sync" => self.run(line),
            "mailbox" => self.carry(line),
            "stops" => self.stop(rest),
            "files" | "journal" | "add" | "count" => self.write_files(kind, rest),
            "words" => self.tell_words(rest),
            "run" | "try" | "loaded" => self.tell_command(kind, rest),
            "ask" | "failed" | "long" | "raw" => self.ask(kind, rest),
            "crash" | "fails" | "twice" => self.tell_failing(kind, rest),
            _ => self.prepare(line),
        }
    }

    // The files are others.
    fn write_files(&mut self, kind: &str, words: &str) -> Result<()> {
        match kind {
            "files" => {
                let (first, second) = words.split_once(' ').context("one file")?;
                let second = decoded(self.alloc, second)?;
                self.disk = MemDisk::new(self.alloc, decoded(self.alloc, first)?, second)?;
                Ok(())
            }
            "journal" => {
                let file = begun(self.alloc, words)?;
                self.disk = MemDisk::new(self.alloc, file, Vec::new(self.alloc))?;
                Ok(())
            }
            _ => self.add_to_file(kind, words),
        }
    }

    // Frames are added to file 0.
    fn add_to_file(&mut self, kind: &str, words: &str) -> Result<()> {
        let mut file = self.disk.file(0).to_vec(self.alloc)?;
        match kind {
            "add" => add_frames(self.alloc, &mut file, words)?,
            _ => add_counted(self.alloc, &mut file, words)?,
        }
        let second = self.disk.file(1).to_vec(self.alloc)?;
        self.disk = MemDisk::new(self.alloc, file, second)?;
        Ok(())
    }

    // A command is told whole: `run` keeps what it leaves.
    fn tell_command(&mut self, kind: &str, words: &str) -> Result<()> {
        writeln!(self.told, "> {words}")?;
        let mut stage = self.stage()?;
        if kind == "loaded" {
            let shown = self.commanded("show", self.stage()?)?;
            stage.fail_at(shown.disk().calls())?;
        }
        let came = self.commanded(words, stage)?;
        tell_answer(self.alloc, &came, &mut self.told)?;
        tell_disk(self.alloc, &self.disk, came.disk(), &mut self.told)?;
        if kind != "loaded" {
            self.compare(words, &came)?;
        }
        if kind == "run" {
            self.disk = copy_of(self.alloc, came.disk())?;
        }
        self.forget();
        Ok(())
    }

    // The same command is asked of a node, where one holds the files as they are.
    fn compare(&mut self, words: &str, came: &Came) -> Result<()> {
        let mut told = String::new(self.alloc);
        if compare(self.alloc, self, words, came, &mut told)? {
            self.asked = self.asked.saturating_add(1);
        }
        Ok(self.told.push_str(told.as_str())?)
    }

    // A request, or other bytes, for the next node.
    fn ask(&mut self, kind: &str, rest: &str) -> Result<()> {
        let input = self.input.as_slice();
        add_request(self.alloc, kind, rest, input, &mut self.stream)?;
        self.input = Vec::new(self.alloc);
        Ok(())
    }

    // A node is asked all requests, and these are its files then.
    fn serve(&mut self) -> Result<()> {
        let mut told = String::new(self.alloc);
        let came = tell_served(self.alloc, self, self.stream.as_slice(), &mut told)?;
        self.disk = copy_of(self.alloc, came.disk())?;
        self.ended(told)
    }

    // A node is asked each front of the requests.
    fn cut(&mut self) -> Result<()> {
        let mut told = String::new(self.alloc);
        tell_cuts(self.alloc, self, self.stream.as_slice(), &mut told)?;
        self.ended(told)
    }

    // What a node came to is told, and nothing is prepared for the next one.
    fn ended(&mut self, told: String) -> Result<()> {
        self.told.push_str(told.as_str())?;
        self.stream = Vec::new(self.alloc);
        self.forget();
        Ok(())
    }

    fn tell_asked(&mut self) -> Result<()> {
        writeln!(self.told, "asked {}", self.asked)?;
        self.asked = 0;
        Ok(())
    }

    /// What a node comes to over a stream.
    pub(crate) fn served(&self, stream: &[u8]) -> Result<Came> {
        self.ran("serve std", self.stage()?, stream)
    }

    /// The input that was prepared.
    pub(crate) fn input(&self) -> &[u8] {
        self.input.as_slice()
    }

    /// The disk.
    pub(crate) fn disk(&self) -> &MemDisk {
        &self.disk
    }

    /// Whether a call is to fail.
    pub(crate) fn fails(&self) -> bool {
        self.prepared
            .iter()
            .any(|line| line.as_str().starts_with("fail"))
    }

    // What is read of words is told.
    fn tell_words(&mut self, line: &str) -> Result<()> {
        let words = words_of(self.alloc, line)?;
        let command = read_words(self.alloc, words.as_slice()).ok();
        let command = command.context("a wrong word")?;
        Ok(writeln!(self.told, "> {line}\n{command:?}")?)
    }

    // A command is told of which each call of the disk fails in turn.
    fn tell_failing(&mut self, kind: &str, line: &str) -> Result<()> {
        let plan = Plan::of(kind != "fails", line)?;
        let mut told = String::new(self.alloc);
        writeln!(told, "> {kind} {line}")?;
        if kind == "twice" {
            crash_twice(self.alloc, self, &plan, &mut told)?;
        } else {
            crash(self.alloc, self, &plan, &mut told)?;
        }
        self.told.push_str(told.as_str())?;
        self.forget();
        Ok(())
    }

    // What a load says of the files, and each command that does not say the same.
    fn find(&mut self) -> Result<()> {
        let shown = self.commanded("show", self.stage()?)?;
        tell_answer(self.alloc, &shown, &mut self.told)?;
        tell_disk(self.alloc, &self.disk, shown.disk(), &mut self.told)?;
        for words in &LOADING {
            self.find_by(words, &shown)?;
        }
        Ok(())
    }

    // Over no store a command is to say what `show` says; an audit is told of any other.
    fn find_by(&mut self, words: &str, shown: &Came) -> Result<()> {
        if shown.status == 0 && words != "audit" {
            return Ok(());
        }
        let came = self.commanded(words, self.stage()?)?;
        if shown.status == 0 || !came.says(shown) {
            writeln!(self.told, "> {words}")?;
            tell_answer(self.alloc, &came, &mut self.told)?;
        }
        Ok(tell_disk(self.alloc, &self.disk, came.disk(), &mut self.told)?)
    }

    /// Prints what came of the lines so far.
    pub(crate) fn print(&mut self, rt: &impl Print) -> Result<()> {
        print!(rt; "{}", self.told.as_str())?;
        self.told.clear();
        Ok(())
    }

    fn begin(&mut self, line: &str) -> Result<()> {
        self.disk = blank(self.alloc)?;
        self.crossed = None;
        self.tell(line)?;
        self.obey("init")
    }

    // A line of what came of it.
    fn tell(&mut self, line: &str) -> Result<(), AllocError> {
        self.told.push_str(line)?;
        self.told.push('\n')
    }

    /// A case over the files of a disk, which nothing is prepared for.
    pub(crate) fn over(alloc: Global, disk: &MemDisk) -> Result<Case, AllocError> {
        let mut case = Case::new(alloc)?;
        case.disk = copy_of(alloc, disk)?;
        Ok(case)
    }

    // The files are this one and an empty one.
    fn set_file(&mut self, digits: &str) -> Result<()> {
        let first = decoded(self.alloc, digits)?;
        self.disk = MemDisk::new(self.alloc, first, Vec::new(self.alloc))?;
        Ok(())
    }

    // The journal is compacted; its line is printed, and both files.
    fn compact(&mut self) -> Result<()> {
        let came = self.came("compact")?;
        if came.status != 0 {
            writeln!(self.told, "status {}", came.status)?;
        }
        self.told.push_str(came.out_text()?)?;
        self.told.push_str("file ")?;
        tell_bytes(self.alloc, self.disk.file(0), &mut self.told)?;
        self.tell_other()
    }

    // What `show` comes to over this file and an empty one.
    fn load(&mut self, digits: &str) -> Result<()> {
        self.set_file(digits)?;
        let came = self.came("show")?;
        writeln!(self.told, "status {}", came.status)?;
        Ok(self.told.push_str(came.err_text()?)?)
    }

    // A line of file 1.
    fn tell_other(&mut self) -> Result<()> {
        self.told.push_str("other ")?;
        Ok(tell_bytes(self.alloc, self.disk.file(1), &mut self.told)?)
    }

    fn set_input(&mut self, digits: &str) -> Result<()> {
        self.input = decoded(self.alloc, digits)?;
        Ok(())
    }

    fn set_clients(&mut self, ids: &str) -> Result<()> {
        self.crossed = Some(Crossed::of(ids)?);
        Ok(())
    }

    fn prepare(&mut self, line: &str) -> Result<()> {
        self.prepared.push(String::from_str(self.alloc, line)?)?;
        Ok(())
    }

    /// The host of the next command.
    pub(crate) fn stage(&self) -> Result<Stage> {
        let mut stage = Stage::over(self.alloc, copy_of(self.alloc, &self.disk)?)?;
        for line in self.prepared.as_slice() {
            stage.prepare(self.alloc, line.as_str())?;
        }
        Ok(stage)
    }

    /// The bytes of file 0.
    pub(crate) fn file(&self) -> &[u8] {
        self.disk.file(0)
    }

    // Runs a command, whose files these are then.
    fn came(&mut self, words: &str) -> Result<Came> {
        let came = self.commanded(words, self.stage()?)?;
        self.disk = copy_of(self.alloc, came.disk())?;
        self.forget();
        Ok(came)
    }

    /// What a command comes to on this stage.
    pub(crate) fn commanded(&self, words: &str, stage: Stage) -> Result<Came> {
        self.ran(words, stage, self.input.as_slice())
    }

    // The same with this input.
    fn ran(&self, words: &str, stage: Stage, input: &[u8]) -> Result<Came> {
        match &self.crossed {
            Some(clients) => command(self.alloc, words, stage, input, clients),
            None => command(self.alloc, words, stage, input, &SharingBundle::new()),
        }
    }

    // Nothing is prepared for the next command.
    fn forget(&mut self) {
        self.input = Vec::new(self.alloc);
        self.prepared = Vec::new(self.alloc);
    }

    fn obey(&mut self, words: &str) -> Result<()> {
        let status = self.came(words)?.status;
        if status != 0 {
            writeln!(self.told, "{words}: status {status}")?;
        }
        Ok(())
    }

    // The lines of `show` that tell of messages.
    fn tell_states(&mut self) -> Result<()> {
        let came = self.came("show")?;
        self.tell_messages(came.out_text()?)
    }

    fn tell_messages(&mut self, shown: &str) -> Result<()> {
        for line in shown.split('\n') {
            if line.starts_with("message ") {
                self.tell(line)?;
            }
        }
        Ok(())
    }

    fn run(&mut self, words: &str) -> Result<()> {
        let came = self.came(words)?;
        tell_run(self.alloc, &came, &mut self.told)
    }

    // A mailbox file is read or written: the status, the line, the output, and both files.
    fn carry(&mut self, words: &str) -> Result<()> {
        let came = self.came(words)?;
        writeln!(self.told, "status {}", came.status)?;
        self.told.push_str(came.err_text()?)?;
        self.told.push_str("out ")?;
        tell_bytes(self.alloc, came.out_bytes(), &mut self.told)?;
        self.told.push_str("file ")?;
        tell_bytes(self.alloc, self.disk.file(0), &mut self.told)?;
        self.tell_other()
    }

    fn stop(&mut self, words: &str) -> Result<()> {
        let line = match words {
            "compact" => compacting::play_stops(self.alloc, self)?,
            _ => play_stops(self.alloc, self, words)?,
        };
        self.tell(line.as_str())?;
        self.forget();
        Ok(())
    }
}

// What a run came to: its status and lines, what was sent on each link, and file 0.
fn tell_run(alloc: Global, came: &Came, told: &mut String) -> Result<()> {
    writeln!(told, "status {}", came.status)?;
    told.push_str(came.err_text()?)?;
    for link in 0..LINKS {
        tell_sent(alloc, link as u8, came.host().sent(link as u8), told)?;
    }
    told.push_str("file ")?;
    Ok(tell_bytes(alloc, came.disk().file(0), told)?)
}

fn tell_sent(alloc: Global, link: u8, sent: &[u8], told: &mut String) -> Result<(), AllocError> {
    if !sent.is_empty() {
        write!(told, "sent {link} ")?;
        tell_bytes(alloc, sent, told)?;
    }
    Ok(())
}
