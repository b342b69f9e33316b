// The requests of an input, one by one.
ghost use Rattle.std.specs.Prelude.{[], ℕ, List, IfOk};
ghost use Rattle.outside.specs.Faults.{HasCause};
ghost use Rattle.request_frames.specs.Reading.{IsAsked};
ghost use Rattle.request_frames.specs.Requests.{Request};
ghost use Rattle.node_service.specs.Ears.{AsksOn, EarStands, HearsOn, HearsSome, IsEar};
ghost use Rattle.node_service.specs.Ears.{IsInInput, ReadsPiece, TurnBy, WaitsAt};

use crate::words::{command_of, reads_most};
use outside::{Failed, Source};
use request_frames::{
    Ending, Next, Reader, keeping_goes_on, readings_are_whole, readings_begin, readings_go_on,
};
use std::alloc::{AllocError, Global};

// How many bytes a read asks for at most.
const PIECE: usize = 65_536;

/// What came of an input.
#[derive(Clone, Copy, Debug, PartialEq, Eq)]
pub(crate) enum Came {
    /// A request, whole.
    Request,
    /// The end, in or behind a request.
    End(Ending),
    /// Something that is no request.
    Fault,
    /// Nothing: a read failed.
    ReadFault,
    /// More pieces than can be counted.
    TooMuch,
}

/// What was heard of the rest of a piece.
#[derive(Clone, Copy, Debug, PartialEq, Eq)]
pub(crate) enum Turn {
    /// A request, whole.
    Request,
    /// All of it, and more is wanted.
    More,
    /// Something that is no request.
    Fault,
}

/// Hears requests in an input: a reader, and a piece, of which the part from one place up to
/// another is left.
#[derive(Drop)]
pub(crate) struct Ear {
    pub(crate) reader: Reader,
    pub(crate) piece: Vec<u8>,
    pub(crate) at: usize,
    pub(crate) len: usize,
}

impl Ear {
    /// An ear that heard nothing. It fails only for want of memory.
    pub(crate) fn new(alloc: Global) -> Result<Ear, AllocError>
        ensures stands { IfOk result (EarStands [] []) }
        ensures sound { IfOk result IsEar }
    {
        readings_begin();
        Ok(Ear {
            reader: Reader::new(alloc)?,
            piece: vec![in alloc; 0u8; PIECE]?,
            at: 0,
            len: 0,
        })
    }

    /// Hears the input up to the next request, or to where there is none.
    pub(crate) fn next<S: Source>(&mut self, alloc: Global, input: &mut S) -> Came
        requires { IsEar self.old }
        ensures hears { HearsOn (S.tells input.old) (S.tells input.new) self.old self.new result }
        ensures sound { IsEar self.new }
    {
        readings_are_whole();
        'pieces: for _ in 0..u64::MAX {
            match self.hear(alloc) {
                Turn::Request => return Came::Request,
                Turn::Fault => return Came::Fault,
                Turn::More => {}
            }
            match self.read(input) {
                Ok(0) => return Came::End(self.reader.end()),
                Ok(_) => {}
                Err(_) => return Came::ReadFault,
            }
        }
        Came::TooMuch
    }

    // Reads the next piece. It is empty at the end of the input.
    fn read<S: Source>(&mut self, input: &mut S) -> Result<usize, Failed>
        requires { IsEar self.old }
        ensures read { ReadsPiece (S.tells input.old).bytes (S.tells input.new).bytes self.old self.new result }
        ensures cause { HasCause (S.tells input.old).faults (S.tells input.new).faults result }
        ensures sound { IsEar self.new }
    {
        self.at = 0;
        self.len = 0;
        let n = input.read(self.piece.as_mut_slice())?;
        self.len = n;
        Ok(n)
    }

    // Hears the rest of the piece, up to the end of a request.
    fn hear(&mut self, alloc: Global) -> Turn
        requires { IsEar self.old }
        ensures hears { (read : List ℕ) (told : List Request) → EarStands read told self.old
            → TurnBy read told self.new result }
        ensures waits { WaitsAt result self.new }
        ensures sound { IsEar self.new }
    {
        readings_go_on();
        readings_are_whole();
        match self.hear_some() {
            Next::Whole => Turn::Request,
            Next::More => Turn::More,
            Next::Fault => Turn::Fault,
            Next::Words => self.hear_input(alloc),
        }
    }

    // Hears the input of a request whose words are there, with the rest of the piece.
    fn hear_input(&mut self, alloc: Global) -> Turn
        requires asked { IsAsked self.old.reader.at }
        requires sound { IsEar self.old }
        ensures hears { (read : List ℕ) (told : List Request) → EarStands read told self.old
            → TurnBy read told self.new result }
        ensures waits { WaitsAt result self.new }
        ensures sound { IsEar self.new }
    {
        keeping_goes_on();
        self.ask(alloc);
        self.hear_asked()
    }

    // Hears the input of a request of which it was said how much is kept.
    fn hear_asked(&mut self) -> Turn
        requires input { IsInInput self.old.reader.at }
        requires sound { IsEar self.old }
        ensures hears { (read : List ℕ) (told : List Request) → EarStands read told self.old
            → TurnBy read told self.new result }
        ensures waits { WaitsAt result self.new }
        ensures sound { IsEar self.new }
    {
        readings_go_on();
        readings_are_whole();
        match self.hear_some() {
            Next::Whole => Turn::Request,
            Next::More => Turn::More,
            Next::Fault => Turn::Fault,
            Next::Words => unreachable!(),
        }
    }

    // Asks for as much of the input as the command of the words reads; where there is no memory for
    // that, for none of it.
    fn ask(&mut self, alloc: Global)
        requires asked { IsAsked self.old.reader.at }
        requires sound { IsEar self.old }
        ensures asks { AsksOn self.old self.new }
        ensures sound { IsEar self.new }
    {
        let most = match command_of(alloc, self.reader.words()) {
            Ok(command) => reads_most(&command),
            Err(_) => 0,
        };
        if self.reader.keep(most).is_ok() {
            return;
        }
        if self.reader.keep(0).is_err() {
            unreachable!()
        }
    }

    // Hears the rest of the piece, up to what there is to tell.
    fn hear_some(&mut self) -> Next
        requires { IsEar self.old }
        ensures heard { HearsSome self.old self.new result }
        ensures sound { IsEar self.new }
    {
        let heard = self.reader.hear(&self.piece.as_slice()[self.at..self.len]);
        self.at += heard.used;
        heard.next
    }
}
