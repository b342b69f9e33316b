//! A command's turn at the files of its folder, or a node that holds them and answers.
use hand_over::{Met, Wire, meet};
use outside_real::{Need, Turn, Unmet, pause};
use std::alloc::{AllocError, Global};
use std::fs::{File, Files};
use std::net::Net;
use std::time::Clock;

/// Who is found in a queue.
#[derive(Drop)]
pub enum Found {
    /// A node that hears.
    Node(Wire),
    /// A node that does not say in time that it hears.
    Busy,
    /// Nobody: the command's turn came, or the files can't be had.
    Nobody(Result<Turn, Unmet>),
}

/// Who waits for the files of the current folder, and asks for a node meanwhile.
#[derive(Drop)]
pub struct Queue {
    need: Need,
    asks: bool,
    turn: Option<Turn>,
}

impl Queue {
    /// Before the first look, with this need of the files.
    pub fn new(need: Need) -> Queue {
        Queue {
            need,
            asks: true,
            turn: None,
        }
    }

    /// Asks no node any more.
    pub fn go_alone(&mut self) {
        self.asks = false;
    }

    /// Looks for a node and then for the files, until one of them is had or can't be. It fails only for
    /// want of memory.
    pub fn wait<R>(&mut self, rt: &R, alloc: Global) -> Result<Found, AllocError>
    where
        R: Files<File = File> + Net + Clock,
    {
        for _ in 0..u64::MAX {
            if self.asks {
                match meet(rt, alloc)? {
                    Met::Node(wire) => return Ok(Found::Node(wire)),
                    Met::Busy => return Ok(Found::Busy),
                    Met::Nobody => {}
                }
            }
            match self.look(rt, alloc) {
                Ok(None) => pause(rt),
                Ok(Some(turn)) => return Ok(Found::Nobody(Ok(turn))),
                Err(unmet) => return Ok(Found::Nobody(Err(unmet))),
            }
        }
        Err(AllocError)
    }

    // The turn, where it came.
    fn look<R: Files<File = File>>(
        &mut self,
        files: &R,
        alloc: Global,
    ) -> Result<Option<Turn>, Unmet> {
        let mut turn = match self.turn.take() {
            Some(turn) => turn,
            None => Turn::new(files, ".", self.need)?,
        };
        if turn.look(files, alloc, ".")? {
            return Ok(Some(turn));
        }
        self.turn = Some(turn);
        Ok(None)
    }
}
