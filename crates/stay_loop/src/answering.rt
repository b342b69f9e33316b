//! How who asks is attended to.
use crate::service::Service;
use crate::talk::StdEnd;
use node_life::leaves_sessions;
use std::alloc::AllocError;
use std::fs::{File, Files};
use std::io::{Read, Write};
use std::net::Net;
use std::rt::Runtime;
use sync_rules::Clients;
use sync_words::Outcome;

// For how long little is heard at once on a link behind an answer, in milliseconds.
const ASKED_MILLISECONDS: u64 = 1_000;

impl<R, I, O, E, C> Service<R, I, O, E, C>
where
    R: Runtime + Files<File = File> + AllocGlobal + Net,
    I: Read + Drop,
    O: Write + Drop,
    E: Write + Drop,
    C: Clients + Drop,
{
    /// Moves what is ready on the connections, and answers one request. It says what the node comes to
    /// where it ends.
    pub fn attend(&mut self) -> Option<Outcome> {
        self.talk.move_all();
        self.talk.let_in();
        self.talk.hear_all();
        let came = self.answer_next();
        self.talk.hear_all();
        came
    }

    /// As `attend`, of what is ready by now.
    pub fn attend_between(&mut self) -> Option<Outcome> {
        if let Err(AllocError) = self.talk.prepare(&self.rt) {
            return Some(Outcome::Memory);
        }
        self.talk.wait(&self.rt, Some(0));
        self.attend()
    }

    // Answers the request that waits for longest, where there is one.
    fn answer_next(&mut self) -> Option<Outcome> {
        let i = self.talk.desk.next()?;
        if self.breaks_off(i) {
            self.end_era();
        }
        self.is_moving = true;
        self.asked_until = self.talk.now.saturating_add(ASKED_MILLISECONDS);
        let alloc = self.talk.alloc;
        let done = self.talk.desk.answer_next(alloc, &mut self.holder)?;
        match done.told {
            Ok(()) => self.talk.write_to(done.at),
            Err(AllocError) => self.talk.lose(done.at),
        }
        if done.reply.ends {
            Some(done.reply.came)
        } else {
            None
        }
    }

    // Whether the request of a connection ends all sessions.
    fn breaks_off(&self, i: usize) -> bool {
        match self.talk.desk.places.get(i) {
            Some(place) => match place.connection.request() {
                Some(asked) => !leaves_sessions(asked.words),
                None => false,
            },
            None => false,
        }
    }

    /// Tells each connection that watches the inbox what was delivered, where nothing waits to go out
    /// on it.
    pub fn tell_delivered(&mut self) {
        let delivered = self.holder.keeper.delivered();
        let alloc = self.talk.alloc;
        self.talk
            .desk
            .tell_delivered(alloc, &mut self.holder, delivered);
    }
}

/// What the node comes to where the standard streams end it.
pub fn ended_by(end: Option<StdEnd>) -> Option<Outcome> {
    match end? {
        StdEnd::Input => Some(Outcome::Done),
        StdEnd::Read => Some(Outcome::ReadFault),
        StdEnd::Write => Some(Outcome::WriteFault),
        StdEnd::NoRequest => Some(Outcome::NoRequest),
        StdEnd::Memory => Some(Outcome::Memory),
    }
}
