//! A node that stays, with all that it has.
use crate::holder::Holder;
use crate::log::Log;
use crate::spots::sooner;
use crate::talk::Talk;
use std::alloc::AllocError;
use std::fs::{File, Files};
use std::io::{Read, Write};
use std::net::Net;
use std::rt::Runtime;
use sync_course::LinkEnd;
use sync_rules::Clients;
use sync_words::link_line;

/// A node that stays: who asks it, what is asked, and its error output.
#[derive(Drop)]
pub struct Service<R, I, O, E, C>
where
    R: Runtime + Files<File = File> + AllocGlobal + Net,
    I: Read + Drop,
    O: Write + Drop,
    E: Write + Drop,
    C: Clients + Drop,
{
    /// What it runs on.
    pub rt: R,
    /// The connections.
    pub talk: Talk<I, O>,
    /// What is asked.
    pub holder: Holder<R, C>,
    /// The error output.
    pub log: Log<E>,
    /// Whether something was done since the last wait, so that more may be left to do.
    pub is_moving: bool,
    /// Until when little is heard at once on a link, since a request was there lately.
    pub asked_until: u64,
}

impl<R, I, O, E, C> Service<R, I, O, E, C>
where
    R: Runtime + Files<File = File> + AllocGlobal + Net,
    I: Read + Drop,
    O: Write + Drop,
    E: Write + Drop,
    C: Clients + Drop,
{
    /// Waits until something is to be done: on a connection, at the socket, at a door or on a link. It
    /// does not wait where something is left to do. It fails only for want of memory.
    pub fn wait(&mut self) -> Result<(), AllocError> {
        self.talk.prepare(&self.rt)?;
        let now = self.talk.now;
        self.holder.add_to(&mut self.talk.waiting, now)?;
        let most = if self.is_moving {
            Some(0)
        } else {
            sooner(self.talk.most_wait(), self.holder.spots.most_wait(now))
        };
        self.talk.wait(&self.rt, most);
        self.holder.spots.look(&self.talk.waiting);
        self.is_moving = false;
        Ok(())
    }

    /// Tells how the link of a place ended.
    pub fn tell_end(&mut self, i: usize, end: LinkEnd) {
        let mut line = String::new(self.talk.alloc);
        let place = u8::try_from(i).unwrap_or(u8::MAX);
        if link_line(place, true, end, &mut line).is_ok() {
            self.log.tell(&self.rt, line.as_str());
        }
    }
}
