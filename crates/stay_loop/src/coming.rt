//! How links come up: who is let in, and who is dialled.
use crate::service::Service;
use link_places::{Stands, Why};
use stay_links::Line;
use std::fs::{File, Files};
use std::io::{Read, Write};
use std::net::Net;
use std::rt::Runtime;
use sync_course::LinkEnd;
use sync_rules::Clients;
use sync_words::Outcome;

impl<R, I, O, E, C> Service<R, I, O, E, C>
where
    R: Runtime + Files<File = File> + AllocGlobal + Net,
    I: Read + Drop,
    O: Write + Drop,
    E: Write + Drop,
    C: Clients + Drop,
{
    /// Lets in who came, and dials where that may be. It says what the node comes to where it ends.
    pub fn let_come(&mut self) -> Option<Outcome> {
        for i in 0..self.holder.spots.len() {
            if let Some(line) = self.line_at(i) {
                if let Some(came) = self.take_up(i, line) {
                    return Some(came);
                }
            }
        }
        None
    }

    // The line that came at a place.
    fn line_at(&mut self, i: usize) -> Option<Line> {
        match self.holder.spots.stands(i) {
            Stands::Tried => self.dialled_at(i),
            _ if !self.holder.spots.places.may_try(i, self.talk.now) => None,
            _ if self.holder.spots.dials(i) => {
                self.dial_at(i);
                None
            }
            _ => self.let_in_at(i),
        }
    }

    // The line of a dial that is done. Where it failed the place waits.
    fn dialled_at(&mut self, i: usize) -> Option<Line> {
        let spot = self.holder.spots.spots.get_mut(i)?;
        match spot.door.take(&self.rt) {
            Ok(line) => line,
            Err(_) => {
                self.fail_at(i);
                None
            }
        }
    }

    // Begins a dial.
    fn dial_at(&mut self, i: usize) {
        if let Some(spot) = self.holder.spots.spots.get_mut(i) {
            match spot.door.dial(&self.rt) {
                Ok(()) => self.holder.spots.places.tries(i),
                Err(_) => self.fail_at(i),
            }
        }
    }

    // Listens at a place, and lets in the peer that came there. Where that can't be it waits as behind a
    // link.
    fn let_in_at(&mut self, i: usize) -> Option<Line> {
        let now = self.talk.now;
        let spot = self.holder.spots.spots.get_mut(i)?;
        if spot.door.listen(&self.rt).is_err() {
            self.holder.spots.places.went_down(i, now, Why::Ended);
            return None;
        }
        if !spot.at_door.reads {
            return None;
        }
        match spot.door.take(&self.rt) {
            Ok(line) => line,
            Err(_) => {
                spot.be_deaf(now);
                None
            }
        }
    }

    // A dial came to nothing, and the place waits.
    fn fail_at(&mut self, i: usize) {
        self.tell_end(i, LinkEnd::Failed);
        self.holder
            .spots
            .places
            .went_down(i, self.talk.now, Why::Ended);
    }

    // Begins a session on a line that came at a place. Where the journal is full it does not come up.
    fn take_up(&mut self, i: usize, line: Line) -> Option<Outcome> {
        if self.holder.spots.places.is_full() {
            self.holder
                .spots
                .places
                .went_down(i, self.talk.now, Why::Era);
            return None;
        }
        if let Some(came) = self.make_way(i) {
            return Some(came);
        }
        let (plan, has_nonce) = self.holder.spots.plan_at(i)?;
        self.holder.keeper.bring(line);
        match self.holder.keeper.take_up(&plan, has_nonce) {
            Ok(link) => {
                self.come_up(i, link);
                None
            }
            Err(fault) => {
                self.holder
                    .spots
                    .places
                    .went_down(i, self.talk.now, Why::Ended);
                self.stopped(fault)
            }
        }
    }

    // The link of this number came up at a place.
    fn come_up(&mut self, i: usize, link: u8) {
        let session = self.holder.keeper.session_of(link);
        self.holder.spots.places.came_up(i, link, self.talk.now);
        self.holder.spots.came_up(i, session);
        self.is_moving = true;
    }

    // Ends all sessions where none may begin beside them, and the link whose place another one takes.
    fn make_way(&mut self, i: usize) -> Option<Outcome> {
        if !self.holder.keeper.has_sessions_left() {
            self.end_era();
            return None;
        }
        let link = self.holder.spots.link_at(i)?;
        self.tell_end(i, LinkEnd::Going);
        match self.holder.keeper.hang_up(link) {
            Ok(()) => None,
            Err(fault) => self.stopped(fault),
        }
    }
}
