//! The turns of the links that are up, and how they end.
use crate::service::Service;
use link_places::Why;
use std::fs::{File, Files};
use std::io::{Read, Write};
use std::net::Net;
use std::rt::Runtime;
use sync_course::LinkEnd;
use sync_node::NodeFault;
use sync_rules::Clients;
use sync_words::Outcome;

// How many bytes are heard at once on a link at most, and while a request waits or was there lately.
const MOST_HEARD: usize = 65_536;

const FEW_HEARD: usize = 4_096;

impl<R, I, O, E, C> Service<R, I, O, E, C>
where
    R: Runtime + Files<File = File> + AllocGlobal + Net,
    I: Read + Drop,
    O: Write + Drop,
    E: Write + Drop,
    C: Clients + Drop,
{
    /// One turn of each link that is up; behind one that did something who asks is attended to. It
    /// says what the node comes to where it ends.
    pub fn turn_all(&mut self) -> Option<Outcome> {
        for i in 0..self.holder.spots.len() {
            if let Some(link) = self.holder.spots.link_at(i) {
                if let Some(came) = self.turn_at(i, link) {
                    return Some(came);
                }
            }
        }
        None
    }

    fn turn_at(&mut self, i: usize, link: u8) -> Option<Outcome> {
        match self.turn(i, link) {
            Ok(false) => None,
            Ok(true) => {
                self.is_moving = true;
                self.attend_between()
            }
            Err(fault) => self.stopped(fault),
        }
    }

    // Hears on the link of a place and sends what is due there; whether it did either.
    fn turn(&mut self, i: usize, link: u8) -> Result<bool, NodeFault> {
        let heard = self.hear_at(i, link)?;
        let sent = self.send_at(link)?;
        Ok(heard || sent)
    }

    // Writes what waits on the line of a link, and hears what came there: that it has failed among it.
    fn hear_at(&mut self, i: usize, link: u8) -> Result<bool, NodeFault> {
        let now = self.talk.now;
        self.holder.keeper.write_some(link, now);
        let is_there = self.holder.keeper.host().number(link) >= 0;
        if is_there && !self.holder.spots.on_line(i).reads {
            return Ok(false);
        }
        let most = self.most_heard();
        self.holder.keeper.set_most_heard(most);
        if self.holder.keeper.hear(link)? {
            return Ok(false);
        }
        self.holder.spots.places.heard(i, now);
        Ok(true)
    }

    fn most_heard(&self) -> usize {
        if self.talk.desk.next().is_some() || self.talk.now < self.asked_until {
            FEW_HEARD
        } else {
            MOST_HEARD
        }
    }

    // Sends what is due on a link that goes on and where nothing waits to go out.
    fn send_at(&mut self, link: u8) -> Result<bool, NodeFault> {
        if self.holder.keeper.link_end(link) != Some(LinkEnd::Going)
            || !self.holder.keeper.host().is_clear(link)
        {
            return Ok(false);
        }
        let sent = self.holder.keeper.send(link)?;
        Ok(sent > 0)
    }

    /// Has links end that are redundant, that are idle or that do not take what waits for them, and
    /// tells how each link ended that has. It says what the node comes to where it ends.
    pub fn end_links(&mut self) -> Option<Outcome> {
        self.holder.keeper.close_redundant();
        for i in 0..self.holder.spots.len() {
            if let Some(link) = self.holder.spots.link_at(i) {
                if let Some(came) = self.end_at(i, link) {
                    return Some(came);
                }
            }
        }
        None
    }

    // Has the link of a place end, where it has ended or is to.
    fn end_at(&mut self, i: usize, link: u8) -> Option<Outcome> {
        let (end, why) = self.ended(i, link)?;
        self.tell_end(i, end);
        self.holder.spots.places.went_down(i, self.talk.now, why);
        self.is_moving = true;
        match self.holder.keeper.hang_up(link) {
            Ok(()) => None,
            Err(fault) => self.stopped(fault),
        }
    }

    // How the link of a place ended, and why, where it has ended or is to.
    fn ended(&self, i: usize, link: u8) -> Option<(LinkEnd, Why)> {
        match self.holder.keeper.link_end(link) {
            Some(LinkEnd::Going) if self.holder.keeper.host().is_stuck(link, self.talk.now) => {
                Some((LinkEnd::Failed, Why::Ended))
            }
            Some(LinkEnd::Going) if self.holder.spots.places.is_idle(i, self.talk.now) => {
                Some((LinkEnd::Going, Why::Ended))
            }
            Some(LinkEnd::Going) => None,
            Some(LinkEnd::Redundant) => Some((LinkEnd::Redundant, Why::Redundant)),
            Some(end) => Some((end, Why::Ended)),
            None => Some((LinkEnd::Failed, Why::Ended)),
        }
    }
}
