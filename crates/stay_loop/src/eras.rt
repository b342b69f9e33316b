//! How all sessions end at once.
use crate::service::Service;
use link_places::Why;
use std::fs::{File, Files};
use std::io::{Read, Write};
use std::net::Net;
use std::rt::Runtime;
use sync_course::LinkEnd;
use sync_node::NodeFault;
use sync_rules::Clients;
use sync_words::Outcome;

impl<R, I, O, E, C> Service<R, I, O, E, C>
where
    R: Runtime + Files<File = File> + AllocGlobal + Net,
    I: Read + Drop,
    O: Write + Drop,
    E: Write + Drop,
    C: Clients + Drop,
{
    /// Ends all sessions; none of their places need wait for that.
    pub fn end_era(&mut self) {
        self.tell_up();
        self.holder.keeper.end_era();
        self.holder.spots.places.end_era();
    }

    /// What follows where a call of a session failed, and so all have ended: behind want of memory
    /// their places wait, behind want of room all do until there is some, and behind a fault of the disk
    /// the node ends.
    pub fn stopped(&mut self, fault: NodeFault) -> Option<Outcome> {
        match fault {
            NodeFault::DiskFault => return Some(Outcome::DiskFault),
            NodeFault::Full => self.fill(),
            NodeFault::Memory | NodeFault::Closed => self.pause_all(),
        }
        None
    }

    // The journal is full.
    fn fill(&mut self) {
        self.holder.spots.places.end_era();
        self.holder.spots.places.fill();
        self.log.tell(&self.rt, Outcome::Full.text().as_str());
        self.talk.tell_full();
    }

    // Has all places wait whose links were up.
    fn pause_all(&mut self) {
        self.tell_up();
        for i in 0..self.holder.spots.len() {
            if self.holder.spots.link_at(i).is_some() {
                self.holder
                    .spots
                    .places
                    .went_down(i, self.talk.now, Why::Ended);
            }
        }
    }

    // Tells of each link that is up that the node ends it.
    fn tell_up(&mut self) {
        for i in 0..self.holder.spots.len() {
            if self.holder.spots.link_at(i).is_some() {
                self.tell_end(i, LinkEnd::Going);
            }
        }
    }

    /// Ends all that is up, and closes the doors, since the node ends.
    pub fn close(&mut self) {
        self.holder.keeper.end_era();
        for spot in self.holder.spots.spots.iter_mut() {
            spot.door.close(&self.rt);
        }
    }
}
