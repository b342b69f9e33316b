//! The places of the words where links come and go: at each its words, its door, and what was seen
//! there at the last wait.
use link_places::{Places, Stands};
use outside_real::{Ready, Waiting};
use stay_links::{Door, StayHost};
use stay_words::LinksOfStay;
use std::alloc::{AllocError, Global};
use std::fs::{File, Files};
use std::net::Net;
use std::rt::Runtime;
use sync_node::Plan;
use sync_words::LinkWords;

// How long is waited at most while a link is up or a dial on its way, in milliseconds: something may be
// due, or the dial over.
const UP_MILLISECONDS: u64 = 1_000;

// How long nobody is let in where the system gives no connection, in milliseconds.
const DEAF_MILLISECONDS: u64 = 1_000;

// Nothing was seen.
const NOTHING: Ready = Ready {
    reads: false,
    writes: false,
    gone: false,
};

/// A place of the words.
#[derive(Drop)]
pub struct Spot {
    /// Its words.
    pub words: LinkWords,
    /// Where its peers come from.
    pub door: Door,
    /// The number of its last session.
    pub session: Option<u32>,
    // Where its door and its line stand among what is waited for.
    door_seat: Option<usize>,
    line_seat: Option<usize>,
    /// What its door was found ready for.
    pub at_door: Ready,
    /// What the line of its link was found ready for.
    pub on_line: Ready,
    // Until when nobody is let in.
    deaf_until: u64,
}

impl Spot {
    fn new(alloc: Global, words: LinkWords) -> Result<Spot, AllocError> {
        let door = Door::new(alloc, words.spec.as_str())?;
        Ok(Spot {
            words,
            door,
            session: None,
            door_seat: None,
            line_seat: None,
            at_door: NOTHING,
            on_line: NOTHING,
            deaf_until: 0,
        })
    }

    /// What runs on its links.
    pub fn plan(&self) -> Plan {
        Plan {
            contact: self.words.contact,
            mode: self.words.mode,
            latency: self.words.latency,
        }
    }

    /// Lets nobody in for a while.
    pub fn be_deaf(&mut self, now: u64) {
        self.deaf_until = now.saturating_add(DEAF_MILLISECONDS);
    }

    /// Whether somebody may be let in.
    pub fn hears(&self, now: u64) -> bool {
        self.deaf_until <= now
    }
}

/// The places of the words in their order.
#[derive(Drop)]
pub struct Spots {
    /// How links stand there, and when the next may be tried.
    pub places: Places,
    /// What else there is of each.
    pub spots: Vec<Spot>,
}

impl Spots {
    /// The places of these words, where nothing happened yet. It fails only for want of memory.
    pub fn new(alloc: Global, links: LinksOfStay) -> Result<Spots, AllocError> {
        let mut places = Places::new(alloc);
        let mut spots = Vec::new(alloc);
        for words in links.into_links() {
            let spot = Spot::new(alloc, words)?;
            places.add(spot.words.contact, spot.door.dials())?;
            spots.push(spot)?;
        }
        Ok(Spots { places, spots })
    }

    /// How many places there are.
    pub fn len(&self) -> usize {
        self.spots.len()
    }

    /// How links stand at a place.
    pub fn stands(&self, i: usize) -> Stands {
        match self.places.as_slice().get(i) {
            Some(place) => place.stands,
            None => Stands::Down,
        }
    }

    /// Whether a place is dialled.
    pub fn dials(&self, i: usize) -> bool {
        match self.places.as_slice().get(i) {
            Some(place) => place.dials,
            None => false,
        }
    }

    /// What runs on the links of a place, and whether they have a nonce of their own.
    pub fn plan_at(&self, i: usize) -> Option<(Plan, bool)> {
        match self.spots.get(i) {
            Some(spot) => Some((spot.plan(), spot.words.has_nonce())),
            None => None,
        }
    }

    /// A link came up at a place, with this session: nothing was seen on it yet.
    pub fn came_up(&mut self, i: usize, session: Option<u32>) {
        if let Some(spot) = self.spots.get_mut(i) {
            spot.session = session;
            spot.on_line = NOTHING;
        }
    }

    /// What the line of the link of a place was found ready for.
    pub fn on_line(&self, i: usize) -> Ready {
        match self.spots.get(i) {
            Some(spot) => spot.on_line,
            None => NOTHING,
        }
    }

    /// The link that is up at a place.
    pub fn link_at(&self, i: usize) -> Option<u8> {
        match self.stands(i) {
            Stands::Up(link, _, _) => Some(link),
            Stands::Down | Stands::Tried => None,
        }
    }

    // Whether no link is up anywhere and no dial on its way.
    fn is_still(&self) -> bool {
        self.places
            .as_slice()
            .iter()
            .all(|place| place.stands == Stands::Down)
    }

    /// How long may be waited at most, in milliseconds.
    pub fn most_wait(&self, now: u64) -> Option<u64> {
        let wake = self
            .places
            .next_wake(now)
            .map(|wake| wake.saturating_sub(now));
        let up = if self.is_still() {
            None
        } else {
            Some(UP_MILLISECONDS)
        };
        sooner(sooner(wake, up), self.deaf_wait(now))
    }

    // How long nobody is let in at some place, where that is so.
    fn deaf_wait(&self, now: u64) -> Option<u64> {
        let mut most = None;
        for spot in self.spots.as_slice() {
            if !spot.hears(now) {
                most = sooner(most, Some(spot.deaf_until.saturating_sub(now)));
            }
        }
        most
    }

    /// Adds the doors and the lines that are to be waited for. It fails only for want of memory.
    pub fn add_to<R>(
        &mut self,
        waiting: &mut Waiting,
        host: &StayHost<R>,
        now: u64,
    ) -> Result<(), AllocError>
    where
        R: Runtime + Files<File = File> + Net,
    {
        for i in 0..self.spots.len() {
            let link = self.link_at(i);
            let opens = self.waits_at_door(i, now);
            let tried = self.stands(i) == Stands::Tried;
            if let Some(spot) = self.spots.get_mut(i) {
                spot.door_seat = match opens {
                    true => Some(waiting.add(spot.door.number(), !tried, tried)?),
                    false => None,
                };
                spot.line_seat = match link {
                    Some(link) => {
                        let writes = host.wants_write(link);
                        Some(waiting.add(host.number(link), true, writes)?)
                    }
                    None => None,
                };
            }
        }
        Ok(())
    }

    // Whether somebody may come at the door of a place.
    fn waits_at_door(&self, i: usize, now: u64) -> bool {
        match self.spots.get(i) {
            Some(spot) if spot.door.dials() => self.stands(i) == Stands::Tried,
            Some(spot) => spot.hears(now) && self.places.may_try(i, now),
            None => false,
        }
    }

    /// Takes down what the doors and the lines were found ready for.
    pub fn look(&mut self, waiting: &Waiting) {
        for spot in self.spots.iter_mut() {
            spot.at_door = seen(waiting, spot.door_seat);
            spot.on_line = seen(waiting, spot.line_seat);
        }
    }
}

// What was found at a seat.
fn seen(waiting: &Waiting, seat: Option<usize>) -> Ready {
    match seat {
        Some(seat) => waiting.ready(seat),
        None => NOTHING,
    }
}

/// The shorter of two waits that may have no end.
pub fn sooner(a: Option<u64>, b: Option<u64>) -> Option<u64> {
    match (a, b) {
        (Some(a), Some(b)) => Some(a.min(b)),
        (Some(a), None) => Some(a),
        (None, b) => b,
    }
}
