//! The places of the words, and what happened at each.
ghost use Rattle.std.specs.Prelude.{◌≡◌, false, true, [], ◌∷◌, ◌++◌, OnOk, OnErr};
ghost use Rattle.link_places.specs.Places.{after_down, after_era, after_up, changed, fresh};
ghost use Rattle.link_places.specs.Places.{has_up, heard_at, is_silent, is_spare, may_try, place_of};
ghost use Rattle.link_places.specs.Places.{tried};
ghost use Rattle.link_places.specs.Waking.{earlier, next_wake, try_wake};

use crate::place::{Place, Why, end_of, new_place};
use std::alloc::{AllocError, Global};
use std::marker::Model;

/// The places of the words in their order, and whether the journal is full. Contracts see both.
/// Where a call names a place that is not there it does nothing, and answers no.
#[derive(Debug, Drop)]
pub struct Places {
    places: Vec<Place>,
    full: bool,
}

impl Model for Places {
    ghost use Rattle.std.specs.List.{All};
    ghost use Rattle.link_places.specs.Places.{IsPlace, PlacesValue};

    ghost Value = { PlacesValue };

    ghost view = { λ s. record { places = s.places.items; full = s.full } };

    ghost invariant = { λ s. All IsPlace s.places.items };
}

impl Places {
    /// No places.
    pub fn new(alloc: Global) -> Places
        ensures { result ≡ record { places = []; full = false } }
    {
        Places {
            places: Vec::new(alloc),
            full: false,
        }
    }

    /// Adds a place behind the others, where nothing happened yet: of this contact, dialled or one
    /// to which peers come.
    ///
    /// # Errors
    /// Only for want of memory; the places are then as before.
    pub fn add(&mut self, contact: u8, dials: bool) -> Result<(), AllocError>
        ensures ok { OnOk result (self.new ≡ record {
          places = self.old.places ++ fresh contact dials ∷ [];
          full = self.old.full;
        }) }
        ensures err { OnErr result (self.new ≡ self.old) }
    {
        self.places.push(new_place(contact, dials))?;
        Ok(())
    }

    /// The places, in order.
    pub fn as_slice(&self) -> &[Place]
        ensures { result.now ≡ self.now.places }
    {
        self.places.as_slice()
    }

    /// Whether the journal is full, so that no link may come.
    pub fn is_full(&self) -> bool
        ensures { result ≡ self.now.full }
    {
        self.full
    }

    /// Whether a place may be dialled now, or a peer let in: no link is up there and no dial on its
    /// way, or peers come there; its pause is over; it did not lose its link to another one that is
    /// still up; and the journal is not full.
    pub fn may_try(&self, place: usize, now: u64) -> bool
        ensures { result ≡ may_try self.now place now }
    {
        match self.places.get(place) {
            Some(p) => !self.full && p.is_free() && p.is_over(now) && !self.is_spare(p),
            None => false,
        }
    }

    // Whether a place lost its link to another one that is still up.
    fn is_spare(&self, p: &Place) -> bool
        ensures { result ≡ is_spare self.now.places p.now }
    {
        p.lost && self.has_up(p.contact)
    }

    // Whether a link to this contact is up.
    fn has_up(&self, contact: u8) -> bool
        ensures { result ≡ has_up contact self.now.places }
    {
        self.places
            .iter()
            .any(|p| p.contact == contact && p.is_up())
    }

    /// Whether a dialled link is to be ended, since nothing came on it for 15 minutes.
    pub fn is_idle(&self, place: usize, now: u64) -> bool
        ensures { result ≡ is_silent self.now place now }
    {
        match self.places.get(place) {
            Some(p) => p.is_idle(now),
            None => false,
        }
    }

    /// A dial of this place went out.
    pub fn tries(&mut self, place: usize)
        ensures { self.new ≡ changed place tried self.old }
    {
        if let Some(p) = self.places.get(place) {
            let p = p.tried();
            self.places[place] = p;
        }
    }

    /// The link of this number came up here.
    pub fn came_up(&mut self, place: usize, link: u8, now: u64)
        ensures { self.new ≡ changed place (after_up link now) self.old }
    {
        if let Some(p) = self.places.get(place) {
            let p = p.after_up(link, now);
            self.places[place] = p;
        }
    }

    /// The link of this place went down, or a try came to none.
    pub fn went_down(&mut self, place: usize, now: u64, why: Why)
        ensures { self.new ≡ changed place (after_down now why) self.old }
    {
        if let Some(p) = self.places.get(place) {
            let p = p.after_down(now, why);
            self.places[place] = p;
        }
    }

    /// Something came on the link of this place.
    pub fn heard(&mut self, place: usize, now: u64)
        ensures { self.new ≡ changed place (heard_at now) self.old }
    {
        if let Some(p) = self.places.get(place) {
            let p = p.heard_at(now);
            self.places[place] = p;
        }
    }

    /// The node ended all its sessions: no link is up, and none need wait for that. A dial that is
    /// on its way goes on.
    pub fn end_era(&mut self)
        ensures { self.new ≡ after_era self.old }
    {
        for place in 0..self.places.len() {
            let p = self.places[place];
            self.places[place] = p.ended_by_node();
        }
    }

    /// The journal is full: no link may come.
    pub fn fill(&mut self)
        ensures { self.new ≡ record { places = self.old.places; full = true } }
    {
        self.full = true;
    }

    /// The journal has room again.
    pub fn make_room(&mut self)
        ensures { self.new ≡ record { places = self.old.places; full = false } }
    {
        self.full = false;
    }

    /// The place where the link of this number is up.
    pub fn place_of(&self, link: u8) -> Option<usize>
        ensures { result ≡ place_of link self.now.places }
    {
        self.places.iter().position(|p| p.has_link(link))
    }

    /// The next time at which a place may be tried, or a link is idle, that is not so yet; there is
    /// none where all wait for something else.
    pub fn next_wake(&self, now: u64) -> Option<u64>
        ensures { result ≡ next_wake now self.now }
    {
        let mut wake = None;
        for p in self.places.as_slice() {
            wake = earlier(wake, earlier(self.try_wake(p, now), p.idle_wake(now)));
        }
        wake
    }

    // The end of a pause that keeps a place from being tried.
    fn try_wake(&self, p: &Place, now: u64) -> Option<u64>
        ensures { result ≡ try_wake self.now now p.now }
    {
        if !self.full && p.is_free() && !self.is_spare(p) {
            end_of(now, p.from, u64::from(p.wait))
        } else {
            None
        }
    }
}

// The earlier of two times that may never come.
fn earlier(a: Option<u64>, b: Option<u64>) -> Option<u64>
    ensures { result ≡ earlier a b }
{
    match (a, b) {
        (Some(a), Some(b)) => Some(a.min(b)),
        (Some(a), None) => Some(a),
        (None, b) => b,
    }
}
