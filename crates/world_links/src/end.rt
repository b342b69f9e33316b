//! An end of a link.
ghost use Rattle.std.specs.Prelude.{◌≡◌, ◌≤◌, [], None, Some, IfOk, OnErr, OnOk};
ghost use Rattle.std.specs.Prelude.{drop, length, take};
ghost use Rattle.outside.specs.Script.{planned_of};
ghost use Rattle.world_links.specs.Ends.{answer_to, flight_behind, input_of, new_end};
ghost use Rattle.world_links.specs.Links.{given_too};
ghost use Rattle.world_links.specs.Moves.{dropped_first, first_only, has_first, has_two};
ghost use Rattle.world_links.specs.Moves.{swapped_first};

use crate::flight::Flight;
use outside::Answer;
use std::alloc::{AllocError, Global};
use std::marker::Model;

/// The most bytes that an end hears in one turn.
pub const PIECE_LEN: usize = 65_536;

/// An end of a link: its device, the records in flight from it, and what it was given. Contracts
/// see also what number the link has at the device's host, which session began on it, how many of
/// the bytes that it was given were heard, and how many of those sent were looked at.
#[derive(Debug, Drop)]
pub struct End {
    alloc: Global,
    device: u8,
    at: Option<u8>,
    session: Option<u32>,
    flight: Flight,
    given: Vec<u8>,
    heard: usize,
    seen: usize,
}

impl Model for End {
    ghost use Rattle.std.specs.Prelude.{◌≤◌, length};
    ghost use Rattle.world_links.specs.Ends.{EndValue};

    ghost Value = { EndValue };

    ghost view = { λ e. record {
      device = e.device;
      at = e.at;
      session = e.session;
      flight = e.flight;
      given = e.given.items;
      heard = e.heard;
      seen = e.seen;
    } };

    ghost invariant = { λ e. e.heard ≤ length e.given.items };
}

impl End {
    /// An end at this device, to which nothing was given, and from which nothing is in flight.
    pub fn new(alloc: Global, device: u8) -> End
        ensures { result ≡ new_end device }
    {
        End {
            alloc,
            device,
            at: None,
            session: None,
            flight: Flight::new(alloc),
            given: Vec::new(alloc),
            heard: 0,
            seen: 0,
        }
    }

    /// Its device.
    pub fn device(&self) -> u8
        ensures { result ≡ self.now.device }
    {
        self.device
    }

    /// The number that the link has at the device's host, while the device has it.
    pub fn at(&self) -> Option<u8>
        ensures { result ≡ self.now.at }
    {
        self.at
    }

    /// The device has the link under this number, and this session began on it; nothing that was
    /// sent there was looked at.
    pub fn attach(&mut self, at: u8, session: u32)
        ensures { self.new ≡ record self.old { at = Some at; session = Some session; seen = 0 } }
    {
        self.at = Some(at);
        self.session = Some(session);
        self.seen = 0;
    }

    /// The device has the link no more.
    pub fn detach(&mut self)
        ensures { self.new ≡ record self.old { at = None } }
    {
        self.at = None;
    }

    /// What the link is to answer: the first `PIECE_LEN` bytes of its input, or all of it where it
    /// is shorter; without input `End` where the link is cut, and `Idle` where it is not. It fails
    /// only for want of memory.
    pub fn answer(&self, is_cut: bool) -> Result<Answer, AllocError>
        ensures { IfOk result (λ a. planned_of a ≡ answer_to is_cut (input_of self.now)) }
    {
        answer_of(self.alloc, &self.given.as_slice()[self.heard..], is_cut)
    }

    /// The bytes of that answer leave the input.
    pub fn hear(&mut self)
        ensures input { input_of self.new ≡ drop PIECE_LEN (input_of self.old) }
        ensures rest { self.new ≡ record self.old { heard = self.new.heard } }
        ensures within { self.new.heard ≤ length self.new.given }
    {
        let left = self.given.len() - self.heard;
        self.heard += left.min(PIECE_LEN);
    }

    /// Looks at all bytes that were sent on the link so far: the records among those that were not
    /// looked at are in flight, or dropped where the link is cut. It fails only for want of memory.
    pub fn look(&mut self, sent: &[u8], is_cut: bool) -> Result<(), AllocError>
        ensures { OnOk result (self.new ≡ record self.old {
          flight = flight_behind is_cut sent.now self.old;
          seen = length sent.now;
        }) }
    {
        let seen = self.seen.min(sent.len());
        if !is_cut {
            self.flight.send(self.alloc, &sent[seen..])?;
        }
        self.seen = sent.len();
        Ok(())
    }

    // Whether something is in flight.
    pub(crate) fn has_first(&self) -> bool
        ensures { result ≡ has_first self.now.flight }
    {
        self.flight.has_first()
    }

    // Gives the first record in flight to another end, if there is one, and leaves it in flight.
    pub(crate) fn give_first(&self, to: &mut End) -> Result<(), AllocError>
        ensures ok { OnOk result (to.new ≡ given_too (first_only self.now.flight) to.old) }
        ensures err { OnErr result (to.new ≡ to.old) }
    {
        if let Some(record) = self.flight.first() {
            to.given.extend_from_slice(record)?;
        }
        Ok(())
    }

    // Drops the first record in flight, if there is one.
    pub(crate) fn drop_first(&mut self)
        ensures { self.new ≡ record self.old { flight = dropped_first self.old.flight } }
    {
        self.flight.drop_first();
    }

    // The first two records in flight change places. Answers whether there were two.
    pub(crate) fn swap_first(&mut self) -> bool
        ensures swapped { self.new ≡ record self.old { flight = swapped_first self.old.flight } }
        ensures possible { result ≡ has_two self.old.flight }
    {
        self.flight.swap_first()
    }

    // Nothing is in flight any more.
    pub(crate) fn clear(&mut self)
        ensures { self.new ≡ record self.old { flight = [] } }
    {
        self.flight.clear();
    }
}

// What a link with this input is to answer.
fn answer_of(alloc: Global, input: &[u8], is_cut: bool) -> Result<Answer, AllocError>
    ensures { IfOk result (λ a. planned_of a ≡ answer_to is_cut input.now) }
{
    if input.is_empty() {
        return Ok(if is_cut { Answer::End } else { Answer::Idle });
    }
    let piece = Vec::from_slice(alloc, front(input, PIECE_LEN))?;
    Ok(Answer::Bytes(piece))
}

// As many of the bytes as there is room for.
fn front(bytes: &[u8], room: usize) -> &[u8]
    ensures { result.now ≡ take room bytes.now }
{
    &bytes[..room.min(bytes.len())]
}
