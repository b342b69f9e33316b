//! A link, and the moves of what is in flight on it.
ghost use Rattle.std.specs.Prelude.{◌≡◌, false, IfOk, OnErr, OnOk, [], true};
ghost use Rattle.world_links.specs.Ends.{new_end};
ghost use Rattle.world_links.specs.Links.{all_carried, cut, side_end, given_too, left_by, moved};
ghost use Rattle.world_links.specs.Links.{side_of, with_flight};
ghost use Rattle.world_links.specs.Moves.{flight_after, given_by, has_first, is_possible};

use crate::end::End;
use crate::moves::{Move, Side};
use std::alloc::{AllocError, Global};

/// A link between two devices.
#[derive(Debug, Drop)]
pub struct Link {
    /// The end that dialled.
    pub near: End,
    /// The other end.
    pub far: End,
    /// Whether the link is cut: once its input was heard an end hears the other side's end.
    pub is_cut: bool,
}

impl Link {
    /// A link that this device dials to another one.
    pub fn new(alloc: Global, near: u8, far: u8) -> Link
        ensures { result ≡ record { near = new_end near; far = new_end far; is_cut = false } }
    {
        Link {
            near: End::new(alloc, near),
            far: End::new(alloc, far),
            is_cut: false,
        }
    }

    /// The side at which this device stands, if it is one of the two.
    pub fn side_of(&self, device: u8) -> Option<Side>
        ensures { result ≡ side_of device self.now }
    {
        if self.near.device() == device {
            Some(Side::Near)
        } else if self.far.device() == device {
            Some(Side::Far)
        } else {
            None
        }
    }

    /// Moves the first records in flight from a side. Answers whether there was what moves; where
    /// there was not, all is as before, and so it is where memory was wanting.
    pub fn make(&mut self, how: Move, from: Side) -> Result<bool, AllocError>
        ensures possible { IfOk result
            (λ done. done ≡ is_possible how (side_end from self.old).flight) }
        ensures moved { OnOk result (self.new ≡ moved how from self.old) }
        ensures err { OnErr result (self.new ≡ self.old) }
    {
        match from {
            Side::Near => make(how, &mut self.near, &mut self.far),
            Side::Far => make(how, &mut self.far, &mut self.near),
        }
    }

    /// All that is in flight from a side arrives at the other one. Answers whether that was
    /// anything. It fails only for want of memory.
    pub fn carry_all(&mut self, from: Side) -> Result<bool, AllocError>
        ensures some { IfOk result (λ some. some ≡ has_first (side_end from self.old).flight) }
        ensures carried { OnOk result (self.new ≡ all_carried from self.old) }
    {
        match from {
            Side::Near => carry_all(&mut self.near, &mut self.far),
            Side::Far => carry_all(&mut self.far, &mut self.near),
        }
    }

    /// Cuts the link: what is in flight on it is dropped.
    pub fn cut(&mut self)
        ensures { self.new ≡ cut self.old }
    {
        self.near.clear();
        self.far.clear();
        self.is_cut = true;
    }

    /// A device has the link no more, where it stands at one of the ends: the link is cut.
    pub fn leave(&mut self, device: u8)
        ensures { self.new ≡ left_by device self.old }
    {
        match self.side_of(device) {
            Some(Side::Near) => self.near.detach(),
            Some(Side::Far) => self.far.detach(),
            None => return,
        }
        self.cut();
    }
}

// Moves the first records in flight from an end to another one.
fn make(how: Move, from: &mut End, to: &mut End) -> Result<bool, AllocError>
    ensures possible { IfOk result (λ done. done ≡ is_possible how from.old.flight) }
    ensures from { OnOk result
        (from.new ≡ with_flight (flight_after how from.old.flight) from.old) }
    ensures to { OnOk result (to.new ≡ given_too (given_by how from.old.flight) to.old) }
    ensures from_err { OnErr result (from.new ≡ from.old) }
    ensures to_err { OnErr result (to.new ≡ to.old) }
{
    let some = from.has_first();
    match how {
        Move::Carry => {
            from.give_first(to)?;
            from.drop_first();
            Ok(some)
        }
        Move::Lose => {
            from.drop_first();
            Ok(some)
        }
        Move::Repeat => {
            from.give_first(to)?;
            Ok(some)
        }
        Move::Swap => Ok(from.swap_first()),
    }
}

// All that is in flight from an end arrives at another one.
fn carry_all(from: &mut End, to: &mut End) -> Result<bool, AllocError>
    ensures some { IfOk result (λ some. some ≡ has_first from.old.flight) }
    ensures from { OnOk result (from.new ≡ with_flight [] from.old) }
    ensures to { OnOk result (to.new ≡ given_too from.old.flight to.old) }
{
    let some = from.has_first();
    'records: while from.has_first() {
        from.give_first(to)?;
        from.drop_first();
    }
    Ok(some)
}
