//! What holds of places, whatever happens at them. The functions do nothing; their clauses are the
//! laws.
ghost use Rattle.link_places.specs.Flapping.{FlapsArePaced};
ghost use Rattle.link_places.specs.Waking.{WakesInTime};

/// Until the next wake nothing changes by itself.
#[tactic(auto, using(crate::proofs::PlaceLemmas::waking_in_time))]
pub fn wakes_in_time()
    ensures { WakesInTime }
{}

/// A peer that flaps comes up no closer than the pauses.
#[tactic(auto, using(crate::proofs::PlaceLemmas::flaps_paced))]
pub fn flaps_are_paced()
    ensures { FlapsArePaced }
{}
