//! The theorem of many devices, over their journals: whatever is lost, repeated, swapped, cut or
//! breaks off, each device's journal is legal, and what one device counts as seen by another is
//! held there. No host, no file and no clock stands in it: a step of a world is that one device
//! runs, or that two are linked. All loss, repeats, swaps, cuts, restarts and crashes are such
//! steps. No device of a world puts a brief account in the place of its journal.
#![tactic(auto)]

ghost use Rattle.std.specs.Prelude.{Bool, List, ℕ};
ghost use Rattle.sync_rules.specs.Clients.{Meaning};
ghost use Rattle.world_laws.specs.Moves.{Move, world_after};
ghost use Rattle.world_laws.specs.Theorem.{HeldIsWritten, IsNewWorld, IsSoundWorld, RestIsDone};
ghost use Rattle.world_laws.specs.Theorem.{SeenIsHeld};
ghost use Rattle.world_laws.specs.Worlds.{AreSteps, IsStep, last_of, World};

/// A new world is sound, and each step of a sound world leads to a sound world.
pub fn steps_keep()
    ensures new { (clients : Meaning) (w : World) → IsNewWorld clients w → IsSoundWorld clients w }
    ensures step { (clients : Meaning) (old new : World) → IsSoundWorld clients old
        → IsStep clients old new → IsSoundWorld clients new }
    ensures steps { (clients : Meaning) (w : World) (worlds : List World)
        → IsSoundWorld clients w → AreSteps clients w worlds
        → IsSoundWorld clients (last_of w worlds) }
{}

/// Many devices: after every list of steps each device's journal is legal (the field `legal`), what
/// a device counts as seen by another is held by that other, each held message was written by some
/// device, and where a session is at rest all that is to reach its contact is held there.
pub fn many_devices()
    ensures sound { (clients : Meaning) (w : World) (worlds : List World) → IsNewWorld clients w
        → AreSteps clients w worlds → IsSoundWorld clients (last_of w worlds) }
    ensures seen { (clients : Meaning) (w : World) (worlds : List World) → IsNewWorld clients w
        → AreSteps clients w worlds → SeenIsHeld (last_of w worlds) }
    ensures written { (clients : Meaning) (w : World) (worlds : List World)
        → IsNewWorld clients w → AreSteps clients w worlds → HeldIsWritten (last_of w worlds) }
    ensures rest { (clients : Meaning) (w : World) (worlds : List World) → IsNewWorld clients w
        → AreSteps clients w worlds → RestIsDone clients (last_of w worlds) }
{}

/// Moves: what becomes of the records in flight on a link by itself is a step: the first is carried
/// to the other end, lost, or carried and kept, the first two change places, or the link is cut.
pub fn moves()
    ensures { (clients : Meaning) (w : World) (move : Move) (near : Bool) (link : ℕ)
        → IsStep clients w (world_after move near link w) }
{}
