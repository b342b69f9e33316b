//! Counts of faults, one for each link.
ghost use Rattle.std.specs.Prelude.{◌≡◌, ◌≢◌, ℕ, ◌<◌, ◌≤◌, slice_index};
ghost use Rattle.outside.specs.Faults.{CountRose};
ghost use Rattle.outside.specs.MemHost.{RaisesCount};

use crate::LINKS;

/// Raises the count of this link; it stands still at 2^64 - 1.
pub fn raise_at(faults: &mut [u64; LINKS], link: usize)
    requires { link < LINKS }
    ensures later { slice_index faults.old link ≤ slice_index faults.new link }
    ensures rose { CountRose (slice_index faults.old link) (slice_index faults.new link) }
    ensures raises { RaisesCount link faults.old faults.new }
    ensures others { (k : ℕ) → k ≢ link → slice_index faults.new k ≡ slice_index faults.old k }
{
    faults[link] = faults[link].saturating_add(1);
}
