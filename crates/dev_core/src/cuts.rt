//! How a device over another counts where it moves less than it could.
ghost use Rattle.std.specs.Prelude.{◌≡◌, ℕ, ◌≤◌, min, Some};
ghost use Rattle.dev_core.specs.Burst.{offered, lens};
ghost use Rattle.dev_core.specs.Limits.{cuts_after};

use crate::Device;
use crypto_op::OpBurst;

/// How many of the burst's first `max` operations the device accepts if it doesn't stall.
pub(crate) fn admitted<C, D: Device<C>>(device: &D, burst: &OpBurst<C>, max: usize) -> usize
    ensures offered { result ≤ offered max burst.now }
    ensures all { D.admits device.now (lens max burst.now) ≡ Some result }
    ensures fewer { (n : ℕ) → n ≤ max → D.admits device.now (lens n burst.now) ≡ Some (min n result) }
{
    let offered = max.min(burst.len());
    let room = device.depth().saturating_sub(device.held());
    offered.min(room)
}

/// The count of cuts after a call that could move so many operations and moves at most `most`.
pub(crate) fn count_cut(cuts: u64, most: usize, could: usize) -> u64
    ensures { result ≡ cuts_after (Some most) could cuts }
{
    cuts.saturating_add(u64::from(most < could))
}
