//! A capture on its way.
ghost use Rattle.std.specs.Prelude.{◌≡◌, ◌≤◌, IfOk};
ghost use Rattle.packet_flow.specs.Passage.{IsUnbegun};

use crate::counts::Counts;
use crate::slots::Slots;
use crate::window::Window;
use crypto_model::OutOfMemory;
use crypto_op::{Card, MAX_OPS, OpBurst};
use std::alloc::Global;

/// What stands between the capture that is read and the one that is written.
#[derive(Drop)]
pub(crate) struct Passage {
    /// Packets that are read and not begun.
    pub(crate) window: Window,
    /// Packets that are begun and not written.
    pub(crate) slots: Slots,
    /// How many operations were made.
    pub(crate) made: u64,
    /// What was written.
    pub(crate) counts: Counts,
    /// Operations that are not accepted yet.
    pub(crate) burst: OpBurst<Card>,
    /// Room for answered operations.
    pub(crate) back: OpBurst<Card>,
}

impl Passage {
    /// Nothing is read yet. Bursts have at most `size` operations.
    pub(crate) fn new(alloc: Global, size: usize) -> Result<Passage, OutOfMemory>
        requires { size ≤ MAX_OPS }
        ensures { IfOk result (IsUnbegun size) }
    {
        Ok(Passage {
            window: Window::new(alloc),
            slots: Slots::new(alloc),
            made: 0,
            counts: Counts::new(),
            burst: OpBurst::new(alloc, size)?,
            back: OpBurst::new(alloc, size)?,
        })
    }
}
