//! One packet of a run.
ghost use Rattle.std.specs.Prelude.{◌≡◌};

use packet_plan::{Fate, Written};
use std::snapshot::Snapshot;

/// A packet whose record waits as bytes: its number, how many bytes these are, and what became of it. Contracts see the
/// record by a snapshot, which takes no memory.
#[derive(Drop)]
pub struct Mark {
    pub(crate) number: u32,
    pub(crate) len: u32,
    pub(crate) fate: Fate,
    pub(crate) told: Snapshot<Written>,
    ghost fate_is: { fate ≡ told.value.fate },
}
