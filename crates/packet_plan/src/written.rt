//! Records on their way.
ghost use Rattle.std.specs.Prelude.{◌≡◌, ◌≤◌, length};
ghost use Rattle.mbuf_chain.specs.Chain.{packet_of};
ghost use Rattle.capture_io.specs.declared.reading.TheConstants.{MAX_CAPTURED};

use capture_io::Record;
use crypto_model::Status;
use crypto_op::{Card, Op};
use mbuf_chain::Mbuf;
use std::snapshot::Snapshot;

/// What became of a packet.
#[derive(Clone, Copy, Debug, PartialEq, Eq)]
pub enum Fate {
    /// No session was chosen for it.
    Passed,
    /// It is too short for its session.
    Short,
    /// An operation worked on it, with this status.
    Worked(Status),
}

/// A record as it is to be written, and what became of its packet.
#[derive(Drop)]
pub struct Written {
    pub rec: Record,
    pub fate: Fate,
}

/// What is kept of a record whose packet is inside an operation: its time, and how long the packet was.
///
/// Contracts see the record as it was read, by a snapshot that takes no memory.
#[derive(Drop)]
pub struct Kept {
    pub(crate) sec: u32,
    pub(crate) frac: u32,
    pub(crate) orig: u32,
    pub(crate) len: usize,
    pub(crate) read: Snapshot<Mbuf>,
    ghost len_is: { len ≡ length (packet_of read.value) },
    ghost captured: { len ≤ MAX_CAPTURED },
    ghost original: { orig ≤ 4294967231 },
}

/// A record that was begun: ready to be written, or waiting for an operation.
#[derive(Drop)]
pub enum Work {
    Ready(Written),
    Needs(Kept, Op<Card>),
}
