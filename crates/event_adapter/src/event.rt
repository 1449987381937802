//! Events, which carry operations.
use crypto_op::Op;

/// Whether an event is new to the event device or was forwarded.
#[derive(Clone, Copy, Debug, PartialEq, Eq)]
pub enum EventKind {
    New,
    Forward,
}

/// An operation for a queue pair, or one that it answered.
#[derive(Drop)]
pub struct Event<C> {
    pub kind: EventKind,
    /// The id of the queue pair.
    pub qp: u8,
    pub op: Op<C>,
}
