//! Operations on packets, and bursts of them.
//!
//! An operation has a *made* request: what was asked for, and of which packet, when it was made or
//! renewed last. Writing to its packet, its status, its digest field or its pos leaves that as it was, so
//! a contract can say of an operation that comes back what it is the answer to. It `IsFresh` where it
//! isn't processed and has its made request; it `IsDone` where it has the answer to it.
//!
//! A burst is a list of operations with a fixed capacity, first in, first out. The proved tests
//! `an_operation_is_changed_and_taken_apart` and `a_burst_gives_operations_in_their_order` are short callers.
#![tactic(auto)]

mod burst;
mod moves;
mod op;
mod spec;

pub use burst::{MAX_OPS, OpBurst};
pub use op::Op;
pub use spec::{Aad, Card, Iv, OpSpec};

#[cfg(test)]
mod tests;
