//! Schedulers that run on one thread: operations are spread over workers that may refuse them, and the caller
//! sees one queue pair.
//!
//! A [`Running`] is a `Driver` over its workers, in one of three modes. Contracts speak of these words:
//!
//! - `pending`: the entries that were accepted and not returned. With ordering on it is a list, and what comes
//!   back is its front; with ordering off it is a bag.
//! - `Crew`: the workers as plain data, with whose turn it is and the places of the ring. `RoundOffers`,
//!   `SizeOffers` and `FailOffers` say what an enqueue call does with a crew, and which worker has stalled where
//!   fewer operations were taken than rooms allow; `DrawsFrom` says the same of a dequeue call.
//! - `Follows`: what all burst calls keep, with the lists of what each worker took.
//! - `assign`: which operations of a flow each worker gets, by the mode, where none stalls. `HasDealt` says what the
//!   workers of a scheduler took between its start and its end, whether one stalled or not; whoever runs a flow over a
//!   `Running` has it by the lemma `has_dealt` of `proofs/Dealing`.
//!
//! [`start`] makes a stopped scheduler run, and `stop` or `break_up` give it back. A short caller is the
//! proved test `a_second_worker_takes_what_the_first_refuses`.
#![tactic(auto)]

mod draw;
mod fail;
mod launch;
mod offer;
mod pool;
mod pull;
mod round;
mod running;
mod size;

pub use fail::FailOver;
pub use launch::{StartRefused, start};
pub use pool::Pool;
pub use pull::{Got, Stop};
pub use round::RoundRobin;
pub use running::{Pending, Running};
pub use size::PacketSize;

#[cfg(test)]
mod tests;
