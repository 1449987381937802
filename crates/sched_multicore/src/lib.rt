//! Multi-core mode: a queue pair whose operations workers in other threads do.
//!
//! A [`McQp`] numbers the operations that it accepts. It gives each to a worker through a flight table as far as the
//! worker's quota reaches, and has it back answered, in order where its ordering is on. What no worker has taken, or what
//! one gave back, the queue pair can answer itself ([`McQp::help`]). No burst call waits or takes memory.
//!
//! A [`Worker`] has a device, and a hand in the flight table of each queue pair. At each turn it takes what is ready for
//! it, offers that to its device in bursts as large as may be, gives back what the device doesn't take, and finishes
//! what the device returns. A turn waits for nothing and takes no memory.
//!
//! A contract sees a queue pair as what it keeps: `unreturned` lists the entries of the operations that were accepted and
//! not returned. A word that a call found is one by which that call made `looks` longer. The proved test
//! `a_drained_queue_pair_is_closed_with_its_hands` is a short caller.
#![tactic(auto)]

mod carrier;
mod crossing;
mod dequeue;
mod finish;
mod gate;
mod help;
mod offer;
mod place;
mod queue;
mod worker;

pub use dequeue::{McGot, McStop};
pub use gate::{Gate, OpenGate};
pub use queue::McQp;
pub use worker::{OpenRefused, Turn, Worker};

#[cfg(test)]
mod queue_tests;
#[cfg(test)]
mod worker_tests;
