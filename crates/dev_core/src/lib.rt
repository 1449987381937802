//! Queue pairs: what a driver promises, and what a device promises beside it.
//!
//! A contract sees of a driver `held`, the entries of the operations that it has accepted and not
//! returned, where an entry is the request that an operation was made with, its pos and its cargo. An
//! enqueue moves the first operations of a burst inside, and a dequeue hands some out, each `IsDone`:
//! with the answer to its made request under the driver's `sessions`. A driver that moves fewer than it
//! could has its count of `stalls` rise, and for no other cause may it move fewer.
//!
//! Two devices stand over any other: `StallDriver` moves at most so many operations in a call, and
//! `LogDriver` logs what it takes, up to a number of entries.
//!
//! The proved test `short_calls_are_counted` is a short caller.
#![tactic(auto)]

mod cuts;
mod driver;
mod limits;
mod log;
mod over;
mod stall;
mod stats;

pub use driver::{Device, Driver, Kind, LogEntry, SetUpRefused};
pub use limits::{LimitList, LimitedCalls, Limits};
pub use log::LogDriver;
pub use stall::StallDriver;
pub use stats::Stats;

#[cfg(test)]
mod tests;
