//! Processing an operation, and the plain device, which does it for each operation that is dequeued.
//!
//! [`process`] checks an operation against its session, and then does the session's transforms on the packet
//! where it lies. A clause calls an operation `IsDone` where it carries the answer to the request that it was
//! made with.
//!
//! The proved test `gcm_seals_and_opens` is a short caller.
#![tactic(auto)]

mod checks;
mod mode;
mod moves;
mod plain;
mod processing;
mod walk;
mod work;

pub use plain::PlainDriver;
pub use processing::process;

#[cfg(test)]
mod tests;
