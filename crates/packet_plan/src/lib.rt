//! From packets to operations, and back.
//!
//! A plan chooses a session for each packet by the packet's bytes. An outward session encrypts or generates,
//! an inward one decrypts or verifies. Contracts speak by these words of `specs`:
//!
//! - `asked` of `Asked`: what a plan asks for of packet n. It passes, is too short, or an operation works on it;
//! - `way_of` of `Way` and `iv_of` of `Iv`: what a session's transforms say of its ranges, and its IVs;
//! - `answered` of `Answered`: the record that is written for record n;
//! - `IsBegun` and `IsAsked` of `Work`: the same of records and operations in memory.
//!
//! The proved test `a_packet_of_60_bytes_is_asked_for_by_its_session` is a short caller.
#![tactic(auto)]

mod choice;
mod errand;
mod iv;
mod quick;
mod ready;
mod room;
mod session_way;
mod way;
mod written;

pub use quick::quick_plan;
pub use ready::ReadyPlan;
pub use way::Way;
pub use written::{Fate, Kept, Work, Written};

#[cfg(test)]
mod tests;
