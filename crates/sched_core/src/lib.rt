//! The parts of a scheduler over several queue pairs: its text, its stopped state, and the ring that keeps
//! operations in order.
//!
//! A contract sees a stopped [`Scheduler`] as a `Stopped`: its mode, whether it orders, its threshold and
//! sessions, its devices, and how many of these are attached. An attached device is a *worker*.
//!
//! An [`OrderRing`] is seen as a list of slots, numbered from `first` on. While an operation is with a worker
//! it has its slot's number as pos, and the slot is open; once it is back the slot is settled, with the
//! operation and its former pos. `pending_of` lists the entries of the slots in their order, each out of the
//! ring or out of what the workers hold, and `IsRingSound` says that these agree: each open number is held once,
//! and nothing else is held.
//!
//! Short callers are the proved tests `numbers_are_opened_and_taken_back` and
//! `a_text_says_all_of_a_scheduler`.
#![tactic(auto)]

mod field;
mod mode;
mod ring;
mod scheduler;
mod settle;
mod text;
mod through;

pub use mode::Mode;
pub use ring::{Front, OrderRing, Slot};
pub use scheduler::{AttachRefused, BadThreshold, Parts, Scheduler};
pub use settle::settle_all;
pub use text::{BadText, SchedText};
pub use through::enqueue_through;

#[cfg(test)]
mod tests;
