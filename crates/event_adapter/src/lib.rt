//! The event crypto adapter: events that carry operations go between a port of an event device and queue pairs.
//!
//! An [`Adapter`] has up to eight queue pairs. One call of [`Adapter::run_once`] does four steps, each with at most one call
//! of the port or of each device:
//!
//! ```text
//! port  <-- out buffer (64 events)  <-- answers of the devices        1 send, 2 take answers
//!                                       in buffers (32 operations)    3 offer what waits to the devices
//! port  --> in buffers                                                4 take events, in mode Forward
//! ```
//!
//! An event whose queue pair isn't there goes into the out buffer as it came. In mode New the application brings
//! operations itself, by [`Adapter::submit`].
//!
//! Contracts speak of these words of `specs`:
//!
//! - `inside` of `Inside`: all that the adapter and its devices have, as entries with the queue pair that they are for.
//!   With what was sent this is, as a bag, what was taken and submitted;
//! - `Ran` of `Ran`: one call's four steps in their order, with the cause of each number;
//! - `Completed`, `Offered`, `Dealt` of `Steps`: what a step does to one queue pair;
//! - `KeepsOrder` of `Ran`: where a device is ordered, the events of its queue pair leave in the order of coming.
//!
//! The proved test `eight_events_go_through_in_order` is a short caller.
#![tactic(auto)]

mod adapter;
mod burst;
mod dealing;
mod event;
mod join;
mod mem_port;
mod moved;
mod port;
mod queue_pair;
mod refused;
mod steps;

pub use adapter::Adapter;
pub use burst::EventBurst;
pub use event::{Event, EventKind};
pub use mem_port::MemPort;
pub use moved::{AdapterMode, Moved};
pub use port::EventPort;
pub use refused::{AddQpRefused, DelRefused, Unknown};

#[cfg(test)]
mod tests;
