//! The packets of a capture on their way through a queue pair, and back into a capture.
//!
//! [`transfer`] reads a [`Window`] of records. Each packet that is begun gets one of the [`Slots`], in the order of the
//! capture. A packet that needs no operation is ready at once. For any other an operation joins the burst, which is
//! offered to the driver once in a turn. What comes back, in whatever order, is put into the slot that waits for it by
//! the packet's number on its card, and the records at the front that are ready are written. Those that are ready behind
//! one that isn't are kept as the bytes that will be written.
//!
//! So after each turn, in a capture of eight packets:
//!
//! ```text
//! written        slots                      waiting    not read
//! 0  1  2        3 open  4 ready  5 open    6          7
//! ```
//!
//! What is done by what:
//!
//! ```text
//! transfer
//!     step                  until the capture is at its end
//!         fill              where the burst is empty
//!             advance       record by record: it is begun, or passed on where its plan leaves it
//!                 next_packet   one that waits in the window, or is read: Window::take, Window::read, Window::read_one
//!                 pass_on       written at once where no slot is before it
//!                 begin, Slots::push, Slots::write_ready
//!         turn
//!             offer         the burst, once
//!             drain         what comes back, into its slots (Slots::settle_all)
//!         Slots::write_ready
//! ```
//!
//! Contracts speak of these words of `specs`:
//!
//! - `StandFor` of `Slots`: the slots stand for these packets, which keep their numbers beside them (`Numbered`), and
//!   the open ones wait for just these operations; `HasWritten` of `Writing`: some in front are written;
//! - `GoesOn` of `Reads`: what was read so far is the front of every reading of the capture;
//! - `IsUnderway` of `Passage`: all that is known between two turns;
//! - `Flowed` of `Flowed`, and `EndsAs` of `Passage`: what was written, counted and taken at the end. The written
//!   records are the first of `answered_from`, in which each packet is answered by itself, and the operations that the
//!   driver took are the first of `entries_from`, which are numbered from 0: a packet that passes or is short takes no
//!   number;
//! - `Flows` of `dev_core`: in which bursts the driver was offered them.
#![tactic(auto)]

mod counts;
mod filling;
mod flow;
mod forwarding;
mod mark;
mod passage;
mod route;
mod run;
mod slots;
mod turn;
mod window;

pub use counts::Counts;
pub use flow::{Flow, FlowEnd, PATIENCE, Sizes, transfer};
pub use forwarding::{Forwarded, forward};
pub use slots::Slots;
pub use window::{Packet, Window};

#[cfg(test)]
mod tests;
