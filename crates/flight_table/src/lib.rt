//! A table of operations in flight between the thread that owns them and workers in other threads, with no
//! lock and no loop that waits.
//!
//! A *slot* has an operation or none, and a *word*: the owner *holds* the slot (HELD), or gave its operation to
//! a worker (READY), which took it (TAKEN) and finished it (DONE) or gave it back (BACK). A [`Book`] numbers the
//! operations, and the [`Note`] in an operation shows what was drawn under its number. A contract sees of an
//! [`Owner`] and of each [`Hand`] its *view*, what it knows: the words that it found (`looks`), what it has
//! given out or taken slot by slot, and how many it finished or collected.
//!
//! ```text
//!                  publish                 take                 finish
//!   HELD (owner) -----------> READY(p, w) -------> TAKEN(p, w) ---------> DONE(p, w)
//!    ^  ^  ^                     |                     |                     |
//!    |  |  +--- recall ----------+                     | give_back           |
//!    |  +------ recall ------- BACK(p, w) <------------+                     |
//!    +--------- collect ----------------------------------------------------+
//! ```
//!
//! A worker that gives back whatever it takes, as the proved test `what_a_worker_gives_back_is_recalled` has it:
//!
//! ```text
//! fn returned(hand: &mut Hand, k: usize) -> Result<(), Word> {
//!     let op = hand.take(k)?;
//!     hand.give_back(k, op);
//!     Ok(())
//! }
//! ```
#![tactic(auto)]

mod book;
mod flight;
mod hand;
mod owner;
mod rule;
mod threads;
mod word;

pub use book::{Book, Note};
pub use flight::Flight;
pub use hand::Hand;
pub use owner::Owner;
pub use word::{Phase, Word};

#[cfg(test)]
mod tests;
