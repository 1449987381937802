//! Segments of a packet, and lists of them.
//!
//! A [`Seg`] is a buffer of 2,048 bytes with the place of its data. A clause sees it as three lists of bytes, those before,
//! in and behind the data, which are 2,048 together. A segment of offset 4 and length 3:
//!
//! ```text
//! byte      0   4    7                       2047
//!           before  body  after
//! ```
//!
//! A [`SegList`] is seen as the list of its segments, at most 256. `Lends..` is the word for what is written to a lent part:
//! it is written there and nowhere else. The proved test `a_segment_in_the_middle_is_changed` is a short caller.
#![tactic(auto)]

mod chain;
mod iter;
mod list;
mod node;
mod seg;
mod steps;
mod walk;

pub use iter::SegIter;
pub use list::{MAX_SEGS, SegList};
pub use seg::{SEG_SIZE, Seg};
pub use steps::Steps;
pub use walk::Walk;

#[cfg(test)]
mod tests;
