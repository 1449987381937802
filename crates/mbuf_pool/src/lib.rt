//! Pools of segments.
//!
//! A pool holds segments that were made when it was opened. Who takes one needs no memory, and who gives one back frees
//! none. A segment that was taken has offset 0 and no data; what its other bytes are isn't said.
//!
//! | Pool | For | Where none is left |
//! |---|---|---|
//! | [`LocalPool`] | one thread | answers `Empty` |
//! | [`Topped`] | one thread | makes a fresh one |
//! | [`Pool`] | many threads, each with a [`SegPass`] | makes a fresh one, which the pass counts |
//!
//! The proved test `two_threads_share_a_pool` is a caller. On one thread:
//!
//! ```text
//! let (pool, mut pass) = Pool::open(&rt, alloc, 64)?;
//! let mut theirs = pass.split(&pool);                  // for another thread
//! let seg = pool.take(&rt, alloc, &mut pass)?;
//! pool.give(&rt, &mut pass, seg);
//! ```
#![tactic(auto)]

mod local;
mod pool;
mod topped;

pub use local::LocalPool;
pub use pool::{Pool, SegPass};
pub use topped::Topped;

#[cfg(test)]
mod tests;
