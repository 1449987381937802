//! Sessions: lists of transforms, checked once, with their keys made ready. A clause sees a [`Session`] as
//! its list of transforms, and a [`SessionTable`] as the list of those lists.
//!
//! ```text
//! let session = Session::make(alloc, &[Xform::Cipher { alg, dir, key }])?;
//! let id = table.add(session)?;
//! ```
//!
//! `fault_of` says why a list of transforms is no session, the first of the faults in the order of [`MakeRefused`]. The
//! proved test `a_table_numbers_its_sessions` is a short caller.
#![tactic(auto)]

mod compare;
mod key_bytes;
mod refusal;
mod session;
mod step;
mod table;
mod xform;

pub use compare::same;
pub use key_bytes::KeyBytes;
pub use refusal::MakeRefused;
pub use session::Session;
pub use step::{AeadStep, AuthStep, CipherStep, Step};
pub use table::{SessionTable, TableFull};
pub use xform::Xform;

#[cfg(test)]
mod tests;
