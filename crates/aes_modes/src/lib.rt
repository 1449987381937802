//! Modes of operation of AES (SP 800-38A) on texts that come in pieces.
//!
//! A state is made with a key and an IV or a first counter block, and then fed one piece after another, in place.
//! [`Ctr`] takes pieces of any length; [`CbcEnc`] and [`CbcDec`] take whole blocks. No counter block and no IV of CBC may
//! come twice under one key, which nothing here sees to. In short:
//!
//! ```text
//! let key = Key::expand(&bytes)?;
//! let mut ctr = Ctr::new(&key, counter);
//! for piece in pieces.chunks_mut(size) { ctr.feed(piece); }
//! ```
//!
//! as the proved test `pieces_give_what_the_whole_gives` does. A clause says which text a state has taken in so far (`IsFed`,
//! `IsChained`, `IsUnchained`), for every such text, and that what comes out goes on with the mode of the joined text: `ctr`,
//! `cbc_encrypt` and `cbc_decrypt`, the standard's on whole texts.
#![tactic(auto)]

mod cbc;
mod ctr;
mod lanes;
mod xor;

pub use cbc::{CbcDec, CbcEnc};
pub use ctr::Ctr;

#[cfg(test)]
mod tests;
