//! AES-GCM (SP 800-38D) with an IV of 12 bytes, over a text that comes in pieces of any length.
//!
//! [`GcmSeal`] encrypts a text and makes its tag. [`GcmOpen`] takes in a whole ciphertext and compares
//! the tag; only then is there a [`GcmPlain`], which decrypts the ciphertext in a second walk.
//! A clause sees a [`GcmKey`] as the key's bytes. `IsSealed`, `IsAbsorbed` and `IsOpened` say which text
//! a state has taken in so far, and `gcm_text` and `gcm_tag` are the standard's, on whole texts. Sealing is
//!
//! ```text
//! let key = GcmKey::new(Key::expand(&bytes)?);
//! let mut seal = GcmSeal::new(&key, iv, &aad);
//! seal.feed(&mut text[..5]);
//! seal.feed(&mut text[5..]);
//! let tag = seal.tag();
//! ```
//!
//! as the proved test `published_test_cases` does, and the test `a_tag_is_the_first_bytes_of_the_whole` opens. An IV must not
//! come twice under one key, which nothing here sees to.
#![tactic(auto)]

mod blocks;
mod hash;
mod key;
mod opening;
mod seal;
mod stream;
mod table;
mod tag;
mod xor;

pub use key::GcmKey;
pub use opening::{BadTag, GcmOpen, GcmPlain};
pub use seal::GcmSeal;

#[cfg(test)]
mod tests;
