//! HMAC (FIPS 198-1) with the hash functions of SHA-2, over a text that comes in pieces.
//!
//! A key is made ready once; each text has a state of its own, which is fed and then asked for the code, or compared with
//! a tag:
//!
//! ```text
//! let mut code = Hmac::start(&HmacKey::new(hash, key)?);
//! for piece in text.chunks(1) { code.feed(piece); }
//! let tag = code.finish();
//! ```
//!
//! as the proved test `codes_are_those_of_the_test_cases` does. A clause says `IsKeyOf` of a key that was made of these bytes,
//! `HmacHolds` of a state that has taken in a text, and `hmac_of` is the standard's code of a whole text.
#![tactic(auto)]

mod code;
mod key;
mod state;
mod tag;

pub use code::Hmac;
pub use key::HmacKey;
pub use tag::MacTag;

#[cfg(test)]
mod tests;
