//! The plain types of the framework, and the definitions that its contracts cite: AES and its modes, GCM, HMAC, chains,
//! sessions, and what processing an operation gives. A number in brackets behind a definition is the section of its
//! standard: FIPS 197 (2001), FIPS 198-1 (2008), FIPS 180-4 (2015), SP 800-38A (2001) and SP 800-38D (2007).
//!
//! `slow_encrypt` and `slow_product` are the definitions as programs, which faster code is compared with; the laws compute
//! published vectors from the definitions. What several crates do alike stands here too: [`is_same`], [`times_x`],
//! [`is_key_length`], the sizes of a [`Hash`].
//!
//! The proved test `slow_encrypt_gives_the_examples_of_the_standard` is a short caller.
#![tactic(auto)]

mod compare;
mod laws;
mod plain;
mod product;
mod slow;

pub use compare::is_same;
pub use laws::{cipher_vectors, gcm_vectors, hmac_vectors, mode_vectors};
pub use plain::{Act, CipherAlg, DigestPlace, Dir, Hash, OutOfMemory, Range, SessId, Status};
pub use product::{slow_product, times_x};
pub use slow::{BadKeyLength, Substitution, expanded, is_key_length, slow_encrypt};

#[cfg(test)]
mod tests;
