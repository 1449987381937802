//! AES (FIPS 197) with an expanded key: one block or four by look-ups in tables of sixteen bytes that stay in
//! vectors, sixteen blocks in the planes of their bits.
//! A clause sees a [`Key`] as its bytes; `cipher` and `inverse_cipher` are the standard's, under such a key. The proved test
//! `the_examples_of_the_standard` is a short caller of each.
#![tactic(auto)]

mod bitslice;
mod circuit;
mod decryption;
mod encryption;
mod key;
mod nibbles;
mod planes;
mod tables;
mod wide;
mod wide_nibbles;

pub use key::{Key, decrypt, decrypt_four, encrypt, encrypt_four, encrypt_sixteen};

#[cfg(test)]
mod tests;
