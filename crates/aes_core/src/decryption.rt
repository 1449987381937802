//! The inverse cipher (FIPS 197, 5.3) on blocks that are one vector each.
ghost use Rattle.std.specs.Prelude.{◌≡◌, ◌<◌};
ghost use Rattle.crypto_model.specs.Aes.{add_round_key, inverse_cipher_with, inverse_mix_columns, inverse_shift_rows, inverse_sub_bytes};

mod steps;
mod tables;
mod wide;

use crate::wide::{paired, parted};
use std::simd::prelude::*;
use steps::{add_round_key, inverse_mix_columns, inverse_shift_rows, inverse_sub_bytes};
use wide::decrypt_two_pairs;

#[inline(always)]
fn inverse_round(words: &[u8; 240], round: usize, state: u8x16) -> u8x16
    requires { round < 15 }
    ensures { result ≡ inverse_mix_columns (add_round_key words.now round (inverse_sub_bytes (inverse_shift_rows state))) }
{
    let state = inverse_sub_bytes(inverse_shift_rows(state));
    inverse_mix_columns(add_round_key(words, round, state))
}

#[inline(always)]
fn last_round(words: &[u8; 240], state: u8x16) -> u8x16
    ensures { result ≡ add_round_key words.now 0 (inverse_sub_bytes (inverse_shift_rows state)) }
{
    add_round_key(words, 0, inverse_sub_bytes(inverse_shift_rows(state)))
}

// The inverse cipher of `rounds` rounds with the schedule `words`.
#[inline(always)]
pub(crate) fn decrypt_block(words: &[u8; 240], rounds: usize, block: u8x16) -> u8x16
    requires { (0 < rounds) × (rounds < 15) }
    ensures { result ≡ inverse_cipher_with words.now rounds block }
{
    let mut state = add_round_key(words, rounds, block);
    'rounds: for round in (1..rounds).rev() {
        state = inverse_round(words, round, state);
    }
    last_round(words, state)
}

// The same of four blocks, two in a vector.
#[inline(always)]
pub(crate) fn decrypt_four_blocks(
    words: &[u8; 240],
    rounds: usize,
    a: u8x16,
    b: u8x16,
    c: u8x16,
    d: u8x16,
) -> (u8x16, u8x16, u8x16, u8x16)
    requires { (0 < rounds) × (rounds < 15) }
    ensures first { result.0 ≡ inverse_cipher_with words.now rounds a }
    ensures second { result.1 ≡ inverse_cipher_with words.now rounds b }
    ensures third { result.2 ≡ inverse_cipher_with words.now rounds c }
    ensures fourth { result.3 ≡ inverse_cipher_with words.now rounds d }
{
    let (s, t) = decrypt_two_pairs(words, rounds, paired(a, b), paired(c, d));
    let ((a, b), (c, d)) = (parted(s), parted(t));
    (a, b, c, d)
}
