//! The inverse cipher (FIPS 197, 5.3) on two blocks in one vector, in each half one.
ghost use Rattle.std.specs.Prelude.{◌≡◌, ◌<◌, map};
ghost use Rattle.crypto_model.specs.Aes.{add_round_key, inverse_cipher_with, inverse_mix_columns, inverse_shift_rows, inverse_sub_bytes};
ghost use Rattle.aes_core.specs.Bitslice.{pairwise};
ghost use Rattle.aes_core.specs.InverseTables.{sum_of_entries};

use super::tables::{INPUT, OUTPUT, TIMES_2, TIMES_4, TIMES_9};
use crate::encryption::round_key;
use crate::wide_nibbles::{look, parts, twice};
use std::simd::prelude::*;

// Of each byte the first table's entry of its low four bits and the second's of its high ones, added.
#[inline(always)]
fn look_up_halves(tables: [[u8; 16]; 2], bytes: u8x32) -> u8x32
    ensures { result ≡ map (sum_of_entries tables) bytes }
{
    let high = look(u8x16::from_array(tables[1]), bytes >> u8x32::splat(4));
    look(u8x16::from_array(tables[0]), bytes & u8x32::splat(15)) ^ high
}

#[inline(always)]
fn add_round_key(words: &[u8; 240], round: usize, pair: u8x32) -> u8x32
    requires { round < 15 }
    ensures { result ≡ pairwise (add_round_key words.now round) pair }
{
    pair ^ twice(round_key(words, round))
}

#[inline(always)]
fn inverse_shift_rows(pair: u8x32) -> u8x32
    ensures { result ≡ pairwise inverse_shift_rows pair }
{
    pair.swizzle([
        0, 13, 10, 7, 4, 1, 14, 11, 8, 5, 2, 15, 12, 9, 6, 3, 16, 29, 26, 23, 20, 17, 30, 27, 24,
        21, 18, 31, 28, 25, 22, 19,
    ])
}

// The inverse affine step goes into the basis in which bytes are inverted, and back.
#[inline(always)]
fn inverse_sub_bytes(pair: u8x32) -> u8x32
    ensures { result ≡ pairwise inverse_sub_bytes pair }
{
    let (u, t) = parts(look_up_halves(INPUT, pair));
    let output_t = look(u8x16::from_array(OUTPUT[1]), t);
    look(u8x16::from_array(OUTPUT[0]), u) ^ output_t
}

#[inline(always)]
fn inverse_mix_columns(pair: u8x32) -> u8x32
    ensures { result ≡ pairwise inverse_mix_columns pair }
{
    let two = look_up_halves(TIMES_2, pair);
    let nine = look_up_halves(TIMES_9, pair);
    let eleven = nine ^ two;
    let thirteen = nine ^ look_up_halves(TIMES_4, pair);
    let fourteen = thirteen ^ two ^ pair;
    fourteen
        ^ eleven.swizzle([
            1, 2, 3, 0, 5, 6, 7, 4, 9, 10, 11, 8, 13, 14, 15, 12, 17, 18, 19, 16, 21, 22, 23, 20,
            25, 26, 27, 24, 29, 30, 31, 28,
        ])
        ^ thirteen.swizzle([
            2, 3, 0, 1, 6, 7, 4, 5, 10, 11, 8, 9, 14, 15, 12, 13, 18, 19, 16, 17, 22, 23, 20, 21,
            26, 27, 24, 25, 30, 31, 28, 29,
        ])
        ^ nine.swizzle([
            3, 0, 1, 2, 7, 4, 5, 6, 11, 8, 9, 10, 15, 12, 13, 14, 19, 16, 17, 18, 23, 20, 21, 22,
            27, 24, 25, 26, 31, 28, 29, 30,
        ])
}

#[inline(always)]
fn inverse_round(words: &[u8; 240], round: usize, pair: u8x32) -> u8x32
    requires { round < 15 }
    ensures { result ≡ pairwise (λ s. inverse_mix_columns (add_round_key words.now round (inverse_sub_bytes (inverse_shift_rows s)))) pair }
{
    let pair = inverse_sub_bytes(inverse_shift_rows(pair));
    inverse_mix_columns(add_round_key(words, round, pair))
}

#[inline(always)]
fn last_round(words: &[u8; 240], pair: u8x32) -> u8x32
    ensures { result ≡ pairwise (λ s. add_round_key words.now 0 (inverse_sub_bytes (inverse_shift_rows s))) pair }
{
    add_round_key(words, 0, inverse_sub_bytes(inverse_shift_rows(pair)))
}

// The inverse cipher of `rounds` rounds on two pairs side by side, which keeps the processor busy.
#[inline(always)]
pub(crate) fn decrypt_two_pairs(
    words: &[u8; 240],
    rounds: usize,
    a: u8x32,
    b: u8x32,
) -> (u8x32, u8x32)
    requires { (0 < rounds) × (rounds < 15) }
    ensures first { result.0 ≡ pairwise (inverse_cipher_with words.now rounds) a }
    ensures second { result.1 ≡ pairwise (inverse_cipher_with words.now rounds) b }
{
    let mut s = add_round_key(words, rounds, a);
    let mut t = add_round_key(words, rounds, b);
    'rounds: for round in (1..rounds).rev() {
        s = inverse_round(words, round, s);
        t = inverse_round(words, round, t);
    }
    (last_round(words, s), last_round(words, t))
}
