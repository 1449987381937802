//! The transformations of the inverse cipher (FIPS 197, 5.3).
ghost use Rattle.std.specs.Prelude.{◌≡◌, ◌<◌, map};
ghost use Rattle.crypto_model.specs.Field.{product};
ghost use Rattle.crypto_model.specs.Aes.{add_round_key, inverse_mix_columns, inverse_shift_rows, inverse_sub_bytes};
ghost use Rattle.aes_core.specs.InverseTables.{sum_of_entries};

use super::tables::{INPUT, OUTPUT, TIMES_2, TIMES_4, TIMES_9};
use crate::encryption::round_key;
use crate::nibbles::{look, parts};
use std::simd::prelude::*;

// Of each byte the first table's entry of its low four bits and the second's of its high ones, added.
#[inline(always)]
fn look_up_halves(tables: [[u8; 16]; 2], bytes: u8x16) -> u8x16
    ensures { result ≡ map (sum_of_entries tables) bytes }
{
    let high = look(u8x16::from_array(tables[1]), bytes >> u8x16::splat(4));
    look(u8x16::from_array(tables[0]), bytes & u8x16::splat(15)) ^ high
}

#[inline(always)]
pub(crate) fn add_round_key(words: &[u8; 240], round: usize, state: u8x16) -> u8x16
    requires { round < 15 }
    ensures { result ≡ add_round_key words.now round state }
{
    state ^ round_key(words, round)
}

#[inline(always)]
pub(crate) fn inverse_shift_rows(state: u8x16) -> u8x16
    ensures { result ≡ inverse_shift_rows state }
{
    state.swizzle([0, 13, 10, 7, 4, 1, 14, 11, 8, 5, 2, 15, 12, 9, 6, 3])
}

// The inverse affine step goes into the basis in which bytes are inverted, and back.
#[inline(always)]
pub(crate) fn inverse_sub_bytes(state: u8x16) -> u8x16
    ensures { result ≡ inverse_sub_bytes state }
{
    let (u, t) = parts(look_up_halves(INPUT, state));
    let output_t = look(u8x16::from_array(OUTPUT[1]), t);
    look(u8x16::from_array(OUTPUT[0]), u) ^ output_t
}

#[inline(always)]
fn times_2(bytes: u8x16) -> u8x16
    ensures { result ≡ map (product 2) bytes }
{
    look_up_halves(TIMES_2, bytes)
}

#[inline(always)]
fn times_4(bytes: u8x16) -> u8x16
    ensures { result ≡ map (product 4) bytes }
{
    look_up_halves(TIMES_4, bytes)
}

#[inline(always)]
fn times_9(bytes: u8x16) -> u8x16
    ensures { result ≡ map (product 9) bytes }
{
    look_up_halves(TIMES_9, bytes)
}

#[inline(always)]
pub(crate) fn inverse_mix_columns(state: u8x16) -> u8x16
    ensures { result ≡ inverse_mix_columns state }
{
    let two = times_2(state);
    let nine = times_9(state);
    let eleven = nine ^ two;
    let thirteen = nine ^ times_4(state);
    let fourteen = thirteen ^ two ^ state;
    fourteen
        ^ eleven.swizzle([1, 2, 3, 0, 5, 6, 7, 4, 9, 10, 11, 8, 13, 14, 15, 12])
        ^ thirteen.swizzle([2, 3, 0, 1, 6, 7, 4, 5, 10, 11, 8, 9, 14, 15, 12, 13])
        ^ nine.swizzle([3, 0, 1, 2, 7, 4, 5, 6, 11, 8, 9, 10, 15, 12, 13, 14])
}
