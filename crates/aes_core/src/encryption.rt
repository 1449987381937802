//! The cipher on blocks of sixteen bytes, each in one vector.
ghost use Rattle.std.specs.Prelude.{◌≡◌, ℕ, ◌+◌, ◌*◌, ◌<◌, map, take, drop};
ghost use Rattle.crypto_model.specs.Aes.{add_round_key, cipher_with, mix_columns, shift_rows, sub_bytes};
ghost use Rattle.aes_core.specs.Basis.{back, back_key};

use crate::nibbles::{into_basis, substituted, substituted_plainly};
use crate::wide::{encrypt_two_pairs, paired, parted};
use std::simd::prelude::*;

// Round key `r` of a schedule.
#[inline(always)]
pub(crate) fn round_key(words: &[u8; 240], r: usize) -> u8x16
    requires { r < 15 }
    ensures { result ≡ take 16 (drop (16 * r) words.now) }
{
    u8x16::from_slice(&words[16 * r..])
}

#[inline(always)]
fn first_key(block: u8x16, key: u8x16) -> u8x16
    ensures { map back result ≡ add_round_key key 0 block }
{
    into_basis(block ^ key)
}

// A round, in the basis. The key brings the constant of SubBytes, which `substituted` leaves out.
#[inline(always)]
fn round(y: u8x16, key: u8x16) -> u8x16
    ensures { map back result
        ≡ add_round_key (map back_key key) 0 (mix_columns (shift_rows (sub_bytes (map back y)))) }
{
    let (one, two) = substituted(y);
    let a = two.swizzle([0, 5, 10, 15, 4, 9, 14, 3, 8, 13, 2, 7, 12, 1, 6, 11]);
    let b = (two ^ one).swizzle([5, 10, 15, 0, 9, 14, 3, 4, 13, 2, 7, 8, 1, 6, 11, 12]);
    let c = one.swizzle([10, 15, 0, 5, 14, 3, 4, 9, 2, 7, 8, 13, 6, 11, 12, 1]);
    let d = one.swizzle([15, 0, 5, 10, 3, 4, 9, 14, 7, 8, 13, 2, 11, 12, 1, 6]);
    a ^ b ^ (c ^ d) ^ key
}

#[inline(always)]
fn last_round(y: u8x16, key: u8x16) -> u8x16
    ensures { result ≡ add_round_key key 0 (shift_rows (sub_bytes (map back y))) }
{
    substituted_plainly(y).swizzle([0, 5, 10, 15, 4, 9, 14, 3, 8, 13, 2, 7, 12, 1, 6, 11]) ^ key
}

// The cipher with the schedule `words`. The rounds before the last read it as `inner`.
#[inline(always)]
pub(crate) fn encrypt_block(
    words: &[u8; 240],
    inner: &[u8; 240],
    rounds: usize,
    block: u8x16,
) -> u8x16
    requires rounds { (0 < rounds) × (rounds < 15) }
    requires inner { map back_key inner.now ≡ words.now }
    ensures { result ≡ cipher_with words.now rounds block }
{
    let mut y = first_key(block, round_key(words, 0));
    'rounds: for r in 1..rounds {
        y = round(y, round_key(inner, r));
    }
    last_round(y, round_key(words, rounds))
}

// The same of four blocks, two in a vector.
#[inline(always)]
pub(crate) fn encrypt_four_blocks(
    words: &[u8; 240],
    inner: &[u8; 240],
    rounds: usize,
    a: u8x16,
    b: u8x16,
    c: u8x16,
    d: u8x16,
) -> (u8x16, u8x16, u8x16, u8x16)
    requires rounds { (0 < rounds) × (rounds < 15) }
    requires inner { map back_key inner.now ≡ words.now }
    ensures first { result.0 ≡ cipher_with words.now rounds a }
    ensures second { result.1 ≡ cipher_with words.now rounds b }
    ensures third { result.2 ≡ cipher_with words.now rounds c }
    ensures fourth { result.3 ≡ cipher_with words.now rounds d }
{
    let (s, t) = encrypt_two_pairs(words, inner, rounds, paired(a, b), paired(c, d));
    let ((a, b), (c, d)) = (parted(s), parted(t));
    (a, b, c, d)
}
