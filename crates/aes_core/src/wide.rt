//! The cipher on two blocks in one vector of 32 bytes, in each half one.
ghost use Rattle.std.specs.Prelude.{◌≡◌, ℕ, ◌<◌, List, ◌++◌, length, map, take, drop};
ghost use Rattle.crypto_model.specs.Aes.{add_round_key, cipher_with, mix_columns, shift_rows, sub_bytes};
ghost use Rattle.aes_core.specs.Basis.{back, back_key};
ghost use Rattle.aes_core.specs.Bitslice.{pairwise};

use crate::encryption::round_key;
use crate::wide_nibbles::{into_basis, substituted, substituted_plainly, twice};
use std::simd::prelude::*;

#[inline(always)]
pub(crate) fn paired(first: u8x16, second: u8x16) -> u8x32
    ensures { result ≡ first ++ second }
{
    first.shuffle(
        second,
        [
            0, 1, 2, 3, 4, 5, 6, 7, 8, 9, 10, 11, 12, 13, 14, 15, 16, 17, 18, 19, 20, 21, 22, 23,
            24, 25, 26, 27, 28, 29, 30, 31,
        ],
    )
}

#[inline(always)]
pub(crate) fn parted(pair: u8x32) -> (u8x16, u8x16)
    ensures first { result.0 ≡ take 16 pair }
    ensures second { result.1 ≡ drop 16 pair }
{
    (pair.extract::<0, 16>(), pair.extract::<16, 16>())
}

#[inline(always)]
fn first_key(pair: u8x32, key: u8x32) -> u8x32
    ensures { (k : List ℕ) → length k ≡ 16 → key ≡ k ++ k → map back result ≡ pairwise (add_round_key k 0) pair }
{
    into_basis(pair ^ key)
}

// A round, in the basis. The key brings the constant of SubBytes, which `substituted` leaves out.
#[inline(always)]
fn round(y: u8x32, key: u8x32) -> u8x32
    ensures { (k : List ℕ) → length k ≡ 16 → key ≡ k ++ k
        → map back result ≡ pairwise (λ s. add_round_key (map back_key k) 0 (mix_columns (shift_rows (sub_bytes s)))) (map back y) }
{
    let (one, two) = substituted(y);
    let a = two.swizzle([
        0, 5, 10, 15, 4, 9, 14, 3, 8, 13, 2, 7, 12, 1, 6, 11, 16, 21, 26, 31, 20, 25, 30, 19, 24,
        29, 18, 23, 28, 17, 22, 27,
    ]);
    let b = (two ^ one).swizzle([
        5, 10, 15, 0, 9, 14, 3, 4, 13, 2, 7, 8, 1, 6, 11, 12, 21, 26, 31, 16, 25, 30, 19, 20, 29,
        18, 23, 24, 17, 22, 27, 28,
    ]);
    let c = one.swizzle([
        10, 15, 0, 5, 14, 3, 4, 9, 2, 7, 8, 13, 6, 11, 12, 1, 26, 31, 16, 21, 30, 19, 20, 25, 18,
        23, 24, 29, 22, 27, 28, 17,
    ]);
    let d = one.swizzle([
        15, 0, 5, 10, 3, 4, 9, 14, 7, 8, 13, 2, 11, 12, 1, 6, 31, 16, 21, 26, 19, 20, 25, 30, 23,
        24, 29, 18, 27, 28, 17, 22,
    ]);
    a ^ b ^ (c ^ d) ^ key
}

#[inline(always)]
fn last_round(y: u8x32, key: u8x32) -> u8x32
    ensures { (k : List ℕ) → length k ≡ 16 → key ≡ k ++ k
        → result ≡ pairwise (λ s. add_round_key k 0 (shift_rows (sub_bytes s))) (map back y) }
{
    substituted_plainly(y).swizzle([
        0, 5, 10, 15, 4, 9, 14, 3, 8, 13, 2, 7, 12, 1, 6, 11, 16, 21, 26, 31, 20, 25, 30, 19, 24,
        29, 18, 23, 28, 17, 22, 27,
    ]) ^ key
}

// The cipher with the schedule `words` on two pairs side by side, which keeps the processor busy. The rounds before the
// last read it as `inner`.
#[inline(always)]
pub(crate) fn encrypt_two_pairs(
    words: &[u8; 240],
    inner: &[u8; 240],
    rounds: usize,
    a: u8x32,
    b: u8x32,
) -> (u8x32, u8x32)
    requires rounds { (0 < rounds) × (rounds < 15) }
    requires inner { map back_key inner.now ≡ words.now }
    ensures first { result.0 ≡ pairwise (cipher_with words.now rounds) a }
    ensures second { result.1 ≡ pairwise (cipher_with words.now rounds) b }
{
    let key = twice(round_key(words, 0));
    let (mut s, mut t) = (first_key(a, key), first_key(b, key));
    'rounds: for r in 1..rounds {
        let key = twice(round_key(inner, r));
        s = round(s, key);
        t = round(t, key);
    }
    let key = twice(round_key(words, rounds));
    (last_round(s, key), last_round(t, key))
}
