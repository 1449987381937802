//! The cipher on sixteen blocks at once, in the planes of their bits.
ghost use Rattle.std.specs.Prelude.{◌≡◌, ℕ, ◌+◌, ◌*◌, ◌<◌, List, ◌++◌, length, map, take, drop, replicate, bit_xor};
ghost use Rattle.crypto_model.specs.Aes.{add_round_key, cipher_with, mix_columns, shift_rows, sub_bytes};
ghost use Rattle.aes_core.specs.Planes.{lifted, turned};
ghost use Rattle.aes_core.specs.Bitslice.{IsSliced, bit_of, pairwise, plane_key, planes_at};

use crate::circuit::substituted;
use crate::encryption::round_key;
use crate::planes::{
    Planes, added, are_vectors, doubled, halves_swapped, shifted, shifted_up, turned,
};
use std::simd::prelude::*;

// The key of round `r` for two blocks. Those of the later rounds bring the constant of SubBytes.
#[inline(always)]
fn wide_key(words: &[u8; 240], r: usize) -> u8x32
    requires { r < 15 }
    ensures { result ≡ plane_key r (take 16 (drop (16 * r) words.now)) }
{
    let key = round_key(words, r);
    let key = key.swizzle([
        0, 1, 2, 3, 4, 5, 6, 7, 8, 9, 10, 11, 12, 13, 14, 15, 0, 1, 2, 3, 4, 5, 6, 7, 8, 9, 10, 11,
        12, 13, 14, 15,
    ]);
    if r == 0 {
        key
    } else {
        key ^ u8x32::splat(0x63)
    }
}

// Bit `k` of each byte, in all the places of a byte.
#[inline(always)]
fn bit_plane(key: u8x32, k: u8) -> u8x32
    requires { k < 8 }
    ensures { result ≡ lifted (bit_of k) (replicate 8 key) }
{
    u8x32::splat(0) - ((key >> u8x32::splat(k)) & u8x32::splat(1))
}

/// The round keys in planes, 256 bytes for a round.
pub(crate) fn plane_keys(words: &[u8; 240]) -> [u8; 3840]
    ensures { IsSliced words.now result }
{
    let mut keys = [0; 3840];
    'planes: for i in 0..120 {
        let plane = bit_plane(wide_key(words, i / 8), (i % 8) as u8);
        plane.copy_to_slice(&mut keys[32 * i..32 * i + 32]);
    }
    keys
}

#[inline(always)]
fn key_planes(keys: &[u8; 3840], r: usize) -> Planes
    requires { r < 15 }
    ensures { result ≡ planes_at r keys.now }
{
    [
        u8x32::from_slice(&keys[256 * r..]),
        u8x32::from_slice(&keys[256 * r + 32..]),
        u8x32::from_slice(&keys[256 * r + 64..]),
        u8x32::from_slice(&keys[256 * r + 96..]),
        u8x32::from_slice(&keys[256 * r + 128..]),
        u8x32::from_slice(&keys[256 * r + 160..]),
        u8x32::from_slice(&keys[256 * r + 192..]),
        u8x32::from_slice(&keys[256 * r + 224..]),
    ]
}

#[inline(always)]
fn first_key(pairs: &Planes, key: &Planes) -> Planes
    ensures { (k : List ℕ) → length k ≡ 16 → turned key.now ≡ replicate 8 (k ++ k)
        → turned result ≡ map (pairwise (add_round_key k 0)) pairs.now }
{
    are_vectors(pairs);
    added(&turned(pairs), key)
}

#[inline(always)]
fn round(state: &Planes, key: &Planes) -> Planes
    ensures { (k : List ℕ) → length k ≡ 16 → turned key.now ≡ replicate 8 (map (λ x. bit_xor x 0x63) (k ++ k))
        → turned result ≡ map (pairwise (λ s. add_round_key k 0 (mix_columns (shift_rows (sub_bytes s))))) (turned state.now) }
{
    are_vectors(state);
    let bytes = substituted(state);
    let below = shifted_up(&bytes);
    let sums = added(&shifted(&bytes), &below);
    let rest = added(&below, &halves_swapped(&sums));
    added(&doubled(&sums), &added(&rest, key))
}

#[inline(always)]
fn last_round(state: &Planes, key: &Planes) -> Planes
    ensures { (k : List ℕ) → length k ≡ 16 → turned key.now ≡ replicate 8 (map (λ x. bit_xor x 0x63) (k ++ k))
        → result ≡ map (pairwise (λ s. add_round_key k 0 (shift_rows (sub_bytes s)))) (turned state.now) }
{
    are_vectors(state);
    turned(&added(&shifted(&substituted(state)), key))
}

// The cipher on eight pairs of blocks.
#[inline(always)]
pub(crate) fn encrypt_pairs(keys: &[u8; 3840], rounds: usize, pairs: &Planes) -> Planes
    requires { (0 < rounds) × (rounds < 15) }
    ensures { (words : List ℕ) → length words ≡ 240 → IsSliced words keys.now
        → result ≡ map (pairwise (cipher_with words rounds)) pairs.now }
{
    let mut state = first_key(pairs, &key_planes(keys, 0));
    'rounds: for r in 1..rounds {
        state = round(&state, &key_planes(keys, r));
    }
    last_round(&state, &key_planes(keys, rounds))
}
