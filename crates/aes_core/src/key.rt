//! Expanded keys, and the cipher under them.
ghost use Rattle.std.specs.Prelude.{◌≡◌, ◌+◌, ◌<◌, ◌↔◌, length, map, IfOk, IsErr};
ghost use Rattle.crypto_model.specs.Field.{sub_byte};
ghost use Rattle.crypto_model.specs.Aes.{IsKeyLength, cipher, inverse_cipher, rounds_of};
ghost use Rattle.aes_core.specs.Basis.{back_key};
ghost use Rattle.aes_core.specs.Bitslice.{IsSliced, pairwise};

use crate::bitslice::{encrypt_pairs, plane_keys};
use crate::decryption::{decrypt_block, decrypt_four_blocks};
use crate::encryption::{encrypt_block, encrypt_four_blocks, round_key};
use crate::nibbles::into_basis;
use crate::tables::SBOX;
use crypto_model::{BadKeyLength, Substitution, expanded, is_key_length};
use std::marker::Model;
use std::simd::prelude::*;

// SubBytes by the table.
struct ByTable;

impl Substitution for ByTable {
    #[inline(always)]
    fn sub_byte(byte: u8) -> u8 {
        SBOX[byte as usize]
    }
}

// The schedule as the inner rounds take it: in the basis, with the constant of SubBytes added.
fn inner_keys(words: &[u8; 240]) -> [u8; 240]
    ensures { map back_key result ≡ words.now }
{
    let mut inner = [0; 240];
    'keys: for r in 0..15 {
        let key = into_basis(round_key(words, r) ^ u8x16::splat(0x63));
        key.copy_to_slice(&mut inner[16 * r..16 * r + 16]);
    }
    inner
}

/// An expanded key, which contracts see as the key's bytes.
#[derive(Drop)]
pub struct Key {
    words: [u8; 240],
    inner: [u8; 240],
    planes: [u8; 3840],
    rounds: usize,
}

impl Model for Key {
    ghost use Rattle.std.specs.Prelude.{List, ℕ, ◌-◌, ◌*◌, take};
    ghost use Rattle.aes_core.specs.KeyState.{IsExpanded};
    ghost use Rattle.aes_core.specs.Bitslice.{IsSliced};

    ghost Value = { List ℕ };

    ghost view = { λ k. take (4 * (k.rounds - 6)) k.words };

    ghost invariant = { λ k. IsExpanded k.words k.inner k.rounds × IsSliced k.words k.planes };
}

impl Key {
    /// Expands a key of 16, 24 or 32 bytes (FIPS 197, 5.2).
    pub fn expand(bytes: &[u8]) -> Result<Key, BadKeyLength>
        ensures expanded { IfOk result (λ k. k ≡ bytes.now) }
        ensures refused { IsErr result ↔ ¬ (IsKeyLength (length bytes.now)) }
    {
        if !is_key_length(bytes.len()) {
            return Err(BadKeyLength);
        }
        let words = expanded::<ByTable>(bytes);
        let inner = inner_keys(&words);
        let planes = plane_keys(&words);
        Ok(Key {
            words,
            inner,
            planes,
            rounds: bytes.len() / 4 + 6,
        })
    }

    /// 10, 12 or 14 (FIPS 197, 5).
    pub fn rounds(&self) -> usize
        ensures { result ≡ rounds_of self.now }
    {
        self.rounds
    }

    /// The key as it was given: 16, 24 or 32 bytes.
    pub fn bytes(&self) -> &[u8]
        ensures value { result.now ≡ self.now }
        ensures length { IsKeyLength (length result.now) }
    {
        &self.words[..4 * (self.rounds - 6)]
    }
}

/// The cipher on one block (FIPS 197, 5.1).
pub fn encrypt(key: &Key, block: &mut [u8; 16])
    ensures { block.new ≡ cipher key.now block.old }
{
    *block = encrypt_block(
        &key.words,
        &key.inner,
        key.rounds,
        u8x16::from_array(*block),
    )
    .to_array();
}

/// Four blocks under one key at once, which keeps the processor busy.
#[inline(always)]
pub fn encrypt_four(
    key: &Key,
    a: u8x16,
    b: u8x16,
    c: u8x16,
    d: u8x16,
) -> (u8x16, u8x16, u8x16, u8x16)
    ensures first { result.0 ≡ cipher key.now a }
    ensures second { result.1 ≡ cipher key.now b }
    ensures third { result.2 ≡ cipher key.now c }
    ensures fourth { result.3 ≡ cipher key.now d }
{
    encrypt_four_blocks(&key.words, &key.inner, key.rounds, a, b, c, d)
}

/// Sixteen blocks under one key at once, two in a vector: fastest by far where the processor has AVX2.
#[inline(always)]
pub fn encrypt_sixteen(key: &Key, pairs: &[u8x32; 8]) -> [u8x32; 8]
    ensures { result ≡ map (pairwise (cipher key.now)) pairs.now }
{
    encrypt_pairs(&key.planes, key.rounds, pairs)
}

/// The inverse cipher on one block (FIPS 197, 5.3).
pub fn decrypt(key: &Key, block: &mut [u8; 16])
    ensures { block.new ≡ inverse_cipher key.now block.old }
{
    *block = decrypt_block(&key.words, key.rounds, u8x16::from_array(*block)).to_array();
}

/// The inverse cipher on four blocks under one key at once.
#[inline(always)]
pub fn decrypt_four(
    key: &Key,
    a: u8x16,
    b: u8x16,
    c: u8x16,
    d: u8x16,
) -> (u8x16, u8x16, u8x16, u8x16)
    ensures first { result.0 ≡ inverse_cipher key.now a }
    ensures second { result.1 ≡ inverse_cipher key.now b }
    ensures third { result.2 ≡ inverse_cipher key.now c }
    ensures fourth { result.3 ≡ inverse_cipher key.now d }
{
    decrypt_four_blocks(&key.words, key.rounds, a, b, c, d)
}
