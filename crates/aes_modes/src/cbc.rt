//! CBC (SP 800-38A, 6.2).
ghost use Rattle.std.specs.Prelude.{◌≡◌, ◌%◌, ◌++◌, List, [], ℕ, length};
ghost use Rattle.crypto_model.specs.Aes.{cipher, inverse_cipher};
ghost use Rattle.crypto_model.specs.Modes.{cbc_encrypt, cbc_decrypt};

use crate::lanes::write_four;
use crate::xor::{xor_block, xor_four};
use aes_core::{Key, decrypt, decrypt_four, encrypt};
use std::simd::prelude::*;

/// CBC encryption (SP 800-38A, 6.2) of a text that comes in pieces of whole blocks.
#[derive(Drop)]
pub struct CbcEnc<'a> {
    key: &'a Key,
    // The last block of ciphertext, or the IV before the first.
    last: [u8; 16],
}

impl<'a> CbcEnc<'a> {
    ghost use Rattle.aes_modes.specs.Chaining.{IsChained, Chains};

    /// Behind this IV.
    pub fn new(key: &'a Key, iv: [u8; 16]) -> CbcEnc<'a>
        ensures { IsChained key.now iv result [] }
    {
        CbcEnc { key, last: iv }
    }

    /// Encrypts a piece in place.
    pub fn blocks(&mut self, piece: &mut [u8])
        requires { length piece.old % 16 ≡ 0 }
        ensures { (key iv text : List ℕ) → IsChained key iv self.old text
            → IsChained key iv self.new (text ++ piece.old)
            × (cbc_encrypt (cipher key) iv (text ++ piece.old) ≡ cbc_encrypt (cipher key) iv text ++ piece.new) }
    {
        let mut at = 0;
        while at < piece.len() {
            self.block(&mut piece[at..at + 16]);
            at += 16;
        }
    }

    fn block(&mut self, block: &mut [u8])
        requires { length block.old ≡ 16 }
        ensures { Chains self.old self.new block.old block.new }
    {
        xor_block(block, u8x16::from_array(self.last));
        self.last.copy_from_slice(block);
        encrypt(self.key, &mut self.last);
        block.copy_from_slice(&self.last);
    }
}

/// CBC decryption (SP 800-38A, 6.2) of a text that comes in pieces of whole blocks.
#[derive(Drop)]
pub struct CbcDec<'a> {
    key: &'a Key,
    // The last block of ciphertext, or the IV before the first.
    last: [u8; 16],
}

impl<'a> CbcDec<'a> {
    ghost use Rattle.aes_modes.specs.Chaining.{IsUnchained, Unchains};

    /// Behind this IV.
    pub fn new(key: &'a Key, iv: [u8; 16]) -> CbcDec<'a>
        ensures { IsUnchained key.now iv result [] }
    {
        CbcDec { key, last: iv }
    }

    /// Decrypts a piece in place.
    pub fn blocks(&mut self, piece: &mut [u8])
        requires { length piece.old % 16 ≡ 0 }
        ensures { (key iv text : List ℕ) → IsUnchained key iv self.old text
            → IsUnchained key iv self.new (text ++ piece.old)
            × (cbc_decrypt (inverse_cipher key) iv (text ++ piece.old) ≡ cbc_decrypt (inverse_cipher key) iv text ++ piece.new) }
    {
        let whole = piece.len() / 64 * 64;
        let (groups, rest) = piece.split_at_mut(whole);
        self.groups(groups);
        self.rest(rest);
    }

    // Groups of four blocks.
    fn groups(&mut self, piece: &mut [u8])
        requires { length piece.old % 64 ≡ 0 }
        ensures { Unchains self.old self.new piece.old piece.new }
    {
        let mut at = 0;
        while at < piece.len() {
            self.group(&mut piece[at..at + 64]);
            at += 64;
        }
    }

    #[inline(always)]
    fn group(&mut self, group: &mut [u8])
        requires { length group.old ≡ 64 }
        ensures { Unchains self.old self.new group.old group.new }
    {
        let last = u8x16::from_array(self.last);
        let (a, b, c, d) = read_four(group);
        let (first, second, third, fourth) = decrypt_four(self.key, a, b, c, d);
        write_four(group, first, second, third, fourth);
        xor_four(group, last, a, b, c);
        self.last = d.to_array();
    }

    // Whole blocks.
    fn rest(&mut self, piece: &mut [u8])
        requires { length piece.old % 16 ≡ 0 }
        ensures { Unchains self.old self.new piece.old piece.new }
    {
        let mut at = 0;
        while at < piece.len() {
            self.block(&mut piece[at..at + 16]);
            at += 16;
        }
    }

    fn block(&mut self, block: &mut [u8])
        requires { length block.old ≡ 16 }
        ensures { Unchains self.old self.new block.old block.new }
    {
        let last = u8x16::from_array(self.last);
        self.last.copy_from_slice(block);
        let mut plain = self.last;
        decrypt(self.key, &mut plain);
        block.copy_from_slice(&plain);
        xor_block(block, last);
    }
}

#[inline(always)]
fn read_four(blocks: &[u8]) -> (u8x16, u8x16, u8x16, u8x16)
    requires { length blocks.now ≡ 64 }
    ensures { blocks.now ≡ (result.0 ++ result.1) ++ (result.2 ++ result.3) }
{
    (
        u8x16::from_slice(&blocks[..16]),
        u8x16::from_slice(&blocks[16..32]),
        u8x16::from_slice(&blocks[32..48]),
        u8x16::from_slice(&blocks[48..]),
    )
}

#[cfg(test)]
mod tests;
