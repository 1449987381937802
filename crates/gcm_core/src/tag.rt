//! The tag of a ciphertext that comes in pieces.
ghost use Rattle.std.specs.Prelude.{◌≡◌, ◌++◌, [], List, ℕ};
ghost use Rattle.crypto_model.specs.Aes.{cipher};
ghost use Rattle.crypto_model.specs.Gcm.{iv_block, gcm_tag};

use crate::hash::Ghash;
use crate::key::GcmKey;
use crate::xor::xor_block;
use std::simd::prelude::*;

/// What sealing and opening share: the tag (SP 800-38D, 7.1, steps 4 to 6) under way.
#[derive(Drop)]
pub(crate) struct TagState<'a> {
    hash: Ghash<'a>,
    // What the hash is hidden under.
    mask: [u8; 16],
    // In bytes, counted modulo 2 ^ 64 as the block of the lengths has them.
    aad_len: u64,
    text_len: u64,
}

impl<'a> TagState<'a> {
    ghost use Rattle.gcm_core.specs.Tagging.{IsTagging};

    /// Begun with the block that the tag is hidden under.
    pub(crate) fn new(key: &'a GcmKey, mask: [u8; 16], aad: &[u8]) -> TagState<'a>
        ensures { (iv : List ℕ) → mask ≡ cipher key.now (iv_block iv 1) → IsTagging key.now iv aad.now result [] }
    {
        let mut hash = Ghash::new(key);
        hash.feed(aad);
        hash.fill();
        TagState {
            hash,
            mask,
            aad_len: aad.len() as u64,
            text_len: 0,
        }
    }

    /// Takes in the next piece of the ciphertext.
    pub(crate) fn absorb(&mut self, piece: &[u8])
        ensures { (key iv aad text : List ℕ) → IsTagging key iv aad self.old text
            → IsTagging key iv aad self.new (text ++ piece.now) }
    {
        self.hash.feed(piece);
        self.text_len = self.text_len.wrapping_add(piece.len() as u64);
    }

    pub(crate) fn finish(self) -> [u8; 16]
        ensures { (key iv aad text : List ℕ) → IsTagging key iv aad self.entry text
            → result ≡ gcm_tag (cipher key) iv aad text }
    {
        let TagState {
            mut hash,
            mask,
            aad_len,
            text_len,
        } = self;
        hash.fill();
        hash.feed(&aad_len.wrapping_mul(8).to_be_bytes());
        hash.feed(&text_len.wrapping_mul(8).to_be_bytes());
        let mut tag = hash.finish();
        xor_block(&mut tag, u8x16::from_array(mask));
        tag
    }
}
