//! GHASH of a text that comes in pieces.
ghost use Rattle.std.specs.Prelude.{◌≡◌, ◌≤◌, ◌<◌, ◌+◌, ◌%◌, ◌++◌, [], List, ℕ, length, replicate};
ghost use Rattle.crypto_model.specs.Modes.{blocks};
ghost use Rattle.crypto_model.specs.Gcm.{bytes_of, padded, ghash_from};
ghost use Rattle.gcm_core.specs.Subkey.{subkey};

use crate::blocks::block;
use crate::key::GcmKey;

/// GHASH (SP 800-38D, 6.4) under way. After 21 bytes `sum` is the hash of the first 16, and `block`
/// begins with the other 5.
#[derive(Drop)]
pub(crate) struct Ghash<'a> {
    key: &'a GcmKey,
    sum: u128,
    block: [u8; 16],
    held: usize,
    ghost within: { held < 16 },
}

impl<'a> Ghash<'a> {
    ghost use Rattle.gcm_core.specs.Hashing.{IsHashed};

    pub(crate) fn new(key: &'a GcmKey) -> Ghash<'a>
        ensures { IsHashed key.now result [] }
    {
        Ghash {
            key,
            sum: 0,
            block: [0; 16],
            held: 0,
        }
    }

    /// Takes in the next piece of the text.
    pub(crate) fn feed(&mut self, piece: &[u8])
        ensures { (key text : List ℕ) → IsHashed key self.old text → IsHashed key self.new (text ++ piece.now) }
    {
        let left = piece.len().min((16 - self.held) % 16);
        let (begun, rest) = piece.split_at(left);
        self.hold(begun);
        if rest.is_empty() {
            return;
        }
        let (whole, last) = rest.as_chunks::<16>();
        self.sum = self.key.ghash(self.sum, whole);
        self.hold(last);
    }

    // Takes in at most as many bytes as the block has room for.
    fn hold(&mut self, bytes: &[u8])
        requires { self.old.held + length bytes.now ≤ 16 }
        ensures hashed { (key text : List ℕ) → IsHashed key self.old text → IsHashed key self.new (text ++ bytes.now) }
        ensures held { self.new.held ≡ (self.old.held + length bytes.now) % 16 }
    {
        let end = self.held + bytes.len();
        self.block[self.held..end].copy_from_slice(bytes);
        if end < 16 {
            self.held = end;
            return;
        }
        self.sum = self.key.ghash(self.sum, &[self.block]);
        self.held = 0;
    }

    /// Takes in zeros up to a whole block.
    pub(crate) fn fill(&mut self)
        ensures { (key text : List ℕ) → IsHashed key self.old text → IsHashed key self.new (padded text) }
    {
        let left = (16 - self.held) % 16;
        self.hold(&[0; 16][..left]);
    }

    /// The hash, where whole blocks were taken in.
    pub(crate) fn finish(&self) -> [u8; 16]
        ensures { (key text : List ℕ) → IsHashed key self.now text → length text % 16 ≡ 0
            → result ≡ bytes_of (ghash_from (subkey key) (replicate 128 0) (blocks text)) }
    {
        block(self.sum)
    }
}
