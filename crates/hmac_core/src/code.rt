//! The code of a text.
ghost use Rattle.std.specs.Prelude.{◌≡◌, ◌≤◌, ◌-◌, ◌++◌, [], List, ℕ, length, take, drop, replicate, bytes_eq};
ghost use Rattle.crypto_model.specs.Hmac.{digest_size, hmac_of};

use crate::key::HmacKey;
use crate::state::State;
use crate::tag::MacTag;
use crypto_model::{Hash, is_same};

/// HMAC of a text that comes in pieces.
#[derive(Drop)]
pub struct Hmac {
    inner: State,
    outer: State,
}

impl Hmac {
    ghost use Rattle.hmac_core.specs.States.{HmacHolds, IsKeyOf, full_size};

    /// HMAC of no text yet.
    pub fn start(key: &HmacKey) -> Hmac
        ensures { (hash : Hash) (bytes : List ℕ) → IsKeyOf hash bytes key.now → HmacHolds hash bytes result [] }
    {
        let (inner, outer) = key.begun();
        Hmac { inner, outer }
    }

    /// Takes in the next piece of the text.
    pub fn feed(&mut self, piece: &[u8])
        ensures { (hash : Hash) (bytes text : List ℕ) → HmacHolds hash bytes self.old text → HmacHolds hash bytes self.new (text ++ piece.now) }
    {
        self.inner.update(piece);
    }

    /// The code of the whole text, of 28, 32, 48 or 64 bytes.
    pub fn finish(self) -> MacTag
        ensures value { (hash : Hash) (bytes text : List ℕ) → HmacHolds hash bytes self text → take result.len result.bytes ≡ hmac_of hash bytes text }
        ensures size { (hash : Hash) (bytes text : List ℕ) → HmacHolds hash bytes self text → result.len ≡ digest_size hash }
        ensures zeros { drop result.len result.bytes ≡ replicate (64 - result.len) 0 }
        ensures short { result.len ≤ 64 }
    {
        let Hmac { inner, mut outer } = self;
        let digest = inner.finish();
        outer.update(&digest.bytes[..digest.len]);
        outer.finish()
    }

    /// Whether the tag, of 4 bytes or more, is the leftmost bytes of the code.
    pub fn verify(self, tag: &[u8]) -> bool
        requires some { 4 ≤ length tag.now }
        requires most { length tag.now ≤ full_size self }
        ensures { (hash : Hash) (bytes text : List ℕ) → HmacHolds hash bytes self text
            → result ≡ bytes_eq tag.now (take (length tag.now) (hmac_of hash bytes text)) }
    {
        let code = self.finish();
        is_same(tag, &code.bytes[..tag.len()])
    }
}
