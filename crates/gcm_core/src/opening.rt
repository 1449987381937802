//! Opening, in two walks over the ciphertext.
ghost use Rattle.std.specs.Prelude.{◌≡◌, ◌≤◌, ◌++◌, [], List, ℕ, length, take, IfOk, is_ok, bytes_eq};
ghost use Rattle.crypto_model.specs.Aes.{cipher};
ghost use Rattle.crypto_model.specs.Gcm.{gcm_tag, gcm_text};

use crate::key::GcmKey;
use crate::stream::KeyStream;
use crate::tag::TagState;
use crypto_model::is_same;
use thiserror::Error;

/// The tag isn't the ciphertext's.
#[derive(Clone, Copy, Debug, PartialEq, Eq, Error)]
#[error("the tag isn't the ciphertext's")]
pub struct BadTag;

/// Authenticated decryption (SP 800-38D, 7.2) of a ciphertext that comes in pieces, before its tag is
/// verified.
#[derive(Drop)]
pub struct GcmOpen<'a> {
    stream: KeyStream<'a>,
    tag: TagState<'a>,
}

impl<'a> GcmOpen<'a> {
    ghost use Rattle.gcm_core.specs.Opening.{IsAbsorbed, IsOpened};

    /// Begins with the data that is only authenticated.
    pub fn new(key: &'a GcmKey, iv: [u8; 12], aad: &[u8]) -> GcmOpen<'a>
        ensures { IsAbsorbed key.now iv aad.now result [] }
    {
        let (stream, mask) = KeyStream::begin(key.cipher_key(), iv);
        GcmOpen {
            stream,
            tag: TagState::new(key, mask, aad),
        }
    }

    /// Takes in the next piece of the ciphertext.
    pub fn absorb(&mut self, piece: &[u8])
        ensures { (key iv aad text : List ℕ) → IsAbsorbed key iv aad self.old text
            → IsAbsorbed key iv aad self.new (text ++ piece.now) }
    {
        self.tag.absorb(piece);
    }

    /// Compares a tag of 4 to 16 bytes, which is to be the leftmost bytes of the ciphertext's.
    pub fn verify(self, tag: &[u8]) -> Result<GcmPlain<'a>, BadTag>
        requires some { 4 ≤ length tag.now }
        requires most { length tag.now ≤ 16 }
        ensures opened { (key iv aad text : List ℕ) → IsAbsorbed key iv aad self.entry text
            → IfOk result (λ p. IsOpened key iv p []) }
        ensures which { (key iv aad text : List ℕ) → IsAbsorbed key iv aad self.entry text
            → is_ok result ≡ bytes_eq tag.now (take (length tag.now) (gcm_tag (cipher key) iv aad text)) }
    {
        let whole = self.tag.finish();
        if is_same(tag, &whole[..tag.len()]) {
            Ok(GcmPlain {
                stream: self.stream,
            })
        } else {
            Err(BadTag)
        }
    }
}

/// Authenticated decryption of a ciphertext whose tag is verified. It is fed from its beginning on, cut in
/// any way; nothing compares it with what was absorbed.
#[derive(Drop)]
pub struct GcmPlain<'a> {
    stream: KeyStream<'a>,
}

impl<'a> GcmPlain<'a> {
    ghost use Rattle.gcm_core.specs.Opening.{IsOpened};

    /// Decrypts the next piece in place.
    pub fn feed(&mut self, piece: &mut [u8])
        ensures { (key iv text : List ℕ) → IsOpened key iv self.old text
            → IsOpened key iv self.new (text ++ piece.old)
            × (gcm_text (cipher key) iv (text ++ piece.old) ≡ gcm_text (cipher key) iv text ++ piece.new) }
    {
        self.stream.feed(piece);
    }
}
