//! Sealing.
ghost use Rattle.std.specs.Prelude.{◌≡◌, ◌++◌, [], List, ℕ};
ghost use Rattle.crypto_model.specs.Aes.{cipher};
ghost use Rattle.crypto_model.specs.Gcm.{gcm_tag, gcm_text};

use crate::key::GcmKey;
use crate::stream::KeyStream;
use crate::tag::TagState;

/// Authenticated encryption (SP 800-38D, 7.1) of a text that comes in pieces. The standard gives a text
/// at most 2 ^ 36 - 32 bytes (5.2.1.1); behind them counter blocks come again.
#[derive(Drop)]
pub struct GcmSeal<'a> {
    stream: KeyStream<'a>,
    tag: TagState<'a>,
}

impl<'a> GcmSeal<'a> {
    ghost use Rattle.gcm_core.specs.Sealing.{IsSealed};

    /// Begins with the data that is only authenticated. An IV must not come twice with one key.
    pub fn new(key: &'a GcmKey, iv: [u8; 12], aad: &[u8]) -> GcmSeal<'a>
        ensures { IsSealed key.now iv aad.now result [] }
    {
        let (stream, mask) = KeyStream::begin(key.cipher_key(), iv);
        GcmSeal {
            stream,
            tag: TagState::new(key, mask, aad),
        }
    }

    /// Encrypts the next piece in place.
    pub fn feed(&mut self, piece: &mut [u8])
        ensures { (key iv aad text : List ℕ) → IsSealed key iv aad self.old text
            → IsSealed key iv aad self.new (text ++ piece.old)
            × (gcm_text (cipher key) iv (text ++ piece.old) ≡ gcm_text (cipher key) iv text ++ piece.new) }
    {
        self.stream.feed(piece);
        self.tag.absorb(piece);
    }

    /// The tag of the whole.
    pub fn tag(self) -> [u8; 16]
        ensures { (key iv aad text : List ℕ) → IsSealed key iv aad self.entry text
            → result ≡ gcm_tag (cipher key) iv aad (gcm_text (cipher key) iv text) }
    {
        self.tag.finish()
    }
}
