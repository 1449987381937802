//! The key stream.
ghost use Rattle.std.specs.Prelude.{◌≡◌, ◌<◌, ◌≤◌, ℕ, [], length, slice_index};
ghost use Rattle.crypto_model.specs.Aes.{cipher};
ghost use Rattle.crypto_model.specs.Gcm.{iv_block};

use aes_core::{Key, encrypt};
use aes_modes::Ctr;

// The bytes under as many counter blocks as there are.
const ROUND: usize = 1 << 36;

/// GCM's key stream (SP 800-38D, 7.1, step 3), laid over pieces of any length: that of CTR, begun again where the four bytes of
/// the counter go round, since CTR would carry into the IV.
#[derive(Drop)]
pub(crate) struct KeyStream<'a> {
    key: &'a Key,
    iv: [u8; 12],
    stream: Ctr<'a>,
    // How many bytes come before the counter goes round.
    left: usize,
}

fn iv_block(iv: &[u8; 12], counter: u32) -> [u8; 16]
    ensures block { result ≡ iv_block iv.now counter }
    ensures long { length iv.now ≡ 12 }
    ensures bytes { (i : ℕ) → slice_index iv.now i < 256 }
{
    let [a, b, c, d] = counter.to_be_bytes();
    [
        iv[0], iv[1], iv[2], iv[3], iv[4], iv[5], iv[6], iv[7], iv[8], iv[9], iv[10], iv[11], a, b,
        c, d,
    ]
}

impl<'a> KeyStream<'a> {
    ghost use Rattle.gcm_core.specs.Streaming.{IsFed, Feeds};

    /// The key stream, and the block before it, which the tag is hidden under.
    pub(crate) fn begin(key: &'a Key, iv: [u8; 12]) -> (KeyStream<'a>, [u8; 16])
        ensures stream { IsFed key.now iv result.0 [] }
        ensures mask { result.1 ≡ cipher key.now (iv_block iv 1) }
    {
        let mut mask = iv_block(&iv, 1);
        encrypt(key, &mut mask);
        let stream = KeyStream {
            key,
            iv,
            stream: Ctr::new(key, iv_block(&iv, 2)),
            left: ROUND - 32,
        };
        (stream, mask)
    }

    /// Encrypts or decrypts a piece in place.
    pub(crate) fn feed(&mut self, piece: &mut [u8])
        ensures { Feeds self.old self.new piece.old piece.new }
    {
        let mut at = 0;
        while at < piece.len() {
            self.go_round();
            let size = self.left.min(piece.len() - at);
            self.feed_part(&mut piece[at..at + size]);
            at += size;
        }
    }

    // Begins again, where nothing is left.
    fn go_round(&mut self)
        ensures fed { Feeds self.old self.new [] [] }
        ensures some { 0 < self.new.left }
    {
        if self.left > 0 {
            return;
        }
        self.stream = Ctr::new(self.key, iv_block(&self.iv, 0));
        self.left = ROUND;
    }

    // At most as many bytes as are left.
    fn feed_part(&mut self, part: &mut [u8])
        requires { length part.old ≤ self.old.left }
        ensures { Feeds self.old self.new part.old part.new }
    {
        self.stream.feed(part);
        self.left -= part.len();
    }
}
