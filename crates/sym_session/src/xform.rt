//! Transforms as they are asked for.
ghost use Rattle.std.specs.Prelude.{◌≡◌};
ghost use Rattle.crypto_model.specs.Session.{key_fits, digest_fits, aad_len_fits};
ghost use Rattle.sym_session.specs.Xform.{transform_of};

use crate::key_bytes::KeyBytes;
use crypto_model::{Act, CipherAlg, Dir, Hash, is_key_length};

const MAX_AAD: usize = 255;

/// A transform that a session is asked for. Lengths are in bytes.
#[derive(Drop)]
pub enum Xform {
    /// AES in a mode of SP 800-38A.
    Cipher {
        alg: CipherAlg,
        dir: Dir,
        key: KeyBytes,
    },
    /// HMAC (FIPS 198-1), cut to its first `digest_len` bytes.
    Auth {
        hash: Hash,
        act: Act,
        key: KeyBytes,
        digest_len: usize,
    },
    /// AES-GCM (SP 800-38D).
    Aead {
        dir: Dir,
        key: KeyBytes,
        tag_len: usize,
        aad_len: usize,
    },
}

impl Xform {
    pub(crate) fn key_fits(&self) -> bool
        ensures { result ≡ key_fits (transform_of self.now) }
    {
        match self {
            Xform::Cipher { key, .. } | Xform::Aead { key, .. } => {
                is_key_length(key.bytes().len())
            }
            Xform::Auth { key, .. } => !key.bytes().is_empty(),
        }
    }

    pub(crate) fn digest_fits(&self) -> bool
        ensures { result ≡ digest_fits (transform_of self.now) }
    {
        match self {
            Xform::Cipher { .. } => true,
            Xform::Auth {
                hash,
                digest_len,
                ..
            } => (4..=hash.digest_size()).contains(digest_len),
            Xform::Aead { tag_len, .. } => matches!(tag_len, 4 | 8 | 12..=16),
        }
    }

    pub(crate) fn aad_len_fits(&self) -> bool
        ensures { result ≡ aad_len_fits (transform_of self.now) }
    {
        match self {
            Xform::Cipher { .. } | Xform::Auth { .. } => true,
            Xform::Aead { aad_len, .. } => *aad_len <= MAX_AAD,
        }
    }
}
