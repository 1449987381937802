//! The plain types that an operation and a session are made of.
ghost use Rattle.std.specs.Prelude.{◌≡◌};

use std::alloc::{AllocError, AllocFailed};
use thiserror::Error;

/// The number of a session in its table.
#[derive(Clone, Copy, Debug, PartialEq, Eq)]
pub struct SessId(pub u32);

/// Bytes of a packet, by the offset of the first and their number.
#[derive(Clone, Copy, Debug, PartialEq, Eq)]
pub struct Range {
    pub off: u32,
    pub len: u32,
}

/// Where the digest or tag of an operation lies: at an offset of the packet, or in the operation's own field.
#[derive(Clone, Copy, Debug, PartialEq, Eq)]
pub enum DigestPlace {
    Nowhere,
    InChain(u32),
    OwnField,
}

/// How an operation stands. `Error` is never given.
#[derive(Clone, Copy, Debug, PartialEq, Eq)]
pub enum Status {
    Success,
    NotProcessed,
    AuthFailed,
    InvalidSession,
    InvalidArgs,
    Error,
}

/// A hash function of FIPS 180-4.
#[derive(Clone, Copy, Debug, PartialEq, Eq)]
pub enum Hash {
    Sha224,
    Sha256,
    Sha384,
    Sha512,
}

impl Hash {
    ghost use Rattle.crypto_model.specs.Hmac.{block_size, digest_size};

    /// The size of its blocks in bytes (FIPS 180-4, 1).
    pub fn block_size(self) -> usize
        ensures { result ≡ block_size self }
    {
        match self {
            Hash::Sha224 | Hash::Sha256 => 64,
            Hash::Sha384 | Hash::Sha512 => 128,
        }
    }

    /// The length of its digests in bytes (FIPS 180-4, 1).
    pub fn digest_size(self) -> usize
        ensures { result ≡ digest_size self }
    {
        match self {
            Hash::Sha224 => 28,
            Hash::Sha256 => 32,
            Hash::Sha384 => 48,
            Hash::Sha512 => 64,
        }
    }
}

/// AES in a mode of SP 800-38A.
#[derive(Clone, Copy, Debug, PartialEq, Eq)]
pub enum CipherAlg {
    AesCbc,
    AesCtr,
}

/// Whether a cipher or an AEAD encrypts or decrypts.
#[derive(Clone, Copy, Debug, PartialEq, Eq)]
pub enum Dir {
    Encrypt,
    Decrypt,
}

/// Whether a digest is written or compared.
#[derive(Clone, Copy, Debug, PartialEq, Eq)]
pub enum Act {
    Generate,
    Verify,
}

/// Memory was wanting.
#[derive(Clone, Copy, Debug, PartialEq, Eq, Error)]
#[error("out of memory")]
pub struct OutOfMemory;

impl From<AllocError> for OutOfMemory {
    fn from(_error: AllocError) -> OutOfMemory {
        OutOfMemory
    }
}

impl<T: Drop> From<AllocFailed<T>> for OutOfMemory {
    fn from(_error: AllocFailed<T>) -> OutOfMemory {
        OutOfMemory
    }
}
