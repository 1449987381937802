//! What an operation asks for.
ghost use Rattle.std.specs.Prelude.{◌≡◌, ◌≤◌, [], length, IfOk};

use crypto_model::{DigestPlace, OutOfMemory, Range, SessId};
use std::alloc::Global;
use std::marker::Model;

/// An initialization vector of 0 to 16 bytes.
#[derive(Drop)]
pub struct Iv {
    bytes: [u8; 16],
    len: usize,
}

impl Model for Iv {
    ghost use Rattle.std.specs.Prelude.{List, ℕ, ◌≤◌, take};

    ghost Value = { List ℕ };

    ghost view = { λ a. take a.len a.bytes };

    ghost invariant = { λ a. a.len ≤ 16 };
}

impl Iv {
    /// Copies 0 to 16 bytes.
    pub fn copy(bytes: &[u8]) -> Iv
        requires { length bytes.now ≤ 16 }
        ensures { result ≡ bytes.now }
    {
        let mut kept = [0; 16];
        kept[..bytes.len()].copy_from_slice(bytes);
        Iv {
            bytes: kept,
            len: bytes.len(),
        }
    }

    pub fn bytes(&self) -> &[u8]
        ensures bytes { result.now ≡ self.now }
        ensures short { length result.now ≤ 16 }
    {
        &self.bytes[..self.len]
    }
}

/// Additional authenticated data of 0 to 255 bytes, which an AEAD covers and doesn't encrypt.
#[derive(Drop)]
pub struct Aad {
    bytes: Vec<u8>,
}

impl Model for Aad {
    ghost use Rattle.std.specs.Prelude.{List, ℕ, ◌≤◌, vec_len};

    ghost Value = { List ℕ };

    ghost view = { λ a. a.bytes.items };

    ghost invariant = { λ a. vec_len a.bytes ≤ 255 };
}

impl Aad {
    pub fn copy(alloc: Global, bytes: &[u8]) -> Result<Aad, OutOfMemory>
        requires { length bytes.now ≤ 255 }
        ensures { IfOk result (λ a. a ≡ bytes.now) }
    {
        Ok(Aad {
            bytes: Vec::from_slice(alloc, bytes)?,
        })
    }

    /// No bytes, which takes no memory.
    pub fn empty(alloc: Global) -> Aad
        ensures { result ≡ [] }
    {
        Aad {
            bytes: Vec::new(alloc),
        }
    }

    pub fn bytes(&self) -> &[u8]
        ensures bytes { result.now ≡ self.now }
        ensures short { length result.now ≤ 255 }
    {
        &self.bytes
    }
}

/// What the program sends along with an operation: the number of its packet, and of the rule that chose it.
#[derive(Clone, Copy, Debug, PartialEq, Eq)]
pub struct Card {
    pub packet: u32,
    pub flow: u32,
}

/// What is to be done with a packet.
#[derive(Drop)]
pub struct OpSpec {
    pub session: SessId,
    pub iv: Iv,
    pub aad: Aad,
    /// The bytes that are encrypted or decrypted, also by an AEAD.
    pub cipher: Range,
    /// The bytes that are authenticated beside an AEAD.
    pub auth: Range,
    pub place: DigestPlace,
    /// The own digest field, where `place` says that the digest lies in it.
    pub digest: [u8; 64],
    /// The caller's, and a scheduler's while the operation is inside.
    pub pos: u64,
}
