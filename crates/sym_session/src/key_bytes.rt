//! The bytes of a key.
ghost use Rattle.std.specs.Prelude.{◌≡◌, ◌≤◌, length, IfOk};

use crypto_model::OutOfMemory;
use std::alloc::Global;
use std::marker::Model;

/// A key of at most 1,024 bytes, which contracts see as the list of its bytes.
#[derive(Drop)]
pub struct KeyBytes {
    bytes: Vec<u8>,
}

impl Model for KeyBytes {
    ghost use Rattle.std.specs.Prelude.{List, ℕ, ◌≤◌, vec_len};

    ghost Value = { List ℕ };

    ghost view = { λ k. k.bytes.items };

    ghost invariant = { λ k. vec_len k.bytes ≤ 1024 };
}

impl KeyBytes {
    /// Copies 0 to 1,024 bytes.
    pub fn copy(alloc: Global, bytes: &[u8]) -> Result<KeyBytes, OutOfMemory>
        requires { length bytes.now ≤ 1024 }
        ensures { IfOk result (λ k. k ≡ bytes.now) }
    {
        let mut copied = Vec::with_capacity(alloc, bytes.len())?;
        copied.extend_from_slice(bytes)?;
        Ok(KeyBytes { bytes: copied })
    }

    /// The bytes, in order.
    pub fn bytes(&self) -> &[u8]
        ensures value { result.now ≡ self.now }
        ensures most { length result.now ≤ 1024 }
    {
        self.bytes.as_slice()
    }
}
