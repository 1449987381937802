//! Keys with the table of their hash.
ghost use Rattle.std.specs.Prelude.{◌≡◌};
ghost use Rattle.crypto_model.specs.Gcm.{bits_128, ghash_from};
ghost use Rattle.gcm_core.specs.Subkey.{subkey};

use crate::blocks::number;
use crate::table::{product, table};
use aes_core::{Key, encrypt};
use std::marker::Model;

/// An expanded key for GCM, which contracts see as the key's bytes. It takes about 12.5 KB.
#[derive(Drop)]
pub struct GcmKey {
    key: Key,
    // Of the hash subkey (SP 800-38D, 7.1, step 1).
    products: [[u128; 16]; 32],
}

impl Model for GcmKey {
    ghost use Rattle.std.specs.Prelude.{List, ℕ};
    ghost use Rattle.gcm_core.specs.Subkey.{subkey};
    ghost use Rattle.gcm_core.specs.Tables.{IsTable};

    ghost Value = { List ℕ };

    ghost view = { λ k. k.key };

    ghost invariant = { λ k. IsTable (subkey k.key) k.products };
}

impl GcmKey {
    /// Makes the table of the key's hash.
    pub fn new(key: Key) -> GcmKey
        ensures { result ≡ key }
    {
        let mut subkey = [0; 16];
        encrypt(&key, &mut subkey);
        GcmKey {
            key,
            products: table(number(subkey)),
        }
    }

    /// The key of the cipher.
    pub fn cipher_key(&self) -> &Key
        ensures { result.now ≡ self.now }
    {
        &self.key
    }

    /// GHASH (SP 800-38D, 6.4) of these blocks behind those with the hash `sum`.
    pub(crate) fn ghash(&self, sum: u128, blocks: &[[u8; 16]]) -> u128
        ensures { bits_128 result ≡ ghash_from (subkey self.now) (bits_128 sum) blocks.now }
    {
        let mut sum = sum;
        for block in blocks {
            sum = product(sum ^ number(*block), &self.products);
        }
        sum
    }
}
