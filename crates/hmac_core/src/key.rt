//! Keys, made ready as the hashes that begin each code.
ghost use Rattle.std.specs.Prelude.{◌≡◌, ◌≤◌, ◌<◌, ◌⊎◌, ◌↔◌, ℕ, List, length, take, map, bit_xor, replicate, IfOk, IsErr};
ghost use Rattle.crypto_model.specs.Hmac.{block_size, digest_size, hash_of};
ghost use Rattle.crypto_model.specs.Modes.{xor_with};
ghost use Rattle.hmac_core.specs.States.{StateHolds, key_block};

use crate::state::State;
use crate::tag::{MacTag, put};
use crypto_model::{BadKeyLength, Hash};

const MAX_BLOCK: usize = 128;

const MAX_KEY: usize = 1024;

const INNER_PAD: u8 = 0x36;

const OUTER_PAD: u8 = 0x5c;

/// A key for HMAC with one hash function, as the two hashes that begin each code: each has taken in the key's block, one
/// under the inner pad and one under the outer.
#[derive(Drop)]
pub struct HmacKey {
    inner: State,
    outer: State,
}

fn digest(hash: Hash, message: &[u8]) -> MacTag
    ensures value { take result.len result.bytes ≡ hash_of hash message.now }
    ensures size { result.len ≡ digest_size hash }
{
    let mut state = State::new(hash);
    state.update(message);
    state.finish()
}

// The key up to a block, hashed first where it is longer.
fn filled(hash: Hash, key: &[u8]) -> [u8; MAX_BLOCK]
    ensures { take (block_size hash) result ≡ key_block hash key.now }
{
    let mut block = [0; MAX_BLOCK];
    if key.len() <= hash.block_size() {
        put(&mut block, key);
    } else {
        let digest = digest(hash, key);
        put(&mut block, &digest.bytes[..digest.len]);
    }
    block
}

// Puts each byte under `pad`.
fn put_under(block: &mut [u8], pad: u8)
    ensures { block.new ≡ map (λ byte. bit_xor byte pad) block.old }
{
    for byte in block.iter_mut() {
        *byte ^= pad;
    }
}

// A hash that has taken in a block under `pad`.
fn hashed_under(hash: Hash, mut block: [u8; MAX_BLOCK], pad: u8) -> State
    ensures { StateHolds hash result (xor_with (take (block_size hash) block) (replicate (block_size hash) pad)) }
{
    put_under(&mut block, pad);
    let mut state = State::new(hash);
    state.update(&block[..hash.block_size()]);
    state
}

impl HmacKey {
    ghost use Rattle.hmac_core.specs.States.{IsKeyOf, StateHolds, padded_key};

    /// A key of 1 to 1,024 bytes.
    pub fn new(hash: Hash, key: &[u8]) -> Result<HmacKey, BadKeyLength>
        ensures made { IfOk result (λ k. IsKeyOf hash key.now k) }
        ensures refused { IsErr result ↔ ((length key.now ≡ 0) ⊎ (1024 < length key.now)) }
    {
        if key.is_empty() || key.len() > MAX_KEY {
            return Err(BadKeyLength);
        }
        let block = filled(hash, key);
        Ok(HmacKey {
            inner: hashed_under(hash, block, INNER_PAD),
            outer: hashed_under(hash, block, OUTER_PAD),
        })
    }

    // The two hashes, to go on from: the inner and the outer.
    pub(crate) fn begun(&self) -> (State, State)
        ensures inner { (hash : Hash) (key : List ℕ) → IsKeyOf hash key self.now → StateHolds hash result.0 (padded_key hash key 0x36) }
        ensures outer { (hash : Hash) (key : List ℕ) → IsKeyOf hash key self.now → StateHolds hash result.1 (padded_key hash key 0x5c) }
    {
        (self.inner.copied(), self.outer.copied())
    }
}
