//! A hash under way, with one of the four functions.
ghost use Rattle.std.specs.Prelude.{◌≡◌, ◌≤◌, ◌-◌, ◌++◌, [], List, ℕ, take, drop, replicate};
ghost use Rattle.crypto_model.specs.Hmac.{digest_size, hash_of};

use crate::tag::MacTag;
use crypto_model::Hash;
use sha2::{Digest, Sha224, Sha256, Sha384, Sha512};

fn copied<T: Clone>(value: &T) -> T
    requires { T.is_infallible value.now }
    ensures { T.is_clone value.now result }
{
    match value.clone() {
        Ok(copy) => copy,
        Err(_) => unreachable!(),
    }
}

#[derive(Drop)]
pub(crate) enum State {
    Sha224(Sha224),
    Sha256(Sha256),
    Sha384(Sha384),
    Sha512(Sha512),
}

impl State {
    ghost use Rattle.hmac_core.specs.States.{StateHolds};

    pub(crate) fn new(hash: Hash) -> State
        ensures { StateHolds hash result [] }
    {
        match hash {
            Hash::Sha224 => State::Sha224(Sha224::new()),
            Hash::Sha256 => State::Sha256(Sha256::new()),
            Hash::Sha384 => State::Sha384(Sha384::new()),
            Hash::Sha512 => State::Sha512(Sha512::new()),
        }
    }

    pub(crate) fn copied(&self) -> State
        ensures { result ≡ self.now }
    {
        match self {
            State::Sha224(hasher) => State::Sha224(copied(hasher)),
            State::Sha256(hasher) => State::Sha256(copied(hasher)),
            State::Sha384(hasher) => State::Sha384(copied(hasher)),
            State::Sha512(hasher) => State::Sha512(copied(hasher)),
        }
    }

    pub(crate) fn update(&mut self, piece: &[u8])
        ensures { (hash : Hash) (m : List ℕ) → StateHolds hash self.old m → StateHolds hash self.new (m ++ piece.now) }
    {
        match self {
            State::Sha224(hasher) => hasher.update(piece),
            State::Sha256(hasher) => hasher.update(piece),
            State::Sha384(hasher) => hasher.update(piece),
            State::Sha512(hasher) => hasher.update(piece),
        }
    }

    pub(crate) fn finish(self) -> MacTag
        ensures value { (hash : Hash) (m : List ℕ) → StateHolds hash self m → take result.len result.bytes ≡ hash_of hash m }
        ensures size { (hash : Hash) (m : List ℕ) → StateHolds hash self m → result.len ≡ digest_size hash }
        ensures short { result.len ≤ 64 }
        ensures zeros { drop result.len result.bytes ≡ replicate (64 - result.len) 0 }
    {
        match self {
            State::Sha224(hasher) => MacTag::new(&hasher.finalize()),
            State::Sha256(hasher) => MacTag::new(&hasher.finalize()),
            State::Sha384(hasher) => MacTag::new(&hasher.finalize()),
            State::Sha512(hasher) => MacTag::new(&hasher.finalize()),
        }
    }
}
