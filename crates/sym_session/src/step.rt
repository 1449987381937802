//! Transforms with their keys made ready.
ghost use Rattle.std.specs.Prelude.{◌≡◌, ◌≤◌, [], ◌∷◌, None, IfOk, IsTrue, length, map};
ghost use Rattle.crypto_model.specs.Hmac.{digest_size};
ghost use Rattle.crypto_model.specs.Aes.{is_key_length};
ghost use Rattle.hmac_core.specs.States.{IsKeyOf};

use crate::key_bytes::KeyBytes;
use crate::xform::Xform;
use aes_core::Key;
use crypto_model::{Act, CipherAlg, Dir, Hash, OutOfMemory};
use gcm_core::GcmKey;
use hmac_core::HmacKey;
use std::alloc::Global;
use std::marker::Model;

/// One transform of a session, ready to work.
#[derive(Drop)]
pub enum Step {
    Cipher(CipherStep),
    Auth(AuthStep),
    Aead(AeadStep),
}

fn expanded(key: &KeyBytes) -> Key
    requires { IsTrue (is_key_length (length key.now)) }
    ensures { result ≡ key.now }
{
    match Key::expand(key.bytes()) {
        Ok(key) => key,
        Err(_) => unreachable!(),
    }
}

fn code_key(hash: Hash, key: &KeyBytes) -> HmacKey
    requires { (1 ≤ length key.now) × (length key.now ≤ 1024) }
    ensures { IsKeyOf hash key.now result }
{
    match HmacKey::new(hash, key.bytes()) {
        Ok(key) => key,
        Err(_) => unreachable!(),
    }
}

impl Step {
    ghost use Rattle.sym_session.specs.Xform.{transform_of};
    ghost use Rattle.sym_session.specs.Fault.{fault_of};
    ghost use Rattle.sym_session.specs.Plain.{plain};

    // Makes ready the key of a transform that could be a session alone.
    pub(crate) fn ready(alloc: Global, xform: &Xform) -> Result<Step, OutOfMemory>
        requires { fault_of (transform_of xform.now ∷ []) ≡ None }
        ensures { IfOk result (λ step. plain step ≡ transform_of xform.now) }
    {
        match xform {
            Xform::Cipher { alg, dir, key } => Ok(Step::Cipher(CipherStep {
                alg: *alg,
                dir: *dir,
                key: Box::new(alloc, expanded(key))?,
            })),
            Xform::Auth {
                hash,
                act,
                key,
                digest_len,
            } => Ok(Step::Auth(AuthStep {
                hash: *hash,
                act: *act,
                bytes: KeyBytes::copy(alloc, key.bytes())?,
                ready: Box::new(alloc, code_key(*hash, key))?,
                len: *digest_len,
            })),
            Xform::Aead {
                dir,
                key,
                tag_len,
                aad_len,
            } => Ok(Step::Aead(AeadStep {
                dir: *dir,
                key: Box::new(alloc, GcmKey::new(expanded(key)))?,
                tag_len: *tag_len,
                aad_len: *aad_len,
            })),
        }
    }

    // The steps of the transforms of one session.
    pub(crate) fn all_ready(alloc: Global, xforms: &[Xform]) -> Result<Vec<Step>, OutOfMemory>
        requires { fault_of (map transform_of xforms.now) ≡ None }
        ensures { IfOk result (λ steps. map plain steps.items ≡ map transform_of xforms.now) }
    {
        let mut steps = Vec::with_capacity(alloc, xforms.len())?;
        for xform in xforms {
            steps.push(Step::ready(alloc, xform)?)?;
        }
        Ok(steps)
    }
}

/// AES in a mode, under an expanded key, which is boxed, as those of the other steps, so that a step is small.
#[derive(Drop)]
pub struct CipherStep {
    pub alg: CipherAlg,
    pub dir: Dir,
    pub key: Box<Key>,
}

/// HMAC under a key, cut to its first bytes. Contracts see it as what was asked for: the hash function, the
/// act, the bytes of the key and the length of the digest.
#[derive(Drop)]
pub struct AuthStep {
    hash: Hash,
    act: Act,
    bytes: KeyBytes,
    ready: Box<HmacKey>,
    len: usize,
}

impl Model for AuthStep {
    ghost use Rattle.std.specs.Prelude.{◌≤◌};
    ghost use Rattle.std.specs.Box.{box_value};
    ghost use Rattle.crypto_model.specs.Hmac.{digest_size};
    ghost use Rattle.hmac_core.specs.States.{IsKeyOf};
    ghost use Rattle.sym_session.specs.Auth.{AuthSpec};

    ghost Value = { AuthSpec };

    ghost view = { λ s. record { hash = s.hash; act = s.act; key = s.bytes; len = s.len } };

    ghost invariant = { λ s. IsKeyOf s.hash s.bytes (box_value s.ready) × (4 ≤ s.len) × (s.len ≤ digest_size s.hash) };
}

impl AuthStep {
    /// The hash function.
    pub fn hash(&self) -> Hash
        ensures { result ≡ self.now.hash }
    {
        self.hash
    }

    /// Whether the digest is written or compared.
    pub fn act(&self) -> Act
        ensures { result ≡ self.now.act }
    {
        self.act
    }

    /// The key, as HMAC takes it.
    pub fn key(&self) -> &HmacKey
        ensures { IsKeyOf self.now.hash self.now.key result.now }
    {
        &self.ready
    }

    /// The key as it was given.
    pub fn key_bytes(&self) -> &KeyBytes
        ensures { result.now ≡ self.now.key }
    {
        &self.bytes
    }

    /// The length of the digest, in bytes.
    pub fn digest_len(&self) -> usize
        ensures value { result ≡ self.now.len }
        ensures least { 4 ≤ result }
        ensures most { result ≤ digest_size self.now.hash }
    {
        self.len
    }
}

/// AES-GCM under a key, with a tag cut to its first bytes. Contracts see it as what was asked for: the
/// direction, the bytes of the key, the length of the tag and that of the data that is only authenticated.
#[derive(Drop)]
pub struct AeadStep {
    dir: Dir,
    key: Box<GcmKey>,
    tag_len: usize,
    aad_len: usize,
}

impl Model for AeadStep {
    ghost use Rattle.std.specs.Prelude.{◌≤◌};
    ghost use Rattle.std.specs.Box.{box_value};
    ghost use Rattle.sym_session.specs.Aead.{AeadSpec};

    ghost Value = { AeadSpec };

    ghost view = { λ s. record { dir = s.dir; key = box_value s.key; tag_len = s.tag_len; aad_len = s.aad_len } };

    ghost invariant = { λ s. (4 ≤ s.tag_len) × (s.tag_len ≤ 16) };
}

impl AeadStep {
    /// Whether it seals or opens.
    pub fn dir(&self) -> Dir
        ensures { result ≡ self.now.dir }
    {
        self.dir
    }

    /// The key, as GCM takes it.
    pub fn key(&self) -> &GcmKey
        ensures { result.now ≡ self.now.key }
    {
        &self.key
    }

    /// The key as it was given.
    pub fn key_bytes(&self) -> &[u8]
        ensures { result.now ≡ self.now.key }
    {
        self.key.cipher_key().bytes()
    }

    /// The length of the tag, in bytes.
    pub fn tag_len(&self) -> usize
        ensures value { result ≡ self.now.tag_len }
        ensures least { 4 ≤ result }
        ensures most { result ≤ 16 }
    {
        self.tag_len
    }

    /// The length of the data that is only authenticated, in bytes.
    pub fn aad_len(&self) -> usize
        ensures { result ≡ self.now.aad_len }
    {
        self.aad_len
    }
}
