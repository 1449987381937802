//! What the X of a session line says.
ghost use Rattle.std.specs.Prelude.{◌≡◌, ◌≢◌, ◌≤◌, IfOk, IsTrue, MatchOption, true, false, length, map};
ghost use Rattle.std.specs.List.{list_all, flat_map};
ghost use Rattle.session_file.specs.Fault.{has_good_salt, has_hexes, has_numbers, makes_session, part_salt, xform_of};
ghost use Rattle.session_file.specs.Value.{is_hex, hex_bytes};
ghost use Rattle.session_file.specs.View.{chain_view, has_short_key, part_view};

use crate::value::{hex_bytes, hex_len, is_hex, is_number, number};
use crypto_model::{Act, CipherAlg, Dir, Hash, OutOfMemory};
use std::alloc::Global;
use sym_session::{KeyBytes, MakeRefused, Session, Xform};

// The most bytes of a key that `KeyBytes` takes.
const MAX_KEY: usize = 1024;

/// One X, with the words in its places.
#[derive(Clone, Copy)]
pub(crate) enum Part<'a> {
    Cipher {
        alg: CipherAlg,
        dir: Dir,
        key: &'a [u8],
        salt: &'a [u8],
    },
    Aead {
        dir: Dir,
        key: &'a [u8],
        salt: &'a [u8],
        tag_len: &'a [u8],
        aad_len: &'a [u8],
    },
    Auth {
        hash: Hash,
        act: Act,
        key: &'a [u8],
        digest_len: &'a [u8],
    },
}

/// X or X + X.
#[derive(Clone, Copy)]
pub(crate) struct Chain<'a> {
    pub(crate) first: Part<'a>,
    pub(crate) second: Option<Part<'a>>,
}

impl Part<'_> {
    fn has_numbers(&self) -> bool
        ensures { result ≡ has_numbers (part_view self.now) }
    {
        match self {
            Part::Cipher { .. } => true,
            Part::Aead {
                tag_len,
                aad_len,
                ..
            } => is_number(tag_len) && is_number(aad_len),
            Part::Auth { digest_len, .. } => is_number(digest_len),
        }
    }

    fn has_hexes(&self) -> bool
        ensures { result ≡ has_hexes (part_view self.now) }
    {
        match self {
            Part::Cipher { key, salt, .. } | Part::Aead { key, salt, .. } => {
                is_hex(key) && is_hex(salt)
            }
            Part::Auth { key, .. } => is_hex(key),
        }
    }

    fn has_good_salt(&self) -> bool
        requires { IsTrue (has_hexes (part_view self.now)) }
        ensures { result ≡ has_good_salt (part_view self.now) }
    {
        match self {
            Part::Cipher { alg, salt, .. } => match alg {
                CipherAlg::AesCbc => hex_len(salt) == 8,
                CipherAlg::AesCtr => hex_len(salt) == 4,
            },
            Part::Aead { salt, .. } => hex_len(salt) == 4,
            Part::Auth { .. } => true,
        }
    }

    fn has_short_key(&self) -> bool
        requires { IsTrue (has_hexes (part_view self.now)) }
        ensures { result ≡ has_short_key (part_view self.now) }
    {
        match self {
            Part::Cipher { key, .. } | Part::Aead { key, .. } | Part::Auth { key, .. } => {
                hex_len(key) <= MAX_KEY
            }
        }
    }

    fn xform(&self, alloc: Global) -> Result<Xform, OutOfMemory>
        requires numbers { IsTrue (has_numbers (part_view self.now)) }
        requires hexes { IsTrue (has_hexes (part_view self.now)) }
        requires short { IsTrue (has_short_key (part_view self.now)) }
        ensures { IfOk result (λ x. x ≡ xform_of (part_view self.now)) }
    {
        match self {
            Part::Cipher { alg, dir, key, .. } => Ok(Xform::Cipher {
                alg: *alg,
                dir: *dir,
                key: key_bytes(alloc, key)?,
            }),
            Part::Aead {
                dir,
                key,
                tag_len,
                aad_len,
                ..
            } => Ok(Xform::Aead {
                dir: *dir,
                key: key_bytes(alloc, key)?,
                tag_len: number(tag_len) as usize,
                aad_len: number(aad_len) as usize,
            }),
            Part::Auth {
                hash,
                act,
                key,
                digest_len,
            } => Ok(Xform::Auth {
                hash: *hash,
                act: *act,
                key: key_bytes(alloc, key)?,
                digest_len: number(digest_len) as usize,
            }),
        }
    }

    fn salt(&self, alloc: Global) -> Result<Vec<u8>, OutOfMemory>
        requires { IsTrue (has_hexes (part_view self.now)) }
        ensures { IfOk result (λ v. v.items ≡ part_salt (part_view self.now)) }
    {
        match self {
            Part::Cipher { salt, .. } | Part::Aead { salt, .. } => hex_bytes(alloc, salt),
            Part::Auth { .. } => Ok(Vec::new(alloc)),
        }
    }
}

// The key that a HEX says.
fn key_bytes(alloc: Global, word: &[u8]) -> Result<KeyBytes, OutOfMemory>
    requires hex { IsTrue (is_hex word.now) }
    requires short { length (hex_bytes word.now) ≤ 1024 }
    ensures { IfOk result (λ key. key ≡ hex_bytes word.now) }
{
    let bytes = hex_bytes(alloc, word)?;
    KeyBytes::copy(alloc, bytes.as_slice())
}

// No session, unless memory was wanting.
fn no_session(refused: MakeRefused) -> Result<bool, OutOfMemory>
    ensures { IfOk result (λ made. (made ≡ false) × (refused ≢ MakeRefused.OutOfMemory)) }
{
    match refused {
        MakeRefused::OutOfMemory => Err(OutOfMemory),
        _ => Ok(false),
    }
}

fn makes_session(alloc: Global, xforms: &[Xform]) -> Result<bool, OutOfMemory>
    ensures { IfOk result (λ made. made ≡ makes_session xforms.now) }
{
    match Session::make(alloc, xforms) {
        Ok(_) => Ok(true),
        Err(refused) => no_session(refused),
    }
}

impl Chain<'_> {
    pub(crate) fn has_numbers(&self) -> bool
        ensures { result ≡ list_all has_numbers (chain_view self.now) }
    {
        match &self.second {
            Some(second) => self.first.has_numbers() && second.has_numbers(),
            None => self.first.has_numbers(),
        }
    }

    pub(crate) fn has_hexes(&self) -> bool
        ensures { result ≡ list_all has_hexes (chain_view self.now) }
    {
        match &self.second {
            Some(second) => self.first.has_hexes() && second.has_hexes(),
            None => self.first.has_hexes(),
        }
    }

    pub(crate) fn has_good_salts(&self) -> bool
        requires { IsTrue (list_all has_hexes (chain_view self.now)) }
        ensures { result ≡ list_all has_good_salt (chain_view self.now) }
    {
        match &self.second {
            Some(second) => self.first.has_good_salt() && second.has_good_salt(),
            None => self.first.has_good_salt(),
        }
    }

    fn has_short_keys(&self) -> bool
        requires { IsTrue (list_all has_hexes (chain_view self.now)) }
        ensures { result ≡ list_all has_short_key (chain_view self.now) }
    {
        match &self.second {
            Some(second) => self.first.has_short_key() && second.has_short_key(),
            None => self.first.has_short_key(),
        }
    }

    // The transforms, where they make a session.
    pub(crate) fn xforms(&self, alloc: Global) -> Result<Option<Vec<Xform>>, OutOfMemory>
        requires numbers { IsTrue (list_all has_numbers (chain_view self.now)) }
        requires hexes { IsTrue (list_all has_hexes (chain_view self.now)) }
        ensures { IfOk result (λ made. MatchOption made (makes_session (map xform_of (chain_view self.now)) ≡ false)
            (λ v. (v.items ≡ map xform_of (chain_view self.now)) × (makes_session (map xform_of (chain_view self.now)) ≡ true))) }
    {
        if !self.has_short_keys() {
            return Ok(None);
        }
        let mut xforms = Vec::new(alloc);
        xforms.push(self.first.xform(alloc)?)?;
        if let Some(second) = &self.second {
            xforms.push(second.xform(alloc)?)?;
        }
        if makes_session(alloc, xforms.as_slice())? {
            Ok(Some(xforms))
        } else {
            Ok(None)
        }
    }

    pub(crate) fn salt(&self, alloc: Global) -> Result<Vec<u8>, OutOfMemory>
        requires { IsTrue (list_all has_hexes (chain_view self.now)) }
        ensures { IfOk result (λ v. v.items ≡ flat_map part_salt (chain_view self.now)) }
    {
        let mut salt = self.first.salt(alloc)?;
        if let Some(second) = &self.second {
            let more = second.salt(alloc)?;
            salt.extend_from_slice(more.as_slice())?;
        }
        Ok(salt)
    }
}
