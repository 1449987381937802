//! The modes of operation, as a walk over a packet uses them.
ghost use Rattle.std.specs.Prelude.{◌≡◌, ◌<◌, ◌≤◌, ◌+◌, ◌++◌, ◌%◌, ◌^◌, [], List, ℕ, length};
ghost use Rattle.crypto_model.specs.Aes.{cipher, inverse_cipher};
ghost use Rattle.crypto_model.specs.Modes.{ctr, cbc_encrypt, cbc_decrypt};
ghost use Rattle.crypto_model.specs.Gcm.{gcm_text};
ghost use Rattle.crypto_model.specs.declared.plain.Hash.{Hash as HashFunction};
ghost use Rattle.aes_modes.specs.Feeding.{IsFed};
ghost use Rattle.aes_modes.specs.Chaining.{IsChained, IsUnchained};
ghost use Rattle.sym_engine.specs.Laws.{one_small, block_small, ctr_of_nothing, cbc_encrypt_of_nothing, cbc_decrypt_of_nothing, gcm_of_nothing};
ghost use Rattle.gcm_core.specs.Sealing.{IsSealed};
ghost use Rattle.gcm_core.specs.Opening.{IsAbsorbed, IsOpened};
ghost use Rattle.hmac_core.specs.States.{HmacHolds};

use aes_modes::{CbcDec, CbcEnc, Ctr};
use gcm_core::{GcmOpen, GcmPlain, GcmSeal};
use hmac_core::Hmac;

/// A mode at work on a text that comes in pieces.
pub(crate) trait Mode {
    /// Each piece has a multiple of so many bytes.
    ghost unit: { ℕ };

    /// It was begun with this key, this IV and this data that is only authenticated, and has taken in this text.
    ghost holds: { List ℕ → List ℕ → List ℕ → Self → List ℕ → Type 0 };

    /// What comes out for a text.
    ghost made: { List ℕ → List ℕ → List ℕ → List ℕ };

    /// 1 byte, or a block of 16.
    fn unit(&self) -> usize
        ensures { result ≡ unit };

    /// Takes in a piece, and writes what comes out over it.
    fn feed(&mut self, piece: &mut [u8])
        requires { length piece.old % unit ≡ 0 }
        ensures { (key iv aad text : List ℕ) → holds key iv aad self.old text
            → holds key iv aad self.new (text ++ piece.old) × (made key iv (text ++ piece.old) ≡ made key iv text ++ piece.new) };

    ghost unit_range: { (0 < unit) × (unit ≤ 16) };

    ghost made_of_nothing: { (key iv : List ℕ) → made key iv [] ≡ [] };
}

impl<'a> Mode for Ctr<'a> {
    ghost unit = { 1 };

    ghost holds = { λ key iv aad s text. IsFed key iv s text };

    ghost made = { λ key iv text. ctr (cipher key) iv text };

    ghost unit_range = { one_small };

    ghost made_of_nothing = { ctr_of_nothing };

    fn unit(&self) -> usize {
        1
    }

    fn feed(&mut self, piece: &mut [u8]) {
        self.feed(piece);
    }
}

impl<'a> Mode for CbcEnc<'a> {
    ghost unit = { 16 };

    ghost holds = { λ key iv aad s text. IsChained key iv s text };

    ghost made = { λ key iv text. cbc_encrypt (cipher key) iv text };

    ghost unit_range = { block_small };

    ghost made_of_nothing = { cbc_encrypt_of_nothing };

    fn unit(&self) -> usize {
        16
    }

    fn feed(&mut self, piece: &mut [u8]) {
        self.blocks(piece);
    }
}

impl<'a> Mode for CbcDec<'a> {
    ghost unit = { 16 };

    ghost holds = { λ key iv aad s text. IsUnchained key iv s text };

    ghost made = { λ key iv text. cbc_decrypt (inverse_cipher key) iv text };

    ghost unit_range = { block_small };

    ghost made_of_nothing = { cbc_decrypt_of_nothing };

    fn unit(&self) -> usize {
        16
    }

    fn feed(&mut self, piece: &mut [u8]) {
        self.blocks(piece);
    }
}

impl<'a> Mode for GcmSeal<'a> {
    ghost unit = { 1 };

    ghost holds = { IsSealed };

    ghost made = { λ key iv text. gcm_text (cipher key) iv text };

    ghost unit_range = { one_small };

    ghost made_of_nothing = { gcm_of_nothing };

    fn unit(&self) -> usize {
        1
    }

    fn feed(&mut self, piece: &mut [u8]) {
        self.feed(piece);
    }
}

impl<'a> Mode for GcmPlain<'a> {
    ghost unit = { 1 };

    ghost holds = { λ key iv aad s text. IsOpened key iv s text };

    ghost made = { λ key iv text. gcm_text (cipher key) iv text };

    ghost unit_range = { one_small };

    ghost made_of_nothing = { gcm_of_nothing };

    fn unit(&self) -> usize {
        1
    }

    fn feed(&mut self, piece: &mut [u8]) {
        self.feed(piece);
    }
}

/// What takes in a text that comes in pieces.
pub(crate) trait Absorb {
    /// What it was begun with.
    ghost Begun: { Type 0 };

    /// It was begun with this, and has taken in this text.
    ghost holds: { Begun → Self → List ℕ → Type 0 };

    fn absorb(&mut self, piece: &[u8])
        ensures { (begun : Begun) (text : List ℕ) → holds begun self.old text → holds begun self.new (text ++ piece.now) };
}

impl Absorb for Hmac {
    ghost Begun = { HashFunction × List ℕ };

    ghost holds = { λ begun s text. HmacHolds begun.0 begun.1 s text };

    fn absorb(&mut self, piece: &[u8]) {
        self.feed(piece);
    }
}

impl<'a> Absorb for GcmOpen<'a> {
    ghost Begun = { List ℕ × List ℕ × List ℕ };

    ghost holds = { λ begun s text. IsAbsorbed begun.0 begun.1 begun.2 s text };

    fn absorb(&mut self, piece: &[u8]) {
        self.absorb(piece);
    }
}
