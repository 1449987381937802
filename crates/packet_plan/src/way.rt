//! What is done with the packets of a session.
ghost use Rattle.std.specs.Prelude.{◌≡◌, ◌+◌, ◌-◌, ◌||◌, ◌<◌, ◌≤◌, ◌^◌, [], ◌∷◌, None, map, if◌then◌else◌};
ghost use Rattle.sym_session.specs.Xform.{transform_of};
ghost use Rattle.sym_session.specs.Fault.{fault_of};
ghost use Rattle.packet_plan.specs.Way.{way_of};
ghost use Rattle.packet_plan.specs.Answered.{written_orig};
ghost use Rattle.packet_plan.specs.Asked.{code_range, data_range, digest_place, end_of, is_too_short, room_for};

use crypto_model::{Act, DigestPlace, Dir, Range, Status};
use sym_session::Xform;

/// What is done with the packets of a session, beside its cryptography.
#[derive(Clone, Copy, Debug, PartialEq, Eq)]
pub struct Way {
    /// Whether it decrypts or verifies, so that the digest is taken off the packet.
    pub inward: bool,
    /// The bytes of its digest or tag, 0 where it has none.
    pub digest_len: usize,
    /// Whether it encrypts or decrypts.
    pub crypts: bool,
    /// Whether it makes or compares a code.
    pub code: bool,
    /// Whether it also covers data that stays as it is.
    pub aead: bool,
}

impl Way {
    // The way of one transform.
    #[tactic(auto, unfolding(crate::specs::Way::way_of))]
    fn alone(xform: &Xform) -> Way
        ensures { result ≡ way_of (transform_of xform.now ∷ []) }
    {
        match xform {
            Xform::Cipher { dir, .. } => Way {
                inward: *dir == Dir::Decrypt,
                digest_len: 0,
                crypts: true,
                code: false,
                aead: false,
            },
            Xform::Auth {
                act,
                digest_len,
                ..
            } => Way {
                inward: *act == Act::Verify,
                digest_len: *digest_len,
                crypts: false,
                code: true,
                aead: false,
            },
            Xform::Aead { dir, tag_len, .. } => Way {
                inward: *dir == Dir::Decrypt,
                digest_len: *tag_len,
                crypts: true,
                code: false,
                aead: true,
            },
        }
    }

    // What either does.
    fn and(self, other: Way) -> Way
        requires { self.digest_len + other.digest_len < 2 ^ 64 }
        ensures inward { result.inward ≡ (self.inward || other.inward) }
        ensures digest_len { result.digest_len ≡ self.digest_len + other.digest_len }
        ensures crypts { result.crypts ≡ (self.crypts || other.crypts) }
        ensures code { result.code ≡ (self.code || other.code) }
        ensures aead { result.aead ≡ (self.aead || other.aead) }
    {
        Way {
            inward: self.inward || other.inward,
            digest_len: self.digest_len + other.digest_len,
            crypts: self.crypts || other.crypts,
            code: self.code || other.code,
            aead: self.aead || other.aead,
        }
    }

    // The way of the transforms of a session.
    #[tactic(auto, unfolding(crate::specs::Way::way_of))]
    pub(crate) fn of(xforms: &[Xform]) -> Way
        requires { fault_of (map transform_of xforms.now) ≡ None }
        ensures { result ≡ way_of (map transform_of xforms.now) }
    {
        match xforms {
            [xform] => Way::alone(xform),
            [first, second] => Way::alone(first).and(Way::alone(second)),
            _ => unreachable!(),
        }
    }

    // Whether a packet of `len` bytes is too short, where the first `skip` are skipped.
    pub(crate) fn is_short(self, skip: u32, len: usize) -> bool
        requires { self.digest_len ≤ 64 }
        ensures { result ≡ is_too_short self skip len }
    {
        let skip = skip as usize;
        len < skip || (self.inward && len < skip + self.digest_len)
    }

    // Where the data ends in a packet of `len` bytes.
    fn end(self, len: usize) -> usize
        ensures value { result ≡ end_of self len }
        ensures most { result ≤ len }
    {
        if self.inward {
            len.saturating_sub(self.digest_len)
        } else {
            len
        }
    }

    // How many bytes are put behind a packet.
    pub(crate) fn room(self) -> usize
        ensures { result ≡ room_for self }
    {
        if self.inward { 0 } else { self.digest_len }
    }

    pub(crate) fn data_range(self, skip: u32, len: usize) -> Range
        requires { len < 2 ^ 32 }
        ensures { result ≡ data_range self skip len }
    {
        if self.crypts {
            Range {
                off: skip,
                len: self.end(len).saturating_sub(skip as usize) as u32,
            }
        } else {
            Range { off: 0, len: 0 }
        }
    }

    pub(crate) fn code_range(self, len: usize) -> Range
        requires { len < 2 ^ 32 }
        ensures { result ≡ code_range self len }
    {
        if self.code {
            Range {
                off: 0,
                len: self.end(len) as u32,
            }
        } else {
            Range { off: 0, len: 0 }
        }
    }

    pub(crate) fn digest_place(self, len: usize) -> DigestPlace
        requires { len < 2 ^ 32 }
        ensures { result ≡ digest_place self len }
    {
        if self.digest_len == 0 {
            DigestPlace::Nowhere
        } else {
            DigestPlace::InChain(self.end(len) as u32)
        }
    }

    // How long a packet of `len` bytes is written, where its operation came to this status.
    pub(crate) fn written(self, status: Status, len: usize) -> usize
        requires { len + self.digest_len < 2 ^ 64 }
        ensures { result ≡ written_orig status self len }
    {
        match status {
            Status::Success if self.inward => len.saturating_sub(self.digest_len),
            Status::Success => len + self.digest_len,
            _ => len,
        }
    }
}
