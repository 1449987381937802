//! Why a session is refused.
ghost use Rattle.std.specs.Prelude.{◌≡◌, map};
ghost use Rattle.std.specs.List.{list_all};
ghost use Rattle.crypto_model.specs.Session.{key_fits, digest_fits, aad_len_fits, is_chain};
ghost use Rattle.sym_session.specs.Xform.{transform_of};
ghost use Rattle.sym_session.specs.Fault.{fault_of};

use crate::xform::Xform;
use crypto_model::{Act, Dir, OutOfMemory};
use thiserror::Error;

/// Why no session was made.
#[derive(Clone, Copy, Debug, PartialEq, Eq, Error)]
pub enum MakeRefused {
    #[error("a key has no length that its algorithm takes")]
    BadKeyLength,
    #[error("a digest or tag has no length that its algorithm gives")]
    BadDigestLength,
    #[error("the additional data are longer than 255 bytes")]
    BadAadLength,
    #[error("the transforms make no session in this order")]
    BadChain,
    #[error("out of memory")]
    OutOfMemory,
}

impl From<OutOfMemory> for MakeRefused {
    ghost use Rattle.sym_session.specs.declared.refusal.MakeRefused.TheVariants.{OutOfMemory};

    ghost from_gives = { λ _ e. e ≡ OutOfMemory };

    fn from(_error: OutOfMemory) -> MakeRefused {
        MakeRefused::OutOfMemory
    }
}

fn all_keys_fit(xforms: &[Xform]) -> bool
    ensures { result ≡ list_all key_fits (map transform_of xforms.now) }
{
    xforms.iter().all(|xform| xform.key_fits())
}

fn all_digests_fit(xforms: &[Xform]) -> bool
    ensures { result ≡ list_all digest_fits (map transform_of xforms.now) }
{
    xforms.iter().all(|xform| xform.digest_fits())
}

fn all_aad_lens_fit(xforms: &[Xform]) -> bool
    ensures { result ≡ list_all aad_len_fits (map transform_of xforms.now) }
{
    xforms.iter().all(|xform| xform.aad_len_fits())
}

// Whether the transforms follow one another as those of a session do.
fn is_chain(xforms: &[Xform]) -> bool
    ensures { result ≡ is_chain (map transform_of xforms.now) }
{
    match xforms {
        [_] => true,
        [Xform::Cipher { dir, .. }, Xform::Auth { act, .. }] => {
            *dir == Dir::Encrypt && *act == Act::Generate
        }
        [Xform::Auth { act, .. }, Xform::Cipher { dir, .. }] => {
            *act == Act::Verify && *dir == Dir::Decrypt
        }
        _ => false,
    }
}

// The first fault, in the order of `MakeRefused`.
pub(crate) fn fault(xforms: &[Xform]) -> Option<MakeRefused>
    ensures { result ≡ fault_of (map transform_of xforms.now) }
{
    if !all_keys_fit(xforms) {
        Some(MakeRefused::BadKeyLength)
    } else if !all_digests_fit(xforms) {
        Some(MakeRefused::BadDigestLength)
    } else if !all_aad_lens_fit(xforms) {
        Some(MakeRefused::BadAadLength)
    } else if !is_chain(xforms) {
        Some(MakeRefused::BadChain)
    } else {
        None
    }
}
