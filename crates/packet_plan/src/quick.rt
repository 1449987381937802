//! The plan of `quick`.
ghost use Rattle.std.specs.Prelude.{◌≡◌, IfOk};
ghost use Rattle.session_file.specs.Sound.{IsSound};
ghost use Rattle.packet_plan.specs.Quick.{quick_plan};

use aes_core::Key;
use crypto_model::{CipherAlg, Dir, OutOfMemory, SessId};
use session_file::{Choice, Name, Named, Plan, Rules, Salt, Sessions, Xforms};
use std::alloc::Global;
use sym_session::{KeyBytes, Xform};

/// One session, CTR under this key, which works on every packet whole.
pub fn quick_plan(alloc: Global, key: &Key, salt: [u8; 4]) -> Result<Plan, OutOfMemory>
    ensures plan { IfOk result (λ p. p ≡ quick_plan key.now salt) }
    ensures sound { IfOk result IsSound }
{
    let mut xforms = Vec::with_capacity(alloc, 1)?;
    xforms.push(Xform::Cipher {
        alg: CipherAlg::AesCtr,
        dir: Dir::Encrypt,
        key: KeyBytes::copy(alloc, key.bytes())?,
    })?;
    let mut sessions = Vec::with_capacity(alloc, 1)?;
    sessions.push(Named {
        name: Name::new(Vec::new(alloc)),
        xforms: Xforms::new(xforms),
        salt: Salt::new(Vec::from_slice(alloc, &salt)?),
    })?;
    Ok(Plan {
        sessions: Sessions::new(sessions),
        rules: Rules::new(Vec::new(alloc)),
        otherwise: Choice::Use {
            session: SessId(0),
            skip: 0,
        },
    })
}
