//! A session.
ghost use Rattle.std.specs.Prelude.{◌≡◌, map, IfOk, None, Some, Err, IsOkUnless};
ghost use Rattle.sym_session.specs.declared.refusal.MakeRefused.{MakeRefused};
ghost use Rattle.sym_session.specs.declared.refusal.MakeRefused.TheVariants.{OutOfMemory};
ghost use Rattle.sym_session.specs.Xform.{transform_of};
ghost use Rattle.sym_session.specs.Fault.{fault_of};
ghost use Rattle.sym_session.specs.First.{VerifiesFirst};
ghost use Rattle.sym_session.specs.Plain.{plain};

use crate::refusal::{MakeRefused, fault};
use crate::step::Step;
use crate::xform::Xform;
use std::alloc::Global;
use std::marker::Model;

/// Transforms, in the order in which they work, which contracts see as the list of them. A verification comes
/// before anything is changed.
#[derive(Drop)]
pub struct Session {
    steps: Vec<Step>,
}

impl Model for Session {
    ghost use Rattle.std.specs.Prelude.{◌≡◌, List, None, map};
    ghost use Rattle.crypto_model.specs.Process.{Transform};
    ghost use Rattle.sym_session.specs.Fault.{fault_of};
    ghost use Rattle.sym_session.specs.Plain.{plain};

    ghost Value = { List Transform };

    ghost view = { λ s. map plain s.steps.items };

    ghost invariant = { λ s. fault_of (map plain s.steps.items) ≡ None };
}

impl Session {
    /// Checks the transforms and makes their keys ready. The first fault is told, in the order of
    /// [`MakeRefused`].
    pub fn make(alloc: Global, xforms: &[Xform]) -> Result<Session, MakeRefused>
        ensures made { IfOk result (λ s. s ≡ map transform_of xforms.now) }
        ensures refused { (e : MakeRefused) → fault_of (map transform_of xforms.now) ≡ Some e → result ≡ Err e }
        ensures accepted { fault_of (map transform_of xforms.now) ≡ None → IsOkUnless result OutOfMemory }
    {
        if let Some(fault) = fault(xforms) {
            return Err(fault);
        }
        Ok(Session {
            steps: Step::all_ready(alloc, xforms)?,
        })
    }

    /// The transforms with their keys, one or two.
    pub fn steps(&self) -> &[Step]
        ensures transforms { map plain result.now ≡ self.now }
        ensures sound { fault_of self.now ≡ None }
        ensures first { VerifiesFirst self.now }
    {
        self.steps.as_slice()
    }
}
