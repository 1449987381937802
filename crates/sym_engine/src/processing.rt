//! An operation from its checks to its status.
ghost use Rattle.std.specs.Prelude.{◌≡◌, ℕ, List, [], ◌∷◌, map, true, false, Some, IfSome};
ghost use Rattle.std.specs.Box.{box_value};
ghost use Rattle.crypto_model.specs.Process.{Cipher, all_worked, answer_of, fits, processed};
ghost use Rattle.mbuf_chain.specs.Chain.{packet_of, shape_of};
ghost use Rattle.crypto_op.specs.Op.{input_of, present, entry_of, IsFresh, IsDone};
ghost use Rattle.sym_session.specs.First.{VerifiesFirst};
ghost use Rattle.sym_session.specs.Plain.{plain};
ghost use Rattle.sym_engine.specs.Working.{input_for, target_of, with_target, work_of, outcome, with_answer, IsWritten};

use crate::checks::all_fit;
use crate::work::{cipher_work, step_work};
use crypto_model::Status;
use crypto_op::Op;
use sym_session::{CipherStep, Session, SessionTable, Step};

// The transforms, one after another; false where a digest isn't the computed one.
fn all_work<C>(steps: &[Step], op: &mut Op<C>, digest: &mut [u8; 64]) -> bool
    requires fit { fits (input_for op.old.spec (packet_of (target_of op.old))) (map plain steps.now) ≡ true }
    requires first { VerifiesFirst (map plain steps.now) }
    ensures works { (p : List ℕ) → all_worked (map plain steps.now) (input_for op.old.spec p) (Some (work_of (target_of op.old) digest.old))
        ≡ outcome result (work_of (target_of op.new) digest.new) }
    ensures kept { op.new ≡ with_target op.old (target_of op.new) }
    ensures written { IsWritten (target_of op.old) (target_of op.new) }
    ensures unless { result ≡ false → target_of op.new ≡ target_of op.old }
{
    for step in steps {
        if !step_work(step, op, digest) {
            return false;
        }
    }
    true
}

// The only step of a session, where that is a cipher, which has no digest.
fn lone_cipher(steps: &[Step]) -> Option<&CipherStep>
    ensures { IfSome result (λ step. map plain steps.now ≡ Cipher step.now.alg step.now.dir (box_value step.now.key) ∷ []) }
{
    match steps.first() {
        Some(Step::Cipher(step)) if steps.len() == 1 => Some(step),
        _ => None,
    }
}

// Changes packet and digest field as the answer under this session says, and gives the answer's status.
fn answer_under<C>(session: &Session, op: &mut Op<C>) -> Status
    ensures status { result ≡ (answer_of session.now (input_of (present op.old))).status }
    ensures answer { op.new ≡ with_answer op.old (answer_of session.now (input_of (present op.old))) }
    ensures shape { shape_of op.new.chain ≡ shape_of op.old.chain }
{
    let steps = session.steps();
    if !all_fit(steps, op.spec(), op.chain().len()) {
        return Status::InvalidArgs;
    }
    if let Some(step) = lone_cipher(steps) {
        cipher_work(step, op);
        return Status::Success;
    }
    let mut digest = op.spec().digest;
    if !all_work(steps, op, &mut digest) {
        return Status::AuthFailed;
    }
    op.set_digest(digest);
    Status::Success
}

fn answer<C>(table: &SessionTable, op: &mut Op<C>) -> Status
    ensures status { result ≡ (processed table.now (input_of (present op.old))).status }
    ensures answer { op.new ≡ with_answer op.old (processed table.now (input_of (present op.old))) }
    ensures shape { shape_of op.new.chain ≡ shape_of op.old.chain }
{
    match table.get(op.spec().session) {
        None => Status::InvalidSession,
        Some(session) => answer_under(session, op),
    }
}

/// Answers an operation: first the checks, and then the transforms of its session, one after another. Where
/// the status isn't `Success`, packet and digest field are as they were: a digest is verified before a byte
/// changes. The packet's bytes are worked on where they lie, and no byte outside its data changes. Takes no
/// memory.
pub fn process<C>(table: &SessionTable, op: &mut Op<C>)
    requires { IsFresh op.old }
    ensures done { IsDone table.now op.new }
    ensures entry { entry_of op.new ≡ entry_of op.old }
    ensures shape { shape_of op.new.chain ≡ shape_of op.old.chain }
{
    let status = answer(table, op);
    op.set_status(status);
}
