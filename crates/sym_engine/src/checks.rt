//! The checks of an operation.
ghost use Rattle.std.specs.Prelude.{◌≡◌, ℕ, List, map, length, ◌&&◌, ◌||◌};
ghost use Rattle.std.specs.List.{list_all};
ghost use Rattle.crypto_model.specs.Process.{lies_in, apart, range_of, digest_apart, iv_fits, aad_fits, data_fits, place_holds, transform_fits, fits};
ghost use Rattle.sym_session.specs.Plain.{plain};
ghost use Rattle.sym_engine.specs.Working.{input_for};

use crypto_model::{CipherAlg, DigestPlace, Range};
use crypto_op::OpSpec;
use sym_session::Step;

fn lies(off: usize, n: usize, all: usize) -> bool
    ensures { result ≡ lies_in off n all }
{
    off <= all && n <= all - off
}

fn is_apart(range: Range, at: usize, n: usize) -> bool
    ensures { result ≡ apart range.off range.len at n }
{
    let (off, len) = (range.off as usize, range.len as usize);
    if len == 0 || n == 0 {
        return true;
    }
    if off < at {
        len <= at - off
    } else {
        n <= off - at
    }
}

fn range_for(step: &Step, spec: &OpSpec) -> Range
    ensures { (p : List ℕ) → result ≡ range_of (input_for spec.now p) (plain step.now) }
{
    match step {
        Step::Cipher(_) | Step::Aead(_) => spec.cipher,
        Step::Auth(_) => spec.auth,
    }
}

fn iv_holds(step: &Step, spec: &OpSpec) -> bool
    ensures { (p : List ℕ) → result ≡ iv_fits (input_for spec.now p) (plain step.now) }
{
    match step {
        Step::Cipher(_) => spec.iv.bytes().len() == 16,
        Step::Auth(_) => true,
        Step::Aead(_) => spec.iv.bytes().len() == 12,
    }
}

fn aad_holds(step: &Step, spec: &OpSpec) -> bool
    ensures { (p : List ℕ) → result ≡ aad_fits (input_for spec.now p) (plain step.now) }
{
    match step {
        Step::Cipher(_) | Step::Auth(_) => true,
        Step::Aead(step) => spec.aad.bytes().len() == step.aad_len(),
    }
}

fn data_holds(step: &Step, spec: &OpSpec) -> bool
    ensures { (p : List ℕ) → result ≡ data_fits (input_for spec.now p) (plain step.now) }
{
    match step {
        Step::Cipher(step) => match step.alg {
            CipherAlg::AesCbc => spec.cipher.len % 16 == 0,
            CipherAlg::AesCtr => true,
        },
        Step::Auth(_) | Step::Aead(_) => true,
    }
}

// Whether the digest's bytes in the packet share none with a range that the session uses.
fn digest_is_apart(steps: &[Step], spec: &OpSpec, at: usize, n: usize) -> bool
    ensures { (p : List ℕ) → result ≡ list_all (digest_apart (input_for spec.now p) at n) (map plain steps.now) }
{
    for step in steps {
        if !is_apart(range_for(step, spec), at, n) {
            return false;
        }
    }
    true
}

fn digest_has_place(steps: &[Step], spec: &OpSpec, all: usize, n: usize) -> bool
    ensures { (p : List ℕ) → all ≡ length p → result ≡ place_holds (input_for spec.now p) (map plain steps.now) n spec.now.place }
{
    match spec.place {
        DigestPlace::Nowhere => false,
        DigestPlace::OwnField => true,
        DigestPlace::InChain(at) => {
            lies(at as usize, n, all) && digest_is_apart(steps, spec, at as usize, n)
        }
    }
}

fn step_fits(step: &Step, steps: &[Step], spec: &OpSpec, all: usize) -> bool
    ensures { (p : List ℕ) → all ≡ length p → result ≡ transform_fits (input_for spec.now p) (map plain steps.now) (plain step.now) }
{
    let range = range_for(step, spec);
    if !lies(range.off as usize, range.len as usize, all)
        || !iv_holds(step, spec)
        || !aad_holds(step, spec)
        || !data_holds(step, spec)
    {
        return false;
    }
    match step {
        Step::Cipher(_) => true,
        Step::Auth(step) => digest_has_place(steps, spec, all, step.digest_len()),
        Step::Aead(step) => digest_has_place(steps, spec, all, step.tag_len()),
    }
}

/// Whether the arguments fit each transform of a session, at a packet of `all` bytes.
pub(crate) fn all_fit(steps: &[Step], spec: &OpSpec, all: usize) -> bool
    ensures { (p : List ℕ) → all ≡ length p → result ≡ fits (input_for spec.now p) (map plain steps.now) }
{
    for step in steps {
        if !step_fits(step, steps, spec, all) {
            return false;
        }
    }
    true
}
