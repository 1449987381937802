//! Whether two tables hold the same sessions.
ghost use Rattle.std.specs.Prelude.{◌≡◌, ◌↔◌, IsTrue, map};
ghost use Rattle.sym_session.specs.Plain.{plain};

use crate::step::Step;
use crate::table::SessionTable;

// Whether the two are the same transform. It compares the bytes of keys, since HMAC takes some keys alike.
fn is_same_step(a: &Step, b: &Step) -> bool
    ensures { IsTrue result ↔ (plain a.now ≡ plain b.now) }
{
    match (a, b) {
        (Step::Cipher(a), Step::Cipher(b)) => {
            a.alg == b.alg && a.dir == b.dir && a.key.bytes() == b.key.bytes()
        }
        (Step::Auth(a), Step::Auth(b)) => {
            a.hash() == b.hash()
                && a.act() == b.act()
                && a.key_bytes().bytes() == b.key_bytes().bytes()
                && a.digest_len() == b.digest_len()
        }
        (Step::Aead(a), Step::Aead(b)) => {
            a.dir() == b.dir()
                && a.key_bytes() == b.key_bytes()
                && a.tag_len() == b.tag_len()
                && a.aad_len() == b.aad_len()
        }
        _ => false,
    }
}

fn are_same_steps(a: &[Step], b: &[Step]) -> bool
    ensures { IsTrue result ↔ (map plain a.now ≡ map plain b.now) }
{
    if a.len() != b.len() {
        return false;
    }
    for (x, y) in a.iter().zip(b) {
        if !is_same_step(x, y) {
            return false;
        }
    }
    true
}

/// Whether the two hold the same transforms, down to the bytes of the keys, under the same numbers.
pub fn same(a: &SessionTable, b: &SessionTable) -> bool
    ensures { IsTrue result ↔ (a.now ≡ b.now) }
{
    if a.len() != b.len() {
        return false;
    }
    for (x, y) in a.sessions().iter().zip(b.sessions()) {
        if !are_same_steps(x.steps(), y.steps()) {
            return false;
        }
    }
    true
}
