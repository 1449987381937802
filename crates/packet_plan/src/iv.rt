//! How the IVs of a session are made.
ghost use Rattle.std.specs.Prelude.{◌≡◌, ◌+◌, ◌++◌, None, IsTrue, length, map};
ghost use Rattle.crypto_model.specs.Aes.{is_key_length};
ghost use Rattle.sym_session.specs.Xform.{transform_of};
ghost use Rattle.sym_session.specs.Fault.{fault_of};
ghost use Rattle.packet_plan.specs.Ready.{iv_by, rule_of, salt_len};

use aes_core::{Key, encrypt};
use crypto_model::CipherAlg;
use crypto_op::Iv;
use sym_session::{KeyBytes, Xform};

/// How the IV of each packet of a session is made of the packet's number.
#[derive(Drop)]
pub(crate) enum IvRule {
    /// There is none.
    Empty,
    /// The salt, the number, and 1: the first counter of CTR.
    Counter([u8; 4]),
    /// The salt and the number.
    Nonce([u8; 4]),
    /// The salt and the number as a block, encrypted under the key.
    Encrypted(Key, [u8; 8]),
}

fn expanded(key: &KeyBytes) -> Key
    requires { IsTrue (is_key_length (length key.now)) }
    ensures { result ≡ key.now }
{
    match Key::expand(key.bytes()) {
        Ok(key) => key,
        Err(_) => unreachable!(),
    }
}

fn copied<const N: usize>(bytes: &[u8]) -> [u8; N]
    requires { length bytes.now ≡ N }
    ensures { result ≡ bytes.now }
{
    let mut array = [0; N];
    array.copy_from_slice(bytes);
    array
}

// Writes both parts, one after the other.
fn join(front: &[u8], back: &[u8], bytes: &mut [u8])
    requires { length bytes.old ≡ length front.now + length back.now }
    ensures { bytes.new ≡ front.now ++ back.now }
{
    let (head, tail) = bytes.split_at_mut(front.len());
    head.copy_from_slice(front);
    tail.copy_from_slice(back);
}

impl IvRule {
    // The rule of the transforms of a session, with a salt of the bytes that they take.
    pub(crate) fn of(xforms: &[Xform], salt: &[u8]) -> IvRule
        requires made { fault_of (map transform_of xforms.now) ≡ None }
        requires salted { length salt.now ≡ salt_len (map transform_of xforms.now) }
        ensures { result ≡ rule_of (map transform_of xforms.now) salt.now }
    {
        for xform in xforms {
            match xform {
                Xform::Cipher { alg, key, .. } => {
                    return match alg {
                        CipherAlg::AesCtr => IvRule::Counter(copied(salt)),
                        CipherAlg::AesCbc => IvRule::Encrypted(expanded(key), copied(salt)),
                    };
                }
                Xform::Aead { .. } => return IvRule::Nonce(copied(salt)),
                Xform::Auth { .. } => {}
            }
        }
        IvRule::Empty
    }

    /// The IV of packet `n`.
    pub(crate) fn iv(&self, n: u32) -> Iv
        ensures { result ≡ iv_by self.now n }
    {
        let number = u64::from(n).to_be_bytes();
        match self {
            IvRule::Empty => Iv::copy(&[]),
            IvRule::Counter(salt) => {
                let mut nonce = [0; 12];
                join(salt, &number, &mut nonce);
                let mut counter = [0; 16];
                join(&nonce, &1u32.to_be_bytes(), &mut counter);
                Iv::copy(&counter)
            }
            IvRule::Nonce(salt) => {
                let mut nonce = [0; 12];
                join(salt, &number, &mut nonce);
                Iv::copy(&nonce)
            }
            IvRule::Encrypted(key, salt) => {
                let mut block = [0; 16];
                join(salt, &number, &mut block);
                encrypt(key, &mut block);
                Iv::copy(&block)
            }
        }
    }
}
