//! One transform at work on an operation.
ghost use Rattle.std.specs.Prelude.{◌≡◌, ◌≤◌, ◌+◌, ◌%◌, ℕ, [], List, length, take, false, bytes_eq, is_ok, IfOk, Some};
ghost use Rattle.std.specs.Box.{box_value};
ghost use Rattle.crypto_model.specs.declared.plain.CipherAlg.TheVariants.{AesCbc};
ghost use Rattle.crypto_model.specs.Chain.{laid_at};
ghost use Rattle.crypto_model.specs.declared.plain.Dir.{Dir};
ghost use Rattle.crypto_model.specs.Process.{Cipher, Auth, Aead, bytes_in, digest_at, with_digest, worked};
ghost use Rattle.crypto_model.specs.Aes.{cipher};
ghost use Rattle.crypto_model.specs.Gcm.{gcm_tag, gcm_text};
ghost use Rattle.gcm_core.specs.Sealing.{IsSealed};
ghost use Rattle.gcm_core.specs.Opening.{IsAbsorbed, IsOpened};
ghost use Rattle.hmac_core.specs.States.{HmacHolds};
ghost use Rattle.mbuf_chain.specs.Chain.{packet_of, with_packet};
ghost use Rattle.sym_session.specs.Plain.{plain};
ghost use Rattle.sym_engine.specs.Working.{ciphered, input_for, target_of, with_target, work_of, place_ready, ready, outcome, IsWritten};

use crate::walk::{feed_range, work_on};
use aes_modes::{CbcDec, CbcEnc, Ctr};
use crypto_model::{Act, CipherAlg, DigestPlace, Dir, Range};
use crypto_op::Op;
use gcm_core::{BadTag, GcmOpen, GcmPlain, GcmSeal};
use hmac_core::Hmac;
use mbuf_chain::Mbuf;
use sym_session::{AeadStep, AuthStep, CipherStep, Step};

fn block(iv: &[u8]) -> [u8; 16]
    requires { length iv.now ≡ 16 }
    ensures { result ≡ iv.now }
{
    let mut block = [0; 16];
    block.copy_from_slice(iv);
    block
}

fn nonce(iv: &[u8]) -> [u8; 12]
    requires { length iv.now ≡ 12 }
    ensures { result ≡ iv.now }
{
    let mut nonce = [0; 12];
    nonce.copy_from_slice(iv);
    nonce
}

// Encrypts or decrypts a range of a packet in place.
fn crypt(step: &CipherStep, iv: [u8; 16], chain: &mut Mbuf, range: Range)
    requires inside { range.off + range.len ≤ length (packet_of chain.old) }
    requires whole { step.now.alg ≡ AesCbc → range.len % 16 ≡ 0 }
    ensures { chain.new ≡ ciphered step.now.alg step.now.dir (box_value step.now.key) iv range chain.old }
{
    match step.alg {
        CipherAlg::AesCtr => {
            work_on(Ctr::new(&step.key, iv), chain, range);
        }
        CipherAlg::AesCbc => match step.dir {
            Dir::Encrypt => {
                work_on(CbcEnc::new(&step.key, iv), chain, range);
            }
            Dir::Decrypt => {
                work_on(CbcDec::new(&step.key, iv), chain, range);
            }
        },
    }
}

// The code of a range, before its end.
fn fed(step: &AuthStep, chain: &Mbuf, range: Range) -> Hmac
    requires { range.off + range.len ≤ length (packet_of chain.now) }
    ensures { HmacHolds step.now.hash step.now.key result (bytes_in range (packet_of chain.now)) }
{
    let mut code = Hmac::start(step.key());
    feed_range(&mut code, chain, range);
    code
}

// The first `n` bytes at the digest's place.
fn read_digest(place: DigestPlace, n: usize, chain: &Mbuf, digest: &[u8; 64]) -> [u8; 64]
    requires ready { place_ready n (packet_of chain.now) place }
    requires short { n ≤ 64 }
    ensures { take n result ≡ digest_at place n (work_of chain.now digest.now) }
{
    match place {
        DigestPlace::Nowhere => unreachable!(),
        DigestPlace::OwnField => *digest,
        DigestPlace::InChain(at) => {
            let mut read = [0; 64];
            chain.read_at(at as usize, &mut read[..n]);
            read
        }
    }
}

fn write_digest(place: DigestPlace, code: &[u8], chain: &mut Mbuf, digest: &mut [u8; 64])
    requires ready { place_ready (length code.now) (packet_of chain.old) place }
    requires short { length code.now ≤ 64 }
    ensures chain { chain.new ≡ with_packet chain.old (with_digest place code.now (work_of chain.old digest.old)).packet }
    ensures digest { digest.new ≡ (with_digest place code.now (work_of chain.old digest.old)).digest }
{
    match place {
        DigestPlace::Nowhere => unreachable!(),
        DigestPlace::OwnField => digest[..code.len()].copy_from_slice(code),
        DigestPlace::InChain(at) => chain.write_at(at as usize, code),
    }
}

/// The step of a cipher, which leaves the digest field alone.
pub(crate) fn cipher_work<C>(step: &CipherStep, op: &mut Op<C>)
    requires { ready (input_for op.old.spec (packet_of (target_of op.old))) (Cipher step.now.alg step.now.dir (box_value step.now.key)) }
    ensures { op.new ≡ with_target op.old (ciphered step.now.alg step.now.dir (box_value step.now.key) op.old.spec.iv op.old.spec.cipher (target_of op.old)) }
{
    let iv = block(op.spec().iv.bytes());
    let range = op.spec().cipher;
    crypt(step, iv, op.chain_mut(), range);
}

fn auth_work<C>(step: &AuthStep, op: &mut Op<C>, digest: &mut [u8; 64]) -> bool
    requires { ready (input_for op.old.spec (packet_of (target_of op.old))) (Auth step.now.hash step.now.act step.now.key step.now.len) }
    ensures works { (p : List ℕ)
        → worked (Auth step.now.hash step.now.act step.now.key step.now.len) (input_for op.old.spec p) (work_of (target_of op.old) digest.old)
        ≡ outcome result (work_of (target_of op.new) digest.new) }
    ensures kept { op.new ≡ with_target op.old (target_of op.new) }
    ensures written { IsWritten (target_of op.old) (target_of op.new) }
    ensures unless { result ≡ false → target_of op.new ≡ target_of op.old }
{
    let code = fed(step, op.chain(), op.spec().auth);
    let (place, n) = (op.spec().place, step.digest_len());
    match step.act() {
        Act::Generate => {
            let tag = code.finish();
            write_digest(place, &tag.bytes[..n], op.chain_mut(), digest);
            true
        }
        Act::Verify => {
            let read = read_digest(place, n, op.chain(), digest);
            code.verify(&read[..n])
        }
    }
}

// Encrypts a range in place, and answers its tag.
fn seal_range(seal: GcmSeal<'_>, chain: &mut Mbuf, range: Range) -> [u8; 16]
    requires { range.off + range.len ≤ length (packet_of chain.old) }
    ensures { (key iv aad : List ℕ) → IsSealed key iv aad seal.entry []
        → (chain.new ≡ with_packet chain.old (laid_at range.off (gcm_text (cipher key) iv (bytes_in range (packet_of chain.old))) (packet_of chain.old)))
        × (result ≡ gcm_tag (cipher key) iv aad (gcm_text (cipher key) iv (bytes_in range (packet_of chain.old)))) }
{
    work_on(seal, chain, range).tag()
}

// Compares the tag of a range.
fn verify_range<'a>(
    ciphertext: GcmOpen<'a>,
    chain: &Mbuf,
    range: Range,
    tag: &[u8],
) -> Result<GcmPlain<'a>, BadTag>
    requires inside { range.off + range.len ≤ length (packet_of chain.now) }
    requires some { 4 ≤ length tag.now }
    requires most { length tag.now ≤ 16 }
    ensures { (key iv aad : List ℕ) → IsAbsorbed key iv aad ciphertext.entry []
        → (is_ok result ≡ bytes_eq tag.now (take (length tag.now) (gcm_tag (cipher key) iv aad (bytes_in range (packet_of chain.now)))))
        × IfOk result (λ plain. IsOpened key iv plain []) }
{
    let mut ciphertext = ciphertext;
    feed_range(&mut ciphertext, chain, range);
    ciphertext.verify(tag)
}

// Encrypts, and writes the tag of the ciphertext.
fn seal<C>(step: &AeadStep, op: &mut Op<C>, digest: &mut [u8; 64])
    requires { ready (input_for op.old.spec (packet_of (target_of op.old))) (Aead Dir.Encrypt step.now.key step.now.tag_len step.now.aad_len) }
    ensures works { (p : List ℕ)
        → worked (Aead Dir.Encrypt step.now.key step.now.tag_len step.now.aad_len) (input_for op.old.spec p) (work_of (target_of op.old) digest.old)
        ≡ Some (work_of (target_of op.new) digest.new) }
    ensures kept { op.new ≡ with_target op.old (target_of op.new) }
    ensures written { IsWritten (target_of op.old) (target_of op.new) }
{
    let iv = nonce(op.spec().iv.bytes());
    let (range, place, n) = (op.spec().cipher, op.spec().place, step.tag_len());
    let seal = GcmSeal::new(step.key(), iv, op.spec().aad.bytes());
    let tag = seal_range(seal, op.chain_mut(), range);
    write_digest(place, &tag[..n], op.chain_mut(), digest);
}

// Decrypts, where the tag is the ciphertext's.
fn open<C>(step: &AeadStep, op: &mut Op<C>, digest: &[u8; 64]) -> bool
    requires { ready (input_for op.old.spec (packet_of (target_of op.old))) (Aead Dir.Decrypt step.now.key step.now.tag_len step.now.aad_len) }
    ensures works { (p : List ℕ)
        → worked (Aead Dir.Decrypt step.now.key step.now.tag_len step.now.aad_len) (input_for op.old.spec p) (work_of (target_of op.old) digest.now)
        ≡ outcome result (work_of (target_of op.new) digest.now) }
    ensures kept { op.new ≡ with_target op.old (target_of op.new) }
    ensures written { IsWritten (target_of op.old) (target_of op.new) }
    ensures unless { result ≡ false → target_of op.new ≡ target_of op.old }
{
    let iv = nonce(op.spec().iv.bytes());
    let (range, n) = (op.spec().cipher, step.tag_len());
    let tag = read_digest(op.spec().place, n, op.chain(), digest);
    let ciphertext = GcmOpen::new(step.key(), iv, op.spec().aad.bytes());
    match verify_range(ciphertext, op.chain(), range, &tag[..n]) {
        Ok(plain) => {
            work_on(plain, op.chain_mut(), range);
            true
        }
        Err(BadTag) => false,
    }
}

fn aead_work<C>(step: &AeadStep, op: &mut Op<C>, digest: &mut [u8; 64]) -> bool
    requires { ready (input_for op.old.spec (packet_of (target_of op.old))) (Aead step.now.dir step.now.key step.now.tag_len step.now.aad_len) }
    ensures works { (p : List ℕ)
        → worked (Aead step.now.dir step.now.key step.now.tag_len step.now.aad_len) (input_for op.old.spec p) (work_of (target_of op.old) digest.old)
        ≡ outcome result (work_of (target_of op.new) digest.new) }
    ensures kept { op.new ≡ with_target op.old (target_of op.new) }
    ensures written { IsWritten (target_of op.old) (target_of op.new) }
    ensures unless { result ≡ false → target_of op.new ≡ target_of op.old }
{
    match step.dir() {
        Dir::Encrypt => {
            seal(step, op, digest);
            true
        }
        Dir::Decrypt => open(step, op, digest),
    }
}

/// One transform; false where a digest isn't the computed one.
pub(crate) fn step_work<C>(step: &Step, op: &mut Op<C>, digest: &mut [u8; 64]) -> bool
    requires { ready (input_for op.old.spec (packet_of (target_of op.old))) (plain step.now) }
    ensures works { (p : List ℕ)
        → worked (plain step.now) (input_for op.old.spec p) (work_of (target_of op.old) digest.old) ≡ outcome result (work_of (target_of op.new) digest.new) }
    ensures kept { op.new ≡ with_target op.old (target_of op.new) }
    ensures written { IsWritten (target_of op.old) (target_of op.new) }
    ensures unless { result ≡ false → target_of op.new ≡ target_of op.old }
{
    match step {
        Step::Cipher(step) => {
            cipher_work(step, op);
            true
        }
        Step::Auth(step) => auth_work(step, op, digest),
        Step::Aead(step) => aead_work(step, op, digest),
    }
}
