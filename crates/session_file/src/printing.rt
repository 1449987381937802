//! A plan as its text.
ghost use Rattle.std.specs.Prelude.{◌≡◌, ◌++◌, OnOk, IfOk, decimal};
ghost use Rattle.std.specs.List.{flat_map};
ghost use Rattle.hex.specs.Hex.{encode_lower};
ghost use Rattle.session_file.specs.Spelling.{act_word, alg_word, chain_text, choice_text, default_text, dir_word, hash_word, name_at, rule_text, session_text, spaced, spelling, xform_text};

use crate::plan::{Choice, Named, Plan, Rule};
use crypto_model::{Act, CipherAlg, Dir, Hash, OutOfMemory};
use std::alloc::Global;
use sym_session::Xform;

fn put(out: &mut Vec<u8>, text: &[u8]) -> Result<(), OutOfMemory>
    ensures { OnOk result (out.new.items ≡ out.old.items ++ text.now) }
{
    out.extend_from_slice(text)?;
    Ok(())
}

fn put_word(out: &mut Vec<u8>, word: &[u8]) -> Result<(), OutOfMemory>
    ensures { OnOk result (out.new.items ≡ out.old.items ++ spaced word.now) }
{
    put(out, b" ")?;
    put(out, word)
}

fn put_hex(alloc: Global, out: &mut Vec<u8>, bytes: &[u8]) -> Result<(), OutOfMemory>
    ensures { OnOk result (out.new.items ≡ out.old.items ++ spaced (encode_lower bytes.now)) }
{
    let text = hex::encode(alloc, bytes)?;
    put_word(out, text.as_bytes())
}

fn put_number(out: &mut Vec<u8>, number: u64) -> Result<(), OutOfMemory>
    ensures { OnOk result (out.new.items ≡ out.old.items ++ spaced (decimal number)) }
{
    let mut buffer = itoa::Buffer::new();
    put_word(out, buffer.format(number).as_bytes())
}

fn alg_word(alg: CipherAlg) -> &'static [u8]
    ensures { result.now ≡ alg_word alg }
{
    match alg {
        CipherAlg::AesCbc => b"cbc",
        CipherAlg::AesCtr => b"ctr",
    }
}

fn dir_word(dir: Dir) -> &'static [u8]
    ensures { result.now ≡ dir_word dir }
{
    match dir {
        Dir::Encrypt => b"encrypt",
        Dir::Decrypt => b"decrypt",
    }
}

fn act_word(act: Act) -> &'static [u8]
    ensures { result.now ≡ act_word act }
{
    match act {
        Act::Generate => b"generate",
        Act::Verify => b"verify",
    }
}

fn hash_word(hash: Hash) -> &'static [u8]
    ensures { result.now ≡ hash_word hash }
{
    match hash {
        Hash::Sha224 => b"hmac-sha224",
        Hash::Sha256 => b"hmac-sha256",
        Hash::Sha384 => b"hmac-sha384",
        Hash::Sha512 => b"hmac-sha512",
    }
}

#[tactic(auto, unfolding(crate::specs::Spelling::xform_text))]
fn put_xform(
    alloc: Global,
    out: &mut Vec<u8>,
    salt: &[u8],
    xform: &Xform,
) -> Result<(), OutOfMemory>
    ensures { OnOk result (out.new.items ≡ out.old.items ++ xform_text salt.now xform.now) }
{
    match xform {
        Xform::Cipher { alg, dir, key } => {
            put_word(out, alg_word(*alg))?;
            put_word(out, dir_word(*dir))?;
            put_hex(alloc, out, key.bytes())?;
            put_hex(alloc, out, salt)
        }
        Xform::Aead {
            dir,
            key,
            tag_len,
            aad_len,
        } => {
            put_word(out, b"gcm")?;
            put_word(out, dir_word(*dir))?;
            put_hex(alloc, out, key.bytes())?;
            put_hex(alloc, out, salt)?;
            put_number(out, *tag_len as u64)?;
            put_number(out, *aad_len as u64)
        }
        Xform::Auth {
            hash,
            act,
            key,
            digest_len,
        } => {
            put_word(out, hash_word(*hash))?;
            put_word(out, act_word(*act))?;
            put_hex(alloc, out, key.bytes())?;
            put_number(out, *digest_len as u64)
        }
    }
}

#[tactic(auto, unfolding(crate::specs::Spelling::chain_text))]
fn put_chain(
    alloc: Global,
    out: &mut Vec<u8>,
    salt: &[u8],
    xforms: &[Xform],
) -> Result<(), OutOfMemory>
    ensures { OnOk result (out.new.items ≡ out.old.items ++ chain_text salt.now xforms.now) }
{
    match xforms {
        [] => Ok(()),
        [only] => put_xform(alloc, out, salt, only),
        [first, second, ..] => {
            put_xform(alloc, out, salt, first)?;
            put_word(out, b"+")?;
            put_xform(alloc, out, salt, second)
        }
    }
}

#[tactic(auto, unfolding(crate::specs::Spelling::session_text))]
fn put_session(alloc: Global, out: &mut Vec<u8>, session: &Named) -> Result<(), OutOfMemory>
    ensures { OnOk result (out.new.items ≡ out.old.items ++ session_text session.now) }
{
    put(out, b"session")?;
    put_word(out, session.name.items())?;
    put_chain(alloc, out, session.salt.items(), session.xforms.items())?;
    put(out, b"\n")
}

fn name_at(sessions: &[Named], place: u32) -> &[u8]
    ensures { result.now ≡ name_at sessions.now place }
{
    match sessions.get(place as usize) {
        Some(session) => session.name.items(),
        None => &[],
    }
}

#[tactic(auto, unfolding(crate::specs::Spelling::choice_text))]
fn put_choice(out: &mut Vec<u8>, sessions: &[Named], choice: Choice) -> Result<(), OutOfMemory>
    ensures { OnOk result (out.new.items ≡ out.old.items ++ choice_text sessions.now choice) }
{
    match choice {
        Choice::Pass => put_word(out, b"pass"),
        Choice::Use { session, skip } => {
            put_word(out, name_at(sessions, session.0))?;
            put_number(out, u64::from(skip))
        }
    }
}

#[tactic(auto, unfolding(crate::specs::Spelling::rule_text))]
fn put_rule(
    alloc: Global,
    out: &mut Vec<u8>,
    sessions: &[Named],
    rule: &Rule,
) -> Result<(), OutOfMemory>
    ensures { OnOk result (out.new.items ≡ out.old.items ++ rule_text sessions.now rule.now) }
{
    put(out, b"rule")?;
    put_number(out, u64::from(rule.offset))?;
    put_hex(alloc, out, rule.bytes.items())?;
    put_choice(out, sessions, rule.choice)?;
    put(out, b"\n")
}

#[tactic(auto, unfolding(crate::specs::Spelling::default_text))]
fn put_default(out: &mut Vec<u8>, sessions: &[Named], choice: Choice) -> Result<(), OutOfMemory>
    ensures { OnOk result (out.new.items ≡ out.old.items ++ default_text sessions.now choice) }
{
    put(out, b"default")?;
    put_choice(out, sessions, choice)?;
    put(out, b"\n")
}

fn put_sessions(alloc: Global, out: &mut Vec<u8>, sessions: &[Named]) -> Result<(), OutOfMemory>
    ensures { OnOk result (out.new.items ≡ out.old.items ++ flat_map session_text sessions.now) }
{
    for session in sessions {
        put_session(alloc, out, session)?;
    }
    Ok(())
}

fn put_rules(
    alloc: Global,
    out: &mut Vec<u8>,
    sessions: &[Named],
    rules: &[Rule],
) -> Result<(), OutOfMemory>
    ensures { OnOk result (out.new.items ≡ out.old.items ++ flat_map (rule_text sessions.now) rules.now) }
{
    for rule in rules {
        put_rule(alloc, out, sessions, rule)?;
    }
    Ok(())
}

/// The text of a plan: its sessions, then its rules, then its default, with single spaces, lower-case digits,
/// numbers without leading zeros and an LF behind each line. Of a plan that some text says, it is a text that
/// says this plan, by [`read_again`](crate::read_again).
#[tactic(auto, unfolding(crate::specs::Spelling::spelling))]
pub fn print(alloc: Global, plan: &Plan) -> Result<Vec<u8>, OutOfMemory>
    ensures { IfOk result (λ text. text.items ≡ spelling plan.now) }
{
    let mut out = Vec::new(alloc);
    let sessions = plan.sessions.items();
    put(&mut out, b"capcrypt 1\n")?;
    put_sessions(alloc, &mut out, sessions)?;
    put_rules(alloc, &mut out, sessions, plan.rules.items())?;
    put_default(&mut out, sessions, plan.otherwise)?;
    Ok(out)
}
