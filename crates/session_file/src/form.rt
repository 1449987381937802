//! Lines by their number of words and their fixed words.
ghost use Rattle.std.specs.Prelude.{◌≡◌, option_map};
ghost use Rattle.session_file.specs.Form.{alg_of, dir_of, act_of, hash_of, part_at, parts_of, target_of, form_of};
ghost use Rattle.session_file.specs.View.{chain_view, form_view, part_view, target_view, texts};

use crate::part::{Chain, Part};
use crate::value::is;
use crypto_model::{Act, CipherAlg, Dir, Hash};

/// What a rule or the default line chooses.
#[derive(Clone, Copy)]
pub(crate) enum Target<'a> {
    Pass,
    Use { name: &'a [u8], skip: &'a [u8] },
}

/// A line, with the words in its places.
#[derive(Clone, Copy)]
pub(crate) enum Form<'a> {
    Session {
        name: &'a [u8],
        chain: Chain<'a>,
    },
    Rule {
        offset: &'a [u8],
        bytes: &'a [u8],
        target: Target<'a>,
    },
    Default {
        target: Target<'a>,
    },
}

#[tactic(auto, unfolding(crate::specs::Form::alg_of))]
fn alg_of(word: &[u8]) -> Option<CipherAlg>
    ensures { result ≡ alg_of word.now }
{
    if is(word, "cbc") {
        Some(CipherAlg::AesCbc)
    } else if is(word, "ctr") {
        Some(CipherAlg::AesCtr)
    } else {
        None
    }
}

#[tactic(auto, unfolding(crate::specs::Form::dir_of))]
fn dir_of(word: &[u8]) -> Option<Dir>
    ensures { result ≡ dir_of word.now }
{
    if is(word, "encrypt") {
        Some(Dir::Encrypt)
    } else if is(word, "decrypt") {
        Some(Dir::Decrypt)
    } else {
        None
    }
}

#[tactic(auto, unfolding(crate::specs::Form::act_of))]
fn act_of(word: &[u8]) -> Option<Act>
    ensures { result ≡ act_of word.now }
{
    if is(word, "generate") {
        Some(Act::Generate)
    } else if is(word, "verify") {
        Some(Act::Verify)
    } else {
        None
    }
}

#[tactic(auto, unfolding(crate::specs::Form::hash_of))]
fn hash_of(word: &[u8]) -> Option<Hash>
    ensures { result ≡ hash_of word.now }
{
    if is(word, "hmac-sha224") {
        Some(Hash::Sha224)
    } else if is(word, "hmac-sha256") {
        Some(Hash::Sha256)
    } else if is(word, "hmac-sha384") {
        Some(Hash::Sha384)
    } else if is(word, "hmac-sha512") {
        Some(Hash::Sha512)
    } else {
        None
    }
}

// An X at the front of the words, and the words behind it.
#[tactic(auto, unfolding(crate::specs::Form::part_at))]
fn split_part<'a, 'w>(words: &'w [&'a [u8]]) -> Option<(Part<'a>, &'w [&'a [u8]])>
    ensures { option_map (λ p. (part_view p.0, texts p.1.now)) result ≡ part_at (texts words.now) }
{
    let [kind, way, key, last, rest @ ..] = words else {
        return None;
    };
    if is(kind, "gcm") {
        let [tag_len, aad_len, rest @ ..] = rest else {
            return None;
        };
        let part = Part::Aead {
            dir: dir_of(way)?,
            key,
            salt: last,
            tag_len,
            aad_len,
        };
        return Some((part, rest));
    }
    if let Some(alg) = alg_of(kind) {
        let part = Part::Cipher {
            alg,
            dir: dir_of(way)?,
            key,
            salt: last,
        };
        return Some((part, rest));
    }
    let part = Part::Auth {
        hash: hash_of(kind)?,
        act: act_of(way)?,
        key,
        digest_len: last,
    };
    Some((part, rest))
}

// The chain that the words are.
#[tactic(auto, unfolding(crate::specs::Form::parts_of))]
fn chain_of<'a>(words: &[&'a [u8]]) -> Option<Chain<'a>>
    ensures { option_map chain_view result ≡ parts_of (texts words.now) }
{
    let (first, rest) = split_part(words)?;
    let [plus, rest @ ..] = rest else {
        return Some(Chain {
            first,
            second: None,
        });
    };
    if !is(plus, "+") {
        return None;
    }
    let (second, rest) = split_part(rest)?;
    if rest.is_empty() {
        Some(Chain {
            first,
            second: Some(second),
        })
    } else {
        None
    }
}

#[tactic(auto, unfolding(crate::specs::Form::target_of))]
fn target_of<'a>(words: &[&'a [u8]]) -> Option<Target<'a>>
    ensures { option_map target_view result ≡ target_of (texts words.now) }
{
    match words {
        [word] => {
            if is(word, "pass") {
                Some(Target::Pass)
            } else {
                None
            }
        }
        [name, skip] => Some(Target::Use { name, skip }),
        _ => None,
    }
}

// The form of a line's words.
#[tactic(auto, unfolding(crate::specs::Form::form_of))]
pub(crate) fn form_of<'a>(words: &[&'a [u8]]) -> Option<Form<'a>>
    ensures { option_map form_view result ≡ form_of (texts words.now) }
{
    let [first, rest @ ..] = words else {
        return None;
    };
    if is(first, "session") {
        let [name, rest @ ..] = rest else {
            return None;
        };
        let chain = chain_of(rest)?;
        return Some(Form::Session { name, chain });
    }
    if is(first, "rule") {
        let [offset, bytes, rest @ ..] = rest else {
            return None;
        };
        let target = target_of(rest)?;
        return Some(Form::Rule {
            offset,
            bytes,
            target,
        });
    }
    if is(first, "default") {
        let target = target_of(rest)?;
        return Some(Form::Default { target });
    }
    None
}
