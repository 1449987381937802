//! `quick`.
ghost use Rattle.std.specs.Prelude.{◌≡◌, MatchOption, Ok, Err, map, string_bytes};
ghost use Rattle.command_words.specs.Quick.{key_of, salt_of};
ghost use Rattle.command_words.specs.Asked.{NotLegal, quick_asked};
ghost use Rattle.command_words.specs.Gives.{quick_view};

use aes_core::Key;
use hex::FromHex;

/// The key of one CTR session for every packet, and the salt of its counters.
#[derive(Drop)]
pub struct Quick {
    pub key: Key,
    pub salt: [u8; 4],
}

fn key_in(text: &str) -> Option<Key>
    ensures { result ≡ key_of text.now }
{
    if let Ok(key) = <[u8; 16] as FromHex>::from_hex(text) {
        return Key::expand(&key).ok();
    }
    if let Ok(key) = <[u8; 24] as FromHex>::from_hex(text) {
        return Key::expand(&key).ok();
    }
    match <[u8; 32] as FromHex>::from_hex(text) {
        Ok(key) => Key::expand(&key).ok(),
        Err(_) => None,
    }
}

fn salt_in(text: &str) -> Option<[u8; 4]>
    ensures { result ≡ salt_of text.now }
{
    <[u8; 4] as FromHex>::from_hex(text).ok()
}

// What the words behind `quick` ask for.
pub(crate) fn quick_of(words: &[String]) -> Option<Quick>
    ensures { let said = quick_asked (map string_bytes words.now)
        in MatchOption result (said ≡ Err NotLegal) (λ q. said ≡ Ok (quick_view q)) }
{
    let [key, salt] = words else {
        return None;
    };
    let key = key_in(key.as_str())?;
    let salt = salt_in(salt.as_str())?;
    Some(Quick { key, salt })
}
