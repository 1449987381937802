//! Words: fixed ones, and NUMBER, HEX and NAME.
ghost use Rattle.std.specs.Prelude.{◌≡◌, ◌<◌, ◌^◌, IfOk, IsTrue, bytes_eq, length};
ghost use Rattle.std.specs.Char.{is_ascii_digit};
ghost use Rattle.std.specs.List.{list_all};
ghost use Rattle.hex.specs.Hex.{is_hex_digit};
ghost use Rattle.session_file.specs.Value.{hex_bytes, is_hex, is_name, is_name_byte, is_number, number};

use crypto_model::OutOfMemory;
use std::alloc::Global;

pub(crate) fn is(word: &[u8], text: &str) -> bool
    ensures { result ≡ bytes_eq word.now text.now }
{
    word == text.as_bytes()
}

fn has_only_digits(word: &[u8]) -> bool
    ensures { result ≡ list_all is_ascii_digit word.now }
{
    word.iter().all(|b| b.is_ascii_digit())
}

#[tactic(auto, unfolding(crate::specs::Value::is_number))]
pub(crate) fn is_number(word: &[u8]) -> bool
    ensures { result ≡ is_number word.now }
{
    1 <= word.len() && word.len() <= 7 && has_only_digits(word)
}

fn has_only_hex_digits(word: &[u8]) -> bool
    ensures { result ≡ list_all is_hex_digit word.now }
{
    word.iter()
        .all(|b| matches!(*b, b'A'..=b'F' | b'a'..=b'f' | b'0'..=b'9'))
}

#[tactic(auto, unfolding(crate::specs::Value::is_hex))]
pub(crate) fn is_hex(word: &[u8]) -> bool
    ensures { result ≡ is_hex word.now }
{
    0 < word.len() && word.len() % 2 == 0 && has_only_hex_digits(word)
}

fn has_only_name_bytes(word: &[u8]) -> bool
    ensures { result ≡ list_all is_name_byte word.now }
{
    word.iter()
        .all(|b| matches!(*b, b'a'..=b'z' | b'0'..=b'9' | b'_' | b'-'))
}

#[tactic(auto, unfolding(crate::specs::Value::is_name))]
pub(crate) fn is_name(word: &[u8]) -> bool
    ensures { result ≡ is_name word.now }
{
    1 <= word.len() && word.len() <= 32 && has_only_name_bytes(word) && !is(word, "pass")
}

// The value of a NUMBER.
pub(crate) fn number(word: &[u8]) -> u32
    requires { IsTrue (is_number word.now) }
    ensures value { result ≡ number word.now }
    ensures small { result < 10 ^ 7 }
{
    let mut value: u32 = 0;
    for digit in word {
        value = value * 10 + u32::from(*digit - b'0');
    }
    value
}

// How many bytes a HEX says.
pub(crate) fn hex_len(word: &[u8]) -> usize
    requires { IsTrue (is_hex word.now) }
    ensures { result ≡ length (hex_bytes word.now) }
{
    word.len() / 2
}

// The bytes of a HEX.
pub(crate) fn hex_bytes(alloc: Global, word: &[u8]) -> Result<Vec<u8>, OutOfMemory>
    requires { IsTrue (is_hex word.now) }
    ensures { IfOk result (λ v. v.items ≡ hex_bytes word.now) }
{
    match hex::decode(alloc, word) {
        Ok(bytes) => Ok(bytes),
        Err(_) => Err(OutOfMemory),
    }
}
