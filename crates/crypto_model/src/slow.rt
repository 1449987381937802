//! AES in the standard's own steps: the key schedule, and a cipher that fast code is compared with.
ghost use Rattle.std.specs.Prelude.{◌++◌, drop, ◌-◌, ◌/◌, take, ◌≡◌, ◌+◌, ◌*◌, ◌<◌, ◌≤◌, ◌↔◌, ℕ, length, slice_index, IsTrue, IfOk, IsErr};
ghost use Rattle.crypto_model.specs.Field.{inverse, product, sub_byte};
ghost use Rattle.crypto_model.specs.Aes.{IsKeyLength, is_key_length, add_round_key, cipher, cipher_with, expanded, mix_columns, mixed, next_word, power, rot_word, rounds, rounds_of, shift_rows, sub_bytes, sub_word, temp, word_of, xor_words};

use thiserror::Error;

/// A key that isn't 16, 24 or 32 bytes long.
#[derive(Clone, Copy, Debug, PartialEq, Eq, Error)]
#[error("the key isn't 16, 24 or 32 bytes long")]
pub struct BadKeyLength;

/// Whether a key can have this length: 16, 24 or 32 bytes (FIPS 197, 5).
pub fn is_key_length(len: usize) -> bool
    ensures says { IsTrue result ↔ IsKeyLength len }
    ensures value { result ≡ is_key_length len }
{
    matches!(len, 16 | 24 | 32)
}

// The product of two bytes in GF(2^8).
fn field_product(a: u8, b: u8) -> u8
    ensures { result ≡ product a b }
{
    let mut p: u16 = 0;
    'bits: for n in 0..8u16 {
        if (b as u16 >> n) & 1 == 1 {
            p ^= (a as u16) << n;
        }
    }
    'degrees: for n in 0..8u16 {
        if (p >> (15 - n)) & 1 == 1 {
            p ^= 0x11b << (7 - n);
        }
    }
    p as u8
}

// The number whose product with `b` is 1, and 0 for 0.
fn field_inverse(b: u8) -> u8
    ensures { result ≡ inverse b }
{
    let mut found: u8 = 0;
    'numbers: for n in 0..256u16 {
        if field_product(b, n as u8) == 1 {
            found = n as u8;
        }
    }
    found
}

/// A way to compute SubBytes.
pub trait Substitution {
    /// SubBytes on a byte (FIPS 197, 5.1.1).
    fn sub_byte(byte: u8) -> u8
        ensures { result ≡ sub_byte byte };
}

// SubBytes by a search for the inverse, with no table.
struct BySearch;

impl Substitution for BySearch {
    fn sub_byte(byte: u8) -> u8 {
        let c = field_inverse(byte);
        c ^ c.rotate_left(1) ^ c.rotate_left(2) ^ c.rotate_left(3) ^ c.rotate_left(4) ^ 0x63
    }
}

fn sub_bytes(s: [u8; 16]) -> [u8; 16]
    ensures { result ≡ sub_bytes s }
{
    let mut out = [0; 16];
    'bytes: for i in 0..16 {
        out[i] = BySearch::sub_byte(s[i]);
    }
    out
}

fn shift_rows(s: [u8; 16]) -> [u8; 16]
    ensures { result ≡ shift_rows s }
{
    let mut out = [0; 16];
    'bytes: for i in 0..16 {
        out[i] = s[(i + 4 * (i % 4)) % 16];
    }
    out
}

// Byte `i` of the state with its columns mixed by the matrix whose first row is given.
fn mixed(row: [u8; 4], s: &[u8; 16], i: usize) -> u8
    requires { i < 16 }
    ensures { result ≡ mixed (slice_index row 0) (slice_index row 1) (slice_index row 2) (slice_index row 3) s.now i }
{
    let column = i / 4 * 4;
    field_product(row[0], s[column + i % 4])
        ^ field_product(row[1], s[column + (i + 1) % 4])
        ^ field_product(row[2], s[column + (i + 2) % 4])
        ^ field_product(row[3], s[column + (i + 3) % 4])
}

fn mix_columns(s: [u8; 16]) -> [u8; 16]
    ensures { result ≡ mix_columns s }
{
    let mut out = [0; 16];
    'bytes: for i in 0..16 {
        out[i] = mixed([2, 3, 1, 1], &s, i);
    }
    out
}

fn add_round_key(w: &[u8], r: usize, s: [u8; 16]) -> [u8; 16]
    requires { 16 * r + 16 ≤ length w.now }
    ensures { result ≡ add_round_key w.now r s }
{
    let mut out = [0; 16];
    'bytes: for i in 0..16 {
        out[i] = s[i] ^ w[16 * r + i];
    }
    out
}

// x ^ 0, x ^ 1 and so on, as far as a schedule asks for them (FIPS 197, 5.2: Rcon).
const ROUND_CONSTANTS: [u8; 10] = [0x01, 0x02, 0x04, 0x08, 0x10, 0x20, 0x40, 0x80, 0x1b, 0x36];

fn power(n: usize) -> u8
    requires { n < 10 }
    ensures { result ≡ power n }
{
    ROUND_CONSTANTS[n]
}

fn word_of(w: &[u8], i: usize) -> [u8; 4]
    requires { 4 * i + 4 ≤ length w.now }
    ensures { result ≡ word_of w.now i }
{
    [w[4 * i], w[4 * i + 1], w[4 * i + 2], w[4 * i + 3]]
}

fn rot_word(t: [u8; 4]) -> [u8; 4]
    ensures { result ≡ rot_word t }
{
    [t[1], t[2], t[3], t[0]]
}

fn sub_word<S: Substitution>(t: [u8; 4]) -> [u8; 4]
    ensures { result ≡ sub_word t }
{
    [
        S::sub_byte(t[0]),
        S::sub_byte(t[1]),
        S::sub_byte(t[2]),
        S::sub_byte(t[3]),
    ]
}

fn xor_words(s: [u8; 4], t: [u8; 4]) -> [u8; 4]
    ensures { result ≡ xor_words s t }
{
    [s[0] ^ t[0], s[1] ^ t[1], s[2] ^ t[2], s[3] ^ t[3]]
}

// What is added to word `i - nk` (FIPS 197, 5.2).
fn temp<S: Substitution>(nk: usize, w: &[u8], i: usize) -> [u8; 4]
    requires low { 4 ≤ nk }
    requires word { nk ≤ i }
    requires last { i < 4 * (nk + 7) }
    requires room { 4 * i ≤ length w.now }
    ensures { result ≡ temp nk w.now i }
{
    let t = word_of(w, i - 1);
    if i % nk == 0 {
        let rcon = [power(i / nk - 1), 0, 0, 0];
        xor_words(sub_word::<S>(rot_word(t)), rcon)
    } else if nk == 8 && i % 8 == 4 {
        sub_word::<S>(t)
    } else {
        t
    }
}

// Word `i` of the key schedule from the words before it.
fn next_word<S: Substitution>(nk: usize, w: &[u8], i: usize) -> [u8; 4]
    requires low { 4 ≤ nk }
    requires word { nk ≤ i }
    requires last { i < 4 * (nk + 7) }
    requires room { 4 * i ≤ length w.now }
    ensures { result ≡ next_word nk w.now i }
{
    xor_words(word_of(w, i - nk), temp::<S>(nk, w, i))
}

fn put(list: &mut [u8], at: usize, bytes: &[u8])
    requires { at + length bytes.now ≤ length list.old }
    ensures { list.new ≡ take at list.old ++ bytes.now ++ drop (at + length bytes.now) list.old }
{
    list[at..at + bytes.len()].copy_from_slice(bytes);
}

/// The key schedule of AES (FIPS 197, 5.2), at the front of the array.
pub fn expanded<S: Substitution>(key: &[u8]) -> [u8; 240]
    requires { IsKeyLength (length key.now) }
    ensures schedule { take (16 * (rounds_of key.now + 1)) result ≡ expanded key.now }
    ensures begins { take (length key.now) result ≡ key.now }
{
    let nk = key.len() / 4;
    let mut w = [0; 240];
    put(&mut w, 0, key);
    'words: for i in nk..4 * (nk + 7) {
        let word = next_word::<S>(nk, &w[..4 * i], i);
        put(&mut w, 4 * i, &word);
    }
    w
}

fn cipher_with(w: &[u8], rounds: usize, block: [u8; 16]) -> [u8; 16]
    requires some { 1 ≤ rounds }
    requires room { 16 * rounds + 16 ≤ length w.now }
    ensures { result ≡ cipher_with w.now rounds block }
{
    let mut s = add_round_key(w, 0, block);
    'rounds: for r in 1..rounds {
        s = add_round_key(w, r, mix_columns(shift_rows(sub_bytes(s))));
    }
    add_round_key(w, rounds, shift_rows(sub_bytes(s)))
}

/// The cipher of AES (FIPS 197, 5.1), a byte at a time, with no table but the ten round constants. A block takes about a
/// million steps.
pub fn slow_encrypt(key: &[u8], block: [u8; 16]) -> Result<[u8; 16], BadKeyLength>
    ensures ok { IfOk result (λ c. c ≡ cipher key.now block) }
    ensures refused { IsErr result ↔ ¬ (IsKeyLength (length key.now)) }
{
    if !is_key_length(key.len()) {
        return Err(BadKeyLength);
    }
    let rounds = key.len() / 4 + 6;
    let w = expanded::<BySearch>(key);
    Ok(cipher_with(&w[..16 * (rounds + 1)], rounds, block))
}
