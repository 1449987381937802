//! CTR (SP 800-38A, 6.5).
ghost use Rattle.std.specs.Prelude.{◌≡◌, ◌<◌, ◌≤◌, ◌+◌, ◌%◌, ◌^◌, ◌++◌, List, [], ℕ, length};
ghost use Rattle.aes_modes.specs.Counters.{counter_pairs, key_stream, words_of};
ghost use Rattle.crypto_model.specs.Aes.{cipher};
ghost use Rattle.crypto_model.specs.Modes.{counter_block, ctr};

use crate::lanes::write_four;
use crate::xor::{xor_bytes, xor_four, xor_sixteen};
use aes_core::{Key, encrypt, encrypt_four, encrypt_sixteen};
use std::simd::prelude::*;

// The bytes of four blocks, which cost little more than one where they are encrypted together.
const GROUP: usize = 64;

/// Key stream of CTR (SP 800-38A, 6.5) from a first counter block on, laid over pieces of any
/// length.
#[derive(Drop)]
pub struct Ctr<'a> {
    key: &'a Key,
    // Of the block behind those that are begun.
    counter: u128,
    // The key stream of the blocks that were begun last, at the end, and how many bytes of all are used or never were begun.
    stream: [u8; GROUP],
    used: usize,
    ghost within: { used ≤ 64 },
}

// A counter goes by two words, since the bytes of a `u128` would go through memory.
#[inline(always)]
fn counter_words(counter: u128) -> u64x2
    ensures { result ≡ words_of counter }
{
    let high = (counter >> 64) as u64;
    let low = (counter % (1 << 64)) as u64;
    u64x2::from_array([low, high])
}

// The words of the counter `i` later, where the lower one has room.
#[inline(always)]
fn later_words(words: u64x2, i: u64) -> u64x2
    ensures { (t : ℕ) → t < 2 ^ 128 → words ≡ words_of t → t % 2 ^ 64 + i < 2 ^ 64 → result ≡ words_of ((t + i) % 2 ^ 128) }
{
    words + u64x2::from_array([i, 0])
}

#[inline(always)]
fn block_of_words(words: u64x2) -> u8x16
    ensures { (t : ℕ) → words ≡ words_of t → result ≡ counter_block t }
{
    words.to_le_bytes().reverse()
}

#[inline(always)]
fn counter_lanes(counter: u128) -> u8x16
    ensures { result ≡ counter_block counter }
{
    block_of_words(counter_words(counter))
}

#[inline(always)]
fn pair_of_words(first: u64x2, second: u64x2) -> u8x32
    ensures { (s t : ℕ) → first ≡ words_of s → second ≡ words_of t → result ≡ counter_block s ++ counter_block t }
{
    block_of_words(first).shuffle(
        block_of_words(second),
        [
            0, 1, 2, 3, 4, 5, 6, 7, 8, 9, 10, 11, 12, 13, 14, 15, 16, 17, 18, 19, 20, 21, 22, 23,
            24, 25, 26, 27, 28, 29, 30, 31,
        ],
    )
}

// Sixteen counter blocks, where the lower word has room for them.
#[inline(always)]
fn pairs_with_room(first: u128) -> [u8x32; 8]
    requires { first % 2 ^ 64 + 15 < 2 ^ 64 }
    ensures { result ≡ counter_pairs first 0 8 }
{
    let w = counter_words(first);
    [
        pair_of_words(later_words(w, 0), later_words(w, 1)),
        pair_of_words(later_words(w, 2), later_words(w, 3)),
        pair_of_words(later_words(w, 4), later_words(w, 5)),
        pair_of_words(later_words(w, 6), later_words(w, 7)),
        pair_of_words(later_words(w, 8), later_words(w, 9)),
        pair_of_words(later_words(w, 10), later_words(w, 11)),
        pair_of_words(later_words(w, 12), later_words(w, 13)),
        pair_of_words(later_words(w, 14), later_words(w, 15)),
    ]
}

#[inline(always)]
fn pair_from(counter: u128) -> u8x32
    ensures { result ≡ counter_block counter ++ counter_block ((counter + 1) % 2 ^ 128) }
{
    pair_of_words(
        counter_words(counter),
        counter_words(counter.wrapping_add(1)),
    )
}

// Sixteen counter blocks, where the lower word overflows among them.
fn pairs_by_steps(first: u128) -> [u8x32; 8]
    ensures { result ≡ counter_pairs first 0 8 }
{
    [
        pair_from(first),
        pair_from(first.wrapping_add(2)),
        pair_from(first.wrapping_add(4)),
        pair_from(first.wrapping_add(6)),
        pair_from(first.wrapping_add(8)),
        pair_from(first.wrapping_add(10)),
        pair_from(first.wrapping_add(12)),
        pair_from(first.wrapping_add(14)),
    ]
}

#[inline(always)]
fn counter_pairs(first: u128) -> [u8x32; 8]
    ensures { result ≡ counter_pairs first 0 8 }
{
    if first % (1 << 64) + 15 < 1 << 64 {
        pairs_with_room(first)
    } else {
        pairs_by_steps(first)
    }
}

// The key stream of four blocks.
#[inline(always)]
fn four_blocks(key: &Key, first: u128) -> (u8x16, u8x16, u8x16, u8x16)
    ensures { (result.0 ++ result.1) ++ (result.2 ++ result.3) ≡ key_stream (cipher key.now) first 4 }
{
    encrypt_four(
        key,
        counter_lanes(first),
        counter_lanes(first.wrapping_add(1)),
        counter_lanes(first.wrapping_add(2)),
        counter_lanes(first.wrapping_add(3)),
    )
}

impl<'a> Ctr<'a> {
    ghost use Rattle.aes_modes.specs.Feeding.{IsFed, Feeds};

    /// From this counter block on.
    pub fn new(key: &'a Key, counter: [u8; 16]) -> Ctr<'a>
        ensures { IsFed key.now counter result [] }
    {
        Ctr {
            key,
            counter: u128::from_be_bytes(counter),
            stream: [0; GROUP],
            used: GROUP,
        }
    }

    /// Encrypts or decrypts a piece in place.
    pub fn feed(&mut self, piece: &mut [u8])
        ensures { (key iv text : List ℕ) → IsFed key iv self.old text
            → IsFed key iv self.new (text ++ piece.old)
            × (ctr (cipher key) iv (text ++ piece.old) ≡ ctr (cipher key) iv text ++ piece.new) }
    {
        let left = piece.len().min(GROUP - self.used);
        let (begun, rest) = piece.split_at_mut(left);
        self.feed_begun(begun);
        if rest.is_empty() {
            return;
        }
        let whole = rest.len() / 256 * 256;
        let (sixteens, rest) = rest.split_at_mut(whole);
        self.feed_sixteens(sixteens);
        let whole = rest.len() / GROUP * GROUP;
        let (groups, last) = rest.split_at_mut(whole);
        self.feed_groups(groups);
        self.feed_last(last);
    }

    // At most as many bytes as the begun blocks have left.
    fn feed_begun(&mut self, piece: &mut [u8])
        requires { self.old.used + length piece.old ≤ 64 }
        ensures fed { Feeds self.old self.new piece.old piece.new }
        ensures used { self.new.used ≡ self.old.used + length piece.old }
    {
        xor_bytes(piece, &self.stream[self.used..]);
        self.used += piece.len();
    }

    // Groups of sixteen blocks.
    fn feed_sixteens(&mut self, piece: &mut [u8])
        requires used_up { self.old.used ≡ 64 }
        requires whole { length piece.old % 256 ≡ 0 }
        ensures fed { Feeds self.old self.new piece.old piece.new }
        ensures used_up { self.new.used ≡ 64 }
    {
        let mut at = 0;
        while at < piece.len() {
            self.feed_sixteen(&mut piece[at..at + 256]);
            at += 256;
        }
    }

    #[inline(always)]
    fn feed_sixteen(&mut self, group: &mut [u8])
        requires used_up { self.old.used ≡ 64 }
        requires whole { length group.old ≡ 256 }
        ensures fed { Feeds self.old self.new group.old group.new }
        ensures used_up { self.new.used ≡ 64 }
    {
        let first = self.counter;
        let stream = encrypt_sixteen(self.key, &counter_pairs(first));
        xor_sixteen(group, &stream);
        self.counter = first.wrapping_add(16);
    }

    // Groups of four blocks.
    fn feed_groups(&mut self, piece: &mut [u8])
        requires used_up { self.old.used ≡ 64 }
        requires whole { length piece.old % 64 ≡ 0 }
        ensures fed { Feeds self.old self.new piece.old piece.new }
        ensures used_up { self.new.used ≡ 64 }
    {
        let mut at = 0;
        while at < piece.len() {
            self.feed_group(&mut piece[at..at + GROUP]);
            at += GROUP;
        }
    }

    #[inline(always)]
    fn feed_group(&mut self, group: &mut [u8])
        requires used_up { self.old.used ≡ 64 }
        requires whole { length group.old ≡ 64 }
        ensures fed { Feeds self.old self.new group.old group.new }
        ensures used_up { self.new.used ≡ 64 }
    {
        let first = self.counter;
        let (a, b, c, d) = four_blocks(self.key, first);
        xor_four(group, a, b, c, d);
        self.counter = first.wrapping_add(4);
    }

    // The bytes behind the last whole group. Four blocks at once cost less than three, one by one.
    fn feed_last(&mut self, piece: &mut [u8])
        requires used_up { self.old.used ≡ 64 }
        requires short { length piece.old < 64 }
        ensures fed { Feeds self.old self.new piece.old piece.new }
    {
        if piece.len() > 32 {
            self.begin_group();
            self.feed_begun(piece);
            return;
        }
        let (first, second) = piece.split_at_mut(piece.len().min(16));
        self.feed_block(first);
        self.feed_block(second);
    }

    // At most a block, behind used ones.
    fn feed_block(&mut self, piece: &mut [u8])
        requires used_up { 0 < length piece.old → self.old.used ≡ 64 }
        requires short { length piece.old ≤ 16 }
        ensures fed { Feeds self.old self.new piece.old piece.new }
        ensures used_up { length piece.old ≡ 16 → self.new.used ≡ 64 }
    {
        if piece.is_empty() {
            return;
        }
        self.begin_block();
        self.feed_begun(piece);
    }

    fn begin_group(&mut self)
        requires { self.old.used ≡ 64 }
        ensures fed { Feeds self.old self.new [] [] }
        ensures used { self.new.used ≡ 0 }
    {
        let (a, b, c, d) = four_blocks(self.key, self.counter);
        write_four(&mut self.stream, a, b, c, d);
        self.counter = self.counter.wrapping_add(4);
        self.used = 0;
    }

    fn begin_block(&mut self)
        requires { self.old.used ≡ 64 }
        ensures fed { Feeds self.old self.new [] [] }
        ensures used { self.new.used ≡ 48 }
    {
        let mut block = self.counter.to_be_bytes();
        encrypt(self.key, &mut block);
        self.stream[48..].copy_from_slice(&block);
        self.counter = self.counter.wrapping_add(1);
        self.used = 48;
    }
}
