//! The exclusive or with key stream, in place.
ghost use Rattle.std.specs.Prelude.{◌≡◌, ◌≤◌, ◌++◌, length};
ghost use Rattle.aes_modes.specs.Counters.{joined};
ghost use Rattle.crypto_model.specs.Modes.{xor_with};

use std::simd::prelude::*;

// At any bytes, one by one.
pub(crate) fn xor_bytes(text: &mut [u8], stream: &[u8])
    requires { length text.old ≤ length stream.now }
    ensures { text.new ≡ xor_with text.old stream.now }
{
    for i in 0..text.len() {
        text[i] ^= stream[i];
    }
}

#[inline(always)]
pub(crate) fn xor_block(block: &mut [u8], stream: u8x16)
    requires { length block.old ≡ 16 }
    ensures { block.new ≡ xor_with block.old stream }
{
    (u8x16::from_slice(block) ^ stream).copy_to_slice(block);
}

#[inline(always)]
fn xor_two(blocks: &mut [u8], a: u8x16, b: u8x16)
    requires { length blocks.old ≡ 32 }
    ensures { blocks.new ≡ xor_with blocks.old (a ++ b) }
{
    let (first, second) = blocks.split_at_mut(16);
    xor_block(first, a);
    xor_block(second, b);
}

#[inline(always)]
pub(crate) fn xor_four(blocks: &mut [u8], a: u8x16, b: u8x16, c: u8x16, d: u8x16)
    requires { length blocks.old ≡ 64 }
    ensures { blocks.new ≡ xor_with blocks.old ((a ++ b) ++ (c ++ d)) }
{
    let (first, second) = blocks.split_at_mut(32);
    xor_two(first, a, b);
    xor_two(second, c, d);
}

#[inline(always)]
fn xor_pair(blocks: &mut [u8], stream: u8x32)
    requires { length blocks.old ≡ 32 }
    ensures { blocks.new ≡ xor_with blocks.old stream }
{
    (u8x32::from_slice(blocks) ^ stream).copy_to_slice(blocks);
}

#[inline(always)]
fn xor_two_pairs(blocks: &mut [u8], a: u8x32, b: u8x32)
    requires { length blocks.old ≡ 64 }
    ensures { blocks.new ≡ xor_with blocks.old (a ++ b) }
{
    let (first, second) = blocks.split_at_mut(32);
    xor_pair(first, a);
    xor_pair(second, b);
}

#[inline(always)]
fn xor_four_pairs(blocks: &mut [u8], a: u8x32, b: u8x32, c: u8x32, d: u8x32)
    requires { length blocks.old ≡ 128 }
    ensures xored { blocks.new ≡ xor_with blocks.old ((a ++ b) ++ (c ++ d)) }
    ensures long { length ((a ++ b) ++ (c ++ d)) ≡ 128 }
{
    let (first, second) = blocks.split_at_mut(64);
    xor_two_pairs(first, a, b);
    xor_two_pairs(second, c, d);
}

#[inline(always)]
pub(crate) fn xor_sixteen(blocks: &mut [u8], pairs: &[u8x32; 8])
    requires { length blocks.old ≡ 256 }
    ensures { blocks.new ≡ xor_with blocks.old (joined pairs.now) }
{
    let (first, second) = blocks.split_at_mut(128);
    xor_four_pairs(first, pairs[0], pairs[1], pairs[2], pairs[3]);
    xor_four_pairs(second, pairs[4], pairs[5], pairs[6], pairs[7]);
}
