//! SubBytes on two blocks at once, one in each half of a vector: as on one, with each table in both halves.
ghost use Rattle.std.specs.Prelude.{◌≡◌, ◌++◌, map, bit_xor};
ghost use Rattle.std.specs.Simd.Lanes.{Each1};
ghost use Rattle.crypto_model.specs.Field.{product, sub_byte};
ghost use Rattle.aes_core.specs.Nibbles.{IsPlace, place_t, place_u, read};
ghost use Rattle.aes_core.specs.Basis.{back};

use crate::tables::{
    BASIS_HIGH, BASIS_LOW, DOUBLE_T, DOUBLE_U, INVERSES, PLAIN_T, PLAIN_U, SCALED_INVERSES, SUB_T,
    SUB_U,
};
use std::simd::prelude::*;

// A block in both halves.
#[inline(always)]
pub(crate) fn twice(block: u8x16) -> u8x32
    ensures { result ≡ block ++ block }
{
    block.swizzle([
        0, 1, 2, 3, 4, 5, 6, 7, 8, 9, 10, 11, 12, 13, 14, 15, 0, 1, 2, 3, 4, 5, 6, 7, 8, 9, 10, 11,
        12, 13, 14, 15,
    ])
}

// Each half is looked up in its own copy of the table, which is one instruction where the processor has AVX2.
#[inline(always)]
pub(crate) fn look(table: u8x16, places: u8x32) -> u8x32
    requires { Each1 IsPlace places }
    ensures { result ≡ map (read table) places }
{
    twice(table).swizzle_dyn_within::<16>(places)
}

// The inversion: at which places the tables behind it are read.
#[inline(always)]
pub(crate) fn parts(y: u8x32) -> (u8x32, u8x32)
    ensures u { result.0 ≡ map place_u y }
    ensures t { result.1 ≡ map place_t y }
{
    let high = y >> u8x32::splat(4);
    let low = y & u8x32::splat(15);
    let both = low ^ high;
    let inverses = u8x16::from_array(INVERSES);
    let scaled = look(u8x16::from_array(SCALED_INVERSES), low);
    let first = look(inverses, high) ^ scaled;
    let second = look(inverses, both) ^ scaled;
    (look(inverses, first) ^ both, look(inverses, second) ^ high)
}

#[inline(always)]
pub(crate) fn into_basis(pair: u8x32) -> u8x32
    ensures { map back result ≡ pair }
{
    let high = look(u8x16::from_array(BASIS_HIGH), pair >> u8x32::splat(4));
    look(u8x16::from_array(BASIS_LOW), pair & u8x32::splat(15)) ^ high
}

// SubBytes and its double in the basis, each less the constant that the affine step gives it.
#[inline(always)]
pub(crate) fn substituted(y: u8x32) -> (u8x32, u8x32)
    ensures one { map back result.0 ≡ map (λ x. bit_xor (sub_byte x) 0x63) (map back y) }
    ensures two { map back result.1 ≡ map (λ x. bit_xor (product 2 (sub_byte x)) 0xc6) (map back y) }
{
    let (u, t) = parts(y);
    let one_t = look(u8x16::from_array(SUB_T), t);
    let two_t = look(u8x16::from_array(DOUBLE_T), t);
    (
        look(u8x16::from_array(SUB_U), u) ^ one_t,
        look(u8x16::from_array(DOUBLE_U), u) ^ two_t,
    )
}

// SubBytes, out of the basis.
#[inline(always)]
pub(crate) fn substituted_plainly(y: u8x32) -> u8x32
    ensures { result ≡ map sub_byte (map back y) }
{
    let (u, t) = parts(y);
    let plain_t = look(u8x16::from_array(PLAIN_T), t);
    look(u8x16::from_array(PLAIN_U), u) ^ plain_t ^ u8x32::splat(0x63)
}
