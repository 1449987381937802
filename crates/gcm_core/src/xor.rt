//! The exclusive or with key stream, in place.
ghost use Rattle.std.specs.Prelude.{◌≡◌, length};
ghost use Rattle.crypto_model.specs.Modes.{xor_with};

use std::simd::prelude::*;

#[inline(always)]
pub(crate) fn xor_block(block: &mut [u8], stream: u8x16)
    requires { length block.old ≡ 16 }
    ensures { block.new ≡ xor_with block.old stream }
{
    (u8x16::from_slice(block) ^ stream).copy_to_slice(block);
}
