//! Vectors that are written to bytes.
ghost use Rattle.std.specs.Prelude.{◌≡◌, ◌++◌, length};

use std::simd::prelude::*;

#[inline(always)]
fn write_two(blocks: &mut [u8], a: u8x16, b: u8x16)
    requires { length blocks.old ≡ 32 }
    ensures { blocks.new ≡ a ++ b }
{
    let (first, second) = blocks.split_at_mut(16);
    a.copy_to_slice(first);
    b.copy_to_slice(second);
}

#[inline(always)]
pub(crate) fn write_four(blocks: &mut [u8], a: u8x16, b: u8x16, c: u8x16, d: u8x16)
    requires { length blocks.old ≡ 64 }
    ensures { blocks.new ≡ (a ++ b) ++ (c ++ d) }
{
    let (first, second) = blocks.split_at_mut(32);
    write_two(first, a, b);
    write_two(second, c, d);
}
