//! Blocks as numbers, of which byte 0 is the most significant byte.
ghost use Rattle.std.specs.Prelude.{◌≡◌};
ghost use Rattle.crypto_model.specs.Gcm.{bits_128, bits_of, bytes_of};

#[inline(always)]
pub(crate) fn number(block: [u8; 16]) -> u128
    ensures { bits_128 result ≡ bits_of block }
{
    u128::from_be_bytes(block)
}

pub(crate) fn block(number: u128) -> [u8; 16]
    ensures { result ≡ bytes_of (bits_128 number) }
{
    number.to_be_bytes()
}
