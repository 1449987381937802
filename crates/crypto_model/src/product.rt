//! The product that GHASH is made of, bit by bit.
ghost use Rattle.std.specs.Prelude.{◌≡◌};
ghost use Rattle.crypto_model.specs.Gcm.{bits_128, block_product, times_x};

// What comes back in front where x ^ 127 is multiplied by x: 1 + x + x ^ 2 + x ^ 7.
const R: u128 = 0xe1 << 120;

/// The product with x (SP 800-38D, 6.3, step 3), of a block as a number.
pub fn times_x(v: u128) -> u128
    ensures { bits_128 result ≡ times_x (bits_128 v) }
{
    if v % 2 == 1 { (v >> 1) ^ R } else { v >> 1 }
}

/// The product of two blocks (SP 800-38D, 6.3), as numbers of which byte 0 is the most significant
/// byte: the highest bit is the coefficient of x ^ 0.
pub fn slow_product(x: u128, y: u128) -> u128
    ensures { bits_128 result ≡ block_product (bits_128 x) (bits_128 y) }
{
    let mut z = 0;
    let mut v = y;
    'bits: for i in 0..128_u32 {
        if (x >> (127 - i)) % 2 == 1 {
            z ^= v;
        }
        v = times_x(v);
    }
    z
}

#[cfg(test)]
mod tests;
