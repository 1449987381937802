//! Products with one block by a table. The highest bit of a number is the coefficient of x ^ 0.
ghost use Rattle.std.specs.Prelude.{◌≡◌, List, ℕ, length};
ghost use Rattle.crypto_model.specs.Gcm.{bits_128, block_product};
ghost use Rattle.gcm_core.specs.Tables.{IsRow, IsTable};

use crypto_model::times_x;

// Entry n is the product with the polynomial whose coefficients are the four bits of n, the highest first.
fn row(v: u128) -> [u128; 16]
    ensures { IsRow (bits_128 v) result }
{
    let e8 = v;
    let e4 = times_x(e8);
    let e2 = times_x(e4);
    let e1 = times_x(e2);
    let e3 = e2 ^ e1;
    let e5 = e4 ^ e1;
    let e6 = e4 ^ e2;
    let e7 = e4 ^ e3;
    let e9 = e8 ^ e1;
    let e10 = e8 ^ e2;
    let e11 = e8 ^ e3;
    let e12 = e8 ^ e4;
    let e13 = e8 ^ e5;
    let e14 = e8 ^ e6;
    let e15 = e8 ^ e7;
    [
        0, e1, e2, e3, e4, e5, e6, e7, e8, e9, e10, e11, e12, e13, e14, e15,
    ]
}

/// The products of `h`: row r has those of h times x ^ (4 r) with the polynomials of degree below 4.
pub(crate) fn table(h: u128) -> [[u128; 16]; 32]
    ensures { IsTable (bits_128 h) result }
{
    let mut table = [[0; 16]; 32];
    let mut v = h;
    for r in 0..32 {
        table[r] = row(v);
        v = times_x(times_x(times_x(times_x(v))));
    }
    table
}

/// The product of `x` with the block whose table this is.
pub(crate) fn product(x: u128, table: &[[u128; 16]; 32]) -> u128
    ensures { (h : List ℕ) → length h ≡ 128 → IsTable h table.now → bits_128 result ≡ block_product (bits_128 x) h }
{
    let mut product = 0;
    let mut rest = x;
    for r in (0..32).rev() {
        product ^= table[r][(rest % 16) as usize];
        rest >>= 4;
    }
    product
}
