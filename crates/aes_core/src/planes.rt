//! Eight vectors of bytes as the planes of their bits: plane `k` has bit `k` of each byte, and that of
//! vector `b` is bit `b` there. A plane of 32 bytes fills a vector of the processor, where it has AVX2.
ghost use Rattle.std.specs.Prelude.{◌≡◌, ◌<◌, List, ℕ, map, bit_xor};
ghost use Rattle.std.specs.Simd.Lanes.{Each1, zip2, pick_l};
ghost use Rattle.crypto_model.specs.Field.{product};
ghost use Rattle.aes_core.specs.Planes.{IsVector, turned, low_kept, high_kept, left_rows, left_rows_up, two_down};

use std::simd::prelude::*;

/// Eight vectors, or their planes.
pub(crate) type Planes = [u8x32; 8];

// What its type says of a vector that comes from an array.
#[inline(always)]
fn typed(vector: u8x32) -> u8x32
    ensures same { result ≡ vector }
    ensures bytes { IsVector vector }
{
    vector
}

/// What the types say of eight vectors: no code.
#[inline(always)]
pub(crate) fn are_vectors(v: &Planes)
    ensures { Each1 IsVector v.now }
{
    typed(v[0]);
    typed(v[1]);
    typed(v[2]);
    typed(v[3]);
    typed(v[4]);
    typed(v[5]);
    typed(v[6]);
    typed(v[7]);
}

// The bits of `a` in the mask, and as many of `b` moved up beside them.
#[inline(always)]
fn lower(a: u8x32, b: u8x32, by: u8, mask: u8) -> u8x32
    requires { by < 8 }
    ensures { result ≡ zip2 (low_kept by mask) a b }
{
    (a & u8x32::splat(mask)) ^ ((b << u8x32::splat(by)) & u8x32::splat(!mask))
}

// The bits of `b` outside the mask, and as many of `a` moved down beside them.
#[inline(always)]
fn upper(a: u8x32, b: u8x32, by: u8, mask: u8) -> u8x32
    requires { by < 8 }
    ensures { result ≡ zip2 (high_kept by mask) a b }
{
    ((a >> u8x32::splat(by)) & u8x32::splat(mask)) ^ (b & u8x32::splat(!mask))
}

/// The planes of eight vectors, and the vectors of eight planes.
#[inline(always)]
pub(crate) fn turned(v: &Planes) -> Planes
    ensures { result ≡ turned v.now }
{
    are_vectors(v);
    let a = [
        lower(v[0], v[1], 1, 0x55),
        upper(v[0], v[1], 1, 0x55),
        lower(v[2], v[3], 1, 0x55),
        upper(v[2], v[3], 1, 0x55),
        lower(v[4], v[5], 1, 0x55),
        upper(v[4], v[5], 1, 0x55),
        lower(v[6], v[7], 1, 0x55),
        upper(v[6], v[7], 1, 0x55),
    ];
    let b = [
        lower(a[0], a[2], 2, 0x33),
        lower(a[1], a[3], 2, 0x33),
        upper(a[0], a[2], 2, 0x33),
        upper(a[1], a[3], 2, 0x33),
        lower(a[4], a[6], 2, 0x33),
        lower(a[5], a[7], 2, 0x33),
        upper(a[4], a[6], 2, 0x33),
        upper(a[5], a[7], 2, 0x33),
    ];
    [
        lower(b[0], b[4], 4, 0x0f),
        lower(b[1], b[5], 4, 0x0f),
        lower(b[2], b[6], 4, 0x0f),
        lower(b[3], b[7], 4, 0x0f),
        upper(b[0], b[4], 4, 0x0f),
        upper(b[1], b[5], 4, 0x0f),
        upper(b[2], b[6], 4, 0x0f),
        upper(b[3], b[7], 4, 0x0f),
    ]
}

/// The sums of bytes.
#[inline(always)]
pub(crate) fn added(a: &Planes, b: &Planes) -> Planes
    ensures { turned result ≡ zip2 (zip2 bit_xor) (turned a.now) (turned b.now) }
{
    [
        a[0] ^ b[0],
        a[1] ^ b[1],
        a[2] ^ b[2],
        a[3] ^ b[3],
        a[4] ^ b[4],
        a[5] ^ b[5],
        a[6] ^ b[6],
        a[7] ^ b[7],
    ]
}

/// The doubles of bytes in the field (FIPS 197, 4.2.1).
#[inline(always)]
pub(crate) fn doubled(a: &Planes) -> Planes
    ensures { turned result ≡ map (map (product 2)) (turned a.now) }
{
    are_vectors(a);
    let over = a[7];
    [
        over,
        a[0] ^ over,
        a[1],
        a[2] ^ over,
        a[3] ^ over,
        a[4],
        a[5],
        a[6],
    ]
}

#[inline(always)]
fn left_rows(plane: u8x32) -> u8x32
    ensures { result ≡ pick_l 0 plane left_rows }
{
    plane.swizzle([
        0, 5, 10, 15, 4, 9, 14, 3, 8, 13, 2, 7, 12, 1, 6, 11, 16, 21, 26, 31, 20, 25, 30, 19, 24,
        29, 18, 23, 28, 17, 22, 27,
    ])
}

#[inline(always)]
fn left_rows_up(plane: u8x32) -> u8x32
    ensures { result ≡ pick_l 0 plane left_rows_up }
{
    plane.swizzle([
        5, 10, 15, 0, 9, 14, 3, 4, 13, 2, 7, 8, 1, 6, 11, 12, 21, 26, 31, 16, 25, 30, 19, 20, 29,
        18, 23, 24, 17, 22, 27, 28,
    ])
}

#[inline(always)]
fn two_down(plane: u8x32) -> u8x32
    ensures { result ≡ pick_l 0 plane two_down }
{
    plane.swizzle([
        2, 3, 0, 1, 6, 7, 4, 5, 10, 11, 8, 9, 14, 15, 12, 13, 18, 19, 16, 17, 22, 23, 20, 21, 26,
        27, 24, 25, 30, 31, 28, 29,
    ])
}

/// ShiftRows (FIPS 197, 5.1.2).
#[inline(always)]
pub(crate) fn shifted(a: &Planes) -> Planes
    ensures { turned result ≡ map (λ v. pick_l 0 v left_rows) (turned a.now) }
{
    are_vectors(a);
    [
        left_rows(a[0]),
        left_rows(a[1]),
        left_rows(a[2]),
        left_rows(a[3]),
        left_rows(a[4]),
        left_rows(a[5]),
        left_rows(a[6]),
        left_rows(a[7]),
    ]
}

/// ShiftRows, and then each byte moved up by one in its column.
#[inline(always)]
pub(crate) fn shifted_up(a: &Planes) -> Planes
    ensures { turned result ≡ map (λ v. pick_l 0 v left_rows_up) (turned a.now) }
{
    are_vectors(a);
    [
        left_rows_up(a[0]),
        left_rows_up(a[1]),
        left_rows_up(a[2]),
        left_rows_up(a[3]),
        left_rows_up(a[4]),
        left_rows_up(a[5]),
        left_rows_up(a[6]),
        left_rows_up(a[7]),
    ]
}

/// Each byte moved by two in its column.
#[inline(always)]
pub(crate) fn halves_swapped(a: &Planes) -> Planes
    ensures { turned result ≡ map (λ v. pick_l 0 v two_down) (turned a.now) }
{
    are_vectors(a);
    [
        two_down(a[0]),
        two_down(a[1]),
        two_down(a[2]),
        two_down(a[3]),
        two_down(a[4]),
        two_down(a[5]),
        two_down(a[6]),
        two_down(a[7]),
    ]
}
