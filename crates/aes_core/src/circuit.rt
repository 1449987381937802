//! SubBytes (FIPS 197, 5.1.1) on planes by gates, less the constant 0x63: the circuit of Boyar and Peralta. With
//! `x` for a byte, it inverts in the field of sixteen elements the norm of `x`, its 17th power, and makes
//! the inverse of `x` and the affine step of it.
ghost use Rattle.std.specs.Prelude.{◌≡◌, List, ℕ, map, bit_xor};
ghost use Rattle.crypto_model.specs.Field.{sub_byte};
ghost use Rattle.aes_core.specs.Planes.{turned, wires};
ghost use Rattle.aes_core.specs.Circuit.{IsBytes, forms, norms, inverses};

use crate::planes::{Planes, are_vectors};
use std::simd::prelude::*;

// The sums of bits that the gates below take.
#[inline(always)]
fn forms(x: &Planes) -> [u8x32; 22]
    ensures { (vs : List (List ℕ)) → IsBytes vs → x.now ≡ turned vs → result ≡ wires forms vs }
{
    let (x0, x1, x2, x3) = (x[7], x[6], x[5], x[4]);
    let (x4, x5, x6, x7) = (x[3], x[2], x[1], x[0]);
    let y14 = x3 ^ x5;
    let y13 = x0 ^ x6;
    let y9 = x0 ^ x3;
    let y8 = x0 ^ x5;
    let t0 = x1 ^ x2;
    let y1 = t0 ^ x7;
    let y4 = y1 ^ x3;
    let y12 = y13 ^ y14;
    let y2 = y1 ^ x0;
    let y5 = y1 ^ x6;
    let y3 = y5 ^ y8;
    let t1 = x4 ^ y12;
    let y15 = t1 ^ x5;
    let y20 = t1 ^ x1;
    let y6 = y15 ^ x7;
    let y10 = y15 ^ t0;
    let y11 = y20 ^ y9;
    let y7 = x7 ^ y11;
    let y17 = y10 ^ y11;
    let y19 = y10 ^ y8;
    let y16 = t0 ^ y11;
    let y21 = y13 ^ y16;
    let y18 = x0 ^ y16;
    [
        x7, y1, y2, y3, y4, y5, y6, y7, y8, y9, y10, y11, y12, y13, y14, y15, y16, y17, y18, y19,
        y20, y21,
    ]
}

// The bits of the norm.
#[inline(always)]
fn norms(y: &[u8x32; 22]) -> [u8x32; 4]
    ensures { (vs : List (List ℕ)) → IsBytes vs → y.now ≡ wires forms vs → result ≡ wires norms vs }
{
    let t2 = y[12] & y[15];
    let t3 = y[3] & y[6];
    let t4 = t3 ^ t2;
    let t5 = y[4] & y[0];
    let t6 = t5 ^ t2;
    let t7 = y[13] & y[16];
    let t8 = y[5] & y[1];
    let t9 = t8 ^ t7;
    let t10 = y[2] & y[7];
    let t11 = t10 ^ t7;
    let t12 = y[9] & y[11];
    let t13 = y[14] & y[17];
    let t14 = t13 ^ t12;
    let t15 = y[8] & y[10];
    let t16 = t15 ^ t12;
    let t17 = t4 ^ t14;
    let t18 = t6 ^ t16;
    let t19 = t9 ^ t14;
    let t20 = t11 ^ t16;
    let t21 = t17 ^ y[20];
    let t22 = t18 ^ y[19];
    let t23 = t19 ^ y[21];
    let t24 = t20 ^ y[18];
    [t21, t22, t23, t24]
}

// The bits of its inverse.
#[inline(always)]
fn inverses(n: &[u8x32; 4]) -> [u8x32; 4]
    ensures { (vs : List (List ℕ)) → IsBytes vs → n.now ≡ wires norms vs → result ≡ wires inverses vs }
{
    let (t21, t22, t23, t24) = (n[0], n[1], n[2], n[3]);
    let t25 = t21 ^ t22;
    let t26 = t21 & t23;
    let t27 = t24 ^ t26;
    let t28 = t25 & t27;
    let t29 = t28 ^ t22;
    let t30 = t23 ^ t24;
    let t31 = t22 ^ t26;
    let t32 = t31 & t30;
    let t33 = t32 ^ t24;
    let t34 = t23 ^ t33;
    let t35 = t27 ^ t33;
    let t36 = t24 & t35;
    let t37 = t36 ^ t34;
    let t38 = t27 ^ t36;
    let t39 = t29 & t38;
    let t40 = t25 ^ t39;
    [t29, t33, t37, t40]
}

// SubBytes without its constant.
#[inline(always)]
fn outputs(y: &[u8x32; 22], t: &[u8x32; 4]) -> Planes
    ensures { (vs : List (List ℕ)) → IsBytes vs → y.now ≡ wires forms vs → t.now ≡ wires inverses vs
        → result ≡ turned (map (map (λ x. bit_xor (sub_byte x) 0x63)) vs) }
{
    let (t29, t33, t37, t40) = (t[0], t[1], t[2], t[3]);
    let t41 = t40 ^ t37;
    let t42 = t29 ^ t33;
    let t43 = t29 ^ t40;
    let t44 = t33 ^ t37;
    let t45 = t42 ^ t41;
    let z2 = t33 & y[0];
    let z3 = t43 & y[16];
    let z4 = t40 & y[1];
    let z5 = t29 & y[7];
    let z7 = t45 & y[17];
    let z10 = t37 & y[3];
    let z12 = t43 & y[13];
    let z16 = t45 & y[14];
    let t46 = (t42 & y[9]) ^ z16;
    let t48 = z5 ^ (t40 & y[5]);
    let t53 = (t44 & y[15]) ^ z3;
    let t57 = (z2 ^ z12) ^ t53;
    let t58 = z4 ^ t46;
    let t59 = z3 ^ ((t42 & y[11]) ^ z7);
    let t62 = (z7 ^ (t41 & y[10])) ^ t58;
    let t63 = ((t44 & y[12]) ^ z10) ^ t58;
    let t64 = z4 ^ t59;
    let t65 = ((t29 & y[2]) ^ t57) ^ t62;
    let t66 = (t37 & y[6]) ^ t63;
    let s3 = t53 ^ t66;
    let s2 = (z16 ^ (t41 & y[8])) ^ (t64 ^ t65);
    [
        t48 ^ (t46 ^ t57),
        (z12 ^ t48) ^ t62,
        (z10 ^ (t33 & y[4])) ^ t65,
        (z2 ^ z5) ^ t66,
        s3,
        s2,
        t64 ^ s3,
        t59 ^ t63,
    ]
}

/// SubBytes, less the constant that its affine step adds.
#[inline(always)]
pub(crate) fn substituted(x: &Planes) -> Planes
    ensures { turned result ≡ map (map (λ x. bit_xor (sub_byte x) 0x63)) (turned x.now) }
{
    are_vectors(x);
    let y = forms(x);
    outputs(&y, &inverses(&norms(&y)))
}
