ghost use Rattle.std.specs.Prelude.{◌<◌, ◌≤◌};

use crate::table::{product, table};
use crate::{BadTag, GcmKey, GcmOpen, GcmPlain, GcmSeal};
use aes_core::Key;
use crypto_model::slow_product;
use std::array;
use std::process::Abort;
use std::test::Fail;

const IV: [u8; 12] = [
    0xca, 0xfe, 0xba, 0xbe, 0xfa, 0xce, 0xdb, 0xad, 0xde, 0xca, 0xf8, 0x88,
];

fn seal_pieces(seal: &mut GcmSeal, text: &mut [u8], size: usize)
    requires { 0 < size }
{
    for piece in text.chunks_mut(size) {
        seal.feed(piece);
    }
}

fn absorb_pieces(opening: &mut GcmOpen, text: &[u8], size: usize)
    requires { 0 < size }
{
    for piece in text.chunks(size) {
        opening.absorb(piece);
    }
}

fn open_pieces(plain: &mut GcmPlain, text: &mut [u8], size: usize)
    requires { 0 < size }
{
    for piece in text.chunks_mut(size) {
        plain.feed(piece);
    }
}

// Test cases 1 and 2 of the mode's publication.
#[test]
fn published_test_cases(rt: HostRuntime) -> Result<(), Fail> {
    let key = GcmKey::new(Key::expand(&[0; 16])?);
    let tag = GcmSeal::new(&key, [0; 12], &[]).tag();
    assert_eq!(rt;
        u128::from_be_bytes(tag),
        0x58e2_fcce_fa7e_3061_367f_1d57_a4e7_455a
    );
    let mut text = [0; 16];
    let mut seal = GcmSeal::new(&key, [0; 12], &[]);
    seal.feed(&mut text[..5]);
    seal.feed(&mut []);
    seal.feed(&mut text[5..]);
    assert_eq!(rt;
        u128::from_be_bytes(text),
        0x0388_dace_60b6_a392_f328_c2b9_71b2_fe78
    );
    assert_eq!(rt;
        u128::from_be_bytes(seal.tag()),
        0xab6e_47d4_2cec_13bd_f53a_67b2_1257_bddf
    );
    Ok(())
}

fn plain_text() -> [u8; 70] {
    array::from_fn(|i| ((i % 256 * 7 + 3) % 256) as u8)
}

// The tag of the first bytes of the text, which are sealed and opened in pieces of several sizes.
fn tag_of(rt: &impl Abort, key: &GcmKey, aad: &[u8], len: usize) -> Result<u128, Fail>
    requires { len ≤ 70 }
{
    let mut text = plain_text();
    let mut seal = GcmSeal::new(key, IV, aad);
    seal.feed(&mut text[..len]);
    let tag = seal.tag();
    for step in 0..5 {
        let size = 15 * step + 1;
        let mut pieces = plain_text();
        let mut seal = GcmSeal::new(key, IV, aad);
        seal_pieces(&mut seal, &mut pieces[..len], size);
        assert_eq!(rt; seal.tag(), tag, "{len} bytes in pieces of {size}");
        assert!(rt; pieces == text);
        let mut opening = GcmOpen::new(key, IV, aad);
        absorb_pieces(&mut opening, &pieces[..len], 62 - size);
        let mut plain = opening.verify(&tag).ok().ok_or("tag")?;
        open_pieces(&mut plain, &mut pieces[..len], size);
        assert!(rt; pieces == plain_text());
    }
    Ok(u128::from_be_bytes(tag))
}

// The ciphertexts of 70 bytes of text, and the exclusive or of the tags of its first 0 to 70 bytes under
// data of 0, 1, 16 and 20 bytes, as the Python package `cryptography` computes them.
#[test]
fn texts_of_each_length_in_pieces(rt: HostRuntime) -> Result<(), Fail> {
    let bytes: [u8; 32] = array::from_fn(|i| (i % 32) as u8);
    let aad: [u8; 20] = array::from_fn(|i| (i % 20 * 11 + 5) as u8);
    for (key_len, cipher_text, tags) in [
        (
            16,
            [
                0x8a73_d6ae_9ad1_ac35_9152_80d8_0aa4_c58b_u128,
                0xf571_b9ac_d47d_2d01_9a5b_afbb_b1e9_380d,
                0x79c3_68f8_0d12_1068_d66d_990c_b49a_8e77,
                0x9fb4_6837_1e4a_a9e7_6b30_d03b_8747_3459,
            ],
            [
                0xd852_d592_bf8f_5178_970d_b382_c2a3_40dc_u128,
                0x817d_56e6_e3dd_3174_9619_bda8_f262_da39,
                0xd605_f707_87cd_3d12_f0c8_c45b_7a52_71fa,
                0x2b88_0deb_0ea4_2e1c_72ae_f77e_18cc_06c3,
            ],
        ),
        (
            32,
            [
                0x89a9_b13e_b55c_622f_7d49_148d_2c43_ec53,
                0x7e5a_41d9_508f_f7d0_e56d_bdb1_7947_b023,
                0x4eba_30be_3ed2_4476_3d79_0158_05bd_6529,
                0x0a0e_c839_ccfc_f554_a800_e89c_194a_02fe,
            ],
            [
                0x7ae6_df7a_04f4_2b9a_c5cc_9895_a67b_2f91,
                0x8e17_9354_6923_7558_7d5d_0971_a616_190d,
                0xb331_7977_3716_0597_3fdb_f58e_3e9f_0d55,
                0x6c98_0530_05f1_80a4_82be_acab_29b3_ddee,
            ],
        ),
    ] {
        let key = GcmKey::new(Key::expand(bytes.get(..key_len).ok_or("key")?)?);
        for (aad_len, expected) in [0, 1, 16, 20].into_iter().zip(tags) {
            let aad = aad.get(..aad_len).ok_or("data")?;
            let mut sum = 0;
            for len in 0..71 {
                sum ^= tag_of(&rt, &key, aad, len)?;
            }
            assert_eq!(rt; sum, expected, "{aad_len} bytes of data");
        }
        let mut text = plain_text();
        GcmSeal::new(&key, IV, &aad).feed(&mut text);
        for (block, expected) in text.chunks(16).zip(cipher_text) {
            assert_eq!(rt; block, expected.to_be_bytes().as_slice());
        }
    }
    Ok(())
}

#[test]
fn a_tag_is_the_first_bytes_of_the_whole(rt: HostRuntime) -> Result<(), Fail> {
    let key = GcmKey::new(Key::expand(&[0; 16])?);
    let cipher_text = 0x0388_dace_60b6_a392_f328_c2b9_71b2_fe78_u128.to_be_bytes();
    let whole = 0xab6e_47d4_2cec_13bd_f53a_67b2_1257_bddf_u128;
    for len in [4, 8, 12, 13, 14, 15, 16] {
        for bit in 0..129 {
            let tag = if bit < 128 {
                (whole ^ 1 << bit).to_be_bytes()
            } else {
                whole.to_be_bytes()
            };
            let is_right = bit + 8 * len < 128 || bit == 128;
            let mut opening = GcmOpen::new(&key, [0; 12], &[]);
            opening.absorb(&cipher_text);
            let verified = opening.verify(&tag[..len]);
            assert_eq!(rt; verified.is_ok(), is_right, "bit {bit} of {len} bytes");
            assert!(rt; is_right || verified.err() == Some(BadTag));
        }
    }
    Ok(())
}

#[test]
fn the_slow_product_agrees(rt: HostRuntime) {
    let blocks = [
        0,
        1,
        1 << 127,
        1 << 64,
        0xe1 << 120,
        u128::MAX,
        0x66e9_4bd4_ef8a_2c3b_884c_fa59_ca34_2b2e,
        0x0388_dace_60b6_a392_f328_c2b9_71b2_fe78,
        0x0123_4567_89ab_cdef_fedc_ba98_7654_3210,
    ];
    for y in blocks {
        let table = table(y);
        for x in blocks {
            assert_eq!(rt; product(x, &table), slow_product(x, y), "{x} times {y}");
        }
    }
}
