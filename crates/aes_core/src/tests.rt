use crate::{Key, decrypt, decrypt_four, encrypt, encrypt_four, encrypt_sixteen};
use crypto_model::slow_encrypt;
use std::simd::prelude::*;
use std::test::Fail;

const KEY: [u8; 33] = [
    0, 1, 2, 3, 4, 5, 6, 7, 8, 9, 10, 11, 12, 13, 14, 15, 16, 17, 18, 19, 20, 21, 22, 23, 24, 25,
    26, 27, 28, 29, 30, 31, 32,
];

const PLAIN: u128 = 0x0011_2233_4455_6677_8899_aabb_ccdd_eeff;

// FIPS 197, Appendix C.
const EXAMPLES: [(usize, usize, u128); 3] = [
    (16, 10, 0x69c4_e0d8_6a7b_0430_d8cd_b780_70b4_c55a),
    (24, 12, 0xdda9_7ca4_864c_dfe0_6eaf_70a0_ec0d_7191),
    (32, 14, 0x8ea2_b7ca_5167_45bf_eafc_4990_4b49_6089),
];

// Block i is sixteen bytes of 17 times i. Under a key of so many bytes, blocks 1 to 4; under 16 bytes, all.
const FOUR: [(usize, [u128; 4]); 3] = [
    (
        16,
        [
            0x35d1_4e6d_3e3a_279c_f01e_343e_34e7_ded3,
            0xaeb4_f8fc_f376_bdba_9ff6_05cb_12b8_4279,
            0xaa7f_0742_2bd8_9833_0d8b_db89_d309_9cde,
            0xa72c_9041_7ea2_82d4_73c3_f61c_745b_32a1,
        ],
    ),
    (
        24,
        [
            0x3951_1e24_ebe3_01b2_694f_2476_d813_3fb8,
            0xbdb3_babb_0b09_5ce9_3f9f_201c_cae7_d58a,
            0x54ce_b264_2606_c1e8_3d17_2edb_1799_155c,
            0x2c57_7ec4_301e_a560_c464_6b27_6de7_0243,
        ],
    ),
    (
        32,
        [
            0x818d_3bbc_2dbb_b56f_50d1_48fa_400d_92c2,
            0xf6d6_3589_c0d2_26f9_2750_87ff_243a_2441,
            0xe802_d6ae_c868_cbce_bd96_6bfe_12ce_69f8,
            0x213d_7cab_e788_cd76_de71_b49c_332c_b1b6,
        ],
    ),
];

const SIXTEEN: [u128; 16] = [
    0xc6a1_3b37_878f_5b82_6f4f_8162_a1c8_d879,
    0x35d1_4e6d_3e3a_279c_f01e_343e_34e7_ded3,
    0xaeb4_f8fc_f376_bdba_9ff6_05cb_12b8_4279,
    0xaa7f_0742_2bd8_9833_0d8b_db89_d309_9cde,
    0xa72c_9041_7ea2_82d4_73c3_f61c_745b_32a1,
    0xa554_8f94_1501_8420_2f82_00aa_a9d0_2d56,
    0x4606_e193_f825_4613_ecf0_b20c_2eff_3d0c,
    0xce22_fdfe_cf5e_2dc4_42ad_4876_4f1e_4577,
    0xe9c8_9e47_4301_08d3_ce54_693f_30ac_e32f,
    0x0d28_3df5_95a1_2f2c_b414_1eca_168e_42b2,
    0xfbd4_9b09_1a38_f87a_d5c3_ee25_80ba_414c,
    0xc39a_fd91_d9c0_8639_d2b9_ba51_64af_295f,
    0xaeb0_5c6b_b162_066e_45e0_7894_6db8_2c7f,
    0xac9f_81ee_8849_aec2_d21d_1dde_13ef_a5ec,
    0x640a_ba2f_1265_8aca_47fe_2c25_6689_40a2,
    0x3c44_1f32_ce07_8223_64d7_a299_0e50_bb13,
];

#[test]
fn the_examples_of_the_standard(rt: HostRuntime) -> Result<(), Fail> {
    for (length, rounds, cipher) in EXAMPLES {
        let key = Key::expand(&KEY[..length])?;
        assert_eq!(rt; key.rounds(), rounds);
        assert_eq!(rt; key.bytes(), &KEY[..length]);
        let mut block = PLAIN.to_be_bytes();
        encrypt(&key, &mut block);
        assert_eq!(rt;
            u128::from_be_bytes(block),
            cipher,
            "a key of {length} bytes"
        );
        decrypt(&key, &mut block);
        assert_eq!(rt; u128::from_be_bytes(block), PLAIN);
        let plain = u8x16::from_array(PLAIN.to_be_bytes());
        let (a, b, c, d) = encrypt_four(&key, plain, plain, plain, plain);
        for block in [a, b, c, d] {
            assert_eq!(rt; u128::from_be_bytes(block.to_array()), cipher);
        }
        let (a, b, c, d) = decrypt_four(&key, a, b, c, d);
        for block in [a, b, c, d] {
            assert_eq!(rt; block.to_array(), plain.to_array());
        }
    }
    Ok(())
}

#[test]
fn four_blocks_that_differ(rt: HostRuntime) -> Result<(), Fail> {
    for (length, ciphers) in FOUR {
        let key = Key::expand(&KEY[..length])?;
        let plain = [17, 34, 51, 68].map(|byte: u8| u8x16::splat(byte));
        let (a, b, c, d) = encrypt_four(&key, plain[0], plain[1], plain[2], plain[3]);
        let made = [a, b, c, d].map(|block| u128::from_be_bytes(block.to_array()));
        assert_eq!(rt; made, ciphers);
        let (a, b, c, d) = decrypt_four(&key, a, b, c, d);
        assert_eq!(rt; [a[0], b[0], c[0], d[0]], [17, 34, 51, 68]);
        assert_eq!(rt; [a[15], b[15], c[15], d[15]], [17, 34, 51, 68]);
    }
    Ok(())
}

#[test]
fn sixteen_blocks_that_differ(rt: HostRuntime) -> Result<(), Fail> {
    let key = Key::expand(&KEY[..16])?;
    let mut pairs = [u8x32::splat(0); 8];
    for (i, pair) in pairs.iter_mut().enumerate() {
        let mut bytes = [34 * i as u8; 32];
        bytes[16..].copy_from_slice(&[34 * i as u8 + 17; 16]);
        *pair = u8x32::from_array(bytes);
    }
    for (i, pair) in encrypt_sixteen(&key, &pairs).iter().enumerate() {
        let bytes = pair.to_array();
        assert_eq!(rt; bytes[..16], SIXTEEN[2 * i].to_be_bytes()[..]);
        assert_eq!(rt; bytes[16..], SIXTEEN[2 * i + 1].to_be_bytes()[..]);
    }
    Ok(())
}

#[test]
fn the_examples_by_sixteen(rt: HostRuntime) -> Result<(), Fail> {
    for (length, _, cipher) in EXAMPLES {
        let key = Key::expand(&KEY[..length])?;
        let mut pair = [0; 32];
        pair[..16].copy_from_slice(&PLAIN.to_be_bytes());
        pair[16..].copy_from_slice(&PLAIN.to_be_bytes());
        for pair in encrypt_sixteen(&key, &[u8x32::from_array(pair); 8]) {
            let bytes = pair.to_array();
            assert_eq!(rt; bytes[..16], cipher.to_be_bytes()[..]);
            assert_eq!(rt; bytes[16..], cipher.to_be_bytes()[..]);
        }
    }
    Ok(())
}

#[test]
fn the_slow_cipher_agrees(rt: HostRuntime) -> Result<(), Fail> {
    for (key, plain) in [([0xff; 16], 0_u128), ([0x80; 16], u128::MAX), ([0; 16], 1)] {
        let mut block = plain.to_be_bytes();
        encrypt(&Key::expand(&key)?, &mut block);
        assert_eq!(rt; block, slow_encrypt(&key, plain.to_be_bytes())?);
    }
    Ok(())
}

#[test]
fn keys_of_other_lengths_are_refused(rt: HostRuntime) -> Result<(), Fail> {
    for length in [0, 15, 17, 33] {
        assert!(rt;
            Key::expand(&KEY[..length]).is_err(),
            "a key of {length} bytes"
        );
    }
    Ok(())
}
