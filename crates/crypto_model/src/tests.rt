use crate::slow_encrypt;
use std::test::Fail;

const KEY: [u8; 32] = [
    0, 1, 2, 3, 4, 5, 6, 7, 8, 9, 10, 11, 12, 13, 14, 15, 16, 17, 18, 19, 20, 21, 22, 23, 24, 25,
    26, 27, 28, 29, 30, 31,
];

const PLAIN: u128 = 0x0011_2233_4455_6677_8899_aabb_ccdd_eeff;

// FIPS 197, Appendix C.
#[test]
fn slow_encrypt_gives_the_examples_of_the_standard(rt: HostRuntime) -> Result<(), Fail> {
    for (length, cipher) in [
        (16, 0x69c4_e0d8_6a7b_0430_d8cd_b780_70b4_c55a_u128),
        (24, 0xdda9_7ca4_864c_dfe0_6eaf_70a0_ec0d_7191),
        (32, 0x8ea2_b7ca_5167_45bf_eafc_4990_4b49_6089),
    ] {
        let key = KEY.get(..length).ok_or("key")?;
        let block = slow_encrypt(key, PLAIN.to_be_bytes())?;
        assert_eq!(rt;
            u128::from_be_bytes(block),
            cipher,
            "a key of {length} bytes"
        );
    }
    assert!(rt; slow_encrypt(&KEY[..17], PLAIN.to_be_bytes()).is_err());
    Ok(())
}
