ghost use Rattle.std.specs.Prelude.{◌≡◌, length};

use crate::{CbcDec, CbcEnc};
use aes_core::Key;
use std::array;
use std::test::Fail;

const KEY: u128 = 0x2b7e_1516_28ae_d2a6_abf7_1588_09cf_4f3c;

const IV: u128 = 0x0001_0203_0405_0607_0809_0a0b_0c0d_0e0f;

// SP 800-38A, F.2.1 and F.2.2.
#[test]
fn the_standards_example(rt: HostRuntime) -> Result<(), Fail> {
    let key = Key::expand(&KEY.to_be_bytes())?;
    let plain = 0x6bc1_bee2_2e40_9f96_e93d_7e11_7393_172a_u128;
    let mut block = plain.to_be_bytes();
    CbcEnc::new(&key, IV.to_be_bytes()).blocks(&mut block);
    assert_eq!(rt;
        u128::from_be_bytes(block),
        0x7649_abac_8119_b246_cee9_8e9b_12e9_197d
    );
    CbcDec::new(&key, IV.to_be_bytes()).blocks(&mut block);
    assert_eq!(rt; u128::from_be_bytes(block), plain);
    Ok(())
}

// What `openssl enc -aes-128-cbc -nopad` makes of the bytes from 0 to 127.
const ENCRYPTED: [u128; 8] = [
    0x7df7_6b0c_1ab8_99b3_3e42_f047_b91b_546f,
    0x1caa_8018_c80b_15b8_e7ae_a827_94ad_cb00,
    0xbbc1_e295_910b_9de4_f135_8dcb_4213_bdd8,
    0xeefa_3154_215f_4709_af46_573f_c8cb_07b9,
    0x860d_c1dd_67dd_fd95_2b41_e3aa_0cc4_7a96,
    0x4873_8534_d37e_5e29_ae21_35af_7532_e41c,
    0x1428_b847_ec62_48fa_0356_8d55_163a_a898,
    0x85e7_57fd_9c61_9991_78f9_6a3c_78f2_6bef,
];

fn encrypted() -> [u8; 128] {
    let mut text = [0; 128];
    for (block, number) in text.chunks_exact_mut(16).zip(ENCRYPTED) {
        block.copy_from_slice(&number.to_be_bytes());
    }
    text
}

// In pieces of one, two and five blocks.
fn encrypt_pieces(key: &Key, text: &mut [u8])
    requires { length text.old ≡ 128 }
{
    let mut cbc = CbcEnc::new(key, IV.to_be_bytes());
    let (first, rest) = text.split_at_mut(16);
    let (second, third) = rest.split_at_mut(32);
    cbc.blocks(first);
    cbc.blocks(second);
    cbc.blocks(third);
}

// In pieces of five, two blocks and one.
fn decrypt_pieces(key: &Key, text: &mut [u8])
    requires { length text.old ≡ 128 }
{
    let mut cbc = CbcDec::new(key, IV.to_be_bytes());
    let (first, rest) = text.split_at_mut(80);
    let (second, third) = rest.split_at_mut(32);
    cbc.blocks(first);
    cbc.blocks(second);
    cbc.blocks(third);
}

#[test]
fn pieces_give_what_openssl_gives(rt: HostRuntime) -> Result<(), Fail> {
    let key = Key::expand(&KEY.to_be_bytes())?;
    let plain: [u8; 128] = array::from_fn(|i| (i % 128) as u8);
    let mut whole = plain;
    CbcEnc::new(&key, IV.to_be_bytes()).blocks(&mut whole);
    assert!(rt; whole == encrypted());
    let mut pieces = plain;
    encrypt_pieces(&key, &mut pieces);
    assert!(rt; pieces == whole);
    decrypt_pieces(&key, &mut pieces);
    assert!(rt; pieces == plain);
    CbcDec::new(&key, IV.to_be_bytes()).blocks(&mut whole);
    assert!(rt; whole == plain);
    Ok(())
}
