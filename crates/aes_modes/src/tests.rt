use crate::Ctr;
use aes_core::Key;
use crypto_model::{BadKeyLength, slow_encrypt};
use std::array;
use std::test::Fail;

const KEY: u128 = 0x2b7e_1516_28ae_d2a6_abf7_1588_09cf_4f3c;

// SP 800-38A, F.5.1.
#[test]
fn the_standards_example(rt: HostRuntime) -> Result<(), Fail> {
    let key = Key::expand(&KEY.to_be_bytes())?;
    let counter = 0xf0f1_f2f3_f4f5_f6f7_f8f9_fafb_fcfd_feff_u128;
    let mut block = 0x6bc1_bee2_2e40_9f96_e93d_7e11_7393_172a_u128.to_be_bytes();
    Ctr::new(&key, counter.to_be_bytes()).feed(&mut block);
    assert_eq!(rt;
        u128::from_be_bytes(block),
        0x874d_6191_b620_e326_1bef_6864_990d_b6ce
    );
    Ok(())
}

#[test]
fn zero_follows_the_last_counter(rt: HostRuntime) -> Result<(), Fail> {
    let key = Key::expand(&[0; 16])?;
    let mut text = [0; 32];
    Ctr::new(&key, [0xff; 16]).feed(&mut text);
    let second = 0x66e9_4bd4_ef8a_2c3b_884c_fa59_ca34_2b2e_u128.to_be_bytes();
    assert_eq!(rt; text[16..], second[..]);
    Ok(())
}

fn by_blocks(text: &mut [u8], first: u128) -> Result<(), BadKeyLength> {
    let mut counter = first;
    for block in text.chunks_mut(16) {
        let stream = slow_encrypt(&KEY.to_be_bytes(), counter.to_be_bytes())?;
        for (byte, key) in block.iter_mut().zip(stream) {
            *byte ^= key;
        }
        counter = counter.wrapping_add(1);
    }
    Ok(())
}

// Whether pieces of these sizes are encrypted as the whole is.
fn pieces_agree(first: u128) -> Result<bool, BadKeyLength> {
    let key = Key::expand(&KEY.to_be_bytes())?;
    let text: [u8; 600] = array::from_fn(|i| (i % 251) as u8);
    let mut whole = text;
    by_blocks(&mut whole, first)?;
    for size in [1, 7, 16, 64, 100, 256, 300, 600] {
        let mut pieces = text;
        let mut ctr = Ctr::new(&key, first.to_be_bytes());
        for piece in pieces.chunks_mut(size) {
            ctr.feed(piece);
        }
        if pieces != whole {
            return Ok(false);
        }
    }
    Ok(true)
}

#[test]
fn pieces_give_what_the_whole_gives(rt: HostRuntime) -> Result<(), Fail> {
    assert!(rt; pieces_agree(7)?);
    Ok(())
}

// The lower word overflows within a group of blocks, and then both words.
#[test]
fn counters_overflow_within_a_group(rt: HostRuntime) -> Result<(), Fail> {
    assert!(rt; pieces_agree(u128::from(u64::MAX - 9))?);
    assert!(rt; pieces_agree(u128::MAX - 4)?);
    Ok(())
}
