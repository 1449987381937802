//! Times sealing with AES-GCM: a packet of 1,024 bytes with 14 bytes beside it is sealed again and again,
//! each time under the next IV. Prints a check sum of the packets' tags on standard output, and the speed on
//! standard error. The one word says how many mebibytes are sealed: 1 where there is none.
#![tactic(auto)]

use aes_core::Key;
use anyhow::Result;
use gcm_core::{GcmKey, GcmSeal};
use std::env;
use std::time::Instant;

const PACKET: usize = 1024;

fn mebibytes(rt: &HostRuntime) -> Result<u32> {
    match env::args(rt)?.nth(1) {
        Some(word) => Ok(word.as_str().parse()?),
        None => Ok(1),
    }
}

fn iv_of(number: u32) -> [u8; 12] {
    let mut iv = [0; 12];
    iv[8..].copy_from_slice(&number.to_be_bytes());
    iv
}

// Packets go on from one another: each is the ciphertext of the last.
fn seal_all(key: &GcmKey, packet: &mut [u8; PACKET], packets: u32) -> u64 {
    let mut sum = 0u64;
    for number in 0..packets {
        let mut seal = GcmSeal::new(key, iv_of(number), &[9; 14]);
        seal.feed(packet);
        for byte in seal.tag() {
            sum = sum.wrapping_mul(31).wrapping_add(u64::from(byte));
        }
    }
    sum
}

fn main(rt: HostRuntime) -> Result<()> {
    let key = GcmKey::new(Key::expand(&[7; 16])?);
    let mut packet = [0; PACKET];
    let all = mebibytes(&rt)?;
    let start = Instant::now(&rt)?;
    let sum = seal_all(&key, &mut packet, all.saturating_mul(1024));
    let nanos = start.elapsed(&rt)?.as_nanos().max(1);
    println!(rt; "mebibytes={all} check_sum={sum}")?;
    let speed = u128::from(all) * 1_048_576_000 / nanos;
    eprintln!(rt; "nanoseconds={nanos} megabytes_a_second={speed}")?;
    Ok(())
}
