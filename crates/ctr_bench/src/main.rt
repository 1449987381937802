//! Times the CTR kernel: a buffer of 16 KiB goes through one stream, again and again. Prints a check
//! sum of what it last holds on standard output, and the speed on standard error. The one word says how
//! many mebibytes are fed: 1 where there is none.
#![tactic(auto)]

use aes_core::Key;
use aes_modes::Ctr;
use anyhow::Result;
use std::env;
use std::time::Instant;

const PIECE: usize = 16_384;

fn mebibytes(rt: &HostRuntime) -> Result<u32> {
    match env::args(rt)?.nth(1) {
        Some(word) => Ok(word.as_str().parse()?),
        None => Ok(1),
    }
}

fn feed_all(key: &Key, buffer: &mut [u8], times: u32) {
    let mut stream = Ctr::new(key, [0; 16]);
    for _ in 0..times {
        stream.feed(buffer);
    }
}

fn check_sum(bytes: &[u8]) -> u64 {
    let mut sum = 0u64;
    for byte in bytes {
        sum = sum.wrapping_mul(31).wrapping_add(u64::from(*byte));
    }
    sum
}

fn main(rt: HostRuntime) -> Result<()> {
    let key = Key::expand(&[7; 16])?;
    let mut buffer = vec![in rt.alloc(); 0u8; PIECE]?;
    let all = mebibytes(&rt)?;
    let start = Instant::now(&rt)?;
    feed_all(&key, buffer.as_mut_slice(), all.saturating_mul(64));
    let nanos = start.elapsed(&rt)?.as_nanos().max(1);
    let sum = check_sum(buffer.as_slice());
    println!(rt; "mebibytes={all} check_sum={sum}")?;
    let speed = u128::from(all) * 1_048_576_000 / nanos;
    eprintln!(rt; "nanoseconds={nanos} megabytes_a_second={speed}")?;
    Ok(())
}
