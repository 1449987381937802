//! Times the generator: a capture of so many packets is generated and read to its end, a record at a time. Prints how many
//! bytes it has, and their sum, on standard output, and the speed on standard error. The one word says how many packets: 1,000
//! where there is none.
#![tactic(auto)]

use anyhow::Result;
use capture_io::{Generator, Source};
use std::env;
use std::time::Instant;

const NUMBER: u64 = 7;

fn packets(rt: &HostRuntime) -> Result<u32> {
    match env::args(rt)?.nth(1) {
        Some(word) => Ok(word.as_str().parse()?),
        None => Ok(1_000),
    }
}

fn add_all(sum: u64, bytes: &[u8]) -> u64 {
    let mut sum = sum;
    for byte in bytes {
        sum = sum.wrapping_add(u64::from(*byte));
    }
    sum
}

// How many bytes came, and their sum. The header and each record is one read.
fn read_through(source: &mut Generator, reads: u32) -> (u64, u64) {
    let mut buffer = [0; 2048];
    let (mut bytes, mut sum) = (0u64, 0u64);
    for _ in 0..reads {
        if let Ok(n) = source.read(&mut buffer) {
            bytes = bytes.saturating_add(n as u64);
            sum = add_all(sum, &buffer[..n]);
        }
    }
    (bytes, sum)
}

fn main(rt: HostRuntime) -> Result<()> {
    let count = packets(&rt)?;
    let mut source = Generator::new(count, NUMBER);
    let start = Instant::now(&rt)?;
    let (bytes, sum) = read_through(&mut source, count.saturating_add(1));
    let nanos = start.elapsed(&rt)?.as_nanos().max(1);
    println!(rt; "packets={count} bytes={bytes} sum={sum}")?;
    let speed = u128::from(bytes) * 1_000 / nanos;
    eprintln!(rt; "nanoseconds={nanos} megabytes_a_second={speed}")?;
    Ok(())
}
