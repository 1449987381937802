//! A source and a sink in memory, whose calls fail where a list says so.
ghost use Rattle.std.specs.Prelude.{◌≡◌, ◌≤◌, ◌<◌, ◌+◌, ◌-◌, ◌++◌, ◌↔◌, ◌⊎◌, ℕ, List, [], length, take, drop, min, vec_capacity, Contains, IfOk, OnOk, OnErr, IsOk, IsErr, IsTrue, MatchResult};
ghost use Rattle.crypto_model.specs.Counts.{Rose, capped};

use crate::{ReadFault, Sink, Source, WriteFault};
use crypto_model::OutOfMemory;
use std::alloc::Global;

// Whether a call of this number is among those that fail.
fn is_listed(fails: &[u32], call: u64) -> bool
    ensures { IsTrue result ↔ Contains fails.now call }
{
    fails.iter().any(|&number| u64::from(number) == call)
}

/// Bytes in memory, given a piece at a time. Reads are numbered from 0, and those of the listed
/// numbers fail. The number stands still at the last value of a `u64`.
#[derive(Drop)]
pub struct MemSource {
    bytes: Vec<u8>,
    at: usize,
    piece: usize,
    fails: Vec<u32>,
    calls: u64,
    faults: u64,
    ghost in_range: { at ≤ length bytes.items },
    ghost some: { 0 < piece },
}

impl MemSource {
    ghost use Rattle.capture_io.specs.Memory.{bytes_left, read_piece, next_read, failing_reads, read_faults};

    /// Gives these bytes, at most `piece` of them at a time.
    pub fn new(bytes: Vec<u8>, piece: usize, fails: Vec<u32>) -> MemSource
        requires { 0 < piece }
        ensures bytes { bytes_left result ≡ bytes.items }
        ensures piece { read_piece result ≡ piece }
        ensures fails { failing_reads result ≡ fails.items }
        ensures next { next_read result ≡ 0 }
        ensures faults { read_faults result ≡ 0 }
    {
        MemSource {
            bytes,
            at: 0,
            piece,
            fails,
            calls: 0,
            faults: 0,
        }
    }
}

impl Source for MemSource {
    ghost use Rattle.capture_io.specs.Memory.{bytes_left, read_piece, next_read, failing_reads, read_faults};

    ghost tells = { Unit {0} };

    ghost left = { bytes_left };

    ghost faults = { read_faults };

    fn read(&mut self, buf: &mut [u8]) -> Result<usize, ReadFault>
        requires { 0 < length buf.old }
        ensures within { IfOk result (λ n. n ≤ length buf.old) }
        ensures taken { Unit {0} → MatchResult result (λ n. bytes_left self.old ≡ take n buf.new ++ bytes_left self.new)
            (λ _. bytes_left self.new ≡ bytes_left self.old) }
        ensures ended { Unit {0} → IfOk result (λ n. n ≡ 0 → bytes_left self.old ≡ []) }
        ensures later { read_faults self.old ≤ read_faults self.new }
        ensures cause { OnErr result (Rose (read_faults self.old) (read_faults self.new)) }

        // As many bytes as the piece, the buffer and what is left allow.
        ensures most { IfOk result (λ n. n ≡ min (min (length (bytes_left self.old)) (length buf.old)) (read_piece self.old)) }
        ensures listed { IsErr result ↔ Contains (failing_reads self.old) (next_read self.old) }
        ensures steady { OnOk result (read_faults self.new ≡ read_faults self.old) }
        ensures raised { OnErr result (read_faults self.new ≡ capped (read_faults self.old + 1)) }
        ensures counted { next_read self.new ≡ capped (next_read self.old + 1) }
        ensures fails { failing_reads self.new ≡ failing_reads self.old }
        ensures piece { read_piece self.new ≡ read_piece self.old }
    {
        let call = self.calls;
        self.calls = call.saturating_add(1);
        if is_listed(&self.fails, call) {
            self.faults = self.faults.saturating_add(1);
            return Err(ReadFault);
        }
        let rest = &self.bytes[self.at..];
        let n = rest.len().min(buf.len()).min(self.piece);
        buf[..n].copy_from_slice(&rest[..n]);
        self.at += n;
        Ok(n)
    }
}

/// Bytes written in memory. Writes are numbered from 0; those of the listed numbers fail, and those
/// that find all the room taken. The number stands still at the last value of a `u64`.
#[derive(Drop)]
pub struct MemSink {
    bytes: Vec<u8>,
    cap: usize,
    fails: Vec<u32>,
    calls: u64,
    faults: u64,
    ghost in_cap: { length bytes.items ≤ cap },
    ghost room: { cap ≤ vec_capacity bytes },
}

impl MemSink {
    ghost use Rattle.capture_io.specs.Memory.{bytes_written, sink_cap, next_write, failing_writes, write_faults};

    /// Takes `cap` bytes in all.
    pub fn new(alloc: Global, cap: usize, fails: Vec<u32>) -> Result<MemSink, OutOfMemory>
        ensures empty { IfOk result (λ k. bytes_written k ≡ []) }
        ensures cap { IfOk result (λ k. sink_cap k ≡ cap) }
        ensures fails { IfOk result (λ k. failing_writes k ≡ fails.items) }
        ensures next { IfOk result (λ k. next_write k ≡ 0) }
        ensures faults { IfOk result (λ k. write_faults k ≡ 0) }
    {
        let bytes = Vec::with_capacity(alloc, cap)?;
        Ok(MemSink {
            bytes,
            cap,
            fails,
            calls: 0,
            faults: 0,
        })
    }

    /// The bytes written so far.
    pub fn bytes(&self) -> &[u8]
        ensures { result.now ≡ bytes_written self.now }
    {
        &self.bytes
    }
}

impl Sink for MemSink {
    ghost use Rattle.capture_io.specs.Memory.{bytes_written, sink_cap, next_write, failing_writes, write_faults};

    ghost tells = { Unit {0} };

    ghost written = { bytes_written };

    ghost faults = { write_faults };

    ghost steady = { Unit {0} };

    fn write(&mut self, piece: &[u8]) -> Result<usize, WriteFault>
        requires { 0 < length piece.now }
        ensures within { IfOk result (λ n. n ≤ length piece.now) }
        ensures some { IfOk result (λ n. 0 < n) }
        ensures appended { Unit {0} → MatchResult result (λ n. bytes_written self.new ≡ bytes_written self.old ++ take n piece.now)
            (λ _. bytes_written self.new ≡ bytes_written self.old) }
        ensures later { write_faults self.old ≤ write_faults self.new }
        ensures cause { OnErr result (Rose (write_faults self.old) (write_faults self.new)) }

        // As many bytes as there are, and as the room allows.
        ensures most { IfOk result (λ n. n ≡ min (length piece.now) (sink_cap self.old - length (bytes_written self.old))) }
        ensures listed { IsErr result ↔ (Contains (failing_writes self.old) (next_write self.old) ⊎ (length (bytes_written self.old) ≡ sink_cap self.old)) }
        ensures steady { OnOk result (write_faults self.new ≡ write_faults self.old) }
        ensures raised { OnErr result (write_faults self.new ≡ capped (write_faults self.old + 1)) }
        ensures counted { next_write self.new ≡ capped (next_write self.old + 1) }
        ensures fails { failing_writes self.new ≡ failing_writes self.old }
        ensures cap { sink_cap self.new ≡ sink_cap self.old }
    {
        let call = self.calls;
        self.calls = call.saturating_add(1);
        let n = piece.len().min(self.cap - self.bytes.len());
        if n == 0 || is_listed(&self.fails, call) {
            self.faults = self.faults.saturating_add(1);
            return Err(WriteFault);
        }
        self.bytes.extend_from_slice(&piece[..n]).unwrap();
        Ok(n)
    }

    /// Never fails, and counts as no write.
    fn flush(&mut self) -> Result<(), WriteFault>
        ensures never { IsOk result }
        ensures same { self.new ≡ self.old }
    {
        Ok(())
    }
}
