ghost use Rattle.std.specs.Prelude.{◌≡◌, ◌≤◌, ◌<◌, [], length, IfOk, All};
ghost use Rattle.sym_engine.specs.Driver.{held_of};

use crate::run;
use capture_io::{MemSink, MemSource, Sink, WriteFault};
use crypto_model::OutOfMemory;
use crypto_op::Card;
use dev_core::{Device, Driver};
use std::alloc::{AllocError, Global};
use std::process::Abort;
use std::test::Fail;
use sym_engine::PlainDriver;

const HEADER: [u8; 24] = [
    0xd4, 0xc3, 0xb2, 0xa1, 2, 0, 4, 0, 0, 0, 0, 0, 0, 0, 0, 0, 0xff, 0xff, 0, 0, 1, 0, 0, 0,
];

// The same, with the snaplen 262,208.
const RAISED: [u8; 24] = [
    0xd4, 0xc3, 0xb2, 0xa1, 2, 0, 4, 0, 0, 0, 0, 0, 0, 0, 0, 0, 0x40, 0, 4, 0, 1, 0, 0, 0,
];

const HEAD_OF_16: [u8; 16] = [1, 0, 0, 0, 0, 0, 0, 0, 16, 0, 0, 0, 16, 0, 0, 0];

const HEAD_OF_60: [u8; 16] = [1, 0, 0, 0, 0, 0, 0, 0, 60, 0, 0, 0, 60, 0, 0, 0];

// Its captured length is 262,145.
const HEAD_TOO_LARGE: [u8; 16] = [1, 0, 0, 0, 0, 0, 0, 0, 1, 0, 4, 0, 1, 0, 4, 0];

// Test vector 1 of RFC 3686.
const QUICK: [&str; 3] = ["quick", "ae6852f8121067cc4bf7a5765577f39e", "00000030"];

const PLAIN: &[u8] = b"Single block msg";

const CIPHER: [u8; 16] = [
    0xe4, 0x09, 0x5d, 0x4f, 0xb7, 0xa7, 0xb3, 0x79, 0x2d, 0x61, 0x75, 0xa3, 0x26, 0x13, 0x11, 0xb8,
];

// Sixty bytes 7 as packet 0 and as packet 1, encrypted by OpenSSL.
const SEVENS_0: [u8; 60] = [
    0xb0, 0x67, 0x34, 0x2f, 0xdc, 0xc5, 0x94, 0x1c, 0x46, 0x09, 0x11, 0xcf, 0x01, 0x79, 0x65, 0xd8,
    0x55, 0xef, 0x2a, 0xdf, 0x39, 0x08, 0x4d, 0x78, 0x30, 0x66, 0xd4, 0x44, 0x2f, 0xf5, 0xc4, 0x86,
    0xa6, 0x70, 0xe5, 0xb8, 0xc0, 0xe1, 0xc5, 0xa0, 0x2c, 0xcc, 0xb5, 0x75, 0xcf, 0x87, 0xc9, 0xf0,
    0x17, 0x77, 0xff, 0x39, 0xdf, 0x4c, 0x6e, 0xa4, 0x71, 0x17, 0xc1, 0x77,
];

const SEVENS_1: [u8; 60] = [
    0xc7, 0xf6, 0x69, 0xef, 0xc4, 0xea, 0x89, 0xfc, 0x85, 0x70, 0x6a, 0xcd, 0xb5, 0x57, 0x26, 0x17,
    0x31, 0x74, 0x10, 0x1e, 0x1c, 0x4b, 0x4f, 0xcf, 0x4e, 0x35, 0x4f, 0xd3, 0xe3, 0x98, 0xb7, 0x59,
    0x96, 0xb4, 0x36, 0x96, 0x84, 0x32, 0x59, 0x11, 0xa3, 0x83, 0xaa, 0x86, 0x20, 0x0d, 0x86, 0x52,
    0x7b, 0x13, 0xeb, 0x41, 0xb7, 0x99, 0x29, 0xf9, 0xa5, 0x8d, 0x34, 0x11,
];

fn words_of(alloc: Global, words: &[&str]) -> Result<Vec<String>, AllocError> {
    let mut list = Vec::new(alloc);
    for word in words {
        list.push(String::from_str(alloc, word)?)?;
    }
    Ok(list)
}

fn joined(alloc: Global, parts: &[&[u8]]) -> Result<Vec<u8>, AllocError> {
    let mut bytes = Vec::new(alloc);
    for part in parts {
        bytes.extend_from_slice(part)?;
    }
    Ok(bytes)
}

fn plain(alloc: Global) -> Result<Vec<PlainDriver<Card>>, OutOfMemory>
    ensures some { IfOk result (λ v. length v.items ≡ 1) }
    ensures idle { IfOk result (λ v. All (λ d. held_of d ≡ []) v.items) }
{
    let device = PlainDriver::new(alloc)?;
    let mut devs = Vec::new(alloc);
    devs.push(device)?;
    Ok(devs)
}

// A sink in memory that counts its flushes, and the writes behind the last of them. Its flush fails where that is wished.
#[derive(Drop)]
struct TestSink {
    sink: MemSink,
    flush_fails: bool,
    flushes: u32,
    unflushed: u32,
    faults: u64,
}

impl TestSink {
    fn new(alloc: Global, writes: &[u32], flush_fails: bool) -> Result<TestSink, OutOfMemory> {
        Ok(TestSink {
            sink: MemSink::new(alloc, 1_000_000, Vec::from_slice(alloc, writes)?)?,
            flush_fails,
            flushes: 0,
            unflushed: 0,
            faults: 0,
        })
    }

    fn bytes(&self) -> &[u8] {
        self.sink.bytes()
    }
}

impl Sink for TestSink {
    ghost tells = { ⊥ };

    ghost written = { λ _. [] };

    ghost faults = { λ k. k.faults };

    ghost steady = { Unit {0} };

    fn write(&mut self, piece: &[u8]) -> Result<usize, WriteFault> {
        self.unflushed = self.unflushed.saturating_add(1);
        match self.sink.write(piece) {
            Ok(n) => Ok(n),
            Err(_) => {
                self.faults = self.faults.saturating_add(1);
                Err(WriteFault)
            }
        }
    }

    fn flush(&mut self) -> Result<(), WriteFault> {
        self.flushes = self.flushes.saturating_add(1);
        self.unflushed = 0;
        if self.flush_fails {
            self.faults = self.faults.saturating_add(1);
            return Err(WriteFault);
        }
        Ok(())
    }
}

// What fails in a run: reads of the capture and of the session text and writes of the output, by their numbers from 0, and
// the flushes of the two sinks.
#[derive(Clone, Copy)]
struct Failing<'a> {
    reads: &'a [u32],
    text_reads: &'a [u32],
    writes: &'a [u32],
    flush_of_out: bool,
    flush_of_report: bool,
}

const NOTHING: Failing<'static> = Failing {
    reads: &[],
    text_reads: &[],
    writes: &[],
    flush_of_out: false,
    flush_of_report: false,
};

// What a run in memory left: its status, its devices, how many operations the first of them took, and the sinks.
#[derive(Drop)]
struct Ended<D> {
    status: u8,
    devs: Vec<D>,
    enqueued: u64,
    out: TestSink,
    report: TestSink,
}

// Runs over a capture, a session text and devices.
fn run_in_memory<D: Device<Card> + Drop>(
    alloc: Global,
    words: &[&str],
    text: &[u8],
    capture: Vec<u8>,
    piece: usize,
    failing: Failing<'_>,
    devs: Vec<D>,
) -> Result<Ended<D>, Fail>
    requires piece { 0 < piece }
    requires some { 0 < length devs.items }
    requires most { length devs.items ≤ 8 }
    requires idle { All (λ d. D.held d ≡ []) devs.items }
{
    let words = words_of(alloc, words)?;
    let reads = Vec::from_slice(alloc, failing.reads)?;
    let mut capture = MemSource::new(capture, piece, reads);
    let text = Vec::from_slice(alloc, text)?;
    let text_reads = Vec::from_slice(alloc, failing.text_reads)?;
    let mut sessions = MemSource::new(text, 100, text_reads);
    let mut out = TestSink::new(alloc, failing.writes, failing.flush_of_out)?;
    let mut report = TestSink::new(alloc, &[], failing.flush_of_report)?;
    let done = run(
        alloc,
        &words,
        &mut capture,
        &mut sessions,
        &mut out,
        &mut report,
        devs,
    );
    let device = done.devs.first().ok_or("no device")?;
    let enqueued = Driver::<Card>::stats(device).enqueued;
    Ok(Ended {
        status: done.status,
        devs: done.devs,
        enqueued,
        out,
        report,
    })
}

fn quick(
    alloc: Global,
    words: &[&str],
    capture: Vec<u8>,
    piece: usize,
    failing: Failing<'_>,
) -> Result<Ended<PlainDriver<Card>>, Fail>
    requires { 0 < piece }
{
    run_in_memory(alloc, words, &[], capture, piece, failing, plain(alloc)?)
}

mod crypt;
mod deal;
mod devices;
mod kinds;
mod made;
mod order;

#[test]
fn the_published_packet_is_encrypted(rt: HostRuntime) -> Result<(), Fail> {
    let alloc = rt.alloc();
    let capture = joined(alloc, &[&HEADER, &HEAD_OF_16, PLAIN])?;
    let run = quick(alloc, &QUICK, capture, 7, NOTHING)?;
    assert_eq!(rt; run.status, 0);
    assert_eq!(rt; run.enqueued, 1);
    let written = joined(alloc, &[&RAISED, &HEAD_OF_16, &CIPHER])?;
    assert_eq!(rt; run.out.bytes(), written.as_slice());
    let text =
        b"packets=1 success=1 auth_failed=0 invalid_args=0 short=0 passed=0\ndevice 0 operations=1\nstatus=0\n";
    assert_eq!(rt; run.report.bytes(), text.as_slice());
    Ok(())
}

const NO_PACKETS: &[u8] =
    b"packets=0 success=0 auth_failed=0 invalid_args=0 short=0 passed=0\ndevice 0 operations=0\n";

// Runs on a capture of no whole record, and expects this status, this many bytes and a report that
// ends with this line and counts where the header was written.
fn expect(
    rt: &impl Abort,
    alloc: Global,
    words: &[&str],
    capture: &[&[u8]],
    status: u8,
    written: usize,
    last: &[u8],
) -> Result<(), Fail> {
    let run = quick(alloc, words, joined(alloc, capture)?, 7, NOTHING)?;
    assert_eq!(rt; run.status, status);
    assert_eq!(rt; run.out.bytes(), &RAISED[..written.min(24)]);
    let counts = if written == 0 {
        b"".as_slice()
    } else {
        NO_PACKETS
    };
    let report = joined(alloc, &[counts, last])?;
    assert_eq!(rt; run.report.bytes(), report.as_slice());
    Ok(())
}

#[test]
fn no_record_is_written(rt: HostRuntime) -> Result<(), Fail> {
    let zero = ["quick", "00000000000000000000000000000000", "00000000"];
    let done = b"status=0\n";
    expect(&rt, rt.alloc(), &zero, &[&HEADER], 0, 24, done)?;
    let usage = b"status=2 usage\n";
    let short_key = ["quick", "00", "00000000"];
    expect(&rt, rt.alloc(), &short_key, &[&HEADER], 2, 0, usage)?;
    expect(&rt, rt.alloc(), &[], &[&HEADER], 2, 0, usage)?;
    let large = b"status=8 too large value=262145\n";
    expect(
        &rt,
        rt.alloc(),
        &zero,
        &[&HEADER, &HEAD_TOO_LARGE],
        8,
        24,
        large,
    )
}

// Two records of 60 bytes, and what is written for them.
fn two_records(alloc: Global) -> Result<(Vec<u8>, Vec<u8>), AllocError> {
    let packet = [7; 60];
    let read = joined(
        alloc,
        &[&HEADER, &HEAD_OF_60, &packet, &HEAD_OF_60, &packet],
    )?;
    let written = joined(
        alloc,
        &[&RAISED, &HEAD_OF_60, &SEVENS_0, &HEAD_OF_60, &SEVENS_1],
    )?;
    Ok((read, written))
}

// How the first `length` bytes of two records end: how many records are whole, whether the header is
// there, and the report's last line.
fn cut_at(length: usize) -> (usize, &'static str)
    ensures { result.0 ≤ 2 }
{
    match length {
        0..=23 => (0, "status=3 capture at=0 cause=short_header"),
        24 => (0, "status=0"),
        25..=39 => (0, "status=3 capture at=24 cause=short_record"),
        40..=99 => (0, "status=3 capture at=24 cause=short_data"),
        100 => (1, "status=0"),
        101..=115 => (1, "status=3 capture at=100 cause=short_record"),
        116..=175 => (1, "status=3 capture at=100 cause=short_data"),
        176 => (2, "status=0"),
        _ => (2, "status=3 capture at=176 cause=short_record"),
    }
}

#[test]
fn a_capture_is_cut_anywhere(rt: HostRuntime) -> Result<(), Fail> {
    let alloc = rt.alloc();
    let (mut read, written) = two_records(alloc)?;
    read.extend_from_slice(&[0; 9])?;
    for length in 0..186 {
        // The source gives one byte, seven bytes or all bytes at a time.
        let piece = match length % 3 {
            0 => 1,
            1 => 7,
            _ => 1000,
        };
        let bytes = Vec::from_slice(alloc, read.get(..length).ok_or("a length")?)?;
        let run = quick(alloc, &QUICK, bytes, piece, NOTHING)?;
        let (records, last) = cut_at(length);
        let counts = if length < 24 {
            String::new(alloc)
        } else {
            format!(in alloc;
                "packets={records} success={records} auth_failed=0 invalid_args=0 short=0 passed=0\ndevice 0 operations={records}\n"
            )?
        };
        let report = format!(in alloc; "{counts}{last}\n")?;
        assert_eq!(rt; run.report.bytes(), report.as_bytes(), "cut at {length}");
        assert_eq!(rt; run.enqueued, records as u64);
        let end = if length < 24 { 0 } else { 24 + 76 * records };
        assert_eq!(rt; run.out.bytes(), written.get(..end).ok_or("an end")?);
    }
    Ok(())
}

#[test]
fn each_read_and_each_write_fails_in_turn(rt: HostRuntime) -> Result<(), Fail> {
    let alloc = rt.alloc();
    let (read, written) = two_records(alloc)?;
    for call in 0..32 {
        let bytes = Vec::from_slice(alloc, read.as_slice())?;
        let failing = Failing {
            reads: &[call],
            ..NOTHING
        };
        let run = quick(alloc, &QUICK, bytes, 7, failing)?;
        // There are 4 reads for the header, 3 and 9 for each record, and one at the end. A record is written before the next one is read.
        let (status, end) = match call {
            0..=3 => (5, 0),
            4..=15 => (5, 24),
            16..=27 => (5, 100),
            28 => (5, 176),
            _ => (0, 176),
        };
        assert_eq!(rt; run.status, status, "read {call}");
        assert_eq!(rt; run.out.bytes(), written.get(..end).ok_or("an end")?);
    }
    for (call, end) in [(0, 0), (1, 24), (2, 40), (3, 100), (4, 116), (5, 176)] {
        let bytes = Vec::from_slice(alloc, read.as_slice())?;
        let failing = Failing {
            writes: &[call],
            ..NOTHING
        };
        let run = quick(alloc, &QUICK, bytes, 7, failing)?;
        let status = if end == 176 { 0 } else { 6 };
        assert_eq!(rt; run.status, status, "write {call}");
        assert_eq!(rt; run.out.bytes(), written.get(..end).ok_or("an end")?);
    }
    Ok(())
}

#[test]
fn each_sink_is_flushed_once_behind_its_last_write(rt: HostRuntime) -> Result<(), Fail> {
    let alloc = rt.alloc();
    let out_fails = Failing {
        flush_of_out: true,
        ..NOTHING
    };
    let report_fails = Failing {
        flush_of_report: true,
        ..NOTHING
    };
    for (failing, status) in [(NOTHING, 0), (out_fails, 6), (report_fails, 6)] {
        let capture = joined(alloc, &[&HEADER, &HEAD_OF_16, PLAIN])?;
        let run = quick(alloc, &QUICK, capture, 100, failing)?;
        assert_eq!(rt; run.status, status);
        assert_eq!(rt; (run.out.flushes, run.out.unflushed), (1, 0));
        assert_eq!(rt; (run.report.flushes, run.report.unflushed), (1, 0));
    }
    Ok(())
}
