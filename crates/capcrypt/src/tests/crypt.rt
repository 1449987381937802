//! `crypt` through a plain device.
use super::{
    Ended, Failing, HEAD_OF_16, HEAD_OF_60, HEADER, NOTHING, RAISED, joined, plain, run_in_memory,
};
use crypto_op::Card;
use std::alloc::Global;
use std::process::Abort;
use std::test::Fail;
use sym_engine::PlainDriver;

pub(super) const CRYPT: [&str; 7] = [
    "crypt",
    "--vdev",
    "mode=round-robin,worker=plain",
    "--sessions",
    "f",
    "--burst",
    "1",
];

pub(super) const SEALS: &[u8] =
    b"capcrypt 1\nsession s gcm encrypt 00000000000000000000000000000000 00000000 16 0\ndefault s 0\n";

const OPENS: &[u8] =
    b"capcrypt 1\nsession s gcm decrypt 00000000000000000000000000000000 00000000 16 0\ndefault s 0\n";

// Datagrams of UDP are sealed, and other packets pass.
pub(super) const BY_RULE: &[u8] =
    b"capcrypt 1\nsession a gcm encrypt 000102030405060708090a0b0c0d0e0f 00000001 16 14\nrule 23 11 a 14\ndefault pass\n";

const HEAD_OF_32: [u8; 16] = [1, 0, 0, 0, 0, 0, 0, 0, 32, 0, 0, 0, 32, 0, 0, 0];

// Sixteen zero bytes under the zero key and the zero IV, and their tag: test case 2 of the GCM specification.
const SEALED: [u8; 32] = [
    0x03, 0x88, 0xda, 0xce, 0x60, 0xb6, 0xa3, 0x92, 0xf3, 0x28, 0xc2, 0xb9, 0x71, 0xb2, 0xfe, 0x78,
    0xab, 0x6e, 0x47, 0xd4, 0x2c, 0xec, 0x13, 0xbd, 0xf5, 0x3a, 0x67, 0xb2, 0x12, 0x57, 0xbd, 0xdf,
];

fn crypt(
    alloc: Global,
    words: &[&str],
    text: &[u8],
    failing: Failing<'_>,
    capture: Vec<u8>,
) -> Result<Ended<PlainDriver<Card>>, Fail> {
    let devs = plain(alloc)?;
    run_in_memory(alloc, words, text, capture, 1000, failing, devs)
}

// One packet under a session text: the record that is written, and the counts of the report.
#[test]
fn one_packet_is_sealed_opened_or_left(rt: HostRuntime) -> Result<(), Fail> {
    let alloc = rt.alloc();
    let zeros = [0; 60];
    let mut forged = SEALED;
    forged[31] = 0xde;
    let cbc: &[u8] =
        b"capcrypt 1\nsession c cbc encrypt 2b7e151628aed2a6abf7158809cf4f3c 0000000000000000\ndefault c 14\n";
    let passes: &[u8] = b"capcrypt 1\ndefault pass\n";
    let head_of_13: &[u8] = &[1, 0, 0, 0, 0, 0, 0, 0, 13, 0, 0, 0, 13, 0, 0, 0];
    let success = "success=1 auth_failed=0 invalid_args=0 short=0 passed=0\ndevice 0 operations=1";
    let auth_failed =
        "success=0 auth_failed=1 invalid_args=0 short=0 passed=0\ndevice 0 operations=1";
    let invalid_args =
        "success=0 auth_failed=0 invalid_args=1 short=0 passed=0\ndevice 0 operations=1";
    let short = "success=0 auth_failed=0 invalid_args=0 short=1 passed=0\ndevice 0 operations=0";
    let passed = "success=0 auth_failed=0 invalid_args=0 short=0 passed=1\ndevice 0 operations=0";
    let cases: [(&[u8], &[u8], &[u8], &[u8], &[u8], &str); 6] = [
        (
            SEALS,
            &HEAD_OF_16,
            &zeros[..16],
            &HEAD_OF_32,
            &SEALED,
            success,
        ),
        (
            OPENS,
            &HEAD_OF_32,
            &SEALED,
            &HEAD_OF_16,
            &zeros[..16],
            success,
        ),
        (
            OPENS,
            &HEAD_OF_32,
            &forged,
            &HEAD_OF_32,
            &forged,
            auth_failed,
        ),
        (cbc, &HEAD_OF_60, &zeros, &HEAD_OF_60, &zeros, invalid_args),
        (
            cbc,
            head_of_13,
            &zeros[..13],
            head_of_13,
            &zeros[..13],
            short,
        ),
        (passes, &HEAD_OF_60, &zeros, &HEAD_OF_60, &zeros, passed),
    ];
    for (text, head, packet, written_head, written, counts) in cases {
        let capture = joined(alloc, &[&HEADER, head, packet])?;
        let run = crypt(alloc, &CRYPT, text, NOTHING, capture)?;
        let expected = joined(alloc, &[&RAISED, written_head, written])?;
        assert_eq!(rt; run.out.bytes(), expected.as_slice());
        let report = format!(in alloc; "packets=1 {counts}\nstatus=0\n")?;
        assert_eq!(rt; run.report.bytes(), report.as_bytes());
    }
    Ok(())
}

// Expects that a run ends before the capture is read, with a report of this one line. Were the capture or the output
// touched, that would fail.
fn expect_at_once(
    rt: &impl Abort,
    alloc: Global,
    words: &[&str],
    text: &[u8],
    text_reads: &[u32],
    line: &str,
) -> Result<(), Fail> {
    let capture = joined(alloc, &[&HEADER, &HEAD_OF_16, &[0; 16]])?;
    let failing = Failing {
        reads: &[0],
        text_reads,
        writes: &[0],
        flush_of_out: true,
        flush_of_report: false,
    };
    let run = crypt(alloc, words, text, failing, capture)?;
    assert_eq!(rt; run.report.bytes(), line.as_bytes());
    assert!(rt; run.out.bytes().is_empty());
    assert_eq!(rt; run.out.flushes, 0);
    assert_eq!(rt; run.enqueued, 0);
    Ok(())
}

#[test]
fn nothing_is_done_without_a_plan(rt: HostRuntime) -> Result<(), Fail> {
    let alloc = rt.alloc();
    let usage = "status=2 usage\n";
    let texts = [
        ("mode=multi-core,worker=plain", usage),
        ("mode=round-robin,worker=plain,worker=plain", usage),
        ("mode=multi-core,worker=plane", "status=2 vdev at=16\n"),
        (
            "mode=round-robin,worker=plain,threshold=5",
            "status=2 vdev at=30\n",
        ),
        ("mode=fail-over,worker=plain", "status=2 vdev at=27\n"),
        ("", "status=2 vdev at=0\n"),
    ];
    for (vdev, line) in texts {
        let words = ["crypt", "--vdev", vdev, "--sessions", "f"];
        expect_at_once(&rt, alloc, &words, SEALS, &[], line)?;
    }
    expect_at_once(&rt, alloc, &CRYPT[..1], SEALS, &[], usage)?;
    let fault = "status=5 read fault\n";
    expect_at_once(&rt, alloc, &CRYPT, SEALS, &[0], fault)?;
    expect_at_once(&rt, alloc, &CRYPT, SEALS, &[1], fault)?;
    let line = "status=4 sessions line=1 kind=1\n";
    expect_at_once(&rt, alloc, &CRYPT, b"capcrypt 3", &[], line)?;
    let mut text = Vec::new(alloc);
    text.resize(1_048_576, b'\n')?;
    let line = "status=4 sessions line=1048577 kind=1\n";
    expect_at_once(&rt, alloc, &CRYPT, &text, &[], line)?;
    text.push(b'\n')?;
    let line = "status=8 too large value=1048577\n";
    expect_at_once(&rt, alloc, &CRYPT, &text, &[], line)
}

// Lines behind `capcrypt 1`, and the line and the kind of their fault.
#[test]
fn faulty_session_texts_are_told(rt: HostRuntime) -> Result<(), Fail> {
    let alloc = rt.alloc();
    let cases = [
        ("session s foo", 2, 2),
        (
            "session s gcm encrypt 00000000000000000000000000000000 00000000 16x 0",
            2,
            3,
        ),
        ("session s ctr encrypt 0g 00000000", 2, 4),
        (
            "session S ctr encrypt 00000000000000000000000000000000 00000000",
            2,
            5,
        ),
        ("default x 0", 2, 6),
        ("session s ctr encrypt 00 00000000", 2, 7),
        (
            "session s gcm encrypt 00000000000000000000000000000000 00000000 16 14\ndefault s 13",
            3,
            8,
        ),
        (
            "rule 0 0000000000000000000000000000000000000000000000000000000000000000000000000000000000000000000000000000000000000000000000000000000000 pass",
            2,
            9,
        ),
        ("", 2, 10),
        ("default pass\ndefault pass", 3, 10),
        (
            "session s ctr encrypt 00000000000000000000000000000000 00000000\ndefault x 0",
            3,
            6,
        ),
    ];
    for (lines, line, kind) in cases {
        let text = format!(in alloc; "capcrypt 1\n{lines}")?;
        let run = crypt(
            alloc,
            &CRYPT,
            text.as_bytes(),
            NOTHING,
            joined(alloc, &[&HEADER])?,
        )?;
        let report = format!(in alloc; "status=4 sessions line={line} kind={kind}\n")?;
        assert_eq!(rt; run.report.bytes(), report.as_bytes());
        assert!(rt; run.out.bytes().is_empty());
    }
    Ok(())
}

// The head of a record of this length, little-endian.
pub(super) fn head_of(length: u32) -> [u8; 16] {
    let mut head = [0; 16];
    head[8..12].copy_from_slice(&length.to_le_bytes());
    head[12..].copy_from_slice(&length.to_le_bytes());
    head
}

// Four packets, of which the first and the third are UDP.
pub(super) fn usual_packets(alloc: Global) -> Result<Vec<u8>, Fail> {
    let mut capture = joined(alloc, &[&HEADER])?;
    for (length, protocol) in [(60, 17), (1514, 6), (98, 17), (342, 6)] {
        capture.extend_from_slice(&head_of(length))?;
        for place in 0..length {
            capture.push(if place == 23 { protocol } else { 0 })?;
        }
    }
    Ok(capture)
}

#[test]
fn a_rule_chooses_among_usual_packets(rt: HostRuntime) -> Result<(), Fail> {
    let alloc = rt.alloc();
    let capture = usual_packets(alloc)?;
    let run = crypt(alloc, &CRYPT[..5], BY_RULE, NOTHING, capture)?;
    let report =
        b"packets=4 success=2 auth_failed=0 invalid_args=0 short=0 passed=2\ndevice 0 operations=2\nstatus=0\n";
    assert_eq!(rt; run.report.bytes(), report.as_slice());
    let written = run.out.bytes();
    let mut at: usize = 24;
    for length in [76, 1514, 114, 342] {
        let head = written.get(at..at.saturating_add(16)).ok_or("a head")?;
        assert_eq!(rt; head, head_of(length).as_slice());
        at = at.saturating_add(16).saturating_add(length as usize);
    }
    assert_eq!(rt; at, written.len());
    Ok(())
}

#[test]
fn the_longest_packet_is_sealed(rt: HostRuntime) -> Result<(), Fail> {
    let alloc = rt.alloc();
    let mut capture = joined(alloc, &[&HEADER, &head_of(262_144)])?;
    capture.resize(262_184, 0)?;
    let run = crypt(alloc, &CRYPT, SEALS, NOTHING, capture)?;
    assert_eq!(rt; run.status, 0);
    assert_eq!(rt; run.enqueued, 1);
    assert_eq!(rt;
        run.out.bytes().get(24..40),
        Some(head_of(262_160).as_slice())
    );
    assert_eq!(rt; run.out.bytes().len(), 262_200);
    Ok(())
}
