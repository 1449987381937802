//! What a run tells.
ghost use Rattle.std.specs.Prelude.{◌≡◌, ◌≤◌, ◌++◌, length, codes, decimal, Some, OnOk, OnErr};
ghost use Rattle.crypto_model.specs.Counts.{Rose};
ghost use Rattle.capcrypt.specs.Report.{cause_name, last_line, first_line, device_lines, digest_line, is_counted, listed, report_of};
ghost use Rattle.capcrypt.specs.Ran.{AppendsFront};
ghost use Rattle.capcrypt.specs.LineText.{line_text};

use crate::ending::{Ending, Outcome};
use crate::line::Line;
use capture_io::{CaptureCause, Sink, WriteFault, write_all};
use hex::encode_to_slice;
use packet_flow::Counts;

fn name_of(cause: CaptureCause) -> &'static [u8]
    ensures text { result.now ≡ cause_name cause }
    ensures length { length result.now ≤ 14 }
{
    match cause {
        CaptureCause::ShortHeader => b"short_header",
        CaptureCause::BadMagic => b"bad_magic",
        CaptureCause::BadVersion => b"bad_version",
        CaptureCause::ShortRecord => b"short_record",
        CaptureCause::ShortData => b"short_data",
        CaptureCause::FormNotBuilt => b"form_not_built",
    }
}

fn line_of_counts(counts: &Counts) -> Line
    ensures { line_text result ≡ first_line counts.now }
{
    let mut line = Line::new();
    line.field(b"packets=", counts.packets);
    line.field(b" success=", counts.success);
    line.field(b" auth_failed=", counts.auth_failed);
    line.field(b" invalid_args=", counts.invalid_args);
    line.field(b" short=", counts.short);
    line.field(b" passed=", counts.passed);
    line.push(b"\n");
    line
}

fn line_of_device(number: u64, operations: u64) -> Line
    ensures { line_text result ≡ codes "device " ++ decimal number ++ codes " operations=" ++ decimal operations ++ codes "\n" }
{
    let mut line = Line::new();
    line.field(b"device ", number);
    line.field(b" operations=", operations);
    line.push(b"\n");
    line
}

fn line_of_digest(digest: &[u8; 32]) -> Line
    ensures { line_text result ≡ digest_line (Some digest.now) }
{
    let mut digits = [0; 64];
    match encode_to_slice(digest.as_slice(), &mut digits) {
        Ok(()) => {}
        Err(_) => unreachable!(),
    }
    let mut line = Line::new();
    line.push(b"sha256=");
    line.push(&digits);
    line.push(b"\n");
    line
}

fn line_of_ending(ending: &Ending) -> Line
    ensures { line_text result ≡ last_line ending.now }
{
    let mut line = Line::new();
    match *ending {
        Ending::Done => line.push(b"status=0\n"),
        Ending::Memory => line.push(b"status=1 memory\n"),
        Ending::Usage => line.push(b"status=2 usage\n"),
        Ending::Vdev { at } => {
            line.field(b"status=2 vdev at=", at);
            line.push(b"\n");
        }
        Ending::Capture { at, cause } => {
            line.field(b"status=3 capture at=", at);
            line.push(b" cause=");
            line.push(name_of(cause));
            line.push(b"\n");
        }
        Ending::Sessions { line: number, kind } => {
            line.field(b"status=4 sessions line=", u64::from(number));
            line.field(b" kind=", u64::from(kind));
            line.push(b"\n");
        }
        Ending::ReadFault => line.push(b"status=5 read fault\n"),
        Ending::WriteFault => line.push(b"status=6 write fault\n"),
        Ending::Stalled => line.push(b"status=7 stalled\n"),
        Ending::TooLarge(value) => {
            line.field(b"status=8 too large value=", value);
            line.push(b"\n");
        }
    }
    line
}

fn is_counted(ending: &Ending) -> bool
    ensures { result ≡ is_counted ending.now }
{
    matches!(
        ending,
        Ending::Done | Ending::Capture { .. } | Ending::Stalled | Ending::TooLarge(_)
    )
}

fn write_devices<E: Sink>(report: &mut E, devices: &[u64]) -> Result<(), WriteFault>
    ensures written { E.tells → OnOk result (E.written report.new ≡ E.written report.old ++ device_lines 0 devices.now) }
    ensures fault { E.tells → OnErr result (AppendsFront (E.written report.old) (E.written report.new) (device_lines 0 devices.now)) }
    ensures later { E.faults report.old ≤ E.faults report.new }
    ensures cause { OnErr result (Rose (E.faults report.old) (E.faults report.new)) }
    ensures steady { E.steady → OnOk result (E.faults report.new ≡ E.faults report.old) }
{
    for (i, operations) in devices.iter().enumerate() {
        write_all(report, line_of_device(i as u64, *operations).text())?;
    }
    Ok(())
}

fn write_counts<E: Sink>(report: &mut E, counts: &Counts, devices: &[u64]) -> Result<(), WriteFault>
    ensures written { E.tells → OnOk result (E.written report.new ≡ E.written report.old ++ (first_line counts.now ++ device_lines 0 devices.now)) }
    ensures fault { E.tells → OnErr result
        (AppendsFront (E.written report.old) (E.written report.new) (first_line counts.now ++ device_lines 0 devices.now)) }
    ensures later { E.faults report.old ≤ E.faults report.new }
    ensures cause { OnErr result (Rose (E.faults report.old) (E.faults report.new)) }
    ensures steady { E.steady → OnOk result (E.faults report.new ≡ E.faults report.old) }
{
    write_all(report, line_of_counts(counts).text())?;
    write_devices(report, devices)
}

fn write_digest<E: Sink>(report: &mut E, digest: Option<[u8; 32]>) -> Result<(), WriteFault>
    ensures written { E.tells → OnOk result (E.written report.new ≡ E.written report.old ++ digest_line digest) }
    ensures fault { E.tells → OnErr result (AppendsFront (E.written report.old) (E.written report.new) (digest_line digest)) }
    ensures later { E.faults report.old ≤ E.faults report.new }
    ensures cause { OnErr result (Rose (E.faults report.old) (E.faults report.new)) }
    ensures steady { E.steady → OnOk result (E.faults report.new ≡ E.faults report.old) }
{
    match digest {
        Some(digest) => write_all(report, line_of_digest(&digest).text()),
        None => Ok(()),
    }
}

fn write_counted<E: Sink>(
    report: &mut E,
    counts: &Counts,
    devices: &[u64],
    digest: Option<[u8; 32]>,
) -> Result<(), WriteFault>
    ensures written { E.tells → OnOk result
        (E.written report.new ≡ E.written report.old ++ (first_line counts.now ++ device_lines 0 devices.now ++ digest_line digest)) }
    ensures fault { E.tells → OnErr result
        (AppendsFront (E.written report.old) (E.written report.new) (first_line counts.now ++ device_lines 0 devices.now ++ digest_line digest)) }
    ensures later { E.faults report.old ≤ E.faults report.new }
    ensures cause { OnErr result (Rose (E.faults report.old) (E.faults report.new)) }
    ensures steady { E.steady → OnOk result (E.faults report.new ≡ E.faults report.old) }
{
    write_counts(report, counts, devices)?;
    write_digest(report, digest)
}

// The counts, where they stand in the report.
fn write_listed<E: Sink>(
    report: &mut E,
    outcome: &Outcome,
    devices: &[u64],
    digest: Option<[u8; 32]>,
) -> Result<(), WriteFault>
    ensures written { E.tells → OnOk result (E.written report.new ≡ E.written report.old ++ listed outcome.now devices.now digest) }
    ensures fault { E.tells → OnErr result (AppendsFront (E.written report.old) (E.written report.new) (listed outcome.now devices.now digest)) }
    ensures later { E.faults report.old ≤ E.faults report.new }
    ensures cause { OnErr result (Rose (E.faults report.old) (E.faults report.new)) }
    ensures steady { E.steady → OnOk result (E.faults report.new ≡ E.faults report.old) }
{
    if outcome.header && is_counted(&outcome.ending) {
        write_counted(report, &outcome.counts, devices, digest)
    } else {
        Ok(())
    }
}

/// Writes a report, and flushes. At a fault a front of it was written.
pub(crate) fn write_report<E: Sink>(
    report: &mut E,
    outcome: &Outcome,
    devices: &[u64],
    digest: Option<[u8; 32]>,
) -> Result<(), WriteFault>
    ensures written { E.tells → OnOk result (E.written report.new ≡ E.written report.old ++ report_of outcome.now devices.now digest) }
    ensures fault { E.tells → OnErr result (AppendsFront (E.written report.old) (E.written report.new) (report_of outcome.now devices.now digest)) }
    ensures later { E.faults report.old ≤ E.faults report.new }
    ensures cause { OnErr result (Rose (E.faults report.old) (E.faults report.new)) }
    ensures steady { E.steady → OnOk result (E.faults report.new ≡ E.faults report.old) }
{
    write_listed(report, outcome, devices, digest)?;
    write_all(report, line_of_ending(&outcome.ending).text())?;
    report.flush()
}
