//! `gen`.
use super::{Failing, run_in_memory};
use crate::devices;
use std::test::Fail;

// The digest is that of an independent program. Whatever of the capture, the session source and the output is touched fails.
#[test]
fn a_generated_capture_is_sealed(rt: HostRuntime) -> Result<(), Fail> {
    let alloc = rt.alloc();
    let failing = Failing {
        reads: &[0],
        text_reads: &[0],
        writes: &[0],
        flush_of_out: true,
        flush_of_report: false,
    };
    let words = ["gen", "10000", "7"];
    let none = Vec::new(alloc);
    let run = run_in_memory(alloc, &words, &[], none, 1, failing, devices(alloc)?)?;
    assert_eq!(rt; (run.status, run.enqueued), (0, 5008));
    assert_eq!(rt; (run.out.bytes(), run.out.flushes), (b"".as_slice(), 0));
    let text =
        b"packets=10000 success=10000 auth_failed=0 invalid_args=0 short=0 passed=0\ndevice 0 operations=5008\ndevice 1 operations=4992\nsha256=48ce23113165d258bd3a8a1614aa48b51de953f13d0056c04336d5462f3d2f75\nstatus=0\n";
    assert_eq!(rt; run.report.bytes(), text.as_slice());
    Ok(())
}
