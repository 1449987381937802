use crate::{BadText, BadThreshold, Front, Mode, OrderRing, SchedText, Scheduler};
use dev_core::Kind;
use std::process::Abort;
use std::sync::Arc;
use std::test::Fail;
use sym_session::SessionTable;

// The offset of the text's fault, and None where it has none.
fn fault(text: &str) -> Option<usize> {
    match SchedText::parse(text) {
        Ok(_) => None,
        Err(BadText { at }) => Some(at),
    }
}

fn assert_faults(rt: &impl Abort, rows: &[(&str, Option<usize>)]) {
    for (text, at) in rows {
        assert_eq!(rt; fault(text), *at, "{text}");
    }
}

#[test]
fn a_faulty_field_is_told_by_its_offset(rt: HostRuntime) {
    assert_faults(
        &rt,
        &[
            ("mode=round-robin,worker=plain,threshold=5", Some(30)),
            ("", Some(0)),
            (",mode=fail-over", Some(0)),
            ("worker=plain,", Some(13)),
            ("mode=Fail-over,worker=plain,worker=plain", Some(0)),
            ("worker=plain,mode=fail-over,mode=fail-over", Some(28)),
            ("ordering=enable,ordering=disable", Some(16)),
            ("mode_param=threshold:1,mode_param=threshold:1", Some(23)),
            ("mode_param=threshold:0", Some(0)),
            ("mode_param=threshold:96", Some(0)),
            ("mode_param=threshold:262145", Some(0)),
            ("mode_param=threshold:0000128", Some(0)),
            ("mode_param=threshold:", Some(0)),
            ("mode_param=threshold:+1", Some(0)),
            (
                "worker=plain,worker=plain,worker=plain,worker=plain,worker=plain,worker=plain,worker=plain,worker=plain,worker=plain,mode=round-robin",
                Some(104),
            ),
        ],
    );
}

#[test]
fn a_text_that_is_not_whole_is_faulty_at_its_end(rt: HostRuntime) {
    assert_faults(
        &rt,
        &[
            ("mode=fail-over,worker=plain", Some(27)),
            (
                "mode=packet-size-distr,worker=plain,worker=lane,worker=plain",
                Some(60),
            ),
            ("mode=round-robin", Some(16)),
            ("mode=packet-size-distr", Some(22)),
            ("mode=multi-core", Some(15)),
            ("worker=plain", Some(12)),
            ("worker=lane", Some(11)),
            ("ordering=enable", Some(15)),
            ("ordering=disable", Some(16)),
            ("mode_param=threshold:128", Some(24)),
            (
                "mode=round-robin,worker=plain,mode_param=threshold:128",
                Some(54),
            ),
            (
                "mode=packet-size-distr,worker=plain,mode_param=threshold:1,worker=plain",
                None,
            ),
            (
                "mode=packet-size-distr,worker=plain,mode_param=threshold:262144,worker=plain",
                None,
            ),
            (
                "mode=packet-size-distr,worker=plain,mode_param=threshold:000128,worker=plain",
                None,
            ),
            (
                "worker=plain,worker=plain,worker=plain,worker=plain,worker=plain,worker=plain,worker=plain,worker=plain,mode=round-robin",
                None,
            ),
        ],
    );
}

#[test]
fn a_text_says_all_of_a_scheduler(rt: HostRuntime) -> Result<(), Fail> {
    let plain = SchedText::parse("mode=fail-over,worker=plain,worker=plain")?;
    let expected = SchedText {
        mode: Mode::FailOver,
        kinds: [Kind::Plain; 8],
        workers: 2,
        ordering: false,
        threshold: 128,
    };
    assert_eq!(rt; plain, expected);

    let full = SchedText::parse(
        "ordering=enable,worker=plain,mode_param=threshold:64,worker=lane,mode=packet-size-distr",
    )?;
    let mut kinds = [Kind::Plain; 8];
    kinds[1] = Kind::Lane;
    let expected = SchedText {
        mode: Mode::PacketSize,
        kinds,
        workers: 2,
        ordering: true,
        threshold: 64,
    };
    assert_eq!(rt; full, expected);
    Ok(())
}

#[test]
fn numbers_are_opened_and_taken_back(rt: HostRuntime) -> Result<(), Fail> {
    let mut ring = OrderRing::<char>::new(rt.alloc(), 2)?;
    assert_eq!(rt;
        (ring.front(), ring.free(), ring.next()),
        (Front::Empty, 2, 0)
    );
    assert_eq!(rt; (ring.open(40), ring.open(7)), (0, 1));
    assert_eq!(rt;
        (ring.front(), ring.free(), ring.len()),
        (Front::Open(0), 0, 2)
    );
    assert_eq!(rt; (ring.undo(), ring.undo(), ring.next()), (7, 40, 0));
    Ok(())
}

#[test]
fn thresholds_are_powers_of_two(rt: HostRuntime) -> Result<(), Fail> {
    let alloc = rt.alloc();
    let sessions = Arc::new(alloc, SessionTable::new(alloc)?)?;
    let mut scheduler = Scheduler::new(Mode::PacketSize, true, sessions, vec![in alloc; 'x', 'y']?);
    for (n, answer) in [
        (0, Err(BadThreshold)),
        (96, Err(BadThreshold)),
        (262_145, Err(BadThreshold)),
        (524_288, Err(BadThreshold)),
        (1, Ok(())),
        (262_144, Ok(())),
    ] {
        assert_eq!(rt; scheduler.set_threshold(n), answer, "{n}");
    }
    assert_eq!(rt; scheduler.release().as_slice(), ['x', 'y'].as_slice());
    Ok(())
}
