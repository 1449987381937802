ghost use Rattle.std.specs.Prelude.{◌≡◌, ◌+◌, ◌<◌, ◌≤◌, [], length, IfOk};
ghost use Rattle.std.specs.List.{All};
ghost use Rattle.crypto_op.specs.Op.{IsFresh};
ghost use Rattle.flight_table.specs.Call.{IsSameDesk};

use crate::{McGot, McQp, McStop};
use crypto_model::{DigestPlace, Range, SessId};
use crypto_op::{Aad, Iv, Op, OpBurst, OpSpec};
use flight_table::{Hand, Phase, Word};
use mbuf_chain::Mbuf;
use seg_list::Seg;
use std::alloc::Global;
use std::sync::Arc;
use std::test::Fail;
use sym_engine::process;
use sym_session::SessionTable;

// An operation of a session that no table has.
fn operation(alloc: Global, number: u32) -> Result<Op<u32>, Fail>
    ensures { IfOk result IsFresh }
{
    let spec = OpSpec {
        session: SessId(7),
        iv: Iv::copy(b""),
        aad: Aad::empty(alloc),
        cipher: Range { off: 0, len: 0 },
        auth: Range { off: 0, len: 0 },
        place: DigestPlace::Nowhere,
        digest: [0; 64],
        pos: 40 + u64::from(number),
    };
    let chain = Mbuf::new(alloc, Seg::new(alloc, 0)?).ok().ok_or("memory")?;
    Ok(Op::new(spec, chain, number))
}

// Operations that are numbered from 0 in their cargo.
fn burst(alloc: Global, n: usize) -> Result<OpBurst<u32>, Fail>
    requires { n ≤ 16 }
    ensures { IfOk result (λ b. All IsFresh b.ops) }
{
    let mut burst = OpBurst::new(alloc, 16)?;
    for i in 0..n {
        burst.push(operation(alloc, i as u32)?);
    }
    Ok(burst)
}

fn sessions(alloc: Global) -> Result<Arc<SessionTable>, Fail> {
    let table = SessionTable::new(alloc)?;
    Ok(Arc::new(alloc, table)?)
}

// Whether these come out, and no more.
fn gives(out: &mut OpBurst<u32>, numbers: &[u32]) -> bool {
    for number in numbers {
        match out.pop() {
            Some(op) => {
                if *op.cargo() != *number {
                    return false;
                }
            }
            None => return false,
        }
    }
    out.is_empty()
}

fn not_yet(n: usize, phase: Phase, number: u64, worker: u8) -> McGot {
    McGot {
        n,
        stop: McStop::NotYet(Word {
            phase,
            number,
            worker,
        }),
    }
}

// Takes an operation and finishes it.
fn finished(table: &SessionTable, hand: &mut Hand, k: usize) -> Result<(), Word>
    requires slot { k < hand.old.slots }
    requires sessions { hand.old.view.about.sessions ≡ table.now }
    ensures { IsSameDesk hand.old hand.new }
{
    let mut op = hand.take(k)?;
    process(table, &mut op);
    hand.finish(k, op);
    Ok(())
}

// Takes an operation and gives it back.
fn returned(hand: &mut Hand, k: usize) -> Result<(), Word>
    requires { k < hand.old.slots }
    ensures { IsSameDesk hand.old hand.new }
{
    let op = hand.take(k)?;
    hand.give_back(k, op);
    Ok(())
}

#[test]
fn what_no_worker_takes_is_answered_here(rt: HostRuntime) -> Result<(), Fail> {
    let alloc = rt.alloc();
    let (mut qp, hands) = McQp::open(alloc, 2, 3, 4, true, sessions(alloc)?)?;
    let mut burst = burst(alloc, 6)?;
    let mut out = OpBurst::new(alloc, 16)?;
    assert!(rt; qp.enqueue_burst(&mut burst, 8) == 4 && burst.len() == 2);
    assert!(rt; qp.dequeue_burst(&mut out, 8) == not_yet(0, Phase::Ready, 0, 0));
    assert!(rt; qp.help(8) == 4 && qp.helped() == 4 && qp.pending() == 4);
    assert!(rt;
        qp.dequeue_burst(&mut out, 8)
            == McGot {
                n: 4,
                stop: McStop::Empty
            }
    );
    assert!(rt; gives(&mut out, &[0, 1, 2, 3]));
    let _ = hands;
    Ok(())
}

// How many of eight operations a new queue pair accepts.
fn accepted(alloc: Global, workers: usize, quota: usize, slots: usize) -> Result<usize, Fail>
    requires workers { (1 ≤ workers) × (workers ≤ 8) }
    requires quota { (1 ≤ quota) × (quota ≤ 3) }
    requires slots { (1 ≤ slots) × (slots ≤ 4) }
{
    let (mut qp, _) = McQp::open(alloc, workers, quota, slots, true, sessions(alloc)?)?;
    let mut burst = burst(alloc, 8)?;
    Ok(qp.enqueue_burst(&mut burst, 8))
}

#[test]
fn slots_and_quotas_bound_what_is_accepted(rt: HostRuntime) -> Result<(), Fail> {
    let alloc = rt.alloc();
    for code in 0..96usize {
        let workers = code % 8 + 1;
        let quota = code / 8 % 3 + 1;
        let slots = code / 24 + 1;
        let n = accepted(alloc, workers, quota, slots)?;
        assert!(rt; n == slots.min(quota * workers));
    }
    Ok(())
}

#[test]
fn with_ordering_off_any_comes_back(rt: HostRuntime) -> Result<(), Fail> {
    let alloc = rt.alloc();
    let table = sessions(alloc)?;
    let (mut qp, mut hands) = McQp::open(alloc, 2, 2, 4, false, Arc::try_clone(&table)?)?;
    let mut second = hands.pop().ok_or("a hand")?;
    let mut first = hands.pop().ok_or("a hand")?;
    let mut burst = burst(alloc, 3)?;
    let mut out = OpBurst::new(alloc, 16)?;
    assert!(rt; qp.enqueue_burst(&mut burst, 3) == 3);
    assert!(rt; finished(&table, &mut second, 2) == Ok(()));
    assert!(rt; qp.dequeue_burst(&mut out, 8) == not_yet(1, Phase::Ready, 0, 0));
    assert!(rt; gives(&mut out, &[2]) && returned(&mut first, 0) == Ok(()));
    assert!(rt;
        qp.help_back(8) == 1 && qp.dequeue_burst(&mut out, 8) == not_yet(1, Phase::Ready, 1, 0)
    );
    assert!(rt; gives(&mut out, &[0]) && finished(&table, &mut first, 1) == Ok(()));
    assert!(rt;
        qp.help(8) == 0
            && qp.dequeue_burst(&mut out, 1)
                == McGot {
                    n: 1,
                    stop: McStop::Max
                }
    );
    assert!(rt; gives(&mut out, &[1]) && qp.pending() == 0 && qp.helped() == 1);
    Ok(())
}

#[test]
fn the_span_counts_what_was_returned_early(rt: HostRuntime) -> Result<(), Fail> {
    let alloc = rt.alloc();
    let table = sessions(alloc)?;
    let (mut qp, mut hands) = McQp::open(alloc, 1, 2, 2, false, Arc::try_clone(&table)?)?;
    let mut hand = hands.pop().ok_or("a hand")?;
    let mut begun = burst(alloc, 2)?;
    let mut refused = burst(alloc, 2)?;
    let mut later = burst(alloc, 2)?;
    let mut out = OpBurst::new(alloc, 16)?;
    assert!(rt; qp.enqueue_burst(&mut begun, 2) == 2);
    assert!(rt; finished(&table, &mut hand, 1) == Ok(()));
    assert!(rt;
        qp.dequeue_burst(&mut out, 8) == not_yet(1, Phase::Ready, 0, 0) && qp.pending() == 1
    );
    assert!(rt; qp.enqueue_burst(&mut refused, 2) == 0 && qp.help(1) == 1);
    assert!(rt;
        qp.dequeue_burst(&mut out, 8)
            == McGot {
                n: 1,
                stop: McStop::Empty
            }
    );
    assert!(rt; qp.enqueue_burst(&mut later, 2) == 2 && gives(&mut out, &[1, 0]));
    Ok(())
}

#[test]
fn a_drained_queue_pair_is_closed_with_its_hands(rt: HostRuntime) -> Result<(), Fail> {
    let alloc = rt.alloc();
    let (mut qp, hands) = McQp::open(alloc, 2, 1, 4, true, sessions(alloc)?)?;
    let mut burst = burst(alloc, 3)?;
    let mut out = OpBurst::new(alloc, 16)?;
    assert!(rt; qp.enqueue_burst(&mut burst, 3) == 2 && qp.help(2) == 2);
    if qp.pending() > out.room() {
        return Err(Fail::from("room"));
    }
    qp.drain(&rt, &mut out);
    assert!(rt; gives(&mut out, &[0, 1]));
    qp.close(hands);
    Ok(())
}
