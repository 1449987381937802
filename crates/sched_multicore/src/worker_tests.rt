//! Workers over devices, with the owners of their queue pairs beside them on one thread.
ghost use Rattle.std.specs.Prelude.{◌≡◌, ◌+◌, ◌<◌, ◌^◌, [], length, IfOk};
ghost use Rattle.std.specs.Arc.{arc_value};
ghost use Rattle.crypto_op.specs.Op.{IsFresh};
ghost use Rattle.flight_table.specs.Rule.{Waiting};

use crate::{Gate, OpenGate, Turn, Worker};
use crypto_model::{DigestPlace, Range, SessId};
use crypto_op::{Aad, Iv, Op, OpSpec};
use dev_core::{Device, Driver, Kind, LimitList, Limits, StallDriver};
use flight_table::{Book, Flight, Hand, Note, Owner, Phase};
use mbuf_chain::Mbuf;
use seg_list::Seg;
use std::alloc::Global;
use std::sync::Arc;
use std::sync::atomic::{AtomicUsize, Ordering};
use std::test::Fail;
use sym_engine::PlainDriver;
use sym_session::SessionTable;

type Stalling = StallDriver<PlainDriver<Note>>;

// An operation of a session that no table has.
fn operation(alloc: Global) -> Result<Op<()>, Fail>
    ensures { IfOk result IsFresh }
{
    let spec = OpSpec {
        session: SessId(7),
        iv: Iv::copy(b""),
        aad: Aad::empty(alloc),
        cipher: Range { off: 0, len: 0 },
        auth: Range { off: 0, len: 0 },
        place: DigestPlace::Nowhere,
        digest: [0; 64],
        pos: 9,
    };
    let chain = Mbuf::new(alloc, Seg::new(alloc, 0)?)
        .ok()
        .ok_or("no memory")?;
    Ok(Op::new(spec, chain, ()))
}

// With a note for it.
fn noted(book: &mut Book, op: Op<()>) -> Op<Note>
    requires fresh { IsFresh op }
    requires few { length book.old.drawn < 2 ^ 58 }
    ensures table { book.new.table ≡ book.old.table }
    ensures drawn { length book.new.drawn ≡ length book.old.drawn + 1 }
    ensures waiting { Waiting book.old (length book.old.drawn) result }
{
    let note = book.draw(&op);
    op.with_cargo(note).0
}

// A queue pair of four slots and one worker, which has an operation for it in the slots 0, 1 and 3.
fn pair(alloc: Global, sessions: &SessionTable) -> Result<(Owner, Hand), Fail>
    ensures owner { IfOk result (λ r. r.0.slots ≡ 4) }
    ensures hand { IfOk result (λ r. (r.1.slots ≡ 4) × (r.1.view.worker ≡ 0) × (r.1.view.about.sessions ≡ sessions.now) × (r.1.view.taken ≡ [])) }
{
    let mut book = Book::open(alloc, sessions)?;
    let (mut owner, mut hands) = Flight::open(alloc, 4, 1, &book)?;
    let hand = hands.pop().ok_or("a hand")?;
    owner.publish(0, noted(&mut book, operation(alloc)?), 0);
    owner.publish(1, noted(&mut book, operation(alloc)?), 0);
    owner.publish(3, noted(&mut book, operation(alloc)?), 0);
    Ok((owner, hand))
}

// A device of depth 8 that stalls by these limits.
fn device(
    alloc: Global,
    sessions: Arc<SessionTable>,
    enqueue: Limits,
    dequeue: Limits,
) -> Result<Stalling, Fail>
    ensures held { IfOk result (λ d. ⟦<Stalling as Driver<Note>>⟧.held d ≡ []) }
    ensures sessions { IfOk result (λ d. ⟦<Stalling as Driver<Note>>⟧.sessions d ≡ arc_value sessions) }
{
    let mut device = StallDriver::new(PlainDriver::new(alloc)?, enqueue, dequeue);
    device.set_up(alloc, Kind::Plain, sessions, 8)?;
    Ok(device)
}

// A worker with one queue pair, and its owner.
fn single(
    alloc: Global,
    enqueue: Limits,
    dequeue: Limits,
) -> Result<(Owner, Worker<Stalling>), Fail>
    ensures { IfOk result (λ r. r.0.slots ≡ 4) }
{
    let sessions = Arc::new(alloc, SessionTable::new(alloc)?)?;
    let (owner, hand) = pair(alloc, &sessions)?;
    let dev = device(alloc, sessions, enqueue, dequeue)?;
    let hands = vec![in alloc; hand]?;
    match Worker::open(alloc, 0, dev, hands, 4) {
        Ok(worker) => Ok((owner, worker)),
        Err(_) => Err("no memory".into()),
    }
}

#[test]
fn what_its_device_does_not_take_is_given_back(rt: HostRuntime) -> Result<(), Fail> {
    let (mut owner, mut worker) = single(rt.alloc(), Limits::Always(0), Limits::Never)?;
    let expected = Turn {
        taken: 3,
        given_back: 3,
        finished: 0,
    };
    assert!(rt; worker.turn(&OpenGate) == expected);
    assert!(rt; owner.look(0).phase == Phase::Back && owner.look(3).phase == Phase::Back);
    Ok(())
}

#[test]
fn what_its_device_does_is_finished(rt: HostRuntime) -> Result<(), Fail> {
    let (mut owner, mut worker) = single(rt.alloc(), Limits::Never, Limits::Never)?;
    let expected = Turn {
        taken: 3,
        given_back: 0,
        finished: 3,
    };
    assert!(rt; worker.turn(&OpenGate) == expected);
    assert!(rt; owner.collect(0).is_ok() && owner.collect(1).is_ok() && owner.collect(3).is_ok());
    Ok(())
}

// One by one, the limit of the first call would hold back none.
#[test]
fn all_that_a_turn_takes_is_offered_at_once(rt: HostRuntime) -> Result<(), Fail> {
    let limits = Limits::Listed(LimitList::copy(rt.alloc(), &[2])?);
    let (mut owner, mut worker) = single(rt.alloc(), limits, Limits::Never)?;
    let expected = Turn {
        taken: 3,
        given_back: 1,
        finished: 2,
    };
    assert!(rt; worker.turn(&OpenGate) == expected);
    assert!(rt; owner.look(1).phase == Phase::Done && owner.look(3).phase == Phase::Back);
    Ok(())
}

// Holds nothing up, and counts.
#[derive(Drop)]
struct Counting {
    passed: AtomicUsize,
}

impl Gate for Counting {
    fn pass(&self, _worker: usize, _number: u64) {
        self.passed.fetch_add(1, Ordering::SeqCst);
    }
}

#[test]
fn what_stays_in_the_device_is_finished_by_later_turns(rt: HostRuntime) -> Result<(), Fail> {
    let (mut owner, mut worker) = single(rt.alloc(), Limits::Never, Limits::Always(1))?;
    let gate = Counting {
        passed: AtomicUsize::new(0),
    };
    assert!(rt; worker.turn(&gate).finished == 1 && gate.passed.load(Ordering::SeqCst) == 1);
    worker.run_until_closed(&rt, &gate, &AtomicUsize::new(2), 2);
    assert!(rt; gate.passed.load(Ordering::SeqCst) == 3);
    assert!(rt; owner.collect(0).is_ok() && owner.collect(1).is_ok() && owner.collect(3).is_ok());
    Ok(())
}

#[test]
fn one_worker_serves_two_queue_pairs(rt: HostRuntime) -> Result<(), Fail> {
    let alloc = rt.alloc();
    let sessions = Arc::new(alloc, SessionTable::new(alloc)?)?;
    let (mut first, hand) = pair(alloc, &sessions)?;
    let (mut second, other) = pair(alloc, &sessions)?;
    let hands = vec![in alloc; hand, other]?;
    let dev = device(alloc, sessions, Limits::Never, Limits::Never)?;
    let mut worker = Worker::open(alloc, 0, dev, hands, 4)
        .ok()
        .ok_or("no memory")?;
    assert!(rt; worker.turn(&OpenGate).finished == 6);
    assert!(rt; first.collect(3).is_ok() && second.collect(0).is_ok());
    worker.run_until_closed(&rt, &OpenGate, &AtomicUsize::new(2), 2);
    let (dev, hands) = worker.release();
    assert!(rt; dev.stats().enqueued == 6 && hands.len() == 2);
    Ok(())
}
