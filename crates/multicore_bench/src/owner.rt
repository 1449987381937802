//! The owner of a queue pair, with the operations that go through it again and again.
ghost use Rattle.std.specs.Prelude.{◌≡◌, ◌+◌, ◌<◌, ◌≤◌, ◌^◌, [], length, IfOk, true};
ghost use Rattle.std.specs.List.{All};
ghost use Rattle.std.specs.Arc.{arc_value};
ghost use Rattle.crypto_op.specs.Op.{IsFresh};
ghost use Rattle.sched_multicore.specs.Place.{unreturned};
ghost use Rattle.multicore_bench.specs.Hands.{AreNew};

use crate::tally::Tally;
use crypto_model::{DigestPlace, OutOfMemory, Range, SessId, Status};
use crypto_op::{Aad, Iv, Op, OpBurst, OpSpec};
use flight_table::Hand;
use mbuf_chain::Mbuf;
use sched_multicore::{McQp, McStop};
use seg_list::Seg;
use std::alloc::Global;
use std::sync::{Arc, Wait};
use std::thread;
use sym_session::SessionTable;

/// How many operations are offered and taken back at once.
pub const BURST: usize = 32;

/// How many operations are on their way at once.
const POOL: usize = 128;

/// The slots of a queue pair.
pub const SLOTS: usize = 512;

/// How many operations may be outstanding at a worker.
const QUOTA: usize = 64;

/// What goes through a queue pair, and how.
#[derive(Clone, Copy)]
pub struct Flow {
    pub operations: u32,
    /// How many owners have the queue pair, one after another, each for its share of the operations.
    pub owners: u32,
    /// How many operations are offered and taken back at once.
    pub burst: usize,
    /// After how many dequeues in a row that gave nothing the owner answers what no worker has.
    pub patience: u32,
    pub ordering: bool,
}

/// A queue pair, with the operations that aren't in it.
#[derive(Drop)]
pub struct Owner {
    pub qp: McQp<u64>,
    pub flow: Flow,
    pub tally: Tally,
    burst: OpBurst<u64>,
    spare: OpBurst<u64>,
    begun: u64,
    idle: u32,
    ghost fresh: { All IsFresh burst.ops },
    ghost counted: { length qp.book.drawn + length burst.ops ≡ begun },
    ghost few: { begun < 2 ^ 32 },
    ghost whole: { length tally.seen.items ≡ flow.operations },
}

// An operation of a session that no table has.
fn operation(alloc: Global) -> Result<Op<u64>, OutOfMemory> {
    let spec = OpSpec {
        session: SessId(7),
        iv: Iv::copy(b""),
        aad: Aad::empty(alloc),
        cipher: Range { off: 0, len: 64 },
        auth: Range { off: 0, len: 0 },
        place: DigestPlace::Nowhere,
        digest: [0; 64],
        pos: 0,
    };
    match Mbuf::new(alloc, Seg::new(alloc, 0)?) {
        Ok(chain) => Ok(Op::new(spec, chain, 0)),
        Err(_seg) => Err(OutOfMemory),
    }
}

// Operations that are in no queue pair yet. There is room for a burst more, since a dequeue without room doesn't tell that
// nothing is pending.
fn pool(alloc: Global) -> Result<OpBurst<u64>, OutOfMemory> {
    let mut pool = OpBurst::new(alloc, POOL + BURST)?;
    for _i in 0..POOL {
        let op = operation(alloc)?;
        if pool.room() > 0 {
            pool.push(op);
        }
    }
    Ok(pool)
}

impl Owner {
    /// An owner, with the hands of its workers.
    pub fn open(
        alloc: Global,
        workers: usize,
        flow: Flow,
        sessions: Arc<SessionTable>,
    ) -> Result<(Owner, Vec<Hand>), OutOfMemory>
        requires { (1 ≤ workers) × (workers ≤ 8) }
        ensures hands { IfOk result (λ r. (length r.1.items ≡ workers) × AreNew SLOTS (arc_value sessions) r.1.items) }
    {
        let (qp, hands) = McQp::open(alloc, workers, QUOTA, SLOTS, flow.ordering, sessions)?;
        let owner = Owner {
            qp,
            flow,
            tally: Tally::new(alloc, flow.operations as usize)?,
            burst: OpBurst::new(alloc, POOL)?,
            spare: pool(alloc)?,
            begun: 0,
            idle: 0,
        };
        Ok((owner, hands))
    }

    // Puts an operation behind those that are to be offered, under the next number.
    fn begin(&mut self, op: Op<u64>)
        requires room { length self.old.burst.ops < self.old.burst.cap }
        requires few { self.old.begun + 1 < 2 ^ 32 }
        ensures begun { self.new.begun ≡ self.old.begun + 1 }
    {
        let (mut op, _) = op.with_cargo(self.begun);
        op.set_pos(self.begun);
        op.renew();
        self.burst.push(op);
        self.begun += 1;
    }

    // Begins operations before this number, as far as some are spare.
    fn begin_all(&mut self, end: u64) {
        let end = end.min(u64::from(self.flow.operations));
        for _i in 0..self.spare.len() {
            if self.begun >= end || self.burst.room() == 0 {
                return;
            }
            match self.spare.pop() {
                Some(op) => self.begin(op),
                None => return,
            }
        }
    }

    // Takes back what is done, and notes each: how many, and whether none is pending.
    fn take_back(&mut self) -> (usize, bool)
        ensures { result.1 ≡ true → unreturned self.new.qp.places ≡ [] }
    {
        let had = self.spare.len();
        let got = self.qp.dequeue_burst(&mut self.spare, self.flow.burst);
        for i in had..self.spare.len() {
            let op = self.spare.get(i);
            let number = *op.cargo();
            let right = op.status() == Status::InvalidSession && op.spec().pos == number;
            self.tally.note(number, right);
        }
        (got.n, got.stop == McStop::Empty)
    }

    // Answers what a worker gave back; and what none has, where nothing came for long.
    fn help(&mut self) {
        self.qp.help_back(self.flow.burst);
        if self.idle >= self.flow.patience {
            self.qp.help(self.flow.burst);
        }
    }

    // Offers operations before this number, and takes back what is done: whether none of them is left.
    fn turn(&mut self, end: u64) -> bool
        ensures { result ≡ true → (unreturned self.new.qp.places ≡ []) × (self.new.burst.ops ≡ []) }
    {
        self.begin_all(end);
        self.qp.enqueue_burst(&mut self.burst, self.flow.burst);
        self.help();
        let (came, none) = self.take_back();
        if came > 0 {
            self.idle = 0;
        } else {
            self.idle = self.idle.saturating_add(1);
            thread::yield_now();
        }
        none && self.burst.is_empty()
    }

    /// Sends operations through until none before this number is left.
    pub fn serve<R: Wait>(&mut self, rt: &R, end: u64)
        ensures { (unreturned self.new.qp.places ≡ []) × (self.new.burst.ops ≡ []) }
    {
        for _ in rt.forever() {
            if self.turn(end) {
                return;
            }
        }
    }
}
