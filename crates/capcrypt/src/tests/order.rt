//! Answers that come back in another order.
ghost use Rattle.std.specs.Prelude.{◌≡◌, ◌+◌, ◌-◌, ◌<◌, ◌≤◌, ◌++◌, ◌∷◌, [], min, length, map, take, Some, None};
ghost use Rattle.std.specs.List.{All};
ghost use Rattle.std.specs.VecDeque.{deque_len, deque_capacity};
ghost use Rattle.mbuf_chain.specs.Emptied.{IsEmptied};
ghost use Rattle.crypto_op.specs.Op.{IsFresh, entry_of};
ghost use Rattle.dev_core.specs.Burst.{rest_of};

use super::{HEAD_OF_60, SEVENS_0, SEVENS_1};
use crate::work::WINDOW;
use capture_io::{Header, MemSink, MemSource, ReadStop};
use crypto_op::{Card, Op, OpBurst};
use dev_core::{Driver, Stats};
use mbuf_chain::{FreshSegs, NoSeg, SegStore};
use packet_flow::{Flow, FlowEnd, Sizes, transfer};
use packet_plan::ReadyPlan;
use seg_list::Seg;
use session_file::parse;
use std::alloc::Global;
use std::collections::VecDeque;
use std::test::Fail;
use sym_engine::process;
use sym_session::SessionTable;

// A driver that gives one operation back in a call, the newest that it has.
#[derive(Drop)]
struct Newest {
    sessions: SessionTable,
    depth: usize,
    inside: VecDeque<Op<Card>>,
    stalls: u64,
    stats: Stats,
    ghost fits: { (0 < depth) × (deque_len inside ≤ depth) × (depth ≤ deque_capacity inside) },
    ghost fresh: { All IsFresh inside.items },
}

// Pushes where there is room, which takes no memory.
fn put(inside: &mut VecDeque<Op<Card>>, op: Op<Card>)
    requires { deque_len inside.old < deque_capacity inside.old }
    ensures items { inside.new.items ≡ inside.old.items ++ op ∷ [] }
    ensures capacity { deque_capacity inside.new ≡ deque_capacity inside.old }
{
    match inside.push_back(op) {
        Ok(()) => {}
        Err(_) => unreachable!(),
    }
}

// Moves the first `n` operations inside.
fn take_in(burst: &mut OpBurst<Card>, inside: &mut VecDeque<Op<Card>>, n: usize)
    requires enough { n ≤ length burst.old.ops }
    requires room { deque_len inside.old + n ≤ deque_capacity inside.old }
    ensures rest { burst.new ≡ rest_of n burst.old }
    ensures items { inside.new.items ≡ inside.old.items ++ take n burst.old.ops }
    ensures capacity { deque_capacity inside.new ≡ deque_capacity inside.old }
{
    for _i in 0..n {
        match burst.pop() {
            Some(op) => put(inside, op),
            None => unreachable!(),
        }
    }
}

impl Driver<Card> for Newest {
    ghost held = { λ d. map entry_of d.inside.items };

    ghost room = { λ _. None };

    ghost admits = { λ d lens. Some (min (length lens) (d.depth - length d.inside.items)) };

    ghost stalls = { λ d. d.stalls };

    ghost sessions = { λ d. d.sessions };

    ghost stats = { λ d. d.stats };

    ghost log = { λ _. None };

    ghost ordered = { λ _. ⊥ };

    ghost follows = { λ _ _. Unit {0} };

    ghost room_admits = { λ d r ls e. Prim.cc };

    ghost keeps_order = { λ d e p o. o };

    ghost follows_itself = { λ d. tt };

    ghost follows_on = { λ d e f p q. tt };

    fn enqueue_burst(&mut self, burst: &mut OpBurst<Card>, max: usize) -> usize {
        let offered = max.min(burst.len());
        let n = offered.min(self.depth - self.inside.len());
        take_in(burst, &mut self.inside, n);
        self.stats.count_enqueue(offered, n);
        n
    }

    fn dequeue_burst(&mut self, out: &mut OpBurst<Card>, max: usize) -> usize {
        let asked = max.min(out.room());
        self.stalls = self.stalls.saturating_add(1);
        if asked == 0 {
            self.stats.count_dequeue(asked, 0);
            return 0;
        }
        let Some(newest) = self.inside.pop_back() else {
            self.stats.count_dequeue(asked, 0);
            return 0;
        };
        let mut op = newest;
        process(&self.sessions, &mut op);
        out.push(op);
        self.stats.count_dequeue(asked, 1);
        1
    }

    fn held(&self) -> usize {
        self.inside.len()
    }

    fn stalls(&self) -> u64 {
        self.stalls
    }

    fn stats(&self) -> Stats {
        self.stats
    }

    fn sessions(&self) -> &SessionTable {
        &self.sessions
    }
}

const MICROSECONDS: Header = Header {
    big: false,
    nanos: false,
    zone: 0,
    sigfigs: 0,
    snaplen: 262144,
    link: 1,
};

const TEXT: &[u8] =
    b"capcrypt 1\nsession s ctr encrypt ae6852f8121067cc4bf7a5765577f39e 00000030\ndefault s 0\n";

// A store that counts what it gives and what comes back.
#[derive(Drop)]
struct Counted {
    segs: FreshSegs,
    given: u64,
    back: u64,
}

impl Counted {
    fn new(alloc: Global) -> Counted {
        Counted {
            segs: FreshSegs::new(alloc),
            given: 0,
            back: 0,
        }
    }
}

impl SegStore for Counted {
    ghost endless = { Unit {0} };

    fn take(&mut self) -> Result<Seg, NoSeg> {
        self.given = self.given.saturating_add(1);
        self.segs.take()
    }

    fn give(&mut self, seg: Seg)
        requires { IsEmptied seg }
    {
        self.back = self.back.saturating_add(1);
        self.segs.give(seg);
    }
}

// Sends the records of a capture through a driver that answers the newest first, in bursts of this size. The reads of
// these numbers fail.
fn sent(
    alloc: Global,
    text: &[u8],
    burst: usize,
    capture: &[u8],
    fails: &[u32],
    store: &mut Counted,
) -> Result<(Flow, Vec<u8>), Fail>
    requires text { length text.now ≤ 1048576 }
    requires burst { (1 ≤ burst) × (burst ≤ 256) }
{
    let plan = ReadyPlan::new(alloc, parse(alloc, text)?)?;
    let mut dev = Newest {
        sessions: plan.table(alloc)?,
        depth: 64,
        inside: VecDeque::with_capacity(alloc, 64)?,
        stalls: 0,
        stats: Stats::new(),
    };
    let mut src = MemSource::new(
        Vec::from_slice(alloc, capture)?,
        1000,
        Vec::from_slice(alloc, fails)?,
    );
    let mut out = MemSink::new(alloc, capture.len(), Vec::new(alloc))?;
    let sizes = Sizes {
        window: WINDOW,
        burst,
    };
    let flow = transfer(
        alloc,
        &plan,
        sizes,
        &MICROSECONDS,
        &mut src,
        store,
        &mut out,
        &mut dev,
    );
    Ok((flow, Vec::from_slice(alloc, out.bytes())?))
}

#[test]
fn answers_that_come_newest_first_are_written_in_order(rt: HostRuntime) -> Result<(), Fail> {
    let alloc = rt.alloc();
    let mut capture = Vec::new(alloc);
    for _n in 0..2 {
        capture.extend_from_slice(&HEAD_OF_60)?;
        capture.extend_from_slice(&[7; 60])?;
    }
    let mut store = Counted::new(alloc);
    let (flow, written) = sent(alloc, TEXT, 2, &capture, &[], &mut store)?;
    assert_eq!(rt; flow.end, FlowEnd::Stopped(ReadStop::End));
    let mut expected = Vec::new(alloc);
    for part in [&HEAD_OF_60[..], &SEVENS_0, &HEAD_OF_60, &SEVENS_1] {
        expected.extend_from_slice(part)?;
    }
    assert_eq!(rt; written.as_slice(), expected.as_slice());
    assert_eq!(rt; (store.given, store.back), (2, 2));
    Ok(())
}

// Records of 60 bytes, which have their number in them. Each of these many, from the first on, begins with 1.
fn numbered_records(alloc: Global, count: u32, every: u32) -> Result<Vec<u8>, Fail>
    requires { 1 ≤ every }
{
    let mut capture = Vec::new(alloc);
    for n in 0..count {
        let mut packet = [0; 60];
        packet[0] = u8::from(n % every == 0);
        packet[1..5].copy_from_slice(&n.to_be_bytes());
        capture.extend_from_slice(&HEAD_OF_60)?;
        capture.extend_from_slice(&packet)?;
    }
    Ok(capture)
}

// Packets that begin with 1 have an operation on their empty rest; the others pass.
const EMPTY_REST: &[u8] =
    b"capcrypt 1\nsession s ctr encrypt ae6852f8121067cc4bf7a5765577f39e 00000030\nrule 0 01 s 60\ndefault pass\n";

#[test]
fn packets_that_wait_are_written_in_their_order_and_give_their_segments_back(
    rt: HostRuntime,
) -> Result<(), Fail> {
    let alloc = rt.alloc();
    for (every, count, worked) in [(3, 1000, 334), (100, 1000, 10), (10_000, 20_001, 3)] {
        let capture = numbered_records(alloc, count, every)?;
        let mut store = Counted::new(alloc);
        let (flow, written) = sent(alloc, EMPTY_REST, 32, &capture, &[], &mut store)?;
        assert_eq!(rt; flow.end, FlowEnd::Stopped(ReadStop::End));
        assert_eq!(rt;
            (flow.counts.success, flow.counts.packets),
            (worked, u64::from(count))
        );
        assert!(rt; written == capture, "{every}");
        assert_eq!(rt;
            (store.given, store.back),
            (u64::from(count), u64::from(count))
        );
    }
    Ok(())
}

// A record without data takes one read.
#[test]
fn empty_packets_pass_until_a_read_fails(rt: HostRuntime) -> Result<(), Fail> {
    let alloc = rt.alloc();
    let text: &[u8] = b"capcrypt 1\ndefault pass\n";
    let mut capture = Vec::new(alloc);
    for _n in 0..9000 {
        capture.extend_from_slice(&[0; 16])?;
    }
    let mut store = Counted::new(alloc);
    let (flow, written) = sent(alloc, text, 32, &capture, &[], &mut store)?;
    assert_eq!(rt; flow.end, FlowEnd::Stopped(ReadStop::End));
    assert_eq!(rt;
        (flow.counts.passed, store.given, store.back),
        (9000, 9000, 9000)
    );
    assert!(rt; written == capture);

    let (flow, written) = sent(alloc, text, 32, &capture, &[4096], &mut store)?;
    assert_eq!(rt; flow.end, FlowEnd::Stopped(ReadStop::Fault));
    assert_eq!(rt; (flow.counts.packets, written.len()), (4096, 4096 * 16));
    Ok(())
}
