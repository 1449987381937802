//! What a driver is offered, and a window by itself.
ghost use Rattle.std.specs.Prelude.{◌≡◌, ◌+◌, ◌-◌, ◌<◌, ◌≤◌, [], min, length, map, take, Some, None, IfOk};
ghost use Rattle.crypto_op.specs.Op.{entry_of};
ghost use Rattle.dev_core.specs.Burst.{rest_of, with_ops};
ghost use Rattle.dev_core.specs.Stats.{no_stats};
ghost use Rattle.packet_plan.specs.Asked.{sessions_of};

use crate::{Flow, FlowEnd, Forwarded, Sizes, Window, forward, transfer};
use capture_io::{Header, MemSink, MemSource, ReadStop};
use crypto_op::{Card, OpBurst};
use dev_core::{Driver, Stats};
use mbuf_chain::FreshSegs;
use packet_plan::ReadyPlan;
use session_file::parse;
use std::alloc::Global;
use std::test::Fail;
use sym_session::SessionTable;

// A driver that takes at most `most` operations of a burst, gives none back, and notes how many it is offered.
#[derive(Drop)]
struct Keeper {
    sessions: SessionTable,
    most: usize,
    kept: OpBurst<Card>,
    stalls: u64,
    stats: Stats,
    offers: Vec<usize>,
    ghost takes: { (0 < most) × (0 < kept.cap) },
}

// Moves the first `n` operations.
fn move_first(burst: &mut OpBurst<Card>, kept: &mut OpBurst<Card>, n: usize)
    requires enough { n ≤ length burst.old.ops }
    requires room { length kept.old.ops + n ≤ kept.old.cap }
    ensures rest { burst.new ≡ rest_of n burst.old }
    ensures kept { kept.new ≡ with_ops (take n burst.old.ops) kept.old }
{
    for _i in 0..n {
        match burst.pop() {
            Some(op) => kept.push(op),
            None => unreachable!(),
        }
    }
}

impl Driver<Card> for Keeper {
    ghost held = { λ d. map entry_of d.kept.ops };

    ghost room = { λ _. None };

    ghost admits = { λ d lens. Some (min (length lens) (min d.most (d.kept.cap - length d.kept.ops))) };

    ghost stalls = { λ d. d.stalls };

    ghost sessions = { λ d. d.sessions };

    ghost stats = { λ d. d.stats };

    ghost log = { λ _. None };

    ghost ordered = { λ _. ⊥ };

    ghost follows = { λ _ _. Unit {0} };

    ghost room_admits = { λ d r ls e. Prim.cc };

    ghost keeps_order = { λ d e p o. o };

    ghost follows_itself = { λ d. tt };

    ghost follows_on = { λ d e f p q. tt };

    fn enqueue_burst(&mut self, burst: &mut OpBurst<Card>, max: usize) -> usize {
        let offered = max.min(burst.len());
        let n = offered.min(self.most).min(self.kept.room());
        move_first(burst, &mut self.kept, n);
        self.stats.count_enqueue(offered, n);
        let _noted = self.offers.push(offered);
        n
    }

    fn dequeue_burst(&mut self, out: &mut OpBurst<Card>, max: usize) -> usize {
        self.stalls = self.stalls.saturating_add(1);
        self.stats.count_dequeue(max.min(out.room()), 0);
        0
    }

    fn held(&self) -> usize {
        self.kept.len()
    }

    fn stalls(&self) -> u64 {
        self.stalls
    }

    fn stats(&self) -> Stats {
        self.stats
    }

    fn sessions(&self) -> &SessionTable {
        &self.sessions
    }
}

const HEADER: Header = Header {
    big: false,
    nanos: false,
    zone: 0,
    sigfigs: 0,
    snaplen: 262144,
    link: 1,
};

const HEAD: [u8; 16] = [0, 0, 0, 0, 0, 0, 0, 0, 1, 0, 0, 0, 1, 0, 0, 0];

// Packets that begin with 0 pass.
const PLAN: &[u8] =
    b"capcrypt 1\nsession s ctr encrypt 30313233343536373839616263646566 01020304\nrule 0 00 pass\ndefault s 0\n";

// Records of these packets of one byte each.
fn records(alloc: Global, packets: &[u8]) -> Result<Vec<u8>, Fail> {
    let mut bytes = Vec::new(alloc);
    for packet in packets {
        bytes.extend_from_slice(&HEAD)?;
        bytes.push(*packet)?;
    }
    Ok(bytes)
}

// A driver with room for 128 operations that takes at most `most` of a burst.
fn new_keeper(alloc: Global, plan: &ReadyPlan, most: usize) -> Result<Keeper, Fail>
    requires { 0 < most }
    ensures { IfOk result (λ d. (d.kept.ops ≡ []) × (d.stats ≡ no_stats) × (d.sessions ≡ sessions_of plan.now)) }
{
    Ok(Keeper {
        sessions: plan.table(alloc)?,
        most,
        kept: OpBurst::new(alloc, 128)?,
        stalls: 0,
        stats: Stats::new(),
        offers: Vec::new(alloc),
    })
}

// The driver, where the flow stalled in the end.
fn if_stalled(flow: Flow, dev: Keeper) -> Result<Keeper, Fail> {
    if flow.end != FlowEnd::Stalled {
        return Err("it ended otherwise".into());
    }
    Ok(dev)
}

// Offers the operations of these packets in bursts of at most 32 to a driver that takes `most` of each.
fn keep(alloc: Global, packets: &[u8], most: usize) -> Result<Keeper, Fail>
    requires { 0 < most }
{
    let plan = ReadyPlan::new(alloc, parse(alloc, PLAN)?)?;
    let mut dev = new_keeper(alloc, &plan, most)?;
    let mut src = MemSource::new(records(alloc, packets)?, 1000, Vec::new(alloc));
    let mut out = MemSink::new(alloc, 1000, Vec::new(alloc))?;
    let mut store = FreshSegs::new(alloc);
    let sizes = Sizes {
        window: 16,
        burst: 32,
    };
    let flow = transfer(
        alloc, &plan, sizes, &HEADER, &mut src, &mut store, &mut out, &mut dev,
    );
    if_stalled(flow, dev)
}

// The same through an event adapter.
fn keep_forwarded(alloc: Global, packets: &[u8], most: usize) -> Result<Keeper, Fail>
    requires { 0 < most }
{
    let plan = ReadyPlan::new(alloc, parse(alloc, PLAN)?)?;
    let dev = new_keeper(alloc, &plan, most)?;
    let mut src = MemSource::new(records(alloc, packets)?, 1000, Vec::new(alloc));
    let mut out = MemSink::new(alloc, 1000, Vec::new(alloc))?;
    let mut store = FreshSegs::new(alloc);
    let forwarded = forward(
        alloc, &plan, 16, &HEADER, &mut src, &mut store, &mut out, dev,
    );
    let Forwarded { flow, dev } = forwarded;
    if_stalled(flow, dev)
}

#[test]
fn a_burst_is_offered_to_its_end_before_the_next_and_no_empty_one(
    rt: HostRuntime,
) -> Result<(), Fail> {
    let alloc = rt.alloc();
    let cases: [(usize, &[usize]); 3] = [
        (32, &[32, 32, 6]),
        (31, &[32, 1, 32, 1, 6]),
        (20, &[32, 12, 32, 12, 6]),
    ];
    for (most, offers) in cases {
        let dev = keep(alloc, &[1; 70], most)?;
        assert_eq!(rt; dev.offers.as_slice(), offers, "{most}");
    }
    Ok(())
}

#[test]
fn an_adapter_offers_what_waits_filled_up_again(rt: HostRuntime) -> Result<(), Fail> {
    let alloc = rt.alloc();
    let cases: [(usize, &[usize]); 3] = [
        (32, &[32, 32, 6]),
        (31, &[32, 32, 8]),
        (20, &[32, 32, 30, 10]),
    ];
    for (most, offers) in cases {
        let dev = keep_forwarded(alloc, &[1; 70], most)?;
        assert_eq!(rt; dev.offers.as_slice(), offers, "{most}");
    }
    Ok(())
}

#[test]
fn operations_are_numbered_without_the_packets_that_pass(rt: HostRuntime) -> Result<(), Fail> {
    let Keeper { kept, .. } = keep(rt.alloc(), &[0, 1, 0, 0, 1, 1], 32)?;
    let mut kept = kept;
    for (pos, packet) in [(0, 1), (1, 4), (2, 5)] {
        let op = kept.pop().ok_or("no operation")?;
        assert_eq!(rt; (op.spec().pos, op.cargo().packet), (pos, packet));
    }
    assert_eq!(rt; kept.len(), 0);
    Ok(())
}

#[test]
fn a_window_gives_each_packet_once_with_its_number(rt: HostRuntime) -> Result<(), Fail> {
    let alloc = rt.alloc();
    let mut src = MemSource::new(records(alloc, &[5, 6, 7])?, 1000, Vec::new(alloc));
    let mut store = FreshSegs::new(alloc);
    let mut window = Window::new(alloc);
    let Some(stop) = window.read(alloc, &mut src, &HEADER, &mut store, 4) else {
        return Err("it reads on".into());
    };
    assert_eq!(rt; stop, ReadStop::End);
    for number in 0..3 {
        let packet = window.take().ok_or("no packet")?;
        assert_eq!(rt; packet.number, number);
        let mut byte = [0];
        if packet.rec.packet.len() != byte.len() {
            return Err("not one byte".into());
        }
        packet.rec.packet.read_at(0, &mut byte);
        assert_eq!(rt; u32::from(byte[0]), number + 5);
    }
    assert!(rt; window.take().is_none());
    Ok(())
}
