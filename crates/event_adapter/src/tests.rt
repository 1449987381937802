ghost use Rattle.std.specs.Prelude.{◌≡◌, [], IfOk};
ghost use Rattle.event_adapter.specs.Source.{IsUntouched};

use crate::{
    Adapter, AdapterMode, AddQpRefused, DelRefused, Event, EventBurst, EventKind, EventPort,
    MemPort, Moved,
};
use crypto_model::{DigestPlace, Range, SessId};
use crypto_op::{Aad, Iv, Op, OpSpec};
use dev_core::{Device, Driver, Kind, LimitList, Limits, StallDriver};
use mbuf_chain::Mbuf;
use seg_list::Seg;
use std::alloc::Global;
use std::sync::Arc;
use std::test::Fail;
use sym_engine::PlainDriver;
use sym_session::SessionTable;

type Stalling = StallDriver<PlainDriver<u64>>;

// An event for this queue pair, with an operation of a session that no table has.
fn event(alloc: Global, qp: u8, cargo: u64) -> Result<Event<u64>, Fail>
    ensures { IfOk result IsUntouched }
{
    let spec = OpSpec {
        session: SessId(7),
        iv: Iv::copy(b""),
        aad: Aad::empty(alloc),
        cipher: Range { off: 0, len: 0 },
        auth: Range { off: 0, len: 0 },
        place: DigestPlace::Nowhere,
        digest: [0; 64],
        pos: 9,
    };
    let chain = Mbuf::new(alloc, Seg::new(alloc, 0)?)
        .ok()
        .ok_or("no memory")?;
    Ok(Event {
        kind: EventKind::New,
        qp,
        op: Op::new(spec, chain, cargo),
    })
}

// A device of depth 128 that stalls by this limit.
fn device(alloc: Global, enqueue: Limits) -> Result<Stalling, Fail>
    ensures { IfOk result (λ d. ⟦<Stalling as Driver<u64>>⟧.held d ≡ []) }
{
    let sessions = Arc::new(alloc, SessionTable::new(alloc)?)?;
    let mut device = StallDriver::new(PlainDriver::new(alloc)?, enqueue, Limits::Never);
    device.set_up(alloc, Kind::Plain, sessions, 128)?;
    Ok(device)
}

// A port with so many events for queue pair 5, which sends at most `limit` in a call.
fn port(alloc: Global, events: u64, limit: u32) -> Result<MemPort<u64>, Fail> {
    let mut port = MemPort::new(alloc, 256, Limits::Never, Limits::Always(limit))?;
    for i in 0..events {
        put(&mut port, event(alloc, 5, i)?)?;
    }
    Ok(port)
}

fn put(port: &mut MemPort<u64>, e: Event<u64>) -> Result<(), Fail>
    requires { IsUntouched e }
{
    if port.room() == 0 {
        return Err("the port is full".into());
    }
    port.put(e);
    Ok(())
}

// An adapter in mode Forward with this device as queue pair 5.
fn adapter(alloc: Global, device: Stalling) -> Result<Adapter<u64, Stalling>, Fail>
    requires { ⟦<Stalling as Driver<u64>>⟧.held device ≡ [] }
{
    let mut adapter = Adapter::new(alloc, AdapterMode::Forward)?;
    match adapter.queue_pair_add(5, device) {
        Ok(()) => Ok(adapter),
        Err(_) => Err("not added".into()),
    }
}

fn run(adapter: &mut Adapter<u64, Stalling>, port: &mut MemPort<u64>, runs: usize) {
    for _i in 0..runs {
        adapter.run_once(port);
    }
}

#[test]
fn eight_events_go_through_in_order(rt: HostRuntime) -> Result<(), Fail> {
    let alloc = rt.alloc();
    let mut port = port(alloc, 8, 1)?;
    let mut adapter = adapter(alloc, device(alloc, Limits::Always(1))?)?;
    run(&mut adapter, &mut port, 1);
    assert!(rt; matches!(adapter.queue_pair_del(5), Err(DelRefused::Pending(8))));
    assert!(rt; matches!(adapter.queue_pair_del(6), Err(DelRefused::Unknown)));
    let again = adapter.queue_pair_add(5, device(alloc, Limits::Never)?);
    assert!(rt; matches!(again, Err(AddQpRefused::AlreadyAdded(_))));

    run(&mut adapter, &mut port, 10);
    let all = Moved {
        sent: 8,
        completed: 8,
        submitted: 8,
        taken: 8,
    };
    assert_eq!(rt; adapter.stats(), all);
    for i in 0..8 {
        let event = port.take_sent().ok_or("an event")?;
        assert_eq!(rt;
            (*event.op.cargo(), event.qp, event.kind),
            (i, 5, EventKind::Forward)
        );
    }
    assert!(rt; port.take_sent().is_none() && adapter.queue_pair_del(5).is_ok());
    Ok(())
}

#[test]
fn what_a_full_port_does_not_take_stays_inside(rt: HostRuntime) -> Result<(), Fail> {
    let alloc = rt.alloc();
    let mut port = port(alloc, 200, 0)?;
    let mut adapter = adapter(alloc, device(alloc, Limits::Never)?)?;
    let inside = Moved {
        sent: 0,
        completed: 64,
        submitted: 96,
        taken: 96,
    };
    for runs in [4, 3] {
        run(&mut adapter, &mut port, runs);
        assert_eq!(rt; (adapter.stats(), port.waiting()), (inside, 104));
        assert!(rt; matches!(adapter.queue_pair_del(5), Err(DelRefused::Pending(96))));
    }
    let mut devices = adapter.break_up();
    let device = devices.pop().ok_or("a device")?;
    assert_eq!(rt; (devices.len(), device.held()), (0, 32));
    Ok(())
}

mod list_model;
