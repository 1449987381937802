//! An adapter over devices that balk in turn, beside a model that moves numbers between lists.
use super::{Stalling, device, event, put};
use crate::{Adapter, AdapterMode, EventKind, MemPort};
use dev_core::{LimitList, Limits};
use std::alloc::{AllocError, Global};
use std::collections::VecDeque;
use std::test::Fail;

// What each device accepts in its first calls with something to offer.
const ACCEPTED: [[u32; 6]; 3] = [[0, 3, 1, 7, 0, 2], [2, 0, 0, 5, 1, 1], [1, 1, 30, 0, 0, 4]];

// At most so many events the port gives and sends in a call.
const GIVEN: usize = 7;

const SENT: usize = 5;

const EVENTS: u64 = 200;

// The queue pair of an event by its number: 1 to 3, or one that isn't there.
fn queue_pair_of(number: u64) -> u8 {
    match number % 7 {
        0 | 3 => 1,
        1 | 5 => 2,
        2 | 4 => 3,
        _ => 9,
    }
}

// A queue pair of the model: its number, what waits, what its device holds, and how often something was offered to it.
#[derive(Drop)]
struct Pair {
    id: u8,
    waiting: VecDeque<u64>,
    held: VecDeque<u64>,
    accepted: VecDeque<u32>,
}

// The adapter and its port as lists of numbers.
#[derive(Drop)]
struct Model {
    pairs: Vec<Pair>,
    out: VecDeque<u64>,
    inbox: VecDeque<u64>,
}

fn shift(from: &mut VecDeque<u64>, to: &mut VecDeque<u64>, n: usize) -> Result<(), AllocError> {
    for _i in 0..n {
        if let Some(number) = from.pop_front() {
            to.push_back(number)?;
        }
    }
    Ok(())
}

impl Model {
    fn new(alloc: Global) -> Result<Model, AllocError> {
        let mut pairs = Vec::new(alloc);
        let mut id = 0u8;
        for limits in &ACCEPTED {
            id = id.saturating_add(1);
            let mut accepted = VecDeque::new(alloc);
            for limit in limits {
                accepted.push_back(*limit)?;
            }
            pairs.push(Pair {
                id,
                waiting: VecDeque::new(alloc),
                held: VecDeque::new(alloc),
                accepted,
            })?;
        }
        let mut inbox = VecDeque::new(alloc);
        for number in 0..EVENTS {
            inbox.push_back(number)?;
        }
        Ok(Model {
            pairs,
            out: VecDeque::new(alloc),
            inbox,
        })
    }

    // Completions join the end of the out list, and what waits goes to the devices.
    fn work(&mut self) -> Result<(), AllocError> {
        for pair in &mut self.pairs {
            let room = 64usize.saturating_sub(self.out.len());
            shift(&mut pair.held, &mut self.out, room)?;
        }
        for pair in &mut self.pairs {
            if !pair.waiting.is_empty() {
                let limit = pair.accepted.pop_front().unwrap_or(128);
                let room = 128usize.saturating_sub(pair.held.len());
                shift(&mut pair.waiting, &mut pair.held, room.min(limit as usize))?;
            }
        }
        Ok(())
    }

    // As many events are taken as each buffer has room for.
    fn take(&mut self) -> Result<(), AllocError> {
        let mut room = 64usize.saturating_sub(self.out.len()).min(GIVEN);
        for pair in &self.pairs {
            room = room.min(32usize.saturating_sub(pair.waiting.len()));
        }
        for _i in 0..room {
            if let Some(number) = self.inbox.pop_front() {
                self.sort(number)?;
            }
        }
        Ok(())
    }

    fn sort(&mut self, number: u64) -> Result<(), AllocError> {
        for pair in &mut self.pairs {
            if pair.id == queue_pair_of(number) {
                pair.waiting.push_back(number)?;
                return Ok(());
            }
        }
        self.out.push_back(number)?;
        Ok(())
    }

    // The numbers that a call sends.
    fn run_once(&mut self, sent: &mut VecDeque<u64>) -> Result<(), AllocError> {
        shift(&mut self.out, sent, SENT)?;
        self.work()?;
        self.take()
    }
}

fn adapter(alloc: Global) -> Result<Adapter<u64, Stalling>, Fail> {
    let mut adapter = Adapter::new(alloc, AdapterMode::Forward)?;
    let mut id = 0u8;
    for limits in &ACCEPTED {
        id = id.saturating_add(1);
        let device = device(alloc, Limits::Listed(LimitList::copy(alloc, limits)?))?;
        if adapter.queue_pair_add(id, device).is_err() {
            return Err("not added".into());
        }
    }
    Ok(adapter)
}

fn port(alloc: Global) -> Result<MemPort<u64>, Fail> {
    let give = Limits::Always(GIVEN as u32);
    let mut port = MemPort::new(alloc, 256, give, Limits::Always(SENT as u32))?;
    for number in 0..EVENTS {
        put(&mut port, event(alloc, queue_pair_of(number), number)?)?;
    }
    Ok(port)
}

#[test]
fn several_queue_pairs_go_as_lists_of_numbers_do(rt: HostRuntime) -> Result<(), Fail> {
    let alloc = rt.alloc();
    let mut port = port(alloc)?;
    let mut adapter = adapter(alloc)?;
    let mut model = Model::new(alloc)?;
    let mut sent = VecDeque::new(alloc);
    let mut back = 0u64;
    for _call in 0..60 {
        adapter.run_once(&mut port);
        model.run_once(&mut sent)?;
        for _i in 0..SENT {
            let number = sent.pop_front();
            let event = port.take_sent();
            assert_eq!(rt; event.as_ref().map(|e| *e.op.cargo()), number);
            if let Some(event) = event {
                let qp = queue_pair_of(*event.op.cargo());
                let kind = if qp == 9 {
                    EventKind::New
                } else {
                    EventKind::Forward
                };
                assert_eq!(rt; (event.qp, event.kind), (qp, kind));
                back = back.saturating_add(1);
            }
        }
    }
    assert_eq!(rt;
        (back, port.waiting(), port.take_sent().is_none()),
        (EVENTS, 0, true)
    );
    Ok(())
}
