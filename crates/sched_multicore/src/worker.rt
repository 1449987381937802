//! A worker of multi-core mode.
ghost use Rattle.std.specs.Prelude.{◌≡◌, ◌<◌, [], length, IfOk};
ghost use Rattle.sched_multicore.specs.Carry.{Tallied};
ghost use Rattle.sched_multicore.specs.Laden.{Laden};

use crate::Gate;
use crate::carrier::Carrier;
use crate::finish::finish_returned;
use crate::offer::sweep;
use crypto_model::OutOfMemory;
use crypto_op::{MAX_OPS, OpBurst};
use dev_core::Device;
use flight_table::{Hand, Note};
use std::alloc::Global;
use std::snapshot::Snapshot;
use std::sync::Wait;
use std::sync::atomic::{AtomicUsize, Ordering};

/// A device that does the operations of several queue pairs, with a hand of each.
#[derive(Drop)]
pub struct Worker<D: Device<Note>> {
    pub(crate) dev: D,
    pub(crate) carrier: Carrier,
    pub(crate) opened: Snapshot<u64>,
    pub(crate) had: Snapshot<Vec<Hand>>,
    pub ghost laden: { Laden (D.sessions dev) carrier (D.held dev) },
    pub ghost idle: { (carrier.burst.ops ≡ []) × (0 < carrier.burst.cap) },
    pub ghost tallied: { Tallied opened.value had.value.items (D.stats dev).enqueued carrier.hands.items (length (D.held dev)) },
}

/// What a turn did.
#[derive(Clone, Copy, Debug, PartialEq, Eq)]
pub struct Turn {
    pub taken: usize,
    pub given_back: usize,
    pub finished: usize,
}

/// What a worker that wasn't opened for want of memory hands back.
#[derive(Drop)]
pub struct OpenRefused<D: Device<Note>> {
    pub dev: D,
    pub hands: Vec<Hand>,
}

// The room that a worker needs, for so many slots.
fn room_for(alloc: Global, codes: usize) -> Result<(Vec<u64>, OpBurst<Note>), OutOfMemory>
    ensures { IfOk result (λ r. (length r.0.items ≡ codes) × (r.1.ops ≡ []) × (0 < r.1.cap)) }
{
    let saved = Vec::from_elem(alloc, 0, codes)?;
    let burst = OpBurst::new(alloc, codes.max(1).min(MAX_OPS))?;
    Ok((saved, burst))
}

impl<D: Device<Note>> Worker<D> {
    ghost use Rattle.std.specs.Prelude.{ℕ, ◌+◌, ◌-◌, ◌*◌, ◌≤◌, IfErr};
    ghost use Rattle.std.specs.List.{All};
    ghost use Rattle.crypto_model.specs.Counts.{capped, Rose};
    ghost use Rattle.sched_multicore.specs.Carry.{IsFree, IsHandOf, finished_sum};
    ghost use Rattle.sched_multicore.specs.Sweep.{SameHands, Swept};
    ghost use Rattle.sched_multicore.specs.Workplace.{SameWorker, device_in, enqueued_before, hands_before, hands_in, index_in, slots_in};

    /// A worker with a device that holds nothing, and with one hand of each queue pair, which may have a past. The only
    /// refusal is want of memory.
    pub fn open(
        alloc: Global,
        index: usize,
        dev: D,
        hands: Vec<Hand>,
        slots: usize,
    ) -> Result<Worker<D>, OpenRefused<D>>
        requires sizes { (0 < slots) × (slots ≤ MAX_OPS) × (length hands.items ≤ 8) }
        requires dev { D.held dev ≡ [] }
        requires hands { All (IsHandOf index slots (D.sessions dev)) hands.items }
        requires free { All (IsFree slots) hands.items }
        ensures dev { IfOk result (λ w. device_in w ≡ dev) }
        ensures hands { IfOk result (λ w. hands_in w ≡ hands.items) }
        ensures sizes { IfOk result (λ w. (index_in w ≡ index) × (slots_in w ≡ slots)) }
        ensures opened { IfOk result (λ w. (enqueued_before w ≡ (D.stats dev).enqueued) × (hands_before w ≡ hands.items)) }
        ensures refused { IfErr result (λ r. (r.dev ≡ dev) × (r.hands ≡ hands)) }
    {
        let enqueued: u64 = dev.stats().enqueued;
        match room_for(alloc, hands.len() * slots) {
            Err(_) => Err(OpenRefused { dev, hands }),
            Ok((saved, burst)) => Ok(Worker {
                dev,
                opened: Snapshot::of(&enqueued),
                had: Snapshot::of(&hands),
                carrier: Carrier {
                    hands,
                    saved,
                    burst,
                    slots,
                    index,
                },
            }),
        }
    }

    /// Looks at each slot of each hand once, takes what is ready for it, offers that to the device, gives back what the
    /// device doesn't take, and finishes what the device returns.
    pub fn turn<G: Gate>(&mut self, gate: &G) -> Turn
        ensures taken { Swept (slots_in self.old) (length (hands_in self.old) * slots_in self.old) (hands_in self.old) (hands_in self.new) result.taken }
        ensures held { length (D.held (device_in self.new)) + result.given_back + result.finished
            ≡ length (D.held (device_in self.old)) + result.taken }
        ensures given_back { result.taken - (D.limit (device_in self.old) - length (D.held (device_in self.old))) < result.given_back
            → Rose (D.stalls (device_in self.old)) (D.stalls (device_in self.new)) }
        ensures finished { result.finished + result.given_back < length (D.held (device_in self.old)) + result.taken
            → Rose (D.stalls (device_in self.old)) (D.stalls (device_in self.new)) }
        ensures counted { finished_sum (hands_in self.new) ≡ finished_sum (hands_in self.old) + result.finished }
        ensures hands { SameHands (hands_in self.old) (hands_in self.new) }
        ensures same { SameWorker self.old self.new }
        ensures follows { D.follows (device_in self.old) (device_in self.new) }
    {
        let (taken, given_back) = sweep(&mut self.dev, &mut self.carrier);
        let finished = finish_returned(&mut self.dev, &mut self.carrier, gate);
        Turn {
            taken,
            given_back,
            finished,
        }
    }

    /// Takes turns until so many owners have ended, by the count in `ended`, and the worker has nothing that it took and
    /// didn't hand on. It comes back only then, whatever that count says meanwhile.
    pub fn run_until_closed<R: Wait, G: Gate>(
        &mut self,
        rt: &R,
        gate: &G,
        ended: &AtomicUsize,
        owners: usize,
    )
        ensures none { D.held (device_in self.new) ≡ [] }
        ensures hands { SameHands (hands_in self.old) (hands_in self.new) }
        ensures same { SameWorker self.old self.new }
        ensures follows { D.follows (device_in self.old) (device_in self.new) }
    {
        for _ in rt.forever() {
            self.turn(gate);
            let held = self.dev.held();
            if held == 0 && ended.load(Ordering::SeqCst) >= owners {
                return;
            }
        }
    }

    /// Hands device and hands back. The worker must have nothing that it took and didn't hand on, as after
    /// `run_until_closed`. The device took what the hands have finished since the worker was opened.
    pub fn release(self) -> (D, Vec<Hand>)
        requires { D.held (device_in self) ≡ [] }
        ensures dev { result.0 ≡ device_in self }
        ensures hands { result.1.items ≡ hands_in self }
        ensures own { All (IsHandOf (index_in self) (slots_in self) (D.sessions result.0)) result.1.items }
        ensures free { All (IsFree (slots_in self)) result.1.items }
        ensures sum { (D.stats result.0).enqueued
            ≡ capped (enqueued_before self + (finished_sum result.1.items - finished_sum (hands_before self))) }
    {
        let Worker { dev, carrier, .. } = self;
        let Carrier { hands, .. } = carrier;
        (dev, hands)
    }
}
