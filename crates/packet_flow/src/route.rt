//! A device behind an event adapter, and the port that leads there.
ghost use Rattle.std.specs.Prelude.{◌≡◌, ◌+◌, ◌<◌, ◌≤◌, [], ◌++◌, List, ℕ, length, map, IfErr, IfOk};
ghost use Rattle.std.specs.List.{All};
ghost use Rattle.crypto_model.specs.Process.{Transform};
ghost use Rattle.crypto_op.specs.declared.spec.Card.{Card};
ghost use Rattle.crypto_op.specs.Op.{Entry, IsFresh};
ghost use Rattle.event_adapter.specs.declared.event.EventKind.TheVariants as kind;
ghost use Rattle.event_adapter.specs.Source.{IsAnswer, entry_in, event_of};
ghost use Rattle.packet_plan.specs.Asked.{sessions_of};
ghost use Rattle.packet_flow.specs.Numbered.{Numbered};
ghost use Rattle.packet_flow.specs.Seats.{AllIn};
ghost use Rattle.packet_flow.specs.Slots.{StandFor};

use crate::slots::Slots;
use capture_io::Header;
use crypto_op::{Card, OpBurst};
use dev_core::{Driver, Limits};
use event_adapter::{Adapter, AdapterMode, Event, EventKind, MemPort};
use mbuf_chain::SegStore;
use packet_plan::ReadyPlan;
use std::alloc::Global;

// The queue pair of the one device.
const FIRST: u8 = 0;

// Room for what is put in, 63 at most, and for all that an adapter sends at once, 64.
const ROOM: usize = 128;

/// A device behind an event adapter, which has it as queue pair 0, and a port with room for all that the two have there at a time.
#[derive(Drop)]
pub struct Route<D> {
    adapter: Adapter<Card, D>,
    pub(crate) port: MemPort<Card>,
}

// Puts all operations of a burst into a port, as new events for the device.
pub(crate) fn put_all(burst: &mut OpBurst<Card>, port: &mut MemPort<Card>)
    requires fresh { All IsFresh burst.old.ops }
    requires room { length burst.old.ops + (length port.old.inbox.items + length port.old.sent.items) ≤ port.old.cap }
    ensures emptied { burst.new ≡ record { cap = burst.old.cap; ops = [] } }
    ensures inbox { port.new.inbox.items ≡ port.old.inbox.items ++ map (event_of kind.New 0) burst.old.ops }
    ensures sent { port.new.sent.items ≡ port.old.sent.items }
    ensures cap { port.new.cap ≡ port.old.cap }
    ensures limits { (port.new.takes ≡ port.old.takes) × (port.new.sends ≡ port.old.sends) }
{
    while let Some(op) = burst.pop() {
        port.put(Event {
            kind: EventKind::New,
            qp: FIRST,
            op,
        });
    }
}

// Puts the answers that were sent to a port into their slots.
fn settle_sent<P: SegStore>(
    alloc: Global,
    store: &mut P,
    header: &Header,
    plan: &ReadyPlan,
    port: &mut MemPort<Card>,
    slots: &mut Slots,
)
    requires answers { All (IsAnswer kind.Forward 0 (sessions_of plan.now)) port.old.sent.items }
    requires stand { (ps : List Numbered) × (rest : List (Entry Card)) × StandFor plan.now ps slots.old (map entry_in port.old.sent.items ++ rest) }
    ensures stand { (ps : List Numbered) (rest : List (Entry Card)) → StandFor plan.now ps slots.old (map entry_in port.old.sent.items ++ rest)
        → StandFor plan.now ps slots.new rest }
    ensures order { AllIn header.now.big slots.old → AllIn header.now.big slots.new }
    ensures sent { port.new.sent.items ≡ [] }
    ensures inbox { port.new.inbox.items ≡ port.old.inbox.items }
    ensures cap { port.new.cap ≡ port.old.cap }
    ensures limits { (port.new.takes ≡ port.old.takes) × (port.new.sends ≡ port.old.sends) }
{
    while let Some(event) = port.take_sent() {
        slots.settle(alloc, store, header, plan, event.op);
    }
}

impl<D: Driver<Card>> Route<D> {
    ghost use Rattle.event_adapter.specs.Adapter.{moved_of};
    ghost use Rattle.packet_flow.specs.Routes.{Carries, HasMoved, HasRun, IsNewRoute, Serves, back_in, inbox_of, on_way};

    /// A new route to a device that holds nothing. Where memory is wanting, the device comes back.
    pub(crate) fn new(alloc: Global, dev: D) -> Result<Route<D>, D>
        requires idle { D.held dev ≡ [] }
        ensures new { IfOk result (IsNewRoute D.Driver dev) }
        ensures back { IfErr result (λ d. d ≡ dev) }
    {
        let Ok(port) = MemPort::new(alloc, ROOM, Limits::Never, Limits::Never) else {
            return Err(dev);
        };
        let Ok(mut adapter) = Adapter::new(alloc, AdapterMode::Forward) else {
            return Err(dev);
        };
        match adapter.queue_pair_add(FIRST, dev) {
            Ok(()) => Ok(Route { adapter, port }),
            Err(_) => unreachable!(),
        }
    }

    /// How many events the adapter didn't take yet.
    pub(crate) fn waiting(&self) -> usize
        ensures { result ≡ length (inbox_of self.now) }
    {
        self.port.waiting()
    }

    /// How many operations the device accepted.
    pub(crate) fn submitted(&self) -> u64
        ensures { result ≡ (moved_of self.now.adapter).submitted }
    {
        self.adapter.stats().submitted as u64
    }

    // Runs the adapter once, and says how much moved in its steps.
    fn run(&mut self) -> u64
        requires carries { (sessions : List (List Transform)) × (first : D) × (stalled : ℕ) × Carries D.Driver sessions first stalled self.old }
        requires taken { back_in self.old ≡ [] }
        requires some { 0 < length (on_way D.Driver self.old) }
        ensures { (sessions : List (List Transform)) (first : D) (stalled : ℕ) → Carries D.Driver sessions first stalled self.old
            → HasRun D.Driver sessions first stalled self.old self.new result }
    {
        let moved = self.adapter.run_once(&mut self.port);
        moved.sent as u64 + moved.completed as u64 + moved.submitted as u64 + moved.taken as u64
    }

    /// Runs the adapter once, puts what comes back into its slots, and says how much moved.
    pub(crate) fn carry<P: SegStore>(
        &mut self,
        alloc: Global,
        store: &mut P,
        header: &Header,
        plan: &ReadyPlan,
        slots: &mut Slots,
    ) -> u64
        requires carries { (first : D) × (stalled : ℕ) × Carries D.Driver (sessions_of plan.now) first stalled self.old }
        requires taken { back_in self.old ≡ [] }
        requires some { 0 < length (on_way D.Driver self.old) }
        requires stand { (ps : List Numbered) × StandFor plan.now ps slots.old (on_way D.Driver self.old) }
        ensures moves { (first : D) (stalled : ℕ) → Carries D.Driver (sessions_of plan.now) first stalled self.old
            → HasMoved D.Driver (sessions_of plan.now) first stalled self.old self.new result }
        ensures taken { back_in self.new ≡ [] }
        ensures stand { (ps : List Numbered) → StandFor plan.now ps slots.old (on_way D.Driver self.old)
            → StandFor plan.now ps slots.new (on_way D.Driver self.new) }
        ensures order { AllIn header.now.big slots.old → AllIn header.now.big slots.new }
        ensures fewer { length (on_way D.Driver self.new) ≤ length (on_way D.Driver self.old) }
    {
        let moved = self.run();
        settle_sent(alloc, store, header, plan, &mut self.port, slots);
        moved
    }

    /// The device, with what it holds. What else is on its way goes.
    pub(crate) fn into_device(self) -> D
        requires alone { (sessions : List (List Transform)) × Serves D.Driver sessions self }
        ensures { (sessions : List (List Transform)) (s : Serves D.Driver sessions self) → result ≡ s.pair.dev }
    {
        let Route { adapter, port: _ } = self;
        let mut devices = adapter.break_up();
        match devices.pop() {
            Some(dev) => {
                devices.destroy_empty();
                dev
            }
            None => unreachable!(),
        }
    }
}
