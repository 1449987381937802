//! Operations go from the device back to their slots.
ghost use Rattle.std.specs.Prelude.{◌≡◌, ℕ, ◌+◌, ◌<◌, ◌≤◌, [], length};
ghost use Rattle.crypto_model.specs.Counts.{Rose};
ghost use Rattle.sched_multicore.specs.Carry.{finished_sum};
ghost use Rattle.sched_multicore.specs.Laden.{Laden, SameCarrier};

use crate::Gate;
use crate::carrier::Carrier;
use dev_core::Device;
use flight_table::Note;

// How many operations a device holds: no more than its depth, so that the count is no cut one.
fn holds<D: Device<Note>>(dev: &D) -> usize
    ensures { result ≡ length (D.held dev.now) }
{
    dev.held().min(dev.depth())
}

// Finishes what the device returns, and answers how many those were.
pub(crate) fn finish_returned<D: Device<Note>, G: Gate>(
    dev: &mut D,
    carrier: &mut Carrier,
    gate: &G,
) -> usize
    requires laden { Laden (D.sessions dev.old) carrier.old (D.held dev.old) }
    requires empty { carrier.old.burst.ops ≡ [] }
    requires cap { 0 < carrier.old.burst.cap }
    ensures laden { Laden (D.sessions dev.new) carrier.new (D.held dev.new) }
    ensures empty { carrier.new.burst.ops ≡ [] }
    ensures same { SameCarrier carrier.old carrier.new }
    ensures held { length (D.held dev.new) + result ≡ length (D.held dev.old) }
    ensures stalls { D.stalls dev.old ≤ D.stalls dev.new }
    ensures cause { 0 < length (D.held dev.new) → Rose (D.stalls dev.old) (D.stalls dev.new) }
    ensures sum { finished_sum carrier.new.hands.items ≡ finished_sum carrier.old.hands.items + result }
    ensures enqueued { (D.stats dev.new).enqueued ≡ (D.stats dev.old).enqueued }
    ensures sessions { D.sessions dev.new ≡ D.sessions dev.old }
    ensures follows { D.follows dev.old dev.new }
{
    let due = holds(dev);
    let mut finished = 0;
    while finished < due {
        let asked = carrier.burst.room().min(due - finished);
        let n = dev.dequeue_burst(&mut carrier.burst, asked);
        carrier.finish_all(gate);
        finished += n;
        if n < asked {
            return finished;
        }
    }
    finished
}
