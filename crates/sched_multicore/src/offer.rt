//! Operations go from the slots to the device.
ghost use Rattle.std.specs.Prelude.{◌≡◌, ℕ, ◌+◌, ◌*◌, ◌<◌, ◌≤◌, List, [], ◌++◌, length, map};
ghost use Rattle.std.specs.List.{All};
ghost use Rattle.crypto_model.specs.Counts.{capped};
ghost use Rattle.crypto_op.specs.Op.{IsFresh, entry_of};
ghost use Rattle.sched_multicore.specs.Carry.{Counts, finished_sum};
ghost use Rattle.sched_multicore.specs.Sweep.{Swept};
ghost use Rattle.sched_multicore.specs.Laden.{Laden, SameCarrier};

use crate::carrier::Carrier;
use dev_core::Device;
use flight_table::Note;

// Offers the burst to the device, unless it is empty, and gives back what the device doesn't take: answers how many.
fn offer<D: Device<Note>>(dev: &mut D, carrier: &mut Carrier) -> usize
    requires laden { Laden (D.sessions dev.old) carrier.old (map entry_of carrier.old.burst.ops ++ D.held dev.old) }
    requires fresh { All IsFresh carrier.old.burst.ops }
    ensures laden { Laden (D.sessions dev.new) carrier.new (D.held dev.new) }
    ensures empty { carrier.new.burst.ops ≡ [] }
    ensures same { SameCarrier carrier.old carrier.new }
    ensures counts { Counts (D.limit dev.old) (length (D.held dev.old)) (D.stalls dev.old) (length carrier.old.burst.ops) result 0
        (length (D.held dev.new)) (D.stalls dev.new) }
    ensures sum { finished_sum carrier.new.hands.items ≡ finished_sum carrier.old.hands.items }
    ensures enqueued { (n : ℕ) → (D.stats dev.old).enqueued ≡ capped (n + length (D.held dev.old))
        → (D.stats dev.new).enqueued ≡ capped (n + length (D.held dev.new)) }
    ensures sessions { D.sessions dev.new ≡ D.sessions dev.old }
    ensures follows { D.follows dev.old dev.new }
{
    if carrier.burst.is_empty() {
        return 0;
    }
    let most = carrier.burst.len();
    dev.enqueue_burst(&mut carrier.burst, most);
    let left = carrier.burst.len();
    carrier.give_back_all();
    left
}

// Offers the burst where it is full.
fn make_room<D: Device<Note>>(dev: &mut D, carrier: &mut Carrier) -> usize
    requires laden { Laden (D.sessions dev.old) carrier.old (map entry_of carrier.old.burst.ops ++ D.held dev.old) }
    requires fresh { All IsFresh carrier.old.burst.ops }
    requires cap { 0 < carrier.old.burst.cap }
    ensures laden { Laden (D.sessions dev.new) carrier.new (map entry_of carrier.new.burst.ops ++ D.held dev.new) }
    ensures fresh { All IsFresh carrier.new.burst.ops }
    ensures room { length carrier.new.burst.ops < carrier.new.burst.cap }
    ensures same { SameCarrier carrier.old carrier.new }
    ensures counts { Counts (D.limit dev.old) (length (D.held dev.old)) (D.stalls dev.old) (length carrier.old.burst.ops) result
        (length carrier.new.burst.ops) (length (D.held dev.new)) (D.stalls dev.new) }
    ensures sum { finished_sum carrier.new.hands.items ≡ finished_sum carrier.old.hands.items }
    ensures enqueued { (n : ℕ) → (D.stats dev.old).enqueued ≡ capped (n + length (D.held dev.old))
        → (D.stats dev.new).enqueued ≡ capped (n + length (D.held dev.new)) }
    ensures sessions { D.sessions dev.new ≡ D.sessions dev.old }
    ensures follows { D.follows dev.old dev.new }
{
    if carrier.burst.room() > 0 {
        return 0;
    }
    offer(dev, carrier)
}

// Looks at each slot of each hand once, takes what is ready and offers it to the device. Answers how many were taken, and
// how many given back.
pub(crate) fn sweep<D: Device<Note>>(dev: &mut D, carrier: &mut Carrier) -> (usize, usize)
    requires laden { Laden (D.sessions dev.old) carrier.old (D.held dev.old) }
    requires empty { carrier.old.burst.ops ≡ [] }
    requires cap { 0 < carrier.old.burst.cap }
    ensures laden { Laden (D.sessions dev.new) carrier.new (D.held dev.new) }
    ensures empty { carrier.new.burst.ops ≡ [] }
    ensures same { SameCarrier carrier.old carrier.new }
    ensures swept { Swept carrier.old.slots (length carrier.old.hands.items * carrier.old.slots) carrier.old.hands.items carrier.new.hands.items result.0 }
    ensures counts { Counts (D.limit dev.old) (length (D.held dev.old)) (D.stalls dev.old) result.0 result.1 0
        (length (D.held dev.new)) (D.stalls dev.new) }
    ensures sum { finished_sum carrier.new.hands.items ≡ finished_sum carrier.old.hands.items }
    ensures enqueued { (n : ℕ) → (D.stats dev.old).enqueued ≡ capped (n + length (D.held dev.old))
        → (D.stats dev.new).enqueued ≡ capped (n + length (D.held dev.new)) }
    ensures sessions { D.sessions dev.new ≡ D.sessions dev.old }
    ensures follows { D.follows dev.old dev.new }
{
    let mut taken = 0;
    let mut given_back = 0;
    for code in 0..carrier.saved.len() {
        given_back += make_room(dev, carrier);
        taken += carrier.take_at(code);
    }
    given_back += offer(dev, carrier);
    (taken, given_back)
}
