//! One turn of a queue pair.
ghost use Rattle.std.specs.Prelude.{◌≡◌, ◌+◌, ◌≤◌, ◌<◌, ◌^◌, [], ◌++◌, List, ℕ, length, map, option_map};
ghost use Rattle.std.specs.List.{All};
ghost use Rattle.std.specs.List.Sorted.{IsPermutation};
ghost use Rattle.crypto_model.specs.Counts.{capped, Rose};
ghost use Rattle.crypto_op.specs.declared.spec.Card.{Card};
ghost use Rattle.crypto_op.specs.Op.{Entry, IsFresh, entry_of};
ghost use Rattle.dev_core.specs.Burst.{front, front_log, log_entry, rest_of};
ghost use Rattle.dev_core.specs.Calls.{Call, Ran};
ghost use Rattle.dev_core.specs.Offers.{IsDrained};
ghost use Rattle.packet_plan.specs.Asked.{sessions_of};
ghost use Rattle.packet_flow.specs.Numbered.{Numbered};
ghost use Rattle.packet_flow.specs.Seats.{AllIn};
ghost use Rattle.packet_flow.specs.Slots.{StandFor};
ghost use Rattle.packet_flow.specs.Turns.{NeverIdle, OnlyAsked, with_offer};

use crate::slots::Slots;
use capture_io::Header;
use crypto_op::{Card, OpBurst};
use dev_core::Driver;
use mbuf_chain::SegStore;
use packet_plan::ReadyPlan;
use std::alloc::Global;

// Offers the burst once, unless it is empty, and says how many operations were accepted.
fn offer<D: Driver<Card>>(dev: &mut D, burst: &mut OpBurst<Card>) -> usize
    requires fresh { All IsFresh burst.old.ops }
    requires counted { (D.stats dev.old).enqueued < 2 ^ 64 }
    ensures within { result ≤ length burst.old.ops }
    ensures rest { burst.new ≡ rest_of result burst.old }
    ensures held { IsPermutation (D.held dev.old ++ front result burst.old) (D.held dev.new) }
    ensures cause { NeverIdle D.admits D.held dev.old → 0 < length burst.old.ops
        → (a : ℕ) × (result < a → Rose (D.stalls dev.old) (D.stalls dev.new)) × (a ≡ 0 → 0 < length (D.held dev.old)) }
    ensures stalls { D.stalls dev.old ≤ D.stalls dev.new }
    ensures sessions { D.sessions dev.new ≡ D.sessions dev.old }
    ensures enqueued { (D.stats dev.new).enqueued ≡ capped ((D.stats dev.old).enqueued + result) }
    ensures log { D.log dev.new ≡ option_map (λ l. l ++ front_log result burst.old) (D.log dev.old) }
    ensures calls { (first : D) (past : List Call) → Ran D.does first past dev.old
        → Ran D.does first (with_offer (map log_entry burst.old.ops) result past) dev.new }
    ensures follows { D.follows dev.old dev.new }
{
    if burst.len() == 0 {
        return 0;
    }
    dev.enqueue_burst(burst, burst.len())
}

// Takes back what comes back now, and says how many operations that were.
fn drain<P: SegStore, D: Driver<Card>>(
    alloc: Global,
    store: &mut P,
    header: &Header,
    plan: &ReadyPlan,
    dev: &mut D,
    slots: &mut Slots,
    back: &mut OpBurst<Card>,
) -> usize
    requires empty { back.old.ops ≡ [] }
    requires size { 0 < back.old.cap }
    requires few { length (D.held dev.old) ≤ 2 ^ 32 }
    requires sessions { D.sessions dev.old ≡ sessions_of plan.now }
    requires stand { (ps : List Numbered) × (rest : List (Entry Card)) × StandFor plan.now ps slots.old (D.held dev.old ++ rest) }
    ensures stand { (ps : List Numbered) (rest : List (Entry Card)) → StandFor plan.now ps slots.old (D.held dev.old ++ rest)
        → StandFor plan.now ps slots.new (D.held dev.new ++ rest) }
    ensures order { AllIn header.now.big slots.old → AllIn header.now.big slots.new }
    ensures count { result + length (D.held dev.new) ≡ length (D.held dev.old) }
    ensures emptied { back.new ≡ back.old }
    ensures cause { result ≡ 0 → 0 < length (D.held dev.old) → Rose (D.stalls dev.old) (D.stalls dev.new) }
    ensures stalls { D.stalls dev.old ≤ D.stalls dev.new }
    ensures sessions { D.sessions dev.new ≡ D.sessions dev.old }
    ensures enqueued { (D.stats dev.new).enqueued ≡ (D.stats dev.old).enqueued }
    ensures log { D.log dev.new ≡ D.log dev.old }
    ensures calls { (first : D) (past : List Call) → Ran D.does first past dev.old
        → (now : List Call) × Ran D.does first now dev.new × IsDrained now × OnlyAsked past now }
    ensures follows { D.follows dev.old dev.new }
{
    let size = back.room();
    let mut all = 0;
    loop {
        let n = dev.dequeue_burst(back, size);
        slots.settle_all(alloc, store, header, plan, back);
        all += n;
        if n < size {
            return all;
        }
    }
}

/// Offers the burst once, unless it is empty, and takes back what comes back: how many operations were accepted, and how
/// many returned.
pub(crate) fn turn<P: SegStore, D: Driver<Card>>(
    alloc: Global,
    store: &mut P,
    header: &Header,
    plan: &ReadyPlan,
    dev: &mut D,
    burst: &mut OpBurst<Card>,
    slots: &mut Slots,
    back: &mut OpBurst<Card>,
) -> (usize, usize)
    requires fresh { All IsFresh burst.old.ops }
    requires empty { back.old.ops ≡ [] }
    requires size { 0 < back.old.cap }
    requires few { length (D.held dev.old) + length burst.old.ops ≤ 2 ^ 32 }
    requires counted { (D.stats dev.old).enqueued < 2 ^ 64 }
    requires sessions { D.sessions dev.old ≡ sessions_of plan.now }
    requires works { NeverIdle D.admits D.held dev.old }
    requires stand { (ps : List Numbered) × StandFor plan.now ps slots.old (D.held dev.old ++ map entry_of burst.old.ops) }
    ensures stand { (ps : List Numbered) → StandFor plan.now ps slots.old (D.held dev.old ++ map entry_of burst.old.ops)
        → StandFor plan.now ps slots.new (D.held dev.new ++ map entry_of burst.new.ops) }
    ensures order { AllIn header.now.big slots.old → AllIn header.now.big slots.new }
    ensures within { result.0 ≤ length burst.old.ops }
    ensures rest { burst.new ≡ rest_of result.0 burst.old }
    ensures count { result.1 + length (D.held dev.new) ≡ length (D.held dev.old) + result.0 }
    ensures emptied { back.new ≡ back.old }
    ensures cause { result.0 + result.1 ≡ 0 → 0 < length (D.held dev.old) + length burst.old.ops → Rose (D.stalls dev.old) (D.stalls dev.new) }
    ensures stalls { D.stalls dev.old ≤ D.stalls dev.new }
    ensures sessions { D.sessions dev.new ≡ D.sessions dev.old }
    ensures enqueued { (D.stats dev.new).enqueued ≡ capped ((D.stats dev.old).enqueued + result.0) }
    ensures log { D.log dev.new ≡ option_map (λ l. l ++ front_log result.0 burst.old) (D.log dev.old) }
    ensures calls { (first : D) (past : List Call) → Ran D.does first past dev.old
        → (now : List Call) × Ran D.does first now dev.new × IsDrained now × OnlyAsked (with_offer (map log_entry burst.old.ops) result.0 past) now }
    ensures follows { D.follows dev.old dev.new }
{
    let accepted = offer(dev, burst);
    let returned = drain(alloc, store, header, plan, dev, slots, back);
    (accepted, returned)
}
