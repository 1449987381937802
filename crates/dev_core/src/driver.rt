//! What a queue pair promises.
ghost use Rattle.std.specs.Prelude.{◌≡◌, ℕ, ◌+◌, ◌-◌, ◌<◌, ◌≤◌, ◌↔◌, min, List, [], ◌++◌, length, map, take, Option, Some, option_map, OnOk, OnErr, IsErrOf, IsPermutation};
ghost use Rattle.std.specs.List.{All};
ghost use Rattle.std.specs.Option.{ForSome};
ghost use Rattle.std.specs.Arc.{arc_value};

use crate::Stats;
use crypto_model::SessId;
use crypto_op::OpBurst;
use std::alloc::{AllocError, Global};
use std::sync::Arc;
use sym_session::SessionTable;
use thiserror::Error;

/// What a log tells of an operation that was taken.
#[derive(Clone, Copy, Debug, PartialEq, Eq)]
pub struct LogEntry {
    pub session: SessId,
    pub data_len: u32,
    pub pos: u64,
}

/// What kind of device is wished for. Only a device that has both kinds looks at it.
#[derive(Clone, Copy, Debug, PartialEq, Eq)]
pub enum Kind {
    Plain,
    Lane,
}

/// Why a device was not set up.
#[derive(Clone, Copy, Debug, PartialEq, Eq, Error)]
pub enum SetUpRefused {
    #[error("the depth isn't from 1 to 4,096")]
    BadDepth,
    #[error("the device holds operations")]
    Busy,
    #[error("out of memory")]
    OutOfMemory,
}

impl From<AllocError> for SetUpRefused {
    ghost use Rattle.dev_core.specs.declared.driver.SetUpRefused.TheVariants.{OutOfMemory};

    ghost from_gives = { λ _ e. e ≡ OutOfMemory };

    fn from(_error: AllocError) -> SetUpRefused {
        SetUpRefused::OutOfMemory
    }
}

/// A queue pair, with operations whose cargo is a `C`.
pub trait Driver<C> {
    ghost use Rattle.crypto_model.specs.Counts.{capped, Rose};
    ghost use Rattle.crypto_model.specs.Process.{Transform};
    ghost use Rattle.crypto_op.specs.Op.{Entry, IsFresh, IsDone, entry_of};
    ghost use Rattle.dev_core.specs.declared.driver.LogEntry.{LogEntry};
    ghost use Rattle.dev_core.specs.declared.stats.Stats.{Stats};
    ghost use Rattle.dev_core.specs.Burst.{offered, lens, room_of, rest_of, front, front_log, added, with_ops};
    ghost use Rattle.dev_core.specs.Stats.{after_enqueue, after_dequeue};
    ghost use Rattle.dev_core.specs.Calls.{Call, Offers, Asks};

    /// The entries of the operations that were accepted and not returned. Their order counts where the driver is `ordered`.
    ghost held: { Self → List (Entry C) };

    /// How many operations it takes more, where told.
    ghost room: { Self → Option ℕ };

    /// How many of the operations with these data lengths a call accepts if nothing stalls, where told.
    ghost admits: { Self → List ℕ → Option ℕ };

    /// In how many calls it moved less than it could: a count that stands still at its last value.
    ghost stalls: { Self → ℕ };

    ghost sessions: { Self → List (List Transform) };

    ghost stats: { Self → Stats };

    /// All operations taken, where told.
    ghost log: { Self → Option (List LogEntry) };

    /// Whether operations come back in the order in which they went in.
    ghost ordered: { Self → Type 0 };

    /// What every burst call keeps, by the state before it and the state after it.
    ghost follows: { Self → Self → Type 0 };

    /// What a burst call does inside, by the state before it and the state after it.
    ghost does: { Self → Call → Self → Type 0 } = { λ _ _ _. Unit {0} };

    /// Moves the first operations of the burst inside, at most `max`, and answers how many. The rest stays with the caller.
    fn enqueue_burst(&mut self, burst: &mut OpBurst<C>, max: usize) -> usize
        requires { All IsFresh (take max burst.old.ops) }
        ensures offered { result ≤ offered max burst.old }
        ensures rest { burst.new ≡ rest_of result burst.old }
        ensures held { IsPermutation (held self.old ++ front result burst.old) (held self.new) }
        ensures in_order { ordered self.old → held self.new ≡ held self.old ++ front result burst.old }
        ensures admitted { ForSome (admits self.old (lens max burst.old)) (λ a. result ≤ a) }
        ensures cause { ForSome (admits self.old (lens max burst.old)) (λ a. result < a → Rose (stalls self.old) (stalls self.new)) }
        ensures room { room self.new ≡ option_map (λ r. r - result) (room self.old) }
        ensures stalls { stalls self.old ≤ stalls self.new }
        ensures sessions { sessions self.new ≡ sessions self.old }
        ensures stats { stats self.new ≡ after_enqueue (offered max burst.old) result (stats self.old) }
        ensures log { log self.new ≡ option_map (λ l. l ++ front_log result burst.old) (log self.old) }
        ensures does { does self.old (Offers (front_log max burst.old) result) self.new }
        ensures follows { follows self.old self.new };

    /// Moves answered operations behind those of `out`, at most `max`, and answers how many.
    fn dequeue_burst(&mut self, out: &mut OpBurst<C>, max: usize) -> usize
        ensures within { result ≤ min max (room_of out.old) }
        ensures kept { out.new ≡ with_ops (added out.old out.new) out.old }
        ensures count { length out.new.ops ≡ length out.old.ops + result }
        ensures held { IsPermutation (map entry_of (added out.old out.new) ++ held self.new) (held self.old) }
        ensures in_order { ordered self.old → held self.old ≡ map entry_of (added out.old out.new) ++ held self.new }
        ensures done { All (IsDone (sessions self.old)) (added out.old out.new) }
        ensures cause { result < min (min max (room_of out.old)) (length (held self.old)) → Rose (stalls self.old) (stalls self.new) }
        ensures room { room self.new ≡ option_map (λ r. r + result) (room self.old) }
        ensures stalls { stalls self.old ≤ stalls self.new }
        ensures sessions { sessions self.new ≡ sessions self.old }
        ensures stats { stats self.new ≡ after_dequeue (min max (room_of out.old)) result (stats self.old) }
        ensures log { log self.new ≡ log self.old }
        ensures does { does self.old (Asks (min max (room_of out.old)) result) self.new }
        ensures follows { follows self.old self.new };

    /// How many operations are held, or the last value of a `usize` where they are more.
    fn held(&self) -> usize
        ensures { result ≡ capped (length (held self.now)) };

    fn stalls(&self) -> u64
        ensures { result ≡ stalls self.now };

    fn stats(&self) -> Stats
        ensures { result ≡ stats self.now };

    fn sessions(&self) -> &SessionTable
        ensures { result.now ≡ sessions self.now };

    /// Where the room is told, it decides what is admitted.
    ghost room_admits: { (d : Self) (r : ℕ) (ls : List ℕ) → room d ≡ Some r → admits d ls ≡ Some (min (length ls) r) };

    ghost keeps_order: { (d e : Self) → follows d e → ordered d → ordered e };

    ghost follows_itself: { (d : Self) → follows d d };

    ghost follows_on: { (d e f : Self) → follows d e → follows e f → follows d f };
}

/// A driver that is set up with sessions and a depth, and holds at most as many operations as its depth
/// says. Before it is set up first, its depth is 0 and it has no sessions.
pub trait Device<C>: Driver<C> {
    ghost use Rattle.dev_core.specs.declared.driver.SetUpRefused.TheVariants.{BadDepth, Busy};
    ghost use Rattle.dev_core.specs.Stats.{no_stats};
    ghost use Rattle.dev_core.specs.SetUp.{IsDepth};

    /// Its depth.
    ghost limit: { Self → ℕ };

    /// Makes the device ready. Refusals are tested in the order of `SetUpRefused`, and leave it as it was.
    fn set_up(
        &mut self,
        alloc: Global,
        kind: Kind,
        sessions: Arc<SessionTable>,
        depth: usize,
    ) -> Result<(), SetUpRefused>
        ensures bad_depth { IsErrOf result BadDepth ↔ ¬ (IsDepth depth) }
        ensures busy { IsErrOf result Busy ↔ IsDepth depth × (0 < length (Self.held self.old)) }
        ensures refused { OnErr result (self.new ≡ self.old) }
        ensures sessions { OnOk result (Self.sessions self.new ≡ arc_value sessions) }
        ensures depth { OnOk result (limit self.new ≡ depth) }
        ensures held { OnOk result (Self.held self.new ≡ []) }
        ensures stats { OnOk result (Self.stats self.new ≡ no_stats) }
        ensures log { OnOk result (Self.log self.new ≡ option_map (λ l. []) (Self.log self.old)) }
        ensures stalls { Self.stalls self.new ≡ Self.stalls self.old };

    fn depth(&self) -> usize
        ensures { result ≡ limit self.now };

    /// A device tells its room: its depth less what it holds.
    ghost room_told: { (d : Self) → Self.room d ≡ Some (limit d - length (Self.held d)) };

    ghost keeps_depth: { (d e : Self) → Self.follows d e → limit e ≡ limit d };

    ghost within_depth: { (d : Self) → length (Self.held d) ≤ limit d };
}
