//! What devices over another share.
ghost use Rattle.std.specs.Prelude.{◌≡◌, ℕ, ◌+◌, ◌-◌, ◌<◌, ◌≤◌, ◌++◌, min, length, map, take, Option, option_map, IsPermutation};
ghost use Rattle.std.specs.List.{All};
ghost use Rattle.std.specs.Option.{ForSome};
ghost use Rattle.crypto_model.specs.Counts.{capped, Rose};
ghost use Rattle.crypto_op.specs.Op.{IsFresh, IsDone, entry_of};
ghost use Rattle.dev_core.specs.Burst.{offered, lens, room_of, rest_of, front, front_log, added, with_ops};
ghost use Rattle.dev_core.specs.Limits.{least};
ghost use Rattle.dev_core.specs.Over.{DequeuesUpto, EnqueuesUpto};
ghost use Rattle.dev_core.specs.Stats.{no_stats, after_enqueue, after_dequeue};

use crate::cuts::{admitted, count_cut};
use crate::{Device, Stats};
use crypto_op::OpBurst;

/// A device below, in how many calls less was moved than it could, and what the device over it counts.
#[derive(Drop)]
pub(crate) struct Over<D> {
    pub(crate) inner: D,
    pub(crate) cuts: u64,
    pub(crate) stats: Stats,
}

impl<D> Over<D> {
    pub(crate) fn new(inner: D) -> Over<D>
        ensures { result ≡ record { inner = inner; cuts = 0; stats = no_stats } }
    {
        Over {
            inner,
            cuts: 0,
            stats: Stats::new(),
        }
    }

    pub(crate) fn into_inner(self) -> D
        ensures { result ≡ self.inner }
    {
        let Over {
            inner,
            cuts: _,
            stats: _,
        } = self;
        inner
    }
}

/// In how many calls less was moved, below or by the device over it.
pub(crate) fn stalls_of<C, D: Device<C>>(over: &Over<D>) -> u64
    ensures { result ≡ capped (D.stalls over.now.inner + over.now.cuts) }
{
    over.inner.stalls().saturating_add(over.cuts)
}

/// Offers the first `max` operations of a burst, of which at most `most` go in.
pub(crate) fn enqueue_upto<C, D: Device<C>>(
    over: &mut Over<D>,
    burst: &mut OpBurst<C>,
    max: usize,
    most: usize,
) -> usize
    requires fresh { All IsFresh (take max burst.old.ops) }
    requires below { most ≤ max }
    ensures offered { result ≤ offered max burst.old }
    ensures rest { burst.new ≡ rest_of result burst.old }
    ensures held { IsPermutation (D.held over.old.inner ++ front result burst.old) (D.held over.new.inner) }
    ensures in_order { D.ordered over.old.inner → D.held over.new.inner ≡ D.held over.old.inner ++ front result burst.old }
    ensures admitted { ForSome (D.admits over.old.inner (lens max burst.old)) (λ a. result ≤ a) }
    ensures cause { ForSome (D.admits over.old.inner (lens max burst.old))
        (λ a. result < a → Rose (capped (D.stalls over.old.inner + over.old.cuts)) (capped (D.stalls over.new.inner + over.new.cuts))) }
    ensures room { D.room over.new.inner ≡ option_map (λ r. r - result) (D.room over.old.inner) }
    ensures stalls { capped (D.stalls over.old.inner + over.old.cuts) ≤ capped (D.stalls over.new.inner + over.new.cuts) }
    ensures sessions { D.sessions over.new.inner ≡ D.sessions over.old.inner }
    ensures stats { over.new.stats ≡ after_enqueue (offered max burst.old) result over.old.stats }
    ensures log { D.log over.new.inner ≡ option_map (λ l. l ++ front_log result burst.old) (D.log over.old.inner) }
    ensures most { result ≤ most }
    ensures upto { (limit : Option ℕ) → most ≡ least limit max → EnqueuesUpto D.Driver limit (front_log max burst.old) result over.old over.new }
    ensures follows { D.follows over.old.inner over.new.inner }
{
    let offered = max.min(burst.len());
    let could = admitted(&over.inner, burst, max);
    over.cuts = count_cut(over.cuts, most, could);
    let n = over.inner.enqueue_burst(burst, most);
    over.stats.count_enqueue(offered, n);
    n
}

/// Asks for `max` operations, of which at most `most` come out.
pub(crate) fn dequeue_upto<C, D: Device<C>>(
    over: &mut Over<D>,
    out: &mut OpBurst<C>,
    max: usize,
    most: usize,
) -> usize
    requires below { most ≤ max }
    ensures within { result ≤ min max (room_of out.old) }
    ensures kept { out.new ≡ with_ops (added out.old out.new) out.old }
    ensures count { length out.new.ops ≡ length out.old.ops + result }
    ensures held { IsPermutation (map entry_of (added out.old out.new) ++ D.held over.new.inner) (D.held over.old.inner) }
    ensures in_order { D.ordered over.old.inner → D.held over.old.inner ≡ map entry_of (added out.old out.new) ++ D.held over.new.inner }
    ensures done { All (IsDone (D.sessions over.old.inner)) (added out.old out.new) }
    ensures cause { result < min (min max (room_of out.old)) (length (D.held over.old.inner))
        → Rose (capped (D.stalls over.old.inner + over.old.cuts)) (capped (D.stalls over.new.inner + over.new.cuts)) }
    ensures room { D.room over.new.inner ≡ option_map (λ r. r + result) (D.room over.old.inner) }
    ensures stalls { capped (D.stalls over.old.inner + over.old.cuts) ≤ capped (D.stalls over.new.inner + over.new.cuts) }
    ensures sessions { D.sessions over.new.inner ≡ D.sessions over.old.inner }
    ensures stats { over.new.stats ≡ after_dequeue (min max (room_of out.old)) result over.old.stats }
    ensures log { D.log over.new.inner ≡ D.log over.old.inner }
    ensures most { result ≤ most }
    ensures upto { (limit : Option ℕ) → most ≡ least limit max → DequeuesUpto D.Driver limit (min max (room_of out.old)) result over.old over.new }
    ensures follows { D.follows over.old.inner over.new.inner }
{
    let asked = max.min(out.room());
    let ready = asked.min(over.inner.held());
    over.cuts = count_cut(over.cuts, most, ready);
    let n = over.inner.dequeue_burst(out, most);
    over.stats.count_dequeue(asked, n);
    n
}
