//! The adapter.
ghost use Rattle.std.specs.Prelude.{◌≡◌, ℕ, ◌+◌, ◌-◌, ◌<◌, ◌≤◌, ◌==◌, ◌↔◌, [], ◌∷◌, ◌++◌, length, map, take, drop, option_map, remove, true, false};
ghost use Rattle.std.specs.Prelude.{IfOk, IsErr, IsErrOf, IsOk, IsPermutation, OnErr, OnOk, slice_index_or, slice_set};
ghost use Rattle.std.specs.Vec.{vec_len, vec_capacity};
ghost use Rattle.std.specs.List.{All, count_by};
ghost use Rattle.std.specs.Option.{ForSome};
ghost use Rattle.crypto_model.specs.Counts.{Rose, capped};
ghost use Rattle.crypto_op.specs.Op.{IsFresh};
ghost use Rattle.dev_core.specs.Burst.{front, rest_of};
ghost use Rattle.event_adapter.specs.declared.moved.AdapterMode.TheVariants.{New};
ghost use Rattle.event_adapter.specs.declared.queue_pair.QueuePair.{QueuePair};
ghost use Rattle.event_adapter.specs.declared.refused.AddQpRefused.TheVariants.{AlreadyAdded, TooManyPairs};
ghost use Rattle.event_adapter.specs.declared.refused.DelRefused.TheVariants.{Pending};
ghost use Rattle.event_adapter.specs.declared.refused.DelRefused.TheVariants as DelRefused;
ghost use Rattle.event_adapter.specs.Inside.{IsDistinct, IsIdle, ids, inside, inside_at, is_known};
ghost use Rattle.event_adapter.specs.Steps.{Each, Submitted};

use crate::dealing::take_step;
use crate::queue_pair::{QueuePair, WAITING};
use crate::steps::{complete_all, find, offer_all};
use crate::{AdapterMode, AddQpRefused, DelRefused, EventBurst, EventPort, Moved, Unknown};
use crypto_model::OutOfMemory;
use crypto_op::OpBurst;
use dev_core::Driver;
use std::alloc::Global;

const QUEUE_PAIRS: usize = 8;

// The room of the out buffer.
const LEAVING: usize = 64;

/// Queue pairs between an event port and devices: an in buffer of 32 operations for each of at most eight, and an
/// out buffer of 64 events for all. Only `new` takes memory.
///
/// The buffers of queue pairs that aren't there are idle; `scratch` and `taken` hold something inside a run alone,
/// and `handed` is what `break_up` gives the devices back in.
#[derive(Drop)]
pub struct Adapter<C, D> {
    mode: AdapterMode,
    pairs: Vec<QueuePair<C, D>>,
    idle: Vec<OpBurst<C>>,
    out: EventBurst<C>,
    scratch: OpBurst<C>,
    taken: EventBurst<C>,
    handed: Vec<D>,
    stats: Moved,
    ghost eight: { vec_len pairs + vec_len idle ≡ 8 },
    ghost room: { (8 ≤ vec_capacity pairs) × (8 ≤ vec_capacity idle) },
    ghost idle_empty: { All IsIdle idle.items },
    ghost out_cap: { out.cap ≡ 64 },
    ghost scratch_empty: { scratch ≡ record { cap = 64; ops = [] } },
    ghost taken_empty: { taken ≡ record { cap = 32; ops = [] } },
    ghost handed_empty: { (handed.items ≡ []) × (8 ≤ vec_capacity handed) },
    ghost distinct: { IsDistinct (ids pairs.items) },
}

// Eight empty in buffers.
fn make_idle<C: Drop>(alloc: Global) -> Result<Vec<OpBurst<C>>, OutOfMemory>
    ensures len { IfOk result (λ v. vec_len v ≡ 8) }
    ensures capacity { IfOk result (λ v. 8 ≤ vec_capacity v) }
    ensures idle { IfOk result (λ v. All IsIdle v.items) }
{
    let mut idle = Vec::with_capacity(alloc, QUEUE_PAIRS)?;
    for _i in 0..8usize {
        let burst = OpBurst::new(alloc, WAITING)?;
        match idle.push(burst) {
            Ok(()) => {}
            Err(_) => unreachable!(),
        }
    }
    Ok(idle)
}

impl<C: Drop, D> Adapter<C, D> {
    ghost use Rattle.event_adapter.specs.Adapter.{mode_of, moved_of, out_of, pairs_of};
    ghost use Rattle.event_adapter.specs.Ran.{none_moved};

    /// An adapter with no queue pair, with the room for all that it will hold.
    pub fn new(alloc: Global, mode: AdapterMode) -> Result<Adapter<C, D>, OutOfMemory>
        ensures mode { IfOk result (λ a. mode_of a ≡ mode) }
        ensures pairs { IfOk result (λ a. pairs_of a ≡ []) }
        ensures out { IfOk result (λ a. out_of a ≡ []) }
        ensures moved { IfOk result (λ a. moved_of a ≡ none_moved) }
    {
        let idle = make_idle(alloc)?;
        let out = EventBurst::new(alloc, LEAVING)?;
        let scratch = OpBurst::new(alloc, LEAVING)?;
        let taken = EventBurst::new(alloc, WAITING)?;
        let handed = Vec::with_capacity(alloc, QUEUE_PAIRS)?;
        let pairs = match Vec::with_capacity(alloc, QUEUE_PAIRS) {
            Ok(pairs) => pairs,
            Err(e) => {
                handed.destroy_empty();
                return Err(e.into());
            }
        };
        Ok(Adapter {
            mode,
            pairs,
            idle,
            out,
            scratch,
            taken,
            handed,
            stats: Moved {
                sent: 0,
                completed: 0,
                submitted: 0,
                taken: 0,
            },
        })
    }

    /// Hands the devices back, in the order of adding and with what they hold. What is in the buffers is dropped.
    pub fn break_up(self) -> Vec<D>
        ensures { result.items ≡ map (λ p. p.dev) (pairs_of self) }
    {
        let Adapter {
            mode: _,
            mut pairs,
            idle: _,
            out: _,
            scratch: _,
            taken: _,
            mut handed,
            stats: _,
        } = self;
        for _i in 0..pairs.len() {
            let QueuePair {
                id: _,
                waiting: _,
                dev,
            } = pairs.remove(0);
            match handed.push(dev) {
                Ok(()) => {}
                Err(_) => unreachable!(),
            }
        }
        pairs.destroy_empty();
        handed
    }
}

fn take_idle<C>(idle: &mut Vec<OpBurst<C>>) -> OpBurst<C>
    requires some { 0 < vec_len idle.old }
    requires idle { All IsIdle idle.old.items }
    ensures result { IsIdle result }
    ensures idle { All IsIdle idle.new.items }
    ensures len { vec_len idle.new + 1 ≡ vec_len idle.old }
    ensures capacity { vec_capacity idle.new ≡ vec_capacity idle.old }
{
    match idle.pop() {
        Some(waiting) => waiting,
        None => unreachable!(),
    }
}

fn give_idle<C>(idle: &mut Vec<OpBurst<C>>, waiting: OpBurst<C>)
    requires cap { waiting.cap ≡ 32 }
    requires empty { length waiting.ops ≡ 0 }
    requires idle { All IsIdle idle.old.items }
    requires room { vec_len idle.old < vec_capacity idle.old }
    ensures idle { All IsIdle idle.new.items }
    ensures len { vec_len idle.new ≡ vec_len idle.old + 1 }
    ensures capacity { vec_capacity idle.old ≤ vec_capacity idle.new }
{
    match idle.push(waiting) {
        Ok(()) => {}
        Err(_) => unreachable!(),
    }
}

fn remove_pair<C, D>(pairs: &mut Vec<QueuePair<C, D>>, k: usize) -> QueuePair<C, D>
    requires at { k < vec_len pairs.old }
    requires distinct { IsDistinct (ids pairs.old.items) }
    ensures result { (d : QueuePair C D) → slice_index_or pairs.old.items k d ≡ result }
    ensures pairs { pairs.new.items ≡ remove pairs.old.items k }
    ensures distinct { IsDistinct (ids pairs.new.items) }
    ensures len { vec_len pairs.new + 1 ≡ vec_len pairs.old }
    ensures capacity { vec_capacity pairs.new ≡ vec_capacity pairs.old }
{
    pairs.remove(k)
}

fn push_pair<C, D>(pairs: &mut Vec<QueuePair<C, D>>, id: u8, waiting: OpBurst<C>, dev: D)
    requires idle { IsIdle waiting }
    requires distinct { IsDistinct (ids pairs.old.items) }
    requires new { is_known pairs.old.items id ≡ false }
    requires room { vec_len pairs.old < vec_capacity pairs.old }
    ensures pairs { (p : QueuePair C D) × (pairs.new.items ≡ pairs.old.items ++ p ∷ []) × (p.id ≡ id) × (p.dev ≡ dev) × IsIdle p.waiting }
    ensures distinct { IsDistinct (ids pairs.new.items) }
    ensures len { vec_len pairs.new ≡ vec_len pairs.old + 1 }
    ensures capacity { vec_capacity pairs.old ≤ vec_capacity pairs.new }
{
    match pairs.push(QueuePair { id, waiting, dev }) {
        Ok(()) => {}
        Err(_) => unreachable!(),
    }
}

fn submit_at<C, D: Driver<C>>(
    pairs: &mut Vec<QueuePair<C, D>>,
    k: usize,
    burst: &mut OpBurst<C>,
) -> usize
    requires at { k < vec_len pairs.old }
    requires fresh { All IsFresh burst.old.ops }
    ensures rest { burst.new ≡ rest_of result burst.old }
    ensures ids { ids pairs.new.items ≡ ids pairs.old.items }
    ensures len { vec_len pairs.new ≡ vec_len pairs.old }
    ensures capacity { vec_capacity pairs.new ≡ vec_capacity pairs.old }
    ensures pairs { (p q : QueuePair C D) × (p ≡ slice_index_or pairs.old.items k p) × (pairs.new.items ≡ slice_set pairs.old.items k q)
        × Submitted D.Driver burst.old result p q }
{
    let pair = &mut pairs[k];
    pair.submit(burst)
}

// How many events are inside of the queue pair at k, which has this id.
fn pending_at<C, D: Driver<C>>(
    pairs: &Vec<QueuePair<C, D>>,
    out: &EventBurst<C>,
    k: usize,
    id: u8,
) -> usize
    requires at { k < vec_len pairs.now }
    requires named { (d : QueuePair C D) → (slice_index_or pairs.now.items k d).id ≡ id }
    requires distinct { IsDistinct (ids pairs.now.items) }
    ensures empty { result ≡ 0 → (d : QueuePair C D) → length (slice_index_or pairs.now.items k d).waiting.ops ≡ 0 }
    ensures exact { result ≡ capped (inside_at D.Driver pairs.now.items out.now.ops id) }
{
    let pair = &pairs[k];
    let waiting = pair.waiting.len();
    let held = pair.dev.held();
    let here = waiting.saturating_add(held);
    let going = count(out, id);
    here.saturating_add(going)
}

// How many events of a burst are for this queue pair.
fn count<C>(out: &EventBurst<C>, id: u8) -> usize
    ensures exact { result ≡ count_by (λ e. e.qp == id) out.now.ops }
{
    let mut n = 0;
    for i in 0..out.len() {
        if out.get(i).qp == id {
            n += 1;
        }
    }
    n
}

impl<C, D: Driver<C>> Adapter<C, D> {
    ghost use Rattle.event_adapter.specs.Adapter.{KeepsRest, mode_of, moved_of, out_of, pairs_of};
    ghost use Rattle.event_adapter.specs.Ran.{KeepsOrder, Ran, plus};
    ghost use Rattle.event_adapter.specs.Source.{source_of, tagged};

    /// Adds a queue pair, whose device holds nothing. Refusals are tested in the order of `AddQpRefused`.
    pub fn queue_pair_add(&mut self, id: u8, dev: D) -> Result<(), AddQpRefused<D>>
        requires empty { D.held dev ≡ [] }
        ensures already { IsErrOf result (AlreadyAdded dev) ↔ (is_known (pairs_of self.old) id ≡ true) }
        ensures many { IsErrOf result (TooManyPairs dev) ↔ (is_known (pairs_of self.old) id ≡ false) × (length (pairs_of self.old) ≡ 8) }
        ensures added { IsOk result ↔ (is_known (pairs_of self.old) id ≡ false) × (length (pairs_of self.old) < 8) }
        ensures refused { OnErr result (self.new ≡ self.old) }
        ensures pairs { OnOk result ((p : QueuePair C D) × (pairs_of self.new ≡ pairs_of self.old ++ p ∷ []) × (p.id ≡ id) × (p.dev ≡ dev) × IsIdle p.waiting) }
        ensures rest { KeepsRest self.old self.new }
    {
        match find(&self.pairs, id) {
            Some(_) => Err(AddQpRefused::AlreadyAdded(dev)),
            None => {
                if self.pairs.len() == QUEUE_PAIRS {
                    return Err(AddQpRefused::TooManyPairs(dev));
                }
                let waiting = take_idle(&mut self.idle);
                push_pair(&mut self.pairs, id, waiting, dev);
                Ok(())
            }
        }
    }

    /// Takes a queue pair away and hands its device back, where none of its events is inside: in the out buffer, in its
    /// in buffer or in its device.
    pub fn queue_pair_del(&mut self, id: u8) -> Result<D, DelRefused>
        ensures unknown { IsErrOf result DelRefused.Unknown ↔ (is_known (pairs_of self.old) id ≡ false) }
        ensures pending { (n : ℕ) → IsErrOf result (Pending n) ↔ (is_known (pairs_of self.old) id ≡ true)
            × (0 < inside_at D.Driver (pairs_of self.old) (out_of self.old) id) × (n ≡ capped (inside_at D.Driver (pairs_of self.old) (out_of self.old) id)) }
        ensures refused { OnErr result (self.new ≡ self.old) }
        ensures pairs { IfOk result (λ dev. (k : ℕ) × (k < vec_len self.old.pairs) × (pairs_of self.new ≡ remove (pairs_of self.old) k)
            × ((d : QueuePair C D) → ((slice_index_or (pairs_of self.old) k d).id ≡ id) × ((slice_index_or (pairs_of self.old) k d).dev ≡ dev))) }
        ensures rest { KeepsRest self.old self.new }
    {
        match find(&self.pairs, id) {
            None => Err(DelRefused::Unknown),
            Some(k) => {
                let n = pending_at(&self.pairs, &self.out, k, id);
                if n > 0 {
                    return Err(DelRefused::Pending(n));
                }
                let QueuePair {
                    id: _,
                    waiting,
                    dev,
                } = remove_pair(&mut self.pairs, k);
                give_idle(&mut self.idle, waiting);
                Ok(dev)
            }
        }
    }

    /// Offers a burst to the device of a queue pair, in mode New. The rest stays with the caller.
    pub fn submit(&mut self, id: u8, burst: &mut OpBurst<C>) -> Result<usize, Unknown>
        requires mode { mode_of self.old ≡ New }
        requires fresh { All IsFresh burst.old.ops }
        ensures unknown { IsErr result ↔ (is_known (pairs_of self.old) id ≡ false) }
        ensures refused { OnErr result (self.new ≡ self.old) }
        ensures burst_refused { OnErr result (burst.new ≡ burst.old) }
        ensures burst { IfOk result (λ n. burst.new ≡ rest_of n burst.old) }
        ensures pairs { IfOk result (λ n. (k : ℕ) × (p q : QueuePair C D) × (k < vec_len self.old.pairs) × (p ≡ slice_index_or (pairs_of self.old) k p)
            × (pairs_of self.new ≡ slice_set (pairs_of self.old) k q) × (p.id ≡ id) × Submitted D.Driver burst.old n p q) }
        ensures bag { IfOk result (λ n. IsPermutation (inside D.Driver (pairs_of self.old) (out_of self.old) ++ map (tagged id) (front n burst.old))
            (inside D.Driver (pairs_of self.new) (out_of self.new))) }
        ensures rest { KeepsRest self.old self.new }
    {
        match find(&self.pairs, id) {
            None => Err(Unknown),
            Some(k) => Ok(submit_at(&mut self.pairs, k, burst)),
        }
    }

    /// Does four steps, with one call of the port or of each device in each: sends what is in the out buffer, takes completions of the
    /// queue pairs in the order of adding, offers each device what waits for it, and in mode Forward takes events from the port.
    pub fn run_once<P: EventPort<C>>(&mut self, port: &mut P) -> Moved
        ensures within { result.sent ≤ length (out_of self.old) }
        ensures sent { P.sent port.new ≡ P.sent port.old ++ take result.sent (out_of self.old) }
        ensures cause { result.sent < length (out_of self.old) → Rose (P.balks port.old) (P.balks port.new) }
        ensures told { ForSome (P.spare port.old) (λ s. length (out_of self.old) ≤ s → result.sent ≡ length (out_of self.old)) }
        ensures step { Ran D.Driver P.EventPort (mode_of self.old) port.old port.new (pairs_of self.old) (pairs_of self.new)
            (out_of self.old) (out_of self.new) result }
        ensures bag { IsPermutation (inside D.Driver (pairs_of self.old) (out_of self.old) ++ map source_of (take result.taken (P.inbox port.old)))
            (map source_of (take result.sent (out_of self.old)) ++ inside D.Driver (pairs_of self.new) (out_of self.new)) }
        ensures order { Each (KeepsOrder D.Driver (take result.sent (out_of self.old)) (take result.taken (P.inbox port.old))
            (out_of self.old) (out_of self.new)) (pairs_of self.old) (pairs_of self.new) }
        ensures inbox { P.inbox port.new ≡ drop result.taken (P.inbox port.old) }
        ensures spare { P.spare port.new ≡ option_map (λ s. (s - result.sent) + result.taken) (P.spare port.old) }
        ensures balks { P.balks port.old ≤ P.balks port.new }
        ensures ids { ids (pairs_of self.new) ≡ ids (pairs_of self.old) }
        ensures mode { mode_of self.new ≡ mode_of self.old }
        ensures moved { moved_of self.new ≡ plus (moved_of self.old) result }
    {
        let sent = port.enqueue_burst(&mut self.out);
        let kind = self.mode.completion_kind();
        let completed = complete_all(kind, &mut self.pairs, &mut self.out, &mut self.scratch);
        let submitted = offer_all(&mut self.pairs);
        let taken = take_step(
            self.mode,
            port,
            &mut self.pairs,
            &mut self.out,
            &mut self.taken,
        );
        let moved = Moved {
            sent,
            completed,
            submitted,
            taken,
        };
        self.stats = self.stats.plus(moved);
        moved
    }

    /// What its runs moved, each number standing still at its last value. What was submitted by `submit` isn't in it.
    pub fn stats(&self) -> Moved
        ensures { result ≡ moved_of self.now }
    {
        self.stats
    }
}
