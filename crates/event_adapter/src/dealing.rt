//! The step that takes events from the port.
ghost use Rattle.std.specs.Prelude.{◌≡◌, ◌+◌, ◌<◌, ◌≤◌, min, [], ◌∷◌, ◌++◌, length, map, IsPermutation};
ghost use Rattle.std.specs.Vec.{vec_len, vec_capacity};
ghost use Rattle.std.specs.List.{All};
ghost use Rattle.std.specs.Option.{ForSome};
ghost use Rattle.crypto_model.specs.Counts.{Rose};
ghost use Rattle.dev_core.specs.Burst.{with_ops};
ghost use Rattle.event_adapter.specs.declared.moved.AdapterMode.TheVariants.{New, Forward};
ghost use Rattle.event_adapter.specs.Inside.{IsDistinct, ids, inside, least_room, strangers};
ghost use Rattle.event_adapter.specs.Ran.{TakesFrom, most_taken};
ghost use Rattle.event_adapter.specs.Source.{IsUntouched, source_of};
ghost use Rattle.event_adapter.specs.Steps.{Dealt, Each};

use crate::queue_pair::{QueuePair, WAITING};
use crate::steps::find;
use crate::{AdapterMode, Event, EventBurst, EventPort};
use dev_core::Driver;

// The least room of an in buffer.
fn least_in_room<C, D>(pairs: &Vec<QueuePair<C, D>>) -> usize
    ensures { result ≡ least_room pairs.now.items }
{
    let mut least = WAITING;
    for i in 0..pairs.len() {
        let room = pairs[i].waiting.room();
        if room < least {
            least = room;
        }
    }
    least
}

fn lower(a: usize, b: usize) -> usize
    ensures { result ≡ min a b }
{
    a.min(b)
}

// An event joins what waits for its queue pair, or goes out as it is.
fn deal_one<C, D: Driver<C>>(pairs: &mut Vec<QueuePair<C, D>>, out: &mut EventBurst<C>, e: Event<C>)
    requires untouched { IsUntouched e }
    requires room { 0 < least_room pairs.old.items }
    requires out_room { length out.old.ops < out.old.cap }
    requires distinct { IsDistinct (ids pairs.old.items) }
    ensures pairs { Each (Dealt (e ∷ [])) pairs.old.items pairs.new.items }
    ensures ids { ids pairs.new.items ≡ ids pairs.old.items }
    ensures len { vec_len pairs.new ≡ vec_len pairs.old }
    ensures capacity { vec_capacity pairs.new ≡ vec_capacity pairs.old }
    ensures room { least_room pairs.old.items ≤ least_room pairs.new.items + 1 }
    ensures out { out.new ≡ with_ops (strangers pairs.old.items (e ∷ [])) out.old }
    ensures out_room { length out.new.ops ≤ length out.old.ops + 1 }
    ensures bag { IsPermutation (inside D.Driver pairs.old.items out.old.ops ++ source_of e ∷ []) (inside D.Driver pairs.new.items out.new.ops) }
{
    match find(pairs, e.qp) {
        Some(k) => {
            let pair = &mut pairs[k];
            pair.put(e.op);
        }
        None => out.push(e),
    }
}

// Each taken event joins what waits for its queue pair, or goes out as it is.
fn deal<C, D: Driver<C>>(
    pairs: &mut Vec<QueuePair<C, D>>,
    out: &mut EventBurst<C>,
    taken: &mut EventBurst<C>,
)
    requires untouched { All IsUntouched taken.old.ops }
    requires room { length taken.old.ops ≤ least_room pairs.old.items }
    requires out_room { length out.old.ops + length taken.old.ops ≤ out.old.cap }
    requires distinct { IsDistinct (ids pairs.old.items) }
    ensures pairs { Each (Dealt taken.old.ops) pairs.old.items pairs.new.items }
    ensures ids { ids pairs.new.items ≡ ids pairs.old.items }
    ensures len { vec_len pairs.new ≡ vec_len pairs.old }
    ensures capacity { vec_capacity pairs.new ≡ vec_capacity pairs.old }
    ensures out { out.new ≡ with_ops (strangers pairs.old.items taken.old.ops) out.old }
    ensures taken { taken.new ≡ record taken.old { ops = [] } }
    ensures bag { IsPermutation (inside D.Driver pairs.old.items out.old.ops ++ map source_of taken.old.ops) (inside D.Driver pairs.new.items out.new.ops) }
{
    for _j in 0..taken.len() {
        match taken.pop() {
            Some(e) => deal_one(pairs, out, e),
            None => unreachable!(),
        }
    }
}

// Takes as many events from the port as there is room for.
fn take_in<C, D: Driver<C>, P: EventPort<C>>(
    port: &mut P,
    pairs: &mut Vec<QueuePair<C, D>>,
    out: &mut EventBurst<C>,
    taken: &mut EventBurst<C>,
) -> usize
    requires empty { taken.old ≡ record { cap = 32; ops = [] } }
    requires cap { out.old.cap ≡ 64 }
    requires distinct { IsDistinct (ids pairs.old.items) }
    ensures len { vec_len pairs.new ≡ vec_len pairs.old }
    ensures capacity { vec_capacity pairs.new ≡ vec_capacity pairs.old }
    ensures taken { taken.new ≡ record { cap = 32; ops = [] } }
    ensures step { TakesFrom D.Driver P.EventPort result port.old port.new pairs.old.items pairs.new.items out.old out.new }
    ensures cause { result < most_taken pairs.old.items out.old.ops (P.inbox port.old) → Rose (P.balks port.old) (P.balks port.new) }
    ensures told { ForSome (P.spare port.old) (λ _. result ≡ most_taken pairs.old.items out.old.ops (P.inbox port.old)) }
{
    let least = least_in_room(pairs);
    let room = out.room();
    let most = lower(least, room);
    let n = port.dequeue_burst(taken, most);
    deal(pairs, out, taken);
    n
}

/// Takes events from the port in mode Forward, and does nothing in mode New. The burst `taken` is empty before and after.
pub(crate) fn take_step<C, D: Driver<C>, P: EventPort<C>>(
    mode: AdapterMode,
    port: &mut P,
    pairs: &mut Vec<QueuePair<C, D>>,
    out: &mut EventBurst<C>,
    taken: &mut EventBurst<C>,
) -> usize
    requires empty { taken.old ≡ record { cap = 32; ops = [] } }
    requires cap { out.old.cap ≡ 64 }
    requires distinct { IsDistinct (ids pairs.old.items) }
    ensures len { vec_len pairs.new ≡ vec_len pairs.old }
    ensures capacity { vec_capacity pairs.new ≡ vec_capacity pairs.old }
    ensures taken { taken.new ≡ record { cap = 32; ops = [] } }
    ensures step { TakesFrom D.Driver P.EventPort result port.old port.new pairs.old.items pairs.new.items out.old out.new }
    ensures new { mode ≡ New → result ≡ 0 }
    ensures cause { mode ≡ Forward → result < most_taken pairs.old.items out.old.ops (P.inbox port.old) → Rose (P.balks port.old) (P.balks port.new) }
    ensures told { mode ≡ Forward → ForSome (P.spare port.old) (λ _. result ≡ most_taken pairs.old.items out.old.ops (P.inbox port.old)) }
{
    match mode {
        AdapterMode::New => 0,
        AdapterMode::Forward => take_in(port, pairs, out, taken),
    }
}
