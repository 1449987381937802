//! Where events come from and go to.
ghost use Rattle.std.specs.Prelude.{◌≡◌, ℕ, ◌+◌, ◌-◌, ◌<◌, ◌≤◌, min, List, ◌++◌, length, take, drop, Option, option_map};
ghost use Rattle.std.specs.List.{All};
ghost use Rattle.std.specs.Option.{ForSome};

use crate::EventBurst;

/// A port of an event device, with operations whose cargo is a `C`.
pub trait EventPort<C> {
    ghost use Rattle.crypto_model.specs.Counts.{Rose};
    ghost use Rattle.dev_core.specs.Burst.{room_of, rest_of, with_ops};
    ghost use Rattle.event_adapter.specs.declared.event.Event.{Event};
    ghost use Rattle.event_adapter.specs.Source.{IsUntouched};

    /// The events that can be taken, the first one first.
    ghost inbox: { Self → List (Event C) };

    /// The events that were sent.
    ghost sent: { Self → List (Event C) };

    /// In how many calls it moved less than it could: a count that stands still at its last value.
    ghost balks: { Self → ℕ };

    /// How many events it sends without a balk, where told. A port that tells it gives all that a call asks for.
    ghost spare: { Self → Option ℕ };

    /// Moves the first events of the inbox behind those of `out`, at most `max`, and answers how many.
    fn dequeue_burst(&mut self, out: &mut EventBurst<C>, max: usize) -> usize
        ensures within { result ≤ min (min max (room_of out.old)) (length (inbox self.old)) }
        ensures kept { out.new ≡ with_ops (take result (inbox self.old)) out.old }
        ensures inbox { inbox self.new ≡ drop result (inbox self.old) }
        ensures sent { sent self.new ≡ sent self.old }
        ensures cause { result < min (min max (room_of out.old)) (length (inbox self.old)) → Rose (balks self.old) (balks self.new) }
        ensures told { ForSome (spare self.old) (λ _. result ≡ min (min max (room_of out.old)) (length (inbox self.old))) }
        ensures spare { spare self.new ≡ option_map (λ s. s + result) (spare self.old) }
        ensures balks { balks self.old ≤ balks self.new };

    /// Sends the first events of the burst, and answers how many. The rest stays with the caller.
    fn enqueue_burst(&mut self, burst: &mut EventBurst<C>) -> usize
        ensures within { result ≤ length burst.old.ops }
        ensures rest { burst.new ≡ rest_of result burst.old }
        ensures inbox { inbox self.new ≡ inbox self.old }
        ensures sent { sent self.new ≡ sent self.old ++ take result burst.old.ops }
        ensures cause { result < length burst.old.ops → Rose (balks self.old) (balks self.new) }
        ensures told { ForSome (spare self.old) (λ s. length burst.old.ops ≤ s → result ≡ length burst.old.ops) }
        ensures fits { ForSome (spare self.old) (λ s. result ≤ s) }
        ensures spare { spare self.new ≡ option_map (λ s. s - result) (spare self.old) }
        ensures balks { balks self.old ≤ balks self.new };

    /// The operations of the inbox aren't processed, and have their made requests.
    ghost fresh: { (p : Self) → All IsUntouched (inbox p) };
}
