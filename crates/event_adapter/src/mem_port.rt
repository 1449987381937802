//! A port in memory.
ghost use Rattle.std.specs.Prelude.{◌≡◌, ◌↔◌, ◌+◌, ◌-◌, ◌<◌, ◌≤◌, [], ◌∷◌, ◌++◌, length, take, drop, Some, IfOk, IsSome};
ghost use Rattle.std.specs.List.{All};
ghost use Rattle.std.specs.Option.{option_to_list};
ghost use Rattle.std.specs.VecDeque.{deque_len, deque_capacity};
ghost use Rattle.dev_core.specs.Burst.{rest_of, with_ops};
ghost use Rattle.dev_core.specs.Limits.{counted, cuts_after, least, next_limit};
ghost use Rattle.event_adapter.specs.Source.{IsUntouched};
ghost use Rattle.event_adapter.specs.Port.{can_send, could_give, told_room};

use crate::{Event, EventBurst, EventPort};
use crypto_model::OutOfMemory;
use dev_core::{LimitedCalls, Limits};
use std::alloc::Global;
use std::collections::VecDeque;

/// A port in memory, with room for so many events that were put or sent and not taken yet. It may be made to move at most so many
/// events in a call, as a slow event device does.
#[derive(Drop)]
pub struct MemPort<C> {
    cap: usize,
    inbox: VecDeque<Event<C>>,
    sent: VecDeque<Event<C>>,
    takes: LimitedCalls,
    sends: LimitedCalls,
    balks: u64,
    ghost fits: { deque_len inbox + deque_len sent ≤ cap },
    ghost room: { (cap ≤ deque_capacity inbox) × (cap ≤ deque_capacity sent) },
    ghost untouched: { All IsUntouched inbox.items },
}

impl<C: Drop> MemPort<C> {
    /// Makes the room for `cap` events. Limit i of `take` applies to dequeue i and that of `send` to send i, counted from 0.
    pub fn new(
        alloc: Global,
        cap: usize,
        take: Limits,
        send: Limits,
    ) -> Result<MemPort<C>, OutOfMemory>
        ensures empty { IfOk result (λ p. (p.inbox.items ≡ []) × (p.sent.items ≡ [])) }
        ensures cap { IfOk result (λ p. p.cap ≡ cap) }
        ensures takes { IfOk result (λ p. p.takes ≡ record { limits = take; calls = 0 }) }
        ensures sends { IfOk result (λ p. p.sends ≡ record { limits = send; calls = 0 }) }
        ensures balks { IfOk result (λ p. p.balks ≡ 0) }
    {
        Ok(MemPort {
            cap,
            inbox: VecDeque::with_capacity(alloc, cap)?,
            sent: VecDeque::with_capacity(alloc, cap)?,
            takes: LimitedCalls::new(take),
            sends: LimitedCalls::new(send),
            balks: 0,
        })
    }
}

impl<C> MemPort<C> {
    /// Puts an event behind those that can be taken.
    pub fn put(&mut self, e: Event<C>)
        requires untouched { IsUntouched e }
        requires room { length self.old.inbox.items + length self.old.sent.items < self.old.cap }
        ensures inbox { self.new.inbox.items ≡ self.old.inbox.items ++ e ∷ [] }
        ensures sent { self.new.sent.items ≡ self.old.sent.items }
        ensures cap { self.new.cap ≡ self.old.cap }
        ensures limits { (self.new.takes ≡ self.old.takes) × (self.new.sends ≡ self.old.sends) }
        ensures balks { self.new.balks ≡ self.old.balks }
    {
        store(&mut self.inbox, e);
    }

    /// Takes the first of the events that were sent and not taken yet.
    pub fn take_sent(&mut self) -> Option<Event<C>>
        ensures sent { self.old.sent.items ≡ option_to_list result ++ self.new.sent.items }
        ensures some { IsSome result ↔ (0 < length self.old.sent.items) }
        ensures inbox { self.new.inbox.items ≡ self.old.inbox.items }
        ensures cap { self.new.cap ≡ self.old.cap }
        ensures limits { (self.new.takes ≡ self.old.takes) × (self.new.sends ≡ self.old.sends) }
        ensures balks { self.new.balks ≡ self.old.balks }
    {
        self.sent.pop_front()
    }

    /// How many events can be taken.
    pub fn waiting(&self) -> usize
        ensures { result ≡ length self.now.inbox.items }
    {
        self.inbox.len()
    }

    /// How many events more there is room for.
    pub fn room(&self) -> usize
        ensures { result + (length self.now.inbox.items + length self.now.sent.items) ≡ self.now.cap }
    {
        self.cap - (self.inbox.len() + self.sent.len())
    }

    /// The port's dequeue, with its exact number: only its limit makes it less than it could be, and that is counted as a balk.
    pub fn give_burst(&mut self, out: &mut EventBurst<C>, max: usize) -> usize
        ensures number { result ≡ least (next_limit self.old.takes) (could_give max out.old self.old.inbox.items) }
        ensures out { out.new ≡ with_ops (take result self.old.inbox.items) out.old }
        ensures inbox { self.new.inbox.items ≡ drop result self.old.inbox.items }
        ensures sent { self.new.sent.items ≡ self.old.sent.items }
        ensures cap { self.new.cap ≡ self.old.cap }
        ensures limits { (self.new.takes ≡ counted self.old.takes) × (self.new.sends ≡ self.old.sends) }
        ensures balks { self.new.balks ≡ cuts_after (Some result) (could_give max out.old self.old.inbox.items) self.old.balks }
        ensures later { self.old.balks ≤ self.new.balks }
    {
        let could = max.min(out.room()).min(self.inbox.len());
        let n = self.takes.next(could);
        self.balks = self.balks.saturating_add(u64::from(n < could));
        hand_out(&mut self.inbox, out, n);
        n
    }

    /// The port's send, with its exact number: its limit or the room that is left make it less than the burst, and that is counted
    /// as a balk.
    pub fn send_burst(&mut self, burst: &mut EventBurst<C>) -> usize
        ensures number { result ≡ can_send self.old.sends (self.old.cap - (length self.old.inbox.items + length self.old.sent.items)) burst.old }
        ensures rest { burst.new ≡ rest_of result burst.old }
        ensures inbox { self.new.inbox.items ≡ self.old.inbox.items }
        ensures sent { self.new.sent.items ≡ self.old.sent.items ++ take result burst.old.ops }
        ensures cap { self.new.cap ≡ self.old.cap }
        ensures limits { (self.new.takes ≡ self.old.takes) × (self.new.sends ≡ counted self.old.sends) }
        ensures balks { self.new.balks ≡ cuts_after (Some result) (length burst.old.ops) self.old.balks }
        ensures later { self.old.balks ≤ self.new.balks }
    {
        let n = self.sends.next(burst.len()).min(self.room());
        self.balks = self.balks.saturating_add(u64::from(n < burst.len()));
        hand_in(burst, &mut self.sent, n);
        n
    }
}

// Pushes where there is room, which takes no memory.
fn store<C>(queue: &mut VecDeque<Event<C>>, e: Event<C>)
    requires { deque_len queue.old < deque_capacity queue.old }
    ensures items { queue.new.items ≡ queue.old.items ++ e ∷ [] }
    ensures capacity { deque_capacity queue.new ≡ deque_capacity queue.old }
{
    match queue.push_back(e) {
        Ok(()) => {}
        Err(_) => unreachable!(),
    }
}

fn hand_out<C>(queue: &mut VecDeque<Event<C>>, out: &mut EventBurst<C>, n: usize)
    requires enough { n ≤ deque_len queue.old }
    requires room { n + length out.old.ops ≤ out.old.cap }
    ensures rest { queue.new.items ≡ drop n queue.old.items }
    ensures capacity { deque_capacity queue.new ≡ deque_capacity queue.old }
    ensures out { out.new ≡ record out.old { ops = out.old.ops ++ take n queue.old.items } }
{
    for _i in 0..n {
        match queue.pop_front() {
            Some(e) => out.push(e),
            None => unreachable!(),
        }
    }
}

fn hand_in<C>(burst: &mut EventBurst<C>, queue: &mut VecDeque<Event<C>>, n: usize)
    requires enough { n ≤ length burst.old.ops }
    requires room { deque_len queue.old + n ≤ deque_capacity queue.old }
    ensures rest { burst.new ≡ record burst.old { ops = drop n burst.old.ops } }
    ensures items { queue.new.items ≡ queue.old.items ++ take n burst.old.ops }
    ensures capacity { deque_capacity queue.new ≡ deque_capacity queue.old }
{
    for _i in 0..n {
        match burst.pop() {
            Some(e) => store(queue, e),
            None => unreachable!(),
        }
    }
}

impl<C> EventPort<C> for MemPort<C> {
    ghost inbox = { λ p. p.inbox.items };

    ghost sent = { λ p. p.sent.items };

    ghost balks = { λ p. p.balks };

    ghost spare = { λ p. told_room p.takes.limits p.sends.limits (p.cap - (length p.inbox.items + length p.sent.items)) };

    ghost fresh = { λ p. p.untouched };

    fn dequeue_burst(&mut self, out: &mut EventBurst<C>, max: usize) -> usize {
        self.give_burst(out, max)
    }

    fn enqueue_burst(&mut self, burst: &mut EventBurst<C>) -> usize {
        self.send_burst(burst)
    }
}
