//! What a worker has taken and hasn't handed on.
ghost use Rattle.std.specs.Prelude.{◌≡◌, ℕ, ◌+◌, ◌<◌, ◌≤◌, List, [], ◌∷◌, ◌++◌, length, map};
ghost use Rattle.std.specs.List.{All};
ghost use Rattle.crypto_model.specs.Process.{Transform};
ghost use Rattle.crypto_op.specs.Op.{IsFresh, IsDone, entry_of};
ghost use Rattle.sched_multicore.specs.Carry.{Parcel, finished_sum};
ghost use Rattle.sched_multicore.specs.Sweep.{FoundAt, PassedAt};
ghost use Rattle.sched_multicore.specs.Laden.{IsLaden, Laden, SameCarrier, Unloads};

use crate::Gate;
use crypto_op::{Op, OpBurst};
use flight_table::{Hand, Note};

// Slots have codes: hand * slots + slot. An operation that was taken has its slot's code as its pos, and its own pos is
// kept under that code.
#[derive(Drop)]
pub(crate) struct Carrier {
    pub(crate) hands: Vec<Hand>,
    pub(crate) saved: Vec<u64>,
    pub(crate) burst: OpBurst<Note>,
    pub(crate) slots: usize,
    pub(crate) index: usize,
}

impl Carrier {
    // Takes the operation of a slot into the burst, if it is ready, and answers how many were taken.
    pub(crate) fn take_at(&mut self, code: usize) -> usize
        requires code { code < length self.old.saved.items }
        requires room { length self.old.burst.ops < self.old.burst.cap }
        requires laden { IsLaden self.old }
        ensures laden { (sessions : List (List Transform)) (held : List Parcel) → Laden sessions self.old (map entry_of self.old.burst.ops ++ held)
            → Laden sessions self.new (map entry_of self.new.burst.ops ++ held) }
        ensures fresh { All IsFresh self.old.burst.ops → All IsFresh self.new.burst.ops }
        ensures count { length self.new.burst.ops ≡ length self.old.burst.ops + result }
        ensures few { result ≤ 1 }
        ensures passed { result ≡ 0 → PassedAt self.old.slots code self.old.hands.items self.new.hands.items }
        ensures found { 0 < result → FoundAt self.old.slots code self.old.hands.items self.new.hands.items }
        ensures same { SameCarrier self.old self.new }
        ensures sum { finished_sum self.new.hands.items ≡ finished_sum self.old.hands.items }
    {
        let hand = &mut self.hands[code / self.slots];
        let Ok(mut op) = hand.take(code % self.slots) else {
            return 0;
        };
        self.saved[code] = op.spec().pos;
        op.set_pos(code as u64);
        self.burst.push(op);
        1
    }

    // Gives an operation back to its slot, as it was taken.
    fn give_back(&mut self, mut op: Op<Note>)
        requires fresh { (sessions : List (List Transform)) × (rest : List Parcel) × Laden sessions self.old (entry_of op ∷ rest) × IsFresh op }
        ensures laden { (sessions : List (List Transform)) (rest : List Parcel) → Laden sessions self.old (entry_of op ∷ rest) → Laden sessions self.new rest }
        ensures burst { self.new.burst ≡ self.old.burst }
        ensures same { SameCarrier self.old self.new }
        ensures sum { finished_sum self.new.hands.items ≡ finished_sum self.old.hands.items }
    {
        let code = op.spec().pos as usize;
        op.set_pos(self.saved[code]);
        let hand = &mut self.hands[code / self.slots];
        hand.give_back(code % self.slots, op);
    }

    // Finishes an operation in its slot, with its own pos.
    fn finish<G: Gate>(&mut self, gate: &G, mut op: Op<Note>)
        requires done { (sessions : List (List Transform)) × (rest : List Parcel) × Laden sessions self.old (entry_of op ∷ rest) × IsDone sessions op }
        ensures laden { (sessions : List (List Transform)) (rest : List Parcel) → Laden sessions self.old (entry_of op ∷ rest) → Laden sessions self.new rest }
        ensures burst { self.new.burst ≡ self.old.burst }
        ensures same { SameCarrier self.old self.new }
        ensures sum { finished_sum self.new.hands.items ≡ finished_sum self.old.hands.items + 1 }
    {
        let code = op.spec().pos as usize;
        op.set_pos(self.saved[code]);
        gate.pass(self.index, op.cargo().number());
        let hand = &mut self.hands[code / self.slots];
        hand.finish(code % self.slots, op);
    }

    // Gives back what is in the burst.
    pub(crate) fn give_back_all(&mut self)
        requires fresh { IsLaden self.old × All IsFresh self.old.burst.ops }
        ensures unloads { Unloads self.old self.new }
        ensures sum { finished_sum self.new.hands.items ≡ finished_sum self.old.hands.items }
    {
        while let Some(op) = self.burst.pop() {
            self.give_back(op);
        }
    }

    // Finishes what is in the burst.
    pub(crate) fn finish_all<G: Gate>(&mut self, gate: &G)
        requires done { (sessions : List (List Transform)) × (held : List Parcel) × Laden sessions self.old (map entry_of self.old.burst.ops ++ held)
            × All (IsDone sessions) self.old.burst.ops }
        ensures unloads { Unloads self.old self.new }
        ensures sum { finished_sum self.new.hands.items ≡ finished_sum self.old.hands.items + length self.old.burst.ops }
    {
        while let Some(op) = self.burst.pop() {
            self.finish(gate, op);
        }
    }
}
