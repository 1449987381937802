//! The owner of a flight table.
ghost use Rattle.std.specs.Prelude.{◌≡◌, ◌≢◌, ◌+◌, ◌<◌, ◌≤◌, ◌∷◌, [], Some, IfOk, IfErr, IsSome, All};
ghost use Rattle.flight_table.specs.Call.{Desk, with_view, Holds, HoldsAll, Shown, Collected, NotCollected, Recalled, NotRecalled};
ghost use Rattle.flight_table.specs.Rule.{Waiting, Flying};
ghost use Rattle.flight_table.specs.View.{times, sent, looked, published, regained, joined};
ghost use Rattle.flight_table.specs.declared.rule.Role.TheVariants.{Owns};
ghost use Rattle.flight_table.specs.declared.word.Phase.TheVariants.{Back};

use crate::book::Note;
use crate::hand::Hand;
use crate::rule::{
    Berth, Deck, FindsBack, FindsDone, FlightView, Gains, Grabs, HELD, Publishes, Recalls, Regains,
    Rests, Sees, Settles, TakesIn,
};
use crate::word::{Phase, Word};
use atomic_table::Seat;
use crypto_op::Op;
use std::alloc::Global;
use std::marker::Model;
use std::sync::Arc;

/// The thread that gives operations to workers and has them back. A contract sees its table, the number of
/// slots, and its view.
#[derive(Drop)]
pub struct Owner {
    pub(crate) deck: Arc<Deck, Global>,
    pub(crate) seat: Seat<Berth, FlightView>,
    pub(crate) slots: usize,
}

impl Model for Owner {
    ghost use Rattle.std.specs.Prelude.{◌≡◌, ◌<◌, ◌≤◌, None, []};
    ghost use Rattle.std.specs.Arc.{arc_value};
    ghost use Rattle.flight_table.specs.Call.{Desk};
    ghost use Rattle.flight_table.specs.declared.rule.Role.TheVariants.{Owns};

    ghost Value = { Desk };

    ghost view = { λ o. record { table = o.seat.table_id; slots = o.slots; view = o.seat.me.0 } };

    ghost invariant = { λ o. (o.seat.table_id ≡ (arc_value o.deck).shared.table_id) × (o.seat.table_id.words ≡ o.slots)
        × (o.seat.table_id.slots ≡ o.slots) × (o.seat.me.1 ≡ []) × (o.seat.me.0.role ≡ Owns) × (o.seat.me.0.out ≡ None)
        × (0 < o.slots) × (o.seat.me.0.made ≤ 8) };
}

impl Owner {
    /// Gives an operation to worker w, in slot k.
    pub fn publish(&mut self, k: usize, op: Op<Note>, w: usize)
        requires slot { (k < self.old.slots) × Holds self.old.view k }
        requires worker { w < self.old.view.made }
        requires op { Waiting self.old.view.about op.cargo.number op }
        ensures { self.new ≡ with_view self.old (published self.old.view k (sent op.cargo.number w)) }
    {
        let deck: &Deck = &self.deck;
        let word = Word {
            phase: Phase::Ready,
            number: op.cargo().number(),
            worker: w as u8,
        };
        deck.shared.load::<Grabs>(&mut self.seat, k);
        match deck.shared.exchange(&mut self.seat, k, Some(op)) {
            None => {}
            Some(_) => unreachable!(),
        }
        deck.shared
            .store::<Publishes>(&mut self.seat, k, word.pack());
    }

    /// The word of a slot.
    pub fn look(&mut self, k: usize) -> Word
        requires { k < self.old.slots }
        ensures looks { self.new ≡ with_view self.old (looked self.old.view k result) }
        ensures shown { Shown self.old.view k result }
    {
        let deck: &Deck = &self.deck;
        Word::unpack(deck.shared.load::<Sees>(&mut self.seat, k))
    }

    /// Has the operation of a slot back, if it is done, or else tells the word that was found.
    pub fn collect(&mut self, k: usize) -> Result<Op<Note>, Word>
        requires { k < self.old.slots }
        ensures ok { IfOk result (λ op. Collected self.old k op self.new) }
        ensures err { IfErr result (λ word. NotCollected self.old k word self.new) }
    {
        let deck: &Deck = &self.deck;
        let found = Word::unpack(deck.shared.load::<FindsDone>(&mut self.seat, k));
        if !found.is(Phase::Done) {
            return Err(found);
        }
        let op = deck.shared.exchange(&mut self.seat, k, None);
        deck.shared.store::<Gains>(&mut self.seat, k, HELD);
        Ok(some_op(op))
    }

    /// Has the operation of a slot back that no worker has, or that one gave back. Or else tells a word that was
    /// found. It tries once.
    pub fn recall(&mut self, k: usize) -> Result<Op<Note>, Word>
        requires { k < self.old.slots }
        ensures ok { IfOk result (λ op. Recalled self.old k op self.new) }
        ensures err { IfErr result (λ word. NotRecalled self.old k word self.new) }
    {
        let deck: &Deck = &self.deck;
        let loaded = deck.shared.load::<FindsBack>(&mut self.seat, k);
        let first = Word::unpack(loaded);
        if first.is(Phase::Back) {
            return Ok(regain(deck, &mut self.seat, k));
        }
        if !first.is(Phase::Ready) {
            return Err(first);
        }
        let found = deck
            .shared
            .compare_exchange::<Recalls>(&mut self.seat, k, loaded, HELD);
        if found == loaded {
            let op = deck.shared.exchange(&mut self.seat, k, None);
            deck.shared.store::<Rests>(&mut self.seat, k, HELD);
            return Ok(some_op(op));
        }
        let word = Word::unpack(found);
        if word.is(Phase::Back) {
            return Ok(regain(deck, &mut self.seat, k));
        }
        Err(word)
    }

    // Takes a hand in, which finished as many as were collected of it.
    fn join(&mut self, hand: Hand)
        requires hand { hand.table ≡ self.old.table }
        requires all { HoldsAll self.old.view self.old.slots }
        ensures owner { self.new ≡ with_view self.old (joined self.old.view hand.view) }
        ensures counts { hand.view.finished ≡ times hand.view.worker self.old.view.collected }
    {
        let deck: &Deck = &self.deck;
        let Hand { deck: _, seat, .. } = hand;
        deck.shared.join_seat::<TakesIn>(&mut self.seat, seat);
        deck.shared.load::<Settles>(&mut self.seat, 0);
    }

    /// Ends the table. Each hand finished as many operations as were collected of it.
    pub fn close(mut self, mut hands: Vec<Hand>)
        requires hands { All (λ h. h.table ≡ self.table) hands.items }
        requires all { HoldsAll self.view self.slots }
        ensures { All (λ h. h.view.finished ≡ times h.view.worker self.view.collected) hands.items }
    {
        while let Some(hand) = hands.pop() {
            self.join(hand);
        }
    }
}

fn some_op(op: Berth) -> Op<Note>
    requires { IsSome op }
    ensures { op ≡ Some result }
{
    match op {
        Some(op) => op,
        None => unreachable!(),
    }
}

// Empties a slot that the owner has out under BACK, and holds it.
fn regain(deck: &Deck, seat: &mut Seat<Berth, FlightView>, k: usize) -> Op<Note>
    requires seat { (seat.old.table_id ≡ deck.now.shared.table_id) × (k < deck.now.shared.table_id.words) × (k < deck.now.shared.table_id.slots) }
    requires view { (seat.old.me.0.role ≡ Owns) × (seat.old.me.0.out ≡ Some k) × (seat.old.me.0.mark.phase ≡ Back) }
    requires out { (x : Flying) × (seat.old.me.1 ≡ (k, Some x) ∷ []) }
    ensures seat { (seat.new.table_id ≡ seat.old.table_id) × (seat.new.id ≡ seat.old.id) × (seat.new.me ≡ (regained seat.old.me.0 k, [])) }
    ensures op { seat.old.me.1 ≡ (k, Some result) ∷ [] }
{
    let op = deck.shared.exchange(seat, k, None);
    deck.shared.store::<Regains>(seat, k, HELD);
    some_op(op)
}
