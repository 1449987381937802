//! A worker's hand in a flight table.
ghost use Rattle.std.specs.Prelude.{◌≡◌, ◌<◌, Some, IfOk, IfErr};
ghost use Rattle.flight_table.specs.Call.{Desk, with_view, Took, Missed};
ghost use Rattle.flight_table.specs.Rule.{Waiting, Finished};
ghost use Rattle.flight_table.specs.View.{look, looked, ended, unlisted};

use crate::book::Note;
use crate::rule::{Berth, Deck, Finishes, FlightView, GivesBack, Grabs, Looks, Rests, TakesOne};
use crate::word::{Phase, Word};
use atomic_table::Seat;
use crypto_op::Op;
use std::alloc::Global;
use std::marker::Model;
use std::sync::Arc;

/// One worker in one flight table. A contract sees its table, the number of slots, and its view.
#[derive(Drop)]
pub struct Hand {
    pub(crate) deck: Arc<Deck, Global>,
    pub(crate) seat: Seat<Berth, FlightView>,
    pub(crate) slots: usize,
    pub(crate) worker: u8,
}

impl Model for Hand {
    ghost use Rattle.std.specs.Prelude.{◌≡◌, ◌<◌, None, []};
    ghost use Rattle.std.specs.Arc.{arc_value};
    ghost use Rattle.flight_table.specs.Call.{Desk};
    ghost use Rattle.flight_table.specs.declared.rule.Role.TheVariants.{Takes};

    ghost Value = { Desk };

    ghost view = { λ h. record { table = h.seat.table_id; slots = h.slots; view = h.seat.me.0 } };

    ghost invariant = { λ h. (h.seat.table_id ≡ (arc_value h.deck).shared.table_id) × (h.seat.table_id.words ≡ h.slots)
        × (h.seat.table_id.slots ≡ h.slots) × (h.seat.me.1 ≡ []) × (h.seat.me.0.role ≡ Takes) × (h.seat.me.0.out ≡ None)
        × (h.seat.me.0.worker ≡ h.worker) × (h.worker < 8) };
}

impl Hand {
    /// The word of a slot.
    pub fn look(&mut self, k: usize) -> Word
        requires { k < self.old.slots }
        ensures { self.new ≡ with_view self.old (looked self.old.view k result) }
    {
        let deck: &Deck = &self.deck;
        Word::unpack(deck.shared.load::<Looks>(&mut self.seat, k))
    }

    /// Takes the operation of a slot, if it is ready for this worker, or else tells a word that was found. It
    /// tries once.
    pub fn take(&mut self, k: usize) -> Result<Op<Note>, Word>
        requires { k < self.old.slots }
        ensures ok { IfOk result (λ op. Took self.old k op self.new) }
        ensures err { IfErr result (λ word. Missed self.old.view k word self.new.view) }
        ensures same { self.new ≡ with_view self.old self.new.view }
    {
        let deck: &Deck = &self.deck;
        let loaded = deck.shared.load::<Looks>(&mut self.seat, k);
        let first = Word::unpack(loaded);
        if !first.is(Phase::Ready) || first.worker != self.worker {
            return Err(first);
        }
        let taken = Word {
            phase: Phase::Taken,
            number: first.number,
            worker: first.worker,
        };
        let found = deck
            .shared
            .compare_exchange::<TakesOne>(&mut self.seat, k, loaded, taken.pack());
        if found != loaded {
            return Err(Word::unpack(found));
        }
        let op = deck.shared.exchange(&mut self.seat, k, None);
        deck.shared.store::<Rests>(&mut self.seat, k, taken.pack());
        match op {
            Some(op) => Ok(op),
            None => unreachable!(),
        }
    }

    /// Gives the slot back with the operation that was taken there, processed.
    pub fn finish(&mut self, k: usize, op: Op<Note>)
        requires slot { (k < self.old.slots) × (look self.old.view.taken k ≡ Some op.cargo.number) }
        requires op { Finished self.old.view.about op.cargo.number op }
        ensures { self.new ≡ with_view self.old (ended self.old.view k) }
    {
        let word = Word {
            phase: Phase::Done,
            number: op.cargo().number(),
            worker: self.worker,
        };
        let deck: &Deck = &self.deck;
        deck.shared.load::<Grabs>(&mut self.seat, k);
        match deck.shared.exchange(&mut self.seat, k, Some(op)) {
            None => {}
            Some(_) => unreachable!(),
        }
        deck.shared
            .store::<Finishes>(&mut self.seat, k, word.pack());
    }

    /// Gives the slot back with the operation that was taken there, as it was.
    pub fn give_back(&mut self, k: usize, op: Op<Note>)
        requires slot { (k < self.old.slots) × (look self.old.view.taken k ≡ Some op.cargo.number) }
        requires op { Waiting self.old.view.about op.cargo.number op }
        ensures { self.new ≡ with_view self.old (unlisted self.old.view k) }
    {
        let word = Word {
            phase: Phase::Back,
            number: op.cargo().number(),
            worker: self.worker,
        };
        let deck: &Deck = &self.deck;
        deck.shared.load::<Grabs>(&mut self.seat, k);
        match deck.shared.exchange(&mut self.seat, k, Some(op)) {
            None => {}
            Some(_) => unreachable!(),
        }
        deck.shared
            .store::<GivesBack>(&mut self.seat, k, word.pack());
    }
}
