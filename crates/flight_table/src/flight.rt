//! A flight table is opened.
ghost use Rattle.std.specs.Prelude.{◌≡◌, ◌+◌, ◌<◌, ◌≤◌, [], IfOk, OnOk};
ghost use Rattle.std.specs.Arc.{arc_value};
ghost use Rattle.flight_table.specs.Call.{desk, hands_of};
ghost use Rattle.flight_table.specs.View.{opened, new_hand};

use crate::book::Book;
use crate::hand::Hand;
use crate::owner::Owner;
use crate::rule::{Berth, Deck, FlightView, HELD, NextHand};
use atomic_table::{Seat, Table};
use crypto_model::OutOfMemory;
use crypto_op::MAX_OPS;
use std::alloc::Global;
use std::sync::Arc;

/// A table of operations in flight.
pub struct Flight;

impl Flight {
    /// A table whose slots the owner holds, with a hand for each worker, in order of their numbers.
    pub fn open(
        alloc: Global,
        slots: usize,
        workers: usize,
        book: &Book,
    ) -> Result<(Owner, Vec<Hand>), OutOfMemory>
        requires slots { (1 ≤ slots) × (slots ≤ MAX_OPS) }
        requires workers { (1 ≤ workers) × (workers ≤ 8) }
        ensures owner { IfOk result (λ r. r.0 ≡ desk r.0.table slots (opened book.now workers)) }
        ensures hands { IfOk result (λ r. r.1.items ≡ hands_of r.0.table slots book.now workers) }
    {
        let words = Vec::from_elem(alloc, HELD, slots)?;
        let (table, mut seat) = Table::vacant(alloc, words.as_slice(), slots, book)?;
        let deck: Arc<Deck, Global> = Arc::new(alloc, table)?;
        let mut hands = Vec::new(alloc);
        for worker in 0..workers {
            let hand = next_hand(&deck, &mut seat, slots, worker)?;
            hands.push(hand)?;
        }
        Ok((Owner { deck, seat, slots }, hands))
    }
}

// The next worker's hand.
fn next_hand(
    deck: &Arc<Deck, Global>,
    seat: &mut Seat<Berth, FlightView>,
    slots: usize,
    worker: usize,
) -> Result<Hand, OutOfMemory>
    requires seat { (seat.old.table_id ≡ (arc_value deck.now).shared.table_id) × (seat.old.table_id.words ≡ slots)
        × (seat.old.table_id.slots ≡ slots) × (0 < slots) }
    requires view { (seat.old.me ≡ (opened seat.old.me.0.about worker, [])) × (worker < 8) }
    ensures seat { (seat.new.table_id ≡ seat.old.table_id) × (seat.new.me.1 ≡ []) }
    ensures ok { OnOk result (seat.new.me ≡ (opened seat.old.me.0.about (worker + 1), [])) }
    ensures hand { IfOk result (λ h. h ≡ desk seat.old.table_id slots (new_hand seat.old.me.0.about worker)) }
{
    let theirs = Arc::try_clone(deck)?;
    let table: &Deck = deck;
    let place = table.shared.split_seat::<NextHand>(seat);
    Ok(Hand {
        deck: theirs,
        seat: place,
        slots,
        worker: worker as u8,
    })
}
