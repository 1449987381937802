//! What may cross threads. A contract can't say so: that these are proved shows it.
ghost use Rattle.std.specs.Prelude.{◌≡◌};

use crate::book::{Book, Note};
use crate::hand::Hand;
use crate::owner::Owner;
use crate::rule::Deck;
use crypto_op::Op;

fn moved<X: Send>(x: X) -> X
    ensures { result ≡ x }
{
    x
}

fn shared<X: Sync>(x: &X) {
    let _ = x;
}

pub fn note(note: Note) -> Note
    ensures { result ≡ note }
{
    moved(note)
}

pub fn operation(op: Op<Note>) -> Op<Note>
    ensures { result ≡ op }
{
    moved(op)
}

pub fn book(book: Book) -> Book
    ensures { result ≡ book }
{
    moved(book)
}

pub fn deck(deck: &Deck) {
    shared(deck);
}

pub fn owner(owner: Owner) -> Owner
    ensures { result ≡ owner }
{
    moved(owner)
}

pub fn hand(hand: Hand) -> Hand
    ensures { result ≡ hand }
{
    moved(hand)
}
