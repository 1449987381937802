//! The shared table under an owner and its hands, what each of them knows, and what each kind of step tells.
use crate::book::{Book, Note};
use crate::word::Word;
use atomic_table::{Join, Play, Split, Table, TableRule};
use crypto_op::Op;
use std::alloc::Global;
use std::collections::LinkedList;

pub enum Role {
    /// The owner's seat.
    Owns,
    /// A worker's hand.
    Takes,
    /// A hand that was joined.
    Spent,
}

// What the owner gave to a worker. No value of it is made.
pub struct Sent {
    pub number: u64,
    pub worker: u64,
}

// What a seat knows. No value of it is made.
pub struct FlightView {
    /// The book of the table, as it was when the table was opened.
    pub about: Book,
    pub role: Role,
    /// A hand's worker.
    pub worker: u64,
    /// How many hands the owner made.
    pub made: u64,
    /// The slots and words that loads and failed exchanges found, in order.
    pub looks: LinkedList<(u64, Word)>,
    /// The slot that is out within a call, and for the owner the word that it is out under.
    pub out: Option<u64>,
    pub mark: Word,
    /// What the owner gave at a slot, the newest first; nothing where it holds the slot.
    pub given: LinkedList<(u64, Option<Sent>)>,
    /// The number that a hand took at a slot, the newest first.
    pub taken: LinkedList<(u64, Option<u64>)>,
    /// How many a hand finished.
    pub finished: u64,
    /// The workers of the operations that the owner collected.
    pub collected: LinkedList<u64>,
    /// The workers whose hands were joined, with what each finished.
    pub gathered: LinkedList<(u64, Option<u64>)>,
}

pub type Berth = Option<Op<Note>>;

// The rule of a flight table.
pub struct Flights;

impl TableRule<Berth, FlightView, Book> for Flights {
    ghost use Rattle.flight_table.specs.Rule.{InFlight};
    ghost use Rattle.flight_table.specs.View.{opened};

    ghost holds = { InFlight };

    ghost first = { λ about. opened about 0 };
}

pub type Deck = Table<Berth, FlightView, Book, Flights, Global>;

/// A hand's load.
pub struct Looks;

impl Play<Berth, FlightView> for Looks {
    ghost use Rattle.flight_table.specs.Call.{looks};

    ghost then = { looks };
}

/// A hand's exchange of READY by TAKEN.
pub struct TakesOne;

impl Play<Berth, FlightView> for TakesOne {
    ghost use Rattle.flight_table.specs.Call.{takes_one};

    ghost then = { takes_one };
}

/// An emptied slot goes home, under the word that it has.
pub struct Rests;

impl Play<Berth, FlightView> for Rests {
    ghost use Rattle.flight_table.specs.Call.{rests};

    ghost then = { rests };
}

/// An empty slot is fetched to be filled.
pub struct Grabs;

impl Play<Berth, FlightView> for Grabs {
    ghost use Rattle.flight_table.specs.Call.{grabs};

    ghost then = { grabs };
}

/// The owner's store of READY over HELD.
pub struct Publishes;

impl Play<Berth, FlightView> for Publishes {
    ghost use Rattle.flight_table.specs.Call.{publishes};

    ghost then = { publishes };
}

/// A hand's store of DONE over TAKEN.
pub struct Finishes;

impl Play<Berth, FlightView> for Finishes {
    ghost use Rattle.flight_table.specs.Call.{finishes};

    ghost then = { finishes };
}

/// A hand's store of BACK over TAKEN.
pub struct GivesBack;

impl Play<Berth, FlightView> for GivesBack {
    ghost use Rattle.flight_table.specs.Call.{gives_back};

    ghost then = { gives_back };
}

/// The owner's load.
pub struct Sees;

impl Play<Berth, FlightView> for Sees {
    ghost use Rattle.flight_table.specs.Call.{sees};

    ghost then = { sees };
}

/// The owner's load, which fetches the slot where it finds DONE.
pub struct FindsDone;

impl Play<Berth, FlightView> for FindsDone {
    ghost use Rattle.flight_table.specs.Call.{lifts};
    ghost use Rattle.flight_table.specs.Rule.{Finished};
    ghost use Rattle.flight_table.specs.declared.word.Phase.TheVariants.{Done};

    ghost then = { lifts Done Finished };
}

/// The owner's load, which fetches the slot where it finds BACK.
pub struct FindsBack;

impl Play<Berth, FlightView> for FindsBack {
    ghost use Rattle.flight_table.specs.Call.{lifts};
    ghost use Rattle.flight_table.specs.Rule.{Waiting};
    ghost use Rattle.flight_table.specs.declared.word.Phase.TheVariants.{Back};

    ghost then = { lifts Back Waiting };
}

/// The owner's store of HELD over DONE.
pub struct Gains;

impl Play<Berth, FlightView> for Gains {
    ghost use Rattle.flight_table.specs.Call.{gains};

    ghost then = { gains };
}

/// The owner's store of HELD over BACK.
pub struct Regains;

impl Play<Berth, FlightView> for Regains {
    ghost use Rattle.flight_table.specs.Call.{regains};

    ghost then = { regains };
}

/// The owner's exchange of READY by HELD, which fetches the slot where it succeeds or finds BACK.
pub struct Recalls;

impl Play<Berth, FlightView> for Recalls {
    ghost use Rattle.flight_table.specs.Call.{recalls};

    ghost then = { recalls };
}

/// The owner's load behind the join of a hand.
pub struct Settles;

impl Play<Berth, FlightView> for Settles {
    ghost use Rattle.flight_table.specs.Call.{settles};

    ghost then = { settles };
}

/// The owner takes a hand in.
pub struct TakesIn;

impl Join<FlightView> for TakesIn {
    ghost use Rattle.flight_table.specs.View.{joined, spent};

    ghost both = { joined };

    ghost spent = { spent };
}

/// The owner makes the next worker's hand.
pub struct NextHand;

impl Split<FlightView> for NextHand {
    ghost use Rattle.flight_table.specs.View.{made_one, new_hand};

    ghost left = { made_one };

    ghost right = { λ v. new_hand v.about v.made };
}

/// The packed word HELD.
pub const HELD: u64 = 1;
