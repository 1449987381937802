//! A book of what was drawn, and a note for each.
ghost use Rattle.std.specs.Prelude.{◌≡◌, ◌+◌, ◌++◌, ◌<◌, ◌^◌, ◌∷◌, [], length, slice_get, Some, IfOk};
ghost use Rattle.flight_table.specs.Note.{drawn_of, newest, owner_of};

use atomic_table::{Badge, Join, Play, Seat, Split, Table, TableRule};
use crypto_model::OutOfMemory;
use crypto_op::{Op, OpSpec};
use mbuf_chain::Mbuf;
use std::alloc::Global;
use std::collections::LinkedList;
use std::marker::{Brand, Model};
use std::snapshot::Snapshot;
use sym_session::SessionTable;

// What was asked for. No value of it is made.
pub struct MadeRequest {
    pub spec: OpSpec,
    pub chain: Mbuf,
}

impl Model for MadeRequest {
    ghost use Rattle.crypto_op.specs.Op.{Request, request};

    ghost Value = { Request };

    ghost view = { λ r. request r.spec r.chain };
}

// What was drawn: a made request and a pos. No value of it is made.
pub struct Drawn {
    pub request: MadeRequest,
    pub pos: u64,
}

// What a seat knows: the owner all that was drawn, a note its number and its entry. No value of it is made.
pub struct BookView {
    pub owns: bool,
    pub drawn: LinkedList<Drawn>,
    pub number: u64,
    pub entry: Option<Drawn>,
}

// The word is how many were drawn.
pub struct Counts;

impl TableRule<(), BookView, ()> for Counts {
    ghost use Rattle.std.specs.Prelude.{[]};
    ghost use Rattle.flight_table.specs.Note.{Kept, owner_of};

    ghost holds = { λ _. Kept };

    ghost first = { λ _. owner_of [] };
}

// What a draw adds. Each call picks it.
trait Drawing {
    ghost use Rattle.std.specs.Prelude.{List};
    ghost use Rattle.flight_table.specs.declared.book.Drawn.{Drawn};

    ghost adds: { List Drawn };
}

impl Drawing for Brand {
    ghost use Rattle.std.specs.Prelude.{[]};

    ghost adds = { [] };
}

struct Draws<J> {
    marker: std::marker::PhantomData<J>,
}

impl<J: Drawing> Play<(), BookView> for Draws<J> {
    ghost use Rattle.flight_table.specs.Note.{draws};

    ghost then = { draws J.adds };
}

struct Compares;

impl Play<(), BookView> for Compares {
    ghost use Rattle.flight_table.specs.Note.{compares};

    ghost then = { compares };
}

struct Newest;

impl Split<BookView> for Newest {
    ghost use Rattle.flight_table.specs.Note.{newest};

    ghost left = { λ v. v };

    ghost right = { newest };
}

struct Met;

impl Join<BookView> for Met {
    ghost use Rattle.flight_table.specs.Note.{shown, nobody};

    ghost both = { shown };

    ghost spent = { nobody };
}

/// What was drawn, in order, for a list of sessions. A contract sees the table that it rests on, the
/// sessions, and all that was drawn.
#[derive(Drop)]
pub struct Book {
    table: Table<(), BookView, (), Counts, Global>,
    owner: Seat<(), BookView>,
    sessions: Snapshot<SessionTable>,
}

impl Model for Book {
    ghost use Rattle.std.specs.Prelude.{◌≡◌, []};
    ghost use Rattle.flight_table.specs.Note.{BookData, owner_of};

    ghost Value = { BookData };

    ghost view = { λ b. record { table = b.table.shared.table_id; sessions = b.sessions.value; drawn = b.owner.me.0.drawn } };

    ghost invariant = { λ b. (b.owner.table_id ≡ b.table.shared.table_id)
        × (b.table.shared.table_id.words ≡ 1) × (b.owner.me ≡ (owner_of b.owner.me.0.drawn, [])) };
}

/// A number of a book. A contract sees what was drawn under it. It can't be cloned, and lies in an operation as
/// its cargo while that is in flight.
#[derive(Drop)]
pub struct Note {
    number: u64,
    badge: Badge<BookView>,
}

impl Model for Note {
    ghost use Rattle.std.specs.Prelude.{◌≡◌, ◌<◌, ◌^◌, [], ◌∷◌, Some};
    ghost use Rattle.flight_table.specs.Note.{NoteData, note_of, first_entry};
    ghost use Rattle.flight_table.specs.declared.book.Drawn.{Drawn};

    ghost Value = { NoteData };

    ghost view = { λ n. record { book = n.badge.table_id; number = n.number; entry = first_entry n.badge.views } };

    ghost invariant = { λ n. (n.number < 2 ^ 58) × (e : Drawn) × (n.badge.views ≡ note_of n.number (Some e) ∷ []) };
}

impl Book {
    pub fn open(alloc: Global, sessions: &SessionTable) -> Result<Book, OutOfMemory>
        ensures { IfOk result (λ b. (b.sessions ≡ sessions.now) × (b.drawn ≡ [])) }
    {
        let (table, owner) = Table::of_words(alloc, &[0], &())?;
        Ok(Book {
            table,
            owner,
            sessions: Snapshot::of(sessions),
        })
    }

    fn add<J: Drawing, C>(&mut self, op: &Op<C>) -> u64
        requires few { length self.old.drawn < 2 ^ 58 }
        requires adds { J.adds ≡ drawn_of op.now ∷ [] }
        ensures number { result ≡ length self.old.drawn }
        ensures drawn { self.new ≡ record self.old { drawn = self.old.drawn ++ J.adds } }
    {
        let _ = op;
        let table = &self.table;
        table.shared.fetch_add::<Draws<J>>(&mut self.owner, 0, 1)
    }

    // A badge for what was drawn last.
    fn newest(&mut self) -> Badge<BookView>
        ensures same { self.new ≡ self.old }
        ensures badge { (result.table_id ≡ self.old.table) × (result.views ≡ newest (owner_of self.old.drawn) ∷ []) }
    {
        let table = &self.table;
        table
            .shared
            .split_seat::<Newest>(&mut self.owner)
            .into_badge()
    }

    /// Draws the next number, from 0 on, for what the operation was made with and its pos.
    pub fn draw<C>(&mut self, op: &Op<C>) -> Note
        requires { length self.old.drawn < 2 ^ 58 }
        ensures book { self.new ≡ record self.old { drawn = self.old.drawn ++ drawn_of op.now ∷ [] } }
        ensures note { result ≡ record { book = self.old.table; number = length self.old.drawn; entry = Some (drawn_of op.now) } }
    {
        let number = self.add::<Brand, C>(op);
        let badge = self.newest();
        Note { number, badge }
    }

    /// Takes in a note of this book, whose entry is what was drawn under its number.
    pub fn meet(&mut self, note: Note) -> u64
        requires { note.book ≡ self.old.table }
        ensures number { result ≡ note.number }
        ensures same { self.new ≡ self.old }
        ensures met { slice_get self.old.drawn note.number ≡ note.entry }
    {
        let Note { number, badge } = note;
        let seat = badge.into_seat::<()>();
        let table = &self.table;
        table.shared.join_seat::<Met>(&mut self.owner, seat);
        table.shared.load::<Compares>(&mut self.owner, 0);
        number
    }
}

impl Note {
    pub fn number(&self) -> u64
        ensures number { result ≡ self.now.number }
        ensures small { result < 2 ^ 58 }
    {
        self.number
    }
}
