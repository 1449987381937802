ghost use Rattle.std.specs.Prelude.{◌≡◌, ◌+◌, ◌<◌, ◌^◌, [], length, IfOk};
ghost use Rattle.std.specs.Thread.{IsSync};
ghost use Rattle.crypto_op.specs.Op.{IsFresh, IsDone, entry_of};
ghost use Rattle.flight_table.specs.Call.{IsSameDesk};
ghost use Rattle.flight_table.specs.Rule.{Waiting};

use crate::{Book, Flight, Hand, Note, Owner, Phase, Word};
use crypto_model::{DigestPlace, Range, SessId, Status};
use crypto_op::{Aad, Iv, Op, OpSpec};
use mbuf_chain::Mbuf;
use seg_list::Seg;
use std::alloc::Global;
use std::sync::Wait;
use std::test::Fail;
use std::thread;
use std::thread::Threads;
use sym_session::SessionTable;

fn operation(alloc: Global) -> Result<Op<()>, Fail>
    ensures { IfOk result IsFresh }
{
    let seg = Seg::new(alloc, 0)?;
    let spec = OpSpec {
        session: SessId(0),
        iv: Iv::copy(b""),
        aad: Aad::empty(alloc),
        cipher: Range { off: 0, len: 0 },
        auth: Range { off: 0, len: 0 },
        place: DigestPlace::Nowhere,
        digest: [0; 64],
        pos: 0,
    };
    let chain = Mbuf::new(alloc, seg).ok().ok_or("no memory")?;
    Ok(Op::new(spec, chain, ()))
}

// With a note for it.
fn noted(book: &mut Book, op: Op<()>) -> Op<Note>
    requires fresh { IsFresh op }
    requires few { length book.old.drawn < 2 ^ 58 }
    ensures table { book.new.table ≡ book.old.table }
    ensures drawn { length book.new.drawn ≡ length book.old.drawn + 1 }
    ensures waiting { Waiting book.old (length book.old.drawn) result }
{
    let note = book.draw(&op);
    op.with_cargo(note).0
}

// Where there are no sessions, the answer is that there is no such session.
fn answer(op: &mut Op<Note>)
    requires { IsFresh op.old }
    ensures done { IsDone [] op.new }
    ensures entry { entry_of op.new ≡ entry_of op.old }
{
    op.set_status(Status::InvalidSession);
}

// The number of an operation that came back.
fn met(book: &mut Book, op: Op<Note>) -> u64
    requires { op.cargo.book ≡ book.old.table }
    ensures number { result ≡ op.cargo.number }
    ensures same { book.new ≡ book.old }
{
    let (_, note) = op.with_cargo(());
    book.meet(note)
}

fn recalled(owner: &mut Owner, book: &mut Book, k: usize) -> Result<u64, Word>
    requires slot { k < owner.old.slots }
    requires book { owner.old.view.about.table ≡ book.old.table }
    ensures owner { IsSameDesk owner.old owner.new }
    ensures book { book.new ≡ book.old }
{
    let op = owner.recall(k)?;
    Ok(met(book, op))
}

fn collected(owner: &mut Owner, book: &mut Book, k: usize) -> Result<u64, Word>
    requires slot { k < owner.old.slots }
    requires book { owner.old.view.about.table ≡ book.old.table }
    ensures owner { IsSameDesk owner.old owner.new }
    ensures book { book.new ≡ book.old }
{
    let op = owner.collect(k)?;
    Ok(met(book, op))
}

// Takes an operation and finishes it.
fn finished(hand: &mut Hand, k: usize) -> Result<(), Word>
    requires slot { k < hand.old.slots }
    requires sessions { hand.old.view.about.sessions ≡ [] }
    ensures { IsSameDesk hand.old hand.new }
{
    let mut op = hand.take(k)?;
    answer(&mut op);
    hand.finish(k, op);
    Ok(())
}

// Takes an operation and gives it back.
fn returned(hand: &mut Hand, k: usize) -> Result<(), Word>
    requires { k < hand.old.slots }
    ensures { IsSameDesk hand.old hand.new }
{
    let op = hand.take(k)?;
    hand.give_back(k, op);
    Ok(())
}

// What the owner finds while a worker has an operation, which is then given back.
fn seen_while_taken(
    hand: &mut Hand,
    owner: &mut Owner,
    k: usize,
) -> Result<(Option<Word>, Option<Word>), Word>
    requires hand { k < hand.old.slots }
    requires owner { k < owner.old.slots }
    ensures hand { IsSameDesk hand.old hand.new }
    ensures owner { IsSameDesk owner.old owner.new }
{
    let op = hand.take(k)?;
    let recalled = owner.recall(k).err();
    let collected = owner.collect(k).err();
    hand.give_back(k, op);
    Ok((recalled, collected))
}

fn to_worker_1(phase: Phase) -> Word {
    Word {
        phase,
        number: 0,
        worker: 1,
    }
}

#[test]
fn what_a_worker_gives_back_is_recalled(rt: HostRuntime) -> Result<(), Fail> {
    let alloc = rt.alloc();
    let mut book = Book::open(alloc, &SessionTable::new(alloc)?)?;
    let (mut owner, mut hands) = Flight::open(alloc, 2, 2, &book)?;
    let mut second = hands.pop().ok_or("a hand")?;
    let mut first = hands.pop().ok_or("a hand")?;
    let ready = to_worker_1(Phase::Ready);
    let taken = Some(to_worker_1(Phase::Taken));
    let back = to_worker_1(Phase::Back);
    assert!(rt; owner.look(0).phase == Phase::Held);
    owner.publish(0, noted(&mut book, operation(alloc)?), 1);
    assert!(rt; owner.look(0) == ready);
    assert!(rt; finished(&mut first, 0) == Err(ready));
    assert!(rt; seen_while_taken(&mut second, &mut owner, 0) == Ok((taken, taken)));
    assert!(rt; second.look(0) == back && collected(&mut owner, &mut book, 0) == Err(back));
    assert!(rt; recalled(&mut owner, &mut book, 0) == Ok(0));
    Ok(())
}

#[test]
fn what_a_worker_finishes_is_collected(rt: HostRuntime) -> Result<(), Fail> {
    let alloc = rt.alloc();
    let mut book = Book::open(alloc, &SessionTable::new(alloc)?)?;
    let (mut owner, mut hands) = Flight::open(alloc, 2, 2, &book)?;
    let mut second = hands.pop().ok_or("a hand")?;
    let done = to_worker_1(Phase::Done);
    owner.publish(1, noted(&mut book, operation(alloc)?), 1);
    assert!(rt; finished(&mut second, 1) == Ok(()));
    assert!(rt; second.look(1) == done && recalled(&mut owner, &mut book, 1) == Err(done));
    assert!(rt; collected(&mut owner, &mut book, 1) == Ok(0));
    Ok(())
}

// The number that comes back at a slot, in whatever way, once it does.
fn comes_back<R: Wait>(rt: &R, owner: &mut Owner, book: &mut Book, k: usize) -> Option<u64>
    requires slot { k < owner.old.slots }
    requires book { owner.old.view.about.table ≡ book.old.table }
    ensures owner { IsSameDesk owner.old owner.new }
    ensures book { book.new ≡ book.old }
{
    let mut number = None;
    for _ in rt.forever() {
        number = tried(owner, book, k);
        if number.is_some() {
            break;
        }
        thread::yield_now();
    }
    number
}

fn tried(owner: &mut Owner, book: &mut Book, k: usize) -> Option<u64>
    requires slot { k < owner.old.slots }
    requires book { owner.old.view.about.table ≡ book.old.table }
    ensures owner { IsSameDesk owner.old owner.new }
    ensures book { book.new ≡ book.old }
{
    match collected(owner, book, k) {
        Ok(number) => Some(number),
        Err(word) => {
            if word.phase == Phase::Back {
                recalled(owner, book, k).ok()
            } else {
                None
            }
        }
    }
}

// Takes what is for this worker, finishes the first two and gives the others back.
fn serve(mut hand: Hand)
    requires slots { hand.slots ≡ 4 }
    requires sessions { hand.view.about.sessions ≡ [] }
{
    let _ = finished(&mut hand, 0);
    let _ = finished(&mut hand, 1);
    let _ = returned(&mut hand, 2);
    let _ = returned(&mut hand, 3);
}

fn all_come_back<R: Wait>(rt: &R, mut owner: Owner, mut book: Book) -> [Option<u64>; 4]
    requires slots { owner.slots ≡ 4 }
    requires book { owner.view.about.table ≡ book.table }
{
    [
        comes_back(rt, &mut owner, &mut book, 0),
        comes_back(rt, &mut owner, &mut book, 1),
        comes_back(rt, &mut owner, &mut book, 2),
        comes_back(rt, &mut owner, &mut book, 3),
    ]
}

fn run<R: Threads + Wait + Sync>(
    rt: &R,
    owner: Owner,
    book: Book,
    first: Hand,
    second: Hand,
) -> [Option<u64>; 4]
    requires owner { (owner.slots ≡ 4) × (owner.view.about.table ≡ book.table) }
    requires first { (first.slots ≡ 4) × (first.view.about.sessions ≡ []) }
    requires second { (second.slots ≡ 4) × (second.view.about.sessions ≡ []) }
{
    let (numbers, _) = thread::join(
        rt,
        move || -> [Option<u64>; 4]
            requires { (owner.slots ≡ 4) × (owner.view.about.table ≡ book.table) }
        { all_come_back(rt, owner, book) },
        move || -> ((), ())
            requires { IsSync R.row × (first.slots ≡ 4) × (first.view.about.sessions ≡ []) × (second.slots ≡ 4) × (second.view.about.sessions ≡ []) }
        {
            thread::join(
                rt,
                move ||
                    requires { (first.slots ≡ 4) × (first.view.about.sessions ≡ []) }
                { serve(first) },
                move ||
                    requires { (second.slots ≡ 4) × (second.view.about.sessions ≡ []) }
                { serve(second) },
            )
        },
    );
    numbers
}

#[test]
fn each_number_comes_back_whatever_the_schedule(rt: HostRuntime) -> Result<(), Fail> {
    let alloc = rt.alloc();
    let mut book = Book::open(alloc, &SessionTable::new(alloc)?)?;
    let (mut owner, mut hands) = Flight::open(alloc, 4, 2, &book)?;
    owner.publish(0, noted(&mut book, operation(alloc)?), 0);
    owner.publish(1, noted(&mut book, operation(alloc)?), 1);
    owner.publish(2, noted(&mut book, operation(alloc)?), 0);
    owner.publish(3, noted(&mut book, operation(alloc)?), 1);
    let second = hands.pop().ok_or("a hand")?;
    let first = hands.pop().ok_or("a hand")?;
    let numbers = run(&rt, owner, book, first, second);
    assert!(rt; numbers == [Some(0), Some(1), Some(2), Some(3)]);
    Ok(())
}

#[test]
fn a_table_ends_with_its_hands(rt: HostRuntime) -> Result<(), Fail> {
    let alloc = rt.alloc();
    let book = Book::open(alloc, &SessionTable::new(alloc)?)?;
    let (owner, hands) = Flight::open(alloc, 2, 2, &book)?;
    owner.close(hands);
    Ok(())
}
