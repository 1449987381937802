//! What a queue pair keeps of each number.
ghost use Rattle.std.specs.Prelude.{◌≡◌, ◌≢◌, ◌<◌, length, slice_get, slice_set, Some, true, false};
ghost use Rattle.std.specs.VecDeque.{deque_len, deque_capacity};
ghost use Rattle.sched_multicore.specs.declared.place.Trip.{Trip};
ghost use Rattle.sched_multicore.specs.declared.place.Place.{Place};
ghost use Rattle.sched_multicore.specs.declared.place.Place.TheVariants.{Away, Answered, Gone};
ghost use Rattle.sched_multicore.specs.Place.{BeginsPending, entries_at};
ghost use Rattle.sched_multicore.specs.Step.{answered_place};

use crypto_op::Op;
use flight_table::Note;
use std::collections::VecDeque;
use std::mem::replace;
use std::snapshot::Snapshot;

/// An operation that a worker may have.
#[derive(Drop)]
pub struct Trip<C> {
    pub cargo: C,
    /// As it was published.
    pub sent: Snapshot<Op<Note>>,
    pub worker: usize,
}

/// What lies under a number.
#[derive(Drop)]
pub enum Place<C> {
    /// It is pending, and was given to a worker.
    Away(Trip<C>),
    /// It is pending, and was answered by the queue pair itself.
    Answered(Op<C>),
    /// It was returned before one that was accepted earlier.
    Gone,
}

/// Whether a worker may have the operation of a place.
pub fn is_away<C>(places: &VecDeque<Place<C>>, i: usize) -> bool
    requires { i < length places.now.items }
    ensures yes { result ≡ true → (t : Trip C) × (slice_get places.now.items i ≡ Some (Away t)) }
    ensures none { result ≡ false → (t : Trip C) → slice_get places.now.items i ≢ Some (Away t) }
{
    match &places[i] {
        Place::Away(_) => true,
        _ => false,
    }
}

/// Takes a trip out.
pub fn take_trip<C>(places: &mut VecDeque<Place<C>>, i: usize) -> Trip<C>
    requires { (i < length places.old.items) × ((t : Trip C) × (slice_get places.old.items i ≡ Some (Away t))) }
    ensures was { slice_get places.old.items i ≡ Some (Away result) }
    ensures items { places.new.items ≡ slice_set places.old.items i Gone }
    ensures sizes { (deque_len places.new ≡ deque_len places.old) × (deque_capacity places.new ≡ deque_capacity places.old) }
{
    match replace(&mut places[i], Place::Gone) {
        Place::Away(trip) => trip,
        _ => unreachable!(),
    }
}

/// Puts an answered operation where none is.
pub fn put_answered<C>(places: &mut VecDeque<Place<C>>, i: usize, op: Op<C>)
    requires { (i < length places.old.items) × (slice_get places.old.items i ≡ Some Gone) }
    ensures items { places.new.items ≡ slice_set places.old.items i (Answered op) }
    ensures sizes { (deque_len places.new ≡ deque_len places.old) × (deque_capacity places.new ≡ deque_capacity places.old) }
{
    match replace(&mut places[i], Place::Answered(op)) {
        Place::Gone => {}
        _ => unreachable!(),
    }
}

/// Takes what lies in a place that no worker has.
pub fn take_answered<C>(places: &mut VecDeque<Place<C>>, i: usize) -> Option<Op<C>>
    requires { (i < length places.old.items) × ((t : Trip C) → slice_get places.old.items i ≢ Some (Away t)) }
    ensures was { slice_get places.old.items i ≡ Some (answered_place result) }
    ensures items { places.new.items ≡ slice_set places.old.items i Gone }
    ensures sizes { (deque_len places.new ≡ deque_len places.old) × (deque_capacity places.new ≡ deque_capacity places.old) }
{
    match replace(&mut places[i], Place::Gone) {
        Place::Answered(op) => Some(op),
        Place::Gone => None,
        Place::Away(_) => unreachable!(),
    }
}

/// Whether the first number was returned.
pub fn is_front_gone<C>(places: &VecDeque<Place<C>>) -> bool
    ensures yes { result ≡ true → slice_get places.now.items 0 ≡ Some Gone }
    ensures begins { result ≡ false → BeginsPending places.now.items }
{
    match places.front() {
        None => false,
        Some(Place::Away(_)) => false,
        Some(Place::Answered(_)) => false,
        Some(Place::Gone) => true,
    }
}

/// Lets a place go that has nothing.
pub fn let_go<C>(place: Place<C>)
    requires { place ≡ Gone }
{
    match place {
        Place::Gone => {}
        _ => unreachable!(),
    }
}

/// How many pending operations a place has.
pub fn count_at<C>(places: &VecDeque<Place<C>>, i: usize) -> usize
    requires { i < length places.now.items }
    ensures { (x : Place C) → slice_get places.now.items i ≡ Some x → result ≡ length (entries_at x) }
{
    match &places[i] {
        Place::Away(_) => 1,
        Place::Answered(_) => 1,
        Place::Gone => 0,
    }
}
