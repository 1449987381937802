//! Operations that the queue pair answers itself.
ghost use Rattle.std.specs.Prelude.{◌≡◌, ◌<◌, ◌≤◌, ◌⊎◌, length, slice_get, Some, IfOk, IfErr};
ghost use Rattle.sched_multicore.specs.declared.place.Trip.{Trip};
ghost use Rattle.sched_multicore.specs.declared.place.Place.TheVariants.{Away};
ghost use Rattle.sched_multicore.specs.Place.{IsAway};
ghost use Rattle.sched_multicore.specs.Step.{EachSaw, EachTurned, Helped, Helps, IsAwaited, IsBack, IsBusy, IsIdle, IsNotBack, LookedAt};

use crate::place::{Trip, is_away, put_answered, take_trip};
use crate::queue::McQp;
use flight_table::{Phase, Word};
use sym_engine::process;

impl<C> McQp<C> {
    // Has the operation of a place back that no worker has, or that one gave back, and answers it. Or else the word
    // of its slot.
    fn help_at(&mut self, i: usize) -> Result<bool, Word>
        requires { i < length self.old.places }
        ensures ok { IfOk result (λ b. Helped IsIdle self.old i b self.new) }
        ensures err { IfErr result (λ n. LookedAt self.old i n self.new × IsBusy n.phase) }
    {
        if !is_away(&self.places, i) {
            return Ok(false);
        }
        let k = ((self.first + i as u64) % self.slots as u64) as usize;
        match self.owner.recall(k) {
            Err(n) => Err(n),
            Ok(op) => {
                let Trip {
                    cargo,
                    sent: _,
                    worker,
                } = take_trip(&mut self.places, i);
                self.loads[worker] -= 1;
                let (mut op, note) = op.with_cargo(cargo);
                self.book.meet(note);
                process(&self.sessions, &mut op);
                put_answered(&mut self.places, i, op);
                self.helped += 1;
                Ok(true)
            }
        }
    }

    // The word of a place's slot.
    fn word_at(&mut self, i: usize) -> Word
        requires { (t : Trip C) × (slice_get self.old.places i ≡ Some (Away t)) }
        ensures looked { LookedAt self.old i result self.new }
        ensures out { IsBack result.phase ⊎ IsNotBack result.phase }
    {
        let k = ((self.first + i as u64) % self.slots as u64) as usize;
        self.owner.look(k)
    }

    // Has the operation of a place back that a worker gave back, and answers it. Or else the word of its slot.
    fn help_back_at(&mut self, i: usize) -> Result<bool, Word>
        requires { i < length self.old.places }
        ensures ok { IfOk result (λ b. Helped IsBack self.old i b self.new) }
        ensures err { IfErr result (λ n. LookedAt self.old i n self.new × IsNotBack n.phase) }
    {
        if !is_away(&self.places, i) {
            return Ok(false);
        }
        let word = self.word_at(i);
        if word.phase != Phase::Back {
            return Err(word);
        }
        self.help_at(i)
    }

    /// Answers pending operations that no worker has, or that one gave back, at most `max`, with one try each.
    pub fn help(&mut self, max: usize) -> usize
        ensures helps { Helps self.old result self.new }
        ensures number { result ≤ max }
        ensures turned { EachTurned IsIdle self.old self.new (length self.old.places) }
        ensures cause { result < max → EachSaw IsAway IsBusy self.old self.new (length self.new.places) }
    {
        let mut n = 0;
        for i in 0..self.places.len() {
            if n == max {
                return n;
            }
            match self.help_at(i) {
                Ok(true) => n += 1,
                Ok(false) => {}
                Err(_) => {}
            }
        }
        n
    }

    /// Answers pending operations that a worker gave back, at most `max`, with one try each.
    pub fn help_back(&mut self, max: usize) -> usize
        ensures helps { Helps self.old result self.new }
        ensures number { result ≤ max }
        ensures turned { EachTurned IsBack self.old self.new (length self.old.places) }
        ensures cause { result < max → EachSaw IsAway IsNotBack self.old self.new (length self.new.places) }
    {
        let mut n = 0;
        for i in 0..self.places.len() {
            if n == max {
                return n;
            }
            match self.help_back_at(i) {
                Ok(true) => n += 1,
                Ok(false) => {}
                Err(_) => {}
            }
        }
        n
    }

    /// How many operations were answered here so far.
    pub fn helped(&self) -> u64
        ensures { result ≡ self.now.helped }
    {
        self.helped
    }
}
