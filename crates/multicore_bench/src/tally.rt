//! Which operations came back.
ghost use Rattle.std.specs.Prelude.{◌≡◌, ◌+◌, ◌==◌, IfOk, count_by, if◌then◌else◌, not, replicate, slice_index_or, slice_set, false, true, vec_len};
ghost use Rattle.crypto_model.specs.Counts.{capped};

use crypto_model::OutOfMemory;
use std::alloc::Global;

/// Which of the operations with the numbers from 0 on came back, and how often one came back as it shouldn't have.
#[derive(Drop)]
pub struct Tally {
    /// By number: whether it came back.
    pub seen: Vec<bool>,
    /// How often one came back that had come back, or that has no such number.
    pub doubled: u64,
    /// How often one came back without its answer, or not under its own number.
    pub wrong: u64,
    /// How often one came back that wasn't the next.
    pub out_of_order: u64,
    /// The number of the next one, where they come in order.
    pub next: u64,
}

// Marks a place, and answers whether it was marked, or isn't there.
fn mark(seen: &mut Vec<bool>, place: usize) -> bool
    ensures seen { seen.new.items ≡ slice_set seen.old.items place true }
    ensures was { result ≡ slice_index_or seen.old.items place true }
{
    if place >= seen.len() {
        return true;
    }
    let was = seen[place];
    seen[place] = true;
    was
}

// One more where it is so.
fn raised(count: u64, more: bool) -> u64
    ensures { result ≡ if more then capped (count + 1) else count }
{
    if more { count.saturating_add(1) } else { count }
}

impl Tally {
    pub fn new(alloc: Global, operations: usize) -> Result<Tally, OutOfMemory>
        ensures seen { IfOk result (λ t. t.seen.items ≡ replicate operations false) }
        ensures counts { IfOk result (λ t. (t.doubled ≡ 0) × (t.wrong ≡ 0) × (t.out_of_order ≡ 0) × (t.next ≡ 0)) }
    {
        Ok(Tally {
            seen: Vec::from_elem(alloc, false, operations)?,
            doubled: 0,
            wrong: 0,
            out_of_order: 0,
            next: 0,
        })
    }

    /// Notes that an operation came back, and whether rightly.
    pub fn note(&mut self, number: u64, right: bool)
        ensures seen { self.new.seen.items ≡ slice_set self.old.seen.items number true }
        ensures doubled { self.new.doubled ≡ if slice_index_or self.old.seen.items number true then capped (self.old.doubled + 1) else self.old.doubled }
        ensures wrong { self.new.wrong ≡ if right then self.old.wrong else capped (self.old.wrong + 1) }
        ensures order { self.new.out_of_order ≡ if number == self.old.next then self.old.out_of_order else capped (self.old.out_of_order + 1) }
        ensures next { self.new.next ≡ capped (self.old.next + 1) }
    {
        let was = mark(&mut self.seen, number as usize);
        self.doubled = raised(self.doubled, was);
        self.wrong = raised(self.wrong, !right);
        self.out_of_order = raised(self.out_of_order, number != self.next);
        self.next = self.next.saturating_add(1);
    }

    /// How many didn't come back.
    pub fn lost(&self) -> usize
        ensures { result ≡ count_by not self.now.seen.items }
    {
        let mut lost = 0;
        for seen in &self.seen {
            if !*seen {
                lost += 1;
            }
        }
        lost
    }
}
