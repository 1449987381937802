//! How many operations a call may move.
ghost use Rattle.std.specs.Prelude.{◌≡◌, IfOk};

use crypto_model::OutOfMemory;
use std::alloc::Global;
use std::marker::Model;

/// A limit for each of the first calls.
#[derive(Debug, Drop)]
pub struct LimitList {
    limits: Vec<u32>,
}

impl Model for LimitList {
    ghost use Rattle.std.specs.Prelude.{List, ℕ};

    ghost Value = { List ℕ };

    ghost view = { λ a. a.limits.items };
}

impl LimitList {
    /// Copies these limits, the first call's first.
    pub fn copy(alloc: Global, limits: &[u32]) -> Result<LimitList, OutOfMemory>
        ensures { IfOk result (λ l. l ≡ limits.now) }
    {
        Ok(LimitList {
            limits: Vec::from_slice(alloc, limits)?,
        })
    }
}

/// The limits of the calls of one kind. Limit i of a list applies to call i, counted from 0, and behind
/// its end no limit applies.
#[derive(Debug, Drop)]
pub enum Limits {
    Never,
    Always(u32),
    Listed(LimitList),
}

impl Limits {
    ghost use Rattle.dev_core.specs.Limits.{limit_at};

    fn at(&self, i: u64) -> Option<u32>
        ensures { result ≡ limit_at self.now i }
    {
        match self {
            Limits::Never => None,
            Limits::Always(limit) => Some(*limit),
            Limits::Listed(list) => list.limits.as_slice().get(i as usize).copied(),
        }
    }
}

/// The limits of the calls of one kind, and how many such calls were made. That number stands still at
/// its last value, where no list has a limit.
#[derive(Drop)]
pub struct LimitedCalls {
    pub(crate) limits: Limits,
    pub(crate) calls: u64,
}

impl LimitedCalls {
    ghost use Rattle.dev_core.specs.Limits.{next_limit, counted, least};

    /// With no call counted yet.
    pub fn new(limits: Limits) -> LimitedCalls
        ensures { result ≡ record { limits = limits; calls = 0 } }
    {
        LimitedCalls { limits, calls: 0 }
    }

    /// Counts a call, and answers the least of `max` and its limit.
    pub fn next(&mut self, max: usize) -> usize
        ensures least { result ≡ least (next_limit self.old) max }
        ensures counted { self.new ≡ counted self.old }
    {
        let limit = self.limits.at(self.calls);
        self.calls = self.calls.saturating_add(1);
        limit.map_or(max, |limit| max.min(limit as usize))
    }
}
