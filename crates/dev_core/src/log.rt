//! A device that logs what it takes.
ghost use Rattle.std.specs.Prelude.{◌≡◌, ◌+◌, ◌<◌, ◌≤◌, ◌↔◌, ◌++◌, [], length, Some, option_map, IfOk, OnOk, OnErr, IsErrOf, vec_len, vec_capacity};
ghost use Rattle.std.specs.Arc.{arc_value};
ghost use Rattle.crypto_model.specs.Counts.{capped};
ghost use Rattle.dev_core.specs.declared.driver.SetUpRefused.TheVariants.{BadDepth, Busy};
ghost use Rattle.dev_core.specs.Burst.{front_log};
ghost use Rattle.dev_core.specs.SetUp.{IsDepth};
ghost use Rattle.dev_core.specs.Stats.{no_stats};

use crate::over::{Over, dequeue_upto, enqueue_upto, stalls_of};
use crate::{Device, Driver, Kind, LogEntry, SetUpRefused, Stats};
use crypto_model::OutOfMemory;
use crypto_op::OpBurst;
use std::alloc::Global;
use std::sync::Arc;
use sym_session::SessionTable;

/// A device over another that logs each operation which it takes, and takes no more than it has room to
/// log. Where that cuts the number that the other would accept, the device stalls.
#[derive(Drop)]
pub struct LogDriver<D> {
    over: Over<D>,
    cap: usize,
    log: Vec<LogEntry>,
    ghost fits: { (vec_len log ≤ cap) × (cap ≤ vec_capacity log) },
}

impl<D: Drop> LogDriver<D> {
    ghost use Rattle.dev_core.specs.Log.{IsNewLog};

    /// Reserves room for `cap` entries. Where there is no memory, the inner device is dropped.
    pub fn new(alloc: Global, inner: D, cap: usize) -> Result<LogDriver<D>, OutOfMemory>
        ensures { IfOk result (IsNewLog inner cap) }
    {
        Ok(LogDriver {
            log: Vec::with_capacity(alloc, cap)?,
            over: Over::new(inner),
            cap,
        })
    }
}

impl<D> LogDriver<D> {
    ghost use Rattle.dev_core.specs.Log.{logged_of, log_of, cap_of};

    /// The entries of all operations taken since it was set up, in their order.
    pub fn log(&self) -> &[LogEntry]
        ensures entries { result.now ≡ log_of self.now }
        ensures most { length (log_of self.now) ≤ cap_of self.now }
    {
        self.log.as_slice()
    }

    /// The device below.
    pub fn inner(&self) -> &D
        ensures { result.now ≡ logged_of self.now }
    {
        &self.over.inner
    }

    /// Hands the device below back.
    pub fn into_inner(self) -> D
        ensures { result ≡ logged_of self }
    {
        let LogDriver {
            over,
            cap: _,
            log: _,
        } = self;
        over.into_inner()
    }
}

/// Logs a burst's first n operations.
fn note<C>(log: &mut Vec<LogEntry>, burst: &OpBurst<C>, n: usize)
    requires there { n ≤ length burst.now.ops }
    requires room { vec_len log.old + n ≤ vec_capacity log.old }
    ensures items { log.new.items ≡ log.old.items ++ front_log n burst.now }
    ensures len { vec_len log.new ≡ vec_len log.old + n }
    ensures capacity { vec_capacity log.old ≤ vec_capacity log.new }
{
    for i in 0..n {
        let op = burst.get(i);
        let entry = LogEntry {
            session: op.spec().session,
            data_len: op.data_len(),
            pos: op.spec().pos,
        };
        match log.push(entry) {
            Ok(()) => {}
            Err(_) => unreachable!(),
        }
    }
}

impl<C, D: Device<C>> Driver<C> for LogDriver<D> {
    ghost use Rattle.dev_core.specs.Log.{LogDoes, logged_of, log_of, log_cuts, log_stats};

    ghost held = { λ d. D.held (logged_of d) };

    ghost room = { λ d. D.room (logged_of d) };

    ghost admits = { λ d lens. D.admits (logged_of d) lens };

    ghost stalls = { λ d. capped (D.stalls (logged_of d) + log_cuts d) };

    ghost sessions = { λ d. D.sessions (logged_of d) };

    ghost stats = { log_stats };

    ghost log = { λ d. Some (log_of d) };

    ghost ordered = { λ d. D.ordered (logged_of d) };

    ghost follows = { λ d e. D.follows (logged_of d) (logged_of e) };

    ghost does = { λ d c e. LogDoes D.Driver d c e };

    ghost room_admits = { λ d r ls e. D.room_admits (logged_of d) r ls e };

    ghost keeps_order = { λ d e p o. D.keeps_order (logged_of d) (logged_of e) p o };

    ghost follows_itself = { λ d. D.follows_itself (logged_of d) };

    ghost follows_on = { λ d e f p q. D.follows_on (logged_of d) (logged_of e) (logged_of f) p q };

    fn enqueue_burst(&mut self, burst: &mut OpBurst<C>, max: usize) -> usize {
        let logged = self.log.len();
        let most = max.min(self.cap - logged);
        note(&mut self.log, burst, most.min(burst.len()));
        let n = enqueue_upto(&mut self.over, burst, max, most);
        self.log.truncate(logged + n);
        n
    }

    fn dequeue_burst(&mut self, out: &mut OpBurst<C>, max: usize) -> usize {
        dequeue_upto(&mut self.over, out, max, max)
    }

    fn held(&self) -> usize {
        self.over.inner.held()
    }

    fn stalls(&self) -> u64 {
        stalls_of(&self.over)
    }

    fn stats(&self) -> Stats {
        self.over.stats
    }

    fn sessions(&self) -> &SessionTable {
        self.over.inner.sessions()
    }
}

impl<C, D: Device<C>> Device<C> for LogDriver<D> {
    ghost use Rattle.dev_core.specs.Log.{logged_of, cap_of, log_of, log_cuts, log_stats};

    ghost limit = { λ d. D.limit (logged_of d) };

    ghost room_told = { λ d. D.room_told (logged_of d) };

    ghost keeps_depth = { λ d e p. D.keeps_depth (logged_of d) (logged_of e) p };

    ghost within_depth = { λ d. D.within_depth (logged_of d) };

    /// Sets the inner device up, and then empties the log.
    fn set_up(
        &mut self,
        alloc: Global,
        kind: Kind,
        sessions: Arc<SessionTable>,
        depth: usize,
    ) -> Result<(), SetUpRefused>
        ensures bad_depth { IsErrOf result BadDepth ↔ ¬ (IsDepth depth) }
        ensures busy { IsErrOf result Busy ↔ IsDepth depth × (0 < length (D.held (logged_of self.old))) }
        ensures refused { OnErr result (self.new ≡ self.old) }
        ensures sessions { OnOk result (D.sessions (logged_of self.new) ≡ arc_value sessions) }
        ensures depth { OnOk result (D.limit (logged_of self.new) ≡ depth) }
        ensures held { OnOk result (D.held (logged_of self.new) ≡ []) }
        ensures stats { OnOk result (log_stats self.new ≡ no_stats) }
        ensures log { OnOk result (Some (log_of self.new) ≡ option_map (λ l. []) (Some (log_of self.old))) }
        ensures stalls { capped (D.stalls (logged_of self.new) + log_cuts self.new) ≡ capped (D.stalls (logged_of self.old) + log_cuts self.old) }

        // The cuts go on being counted where they were.
        ensures cuts { log_cuts self.new ≡ log_cuts self.old }
        ensures cap { cap_of self.new ≡ cap_of self.old }
        ensures inner_stalls { D.stalls (logged_of self.new) ≡ D.stalls (logged_of self.old) }
        ensures inner_stats { OnOk result (D.stats (logged_of self.new) ≡ no_stats) }
        ensures inner_log { OnOk result (D.log (logged_of self.new) ≡ option_map (λ l. []) (D.log (logged_of self.old))) }
    {
        self.over.inner.set_up(alloc, kind, sessions, depth)?;
        self.over.stats = Stats::new();
        self.log.clear();
        Ok(())
    }

    fn depth(&self) -> usize {
        self.over.inner.depth()
    }
}
