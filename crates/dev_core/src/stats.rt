//! What a driver counts.
ghost use Rattle.std.specs.Prelude.{◌≡◌};

/// How many operations went in and came out, and how many calls moved fewer than they were offered or
/// asked for. Each count stands still at its last value.
#[derive(Clone, Copy, Debug, PartialEq, Eq)]
pub struct Stats {
    pub enqueued: u64,
    pub dequeued: u64,
    pub enqueue_short: u64,
    pub dequeue_short: u64,
}

impl Stats {
    ghost use Rattle.dev_core.specs.Stats.{no_stats, after_enqueue, after_dequeue};

    pub fn new() -> Stats
        ensures { result ≡ no_stats }
    {
        Stats {
            enqueued: 0,
            dequeued: 0,
            enqueue_short: 0,
            dequeue_short: 0,
        }
    }

    pub fn count_enqueue(&mut self, offered: usize, n: usize)
        ensures { self.new ≡ after_enqueue offered n self.old }
    {
        self.enqueued = self.enqueued.saturating_add(n as u64);
        let short = u64::from(n < offered);
        self.enqueue_short = self.enqueue_short.saturating_add(short);
    }

    pub fn count_dequeue(&mut self, asked: usize, n: usize)
        ensures { self.new ≡ after_dequeue asked n self.old }
    {
        self.dequeued = self.dequeued.saturating_add(n as u64);
        let short = u64::from(n < asked);
        self.dequeue_short = self.dequeue_short.saturating_add(short);
    }
}
