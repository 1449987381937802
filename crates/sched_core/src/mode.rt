//! How a scheduler deals operations to its workers.
ghost use Rattle.std.specs.Prelude.{◌≡◌};

#[derive(Clone, Copy, Debug, PartialEq, Eq)]
pub enum Mode {
    /// Burst by burst, each to the next worker.
    RoundRobin,
    /// Long data to the first worker, short data to the second.
    PacketSize,
    /// To the first worker, and what it doesn't take to the second.
    FailOver,
    /// To workers on other cores.
    MultiCore,
}

impl Mode {
    ghost use Rattle.sched_core.specs.Mode.{most_workers, least_workers};

    pub fn most_workers(self) -> usize
        ensures { result ≡ most_workers self }
    {
        match self {
            Mode::RoundRobin | Mode::MultiCore => 8,
            Mode::PacketSize | Mode::FailOver => 2,
        }
    }

    pub fn least_workers(self) -> usize
        ensures { result ≡ least_workers self }
    {
        match self {
            Mode::RoundRobin | Mode::MultiCore => 1,
            Mode::PacketSize | Mode::FailOver => 2,
        }
    }
}
