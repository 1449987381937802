//! How a run ends.
ghost use Rattle.std.specs.Prelude.{◌≡◌};
ghost use Rattle.capcrypt.specs.Report.{status_of};
ghost use Rattle.capcrypt.specs.Ran.{flow_ending, stop_ending};

use capture_io::{CaptureCause, ReadStop};
use crypto_model::OutOfMemory;
use packet_flow::{Counts, FlowEnd};

/// How a run ends, with what its report tells of it.
#[derive(Clone, Copy, Debug, PartialEq, Eq)]
pub enum Ending {
    Done,
    Memory,
    Usage,
    /// The words are legal, but for their scheduler text, which is faulty from this byte on.
    Vdev { at: u64 },
    Capture { at: u64, cause: CaptureCause },
    /// The session text has a fault of this kind in this line.
    Sessions { line: u32, kind: u8 },
    ReadFault,
    WriteFault,
    Stalled,
    TooLarge(u64),
}

impl From<OutOfMemory> for Ending {
    ghost use Rattle.capcrypt.specs.declared.ending.Ending.TheVariants.{Memory};

    ghost from_gives = { λ _ e. e ≡ Memory };

    fn from(_error: OutOfMemory) -> Ending {
        Ending::Memory
    }
}

/// What a report tells: `header` is whether the capture's header was read, and then `devices` how many devices
/// were used.
#[derive(Clone, Copy, Debug, PartialEq, Eq)]
pub struct Outcome {
    pub ending: Ending,
    pub counts: Counts,
    pub header: bool,
    pub devices: usize,
}

/// The exit status of an ending.
pub(crate) fn number(ending: &Ending) -> u8
    ensures { result ≡ status_of ending.now }
{
    match ending {
        Ending::Done => 0,
        Ending::Memory => 1,
        Ending::Usage | Ending::Vdev { .. } => 2,
        Ending::Capture { .. } => 3,
        Ending::Sessions { .. } => 4,
        Ending::ReadFault => 5,
        Ending::WriteFault => 6,
        Ending::Stalled => 7,
        Ending::TooLarge(_) => 8,
    }
}

/// How a run ends that reads up to a stop.
pub(crate) fn ending_of_stop(stop: ReadStop) -> Ending
    ensures { result ≡ stop_ending stop }
{
    match stop {
        ReadStop::End => Ending::Done,
        ReadStop::Fault => Ending::ReadFault,
        ReadStop::BadCapture { at, cause } => Ending::Capture { at, cause },
        ReadStop::TooLarge(value) => Ending::TooLarge(value),
        ReadStop::OutOfMemory => Ending::Memory,
    }
}

/// How a run ends whose packets flowed up to this end.
pub(crate) fn ending_of_flow(end: FlowEnd) -> Ending
    ensures { result ≡ flow_ending end }
{
    match end {
        FlowEnd::Stopped(stop) => ending_of_stop(stop),
        FlowEnd::WriteFault => Ending::WriteFault,
        FlowEnd::Stalled => Ending::Stalled,
        FlowEnd::OutOfMemory => Ending::Memory,
    }
}
