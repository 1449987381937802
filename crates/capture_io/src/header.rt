//! What a capture holds: a header, and records behind it.
ghost use Rattle.std.specs.Prelude.{◌≡◌};

use crate::outside::ReadFault;
use crypto_model::OutOfMemory;
use mbuf_chain::Mbuf;

/// What the first 24 bytes of a capture say.
#[derive(Clone, Copy, Debug, PartialEq, Eq)]
pub struct Header {
    /// Whether the capture's numbers have their highest byte first.
    pub big: bool,
    /// Whether the fractions of a second are nanoseconds, and not microseconds.
    pub nanos: bool,
    /// The time zone, which captures leave 0.
    pub zone: u32,
    /// The accuracy of the times, which captures leave 0.
    pub sigfigs: u32,
    /// The most bytes of a packet that were captured. It is not compared with the records.
    pub snaplen: u32,
    /// The type of the link that the packets were seen on.
    pub link: u32,
}

/// Why a capture is not whole, or not one that is read here. `FormNotBuilt` never comes.
#[derive(Clone, Copy, Debug, PartialEq, Eq)]
pub enum CaptureCause {
    ShortHeader,
    BadMagic,
    BadVersion,
    ShortRecord,
    ShortData,
    FormNotBuilt,
}

/// Where a record begins, in bytes of the capture, and how many records stand before it.
#[derive(Clone, Copy, Debug, PartialEq, Eq)]
pub struct Place {
    pub at: u64,
    pub records: u32,
}

/// One packet with its time, and with the length that it had before it was cut to be captured.
#[derive(Drop)]
pub struct Record {
    pub sec: u32,
    pub frac: u32,
    pub orig: u32,
    pub packet: Mbuf,
}

/// The 16 bytes before a packet.
#[derive(Clone, Copy, Debug, PartialEq, Eq)]
pub struct RecordHead {
    pub sec: u32,
    pub frac: u32,
    pub captured: u32,
    pub orig: u32,
}

/// Why a read of a capture stopped.
#[derive(Clone, Copy, Debug, PartialEq, Eq)]
pub enum ReadStop {
    /// The capture ends where a record could begin.
    End,
    /// A read of the source failed.
    Fault,
    /// The bytes at this place of the capture are no header or no whole record.
    BadCapture { at: u64, cause: CaptureCause },
    /// A record passes a limit, by this number: its captured length, its original length, or how many
    /// records there are with it.
    TooLarge(u64),
    OutOfMemory,
}

impl From<ReadFault> for ReadStop {
    ghost use Rattle.capture_io.specs.declared.header.ReadStop.TheVariants.{Fault};

    ghost from_gives = { λ _ e. e ≡ Fault };

    fn from(_fault: ReadFault) -> ReadStop {
        ReadStop::Fault
    }
}

impl From<OutOfMemory> for ReadStop {
    ghost use Rattle.capture_io.specs.declared.header.ReadStop.TheVariants.{OutOfMemory};

    ghost from_gives = { λ _ e. e ≡ OutOfMemory };

    fn from(_error: OutOfMemory) -> ReadStop {
        ReadStop::OutOfMemory
    }
}
