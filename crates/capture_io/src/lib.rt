//! Captures of packets, read from a source and written to a sink.
//!
//! The format is the classic capture format of libpcap, version 2.4. A capture is a header of 24 bytes
//! and then records, until it ends. All of its numbers are unsigned, and have one byte order:
//!
//! | In the header, at | Bytes | |
//! |---|---|---|
//! | 0 | 4 | the magic number: `a1b2c3d4` for times in microseconds, `a1b23c4d` for nanoseconds |
//! | 4, 6 | 2, 2 | the version, which is 2 and 4 |
//! | 8, 12 | 4, 4 | the time zone and the accuracy of the times |
//! | 16 | 4 | the most bytes of a packet that were captured |
//! | 20 | 4 | the type of the link |
//!
//! | In a record, at | Bytes | |
//! |---|---|---|
//! | 0, 4 | 4, 4 | the time: seconds, and a fraction in the unit of the magic number |
//! | 8 | 4 | the captured length: how many bytes of the packet follow |
//! | 12 | 4 | the original length, that of the whole packet |
//! | 16 | as captured | the packet |
//!
//! The first byte of the magic number says the byte order: `a1` where numbers have their highest byte
//! first. A record is too large where its captured length is above 262,144, or else its original length
//! above 2^32 - 65, or else 2^32 - 1 records stand before it.
//!
//! Contracts speak of bytes by these words of `specs/Capture`:
//!
//! - `header_at` and `record_at`: what stands at the front of a list of bytes, and the bytes behind it;
//! - `Reading` and `IsReading`: what a whole capture is, its records and why no more can be read. Each
//!   list of bytes has exactly one reading, by the law `one_reading`;
//! - `header_bytes` and `record_bytes`: how they are written.
//!
//! A packet that was read lies in segments of a store, as `filled_shape` of `specs/Filled` says.
//!
//! [`read_text`] reads all that is left of a source, where that is no more than a limit.
//!
//! A `Source` or a `Sink` whose bytes contracts can know `tells` them; and `Rose` says that a count of
//! faults rose, or stands at its last value.
//!
//! The proved test `a_capture_is_read_and_written_again` is a short caller.
#![tactic(auto)]

mod drawn;
mod generator;
mod hash;
mod header;
mod laws;
mod memory;
mod outside;
mod packet;
mod pieces;
mod reading;
mod standard;
mod text;
mod writing;

pub use generator::Generator;
pub use hash::HashSink;
pub use header::{CaptureCause, Header, Place, ReadStop, Record};
pub use laws::one_reading;
pub use memory::{MemSink, MemSource};
pub use outside::{ReadFault, Sink, Source, WriteFault};
pub use pieces::{fill, write_all};
pub use reading::{MAX_CAPTURED, read_header, read_record};
pub use standard::{StdSink, StdSource};
pub use text::{TextStop, read_text};
pub use writing::{spelled_record, write_header, write_record};

#[cfg(test)]
mod tests;
