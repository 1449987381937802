//! A source and a sink over std's readers and writers, whose bytes are not told.
ghost use Rattle.std.specs.Prelude.{◌≡◌, ◌≤◌, ◌<◌, ◌+◌, [], length, IfOk, OnOk, OnErr};
ghost use Rattle.std.specs.Io.KnownBytes.{ReadConsumes, WriteAppends, Keeps};
ghost use Rattle.crypto_model.specs.Counts.{Rose, capped};

use crate::{ReadFault, Sink, Source, WriteFault};
use std::io::{Read, Write};

/// A reader of std, and how many of its reads have failed.
#[derive(Drop)]
pub struct StdSource<R: Read> {
    reader: R,
    faults: u64,
}

impl<R: Read> StdSource<R> {
    ghost use Rattle.capture_io.specs.Standard.{reader_of, std_read_faults};

    pub fn new(reader: R) -> StdSource<R>
        ensures reader { reader_of result ≡ reader }
        ensures faults { std_read_faults result ≡ 0 }
    {
        StdSource { reader, faults: 0 }
    }
}

impl<R: Read> Source for StdSource<R> {
    ghost use Rattle.capture_io.specs.Standard.{reader_of, std_read_faults};

    ghost tells = { ⊥ };

    ghost left = { λ _. [] };

    ghost faults = { λ s. std_read_faults s };

    fn read(&mut self, buf: &mut [u8]) -> Result<usize, ReadFault>
        requires { 0 < length buf.old }
        ensures within { IfOk result (λ n. n ≤ length buf.old) }
        ensures later { std_read_faults self.old ≤ std_read_faults self.new }
        ensures cause { OnErr result (Rose (std_read_faults self.old) (std_read_faults self.new)) }
        ensures steady { OnOk result (std_read_faults self.new ≡ std_read_faults self.old) }
        ensures raised { OnErr result (std_read_faults self.new ≡ capped (std_read_faults self.old + 1)) }

        // The bytes are the reader's, where std's contracts know those.
        ensures bytes { ReadConsumes (R.remaining (reader_of self.old)) (R.remaining (reader_of self.new)) result buf.new }
    {
        match self.reader.read(buf) {
            Ok(n) => Ok(n),
            Err(_) => {
                self.faults = self.faults.saturating_add(1);
                Err(ReadFault)
            }
        }
    }
}

/// A writer of std, and how many of its writes and flushes have failed.
#[derive(Drop)]
pub struct StdSink<W: Write> {
    writer: W,
    faults: u64,
}

impl<W: Write> StdSink<W> {
    ghost use Rattle.capture_io.specs.Standard.{writer_of, std_write_faults};

    pub fn new(writer: W) -> StdSink<W>
        ensures writer { writer_of result ≡ writer }
        ensures faults { std_write_faults result ≡ 0 }
    {
        StdSink { writer, faults: 0 }
    }
}

impl<W: Write> Sink for StdSink<W> {
    ghost use Rattle.capture_io.specs.Standard.{writer_of, std_write_faults};

    ghost tells = { ⊥ };

    ghost written = { λ _. [] };

    ghost faults = { λ k. std_write_faults k };

    ghost steady = { Unit {0} };

    /// A write of 0 bytes is a fault too: the writer takes nothing more.
    fn write(&mut self, piece: &[u8]) -> Result<usize, WriteFault>
        requires { 0 < length piece.now }
        ensures within { IfOk result (λ n. n ≤ length piece.now) }
        ensures some { IfOk result (λ n. 0 < n) }
        ensures later { std_write_faults self.old ≤ std_write_faults self.new }
        ensures cause { OnErr result (Rose (std_write_faults self.old) (std_write_faults self.new)) }
        ensures steady { OnOk result (std_write_faults self.new ≡ std_write_faults self.old) }
        ensures raised { OnErr result (std_write_faults self.new ≡ capped (std_write_faults self.old + 1)) }

        // The bytes go to the writer, where std's contracts know those that it holds.
        ensures bytes { WriteAppends (W.contents (writer_of self.old)) (W.contents (writer_of self.new)) result piece.now }
    {
        match self.writer.write(piece) {
            Ok(n) if n > 0 => Ok(n),
            _ => {
                self.faults = self.faults.saturating_add(1);
                Err(WriteFault)
            }
        }
    }

    fn flush(&mut self) -> Result<(), WriteFault>
        ensures later { std_write_faults self.old ≤ std_write_faults self.new }
        ensures cause { OnErr result (Rose (std_write_faults self.old) (std_write_faults self.new)) }
        ensures steady { OnOk result (std_write_faults self.new ≡ std_write_faults self.old) }
        ensures raised { OnErr result (std_write_faults self.new ≡ capped (std_write_faults self.old + 1)) }
        ensures bytes { Keeps (W.contents (writer_of self.old)) (W.contents (writer_of self.new)) }
    {
        match self.writer.flush() {
            Ok(()) => Ok(()),
            Err(_) => {
                self.faults = self.faults.saturating_add(1);
                Err(WriteFault)
            }
        }
    }
}
