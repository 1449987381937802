//! A buffer with a place of its data.
ghost use Rattle.std.specs.Prelude.{◌≡◌, ◌==◌, ◌+◌, ◌-◌, ◌≤◌, [], length, take, drop, replicate, IfOk};
ghost use Rattle.std.specs.Borrow.{sem};
ghost use Rattle.seg_list.specs.Buffer.{IsWhole, bytes_of, cut_at};
ghost use Rattle.seg_list.specs.Lending.{LendsData};

use crypto_model::OutOfMemory;
use std::alloc::Global;
use std::marker::Model;

/// The bytes of a segment's buffer.
pub const SEG_SIZE: usize = 2048;

/// A buffer of [`SEG_SIZE`] bytes with the offset and the length of its data, which contracts see as the bytes
/// before the data, the data, and the bytes behind it.
#[derive(Drop)]
pub struct Seg {
    buf: Vec<u8>,
    off: usize,
    len: usize,
}

impl Model for Seg {
    ghost use Rattle.std.specs.Prelude.{◌≡◌, ◌+◌, ◌≤◌, length};
    ghost use Rattle.seg_list.specs.Buffer.{Buffer, cut_at};
    ghost use Rattle.seg_list.specs.declared.seg.TheConstants.{SEG_SIZE};

    ghost Value = { Buffer };

    ghost view = { λ s. cut_at s.off s.len s.buf.items };

    ghost invariant = { λ s. (length s.buf.items ≡ SEG_SIZE) × (s.off + s.len ≤ SEG_SIZE) };
}

impl Seg {
    /// A buffer of zeros whose data is empty and begins at `off`.
    pub fn new(alloc: Global, off: usize) -> Result<Seg, OutOfMemory>
        requires { off ≤ SEG_SIZE }
        ensures { IfOk result (λ s. s ≡ record { before = replicate off 0; body = []; after = replicate (SEG_SIZE - off) 0 }) }
    {
        let buf = Vec::from_elem(alloc, 0u8, SEG_SIZE)?;
        Ok(Seg { buf, off, len: 0 })
    }

    /// Moves the data's place. The bytes of the buffer stay.
    pub fn set(&mut self, off: usize, len: usize)
        requires { off + len ≤ SEG_SIZE }
        ensures { self.new ≡ cut_at off len (bytes_of self.old) }
    {
        self.off = off;
        self.len = len;
    }

    /// Where the data begins in the buffer.
    pub fn off(&self) -> usize
        ensures value { result ≡ length self.now.before }
        ensures whole { IsWhole self.now }
    {
        self.off
    }

    /// How many bytes of data there are.
    pub fn len(&self) -> usize
        ensures value { result ≡ length self.now.body }
        ensures whole { IsWhole self.now }
    {
        self.len
    }

    /// Whether there is none.
    pub fn is_empty(&self) -> bool
        ensures { result ≡ (length self.now.body == 0) }
    {
        self.len == 0
    }

    /// The data.
    pub fn data(&self) -> &[u8]
        ensures value { result.now ≡ self.now.body }
        ensures whole { IsWhole self.now }
    {
        &self.buf[self.off..self.off + self.len]
    }

    /// Lends all of the data to be written.
    pub fn data_mut(&mut self) -> &mut [u8]
        ensures* writes_back { sem 𝓛 (LendsData self.entry 0 result) }
        ensures value { result.now ≡ self.old.body }
    {
        let len = self.len;
        self.part_mut(0, len)
    }

    /// Lends `len` bytes of the data, from its byte `at` on, to be written.
    pub fn part_mut(&mut self, at: usize, len: usize) -> &mut [u8]
        requires { at + len ≤ length self.old.body }
        ensures* writes_back { sem 𝓛 (LendsData self.entry at result) }
        ensures value { result.now ≡ take len (drop at self.old.body) }
    {
        let start = self.off + at;
        self.buf.slice_mut(start..start + len)
    }
}
