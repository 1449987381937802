//! A capture is written to a sink.
ghost use Rattle.std.specs.Prelude.{◌≡◌, ◌≤◌, ◌++◌, length, IfOk, OnOk, OnErr};
ghost use Rattle.crypto_model.specs.Counts.{Rose};
ghost use Rattle.capture_io.specs.Capture.{spelled, magic_number, header_bytes, record_bytes, view};
ghost use Rattle.capture_io.specs.Pieces.{AppendsPart};
ghost use Rattle.mbuf_chain.specs.Chain.{packet_of};

use crate::header::{Header, Record};
use crate::outside::{Sink, WriteFault};
use crate::pieces::write_all;
use crypto_model::OutOfMemory;
use seg_list::SegList;
use std::alloc::Global;

fn u16_bytes(big: bool, number: u16) -> [u8; 2]
    ensures { result ≡ spelled big 2 number }
{
    if big {
        number.to_be_bytes()
    } else {
        number.to_le_bytes()
    }
}

fn u32_bytes(big: bool, number: u32) -> [u8; 4]
    ensures { result ≡ spelled big 4 number }
{
    if big {
        number.to_be_bytes()
    } else {
        number.to_le_bytes()
    }
}

fn spelled_magic(big: bool, nanos: bool) -> [u8; 8]
    ensures { result ≡ spelled big 4 (magic_number nanos) ++ spelled big 2 2 ++ spelled big 2 4 }
{
    let mut bytes = [0; 8];
    let magic = if nanos { 0xa1b2_3c4d } else { 0xa1b2_c3d4 };
    bytes[..4].copy_from_slice(&u32_bytes(big, magic));
    bytes[4..6].copy_from_slice(&u16_bytes(big, 2));
    bytes[6..8].copy_from_slice(&u16_bytes(big, 4));
    bytes
}

pub(crate) fn spelled_words(big: bool, first: u32, second: u32, third: u32, fourth: u32) -> [u8; 16]
    ensures { result ≡ spelled big 4 first ++ spelled big 4 second ++ spelled big 4 third ++ spelled big 4 fourth }
{
    let mut bytes = [0; 16];
    bytes[..4].copy_from_slice(&u32_bytes(big, first));
    bytes[4..8].copy_from_slice(&u32_bytes(big, second));
    bytes[8..12].copy_from_slice(&u32_bytes(big, third));
    bytes[12..16].copy_from_slice(&u32_bytes(big, fourth));
    bytes
}

pub(crate) fn spelled_header(header: &Header) -> [u8; 24]
    ensures { result ≡ header_bytes header.now }
{
    let big = header.big;
    let mut bytes = [0; 24];
    bytes[..8].copy_from_slice(&spelled_magic(big, header.nanos));
    let words = spelled_words(
        big,
        header.zone,
        header.sigfigs,
        header.snaplen,
        header.link,
    );
    bytes[8..].copy_from_slice(&words);
    bytes
}

fn spelled_head(big: bool, rec: &Record) -> [u8; 16]
    ensures { result ++ packet_of rec.now.packet ≡ record_bytes big (view rec.now) }
{
    spelled_words(big, rec.sec, rec.frac, rec.packet.len() as u32, rec.orig)
}

/// Writes the header of a capture. At a fault a front of its bytes was written.
pub fn write_header<K: Sink>(sink: &mut K, header: &Header) -> Result<(), WriteFault>
    ensures written { K.tells → OnOk result (K.written sink.new ≡ K.written sink.old ++ header_bytes header.now) }
    ensures fault { K.tells → OnErr result (AppendsPart (K.written sink.old) (K.written sink.new) (header_bytes header.now)) }
    ensures later { K.faults sink.old ≤ K.faults sink.new }
    ensures cause { OnErr result (Rose (K.faults sink.old) (K.faults sink.new)) }
    ensures steady { K.steady → OnOk result (K.faults sink.new ≡ K.faults sink.old) }
{
    write_all(sink, &spelled_header(header))
}

fn write_segs<K: Sink>(sink: &mut K, segs: &SegList) -> Result<(), WriteFault>
    ensures written { K.tells → OnOk result (K.written sink.new ≡ K.written sink.old ++ packet_of segs.now) }
    ensures fault { K.tells → OnErr result (AppendsPart (K.written sink.old) (K.written sink.new) (packet_of segs.now)) }
    ensures later { K.faults sink.old ≤ K.faults sink.new }
    ensures cause { OnErr result (Rose (K.faults sink.old) (K.faults sink.new)) }
    ensures steady { K.steady → OnOk result (K.faults sink.new ≡ K.faults sink.old) }
{
    for seg in segs.iter() {
        write_all(sink, seg.data())?;
    }
    Ok(())
}

fn append_segs(bytes: &mut Vec<u8>, segs: &SegList) -> Result<(), OutOfMemory>
    ensures { OnOk result (bytes.new.items ≡ bytes.old.items ++ packet_of segs.now) }
{
    for seg in segs.iter() {
        bytes.extend_from_slice(seg.data())?;
    }
    Ok(())
}

/// The bytes of a record, as it is written.
pub fn spelled_record(alloc: Global, header: &Header, rec: &Record) -> Result<Vec<u8>, OutOfMemory>
    ensures bytes { IfOk result (λ b. b.items ≡ record_bytes header.now.big (view rec.now)) }
    ensures few { IfOk result (λ b. length b.items ≤ 524304) }
{
    let mut bytes = Vec::with_capacity(alloc, 16 + rec.packet.len())?;
    bytes.extend_from_slice(&spelled_head(header.big, rec))?;
    append_segs(&mut bytes, rec.packet.segs())?;
    Ok(bytes)
}

/// Writes a record. At a fault a front of its bytes was written.
pub fn write_record<K: Sink>(sink: &mut K, header: &Header, rec: &Record) -> Result<(), WriteFault>
    ensures written { K.tells → OnOk result (K.written sink.new ≡ K.written sink.old ++ record_bytes header.now.big (view rec.now)) }
    ensures fault { K.tells → OnErr result (AppendsPart (K.written sink.old) (K.written sink.new) (record_bytes header.now.big (view rec.now))) }
    ensures later { K.faults sink.old ≤ K.faults sink.new }
    ensures cause { OnErr result (Rose (K.faults sink.old) (K.faults sink.new)) }
    ensures steady { K.steady → OnOk result (K.faults sink.new ≡ K.faults sink.old) }
{
    write_all(sink, &spelled_head(header.big, rec))?;
    write_segs(sink, rec.packet.segs())
}
