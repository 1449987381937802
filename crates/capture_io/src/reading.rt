//! A capture is read from a source, its header first, and then record by record.
ghost use Rattle.std.specs.Prelude.{◌≡◌, ◌≤◌, ◌<◌, ◌+◌, ◌*◌, ◌^◌, ◌++◌, ℕ, List, [], length, take, drop, Ok, Err, IfOk, IfErr, OnErr, IsErrOf};
ghost use Rattle.crypto_model.specs.Counts.{Rose};
ghost use Rattle.capture_io.specs.Capture.{number, magic_of, header_of, header_at, head_of, limit_of, record_at, view, behind, StopsHeader, CanStopHeader, IsHeaderFault, StopsRecord, CanStopRecord};
ghost use Rattle.mbuf_chain.specs.Chain.{packet_of, shape_of};
ghost use Rattle.capture_io.specs.Filled.{filled_shape};
ghost use Rattle.capture_io.specs.Limits.{IsPlaced, IsSmall};

use crate::header::{CaptureCause, Header, Place, ReadStop, Record, RecordHead};
use crate::outside::Source;
use crate::packet::read_packet;
use crate::pieces::fill;
use byteorder::{BigEndian, ByteOrder, LittleEndian};
use mbuf_chain::SegStore;
use std::alloc::Global;

/// So many bytes are captured of a packet at most.
pub const MAX_CAPTURED: u32 = 262_144;

const MAX_ORIGINAL: u32 = u32::MAX - 64;

fn u16_at(big: bool, bytes: &[u8], at: usize) -> u16
    requires { at + 2 ≤ length bytes.now }
    ensures { result ≡ number big 2 (drop at bytes.now) }
{
    let rest = &bytes[at..];
    if big {
        BigEndian::read_u16(rest)
    } else {
        LittleEndian::read_u16(rest)
    }
}

fn u32_at(big: bool, bytes: &[u8], at: usize) -> u32
    requires { at + 4 ≤ length bytes.now }
    ensures { result ≡ number big 4 (drop at bytes.now) }
{
    let rest = &bytes[at..];
    if big {
        BigEndian::read_u32(rest)
    } else {
        LittleEndian::read_u32(rest)
    }
}

// The byte order, and whether the fractions are nanoseconds.
fn order_of(magic: u32) -> Option<(bool, bool)>
    ensures { result ≡ magic_of magic }
{
    match magic {
        0xa1b2_c3d4 => Some((true, false)),
        0xa1b2_3c4d => Some((true, true)),
        0xd4c3_b2a1 => Some((false, false)),
        0x4d3c_b2a1 => Some((false, true)),
        _ => None,
    }
}

#[tactic(auto, unfolding(crate::specs::Capture::header_of))]
fn parse_header(bytes: &[u8]) -> Result<Header, (u64, CaptureCause)>
    requires { length bytes.now ≡ 24 }
    ensures value { result ≡ header_of bytes.now }
    ensures fault { IfErr result (λ e. IsHeaderFault e.0 e.1) }
{
    let Some((big, nanos)) = order_of(u32_at(true, bytes, 0)) else {
        return Err((0, CaptureCause::BadMagic));
    };
    if u16_at(big, bytes, 4) != 2 || u16_at(big, bytes, 6) != 4 {
        return Err((4, CaptureCause::BadVersion));
    }
    Ok(Header {
        big,
        nanos,
        zone: u32_at(big, bytes, 8),
        sigfigs: u32_at(big, bytes, 12),
        snaplen: u32_at(big, bytes, 16),
        link: u32_at(big, bytes, 20),
    })
}

/// Reads the header of a capture, and nothing behind it.
pub fn read_header<S: Source>(src: &mut S) -> Result<Header, ReadStop>
    ensures found { S.tells → IfOk result (λ h. header_at (S.left src.old) ≡ Ok (h, S.left src.new)) }
    ensures stop { S.tells → IfErr result (StopsHeader (S.left src.old)) }
    ensures taken { S.tells → ((bytes : List ℕ) × (S.left src.old ≡ bytes ++ S.left src.new)) }

    // It is never at an end, too large or out of memory, also where the bytes are not told.
    ensures never { IfErr result CanStopHeader }
    ensures later { S.faults src.old ≤ S.faults src.new }
    ensures cause { IsErrOf result ReadStop.Fault → Rose (S.faults src.old) (S.faults src.new) }
{
    let mut bytes = [0; 24];
    let n = fill(src, &mut bytes)?;
    if n < 24 {
        return Err(ReadStop::BadCapture {
            at: 0,
            cause: CaptureCause::ShortHeader,
        });
    }
    match parse_header(&bytes) {
        Ok(header) => Ok(header),
        Err((at, cause)) => Err(ReadStop::BadCapture { at, cause }),
    }
}

fn parse_head(big: bool, bytes: &[u8]) -> RecordHead
    requires { length bytes.now ≡ 16 }
    ensures { result ≡ head_of big bytes.now }
{
    RecordHead {
        sec: u32_at(big, bytes, 0),
        frac: u32_at(big, bytes, 4),
        captured: u32_at(big, bytes, 8),
        orig: u32_at(big, bytes, 12),
    }
}

// The first limit that a record passes, by the number that passes it.
fn passed_limit(records: u32, head: &RecordHead) -> Option<u64>
    ensures { result ≡ limit_of records head.now }
{
    if head.captured > MAX_CAPTURED {
        Some(u64::from(head.captured))
    } else if head.orig > MAX_ORIGINAL {
        Some(u64::from(head.orig))
    } else if records == u32::MAX {
        Some(1 << 32)
    } else {
        None
    }
}

/// Reads a record. The place is where it begins, and moves behind it.
///
/// A record that is too large stops the reading behind its first 16 bytes, and one that memory is
/// wanting for also: neither can be passed over. The packet's segments are taken from `store`, and on a
/// stop all that were taken are given back to it.
pub fn read_record<S: Source, P: SegStore>(
    alloc: Global,
    src: &mut S,
    header: &Header,
    place: &mut Place,
    store: &mut P,
) -> Result<Record, ReadStop>
    requires endless { P.endless }
    requires at { IsPlaced place.old }
    ensures found { S.tells → IfOk result (λ r. record_at header.now.big place.old (S.left src.old) ≡ Ok (view r, S.left src.new)) }
    ensures stop { S.tells → IfErr result (StopsRecord header.now.big place.old (S.left src.old)) }
    ensures taken { S.tells → ((bytes : List ℕ) × (S.left src.old ≡ bytes ++ S.left src.new)) }

    // Also where the bytes are not told.
    ensures never { IfErr result (CanStopRecord place.old.at) }
    ensures moved { IfOk result (λ r. place.new ≡ behind place.old (view r)) }
    ensures small { IfOk result IsSmall }
    ensures filled { IfOk result (λ r. shape_of r.packet ≡ filled_shape (length (packet_of r.packet))) }
    ensures range { place.new.records < 2 ^ 32 }
    ensures more { IfOk result (λ r. place.new.records ≡ place.old.records + 1) }
    ensures stays { OnErr result (place.new ≡ place.old) }
    ensures place { IsPlaced place.new }
    ensures later { S.faults src.old ≤ S.faults src.new }
    ensures cause { IsErrOf result ReadStop.Fault → Rose (S.faults src.old) (S.faults src.new) }
{
    let mut bytes = [0; 16];
    let n = fill(src, &mut bytes)?;
    if n == 0 {
        return Err(ReadStop::End);
    }
    let at = place.at;
    if n < 16 {
        return Err(ReadStop::BadCapture {
            at,
            cause: CaptureCause::ShortRecord,
        });
    }
    let head = parse_head(header.big, &bytes);
    if let Some(value) = passed_limit(place.records, &head) {
        return Err(ReadStop::TooLarge(value));
    }
    let packet = read_packet(alloc, src, store, head.captured, at)?;
    place.at = at + 16 + u64::from(head.captured);
    place.records += 1;
    Ok(Record {
        sec: head.sec,
        frac: head.frac,
        orig: head.orig,
        packet,
    })
}
