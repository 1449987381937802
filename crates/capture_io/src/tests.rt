ghost use Rattle.mbuf_chain.specs.Emptied.{IsEmptied};

use crate::{
    CaptureCause, Header, MemSink, MemSource, Place, ReadFault, ReadStop, Record, Sink, Source,
    StdSink, StdSource, TextStop, WriteFault, fill, one_reading, read_header, read_record,
    read_text, write_all, write_header, write_record,
};
use mbuf_chain::{FreshSegs, NoSeg, SegStore};
use seg_list::Seg;
use std::alloc::Global;
use std::io;
use std::io::{Read, Write};
use std::test::Fail;

mod made;

// One capture in each spelling: a header with zone 1, accuracy 2, 64 bytes at most and link 3, and a
// record at second 5 and fraction 6, of which 2 bytes were captured of 9.
const CAPTURES: [(bool, bool, [u8; 42]); 4] = [
    (
        true,
        false,
        [
            0xa1, 0xb2, 0xc3, 0xd4, 0, 2, 0, 4, 0, 0, 0, 1, 0, 0, 0, 2, 0, 0, 0, 64, 0, 0, 0, 3, //
            0, 0, 0, 5, 0, 0, 0, 6, 0, 0, 0, 2, 0, 0, 0, 9, 0x70, 0x71,
        ],
    ),
    (
        true,
        true,
        [
            0xa1, 0xb2, 0x3c, 0x4d, 0, 2, 0, 4, 0, 0, 0, 1, 0, 0, 0, 2, 0, 0, 0, 64, 0, 0, 0, 3, //
            0, 0, 0, 5, 0, 0, 0, 6, 0, 0, 0, 2, 0, 0, 0, 9, 0x70, 0x71,
        ],
    ),
    (
        false,
        false,
        [
            0xd4, 0xc3, 0xb2, 0xa1, 2, 0, 4, 0, 1, 0, 0, 0, 2, 0, 0, 0, 64, 0, 0, 0, 3, 0, 0, 0, //
            5, 0, 0, 0, 6, 0, 0, 0, 2, 0, 0, 0, 9, 0, 0, 0, 0x70, 0x71,
        ],
    ),
    (
        false,
        true,
        [
            0x4d, 0x3c, 0xb2, 0xa1, 2, 0, 4, 0, 1, 0, 0, 0, 2, 0, 0, 0, 64, 0, 0, 0, 3, 0, 0, 0, //
            5, 0, 0, 0, 6, 0, 0, 0, 2, 0, 0, 0, 9, 0, 0, 0, 0x70, 0x71,
        ],
    ),
];

#[test]
fn a_capture_is_read_and_written_again(rt: HostRuntime) -> Result<(), Fail> {
    let alloc = rt.alloc();
    one_reading();
    for (big, nanos, bytes) in &CAPTURES {
        let fails = Vec::new(alloc);
        let mut source = MemSource::new(Vec::from_slice(alloc, bytes)?, 7, fails);
        let header = read_header(&mut source)?;
        let expected = Header {
            big: *big,
            nanos: *nanos,
            zone: 1,
            sigfigs: 2,
            snaplen: 64,
            link: 3,
        };
        assert_eq!(rt; header, expected);
        let mut place = Place { at: 24, records: 0 };
        let mut store = FreshSegs::new(alloc);
        let record = read_record(alloc, &mut source, &header, &mut place, &mut store)?;
        assert_eq!(rt; (record.sec, record.frac, record.orig), (5, 6, 9));
        assert!(rt; record.packet.len() == 2);
        assert_eq!(rt; record.packet.piece(0, 2), b"pq".as_slice());
        assert_eq!(rt; place, Place { at: 42, records: 1 });
        let end = read_record(alloc, &mut source, &header, &mut place, &mut store);
        assert!(rt; matches!(end, Err(ReadStop::End)));

        let mut sink = MemSink::new(alloc, 42, Vec::new(alloc))?;
        write_header(&mut sink, &header)?;
        write_record(&mut sink, &header, &record)?;
        assert_eq!(rt; sink.bytes(), bytes.as_slice());
    }
    Ok(())
}

fn read_two(alloc: Global, source: &mut MemSource) -> Result<Place, ReadStop> {
    let header = read_header(source)?;
    let mut place = Place { at: 24, records: 0 };
    let mut store = FreshSegs::new(alloc);
    read_record(alloc, source, &header, &mut place, &mut store)?;
    read_record(alloc, source, &header, &mut place, &mut store)?;
    Ok(place)
}

fn bad(at: u64, cause: CaptureCause) -> ReadStop {
    ReadStop::BadCapture { at, cause }
}

// Each case is the first capture above up to a length, with four bytes changed at a place.
#[test]
fn captures_are_refused(rt: HostRuntime) -> Result<(), Fail> {
    let alloc = rt.alloc();
    for (len, at, four, stop) in [
        (0, 0_usize, [0; 4], bad(0, CaptureCause::ShortHeader)),
        (23, 0, [0; 4], bad(0, CaptureCause::ShortHeader)),
        (
            42,
            0,
            [0xa1, 0xb2, 0xc3, 0xd5],
            bad(0, CaptureCause::BadMagic),
        ),
        (42, 4, [0, 2, 0, 3], bad(4, CaptureCause::BadVersion)),
        (42, 4, [0, 3, 0, 4], bad(4, CaptureCause::BadVersion)),
        (24, 20, [0; 4], ReadStop::End),
        (39, 20, [0; 4], bad(24, CaptureCause::ShortRecord)),
        (41, 20, [0; 4], bad(24, CaptureCause::ShortData)),
        (42, 32, [0, 0, 0, 1], bad(41, CaptureCause::ShortRecord)),
        (42, 32, [0, 4, 0, 0], bad(24, CaptureCause::ShortData)),
        (42, 32, [0, 4, 0, 1], ReadStop::TooLarge(262_145)),
        (42, 36, [0xff, 0xff, 0xff, 0xbf], ReadStop::End),
        (
            42,
            36,
            [0xff, 0xff, 0xff, 0xc0],
            ReadStop::TooLarge(4_294_967_232),
        ),
    ] {
        let mut bytes = Vec::from_slice(alloc, &CAPTURES[0].2)?;
        bytes
            .as_mut_slice()
            .get_mut(at..at.saturating_add(4))
            .ok_or("place")?
            .copy_from_slice(&four);
        bytes.truncate(len);
        let mut source = MemSource::new(bytes, 7, Vec::new(alloc));
        let read = read_two(alloc, &mut source);
        assert_eq!(rt; read, Err(stop), "{len} bytes with {four:?} at {at}");
    }
    Ok(())
}

// A record that tells this captured length, behind which so many bytes stand.
fn record_bytes(alloc: Global, captured: u32, present: u32) -> Result<Vec<u8>, Fail> {
    let mut bytes = Vec::from_slice(alloc, &[0, 0, 0, 5, 0, 0, 0, 6])?;
    bytes.extend_from_slice(&captured.to_be_bytes())?;
    bytes.extend_from_slice(&[0, 0, 0xff, 0xff])?;
    for i in 0..present {
        bytes.push((i % 251) as u8)?;
    }
    Ok(bytes)
}

const HEADER: Header = Header {
    big: true,
    nanos: false,
    zone: 0,
    sigfigs: 0,
    snaplen: 65_535,
    link: 1,
};

#[test]
fn all_segments_but_the_last_are_full(rt: HostRuntime) -> Result<(), Fail> {
    let alloc = rt.alloc();
    for (len, segs) in [(0, 1), (1, 1), (2047, 1), (2048, 1), (2049, 2), (4096, 2)] {
        let bytes = record_bytes(alloc, len, len)?;
        let mut source = MemSource::new(Vec::from_slice(alloc, &bytes)?, 700, Vec::new(alloc));
        let mut place = Place { at: 24, records: 0 };
        let mut store = FreshSegs::new(alloc);
        let record = read_record(alloc, &mut source, &HEADER, &mut place, &mut store)?;
        assert_eq!(rt; record.packet.seg_count(), segs, "{len} bytes");
        let mut sink = MemSink::new(alloc, 5000, Vec::new(alloc))?;
        write_record(&mut sink, &HEADER, &record)?;
        assert_eq!(rt; sink.bytes(), bytes.as_slice(), "{len} bytes");
    }
    Ok(())
}

#[test]
fn a_packet_of_262_208_bytes_has_129_segments(rt: HostRuntime) -> Result<(), Fail> {
    let alloc = rt.alloc();
    let bytes = record_bytes(alloc, 262_144, 262_144)?;
    let mut source = MemSource::new(bytes, 65_536, Vec::new(alloc));
    let mut place = Place { at: 24, records: 0 };
    let mut store = FreshSegs::new(alloc);
    let mut packet = read_record(alloc, &mut source, &HEADER, &mut place, &mut store)?.packet;
    assert_eq!(rt; (packet.len(), packet.seg_count()), (262_144, 128));
    let mut seg = Seg::new(alloc, 0)?;
    seg.set(0, 64);
    packet.add_seg(seg).ok().ok_or("not added")?;
    assert_eq!(rt; (packet.len(), packet.seg_count()), (262_208, 129));
    Ok(())
}

// Gives so many segments, and counts those given and taken back.
#[derive(Drop)]
struct CountedSegs {
    segs: FreshSegs,
    room: u32,
    given: u32,
    back: u32,
}

impl SegStore for CountedSegs {
    ghost endless = { Unit {0} };

    fn take(&mut self) -> Result<Seg, NoSeg> {
        if self.given == self.room {
            return Err(NoSeg::OutOfMemory);
        }
        self.given = self.given.saturating_add(1);
        self.segs.take()
    }

    fn give(&mut self, seg: Seg)
        requires { IsEmptied seg }
    {
        self.back = self.back.saturating_add(1);
        self.segs.give(seg);
    }
}

// Each case is a record of a captured length and the bytes behind it, a read of the source that fails,
// how many segments there are, and how many were taken and came back.
#[test]
fn segments_come_back_at_a_stop(rt: HostRuntime) -> Result<(), Fail> {
    let alloc = rt.alloc();
    for (captured, present, fail, room, stop, segs) in [
        (6000, 5000, 9, 9, bad(24, CaptureCause::ShortData), 3),
        (6000, 2048, 9, 9, bad(24, CaptureCause::ShortData), 2),
        (6000, 6000, 3, 9, ReadStop::Fault, 3),
        (6000, 6000, 9, 2, ReadStop::OutOfMemory, 2),
        (262_145, 6000, 9, 9, ReadStop::TooLarge(262_145), 0),
    ] {
        let bytes = record_bytes(alloc, captured, present)?;
        let mut source = MemSource::new(bytes, 2048, Vec::from_slice(alloc, &[fail])?);
        let mut place = Place { at: 24, records: 0 };
        let mut store = CountedSegs {
            segs: FreshSegs::new(alloc),
            room,
            given: 0,
            back: 0,
        };
        let read = read_record(alloc, &mut source, &HEADER, &mut place, &mut store).err();
        assert_eq!(rt; read, Some(stop), "{present} of {captured} bytes");
        assert_eq!(rt;
            (store.given, store.back),
            (segs, segs),
            "{present} of {captured} bytes"
        );
    }
    Ok(())
}

#[test]
fn memory_fails_at_listed_calls_and_at_its_cap(rt: HostRuntime) -> Result<(), Fail> {
    let alloc = rt.alloc();
    let bytes = Vec::from_slice(alloc, b"abcdefghij")?;
    let mut source = MemSource::new(bytes, 7, Vec::from_slice(alloc, &[1])?);
    let mut buf = [0; 16];
    assert_eq!(rt; fill(&mut source, &mut buf), Err(ReadFault));
    assert_eq!(rt; &buf[..7], b"abcdefg".as_slice());
    assert_eq!(rt; fill(&mut source, &mut buf), Ok(3));
    assert_eq!(rt; &buf[..3], b"hij".as_slice());

    let mut sink = MemSink::new(alloc, 4, Vec::from_slice(alloc, &[1])?)?;
    assert_eq!(rt; write_all(&mut sink, b"ab"), Ok(()));
    assert_eq!(rt; write_all(&mut sink, b"cd"), Err(WriteFault));
    assert_eq!(rt; write_all(&mut sink, b"cdef"), Err(WriteFault));
    assert_eq!(rt; sink.flush(), Ok(()));
    assert_eq!(rt; sink.bytes(), b"abcd".as_slice());
    Ok(())
}

// Gives and takes a byte at a time, and fails once, after some calls.
#[derive(Drop)]
struct FailsOnce {
    bytes: Vec<u8>,
    before: Option<u32>,
}

impl FailsOnce {
    fn is_due(&mut self) -> bool {
        let due = self.before == Some(0);
        self.before = self.before.and_then(|calls| calls.checked_sub(1));
        due
    }
}

impl Read for FailsOnce {
    fn read(&mut self, buf: &mut [u8]) -> io::Result<usize> {
        if self.is_due() {
            return Err(io::ErrorKind::Other.into());
        }
        if self.bytes.is_empty() || buf.is_empty() {
            return Ok(0);
        }
        buf[0] = self.bytes.remove(0);
        Ok(1)
    }
}

impl Write for FailsOnce {
    fn write(&mut self, buf: &[u8]) -> io::Result<usize> {
        if self.is_due() {
            return Err(io::ErrorKind::Other.into());
        }
        let n = buf.len().min(1);
        self.bytes.extend_from_slice(&buf[..n])?;
        Ok(n)
    }

    fn flush(&mut self) -> io::Result<()> {
        if self.is_due() {
            return Err(io::ErrorKind::Other.into());
        }
        Ok(())
    }
}

#[test]
fn faults_of_std_are_told(rt: HostRuntime) -> Result<(), Fail> {
    let alloc = rt.alloc();
    let mut buf = [0; 8];
    assert_eq!(rt;
        fill(&mut StdSource::new(b"abc".as_slice()), &mut buf),
        Ok(3)
    );
    assert_eq!(rt; &buf[..3], b"abc".as_slice());

    let bytes = Vec::from_slice(alloc, &CAPTURES[0].2)?;
    let mut source = StdSource::new(FailsOnce {
        bytes,
        before: Some(30),
    });
    let header = read_header(&mut source)?;
    let mut place = Place { at: 24, records: 0 };
    let mut store = FreshSegs::new(alloc);
    let read = read_record(alloc, &mut source, &header, &mut place, &mut store).err();
    assert_eq!(rt; read, Some(ReadStop::Fault));
    assert_eq!(rt; fill(&mut source, &mut buf), Ok(8));

    let mut held = FailsOnce {
        bytes: Vec::new(alloc),
        before: Some(3),
    };
    let mut sink = StdSink::new(&mut held);
    assert_eq!(rt; write_all(&mut sink, b"abc"), Ok(()));
    assert_eq!(rt; sink.flush(), Err(WriteFault));
    assert_eq!(rt; sink.flush(), Ok(()));
    assert_eq!(rt; held.bytes.as_slice(), b"abc".as_slice());

    let mut room = [0; 2];
    let mut sink = StdSink::new(room.as_mut_slice());
    assert_eq!(rt; write_all(&mut sink, b"abc"), Err(WriteFault));
    assert_eq!(rt; room, *b"ab");
    Ok(())
}

// So many bytes, of which those at a distance of 4,096 differ.
fn text_of(alloc: Global, len: u32) -> Result<Vec<u8>, Fail> {
    let mut text = Vec::new(alloc);
    for i in 0..len {
        text.push((i % 251) as u8)?;
    }
    Ok(text)
}

// Each case is a text's length, a limit, and whether the text is read.
#[test]
fn texts_are_read_up_to_a_limit(rt: HostRuntime) -> Result<(), Fail> {
    let alloc = rt.alloc();
    for (len, limit, fits) in [
        (0, 0, true),
        (0, 1, true),
        (0, 9000, true),
        (1, 0, false),
        (1, 1, true),
        (2, 1, false),
        (4095, 4096, true),
        (4096, 4095, false),
        (4096, 4096, true),
        (4097, 4096, false),
        (4097, 4097, true),
        (9000, 0, false),
        (9000, 8999, false),
        (9000, 9000, true),
        (9000, usize::MAX, true),
    ] {
        for piece in [1, 5000] {
            let expected = if fits {
                Ok(text_of(alloc, len)?)
            } else {
                Err(TextStop::TooLarge)
            };
            let mut source = MemSource::new(text_of(alloc, len)?, piece, Vec::new(alloc));
            let read = read_text(alloc, &mut source, limit);
            assert_eq!(rt; read, expected, "{len} of {limit} bytes, {piece} at a time");
        }
    }
    Ok(())
}

// Each case is a limit, a read that fails, why the text of 12 bytes is not read, and how many bytes are
// left then. A read gives 5 bytes.
#[test]
fn the_rest_is_left_at_a_stop(rt: HostRuntime) -> Result<(), Fail> {
    let alloc = rt.alloc();
    let mut buf = [0; 64];
    for (limit, fail, stop, left) in [
        (20, 0, TextStop::Fault, 12),
        (20, 2, TextStop::Fault, 2),
        (20, 3, TextStop::Fault, 0),
        (12, 3, TextStop::Fault, 0),
        (7, 1, TextStop::Fault, 7),
        (7, 9, TextStop::TooLarge, 4),
        (0, 9, TextStop::TooLarge, 11),
    ] {
        let fails = Vec::from_slice(alloc, &[fail])?;
        let mut source = MemSource::new(text_of(alloc, 12)?, 5, fails);
        let read = read_text(alloc, &mut source, limit);
        assert_eq!(rt; read, Err(stop), "read {fail} fails");
        assert_eq!(rt; fill(&mut source, &mut buf), Ok(left), "read {fail} fails");
    }

    let mut source = StdSource::new(FailsOnce {
        bytes: text_of(alloc, 12)?,
        before: Some(7),
    });
    assert_eq!(rt; read_text(alloc, &mut source, 20), Err(TextStop::Fault));
    let rest = read_text(alloc, &mut source, 5)?;
    assert_eq!(rt; rest.as_slice(), [7, 8, 9, 10, 11].as_slice());
    Ok(())
}

fn sent<T: Send>(value: T) -> T {
    value
}

#[test]
fn what_is_kept_of_a_record_can_be_sent(rt: HostRuntime) -> Result<(), Fail> {
    let alloc = rt.alloc();
    let mut source = sent(MemSource::new(
        Vec::from_slice(alloc, &CAPTURES[0].2)?,
        7,
        Vec::new(alloc),
    ));
    let header = sent(read_header(&mut source)?);
    let mut place = Place { at: 24, records: 0 };
    let mut store = FreshSegs::new(alloc);
    let record = read_record(alloc, &mut source, &header, &mut place, &mut store)?;
    assert_eq!(rt; sent(record).orig, 9);
    assert_eq!(rt; sent(place).records, 1);
    Ok(())
}
