use crate::{AddRefused, FreshSegs, Mbuf, NoHeadroom, NoTailroom, SegStore, TooManySegs, TooShort};
use seg_list::Seg;
use std::alloc::Global;
use std::process::Abort;
use std::test::Fail;

// A packet of one segment of zeros.
fn zeros(alloc: Global, off: usize, len: usize) -> Result<Mbuf, Fail> {
    if 2048 < off || 2048 - off < len {
        return Err(Fail::from("not in a segment"));
    }
    let mut seg = Seg::new(alloc, off)?;
    seg.set(off, len);
    Ok(Mbuf::new(alloc, seg).ok().ok_or("no memory")?)
}

// A packet of so many segments.
fn segments(alloc: Global, count: usize) -> Result<Mbuf, Fail> {
    let mut packet = zeros(alloc, 0, 1)?;
    for _ in 1..count {
        packet.add_seg(Seg::new(alloc, 0)?).ok().ok_or("not added")?;
    }
    Ok(packet)
}

// Eight letters in segments of three, none and five.
fn letters(alloc: Global) -> Result<Mbuf, Fail> {
    let mut packet = zeros(alloc, 128, 3)?;
    packet.chain(zeros(alloc, 0, 0)?).ok().ok_or("too many")?;
    packet.chain(zeros(alloc, 10, 5)?).ok().ok_or("too many")?;
    if packet.len() != 8 {
        return Err(Fail::from("not eight bytes"));
    }
    packet.write_at(0, b"abcdefgh");
    Ok(packet)
}

// The packet has these bytes, 16 at most, in so many segments.
fn assert_packet(rt: &impl Abort, packet: &Mbuf, bytes: &[u8], segs: usize) {
    let mut got = [0; 16];
    assert!(rt; packet.len() == bytes.len());
    assert!(rt; bytes.len() <= 16);
    packet.read_at(0, &mut got[..bytes.len()]);
    assert_eq!(rt; (&got[..bytes.len()], packet.seg_count()), (bytes, segs));
}

#[test]
fn an_end_without_room_or_bytes_is_refused(rt: HostRuntime) -> Result<(), Fail> {
    let mut packet = zeros(rt.alloc(), 128, 100)?;
    assert_eq!(rt; packet.append(1821), Err(NoTailroom));
    assert_eq!(rt; packet.prepend(129), Err(NoHeadroom));
    assert_eq!(rt; packet.adj(101), Err(TooShort));
    assert_eq!(rt; packet.trim(101), Err(TooShort));
    assert_eq!(rt; (packet.len(), packet.seg_count()), (100, 1));
    assert_eq!(rt; packet.append(1820), Ok(()));
    assert_eq!(rt; packet.prepend(128), Ok(()));
    assert_eq!(rt; packet.len(), 2048);
    Ok(())
}

#[test]
fn a_257th_segment_is_refused(rt: HostRuntime) -> Result<(), Fail> {
    let alloc = rt.alloc();
    let mut packet = segments(alloc, 255)?;
    let Err(TooManySegs(back)) = packet.chain(segments(alloc, 2)?) else {
        return Err(Fail::from("257 segments"));
    };
    assert_eq!(rt; (packet.seg_count(), back.seg_count()), (255, 2));
    assert!(rt; packet.chain(segments(alloc, 1)?).is_ok());
    assert_eq!(rt; packet.seg_count(), 256);
    let Err(AddRefused::TooManySegs(seg)) = packet.add_seg(Seg::new(alloc, 7)?) else {
        return Err(Fail::from("257 segments"));
    };
    assert_eq!(rt; (packet.seg_count(), seg.off()), (256, 7));
    Ok(())
}

#[test]
fn each_end_grows_and_shrinks(rt: HostRuntime) -> Result<(), Fail> {
    let mut packet = letters(rt.alloc())?;
    packet.append(2)?;
    assert_packet(&rt, &packet, b"abcdefgh\0\0", 3);
    packet.prepend(1)?;
    assert_packet(&rt, &packet, b"\0abcdefgh\0\0", 3);
    packet.adj(2)?;
    assert_packet(&rt, &packet, b"bcdefgh\0\0", 3);
    packet.trim(3)?;
    assert_packet(&rt, &packet, b"bcdefg", 3);
    Ok(())
}

#[test]
fn truncate_drops_the_segments_that_are_not_needed(rt: HostRuntime) -> Result<(), Fail> {
    let mut packet = letters(rt.alloc())?;
    assert!(rt; packet.len() == 8);
    packet.truncate(4);
    assert_packet(&rt, &packet, b"abcd", 3);
    assert!(rt; packet.len() == 4);
    packet.truncate(3);
    assert_packet(&rt, &packet, b"abc", 1);
    assert!(rt; packet.len() == 3);
    assert!(rt; !packet.is_empty());
    packet.truncate(0);
    assert_packet(&rt, &packet, b"", 1);
    assert!(rt; packet.is_empty());
    Ok(())
}

#[test]
fn a_range_is_written_over_segments(rt: HostRuntime) -> Result<(), Fail> {
    let mut packet = letters(rt.alloc())?;
    assert!(rt; packet.len() == 8);
    packet.write_at(2, b"XYZ");
    assert_packet(&rt, &packet, b"abXYZfgh", 3);
    let mut got = [0; 4];
    assert!(rt; packet.len() == 8);
    packet.read_at(1, &mut got);
    assert_eq!(rt; got.as_slice(), b"bXYZ".as_slice());
    Ok(())
}

#[test]
fn a_piece_ends_with_its_segment(rt: HostRuntime) -> Result<(), Fail> {
    let mut packet = letters(rt.alloc())?;
    assert!(rt; packet.len() == 8);
    for (off, len, piece) in [
        (1, 7, b"bc".as_slice()),
        (2, 1, b"c".as_slice()),
        (3, 5, b"defgh".as_slice()),
        (4, 2, b"ef".as_slice()),
    ] {
        assert_eq!(rt; packet.piece(off, len), piece, "{len} from {off}");
    }
    let piece = packet.piece_mut(1, 7);
    assert!(rt; piece.len() == 2);
    piece.copy_from_slice(b"XY");
    assert_packet(&rt, &packet, b"aXYdefgh", 3);
    Ok(())
}

fn sent<T: Send>(value: T) -> T {
    value
}

#[test]
fn packets_and_stores_can_be_sent(rt: HostRuntime) -> Result<(), Fail> {
    assert_eq!(rt; sent(letters(rt.alloc())?).seg_count(), 3);
    assert!(rt; sent(FreshSegs::new(rt.alloc())).take().is_ok());
    Ok(())
}

#[test]
fn a_fresh_segment_is_empty(rt: HostRuntime) -> Result<(), Fail> {
    let mut store = FreshSegs::new(rt.alloc());
    let seg = store.take()?;
    assert_eq!(rt; (seg.off(), seg.len()), (0, 0));
    store.give(seg);
    Ok(())
}
