use crate::{Aad, Card, Iv, Op, OpBurst, OpSpec};
use crypto_model::{DigestPlace, Range, SessId, Status};
use mbuf_chain::Mbuf;
use seg_list::Seg;
use std::alloc::Global;
use std::test::Fail;

// An operation on a packet of one segment of zeros.
fn operation(alloc: Global, pos: u64, len: usize) -> Result<Op<Card>, Fail> {
    if 2048 < len {
        return Err(Fail::from("not in a segment"));
    }
    let mut seg = Seg::new(alloc, 0)?;
    seg.set(0, len);
    let spec = OpSpec {
        session: SessId(0),
        iv: Iv::copy(b"sixteen bytes iv"),
        aad: Aad::copy(alloc, b"header")?,
        cipher: Range { off: 1, len: 2 },
        auth: Range { off: 0, len: 7 },
        place: DigestPlace::Nowhere,
        digest: [0; 64],
        pos,
    };
    let chain = Mbuf::new(alloc, seg).ok().ok_or("no memory")?;
    Ok(Op::new(spec, chain, Card { packet: 5, flow: 0 }))
}

#[test]
fn an_operation_is_changed_and_taken_apart(rt: HostRuntime) -> Result<(), Fail> {
    let alloc = rt.alloc();
    let mut op = operation(alloc, 5, 3)?;
    assert_eq!(rt; (op.data_len(), op.status()), (2, Status::NotProcessed));
    assert_eq!(rt; op.spec().aad.bytes(), b"header".as_slice());
    if op.chain().len() == 3 {
        op.chain_mut().write_at(1, b"x");
    }
    op.set_status(Status::Success);
    op.set_digest([7; 64]);
    let (op, card) = op.with_cargo(9);
    assert_eq!(rt; (card.packet, *op.cargo()), (5, 9));
    let (spec, status, chain, _) = op.into_parts();
    assert_eq!(rt;
        (spec.pos, spec.digest[63], status),
        (5, 7, Status::Success)
    );
    assert!(rt; chain.len() == 3);
    assert_eq!(rt; chain.piece(0, 3), b"\0x\0".as_slice());
    assert!(rt; Aad::empty(alloc).bytes().is_empty());
    Ok(())
}

#[test]
fn a_burst_gives_operations_in_their_order(rt: HostRuntime) -> Result<(), Fail> {
    let alloc = rt.alloc();
    let mut burst = OpBurst::new(alloc, 2)?;
    burst.push(operation(alloc, 5, 0)?);
    burst.push(operation(alloc, 6, 0)?);
    assert_eq!(rt; (burst.len(), burst.room()), (2, 0));
    burst.set_pos(1, 8);
    assert_eq!(rt; burst.get(1).spec().pos, 8);
    assert_eq!(rt; burst.pop().ok_or("no operation")?.spec().pos, 5);
    assert_eq!(rt; burst.pop().ok_or("no operation")?.spec().pos, 8);
    assert!(rt; burst.pop().is_none());
    assert!(rt; burst.is_empty());
    Ok(())
}

#[test]
fn the_largest_burst_and_the_longest_data_find_memory(rt: HostRuntime) -> Result<(), Fail> {
    let alloc = rt.alloc();
    let burst: OpBurst<Card> = OpBurst::new(alloc, 4096)?;
    assert_eq!(rt; (burst.len(), burst.room()), (0, 4096));
    let bytes = [0xa5; 255];
    assert_eq!(rt; Aad::copy(alloc, &bytes)?.bytes(), bytes.as_slice());
    Ok(())
}

fn sent<T: Send>(value: T) -> T {
    value
}

#[test]
fn operations_and_bursts_can_be_sent(rt: HostRuntime) -> Result<(), Fail> {
    let alloc = rt.alloc();
    assert_eq!(rt; sent(operation(alloc, 5, 3)?).data_len(), 2);
    let burst: OpBurst<Card> = sent(OpBurst::new(alloc, 1)?);
    assert_eq!(rt; burst.room(), 1);
    Ok(())
}
