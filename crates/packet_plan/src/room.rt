//! What is read at a packet's front, and the room that is made behind it.
ghost use Rattle.std.specs.Prelude.{◌≡◌, ◌<◌, ◌≤◌, ◌++◌, length, take, replicate, IfOk};
ghost use Rattle.mbuf_chain.specs.Chain.{packet_of};

use crypto_model::OutOfMemory;
use crypto_op::Aad;
use mbuf_chain::{AddRefused, Mbuf, NoTailroom, SegStore, give_seg, take_seg};
use std::alloc::Global;

/// The packet's first `n` bytes.
pub(crate) fn leading(alloc: Global, packet: &Mbuf, n: usize) -> Result<Aad, OutOfMemory>
    requires within { n ≤ length (packet_of packet.now) }
    requires short { n ≤ 255 }
    ensures { IfOk result (λ aad. aad ≡ take n (packet_of packet.now)) }
{
    let mut bytes = [0; 255];
    packet.read_at(0, &mut bytes[..n]);
    Aad::copy(alloc, &bytes[..n])
}

/// The packet with `n` zeros behind it, in a segment of the store where the last one has too little room.
pub(crate) fn with_room<P: SegStore>(
    store: &mut P,
    packet: Mbuf,
    n: usize,
) -> Result<Mbuf, OutOfMemory>
    requires endless { P.endless }
    requires segments { length packet < 256 }
    requires few { n ≤ 2048 }
    ensures { IfOk result (λ m. packet_of m ≡ packet_of packet ++ replicate n 0) }
{
    let mut packet = packet;
    let Err(NoTailroom) = packet.append(n) else {
        return Ok(packet);
    };
    let seg = take_seg(store)?;
    let _whole = seg.off();
    match packet.add_seg(seg) {
        Ok(()) => {}
        Err(AddRefused::OutOfMemory(seg)) => {
            give_seg(store, seg);
            return Err(OutOfMemory);
        }
        Err(AddRefused::TooManySegs(_)) => unreachable!(),
    }
    match packet.append(n) {
        Ok(()) => Ok(packet),
        Err(NoTailroom) => unreachable!(),
    }
}
