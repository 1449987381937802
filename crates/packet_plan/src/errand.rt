//! One record on its way to a session, and back.
ghost use Rattle.std.specs.Prelude.{◌≡◌, ◌≤◌, ◌+◌, ◌++◌, false, IsTrue, IfOk, length, take, replicate};
ghost use Rattle.mbuf_chain.specs.Chain.{packet_of};
ghost use Rattle.crypto_op.specs.Op.{IsFresh};
ghost use Rattle.capture_io.specs.Capture.{view};
ghost use Rattle.capture_io.specs.Limits.{IsSmall};
ghost use Rattle.packet_plan.specs.declared.written.Fate.TheVariants.{Worked};
ghost use Rattle.packet_plan.specs.Asked.{is_too_short, room_for};
ghost use Rattle.packet_plan.specs.Answered.{written_orig};
ghost use Rattle.packet_plan.specs.Work.{written_view};
ghost use Rattle.packet_plan.specs.Ready.{IsBegunBy, spec_by};

use crate::room::with_room;
use crate::session_way::SessionWay;
use crate::way::Way;
use crate::written::{Fate, Kept, Work, Written};
use capture_io::{MAX_CAPTURED, Record};
use crypto_model::{OutOfMemory, SessId, Status};
use crypto_op::{Card, Op};
use mbuf_chain::{Mbuf, SegStore};
use std::alloc::Global;
use std::snapshot::Snapshot;

/// A session that was chosen for a packet.
#[derive(Clone, Copy, Debug, PartialEq, Eq)]
pub(crate) struct Errand {
    pub(crate) session: SessId,
    /// How many of the packet's first bytes are left as they are.
    pub(crate) skip: u32,
    pub(crate) card: Card,
    /// The operation's number.
    pub(crate) pos: u64,
}

// The operation for a packet that is long enough.
fn operation<P: SegStore>(
    alloc: Global,
    store: &mut P,
    way: &SessionWay,
    errand: Errand,
    packet: Mbuf,
) -> Result<Op<Card>, OutOfMemory>
    requires endless { P.endless }
    requires long { is_too_short way.now.way errand.skip (length (packet_of packet)) ≡ false }
    requires captured { length (packet_of packet) ≤ MAX_CAPTURED }
    requires segments { length packet ≤ 129 }
    requires digest { way.now.way.digest_len ≤ 64 }
    requires aad { IsTrue way.now.way.aead → errand.skip ≤ 255 }
    ensures fresh { IfOk result IsFresh }
    ensures spec { IfOk result (λ op. op.spec ≡ spec_by way.now errand (packet_of packet)) }
    ensures packet { IfOk result (λ op. packet_of op.chain ≡ packet_of packet ++ replicate (room_for way.now.way) 0) }
    ensures cargo { IfOk result (λ op. op.cargo ≡ errand.card) }
{
    let spec = way.spec(alloc, errand, &packet)?;
    let packet = with_room(store, packet, way.way.room())?;
    Ok(Op::new(spec, packet, errand.card))
}

/// Begins a record for which a session is chosen.
pub(crate) fn begun<P: SegStore>(
    alloc: Global,
    store: &mut P,
    way: &SessionWay,
    errand: Errand,
    rec: Record,
) -> Result<Work, OutOfMemory>
    requires endless { P.endless }
    requires small { IsSmall rec }
    requires digest { way.now.way.digest_len ≤ 64 }
    requires aad { IsTrue way.now.way.aead → errand.skip ≤ 255 }
    ensures { IfOk result (IsBegunBy way.now errand (view rec)) }
{
    let len = rec.packet.len();
    if way.way.is_short(errand.skip, len) {
        return Ok(Work::Ready(Written {
            rec,
            fate: Fate::Short,
        }));
    }
    let kept = Kept {
        sec: rec.sec,
        frac: rec.frac,
        orig: rec.orig,
        len,
        read: Snapshot::of(&rec.packet),
    };
    let op = operation(alloc, store, way, errand, rec.packet)?;
    Ok(Work::Needs(kept, op))
}

/// The record that is written, where the operation on its packet came to this status.
pub(crate) fn written(way: Way, kept: &Kept, status: Status, packet: Mbuf) -> Written
    requires digest { way.digest_len ≤ 64 }
    requires whole { length (packet_of packet) ≡ kept.now.len + room_for way }
    ensures { written_view result ≡ record {
      rec = record {
        sec = kept.now.sec;
        frac = kept.now.frac;
        orig = written_orig status way kept.now.orig;
        packet = take (written_orig status way kept.now.len) (packet_of packet);
      };
      fate = Worked status;
    } }
{
    let orig = way.written(status, kept.orig as usize) as u32;
    let mut packet = packet;
    packet.truncate(way.written(status, kept.len));
    Written {
        rec: Record {
            sec: kept.sec,
            frac: kept.frac,
            orig,
            packet,
        },
        fate: Fate::Worked(status),
    }
}
