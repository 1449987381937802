//! What is made ready of a session, once.
ghost use Rattle.std.specs.Prelude.{◌≡◌, ◌≤◌, ◌<◌, ◌^◌, IsTrue, IfOk, length, map};
ghost use Rattle.std.specs.List.{All};
ghost use Rattle.mbuf_chain.specs.Chain.{packet_of};

use crate::errand::Errand;
use crate::iv::IvRule;
use crate::room::leading;
use crate::way::Way;
use crypto_model::OutOfMemory;
use crypto_op::{Aad, OpSpec};
use mbuf_chain::Mbuf;
use session_file::Named;
use std::alloc::Global;

/// What the packets of a session need, so that no packet expands a key.
#[derive(Drop)]
pub(crate) struct SessionWay {
    pub(crate) way: Way,
    pub(crate) iv: IvRule,
}

impl SessionWay {
    ghost use Rattle.packet_plan.specs.Ready.{IsUsable, ready_of, spec_by};

    fn of(session: &Named) -> SessionWay
        requires { IsUsable session.now }
        ensures { result ≡ ready_of session.now }
    {
        let xforms = session.xforms.items();
        SessionWay {
            way: Way::of(xforms),
            iv: IvRule::of(xforms, session.salt.items()),
        }
    }

    pub(crate) fn all_of(alloc: Global, sessions: &[Named]) -> Result<Vec<SessionWay>, OutOfMemory>
        requires { All IsUsable sessions.now }
        ensures { IfOk result (λ ways. ways.items ≡ map ready_of sessions.now) }
    {
        let mut ways = Vec::with_capacity(alloc, sessions.len())?;
        for session in sessions {
            ways.push(SessionWay::of(session))?;
        }
        Ok(ways)
    }

    /// What is asked for of a packet.
    pub(crate) fn spec(
        &self,
        alloc: Global,
        errand: Errand,
        packet: &Mbuf,
    ) -> Result<OpSpec, OutOfMemory>
        requires within { errand.skip ≤ length (packet_of packet.now) }
        requires small { length (packet_of packet.now) < 2 ^ 32 }
        requires aad { IsTrue self.now.way.aead → errand.skip ≤ 255 }
        ensures { IfOk result (λ spec. spec ≡ spec_by self.now errand (packet_of packet.now)) }
    {
        let way = self.way;
        let len = packet.len();
        let aad = if way.aead {
            leading(alloc, packet, errand.skip as usize)?
        } else {
            Aad::empty(alloc)
        };
        Ok(OpSpec {
            session: errand.session,
            iv: self.iv.iv(errand.card.packet),
            aad,
            cipher: way.data_range(errand.skip, len),
            auth: way.code_range(len),
            place: way.digest_place(len),
            digest: [0; 64],
            pos: errand.pos,
        })
    }
}
