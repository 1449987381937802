//! A plan that is ready to work.
ghost use Rattle.std.specs.Prelude.{◌≡◌, ◌≤◌, None, IfOk, length, map};
ghost use Rattle.std.specs.List.{All};
ghost use Rattle.sym_session.specs.Fault.{fault_of};
ghost use Rattle.sym_session.specs.Xform.{transform_of};
ghost use Rattle.crypto_op.specs.Op.{IsDone, made, input_of};
ghost use Rattle.capture_io.specs.Capture.{view};
ghost use Rattle.capture_io.specs.Limits.{IsSmall};
ghost use Rattle.session_file.specs.Sound.{IsSound};
ghost use Rattle.mbuf_chain.specs.Chain.{packet_of};
ghost use Rattle.packet_plan.specs.Asked.{Works, asked, lets_pass, sessions_of, transforms_of};
ghost use Rattle.packet_plan.specs.Answered.{answered};
ghost use Rattle.packet_plan.specs.Work.{IsBegun, kept_rec, written_view};
ghost use Rattle.packet_plan.specs.Ready.{IsUsable};

use crate::choice::choose;
use crate::errand::{Errand, begun, written};
use crate::session_way::SessionWay;
use crate::written::{Fate, Kept, Work, Written};
use capture_io::Record;
use crypto_model::OutOfMemory;
use crypto_op::{Card, Op};
use mbuf_chain::{Mbuf, SegStore};
use session_file::{Choice, Named, Plan};
use std::alloc::Global;
use std::marker::Model;
use sym_session::{MakeRefused, Session, SessionTable, Xform};

/// A plan with what its sessions need to make operations, which contracts see as the plan.
#[derive(Drop)]
pub struct ReadyPlan {
    plan: Plan,
    ways: Vec<SessionWay>,
}

impl Model for ReadyPlan {
    ghost use Rattle.session_file.specs.declared.plan.Plan.{Plan};
    ghost use Rattle.packet_plan.specs.Ready.{IsReady};

    ghost Value = { Plan };

    ghost view = { λ p. p.plan };

    ghost invariant = { λ p. IsReady p.plan p.ways.items };
}

// A session of transforms that make one.
fn session_of(alloc: Global, xforms: &[Xform]) -> Result<Session, OutOfMemory>
    requires { fault_of (map transform_of xforms.now) ≡ None }
    ensures { IfOk result (λ s. s ≡ map transform_of xforms.now) }
{
    match Session::make(alloc, xforms) {
        Ok(session) => Ok(session),
        Err(MakeRefused::OutOfMemory) => Err(OutOfMemory),
        Err(_) => unreachable!(),
    }
}

fn table_of(alloc: Global, sessions: &[Named]) -> Result<SessionTable, OutOfMemory>
    requires usable { All IsUsable sessions.now }
    requires few { length sessions.now ≤ 1024 }
    ensures { IfOk result (λ t. t ≡ map transforms_of sessions.now) }
{
    let mut table = SessionTable::new(alloc)?;
    for named in sessions {
        match table.add(session_of(alloc, named.xforms.items())?) {
            Ok(_) => {}
            Err(_) => unreachable!(),
        }
    }
    Ok(table)
}

impl ReadyPlan {
    /// The plan is dropped where memory is wanting.
    pub fn new(alloc: Global, plan: Plan) -> Result<ReadyPlan, OutOfMemory>
        requires sound { IsSound plan }
        ensures { IfOk result (λ p. p ≡ plan) }
    {
        let ways = SessionWay::all_of(alloc, plan.sessions.items())?;
        Ok(ReadyPlan { plan, ways })
    }

    /// The table of the plan's sessions, with their keys ready.
    pub fn table(&self, alloc: Global) -> Result<SessionTable, OutOfMemory>
        ensures { IfOk result (λ t. t ≡ sessions_of self.now) }
    {
        table_of(alloc, self.plan.sessions.items())
    }

    /// Whether the plan chooses no session for this packet, so that it is written as it was read.
    pub fn lets_pass(&self, packet: &Mbuf) -> bool
        ensures { result ≡ lets_pass self.now (packet_of packet.now) }
    {
        let chosen = choose(self.plan.rules.items(), self.plan.otherwise, packet);
        matches!(chosen.choice, Choice::Pass)
    }

    /// Begins record `n`. Where the plan chooses a session and the packet is long enough, this makes an
    /// operation, which gets the number `pos`. A segment that is appended for its digest comes from `store`. The record
    /// is dropped where memory is wanting.
    pub fn begin<P: SegStore>(
        &self,
        alloc: Global,
        store: &mut P,
        n: u32,
        pos: u64,
        rec: Record,
    ) -> Result<Work, OutOfMemory>
        requires endless { P.endless }
        requires small { IsSmall rec }
        ensures { IfOk result (IsBegun self.now n pos (view rec)) }
    {
        let chosen = choose(self.plan.rules.items(), self.plan.otherwise, &rec.packet);
        match chosen.choice {
            Choice::Pass => Ok(Work::Ready(Written {
                rec,
                fate: Fate::Passed,
            })),
            Choice::Use { session, skip } => {
                let card = Card {
                    packet: n,
                    flow: chosen.flow,
                };
                let errand = Errand {
                    session,
                    skip,
                    card,
                    pos,
                };
                begun(alloc, store, &self.ways[session.0 as usize], errand, rec)
            }
        }
    }

    /// The record that is written for an answered operation.
    pub fn finish(&self, kept: &Kept, op: Op<Card>) -> Written
        requires done { IsDone (sessions_of self.now) op }
        requires asked { asked self.now op.cargo.packet (kept_rec kept.now).packet ≡ Works op.cargo (input_of (made op)) }
        ensures { written_view result ≡ answered self.now op.cargo.packet (kept_rec kept.now) }
    {
        let way = self.ways[op.spec().session.0 as usize].way;
        let (_spec, status, packet, _card) = op.into_parts();
        written(way, kept, status, packet)
    }
}
