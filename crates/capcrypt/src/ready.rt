//! Devices that are made ready for a plan.
ghost use Rattle.std.specs.Prelude.{◌≡◌, ◌≤◌, ℕ, [], length, vec_len, drop, IfOk, OnOk, OnErr};
ghost use Rattle.std.specs.Arc.{arc_value};
ghost use Rattle.dev_core.specs.Stats.{no_stats};
ghost use Rattle.session_file.specs.declared.plan.Plan.{Plan};
ghost use Rattle.packet_plan.specs.Asked.{sessions_of};
ghost use Rattle.sched_modes.specs.Running.{AreIdle};
ghost use Rattle.capcrypt.specs.Devices.{device_now};
ghost use Rattle.capcrypt.specs.Served.{WereSetUp, WasSetUp};

use crypto_model::OutOfMemory;
use crypto_op::Card;
use dev_core::{Device, Kind, SetUpRefused};
use packet_plan::ReadyPlan;
use sched_core::SchedText;
use std::alloc::Global;
use std::sync::Arc;
use sym_session::SessionTable;

const DEPTH: usize = 128;

/// The sessions of a plan, for all devices that are used.
pub(crate) fn table_of(alloc: Global, plan: &ReadyPlan) -> Result<Arc<SessionTable>, OutOfMemory>
    ensures { IfOk result (λ t. arc_value t ≡ sessions_of plan.now) }
{
    let table = plan.table(alloc)?;
    Ok(Arc::new(alloc, table)?)
}

/// Sets a device up with the sessions of a plan.
pub(crate) fn set_up<D: Device<Card>>(
    alloc: Global,
    kind: Kind,
    sessions: &Arc<SessionTable>,
    dev: &mut D,
) -> Result<(), OutOfMemory>
    requires idle { D.held dev.old ≡ [] }
    ensures ready { let now = device_now D.limit D.sessions D.held D.room D.stalls D.stats D.log
        in OnOk result ((plan : Plan) → arc_value sessions.now ≡ sessions_of plan → WasSetUp plan (now dev.old) (now dev.new)) }
    ensures sessions { OnOk result (D.sessions dev.new ≡ arc_value sessions.now) }
    ensures stats { OnOk result (D.stats dev.new ≡ no_stats) }
    ensures unused { OnErr result (dev.new ≡ dev.old) }
{
    let sessions = sessions.clone()?;
    match dev.set_up(alloc, kind, sessions, DEPTH) {
        Ok(()) => Ok(()),
        Err(SetUpRefused::OutOfMemory) => Err(OutOfMemory),
        Err(SetUpRefused::BadDepth) => unreachable!(),
        Err(SetUpRefused::Busy) => unreachable!(),
    }
}

/// Sets the devices up that a scheduler's text names, each with its kind. The sessions come back. Where a device can't be set
/// up, those before it are, and the others are as they were.
pub(crate) fn set_up_each<D: Device<Card>>(
    alloc: Global,
    plan: &ReadyPlan,
    text: &SchedText,
    devs: &mut Vec<D>,
) -> Result<Arc<SessionTable>, OutOfMemory>
    requires most { text.now.workers ≤ 8 }
    requires enough { text.now.workers ≤ vec_len devs.old }
    requires idle { AreIdle D.Driver text.now.workers devs.old.items }
    ensures count { length devs.new.items ≡ length devs.old.items }
    ensures sessions { IfOk result (λ t. arc_value t ≡ sessions_of plan.now) }
    ensures ready { let now = device_now D.limit D.sessions D.held D.room D.stalls D.stats D.log
        in OnOk result (WereSetUp now plan.now text.now.workers devs.old.items devs.new.items) }
    ensures others { OnOk result (drop text.now.workers devs.new.items ≡ drop text.now.workers devs.old.items) }
    ensures some { let now = device_now D.limit D.sessions D.held D.room D.stalls D.stats D.log
        in OnErr result ((n : ℕ) × (n ≤ text.now.workers) × WereSetUp now plan.now n devs.old.items devs.new.items
        × (drop n devs.new.items ≡ drop n devs.old.items)) }
{
    let sessions = table_of(alloc, plan)?;
    for i in 0..text.workers {
        set_up(alloc, text.kinds[i], &sessions, &mut devs[i])?;
    }
    Ok(sessions)
}
