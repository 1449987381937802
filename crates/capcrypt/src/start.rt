//! What the words and the session source ask for.
ghost use Rattle.std.specs.Prelude.{◌≡◌, ◌<◌, ◌≤◌, ◌^◌, ℕ, length, map, string_bytes, Some, Err, IfOk, IfErr};
ghost use Rattle.crypto_model.specs.Counts.{Rose};
ghost use Rattle.session_file.specs.Sound.{IsSound};
ghost use Rattle.command_words.specs.Asked.{wanted};
ghost use Rattle.capcrypt.specs.declared.dealing.Dealing.{Dealing};
ghost use Rattle.capcrypt.specs.Dealing.{workers_of};
ghost use Rattle.capcrypt.specs.Start.{Begins, CanStart, LeavesSessions, Stops, burst_asked, settings_of, start_by, start_with, started, stated_sessions, workers_asked};
ghost use Rattle.session_file.specs.Plan.{plan_of};
ghost use Rattle.capcrypt.specs.Place.{OfHanded, generated_in};
ghost use Rattle.capcrypt.specs.Ran.{IsDecided};

use crate::dealing::Dealing;
use crate::ending::Ending;
use capture_io::{Source, TextStop, read_text};
use command_words::{Command, Gen, WordsRefused, command_of};
use crypto_model::OutOfMemory;
use dev_core::Kind;
use packet_plan::{ReadyPlan, quick_plan};
use sched_core::{Mode, SchedText};
use session_file::{ParseRefused, Plan, parse};
use std::alloc::Global;

const MAX_TEXT: usize = 1_048_576;

// What a generated capture is sealed by: the same on each machine.
const STATED_SESSIONS: &[u8] =
    b"capcrypt 1\nsession a gcm encrypt 000102030405060708090a0b0c0d0e0f 00000001 16 14\nsession b ctr encrypt 101112131415161718191a1b1c1d1e1f 00000002 + hmac-sha256 generate 202122232425262728292a2b2c2d2e2f 16\nrule 23 11 a 14\ndefault b 14\n";

const STATED_SCHEDULER: SchedText = SchedText {
    mode: Mode::RoundRobin,
    kinds: [Kind::Plain; 8],
    workers: 2,
    ordering: true,
    threshold: 128,
};

const STATED_BURST: usize = 32;

/// A plan, how many operations make a burst, who deals them, and the capture that is generated.
#[derive(Drop)]
pub(crate) struct Task {
    pub(crate) plan: ReadyPlan,
    pub(crate) burst: usize,
    pub(crate) dealing: Dealing,
    pub(crate) generated: Option<Gen>,
}

// The plan of the session source.
fn plan_in<T: Source>(alloc: Global, sessions: &mut T) -> Result<Plan, Ending>
    ensures plan { T.tells
        → IfOk result (λ plan. (dealing : Dealing) (burst : ℕ)
        → start_with dealing burst (T.left sessions.old) ≡ Begins (record { plan = plan; burst = burst; dealing = dealing })) }
    ensures sound { IfOk result IsSound }
    ensures stops { T.tells → IfErr result (λ e. IsDecided e → (dealing : Dealing) (burst : ℕ) → start_with dealing burst (T.left sessions.old) ≡ Stops e) }
    ensures never { ¬ (result ≡ Err Ending.WriteFault) × ¬ (result ≡ Err Ending.Stalled) × ¬ (result ≡ Err Ending.Done) }
    ensures later { T.faults sessions.old ≤ T.faults sessions.new }
    ensures cause { result ≡ Err Ending.ReadFault → Rose (T.faults sessions.old) (T.faults sessions.new) }
{
    let text = match read_text(alloc, sessions, MAX_TEXT) {
        Ok(text) => text,
        Err(TextStop::Fault) => return Err(Ending::ReadFault),
        Err(TextStop::TooLarge) => return Err(Ending::TooLarge(MAX_TEXT as u64 + 1)),
        Err(TextStop::OutOfMemory) => return Err(Ending::Memory),
    };
    match parse(alloc, &text) {
        Ok(plan) => Ok(plan),
        Err(ParseRefused::Fault { line, kind }) => Err(Ending::Sessions { line, kind }),
        Err(ParseRefused::OutOfMemory) => Err(Ending::Memory),
    }
}

#[tactic(auto, unfolding(crate::specs::Start::stated_sessions))]
fn stated_sessions() -> &'static [u8]
    ensures text { result.now ≡ stated_sessions }
    ensures short { length result.now ≤ 2 ^ 20 }
{
    STATED_SESSIONS
}

// The plan of a generated capture.
fn stated_plan(alloc: Global) -> Result<Plan, Ending>
    ensures plan { IfOk result (λ plan. (dealing : Dealing) (burst : ℕ)
        → start_by dealing burst (plan_of stated_sessions) ≡ Begins (record { plan = plan; burst = burst; dealing = dealing })) }
    ensures sound { IfOk result IsSound }
    ensures stops { IfErr result (λ e. IsDecided e → (dealing : Dealing) (burst : ℕ) → start_by dealing burst (plan_of stated_sessions) ≡ Stops e) }
    ensures never { ¬ (result ≡ Err Ending.WriteFault) × ¬ (result ≡ Err Ending.Stalled) × ¬ (result ≡ Err Ending.Done) × ¬ (result ≡ Err Ending.ReadFault) }
{
    match parse(alloc, stated_sessions()) {
        Ok(plan) => Ok(plan),
        Err(ParseRefused::Fault { line, kind }) => Err(Ending::Sessions { line, kind }),
        Err(ParseRefused::OutOfMemory) => Err(Ending::Memory),
    }
}

/// What is to be done, or how the run ends before the capture is read. The session source is read where the words ask
/// for it.
pub(crate) fn begin<T: Source>(
    alloc: Global,
    words: &[String],
    devices: usize,
    sessions: &mut T,
) -> Result<Task, Ending>
    ensures task { OfHanded (generated_in (wanted (map string_bytes words.now) devices)) T.tells
        → IfOk result (λ t. started (map string_bytes words.now) devices (T.left sessions.old) ≡ Begins (settings_of t)) }
    ensures burst { IfOk result (λ t. burst_asked (wanted (map string_bytes words.now) devices) ≡ Some t.burst) }
    ensures generated { IfOk result (λ t. t.generated ≡ generated_in (wanted (map string_bytes words.now) devices)) }
    ensures workers { IfOk result (λ t. workers_asked (wanted (map string_bytes words.now) devices) ≡ workers_of t.dealing) }
    ensures legal { 0 < devices → IfOk result (λ t. CanStart t devices) }
    ensures stops { OfHanded (generated_in (wanted (map string_bytes words.now) devices)) T.tells
        → IfErr result (λ e. IsDecided e → started (map string_bytes words.now) devices (T.left sessions.old) ≡ Stops e) }
    ensures never { ¬ (result ≡ Err Ending.WriteFault) × ¬ (result ≡ Err Ending.Stalled) × ¬ (result ≡ Err Ending.Done) }
    ensures unread { LeavesSessions (wanted (map string_bytes words.now) devices) → sessions.new ≡ sessions.old }
    ensures later { T.faults sessions.old ≤ T.faults sessions.new }
    ensures cause { result ≡ Err Ending.ReadFault → Rose (T.faults sessions.old) (T.faults sessions.new) }
{
    match command_of(alloc, words, devices) {
        Ok(Command::Quick(quick)) => {
            let plan = quick_plan(alloc, &quick.key, quick.salt)?;
            let plan = ReadyPlan::new(alloc, plan)?;
            Ok(Task {
                plan,
                burst: 1,
                dealing: Dealing::Alone,
                generated: None,
            })
        }
        Ok(Command::Crypt(crypt)) => {
            let plan = plan_in(alloc, sessions)?;
            let plan = ReadyPlan::new(alloc, plan)?;
            Ok(Task {
                plan,
                burst: crypt.burst,
                dealing: Dealing::Scheduled(crypt.scheduler),
                generated: None,
            })
        }
        Ok(Command::Forward(forward)) => {
            let plan = plan_in(alloc, sessions)?;
            let plan = ReadyPlan::new(alloc, plan)?;
            Ok(Task {
                plan,
                burst: STATED_BURST,
                dealing: Dealing::Forwarded(forward.scheduler),
                generated: None,
            })
        }
        Ok(Command::Gen(generated)) => {
            let plan = stated_plan(alloc)?;
            let plan = ReadyPlan::new(alloc, plan)?;
            Ok(Task {
                plan,
                burst: STATED_BURST,
                dealing: Dealing::Scheduled(STATED_SCHEDULER),
                generated: Some(generated),
            })
        }
        Err(WordsRefused::Usage) => Err(Ending::Usage),
        Err(WordsRefused::Vdev { at }) => Err(Ending::Vdev { at: at as u64 }),
        Err(WordsRefused::OutOfMemory) => Err(Ending::Memory),
    }
}
