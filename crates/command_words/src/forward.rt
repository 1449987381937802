//! `forward`: the rules on top of its options.
ghost use Rattle.std.specs.Prelude.{IfOk, map, string_bytes};
ghost use Rattle.command_words.specs.Asked.{forward_asked};
ghost use Rattle.command_words.specs.Gives.{GivesAs, RunsOnOneThread, forward_view};

use crate::options::options_of;
use crate::refused::WordsRefused;
use crate::scheduler::scheduler_in;
use sched_core::SchedText;
use std::alloc::Global;

/// The scheduler, and the file of the sessions.
#[derive(Clone, Copy, Debug, PartialEq, Eq)]
pub struct Forward<'a> {
    pub scheduler: SchedText,
    pub sessions: &'a str,
}

// What the words ask for, of which the first is `forward`.
pub(crate) fn forward_of<'a>(
    alloc: Global,
    words: &'a [String],
    devices: usize,
) -> Result<Forward<'a>, WordsRefused>
    ensures value { GivesAs forward_view result (forward_asked (map string_bytes words.entry.now) devices) }
    ensures legal { IfOk result (λ f. RunsOnOneThread f.scheduler) }
{
    let options = options_of(alloc, "forward", false, words)?;
    let scheduler = scheduler_in(options.vdev, devices)?;
    Ok(Forward {
        scheduler,
        sessions: options.sessions,
    })
}
