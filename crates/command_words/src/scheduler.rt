//! The scheduler text of `crypt` and `forward`.
ghost use Rattle.std.specs.Prelude.{◌≡◌, IfOk};
ghost use Rattle.command_words.specs.Asked.{is_on_one_thread, scheduler_in};
ghost use Rattle.command_words.specs.Gives.{GivesAs, RunsOnOneThread};

use crate::refused::WordsRefused;
use sched_core::{Mode, SchedText};

fn is_on_one_thread(mode: Mode) -> bool
    ensures { result ≡ is_on_one_thread mode }
{
    !matches!(mode, Mode::MultiCore)
}

// The scheduler that a text names, where so many devices are there.
pub(crate) fn scheduler_in(text: &str, devices: usize) -> Result<SchedText, WordsRefused>
    ensures value { GivesAs (λ scheduler. scheduler) result (scheduler_in text.now devices) }
    ensures legal { IfOk result RunsOnOneThread }
{
    let scheduler = match SchedText::parse(text) {
        Ok(scheduler) => scheduler,
        Err(bad) => return Err(WordsRefused::Vdev { at: bad.at }),
    };
    if !is_on_one_thread(scheduler.mode) || devices < scheduler.workers {
        return Err(WordsRefused::Usage);
    }
    Ok(scheduler)
}
