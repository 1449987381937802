//! `crypt`: the rules on top of its options.
ghost use Rattle.std.specs.Prelude.{◌≡◌, ◌≤◌, IfOk, IfSome, map, option_map, string_bytes};
ghost use Rattle.command_words.specs.Options.{options_view};
ghost use Rattle.command_words.specs.Asked.{burst_in, burst_of, crypt_asked, crypt_with};
ghost use Rattle.command_words.specs.Gives.{GivesAs, IsLegal, crypt_view};

use crate::numeral::number_in;
use crate::options::{Options, options_of};
use crate::refused::WordsRefused;
use crate::scheduler::scheduler_in;
use sched_core::SchedText;
use std::alloc::Global;

const USUAL_BURST: usize = 32;

/// The scheduler, the file of the sessions, and how many operations make a burst, from 1 to 256.
#[derive(Clone, Copy, Debug, PartialEq, Eq)]
pub struct Crypt<'a> {
    pub scheduler: SchedText,
    pub sessions: &'a str,
    pub burst: usize,
}

fn burst_in(text: &str) -> Option<usize>
    ensures value { result ≡ burst_in text.now }
    ensures range { IfSome result (λ n. (1 ≤ n) × (n ≤ 256)) }
{
    match number_in(text, 10) {
        Some(burst @ 1..=256) => Some(burst as usize),
        _ => None,
    }
}

fn burst_of(text: Option<&str>) -> Option<usize>
    ensures value { result ≡ burst_of (option_map (λ t. t.now) text.entry) }
    ensures range { IfSome result (λ n. (1 ≤ n) × (n ≤ 256)) }
{
    match text {
        Some(text) => burst_in(text),
        None => Some(USUAL_BURST),
    }
}

fn crypt_with<'a>(options: &Options<'a>, devices: usize) -> Result<Crypt<'a>, WordsRefused>
    ensures value { GivesAs crypt_view result (crypt_with (options_view options.now) devices) }
    ensures legal { IfOk result IsLegal }
{
    let Some(burst) = burst_of(options.burst) else {
        return Err(WordsRefused::Usage);
    };
    let scheduler = scheduler_in(options.vdev, devices)?;
    Ok(Crypt {
        scheduler,
        sessions: options.sessions,
        burst,
    })
}

// What the words ask for, of which the first is `crypt`.
pub(crate) fn crypt_of<'a>(
    alloc: Global,
    words: &'a [String],
    devices: usize,
) -> Result<Crypt<'a>, WordsRefused>
    ensures value { GivesAs crypt_view result (crypt_asked (map string_bytes words.entry.now) devices) }
    ensures legal { IfOk result IsLegal }
{
    let options = options_of(alloc, "crypt", true, words)?;
    crypt_with(&options, devices)
}
