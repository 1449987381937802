//! The scheduler text.
ghost use Rattle.std.specs.Prelude.{◌≡◌, ◌≢◌, ◌<◌, ◌≤◌, ◌+◌, ℕ, [], ◌∷◌, Ok, Err, length, slice_index, IfOk, MatchOption, MatchResult};
ghost use Rattle.sched_core.specs.Text.{IsLegalSoFar, IsSchedulable, fields_of, finished, sched_of};

use crate::Mode;
use crate::field::{Seen, behind};
use dev_core::Kind;
use thiserror::Error;

/// What a scheduler text says. The kinds behind those of the workers are `Plain`.
#[derive(Clone, Copy, Debug, PartialEq, Eq)]
pub struct SchedText {
    pub mode: Mode,
    pub kinds: [Kind; 8],
    pub workers: usize,
    pub ordering: bool,
    pub threshold: u32,
}

/// The scheduler text has a fault: at the offset of its first faulty field or, where no field is faulty
/// by itself and the text isn't whole, at its end.
#[derive(Clone, Copy, Debug, PartialEq, Eq, Error)]
#[error("the scheduler text has a fault at byte {at}")]
pub struct BadText {
    pub at: usize,
}

impl SchedText {
    /// Reads fields with commas between them: `mode=round-robin`, `mode=packet-size-distr`, `mode=fail-over`
    /// or `mode=multi-core`; `worker=plain` or `worker=lane`, up to eight; `ordering=enable` or
    /// `ordering=disable`; and, by packet size alone, `mode_param=threshold:` with a power of two from 1 to
    /// 262,144. A mode and a worker are wanted, and two workers by packet size and for fail-over. Ordering is
    /// off and the threshold is 128 where the text doesn't say.
    pub fn parse(text: &str) -> Result<SchedText, BadText>
        ensures schedulable { IfOk result IsSchedulable }
        ensures said { MatchResult result (λ x. sched_of text.now ≡ Ok x) (λ e. sched_of text.now ≡ Err e.at) }
    {
        read(text.as_bytes())
    }
}

fn comma_at(text: &[u8]) -> usize
    ensures within { result ≤ length text.now }
    ensures before { (k : ℕ) → k < result → slice_index text.now k ≢ 44 }
    ensures found { result < length text.now → slice_index text.now result ≡ 44 }
{
    for (i, b) in text.iter().enumerate() {
        if *b == b',' {
            return i;
        }
    }
    text.len()
}

// The first field, and the text behind its comma.
fn first_field(text: &[u8]) -> (&[u8], Option<&[u8]>)
    ensures fields { MatchOption result.1 (fields_of text.now ≡ result.0.now ∷ []) (λ more. fields_of text.now ≡ result.0.now ∷ fields_of more.now) }
    ensures lengths { MatchOption result.1 (length result.0.now ≡ length text.now) (λ more. length result.0.now + 1 + length more.now ≡ length text.now) }
{
    let at = comma_at(text);
    if at < text.len() {
        (&text[..at], Some(behind(text, at + 1)))
    } else {
        (text, None)
    }
}

fn finish(seen: &Seen, len: usize) -> Result<SchedText, BadText>
    requires { IsLegalSoFar seen.now }
    ensures schedulable { IfOk result IsSchedulable }
    ensures said { MatchResult result (λ x. finished seen.now len ≡ Ok x) (λ e. finished seen.now len ≡ Err e.at) }
{
    let Some(mode) = seen.mode else {
        return Err(BadText { at: len });
    };
    if seen.workers < mode.least_workers() || mode.most_workers() < seen.workers {
        return Err(BadText { at: len });
    }
    if seen.threshold.is_some() && !matches!(mode, Mode::PacketSize) {
        return Err(BadText { at: len });
    }
    Ok(SchedText {
        mode,
        kinds: seen.kinds,
        workers: seen.workers,
        ordering: seen.ordering.unwrap_or(false),
        threshold: seen.threshold.unwrap_or(128),
    })
}

fn read(text: &[u8]) -> Result<SchedText, BadText>
    ensures schedulable { IfOk result IsSchedulable }
    ensures said { MatchResult result (λ x. sched_of text.now ≡ Ok x) (λ e. sched_of text.now ≡ Err e.at) }
{
    let mut seen = Seen {
        mode: None,
        kinds: [Kind::Plain; 8],
        workers: 0,
        ordering: None,
        threshold: None,
    };
    let mut left = text;
    let mut at: usize = 0;
    loop {
        let (field, more) = first_field(left);
        let Some(next) = seen.with_text(field) else {
            return Err(BadText { at });
        };
        seen = next;
        let Some(more) = more else {
            return finish(&seen, text.len());
        };
        at += field.len() + 1;
        left = more;
    }
}
