//! One field of a scheduler text.
ghost use Rattle.std.specs.Prelude.{◌≡◌, ◌≤◌, IfSome, IsTrue, true, length, drop, bytes_eq, option_and_then};
ghost use Rattle.std.specs.Char.{is_ascii_digit};
ghost use Rattle.std.specs.List.{list_all};
ghost use Rattle.std.specs.Str.Parse.{digits_value};
ghost use Rattle.sched_core.specs.Stopped.{is_threshold};
ghost use Rattle.sched_core.specs.Text.{IsLegalSoFar, IsLegalField, field_of, threshold_of, with_field};

use crate::Mode;
use crate::scheduler::allowed_threshold;
use dev_core::Kind;

#[derive(Clone, Copy)]
pub(crate) enum Field {
    Mode(Mode),
    Worker(Kind),
    Ordering(bool),
    Threshold(u32),
}

/// What the fields so far say.
#[derive(Clone, Copy)]
pub(crate) struct Seen {
    pub(crate) mode: Option<Mode>,
    pub(crate) kinds: [Kind; 8],
    pub(crate) workers: usize,
    pub(crate) ordering: Option<bool>,
    pub(crate) threshold: Option<u32>,
}

fn is(text: &[u8], word: &str) -> bool
    ensures { result ≡ bytes_eq text.now word.now }
{
    text == word.as_bytes()
}

/// The text behind its first `at` bytes.
pub(crate) fn behind(text: &[u8], at: usize) -> &[u8]
    requires { at ≤ length text.now }
    ensures { result.now ≡ drop at text.now }
{
    &text[at..]
}

fn is_digit(b: u8) -> bool
    ensures { result ≡ is_ascii_digit b }
{
    b.is_ascii_digit()
}

fn has_only_digits(text: &[u8]) -> bool
    ensures { result ≡ list_all is_ascii_digit text.now }
{
    for b in text {
        if !is_digit(*b) {
            return false;
        }
    }
    true
}

fn read_number(digits: &[u8]) -> u32
    requires digits { IsTrue (list_all is_ascii_digit digits.now) }
    requires short { length digits.now ≤ 6 }
    ensures { result ≡ digits_value 10 digits.now }
{
    let mut value: u32 = 0;
    for b in digits {
        value = value * 10 + (*b - b'0') as u32;
    }
    value
}

#[tactic(auto, unfolding(crate::specs::Text::threshold_of))]
fn read_threshold(digits: &[u8]) -> Option<u32>
    ensures legal { IfSome result (λ n. is_threshold n ≡ true) }
    ensures said { result ≡ threshold_of digits.now }
{
    if !(1 <= digits.len() && digits.len() <= 6 && has_only_digits(digits)) {
        return None;
    }
    let n = read_number(digits);
    if allowed_threshold(n) { Some(n) } else { None }
}

#[tactic(auto, unfolding(crate::specs::Text::field_of))]
fn read_field(text: &[u8]) -> Option<Field>
    ensures legal { IfSome result IsLegalField }
    ensures said { result ≡ field_of text.now }
{
    if is(text, "mode=round-robin") {
        return Some(Field::Mode(Mode::RoundRobin));
    }
    if is(text, "mode=packet-size-distr") {
        return Some(Field::Mode(Mode::PacketSize));
    }
    if is(text, "mode=fail-over") {
        return Some(Field::Mode(Mode::FailOver));
    }
    if is(text, "mode=multi-core") {
        return Some(Field::Mode(Mode::MultiCore));
    }
    if is(text, "worker=plain") {
        return Some(Field::Worker(Kind::Plain));
    }
    if is(text, "worker=lane") {
        return Some(Field::Worker(Kind::Lane));
    }
    if is(text, "ordering=enable") {
        return Some(Field::Ordering(true));
    }
    if is(text, "ordering=disable") {
        return Some(Field::Ordering(false));
    }
    if 21 <= text.len() && is(&text[..21], "mode_param=threshold:") {
        let n = read_threshold(behind(text, 21))?;
        return Some(Field::Threshold(n));
    }
    None
}

impl Seen {
    /// What is seen behind one field more.
    fn with(&self, field: Field) -> Option<Seen>
        ensures legal { IsLegalSoFar self.now → IsLegalField field → IfSome result IsLegalSoFar }
        ensures said { result ≡ with_field self.now field }
    {
        let mut next = *self;
        match field {
            Field::Mode(mode) => {
                if self.mode.is_some() {
                    return None;
                }
                next.mode = Some(mode);
                Some(next)
            }
            Field::Worker(kind) => {
                if 8 <= self.workers {
                    return None;
                }
                next.kinds[self.workers] = kind;
                next.workers = self.workers + 1;
                Some(next)
            }
            Field::Ordering(on) => {
                if self.ordering.is_some() {
                    return None;
                }
                next.ordering = Some(on);
                Some(next)
            }
            Field::Threshold(n) => {
                if self.threshold.is_some() {
                    return None;
                }
                next.threshold = Some(n);
                Some(next)
            }
        }
    }

    pub(crate) fn with_text(&self, text: &[u8]) -> Option<Seen>
        ensures legal { IsLegalSoFar self.now → IfSome result IsLegalSoFar }
        ensures said { result ≡ option_and_then (with_field self.now) (field_of text.now) }
    {
        match read_field(text) {
            Some(field) => self.with(field),
            None => None,
        }
    }
}
