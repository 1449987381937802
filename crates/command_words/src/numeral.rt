//! Numbers in words.
ghost use Rattle.std.specs.Prelude.{◌≡◌, ◌≤◌};
ghost use Rattle.std.specs.Char.{is_ascii_digit};
ghost use Rattle.std.specs.List.{list_all};
ghost use Rattle.command_words.specs.Asked.{is_numeral, number_in};

fn has_only_digits(text: &[u8]) -> bool
    ensures { result ≡ list_all is_ascii_digit text.now }
{
    text.iter().all(|b| b.is_ascii_digit())
}

#[tactic(auto, unfolding(crate::specs::Asked::is_numeral))]
fn is_numeral(text: &str, most: usize) -> bool
    ensures { result ≡ is_numeral most text.now }
{
    !text.is_empty() && text.len() <= most && has_only_digits(text.as_bytes())
}

/// The number of 1 to so many decimal digits.
pub(crate) fn number_in(text: &str, most: usize) -> Option<u128>
    requires { most ≤ 20 }
    ensures { result ≡ number_in most text.now }
{
    if is_numeral(text, most) {
        text.parse().ok()
    } else {
        None
    }
}
