//! All that is left of a source, where it is not too long.
ghost use Rattle.std.specs.Prelude.{◌≡◌, ◌≤◌, ◌<◌, ◌+◌, ◌++◌, ℕ, List, [], length, IfOk, IsErrOf};
ghost use Rattle.crypto_model.specs.Counts.{Rose};

use crate::outside::Source;
use crate::pieces::fill;
use std::alloc::{AllocError, Global};
use thiserror::Error;

const PIECE: usize = 4096;

/// Why no text was read.
#[derive(Clone, Copy, Debug, PartialEq, Eq, Error)]
pub enum TextStop {
    #[error("a read failed")]
    Fault,
    /// There are more bytes than the limit.
    #[error("the text is too large")]
    TooLarge,
    #[error("out of memory")]
    OutOfMemory,
}

impl From<AllocError> for TextStop {
    ghost use Rattle.capture_io.specs.declared.text.TextStop.TheVariants.{OutOfMemory};

    ghost from_gives = { λ _ e. e ≡ OutOfMemory };

    fn from(_error: AllocError) -> TextStop {
        TextStop::OutOfMemory
    }
}

/// Reads all that is left of a source, where that is at most `limit` bytes. No more than one byte behind
/// the limit is read.
pub fn read_text<S: Source>(alloc: Global, src: &mut S, limit: usize) -> Result<Vec<u8>, TextStop>
    ensures found { S.tells → IfOk result (λ v. (v.items ≡ S.left src.old) × (S.left src.new ≡ [])) }
    ensures within { IfOk result (λ v. length v.items ≤ limit) }
    ensures large { S.tells → IsErrOf result TextStop.TooLarge → limit < length (S.left src.old) }
    ensures soon { S.tells → IsErrOf result TextStop.TooLarge
        → (front : List ℕ) × (length front ≡ limit + 1) × (S.left src.old ≡ front ++ S.left src.new) }
    ensures later { S.faults src.old ≤ S.faults src.new }
    ensures cause { IsErrOf result TextStop.Fault → Rose (S.faults src.old) (S.faults src.new) }
{
    let mut text = Vec::new(alloc);
    let mut buffer = [0; PIECE];
    loop {
        let room = limit - text.len();
        let piece = &mut buffer[..room.min(PIECE - 1) + 1];
        let asked = piece.len();
        let Ok(n) = fill(src, piece) else {
            return Err(TextStop::Fault);
        };
        if room < n {
            return Err(TextStop::TooLarge);
        }
        text.extend_from_slice(&piece[..n])?;
        if n < asked {
            return Ok(text);
        }
    }
}
