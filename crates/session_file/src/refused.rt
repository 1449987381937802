//! Why a text says no plan.
ghost use Rattle.std.specs.Prelude.{◌≡◌};
ghost use Rattle.session_file.specs.View.{number_of, stop_of};

use crypto_model::OutOfMemory;
use std::alloc::AllocError;
use thiserror::Error;

/// Why no plan was read.
#[derive(Clone, Copy, Debug, PartialEq, Eq, Error)]
pub enum ParseRefused {
    /// The first faulty line, counted from 1, and the kind of its fault, from 1 to 10.
    #[error("line {line} has a fault of kind {kind}")]
    Fault { line: u32, kind: u8 },
    #[error("out of memory")]
    OutOfMemory,
}

/// The kinds of faults, in the order in which they are tested.
#[derive(Clone, Copy, Debug, PartialEq, Eq)]
pub(crate) enum Kind {
    Header = 1,
    Form = 2,
    Number = 3,
    Hex = 4,
    Name = 5,
    Session = 6,
    Transforms = 7,
    Skip = 8,
    Limit = 9,
    End = 10,
}

impl Kind {
    pub(crate) fn number(self) -> u8
        ensures { result ≡ number_of self }
    {
        self as u8
    }
}

/// Why a line wasn't read.
#[derive(Clone, Copy, Debug, PartialEq, Eq)]
pub(crate) enum LineRefused {
    Fault(Kind),
    OutOfMemory,
}

impl From<OutOfMemory> for LineRefused {
    ghost use Rattle.session_file.specs.declared.refused.LineRefused.TheVariants.{OutOfMemory};

    ghost from_gives = { λ _ e. e ≡ OutOfMemory };

    fn from(_error: OutOfMemory) -> LineRefused {
        LineRefused::OutOfMemory
    }
}

impl From<AllocError> for LineRefused {
    ghost use Rattle.session_file.specs.declared.refused.LineRefused.TheVariants.{OutOfMemory};

    ghost from_gives = { λ _ e. e ≡ OutOfMemory };

    fn from(_error: AllocError) -> LineRefused {
        LineRefused::OutOfMemory
    }
}

impl LineRefused {
    // Why the text is refused whose line of this number was refused.
    pub(crate) fn at_line(self, line: u32) -> ParseRefused
        ensures { result ≡ stop_of line self }
    {
        match self {
            LineRefused::Fault(kind) => ParseRefused::Fault {
                line,
                kind: kind.number(),
            },
            LineRefused::OutOfMemory => ParseRefused::OutOfMemory,
        }
    }
}
