//! What a run of an adapter moves.
ghost use Rattle.std.specs.Prelude.{◌≡◌};

use crate::EventKind;

/// How operations reach the devices.
#[derive(Clone, Copy, Debug, PartialEq, Eq)]
pub enum AdapterMode {
    /// The caller submits them, and completions come as new events.
    New,
    /// They come as events from the port, and completions go on as forwarded ones.
    Forward,
}

impl AdapterMode {
    ghost use Rattle.event_adapter.specs.Ran.{kind_of};

    /// The kind of a completion's event.
    pub(crate) fn completion_kind(self) -> EventKind
        ensures { result ≡ kind_of self }
    {
        match self {
            AdapterMode::New => EventKind::New,
            AdapterMode::Forward => EventKind::Forward,
        }
    }
}

/// How many events were sent to the port, completions taken from the devices, operations accepted by
/// them, and events taken from the port.
#[derive(Clone, Copy, Debug, PartialEq, Eq)]
pub struct Moved {
    pub sent: usize,
    pub completed: usize,
    pub submitted: usize,
    pub taken: usize,
}

impl Moved {
    ghost use Rattle.event_adapter.specs.Ran.{plus};

    pub(crate) fn plus(self, more: Moved) -> Moved
        ensures { result ≡ plus self more }
    {
        Moved {
            sent: self.sent.saturating_add(more.sent),
            completed: self.completed.saturating_add(more.completed),
            submitted: self.submitted.saturating_add(more.submitted),
            taken: self.taken.saturating_add(more.taken),
        }
    }
}
