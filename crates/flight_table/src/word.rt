//! The word of a slot.
ghost use Rattle.std.specs.Prelude.{◌≡◌, ◌<◌, ◌^◌, ◌↔◌, IsTrue};
ghost use Rattle.flight_table.specs.Word.{code, phase_of, packed, unpacked};

/// Where the operation of a slot is. FREE is the phase of no slot of an open table.
#[derive(Clone, Copy, Debug, PartialEq, Eq)]
pub enum Phase {
    Free,
    /// With the owner.
    Held,
    /// In the slot, for a worker to take.
    Ready,
    /// With the worker.
    Taken,
    /// In the slot, processed.
    Done,
    /// In the slot, given back unprocessed.
    Back,
}

impl Phase {
    fn code(self) -> u64
        ensures { result ≡ code self }
    {
        match self {
            Phase::Free => 0,
            Phase::Held => 1,
            Phase::Ready => 2,
            Phase::Taken => 3,
            Phase::Done => 4,
            Phase::Back => 5,
        }
    }

    fn of(code: u64) -> Phase
        ensures { result ≡ phase_of code }
    {
        if code == 1 {
            Phase::Held
        } else if code == 2 {
            Phase::Ready
        } else if code == 3 {
            Phase::Taken
        } else if code == 4 {
            Phase::Done
        } else if code == 5 {
            Phase::Back
        } else {
            Phase::Free
        }
    }
}

/// What a slot's word says. Under HELD number and worker are 0.
#[derive(Clone, Copy, Debug, PartialEq, Eq)]
pub struct Word {
    pub phase: Phase,
    pub number: u64,
    pub worker: u8,
}

impl Word {
    pub(crate) fn is(self, phase: Phase) -> bool
        ensures { IsTrue result ↔ (self.phase ≡ phase) }
    {
        self.phase == phase
    }

    pub(crate) fn pack(self) -> u64
        requires { (self.number < 2 ^ 58) × (self.worker < 8) }
        ensures { result ≡ packed self }
    {
        self.number * 64 + u64::from(self.worker) * 8 + self.phase.code()
    }

    pub(crate) fn unpack(packed: u64) -> Word
        ensures { result ≡ unpacked packed }
    {
        Word {
            phase: Phase::of(packed % 8),
            number: packed / 64,
            worker: (packed / 8 % 8) as u8,
        }
    }
}
