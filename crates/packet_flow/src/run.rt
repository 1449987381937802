//! Ready packets that wait behind an open one.
ghost use Rattle.std.specs.Prelude.{◌≡◌, ◌<◌, ◌≤◌, [], ◌∷◌, ◌++◌, List, length, drop, map, Some, IfOk, IfErr, OnOk};
ghost use Rattle.std.specs.List.{flat_map};
ghost use Rattle.packet_plan.specs.Work.{written_view};
ghost use Rattle.packet_flow.specs.declared.mark.Mark.{Mark};
ghost use Rattle.packet_flow.specs.Marks.{answer_of, mark_bytes, mark_len, seat_of_mark};
ghost use Rattle.packet_flow.specs.Seats.{Ready};

use crate::mark::Mark;
use capture_io::{Header, spelled_record};
use crypto_model::OutOfMemory;
use packet_plan::{Fate, Written};
use std::alloc::Global;
use std::collections::VecDeque;
use std::snapshot::Snapshot;

// A run has at most so many bytes, or one packet.
const CHUNK: usize = 65536;

/// Packets that are ready behind an open one, as the bytes of their records. There is one at least.
#[derive(Drop)]
pub struct Run {
    big: bool,
    bytes: Vec<u8>,
    // where the first record begins
    from: usize,
    marks: VecDeque<Mark>,
    ghost within: { from ≤ length bytes.items },
    ghost some: { 0 < length marks.items },
    ghost text: { drop from bytes.items ≡ flat_map (mark_bytes big) marks.items },
    ghost lens: { map mark_len marks.items ≡ map (λ m. length (mark_bytes big m)) marks.items },
}

impl Run {
    ghost use Rattle.packet_flow.specs.Runs.{seats_behind, seats_in};

    /// The run of one packet.
    pub(crate) fn of(
        alloc: Global,
        header: &Header,
        number: u32,
        written: &Written,
    ) -> Result<Run, OutOfMemory>
        ensures { IfOk result (λ r. seats_in r ≡ Ready number (written_view written.now) (Some header.now.big) ∷ []) }
    {
        let bytes = spelled_record(alloc, header, &written.rec)?;
        let mut marks = VecDeque::new(alloc);
        marks.push_back(Mark {
            number,
            len: bytes.len() as u32,
            fate: written.fate,
            told: Snapshot::of(written),
        })?;
        Ok(Run {
            big: header.big,
            bytes,
            from: 0,
            marks,
        })
    }

    /// The number of the first packet.
    pub(crate) fn number(&self) -> u32
        ensures { (m : Mark) × (ms : List Mark) × (self.now.marks.items ≡ m ∷ ms) × (result ≡ m.number) }
    {
        self.marks[0].number
    }

    /// The bytes of the first record, and what became of its packet.
    pub(crate) fn first(&self) -> (&[u8], Fate)
        ensures { (m : Mark) × (ms : List Mark) × (self.now.marks.items ≡ m ∷ ms)
            × (result.0.now ≡ mark_bytes self.now.big m) × (result.1 ≡ (answer_of m).fate) }
    {
        let mark = &self.marks[0];
        let bytes = self.bytes.as_slice();
        let record = &bytes[self.from..self.from + mark.len as usize];
        (record, mark.fate)
    }

    /// The run without its first packet, unless that was all.
    pub(crate) fn behind(self) -> Option<Run>
        ensures { drop 1 (seats_in self) ≡ seats_behind result }
    {
        let Run {
            big,
            bytes,
            from,
            mut marks,
        } = self;
        let first = marks.pop_front()?;
        if marks.is_empty() {
            return None;
        }
        Some(Run {
            big,
            bytes,
            from: from + first.len as usize,
            marks,
        })
    }

    /// The packets of `other` behind these, unless these would be too many or memory is wanting.
    pub(crate) fn join(&mut self, other: Run) -> Result<(), Run>
        ensures joined { OnOk result (seats_in self.new ≡ seats_in self.old ++ seats_in other) }
        ensures stays { IfErr result (λ r. (seats_in r ≡ seats_in other) × (seats_in self.new ≡ seats_in self.old)) }
    {
        let Run {
            big,
            bytes,
            from,
            mut marks,
        } = other;
        let more = bytes.len() - from;
        if big != self.big || CHUNK < self.bytes.len() + more {
            return Err(Run {
                big,
                bytes,
                from,
                marks,
            });
        }
        let Ok(()) = self.bytes.try_reserve(more) else {
            return Err(Run {
                big,
                bytes,
                from,
                marks,
            });
        };
        let Ok(()) = self.marks.append(&mut marks) else {
            return Err(Run {
                big,
                bytes,
                from,
                marks,
            });
        };
        let Ok(()) = self.bytes.extend_from_slice(&bytes.as_slice()[from..]) else {
            unreachable!()
        };
        Ok(())
    }
}
