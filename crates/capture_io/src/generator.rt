//! A capture that is generated from a number.
ghost use Rattle.std.specs.Prelude.{◌≡◌, ◌≤◌, ◌<◌, ◌++◌, [], length, take, IfOk, OnErr, IsOk, MatchResult};
ghost use Rattle.crypto_model.specs.Counts.{Rose};

use crate::drawn::spell_record;
use crate::header::Header;
use crate::writing::spelled_header;
use crate::{ReadFault, Source};

const HEADER: Header = Header {
    big: false,
    nanos: false,
    zone: 0,
    sigfigs: 0,
    snaplen: 262_144,
    link: 1,
};

/// A capture of so many packets, drawn from a number by a linear congruential generator: the same on each machine. It is made
/// while it is read, and takes no memory.
///
/// `ready` holds the header or a record, of which the first `at` of `end` bytes were read.
#[derive(Drop)]
pub struct Generator {
    count: u32,
    begun: u32,
    state: u64,
    ready: [u8; 1530],
    at: usize,
    end: usize,
    ghost few: { begun ≤ count },
    ghost read: { at ≤ end },
    ghost fits: { end ≤ 1530 },
}

impl Generator {
    ghost use Rattle.capture_io.specs.Generated.{generated};
    ghost use Rattle.capture_io.specs.Generating.{still_generated};

    /// The capture of `count` packets that begins with this number.
    pub fn new(count: u32, number: u64) -> Generator
        ensures { still_generated result ≡ generated count number }
    {
        let mut ready = [0; 1530];
        ready[..24].copy_from_slice(&spelled_header(&HEADER));
        Generator {
            count,
            begun: 0,
            state: number,
            ready,
            at: 0,
            end: 24,
        }
    }

    // Makes the next record, where all that is ready was read.
    fn make_ready(&mut self)
        ensures same { still_generated self.new ≡ still_generated self.old }
        ensures ended { self.new.at ≡ self.new.end → still_generated self.new ≡ [] }
    {
        if self.at < self.end || self.begun == self.count {
            return;
        }
        let (end, state) = spell_record(&mut self.ready, self.begun, self.state);
        self.begun += 1;
        self.state = state;
        self.at = 0;
        self.end = end;
    }
}

impl Source for Generator {
    ghost use Rattle.capture_io.specs.Generating.{generating_faults, still_generated};

    ghost tells = { Unit {0} };

    ghost left = { still_generated };

    ghost faults = { generating_faults };

    fn read(&mut self, buf: &mut [u8]) -> Result<usize, ReadFault>
        requires { 0 < length buf.old }
        ensures within { IfOk result (λ n. n ≤ length buf.old) }
        ensures taken { Unit {0} → MatchResult result (λ n. still_generated self.old ≡ take n buf.new ++ still_generated self.new)
            (λ _. still_generated self.new ≡ still_generated self.old) }
        ensures ended { Unit {0} → IfOk result (λ n. n ≡ 0 → still_generated self.old ≡ []) }
        ensures later { generating_faults self.old ≤ generating_faults self.new }
        ensures cause { OnErr result (Rose (generating_faults self.old) (generating_faults self.new)) }
        ensures never { IsOk result }
    {
        self.make_ready();
        let rest = &self.ready[self.at..self.end];
        let n = rest.len().min(buf.len());
        buf[..n].copy_from_slice(&rest[..n]);
        self.at += n;
        Ok(n)
    }
}
