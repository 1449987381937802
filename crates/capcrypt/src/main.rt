//! Reads a capture from standard input, encrypts, authenticates or opens each packet by itself, and writes the
//! capture to standard output and a report to standard error.
//!
//! `run` is the whole program over any source and sinks, and its contract says all that the program
//! promises. It is stated on a `Reading` of the capture, which is its header, its whole records and why
//! they end, and on the `Ending` of the run, which decides the status and the report.
#![tactic(auto)]

ghost use Rattle.std.specs.Prelude.{◌≡◌, [], All, IfOk, length};
ghost use Rattle.sym_engine.specs.Driver.{held_of};

mod deal;
mod dealing;
mod ending;
mod forwarding;
mod line;
mod place;
mod ready;
mod report;
mod start;
mod top;
mod work;

use capture_io::{MemSource, Source, StdSink, StdSource};
use command_words::sessions_path;
use crypto_model::OutOfMemory;
use crypto_op::Card;
pub use ending::{Ending, Outcome};
use report::write_report;
use std::alloc::Global;
use std::env;
use std::fs::File;
use std::io::{BufReader, BufWriter, ErrorKind};
use std::os::fd::AsRawFd;
use std::process::ExitCode;
use sym_engine::PlainDriver;
pub use top::{Done, run};
use work::without_packets;

const BUFFER: usize = 65_536;

const DEVICES: usize = 8;

// Arguments that the machine can't give as text are taken as no words.
fn words(rt: &HostRuntime, alloc: Global) -> Result<Vec<String>, OutOfMemory> {
    let mut words = Vec::new(alloc);
    match env::args(rt) {
        Ok(args) => {
            for word in args.skip(1) {
                words.push(word)?;
            }
        }
        Err(error) => {
            if error.kind() == ErrorKind::OutOfMemory {
                return Err(OutOfMemory);
            }
        }
    }
    Ok(words)
}

fn devices(alloc: Global) -> Result<Vec<PlainDriver<Card>>, OutOfMemory>
    ensures count { IfOk result (λ v. length v.items ≡ 8) }
    ensures idle { IfOk result (λ v. All (λ d. held_of d ≡ []) v.items) }
{
    let mut devs = Vec::new(alloc);
    for _n in 0..DEVICES {
        devs.push(PlainDriver::<Card>::new(alloc)?)?;
    }
    Ok(devs)
}

// A source whose first read fails.
fn missing(alloc: Global) -> Result<MemSource, OutOfMemory> {
    let fails = Vec::from_slice(alloc, &[0])?;
    Ok(MemSource::new(Vec::new(alloc), 1, fails))
}

fn run_with<S: Source, T: Source>(
    rt: &HostRuntime,
    alloc: Global,
    words: &[String],
    capture: &mut S,
    sessions: &mut T,
) -> Result<u8, OutOfMemory> {
    let Ok(out) = BufWriter::with_capacity(alloc, BUFFER, rt.stdout()) else {
        return Err(OutOfMemory);
    };
    let mut out = StdSink::new(out);
    let mut report = StdSink::new(rt.stderr());
    let devs = devices(alloc)?;
    let done = run(alloc, words, capture, sessions, &mut out, &mut report, devs);
    Ok(done.status)
}

// A session file that can't be opened is a source whose first read fails.
fn status(rt: &HostRuntime) -> Result<u8, OutOfMemory> {
    let alloc = rt.alloc();
    let words = words(rt, alloc)?;
    let Ok(input) = BufReader::with_capacity(alloc, BUFFER, rt.stdin()) else {
        return Err(OutOfMemory);
    };
    let mut capture = StdSource::new(input);
    let Some(path) = sessions_path(alloc, &words)? else {
        let mut none = MemSource::new(Vec::new(alloc), 1, Vec::new(alloc));
        return run_with(rt, alloc, &words, &mut capture, &mut none);
    };
    let Ok(file) = File::open(rt, &path) else {
        return run_with(rt, alloc, &words, &mut capture, &mut missing(alloc)?);
    };
    // Where standard input is closed, its number goes to the first file that is opened.
    let is_closed = file.as_raw_fd() == rt.stdin().as_raw_fd();
    let mut sessions = StdSource::new(file);
    if is_closed {
        run_with(rt, alloc, &words, &mut missing(alloc)?, &mut sessions)
    } else {
        run_with(rt, alloc, &words, &mut capture, &mut sessions)
    }
}

// The report where memory was wanting before the run, which takes none.
fn told_at_once(rt: &HostRuntime) -> u8 {
    let outcome = without_packets(Ending::Memory, false, 0);
    match write_report(&mut StdSink::new(rt.stderr()), &outcome, &[], None) {
        Ok(()) => 1,
        Err(_) => 6,
    }
}

fn main(rt: HostRuntime) -> ExitCode {
    ExitCode::from(match status(&rt) {
        Ok(status) => status,
        Err(_) => told_at_once(&rt),
    })
}

#[cfg(test)]
mod tests;
