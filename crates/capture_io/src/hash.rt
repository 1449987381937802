//! A sink that keeps a digest of what is written.
ghost use Rattle.std.specs.Prelude.{◌≡◌, ◌≤◌, ◌<◌, ◌++◌, ℕ, List, [], length, take, IfOk, OnOk, OnErr, IsOk, MatchResult};
ghost use Rattle.crypto_model.specs.Counts.{Rose};
ghost use Rattle.sha2.specs.Hashers.{Holds256};
ghost use Rattle.sha2.specs.Sha256.{sha256};

use crate::{Sink, WriteFault};
use boxcar::tag::{Names, Tag};
use sha2::{Digest, Sha256};

// A piece behind what was written before, as clauses see them.
#[derive(Drop)]
struct Longer<'a> {
    before: &'a Tag,
    piece: &'a [u8],
}

struct Joined;

impl<'a> Names<Longer<'a>> for Joined {
    ghost numbers = { λ l. l.before.now.numbers ++ l.piece.now };
}

fn text_behind(before: &Tag, piece: &[u8]) -> Tag
    ensures { result.numbers ≡ before.now.numbers ++ piece.now }
{
    Tag::of::<Longer<'_>, Joined>(&Longer { before, piece })
}

/// Takes all that is written, and keeps its SHA-256 alone. It takes no memory, and never fails.
///
/// `text` has no bytes: it is what was written, as clauses see it.
#[derive(Drop)]
pub struct HashSink {
    hasher: Sha256,
    text: Tag,
    ghost holds: { ∥ Holds256 hasher text.numbers ∥₁ },
}

impl HashSink {
    ghost use Rattle.capture_io.specs.Hashed.{hashed};

    /// Nothing is written yet.
    pub fn new() -> HashSink
        ensures { hashed result ≡ [] }
    {
        HashSink {
            hasher: Sha256::new(),
            text: Tag::empty(),
        }
    }

    /// The SHA-256 of what was written.
    pub fn finish(self) -> [u8; 32]
        ensures { result ≡ sha256 (hashed self) }
    {
        let HashSink { hasher, text: _ } = self;
        hasher.finalize()
    }
}

impl Sink for HashSink {
    ghost use Rattle.capture_io.specs.Hashed.{hashed, hashing_faults};

    ghost tells = { Unit {0} };

    ghost written = { hashed };

    ghost faults = { hashing_faults };

    ghost steady = { Unit {0} };

    fn write(&mut self, piece: &[u8]) -> Result<usize, WriteFault>
        requires { 0 < length piece.now }
        ensures within { IfOk result (λ n. n ≤ length piece.now) }
        ensures some { IfOk result (λ n. 0 < n) }
        ensures appended { Unit {0} → MatchResult result (λ n. hashed self.new ≡ hashed self.old ++ take n piece.now)
            (λ _. hashed self.new ≡ hashed self.old) }
        ensures later { hashing_faults self.old ≤ hashing_faults self.new }
        ensures cause { OnErr result (Rose (hashing_faults self.old) (hashing_faults self.new)) }
        ensures steady { Unit {0} → OnOk result (hashing_faults self.new ≡ hashing_faults self.old) }
        ensures whole { IfOk result (λ n. n ≡ length piece.now) }
        ensures never { IsOk result }
    {
        let text = text_behind(&self.text, piece);
        self.hasher.update(piece);
        self.text = text;
        Ok(piece.len())
    }

    fn flush(&mut self) -> Result<(), WriteFault>
        ensures never { IsOk result }
        ensures same { self.new ≡ self.old }
    {
        Ok(())
    }
}
