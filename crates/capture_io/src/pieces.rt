//! Whole buffers, in as many calls as it takes.
ghost use Rattle.std.specs.Prelude.{◌≡◌, ◌≤◌, ◌<◌, ◌++◌, ℕ, List, [], length, take, IfOk, OnOk, OnErr};
ghost use Rattle.crypto_model.specs.Counts.{Rose};
ghost use Rattle.capture_io.specs.Pieces.{AppendsPart};

use crate::{ReadFault, Sink, Source, WriteFault};

/// Reads until the buffer is full or the source ends, and gives the number of the bytes.
pub fn fill<S: Source>(src: &mut S, buf: &mut [u8]) -> Result<usize, ReadFault>
    ensures within { IfOk result (λ n. n ≤ length buf.old) }
    ensures taken { S.tells → IfOk result (λ n. S.left src.old ≡ take n buf.new ++ S.left src.new) }
    ensures ended { S.tells → IfOk result (λ n. n < length buf.old → S.left src.new ≡ []) }
    ensures fault { S.tells → OnErr result ((bytes : List ℕ) × (S.left src.old ≡ bytes ++ S.left src.new)) }
    ensures later { S.faults src.old ≤ S.faults src.new }
    ensures cause { OnErr result (Rose (S.faults src.old) (S.faults src.new)) }
{
    let mut at = 0;
    while at < buf.len() {
        let n = src.read(&mut buf[at..])?;
        if n == 0 {
            break;
        }
        at += n;
    }
    Ok(at)
}

/// Writes all of a piece. At a fault a front of it was written.
pub fn write_all<K: Sink>(sink: &mut K, piece: &[u8]) -> Result<(), WriteFault>
    ensures written { K.tells → OnOk result (K.written sink.new ≡ K.written sink.old ++ piece.now) }
    ensures fault { K.tells → OnErr result (AppendsPart (K.written sink.old) (K.written sink.new) piece.now) }
    ensures later { K.faults sink.old ≤ K.faults sink.new }
    ensures cause { OnErr result (Rose (K.faults sink.old) (K.faults sink.new)) }
    ensures steady { K.steady → OnOk result (K.faults sink.new ≡ K.faults sink.old) }
{
    let mut at = 0;
    while at < piece.len() {
        at += sink.write(&piece[at..])?;
    }
    Ok(())
}
