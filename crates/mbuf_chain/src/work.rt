//! Work on a range of a packet, where its bytes lie.
ghost use Rattle.std.specs.Prelude.{◌≡◌, ◌<◌, ◌≤◌, ◌+◌, ◌++◌, ◌%◌, [], List, ℕ, length};
ghost use Rattle.mbuf_chain.specs.Chain.{packet_of};
ghost use Rattle.mbuf_chain.specs.TakingIn.{TakesIn};

use crate::cursor::Cursor;

const MAX_UNIT: usize = 16;

/// What works on a text that comes in pieces, as a mode of a cipher does.
pub trait Work {
    /// What it was begun with.
    ghost Begun: { Type 0 };

    /// Each piece has a multiple of so many bytes.
    ghost unit: { ℕ };

    /// It was begun with this, and has taken in this text.
    ghost holds: { Begun → Self → List ℕ → Type 0 };

    /// What comes out for a text.
    ghost made: { Begun → List ℕ → List ℕ };

    /// From 1 to 16 bytes.
    fn unit(&self) -> usize
        ensures { result ≡ unit };

    /// Takes in a piece, and writes what comes out over it.
    fn feed(&mut self, piece: &mut [u8])
        requires { length piece.old % unit ≡ 0 }
        ensures { (begun : Begun) (text : List ℕ) → holds begun self.old text
            → holds begun self.new (text ++ piece.old) × (made begun (text ++ piece.old) ≡ made begun text ++ piece.new) };

    ghost unit_range: { (0 < unit) × (unit ≤ 16) };

    ghost made_of_nothing: { (begun : Begun) → made begun [] ≡ [] };
}

// A unit that lies in several segments.
fn gather<W: Work>(work: &mut W, cursor: &mut Cursor, unit: usize)
    requires unit { unit ≡ W.unit }
    requires within { cursor.old.at + unit ≤ length (packet_of cursor.old.chain) }
    ensures { TakesIn W.holds W.made work.old work.new cursor.old cursor.new unit }
{
    let mut bytes = [0; MAX_UNIT];
    let bytes = &mut bytes[..unit];
    cursor.read(bytes);
    work.feed(bytes);
    cursor.write(bytes);
}

/// Takes in the whole units at the front of what is left that lie in one segment, or else one unit. Answers how many bytes
/// they are.
pub(crate) fn take_in<W: Work>(work: &mut W, cursor: &mut Cursor, left: usize) -> usize
    requires within { cursor.old.at + left ≤ length (packet_of cursor.old.chain) }
    requires some { 0 < left }
    requires whole { left % W.unit ≡ 0 }
    ensures count { (0 < result) × (result ≤ left) × (result % W.unit ≡ 0) }
    ensures works { TakesIn W.holds W.made work.old work.new cursor.old cursor.new result }
{
    let unit = work.unit();
    let n = cursor.piece_len(left) / unit * unit;
    if n == 0 {
        gather(work, cursor, unit);
        return unit;
    }
    let piece = cursor.piece_mut(n);
    work.feed(piece);
    cursor.pass(n);
    n
}
