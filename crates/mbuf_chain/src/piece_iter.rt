//! The pieces of a range, one after another.
ghost use Rattle.std.specs.Prelude.{◌≡◌, ℕ, List, length};
ghost use Rattle.std.specs.Iterator.{at_most};
ghost use Rattle.std.specs.Map.Iter.{TakesFirst, ShowsInOrder, deref};
ghost use Rattle.mbuf_chain.specs.Pieces.{joined, pieces_of};

use seg_list::SegIter;
use std::marker::Model;

/// Gives the bytes of a range in order, each piece as it lies in one segment and with at least one byte. It is seen as the list of
/// the pieces that are left.
#[derive(Drop)]
pub struct PieceIter<'a> {
    segs: SegIter<'a>,
    off: usize,
    len: usize,
}

impl<'a> Model for PieceIter<'a> {
    ghost use Rattle.std.specs.Prelude.{List, ℕ};
    ghost use Rattle.mbuf_chain.specs.Pieces.{pieces_of};

    ghost Value = { List (List ℕ) };

    ghost view = { λ p. pieces_of p.off p.len p.segs };
}

impl<'a> PieceIter<'a> {
    // Those of `len` bytes from `off` on.
    pub(crate) fn of(segs: SegIter<'a>, off: usize, len: usize) -> PieceIter<'a>
        ensures { result ≡ pieces_of off len segs.entry }
    {
        PieceIter { segs, off, len }
    }
}

impl<'a> Iterator for PieceIter<'a> {
    type Item = &'a [u8];

    ghost next_gives = { TakesFirst deref };

    ghost remaining = { λ s. at_most (length s) };

    fn next(&mut self) -> Option<&'a [u8]> {
        while self.len != 0 {
            let data = self.segs.next()?.data();
            let start = self.off;
            if start < data.len() {
                let n = self.len.min(data.len() - start);
                self.off = 0;
                self.len -= n;
                return Some(&data[start..start + n]);
            }
            self.off -= data.len();
        }
        None
    }
}

/// Copies all pieces, one behind another.
pub(crate) fn copy_out(pieces: PieceIter<'_>, out: &mut [u8])
    requires { length (joined pieces) ≡ length out.old }
    ensures { out.new ≡ joined pieces.entry }
{
    let mut done = 0;
    for piece in pieces {
        out[done..done + piece.len()].copy_from_slice(piece);
        done += piece.len();
    }
}
