//! Walks over a range of a packet, from one lent piece to the next.
ghost use Rattle.std.specs.Prelude.{◌≡◌, ◌<◌, ◌≤◌, ◌+◌, ◌++◌, ◌%◌, ◌^◌, [], List, ℕ, length, take, drop};
ghost use Rattle.crypto_model.specs.Chain.{laid_at};
ghost use Rattle.mbuf_chain.specs.Chain.{packet_of, with_packet};
ghost use Rattle.crypto_model.specs.Process.{bytes_in};

use crate::mode::{Absorb, Mode};
use crypto_model::Range;
use mbuf_chain::{Mbuf, Work};

// A mode as what works on a packet.
struct Walking<M> {
    mode: M,
}

impl<M: Mode> Work for Walking<M> {
    ghost Begun = { List ℕ × List ℕ × List ℕ };

    ghost unit = { M.unit };

    ghost holds = { λ begun s text. M.holds begun.0 begun.1 begun.2 s.mode text };

    ghost made = { λ begun text. M.made begun.0 begun.1 text };

    ghost unit_range = { M.unit_range };

    ghost made_of_nothing = { λ begun. M.made_of_nothing begun.0 begun.1 };

    fn unit(&self) -> usize {
        self.mode.unit()
    }

    fn feed(&mut self, piece: &mut [u8]) {
        self.mode.feed(piece);
    }
}

/// Works on a range of a packet in place, and gives the mode back.
pub(crate) fn work_on<M: Mode>(mode: M, chain: &mut Mbuf, range: Range) -> M
    requires inside { range.off + range.len ≤ length (packet_of chain.old) }
    requires whole { range.len % M.unit ≡ 0 }
    ensures { (key iv aad : List ℕ) → M.holds key iv aad mode []
        → M.holds key iv aad result (bytes_in range (packet_of chain.old))
        × (chain.new ≡ with_packet chain.old (laid_at range.off (M.made key iv (bytes_in range (packet_of chain.old))) (packet_of chain.old))) }
{
    let mut walking = Walking { mode };
    chain.work_on(range.off as usize, range.len as usize, &mut walking);
    let Walking { mode } = walking;
    mode
}

/// Feeds a range of a packet.
pub(crate) fn feed_range<A: Absorb>(into: &mut A, chain: &Mbuf, range: Range)
    requires inside { range.off + range.len ≤ length (packet_of chain.now) }
    ensures { (begun : A.Begun) (text : List ℕ) → A.holds begun into.old text
        → A.holds begun into.new (text ++ bytes_in range (packet_of chain.now)) }
{
    for piece in chain.pieces(range.off as usize, range.len as usize) {
        into.absorb(piece);
    }
}
