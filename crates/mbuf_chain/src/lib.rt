//! Packets as chains of segments.
//!
//! An [`Mbuf`] has 1 to 256 segments, and its packet is their data, one after another: `packet_of` is the list of all its
//! bytes. Bytes are put on or cut off at both ends within the first and the last segment, and two packets are linked by
//! moving segments. A range is read and written by lent pieces, each of which lies in one segment:
//!
//! ```text
//! while done < len {
//!     let piece = packet.piece_mut(off + done, len - done);
//!     done += work(piece);
//! }
//! ```
//!
//! as the proved test `a_piece_ends_with_its_segment` does for one. `LendsPiece` says that what is written to a piece is written
//! there in the packet and nowhere else; `with_packet` is the chain with other bytes in the same segments.
//!
//! A [`SegStore`] gives segments and takes them back.
#![tactic(auto)]

mod cursor;
mod mbuf;
mod piece_iter;
mod refusal;
mod store;
mod work;

pub use mbuf::Mbuf;
pub use piece_iter::PieceIter;
pub use refusal::{AddRefused, NoHeadroom, NoTailroom, TooManySegs, TooShort};
pub use store::{FreshSegs, NoSeg, SegStore, give_back, give_seg, take_seg};
pub use work::Work;

#[cfg(test)]
mod tests;
