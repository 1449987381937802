//! Why a call on a packet was refused.
use crate::Mbuf;
use seg_list::Seg;
use thiserror::Error;

/// The packets have more than 256 segments together. Hands the one back that was to be linked.
#[derive(Drop)]
pub struct TooManySegs(pub Mbuf);

/// The segment at that end holds fewer bytes.
#[derive(Clone, Copy, Debug, PartialEq, Eq, Error)]
#[error("the segment holds fewer bytes")]
pub struct TooShort;

/// The last segment has fewer bytes behind its data.
#[derive(Clone, Copy, Debug, PartialEq, Eq, Error)]
#[error("the last segment has too little tailroom")]
pub struct NoTailroom;

/// The first segment has fewer bytes before its data.
#[derive(Clone, Copy, Debug, PartialEq, Eq, Error)]
#[error("the first segment has too little headroom")]
pub struct NoHeadroom;

/// Each hands the segment back.
#[derive(Drop)]
pub enum AddRefused {
    /// The packet has 256 segments.
    TooManySegs(Seg),
    OutOfMemory(Seg),
}
