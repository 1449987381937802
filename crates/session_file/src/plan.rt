//! Plans.
use crate::lists::{Name, Pattern, Salt};
use crate::rules::Rules;
use crate::sessions::Sessions;
use crate::xforms::Xforms;
use crypto_model::SessId;

/// A session's name, its transforms, and the salt of its IVs, which is empty without a cipher.
#[derive(Drop)]
pub struct Named {
    pub name: Name,
    pub xforms: Xforms,
    pub salt: Salt,
}

/// What is done with a packet.
#[derive(Clone, Copy, Debug, PartialEq, Eq)]
pub enum Choice {
    /// It is written unchanged.
    Pass,
    /// The session of this number works on it, behind its first `skip` bytes.
    Use { session: SessId, skip: u32 },
}

/// The choice for packets that have these bytes at this offset.
#[derive(Drop)]
pub struct Rule {
    pub offset: u32,
    pub bytes: Pattern,
    pub choice: Choice,
}

/// Sessions, whose numbers count from 0, and what is done with a packet: the choice of the first rule whose
/// bytes it has, or `otherwise`.
#[derive(Drop)]
pub struct Plan {
    pub sessions: Sessions,
    pub rules: Rules,
    pub otherwise: Choice,
}
