//! Which session works on a packet.
ghost use Rattle.std.specs.Prelude.{◌≡◌, ◌+◌, ◌<◌, ◌≤◌, ◌^◌, length, take, drop, bytes_eq};
ghost use Rattle.mbuf_chain.specs.Chain.{packet_of};
ghost use Rattle.packet_plan.specs.Asked.{chosen_from, has_bytes};

use mbuf_chain::Mbuf;
use session_file::{Choice, Rule};

/// A choice, and the flow that it makes: 0 for the default, 1 and the rule's place for a rule.
#[derive(Clone, Copy, Debug, PartialEq, Eq)]
pub(crate) struct Chosen {
    pub(crate) choice: Choice,
    pub(crate) flow: u32,
}

// Whether these bytes stand in the packet, at `at`.
fn stand_at(packet: &Mbuf, at: usize, bytes: &[u8]) -> bool
    requires { at + length bytes.now ≤ length (packet_of packet.now) }
    ensures { result ≡ bytes_eq (take (length bytes.now) (drop at (packet_of packet.now))) bytes.now }
{
    let _all = packet.len();
    let mut done = 0;
    while done < bytes.len() {
        let piece = packet.piece(at + done, bytes.len() - done);
        let n = piece.len();
        if piece != &bytes[done..done + n] {
            return false;
        }
        done += n;
    }
    true
}

// Whether a packet of `len` bytes has the rule's bytes at its offset.
fn has_bytes(packet: &Mbuf, len: usize, rule: &Rule) -> bool
    requires { len ≡ length (packet_of packet.now) }
    ensures { result ≡ has_bytes (packet_of packet.now) rule.now }
{
    let at = rule.offset as usize;
    let bytes = rule.bytes.items();
    at <= len && bytes.len() <= len - at && stand_at(packet, at, bytes)
}

/// The choice of the first rule that the packet has, or else the default.
pub(crate) fn choose(rules: &[Rule], otherwise: Choice, packet: &Mbuf) -> Chosen
    requires { length rules.now < 2 ^ 32 }
    ensures choice { result.choice ≡ (chosen_from 0 rules.now otherwise (packet_of packet.now)).choice }
    ensures flow { result.flow ≡ (chosen_from 0 rules.now otherwise (packet_of packet.now)).flow }
{
    let len = packet.len();
    for (i, rule) in rules.iter().enumerate() {
        if has_bytes(packet, len, rule) {
            return Chosen {
                choice: rule.choice,
                flow: i as u32 + 1,
            };
        }
    }
    Chosen {
        choice: otherwise,
        flow: 0,
    }
}
