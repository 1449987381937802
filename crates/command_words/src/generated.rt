//! `gen`.
ghost use Rattle.std.specs.Prelude.{◌≡◌, MatchOption, Ok, Err, map, string_bytes};
ghost use Rattle.command_words.specs.Asked.{NotLegal, gen_asked, packets_in, seed_in};
ghost use Rattle.command_words.specs.Gives.{gen_view};

use crate::numeral::number_in;

// As many devices as it uses.
const DEVICES: usize = 2;

/// How many packets are generated, from 1 to a million, and from which number.
#[derive(Clone, Copy, Debug, PartialEq, Eq)]
pub struct Gen {
    pub packets: u32,
    pub number: u64,
}

fn packets_in(text: &str) -> Option<u32>
    ensures { result ≡ packets_in text.now }
{
    match number_in(text, 7) {
        Some(packets @ 1..=1_000_000) => Some(packets as u32),
        _ => None,
    }
}

fn seed_in(text: &str) -> Option<u64>
    ensures { result ≡ seed_in text.now }
{
    match number_in(text, 20) {
        Some(number @ 0..=0xffff_ffff_ffff_ffff) => Some(number as u64),
        _ => None,
    }
}

// What the words behind `gen` ask for, where so many devices are there.
pub(crate) fn gen_of(words: &[String], devices: usize) -> Option<Gen>
    ensures { let said = gen_asked (map string_bytes words.now) devices
        in MatchOption result (said ≡ Err NotLegal) (λ g. said ≡ Ok (gen_view g)) }
{
    let [packets, number] = words else {
        return None;
    };
    let packets = packets_in(packets.as_str())?;
    let number = seed_in(number.as_str())?;
    if devices < DEVICES {
        return None;
    }
    Some(Gen { packets, number })
}
