//! The records of a generated capture.
ghost use Rattle.std.specs.Prelude.{◌≡◌, ◌≤◌, ◌<◌, ◌+◌, false, length, take};
ghost use Rattle.capture_io.specs.Capture.{record_bytes};
ghost use Rattle.capture_io.specs.Generated.{drawn_bytes, drawn_length, generated_record, marked, next_state, state_after};

use crate::writing::spelled_words;

const TCP: u8 = 6;

const UDP: u8 = 17;

fn next_state(state: u64) -> u64
    ensures { result ≡ next_state state }
{
    state
        .wrapping_mul(6_364_136_223_846_793_005)
        .wrapping_add(1_442_695_040_888_963_407)
}

// Fills the bytes by a draw each, and gives the state behind the last.
fn draw_bytes(bytes: &mut [u8], before: u64) -> u64
    ensures bytes { bytes.new ≡ drawn_bytes (length bytes.old) before }
    ensures state { result ≡ state_after (length bytes.old) before }
{
    let mut state = before;
    for i in 0..bytes.len() {
        state = next_state(state);
        bytes[i] = ((state >> 33) % 256) as u8;
    }
    state
}

// Makes drawn bytes those of packet i.
fn mark(bytes: &mut [u8], i: u32)
    requires { 60 ≤ length bytes.old }
    ensures { bytes.new ≡ marked i bytes.old }
{
    bytes[12] = 8;
    bytes[13] = 0;
    bytes[23] = if i % 4 == 3 { TCP } else { UDP };
}

/// Writes record i to the front of a buffer. Gives its length, and the state behind its draws.
pub(crate) fn spell_record(ready: &mut [u8; 1530], i: u32, before: u64) -> (usize, u64)
    ensures bytes { take result.0 ready.new ≡ record_bytes false (generated_record i before) }
    ensures state { result.1 ≡ state_after (1 + drawn_length before) before }
    ensures some { (0 < result.0) × (result.0 ≤ 1530) }
{
    let state = next_state(before);
    let len = 60 + (state >> 33) % 1455;
    let words = spelled_words(false, i / 1000, i % 1000 * 1000, len as u32, len as u32);
    let end = 16 + len as usize;
    ready[..16].copy_from_slice(&words);
    let packet = &mut ready[16..end];
    let state = draw_bytes(packet, state);
    mark(packet, i);
    (end, state)
}
