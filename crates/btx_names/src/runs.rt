//! Runs: the prefixes of a text before a byte of some kind at depth 0.
ghost use Rattle.std.specs.Prelude.{◌≡◌, ◌≤◌, ◌==◌, ◌&&◌, length};
ghost use Rattle.btx_names.specs.language.Runs as spec;
ghost use Rattle.btx_names.specs.refinement.Steps as steps;

use btx_text::classify::{is_alpha, is_white};
use btx_text::depths::depth_after;

/// The bytes at which a run ends.
#[derive(Clone, Copy, PartialEq, Eq)]
pub enum Stop {
    /// What stands between tokens: whitespace, `~`, `-` and the comma.
    Break,
    /// The comma.
    Comma,
    /// The letters, and the bytes from 128 up.
    Letter,
    /// The closing brace.
    Closing,
    /// The two braces.
    Brace,
}

/// Whether a byte stands between tokens where it is at depth 0.
pub fn is_break(byte: u8) -> bool
    ensures { result ≡ spec.is_break byte }
{
    is_white(byte) || matches!(byte, b'~' | b'-' | b',')
}

// Whether a run ends at a byte at depth 0.
fn stops(stop: Stop, byte: u8) -> bool
    ensures { result ≡ spec.stops stop byte }
{
    match stop {
        Stop::Break => is_break(byte),
        Stop::Comma => byte == b',',
        Stop::Letter => is_alpha(byte),
        Stop::Closing => byte == b'}',
        Stop::Brace => byte == b'{' || byte == b'}',
    }
}

// Whether a run ends at a byte at a depth.
fn ends_run(stop: Stop, depth: usize, byte: u8) -> bool
    ensures { result ≡ (depth == 0 && spec.stops stop byte) }
{
    depth == 0 && stops(stop, byte)
}

// Whether a byte is from `.` to `z`, in a run that ends at no letter. The run does not end at such a byte, and it leaves the depth as it is.
fn is_passed(stop: Stop, byte: u8) -> bool
    ensures { result ≡ steps.is_passed stop byte }
{
    match stop {
        Stop::Letter => false,
        Stop::Break | Stop::Comma | Stop::Closing | Stop::Brace => matches!(byte, b'.'..=b'z'),
    }
}

/// How many bytes of a text stand before the first of a kind at depth 0; all, where there is none.
#[tactic(auto, using(crate::proofs::RunLemmas::run_steps))]
pub fn run_len(text: &[u8], stop: Stop) -> usize
    ensures value { result ≡ spec.run_len stop 0 text.now }
    ensures bound { result ≤ length text.now }
{
    let mut depth = 0;
    for (place, &byte) in text.iter().enumerate() {
        if is_passed(stop, byte) {
            continue;
        }
        if ends_run(stop, depth, byte) {
            return place;
        }
        depth = depth_after(depth, byte);
    }
    text.len()
}
