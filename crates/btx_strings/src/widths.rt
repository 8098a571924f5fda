//! The width of a string.
ghost use Rattle.std.specs.Prelude.{◌≡◌, ◌≤◌, ◌<◌, ◌+◌, ◌^◌, length, pos, sum_by, true};
ghost use Rattle.btx_strings.specs.refinement.Glyphs.{glyph_of};
ghost use Rattle.btx_strings.specs.language.Width as spec;
ghost use Rattle.btx_strings.specs.refinement.Width as refined;
ghost use Rattle.btx_text.specs.language.Limits.{greatest_string};
ghost use Rattle.btx_text.specs.refinement.Parts.{part_of};

use crate::controls::{Glyph, Glyphs, Sequences, letters};
use btx_text::{Element, Elements, Kind};

// The widths of the bytes from 0 on, in hundredths of a point.
const WIDTHS: [u16; 127] = [
    0, 0, 0, 0, 0, 0, 0, 0, 0, 0, 0, 0, 0, 0, 0, 0, 0, 0, 0, 0, 0, 0, 0, 0, 0, 0, 0, 0, 0, 0, 0, 0,
    278, 278, 500, 833, 500, 833, 778, 278, 389, 389, 500, 778, 278, 333, 278, 500, // to `/`
    500, 500, 500, 500, 500, 500, 500, 500, 500, 500, // digits
    278, 278, 278, 778, 472, 472, 778, // to `@`
    750, 708, 722, 764, 681, 653, 785, 750, 361, 514, 778, 625, 917, // to `M`
    750, 778, 681, 778, 736, 556, 722, 750, 750, 1028, 750, 750, 611, // to `Z`
    278, 500, 278, 500, 278, 278, // to the grave accent
    500, 556, 444, 556, 444, 306, 500, 556, 278, 306, 528, 278, 833, // to `m`
    556, 500, 556, 528, 392, 394, 389, 556, 528, 722, 528, 528, 444, // to `z`
    500, 1000, 500, 500,
];

/// The width of a string in hundredths of a point. Outside special characters each byte has its own, braces too; in them braces have
/// none, nor control sequences but the foreign ones, nor the whitespace directly after a control sequence. It takes no memory.
pub fn width(string: &[u8]) -> i32
    requires { length string.now ≤ greatest_string }
    ensures { result ≡ pos (spec.width_of string.now) }
{
    let mut total = 0;
    for element in Elements::of(string) {
        total = with_element(total, element);
    }
    total as i32
}

// A total and the width of an element.
fn with_element(total: u32, element: Element<'_>) -> u32
    requires { total + refined.part_width (part_of element) < 2 ^ 32 }
    ensures { result ≡ total + refined.part_width (part_of element.entry) }
{
    match element.kind {
        Kind::Special => with_special(total, element.text),
        _ => with_bytes(total, element.text),
    }
}

// A total and the widths of bytes.
fn with_bytes(mut total: u32, bytes: &[u8]) -> u32
    requires { total + sum_by spec.byte_width bytes.now < 2 ^ 32 }
    ensures { result ≡ total + sum_by spec.byte_width bytes.now }
{
    for byte in bytes {
        total += byte_width(*byte);
    }
    total
}

// The width of a byte.
#[tactic(auto, using(crate::proofs::WidthLemmas::width_table))]
fn byte_width(byte: u8) -> u32
    ensures { result ≡ spec.byte_width byte }
{
    match WIDTHS.get(usize::from(byte)) {
        Some(width) => u32::from(*width),
        None => 0,
    }
}

// A total and the width of a special character.
#[tactic(auto, using(crate::proofs::ControlLemmas::kept_steps))]
fn with_special(mut total: u32, special: &[u8]) -> u32
    requires { total + refined.special_width special.now < 2 ^ 32 }
    ensures { result ≡ total + refined.special_width special.now }
{
    let mut gone = false;
    for glyph in Glyphs::of(special) {
        if !(gone && glyph.is_white()) {
            total += glyph_width(glyph);
        }
        gone = glyph.is_white_gone(gone, Sequences::All);
    }
    total
}

// The width of a glyph of a special character.
fn glyph_width(glyph: Glyph<'_>) -> u32
    ensures { result ≡ spec.glyph_width (glyph_of glyph.entry) }
{
    match glyph {
        Glyph::Control(name) => control_width(name),
        Glyph::Plain(b'{' | b'}') => 0,
        Glyph::Plain(byte) => byte_width(byte),
    }
}

// The width of a control sequence.
#[tactic(auto, unfolding(crate::specs::language::Width::control_width))]
fn control_width(name: &[u8]) -> u32
    ensures { result ≡ spec.control_width name.now }
{
    match name {
        b"ss" => 500,
        b"ae" => 722,
        b"oe" => 778,
        b"AE" => 903,
        b"OE" => 1014,
        _ => match letters(name) {
            [first, ..] => byte_width(*first),
            [] => 0,
        },
    }
}
