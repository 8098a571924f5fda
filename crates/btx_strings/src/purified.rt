//! The purified form of a string.
ghost use Rattle.std.specs.Prelude.{◌≡◌, ◌++◌, OnOk};
ghost use Rattle.std.specs.List.{flat_map, prefix_len};
ghost use Rattle.btx_strings.specs.language.Answers.{no_complaints};
ghost use Rattle.btx_strings.specs.refinement.Answers.{Answers};
ghost use Rattle.btx_strings.specs.language.Controls.{glyphs_of};
ghost use Rattle.btx_strings.specs.refinement.Glyphs.{glyph_of};
ghost use Rattle.btx_strings.specs.language.Purify.{purified_glyph, purify_of};
ghost use Rattle.btx_strings.specs.refinement.Purify.{stays, purified_group, purified_byte};

use crate::answers::{Answer, Complaints};
use crate::controls::{Glyph, Glyphs, letters};
use btx_text::string_elements::group_len;
use btx_text::{Class, Fault, class};
use std::alloc::{AllocError, Global};

// Which bytes stay as they are outside special characters: an `x` stands for each that does, a space, a letter or a digit.
static STAYING: [u8; 256] = *b"\
    ................................\
    x...............xxxxxxxxxx......\
    .xxxxxxxxxxxxxxxxxxxxxxxxxx.....\
    .xxxxxxxxxxxxxxxxxxxxxxxxxx.....\
    xxxxxxxxxxxxxxxxxxxxxxxxxxxxxxxx\
    xxxxxxxxxxxxxxxxxxxxxxxxxxxxxxxx\
    xxxxxxxxxxxxxxxxxxxxxxxxxxxxxxxx\
    xxxxxxxxxxxxxxxxxxxxxxxxxxxxxxxx";

/// A string without what isn't text: whitespace and separators become spaces, letters and digits stay, all else goes. Of a special
/// character the letters and digits stay and foreign control sequences leave the letters that they stand for.
///
/// Errors: [`Fault::Memory`]; [`Fault::StringLimit`] where the text would be over 1,000,000 bytes.
pub fn purify(alloc: Global, string: &[u8]) -> Result<Answer, Fault>
    ensures { Answers result (purify_of string.now) no_complaints }
{
    let mut text = Vec::with_capacity(alloc, string.len())?;
    purify_into(&mut text, string)?;
    Answer::new(text, Complaints::NONE)
}

/// Makes a text what [`purify`] leaves of a string, of any length, in the memory of what stood there. It goes by runs of bytes
/// that stay, and by the groups and bytes between them.
#[tactic(auto, using(crate::proofs::PurifyLemmas::groups))]
pub fn purify_into(text: &mut Vec<u8>, string: &[u8]) -> Result<(), AllocError>
    ensures { OnOk result (text.new.items ≡ purify_of string.now) }
{
    text.clear();
    let mut rest = string;
    while !rest.is_empty() {
        let (run, after) = rest.split_at(run_len(rest));
        text.extend_from_slice(run)?;
        if after.is_empty() {
            return Ok(());
        }
        let (group, others) = after.split_at(group_len(after));
        push_group(text, group)?;
        rest = others;
    }
    Ok(())
}

// How many bytes there are before the first that does not stay as it is.
fn run_len(rest: &[u8]) -> usize
    ensures { result ≡ prefix_len stays rest.now }
{
    for (i, &byte) in rest.iter().enumerate() {
        if !stays(byte) {
            return i;
        }
    }
    rest.len()
}

// Whether a byte stays as it is outside special characters: a space, a letter or a digit does.
fn stays(byte: u8) -> bool
    ensures { result ≡ stays byte }
{
    STAYING[byte as usize] == b'x'
}

// Adds the purified form of a group in braces, or of another byte. A group that is no special character leaves what its bytes do, since braces
// leave nothing.
fn push_group(text: &mut Vec<u8>, group: &[u8]) -> Result<(), AllocError>
    ensures { OnOk result (text.new.items ≡ text.old.items ++ purified_group group.now) }
{
    if group.starts_with(b"{\\") {
        return push_special(text, group);
    }
    for byte in group {
        push_byte(text, *byte)?;
    }
    Ok(())
}

// Adds the purified form of a byte outside special characters.
fn push_byte(text: &mut Vec<u8>, byte: u8) -> Result<(), AllocError>
    ensures { OnOk result (text.new.items ≡ text.old.items ++ purified_byte byte) }
{
    match class(byte) {
        Class::White | Class::Sep => text.push(b' ')?,
        Class::Alpha | Class::Digit => text.push(byte)?,
        Class::Other => {}
    }
    Ok(())
}

// Adds a special character's purified form.
fn push_special(text: &mut Vec<u8>, special: &[u8]) -> Result<(), AllocError>
    ensures { OnOk result (text.new.items ≡ text.old.items ++ flat_map purified_glyph (glyphs_of special.now)) }
{
    for glyph in Glyphs::of(special) {
        match glyph {
            Glyph::Control(name) => text.extend_from_slice(letters(name))?,
            Glyph::Plain(byte) => {
                if matches!(class(byte), Class::Alpha | Class::Digit) {
                    text.push(byte)?;
                }
            }
        }
    }
    Ok(())
}
