//! Names in formats, one after another.
ghost use Rattle.std.specs.Prelude.{◌≡◌, IfOk, IsTrue, MatchOption, None, Some};
ghost use Rattle.btx_names.specs.refinement.Right.{IsText};
ghost use Rattle.btx_strings.specs.refinement.Answers.{Answers};
ghost use Rattle.btx_names.specs.language.Answered as spec;
ghost use Rattle.btx_names.specs.refinement.KeptNames.{kept_bytes};

use crate::formatted::{format_one, write_one};
use crate::kept_formats::KeptFormats;
use crate::kept_name::KeptName;
use crate::kept_names::KeptNames;
use crate::writer::Writer;
use btx_strings::{Answer, Complaints};
use btx_text::{Fault, GREATEST_STRING, TextMode};
use std::alloc::{AllocError, Global};

// How many formats are kept at most. A style mostly has fewer.
const MOST_FORMATS: usize = 16;

// How many bytes a list of names has at most that is kept: as many as a string may have, so that no list is read from its start for each of its names.
const LONGEST_LIST: usize = GREATEST_STRING;

/// Puts names in formats. It keeps the latest names with their lists and tokens, and some formats as they were read, since a style mostly asks for
/// the names of one list, time and again and in a few formats. No answer depends on what is kept.
#[derive(Drop)]
pub struct NameFormatter {
    alloc: Global,
    names: KeptNames,
    formats: KeptFormats,
    writer: Writer,
}

impl NameFormatter {
    /// With nothing kept, and room for formats.
    pub fn new(alloc: Global) -> NameFormatter {
        NameFormatter {
            alloc,
            names: KeptNames::new(alloc),
            formats: KeptFormats::new(alloc, MOST_FORMATS),
            writer: Writer::new(alloc),
        }
    }

    /// A name of a string in a format, with what was wrong: `x10` where there is no name of the number, which counts from 1, and else
    /// `x11` (a comma at the name's end), `x12` (a third comma) and `x13` (an illegal format), each as it holds. With `x10` or `x13` the text is empty.
    /// [`Fault::StringLimit`] where the text would be longer than a string may be, [`Fault::Memory`] where memory is refused.
    pub fn format(
        &mut self,
        names: &[u8],
        number: i32,
        format: &[u8],
        mode: TextMode,
    ) -> Result<Answer, Fault>
        ensures { Answers result (spec.format_name_text mode names.now number format.now) (spec.format_name_complaints names.now number format.now) }
    {
        let answer = match name_numbered(&mut self.names, names, number)? {
            Some(name) => format_one(
                self.alloc,
                name,
                &mut self.formats,
                &mut self.writer,
                format,
                mode,
            ),
            None => Answer::new(
                Vec::new(self.alloc),
                Complaints {
                    x10: true,
                    ..Complaints::NONE
                },
            ),
        };
        if names.len() > LONGEST_LIST {
            self.names.forget_long();
        }
        answer
    }

    /// Writes a name of a string in a format, as [`NameFormatter::format`] does, where nothing is wrong with them, and answers true: the text is
    /// what [`NameFormatter::text`] answers then. Answers false where something is wrong, or the list or the text is long.
    #[tactic(auto, using(crate::proofs::FormattedLemmas::text_right))]
    pub fn write(
        &mut self,
        names: &[u8],
        number: i32,
        format: &[u8],
        mode: TextMode,
    ) -> Result<bool, Fault>
        ensures { IfOk result (λ written. IsTrue written → IsText mode names.now number format.now self.new.writer.text.items) }
    {
        if names.len() > LONGEST_LIST {
            return Ok(false);
        }
        let Some(name) = name_numbered(&mut self.names, names, number)? else {
            return Ok(false);
        };
        if !write_one(name, &mut self.formats, &mut self.writer, format, mode)? {
            return Ok(false);
        }
        Ok(self.writer.text().len() <= GREATEST_STRING)
    }

    /// The text that was written last.
    pub fn text(&self) -> &[u8]
        ensures { result.now ≡ self.now.writer.text.items }
    {
        self.writer.text()
    }
}

/// Formats the name with the number `number`, counted from 1, of the string `names`, as `format` says. It keeps nothing for a later call: who formats
/// many names has a [`NameFormatter`].
///
/// The complaints are `x10` where there is no name of the number, and else `x11` (a comma at the name's end), `x12` (a third comma) and `x13` (an illegal
/// format), each as it holds. With `x10` or `x13` the text is empty.
/// Errors: [`Fault::Memory`]; [`Fault::StringLimit`] where the text would be over 1,000,000 bytes.
pub fn format_name(
    alloc: Global,
    names: &[u8],
    number: i32,
    format: &[u8],
    mode: TextMode,
) -> Result<Answer, Fault>
    ensures { Answers result (spec.format_name_text mode names.now number format.now) (spec.format_name_complaints names.now number format.now) }
{
    NameFormatter::new(alloc).format(names, number, format, mode)
}

// How many names stand before the one of a number.
#[tactic(auto, using(crate::proofs::FormattedLemmas::before_steps), unfolding(crate::specs::language::Answered::names_before))]
fn names_before(number: i32) -> Option<usize>
    ensures { result ≡ spec.names_before number }
{
    match usize::try_from(number) {
        Ok(0) | Err(_) => None,
        Ok(number) => Some(number - 1),
    }
}

// A name of a string, by its number from 1 on, if there is one.
#[inline(always)]
#[tactic(auto, using(crate::proofs::FormattedLemmas::nth_steps))]
fn name_numbered<'k>(
    kept: &'k mut KeptNames,
    names: &[u8],
    number: i32,
) -> Result<Option<&'k KeptName>, AllocError>
    ensures { IfOk result (λ found. MatchOption found (spec.nth_name names.now number ≡ None)
        (λ kept. spec.nth_name names.now number ≡ Some (kept_bytes kept.now))) }
{
    match names_before(number) {
        Some(before) => kept.find(names, before),
        None => Ok(None),
    }
}
