//! A style that has been read.
ghost use Rattle.std.specs.Prelude.{◌≡◌, ◌<◌, ◌≤◌, length, slice_index_or, [], IfOk, OnOk, Some};
ghost use Rattle.btx_bst.specs.language.Predefined.{predefined};
ghost use Rattle.btx_bst.specs.language.StyleText.{style_of};
ghost use Rattle.btx_bst.specs.refinement.StyleReads.{Reads, style_in};
ghost use Rattle.btx_bst.specs.laws.References.{RefersWithin};
ghost use Rattle.btx_bst.specs.language.Names.{named_lower, name_of};
ghost use Rattle.btx_bst.specs.language.Style.{field_of, type_of};
ghost use Rattle.btx_bst.specs.refinement.Views.{items_view};
ghost use Rattle.btx_text.specs.language.Limits.{greatest_file};
ghost use Rattle.btx_bst.specs.laws.Names.{no_names};
ghost use Rattle.btx_bst.specs.laws.Recorded.{nothing_recorded, recorded_of};
ghost use Rattle.btx_bst.specs.laws.StylePlaces.{places_of};

use crate::callee::{Callee, Kind};
use crate::cursor::Cursor;
use crate::draft::StyleBuilder;
use crate::item::Item;
use crate::macros::Macros;
use crate::names::Names;
use crate::reader::items;
use crate::recorder::{NoRecord, Recorder, Recording};
use crate::style_places::{StylePlaces, line_ends};
use crate::token::Token;
use btx_text::limits::GREATEST_FILE;
use btx_text::{Fault, Lowered};
use std::alloc::{AllocError, Global};
use std::marker::Model;

/// A style that has been read. What it shows is borrowed from the text of its file.
#[derive(Drop)]
pub struct Style<'a> {
    draft: StyleBuilder<'a>,
}

impl<'a> Model for Style<'a> {
    ghost use Rattle.btx_bst.specs.language.Style.{Style as Known};

    ghost Value = { Known };

    ghost use Rattle.btx_bst.specs.refinement.DraftViews.{draft_view};
    ghost use Rattle.btx_bst.specs.laws.References.{RefersWithin};

    ghost view = { λ style. draft_view style.draft };

    ghost invariant = { λ style. RefersWithin (draft_view style.draft) };
}

/// Reads a style, whose text is no longer than a file may be. Want of memory is the fault Memory, a longer text FileLimit.
pub fn read_style<'a>(
    alloc: Global,
    file_name: &'a [u8],
    text: &'a [u8],
) -> Result<Style<'a>, Fault>
    ensures { Reads result file_name.now text.now }
{
    if text.len() > GREATEST_FILE {
        return Err(Fault::FileLimit);
    }
    Ok(read_text(alloc, file_name, text, &mut NoRecord)?)
}

/// A style that has been read, and where its tokens and items stand in its text.
#[derive(Drop)]
pub struct PlacedStyle<'a> {
    /// The style.
    pub style: Style<'a>,
    /// Where its tokens and items stand.
    pub places: StylePlaces,
}

/// Reads a style as `read_style` does, and notes where its tokens and items stand.
pub fn read_placed_style<'a>(
    alloc: Global,
    file_name: &'a [u8],
    text: &'a [u8],
) -> Result<PlacedStyle<'a>, Fault>
    ensures style { Reads (style_in result) file_name.now text.now }
    ensures places { IfOk result (λ placed. placed.places ≡ places_of file_name.now text.now) }
{
    if text.len() > GREATEST_FILE {
        return Err(Fault::FileLimit);
    }
    Ok(read_with_places(alloc, file_name, text)?)
}

// Reads a style and its places.
#[tactic(auto, unfolding(crate::specs::laws::StylePlaces::places_of))]
fn read_with_places<'a>(
    alloc: Global,
    file_name: &'a [u8],
    text: &'a [u8],
) -> Result<PlacedStyle<'a>, AllocError>
    requires { length text.now ≤ greatest_file }
    ensures style { IfOk result (λ placed. placed.style ≡ style_of file_name.now text.now) }
    ensures places { IfOk result (λ placed. placed.places ≡ places_of file_name.now text.now) }
{
    let ends = line_ends(alloc, text)?;
    let mut recorder = Recorder::new(alloc);
    let style = read_text(alloc, file_name, text, &mut recorder)?;
    Ok(PlacedStyle {
        style,
        places: StylePlaces::of(recorder, ends),
    })
}

// Reads a style, and records where its tokens and items stand, if anything is recorded.
#[tactic(auto, unfolding(crate::specs::language::StyleText::style_of, crate::specs::laws::Recorded::recorded_of))]
fn read_text<'a, R: Recording>(
    alloc: Global,
    file_name: &'a [u8],
    text: &'a [u8],
    recorder: &mut R,
) -> Result<Style<'a>, AllocError>
    requires { length text.now ≤ greatest_file }
    ensures style { IfOk result (λ style. style ≡ style_of file_name.now text.now) }
    ensures recorded { OnOk result (R.recorded recorder.old ≡ Some nothing_recorded → R.recorded recorder.new ≡ Some (recorded_of file_name.now text.now)) }
{
    let mut draft = StyleBuilder::new(alloc, file_name, predefined(alloc)?);
    let mut cursor = Cursor::of(text);
    items(alloc, &mut cursor, &mut draft, recorder)?;
    Ok(Style { draft })
}

// The names that are known before a style.
fn predefined<'a>(alloc: Global) -> Result<Names<'a>, AllocError>
    ensures { IfOk result (λ names. names ≡ predefined) }
{
    let mut names = Names::new(alloc)?;
    add_predefined(alloc, &mut names)?;
    Ok(names)
}

// Adds the names that are known before a style to the built-in functions.
#[tactic(auto, using(crate::proofs::PredefinedLemmas::new_names))]
fn add_predefined(alloc: Global, names: &mut Names<'_>) -> Result<(), AllocError>
    requires { names.old ≡ no_names }
    ensures { OnOk result (names.new ≡ predefined) }
{
    names.add(alloc, Kind::Field, Lowered::of(alloc, b"crossref")?)?;
    names.add(alloc, Kind::EntryString, Lowered::of(alloc, b"sort.key$")?)?;
    names.add(
        alloc,
        Kind::GlobalInteger,
        Lowered::of(alloc, b"entry.max$")?,
    )?;
    names.add(
        alloc,
        Kind::GlobalInteger,
        Lowered::of(alloc, b"global.max$")?,
    )
}

impl<'a> Style<'a> {
    /// A style refers to nothing outside itself: each token to strings, fields and variables of the style and to functions before its own
    /// alone, each command to a function, built in or of the style; and so do its names and its types.
    pub fn refers_within(&self)
        ensures { RefersWithin self.now }
    {
        let _ = &self.draft;
    }

    /// The name of the file.
    pub fn file_name(&self) -> &'a [u8]
        ensures { result.now ≡ self.now.file }
    {
        self.draft.file_name
    }

    /// The commands and messages, in order.
    pub fn items(&self) -> &[Item<'a>]
        ensures { items_view result.now ≡ self.now.items }
    {
        self.draft.items.as_slice()
    }

    /// How many functions the style has, named and nameless.
    pub fn functions(&self) -> usize
        ensures { result ≡ length self.now.bodies }
    {
        self.draft.bodies.len()
    }

    /// The tokens of the function of a number.
    pub fn body(&self, number: usize) -> &[Token]
        requires { number < length self.now.bodies }
        ensures { result.now ≡ slice_index_or self.now.bodies number [] }
    {
        self.draft.bodies.body(number)
    }

    /// The string of a number; past the last one there is none, and it is empty.
    pub fn text(&self, number: u32) -> &'a [u8]
        ensures { result.now ≡ slice_index_or self.now.texts number [] }
    {
        match self.draft.texts.get(number as usize) {
            Some(text) => text,
            None => &[],
        }
    }

    /// What a name in lower case names.
    pub fn named(&self, lowered: &[u8]) -> Option<Callee>
        ensures { result ≡ named_lower self.now.names lowered.now }
    {
        self.draft.names.find(lowered)
    }

    /// The name of a built-in function, a function, a field or a variable, in lower case; `{}` for a nameless function.
    pub fn name(&self, callee: Callee) -> &[u8]
        ensures { result.now ≡ name_of self.now.names callee }
    {
        self.draft.names.name(callee)
    }

    /// The number of a field by its name in lower case.
    pub fn field(&self, lowered: &[u8]) -> Option<u32>
        ensures { result ≡ field_of self.now lowered.now }
    {
        match self.draft.names.find(lowered) {
            Some(Callee::Field(number)) => Some(number),
            _ => None,
        }
    }

    /// The function of an entry's type, given in lower case: a function of the style that stands before READ.
    pub fn type_function(&self, lowered: &[u8]) -> Option<u32>
        ensures { result ≡ type_of self.now lowered.now }
    {
        let count = self.draft.before_read?;
        match self.draft.names.find(lowered) {
            Some(Callee::User(number)) if (number as usize) < count => Some(number),
            _ => None,
        }
    }

    /// How many fields there are.
    pub fn fields(&self) -> usize
        ensures { result ≡ length self.now.names.fields }
    {
        self.draft.names.count(Kind::Field)
    }

    /// How many integer variables each entry has.
    pub fn entry_integers(&self) -> usize
        ensures { result ≡ length self.now.names.entry_integers }
    {
        self.draft.names.count(Kind::EntryInteger)
    }

    /// How many string variables each entry has.
    pub fn entry_strings(&self) -> usize
        ensures { result ≡ length self.now.names.entry_strings }
    {
        self.draft.names.count(Kind::EntryString)
    }

    /// How many global integer variables there are.
    pub fn global_integers(&self) -> usize
        ensures { result ≡ length self.now.names.global_integers }
    {
        self.draft.names.count(Kind::GlobalInteger)
    }

    /// How many global string variables there are.
    pub fn global_strings(&self) -> usize
        ensures { result ≡ length self.now.names.global_strings }
    {
        self.draft.names.count(Kind::GlobalString)
    }

    /// The macros, in order.
    pub fn macros(&self) -> &Macros<'a>
        ensures { result.now ≡ self.now.macros }
    {
        &self.draft.macros
    }
}
