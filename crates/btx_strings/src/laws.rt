//! Laws over the definitions, each the contract of a function that does nothing.
ghost use Rattle.std.specs.Prelude.{◌≡◌, ◌↔◌, ◌⊎◌, ℕ, List, [], IsTrue};
ghost use Rattle.btx_strings.specs.language.Case.{begins_title};
ghost use Rattle.btx_strings.specs.laws.Case.{EndInColonAndWhite};
ghost use Rattle.btx_strings.specs.language.Controls.{Glyph, glyphs_of};
ghost use Rattle.btx_strings.specs.laws.Controls.{AreGlyphs};
ghost use Rattle.btx_strings.specs.language.Lengths.{take_characters};
ghost use Rattle.btx_strings.specs.laws.Lengths.{IsShortest};
ghost use Rattle.btx_strings.specs.laws.WorkedSpecials.{AreSpecials, specials};
ghost use Rattle.btx_text.specs.language.Elements.{Element};

/// Each special character is read as control sequences and other bytes in exactly one way.
pub fn one_reading()
    ensures reads { (special : List ℕ) → AreGlyphs special (glyphs_of special) }
    ensures only { (special : List ℕ) (glyphs : List Glyph) → AreGlyphs special glyphs → glyphs ≡ glyphs_of special }
{}

/// The prefix with this number of characters of text is the shortest one, or the whole text where there are not as many.
pub fn shortest_prefix()
    ensures { (count : ℕ) (parts : List Element) → IsShortest count parts (take_characters count parts) }
{}

/// An element begins a title or a part of one exactly where nothing stands before it, or whitespace does, and before that whitespace a colon
/// outside all braces. The elements before are given nearest first.
pub fn title_beginnings()
    ensures { (before : List Element) →
        IsTrue (begins_title before) ↔ ((before ≡ []) ⊎ EndInColonAndWhite before) }
{}

/// What is left of each foreign control sequence, and of others, in a purified form, and their widths; whitespace after a control sequence has none.
pub fn worked_specials_come_to_this()
    ensures { AreSpecials specials }
{}
