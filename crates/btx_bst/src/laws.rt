//! Laws over the definition of a style, each the contract of a function that does nothing.
ghost use Rattle.btx_bst.specs.laws.CommandSpelling.{OneReadingLaw, ReadingLaw};
ghost use Rattle.btx_bst.specs.laws.Counts.{BeforeReadLaw, CountLaw};
ghost use Rattle.btx_bst.specs.laws.FirstNames.{FirstNamesLaw};
ghost use Rattle.btx_bst.specs.laws.ItemSpelling.{GivenLaw, GivingLaw, SkippedLaw, SkippedToEndLaw};
ghost use Rattle.btx_bst.specs.laws.Macros.{MacroTextsLaw, OneMacroLaw};
ghost use Rattle.btx_bst.specs.laws.Meanings.{MeaningsLaw, OneMeaningLaw};
ghost use Rattle.btx_bst.specs.laws.Nexts.{BodyNextLaw, ListNextLaw, StyleNextLaw};
ghost use Rattle.btx_bst.specs.laws.Order.{MacroLaw, OnceLaw, OrderLaw};
ghost use Rattle.btx_bst.specs.laws.Passages.{CommandLaw, InkLaw, SkipLaw};
ghost use Rattle.btx_bst.specs.laws.References.{ReferencesLaw, ItemsLaw, ExecutedLaw};
ghost use Rattle.btx_bst.specs.laws.StylePlaces.{SpotLaw};
ghost use Rattle.btx_bst.specs.laws.Spelling.{SpelledLaw, BrokenLaw, DividedLaw};
ghost use Rattle.btx_bst.specs.laws.WordSpelling.{TokensLaw};
ghost use Rattle.btx_bst.specs.laws.WorkedStyles as worked;
ghost use Rattle.btx_bst.specs.laws.Written.{FaultlessLaw, WrittenLaw};

/// Each token refers to strings, fields and variables of the style and to functions before its own alone; what each command defines or
/// executes is a function, built in or of the style; and a function of the style is executed only after the FUNCTION that defines it.
#[tactic(auto, using(crate::proofs::ReferenceLemmas::reference_laws, crate::proofs::ExecutedLemmas::executed_laws))]
pub fn references_are_earlier()
    ensures bodies { ReferencesLaw }
    ensures commands { ItemsLaw }
    ensures executed { ExecutedLaw }
{}

/// No name has two meanings: the name of anything names it, and two things of one name are one.
#[tactic(auto, using(crate::proofs::MeaningLemmas::meaning_laws))]
pub fn no_name_has_two_meanings()
    ensures names { MeaningsLaw }
    ensures one { OneMeaningLaw }
{}

/// The names that the program means by a number keep their numbers in every style: `crossref`, `sort.key$`, `entry.max$` and `global.max$`.
pub fn predefined_names_keep_their_numbers()
    ensures { FirstNamesLaw }
{}

/// No macro has two meanings: the name of each means its text, and two macros of one name are one.
#[tactic(auto, using(crate::proofs::MacroLemmas::macro_laws))]
pub fn no_macro_has_two_meanings()
    ensures texts { MacroTextsLaw }
    ensures one { OneMacroLaw }
{}

/// ENTRY and READ take effect at most once, READ only after ENTRY, what is executed only after READ, and MACRO only before it.
#[tactic(auto, using(crate::proofs::OrderLemmas::order_laws, crate::proofs::MacroLemmas::macro_order))]
pub fn commands_are_in_order()
    ensures once { OnceLaw }
    ensures order { OrderLaw }
    ensures macros { MacroLaw }
{}

/// How many functions a style has, and how many of them stand before READ, so that an entry may have their names as types: by the numbers that
/// its FUNCTION commands define.
#[tactic(auto, using(crate::proofs::CountLemmas::count_laws))]
pub fn functions_are_counted()
    ensures all { CountLaw }
    ensures before_read { BeforeReadLaw }
{}

/// A list of names, a body and a style are each what stands next, and then the rest.
#[tactic(auto, using(crate::proofs::NextLemmas::next_laws))]
pub fn one_follows_another()
    ensures list { ListNextLaw }
    ensures body { BodyNextLaw }
    ensures style { StyleNextLaw }
{}

/// A body is read as it is spelled: parts up to its `}` as what they come to, and parts that break off with the complaint of the word that
/// breaks them, where it stands. Every text begins with one or the other.
#[tactic(auto, using(crate::proofs::SpellingLemmas::spelling_laws))]
pub fn bodies_are_spelled()
    ensures spelled { SpelledLaw }
    ensures broken { BrokenLaw }
    ensures divided { DividedLaw }
{}

/// A style is read as its commands give it, whole ones and those with a fault; every text is such commands and its end; and what comes after
/// a fault up to the next empty line changes nothing.
pub fn styles_are_spelled()
    ensures given { GivenLaw }
    ensures giving { GivingLaw }
    ensures skipped { SkippedLaw }
    ensures skipped_to_end { SkippedToEndLaw }
{}

/// A style that is written without a fault is read as what its commands do: it gives each of them, in order, and no message.
#[tactic(auto, using(crate::proofs::WrittenLemmas::written_laws))]
pub fn styles_are_read_as_written()
    ensures written { WrittenLaw }
    ensures faultless { FaultlessLaw }
{}

/// A text has one reading, and is read so. A word of a body is met where it is spelled, and nowhere else; each command, whole or with its fault
/// and the line of the fault, is what the spelling of commands says; and nothing that stands in a text can be read as anything else.
pub fn styles_have_one_reading()
    ensures tokens { TokensLaw }
    ensures reading { ReadingLaw }
    ensures one { OneReadingLaw }
{}

/// Short texts are read as they are worked by hand: each command, each message with its line, bodies with their tokens, the word of each
/// built-in function, and what messages say.
#[tactic(auto, using(crate::proofs::StyleRows::worked_rows))]
pub fn worked_styles_are_read_so()
    ensures commands { worked.AreRead worked.commands }
    ensures faults { worked.AreRead worked.faults }
    ensures bodies { worked.AreBodies worked.bodies }
    ensures words { worked.AreWords worked.words }
    ensures messages { worked.AreTexts worked.complaint_texts }
{}

/// Nothing of a text is read twice, and nothing is left out: the text at a place is the whitespace before a command, the command's own, what is
/// skipped after its fault, and the text at the place after it; and the number of a line counts the lines before.
#[tactic(auto, using(crate::proofs::PassageLemmas::passage_laws))]
pub fn all_of_a_text_is_read()
    ensures white { InkLaw }
    ensures command { CommandLaw }
    ensures skipped { SkipLaw }
{}

/// A place is counted: what is left of a line stands in the text after as many bytes as its spot says, and after as many line feeds as lines came before.
pub fn places_are_counted()
    ensures { SpotLaw }
{}
