//! Laws of libraries. Each is the contract of a function with nothing to do.
ghost use Rattle.std.specs.Prelude.{◌≡◌, List, ℕ};
ghost use Rattle.btx_bib.specs.laws.Cuts.{CutGivesTheSame};
ghost use Rattle.btx_bib.specs.language.Grammar.Items.{Placed};
ghost use Rattle.btx_bib.specs.laws.Grammar.Reading.{IsReading};
ghost use Rattle.btx_bib.specs.language.Known.{Known, stored_keys};
ghost use Rattle.btx_bib.specs.language.Messages.{Database};
ghost use Rattle.btx_bib.specs.language.Request.{Request};
ghost use Rattle.btx_bib.specs.declared.grammar.commands.Expected.TheVariants as next;
ghost use Rattle.btx_bib.specs.laws.Laws.{KeysDiffer, ListIsKept, StarredCitedOrReferred};
ghost use Rattle.btx_bib.specs.laws.Parents.{InheritsFromParent, NoParentLeaves, NoReferenceDangles};
ghost use Rattle.btx_bib.specs.laws.Grammar.WorkedTexts as texts;
ghost use Rattle.btx_bib.specs.laws.WorkedLibraries as worked;
ghost use Rattle.btx_bib.specs.laws.Storing.{LastDefinitionCounts, LastMacroCounts, MacrosGoOn, OthersKeepTheirs, OthersStoreNone, WantedNewAreStored};
ghost use Rattle.btx_bib.specs.laws.Databases.{LongDatabaseEnds, MessagesStay, database_events};

/// No two entries of a list have one key, whose case is ignored.
pub fn keys_differ()
    ensures { KeysDiffer }
{}

/// An entry of the list stays exactly if `*` was cited, or its key, or as many stored entries refer to it as are asked for.
pub fn starred_cited_or_referred()
    ensures { StarredCitedOrReferred }
{}

/// The entries of a whole library are those of the keys that have an entry and were cited or are referred to often enough, in the order
/// of the list.
pub fn list_is_kept()
    ensures { ListIsKept }
{}

/// What stands as an entry's `crossref` is the key of an entry of the list, spelled as the list spells it.
pub fn no_reference_dangles()
    ensures { NoReferenceDangles }
{}

/// Where no reference is asked for, a parent that has an entry stays.
pub fn no_parent_leaves()
    ensures { NoParentLeaves }
{}

/// An entry of the list keeps its own values. A field that it lacks has the value that its parent has of its own; and whatever value such
/// a field has, its parent has it too, once all entries have taken theirs.
pub fn inherits_from_parent()
    ensures { InheritsFromParent }
{}

/// A database that is no longer than a file may be gives the same entries, preamble and end where it is cut in two and no item is open there:
/// the last that was read before is the end of an item, or something comes after it, or it is an `@comment` whose name doesn't go on.
pub fn cut_gives_the_same()
    ensures { CutGivesTheSame }
{}

/// The events along which a library is read are the one reading of each database.
pub fn libraries_read_the_one_reading()
    ensures reads { (wanted : Request) (known : Known) (database : Database) →
        IsReading (stored_keys wanted) known next.Item database.text (database_events wanted known database) }
    ensures only { (wanted : Request) (known : Known) (database : Database) (events : List Placed) →
        IsReading (stored_keys wanted) known next.Item database.text events → events ≡ database_events wanted known database }
{}

/// A name stands for the value of its last definition before, and where there is none for the value that it had: at the beginning that of
/// the style's last macro of this name.
pub fn last_definition_counts()
    ensures last { LastDefinitionCounts }
    ensures others { OthersKeepTheirs }
    ensures macros { LastMacroCounts }
{}

/// A macro of the style ends the reading exactly where its text is too long once its whitespace is squeezed. Where the reading ends at a limit, the
/// library has the messages until then: where a database is too long, those of the databases before it.
pub fn limits_keep_messages()
    ensures macros { MacrosGoOn }
    ensures messages { MessagesStay }
    ensures databases { LongDatabaseEnds }
{}

/// An entry that is read is stored exactly if it is wanted (all entries are, or it was cited, or a stored entry refers to it) and no
/// stored one has its key; nothing else that is read stores one.
pub fn wanted_new_entries_are_stored()
    ensures entry { WantedNewAreStored }
    ensures others { OthersStoreNone }
{}

/// Short databases are read as they are worked by hand: what stands in them and each fault, the texts of values, the entries, the list
/// with its references, where a database may be cut, and the line of each message.
#[tactic(auto, using(crate::proofs::WorkedRows::worked_rows))]
pub fn worked_databases_are_read_so()
    ensures texts { texts.AreEvents texts.texts }
    ensures values { texts.AreValueTexts texts.value_texts }
    ensures entries { worked.AreGiven worked.entries }
    ensures references { worked.AreGiven worked.reference_rows }
    ensures cuts { worked.AreCuts worked.cuts }
    ensures no_cuts { worked.AreNoCuts worked.no_cuts }
    ensures messages { worked.AreLines worked.messages }
{}
