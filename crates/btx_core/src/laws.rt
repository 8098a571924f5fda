//! Laws of the product of a job as one relation, each the contract of a function that does nothing.
ghost use Rattle.btx_core.specs.laws.ByNumbers.{IsTheProduct};
ghost use Rattle.btx_core.specs.laws.ProductLaws.{CornerProducts, EarlyEnds, OneProduct, SameProduct, SomeProduct, WorkedProducts};
ghost use Rattle.btx_core.specs.laws.SameLibraries.{SameLibrary};
ghost use Rattle.btx_core.specs.laws.SameParts.{OneDivision, SameAux, SameLines, SameSure, SomeDivision};
ghost use Rattle.btx_core.specs.laws.SameStyles.{OneStyle, SameStyle};

/// The relation in which functions, strings, fields and entries still have numbers holds of the product of a job, and of nothing else: its styles and
/// databases are read, its style is executed and its list is sorted as relations say.
pub fn stage_is_the_product()
    ensures { IsTheProduct }
{}

/// The relation without numbers holds of the product of a job, and of nothing else, for lines of 3 bytes or more: what it says a job comes to is what `product`
/// computes.
pub fn relation_is_the_product()
    ensures { SameProduct }
{}

/// A job has at most one product in the relation without numbers, for lines of 3 bytes or more.
pub fn one_product()
    ensures { OneProduct }
{}

/// Each job has a product in it, for lines of 3 bytes or more.
pub fn some_product()
    ensures { SomeProduct }
{}

/// Where the reading of a job's files ends before a style is executed, the relation without numbers holds of the product of the job.
pub fn early_ends()
    ensures { EarlyEnds }
{}

/// What stands in the relation without numbers for each worked job of `btx_run` is the list, the log and the status that were worked for that job without
/// any definition.
pub fn worked_products()
    ensures { WorkedProducts }
{}

/// The same of jobs for the corners of the rules.
pub fn corner_products()
    ensures { CornerProducts }
{}

/// The `.aux` files of a job say one thing, and that is the job that the reader of `.aux` files makes of them.
pub fn aux_files_agree()
    ensures { SameAux }
{}

/// Lines of the list are written in one way alone, for lines of 3 bytes or more: as the breaker writes them that have ended, and those that are pending.
pub fn lines_agree()
    ensures ended { SameLines }
    ensures pending { SameSure }
{}

/// Strings are divided in one way alone.
pub fn divisions_agree()
    ensures one { OneDivision }
    ensures some { SomeDivision }
{}

/// Each text is one style in names; and that is the style that the reader of styles makes of the text, whose functions, strings, fields and variables have
/// numbers.
pub fn styles_agree()
    ensures one { OneStyle }
    ensures same { SameStyle }
{}

/// The library that databases give to a job and a style, in names, is the one that the reader of databases makes of them, where values stand by the numbers of
/// fields: the same entries in the same order, each with the same type and values after cross-references, the same preamble, lines of the log, and limit.
pub fn libraries_agree()
    ensures { SameLibrary }
{}
