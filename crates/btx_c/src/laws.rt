//! Laws, each the contract of a function that does nothing.
ghost use Rattle.btx_c.specs.CleanEnds.{CleanStylesEndWell};
ghost use Rattle.btx_c.specs.Needs.{NeverAsks};

/// No job needs another file that needs no other. So where `btx_needs` answers `ENDS`, or `DONE` without a name, `btx_run` never answers `ASKS`.
pub fn never_asks()
    ensures { NeverAsks }
{}

/// A style that is clean and ends: where the budget is at least the bound, each run finishes, or it ends at the limit of a string or a file.
pub fn clean_styles_end_well()
    ensures { CleanStylesEndWell }
{}
