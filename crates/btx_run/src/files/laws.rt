//! Laws of what is logged of files, each the contract of a function that does nothing.
ghost use Rattle.btx_run.specs.laws.Files.Laws.{FoundAreNumbered, MissingAreErrors, OneLineEach};
ghost use Rattle.btx_run.specs.laws.Files.Origins.{LinesAreOfFiles};

/// The databases that are found are numbered from 1 up without a gap, each that isn't there is an error of its own, and each has one line.
pub fn databases_are_logged()
    ensures numbered { FoundAreNumbered }
    ensures missing { MissingAreErrors }
    ensures lines { OneLineEach }
{}

/// Each line that reading a job's files logs is that of a note on the `.aux` files, of the style or of a database that they name.
pub fn lines_are_of_files()
    ensures { LinesAreOfFiles }
{}
