//! Laws over what the `.aux` files of a job say, each the contract of a function that does nothing.
ghost use Rattle.btx_aux.specs.laws.Openings.{NoFileTwice, NoKeyTwice, OpensByConditions, TopOpensFirst};

/// No two keys of a job are equal without case.
pub fn no_key_twice()
    ensures { NoKeyTwice }
{}

/// No file is opened twice.
pub fn no_file_twice()
    ensures { NoFileTwice }
{}

/// The top file is opened first if it is there. Another file is opened directly after an `\@input` line of its name, and exactly if
/// the name ends in `.aux`, nothing earlier names the file, it is there, and fewer than 20 files are open.
pub fn opened_by_conditions()
    ensures top { TopOpensFirst }
    ensures included { OpensByConditions }
{}
