//! The commands of a style.
ghost use Rattle.std.specs.Prelude.{◌≡◌};
ghost use Rattle.btx_bst.specs.language.CommandWords.{command_word_of};

/// One of the ten commands of a style.
#[derive(Clone, Copy, Debug, PartialEq, Eq)]
pub enum Command {
    /// The names of fields, entry integers and entry strings.
    Entry,
    /// A function.
    Function,
    /// The databases are read.
    Read,
    /// A function is executed.
    Execute,
    /// A function is executed for each entry.
    Iterate,
    /// A function is executed for each entry, from the last.
    Reverse,
    /// The entries are sorted.
    Sort,
    /// The names of global integers.
    Integers,
    /// The names of global strings.
    Strings,
    /// A macro.
    Macro,
}

impl Command {
    /// The command's word, in capitals.
    pub fn word(self) -> &'static [u8]
        ensures { result.now ≡ command_word_of self }
    {
        match self {
            Command::Entry => b"ENTRY",
            Command::Function => b"FUNCTION",
            Command::Read => b"READ",
            Command::Execute => b"EXECUTE",
            Command::Iterate => b"ITERATE",
            Command::Reverse => b"REVERSE",
            Command::Sort => b"SORT",
            Command::Integers => b"INTEGERS",
            Command::Strings => b"STRINGS",
            Command::Macro => b"MACRO",
        }
    }
}
