//! Options that are spelt as the original's, with one hyphen.
ghost use Rattle.std.specs.Prelude.{◌≡◌};
ghost use Rattle.btx_command.specs.Spelling.{hint_of, is_of_original, spells_as_original};

// What is reported where an option is spelt so.
const HINT: &str =
    "bibtex: options have two hyphens here, as in '--min-crossrefs'; the script bibtex-search takes the original's\n";

// Whether a word begins with an option of the original.
fn is_of_original(word: &str) -> bool
    ensures { result ≡ is_of_original word.now }
{
    let word = word.as_bytes();
    word.starts_with(b"-min-crossrefs")
        || word.starts_with(b"-terse")
        || word.starts_with(b"-version")
}

// Whether a word before `--` does.
fn spells_as_original(words: &[String]) -> bool
    ensures { result ≡ spells_as_original words.now }
{
    words
        .iter()
        .take_while(|word| word.as_str() != "--")
        .any(|word| is_of_original(word.as_str()))
}

/// Answers what is printed after the text of a mistake in `words`: a line if an option is spelled as the original's, else nothing.
pub fn hint(words: &[String]) -> &'static str
    ensures { result.now ≡ hint_of words.now }
{
    if spells_as_original(words) { HINT } else { "" }
}
