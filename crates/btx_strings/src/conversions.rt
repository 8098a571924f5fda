//! The conversions of a case change.
ghost use Rattle.std.specs.Prelude.{◌≡◌};
ghost use Rattle.btx_strings.specs.language.Case as spec;

/// What becomes of the letters of a string.
#[derive(Clone, Copy, Debug, PartialEq, Eq)]
pub enum Conversion {
    /// All are lowered but those of the first element and of an element after a colon and whitespace.
    Title,
    /// All are lowered.
    Lower,
    /// All are raised.
    Upper,
}

impl Conversion {
    /// The conversion that a string names: one letter `t`, `l` or `u`, in either case.
    pub fn named(name: &[u8]) -> Option<Conversion>
        ensures { result ≡ spec.conversion_of name.now }
    {
        match name {
            b"t" | b"T" => Some(Conversion::Title),
            b"l" | b"L" => Some(Conversion::Lower),
            b"u" | b"U" => Some(Conversion::Upper),
            _ => None,
        }
    }

    /// A byte raised or lowered.
    pub fn apply(self, byte: u8) -> u8
        ensures { result ≡ spec.case_of self byte }
    {
        match self {
            Conversion::Upper => byte.to_ascii_uppercase(),
            Conversion::Title | Conversion::Lower => byte.to_ascii_lowercase(),
        }
    }

    // Whether a control sequence becomes letters without a backslash.
    pub(crate) fn makes_letters(self, name: &[u8]) -> bool
        ensures { result ≡ spec.becomes_letters self name.now }
    {
        match self {
            Conversion::Upper => matches!(name, b"i" | b"j" | b"ss"),
            Conversion::Title | Conversion::Lower => false,
        }
    }
}
