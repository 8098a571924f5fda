//! The built-in functions.
ghost use Rattle.std.specs.Prelude.{◌≡◌};
ghost use Rattle.btx_bst.specs.language.BuiltIns.{built_in_name};

/// One of the 37 built-in functions of styles.
#[derive(Clone, Copy, Debug, PartialEq, Eq)]
pub enum BuiltIn {
    /// `=`
    Equals,
    /// `>`
    Greater,
    /// `<`
    Less,
    /// `+`
    Plus,
    /// `-`
    Minus,
    /// `*`
    Concatenate,
    /// `:=`
    Assign,
    /// `add.period$`
    AddPeriod,
    /// `call.type$`
    CallType,
    /// `change.case$`
    ChangeCase,
    /// `chr.to.int$`
    ChrToInt,
    /// `cite$`
    Cite,
    /// `duplicate$`
    Duplicate,
    /// `empty$`
    Empty,
    /// `format.name$`
    FormatName,
    /// `if$`
    If,
    /// `int.to.chr$`
    IntToChr,
    /// `int.to.str$`
    IntToStr,
    /// `missing$`
    Missing,
    /// `newline$`
    NewLine,
    /// `num.names$`
    NumNames,
    /// `pop$`
    Pop,
    /// `preamble$`
    Preamble,
    /// `purify$`
    Purify,
    /// `quote$`
    Quote,
    /// `skip$`
    Skip,
    /// `stack$`
    Stack,
    /// `substring$`
    Substring,
    /// `swap$`
    Swap,
    /// `text.length$`
    TextLength,
    /// `text.prefix$`
    TextPrefix,
    /// `top$`
    Top,
    /// `type$`
    Type,
    /// `warning$`
    Warning,
    /// `while$`
    While,
    /// `width$`
    Width,
    /// `write$`
    Write,
}

/// All built-in functions.
pub const BUILT_INS: [BuiltIn; 37] = [
    BuiltIn::Equals,
    BuiltIn::Greater,
    BuiltIn::Less,
    BuiltIn::Plus,
    BuiltIn::Minus,
    BuiltIn::Concatenate,
    BuiltIn::Assign,
    BuiltIn::AddPeriod,
    BuiltIn::CallType,
    BuiltIn::ChangeCase,
    BuiltIn::ChrToInt,
    BuiltIn::Cite,
    BuiltIn::Duplicate,
    BuiltIn::Empty,
    BuiltIn::FormatName,
    BuiltIn::If,
    BuiltIn::IntToChr,
    BuiltIn::IntToStr,
    BuiltIn::Missing,
    BuiltIn::NewLine,
    BuiltIn::NumNames,
    BuiltIn::Pop,
    BuiltIn::Preamble,
    BuiltIn::Purify,
    BuiltIn::Quote,
    BuiltIn::Skip,
    BuiltIn::Stack,
    BuiltIn::Substring,
    BuiltIn::Swap,
    BuiltIn::TextLength,
    BuiltIn::TextPrefix,
    BuiltIn::Top,
    BuiltIn::Type,
    BuiltIn::Warning,
    BuiltIn::While,
    BuiltIn::Width,
    BuiltIn::Write,
];

impl BuiltIn {
    /// The word that a style writes.
    pub fn word(self) -> &'static [u8]
        ensures { result.now ≡ built_in_name self }
    {
        match self {
            BuiltIn::Equals => b"=",
            BuiltIn::Greater => b">",
            BuiltIn::Less => b"<",
            BuiltIn::Plus => b"+",
            BuiltIn::Minus => b"-",
            BuiltIn::Concatenate => b"*",
            BuiltIn::Assign => b":=",
            BuiltIn::AddPeriod => b"add.period$",
            BuiltIn::CallType => b"call.type$",
            BuiltIn::ChangeCase => b"change.case$",
            BuiltIn::ChrToInt => b"chr.to.int$",
            BuiltIn::Cite => b"cite$",
            BuiltIn::Duplicate => b"duplicate$",
            BuiltIn::Empty => b"empty$",
            BuiltIn::FormatName => b"format.name$",
            BuiltIn::If => b"if$",
            BuiltIn::IntToChr => b"int.to.chr$",
            BuiltIn::IntToStr => b"int.to.str$",
            BuiltIn::Missing => b"missing$",
            BuiltIn::NewLine => b"newline$",
            BuiltIn::NumNames => b"num.names$",
            BuiltIn::Pop => b"pop$",
            BuiltIn::Preamble => b"preamble$",
            BuiltIn::Purify => b"purify$",
            BuiltIn::Quote => b"quote$",
            BuiltIn::Skip => b"skip$",
            BuiltIn::Stack => b"stack$",
            BuiltIn::Substring => b"substring$",
            BuiltIn::Swap => b"swap$",
            BuiltIn::TextLength => b"text.length$",
            BuiltIn::TextPrefix => b"text.prefix$",
            BuiltIn::Top => b"top$",
            BuiltIn::Type => b"type$",
            BuiltIn::Warning => b"warning$",
            BuiltIn::While => b"while$",
            BuiltIn::Width => b"width$",
            BuiltIn::Write => b"write$",
        }
    }
}
