//! What built-in functions take from the stack, the top one first, and what follows where they don't get that.
ghost use Rattle.std.specs.Prelude.{◌≡◌};
ghost use Rattle.btx_step.specs.language.Table.{row};

use crate::literal::OperandKind;
use crate::stand_in::StandIn;
use btx_bst::BuiltIn;

/// An operand: any literal, or one of a kind.
#[derive(Clone, Copy, PartialEq, Eq, Debug)]
pub enum Operand {
    Any,
    Of(OperandKind),
}

/// What follows where an operand is missing or wrong: the stand-in is pushed in place of a result, or, for `swap$` alone, what was taken is put back.
#[derive(Clone, Copy, PartialEq, Eq, Debug)]
pub enum Default {
    Push(StandIn),
    Back,
}

/// Answers the operands of a function, the top one first.
pub fn operands_of(function: BuiltIn) -> &'static [Operand]
    ensures { result.now ≡ (row function).operands }
{
    match function {
        BuiltIn::CallType
        | BuiltIn::Cite
        | BuiltIn::NewLine
        | BuiltIn::Preamble
        | BuiltIn::Quote
        | BuiltIn::Skip
        | BuiltIn::Stack
        | BuiltIn::Type => &[],
        BuiltIn::Duplicate | BuiltIn::Pop | BuiltIn::Top => &[Operand::Any],
        BuiltIn::Equals | BuiltIn::Swap => &[Operand::Any, Operand::Any],
        BuiltIn::Assign => &[Operand::Of(OperandKind::Function), Operand::Any],
        BuiltIn::IntToChr | BuiltIn::IntToStr => &[Operand::Of(OperandKind::Integer)],
        BuiltIn::Empty | BuiltIn::Missing => &[Operand::Of(OperandKind::TextOrMissing)],
        BuiltIn::AddPeriod
        | BuiltIn::ChrToInt
        | BuiltIn::NumNames
        | BuiltIn::Purify
        | BuiltIn::TextLength
        | BuiltIn::Warning
        | BuiltIn::Width
        | BuiltIn::Write => &[Operand::Of(OperandKind::Text)],
        BuiltIn::Greater | BuiltIn::Less | BuiltIn::Plus | BuiltIn::Minus => {
            &[
                Operand::Of(OperandKind::Integer),
                Operand::Of(OperandKind::Integer),
            ]
        }
        BuiltIn::Concatenate | BuiltIn::ChangeCase => {
            &[
                Operand::Of(OperandKind::Text),
                Operand::Of(OperandKind::Text),
            ]
        }
        BuiltIn::TextPrefix => &[
            Operand::Of(OperandKind::Integer),
            Operand::Of(OperandKind::Text),
        ],
        BuiltIn::While => &[
            Operand::Of(OperandKind::Function),
            Operand::Of(OperandKind::Function),
        ],
        BuiltIn::FormatName => &[
            Operand::Of(OperandKind::Text),
            Operand::Of(OperandKind::Integer),
            Operand::Of(OperandKind::Text),
        ],
        BuiltIn::If => &[
            Operand::Of(OperandKind::Function),
            Operand::Of(OperandKind::Function),
            Operand::Of(OperandKind::Integer),
        ],
        BuiltIn::Substring => &[
            Operand::Of(OperandKind::Integer),
            Operand::Of(OperandKind::Integer),
            Operand::Of(OperandKind::Text),
        ],
    }
}

/// Answers what follows where a function doesn't get its operands.
pub fn default_of(function: BuiltIn) -> Default
    ensures { result ≡ (row function).default }
{
    match function {
        BuiltIn::Swap => Default::Back,
        BuiltIn::Equals
        | BuiltIn::Greater
        | BuiltIn::Less
        | BuiltIn::Plus
        | BuiltIn::Minus
        | BuiltIn::ChrToInt
        | BuiltIn::Empty
        | BuiltIn::Missing
        | BuiltIn::NumNames
        | BuiltIn::TextLength
        | BuiltIn::Width => Default::Push(StandIn::Zero),
        BuiltIn::Concatenate
        | BuiltIn::AddPeriod
        | BuiltIn::ChangeCase
        | BuiltIn::FormatName
        | BuiltIn::IntToChr
        | BuiltIn::IntToStr
        | BuiltIn::Purify
        | BuiltIn::Substring
        | BuiltIn::TextPrefix => Default::Push(StandIn::Empty),
        _ => Default::Push(StandIn::Nothing),
    }
}
