//! Descriptions of literals.
use btx_bst::Callee;

/// Which strings a literal can be, by their class, and whether it can be a missing field.
#[derive(Clone, Copy, PartialEq, Eq)]
pub struct Mask {
    /// A field that is missing.
    pub missing: bool,
    /// The empty string.
    pub empty: bool,
    /// A string of whitespace alone.
    pub white: bool,
    /// Any other string.
    pub full: bool,
}

impl Mask {
    ghost use Rattle.std.specs.Prelude.{◌≡◌};
    ghost use Rattle.btx_check.specs.Descriptions.{any_text, any_field, blank, filled, gone, present, nothing, something, cut, followed};

    /// Any string.
    pub fn any_text() -> Mask
        ensures { result ≡ any_text }
    {
        Mask {
            missing: false,
            empty: true,
            white: true,
            full: true,
        }
    }

    /// Any string, or a missing field.
    pub fn any_field() -> Mask
        ensures { result ≡ any_field }
    {
        Mask {
            missing: true,
            empty: true,
            white: true,
            full: true,
        }
    }

    /// What of it `empty$` finds empty.
    pub fn blank(self) -> Mask
        ensures { result ≡ blank self }
    {
        Mask {
            missing: self.missing,
            empty: self.empty,
            white: self.white,
            full: false,
        }
    }

    /// What of it `empty$` doesn't find empty.
    pub fn filled(self) -> Mask
        ensures { result ≡ filled self }
    {
        Mask {
            missing: false,
            empty: false,
            white: false,
            full: self.full,
        }
    }

    /// The missing field of it.
    pub fn gone(self) -> Mask
        ensures { result ≡ gone self }
    {
        Mask {
            missing: self.missing,
            empty: false,
            white: false,
            full: false,
        }
    }

    /// Its strings.
    pub fn present(self) -> Mask
        ensures { result ≡ present self }
    {
        Mask {
            missing: false,
            empty: self.empty,
            white: self.white,
            full: self.full,
        }
    }

    /// The empty string of it.
    pub fn nothing(self) -> Mask
        ensures { result ≡ nothing self }
    {
        Mask {
            missing: false,
            empty: self.empty,
            white: false,
            full: false,
        }
    }

    /// Its strings of a byte or more.
    pub fn something(self) -> Mask
        ensures { result ≡ something self }
    {
        Mask {
            missing: false,
            empty: false,
            white: self.white,
            full: self.full,
        }
    }

    /// What a variable keeps of such a string: its first bytes, at least one.
    pub fn cut(self) -> Mask
        ensures { result ≡ cut self }
    {
        Mask {
            missing: false,
            empty: self.empty,
            white: self.white || self.full,
            full: self.full,
        }
    }

    /// Such a string, and after it one of the other mask.
    pub fn followed(self, other: Mask) -> Mask
        ensures { result ≡ followed self other }
    {
        Mask {
            missing: false,
            empty: self.empty && other.empty,
            white: (self.empty || self.white)
                && (other.empty || other.white)
                && (self.white || other.white),
            full: self.full || other.full,
        }
    }

    /// What either allows.
    pub fn joined(self, other: Mask) -> Mask {
        Mask {
            missing: self.missing || other.missing,
            empty: self.empty || other.empty,
            white: self.white || other.white,
            full: self.full || other.full,
        }
    }
}

/// An upper bound of an integer.
#[derive(Clone, Copy, PartialEq, Eq)]
pub enum Upper {
    /// This number, or none.
    Number(Option<i32>),
    /// What counts steps: 2,000,000,000 less the steps that are left. So an integer below it may grow by one in each step.
    Counter,
}

/// What is known of a literal.
#[derive(Clone, Copy, PartialEq, Eq)]
pub enum Value {
    /// Nothing.
    Any,
    /// An integer, with a lower bound if there is one, and an upper bound.
    Integer(Option<i32>, Upper),
    /// A string or a missing field.
    Text(Mask),
    /// This function.
    Function(Callee),
}

impl Value {
    ghost use Rattle.std.specs.Prelude.{◌≡◌, Some, None, pos};
    ghost use Rattle.btx_check.specs.Descriptions.{exactly, open_end};
    ghost use Rattle.btx_check.specs.declared.description.Value.TheVariants as value;

    /// 1, which stands for true.
    pub fn one() -> Value
        ensures { result ≡ exactly (pos 1) }
    {
        Value::Integer(Some(1), Upper::Number(Some(1)))
    }

    /// 0, which stands for false.
    pub fn zero() -> Value
        ensures { result ≡ exactly (pos 0) }
    {
        Value::Integer(Some(0), Upper::Number(Some(0)))
    }

    /// Any integer.
    pub fn any_integer() -> Value
        ensures { result ≡ value.Integer None open_end }
    {
        Value::Integer(None, Upper::Number(None))
    }

    /// Any integer from 1.
    pub fn some_count() -> Value
        ensures { result ≡ value.Integer (Some (pos 1)) open_end }
    {
        Value::Integer(Some(1), Upper::Number(None))
    }

    /// Any integer from 0.
    pub fn any_count() -> Value
        ensures { result ≡ value.Integer (Some (pos 0)) open_end }
    {
        Value::Integer(Some(0), Upper::Number(None))
    }
}
