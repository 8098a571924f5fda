//! The value of a string variable.
ghost use Rattle.std.specs.Prelude.{◌≡◌, ◌≤◌, [], length, IfOk, IfSome, OnOk};
ghost use Rattle.btx_text.specs.language.Limits.{greatest_string};
ghost use Rattle.btx_stack.specs.refinement.Slots.{greatest_short};

use crate::slots::GREATEST_SHORT;
use btx_text::Text;
use std::alloc::{AllocError, Global};
use std::marker::Model;

/// Where the bytes of a variable are: in a file, in room of its own, or shared.
#[derive(Clone, Copy, PartialEq, Eq, Debug)]
pub enum Source {
    Lent,
    Own,
    Large,
}

/// The value of a string variable: a string of a file, a short string with room of its own, which is used again, or a long string that is shared.
#[derive(Drop)]
pub struct Variable<'a> {
    source: Source,
    lent: &'a [u8],
    own: Vec<u8>,
    large: Text<'a>,
}

impl<'a> Model for Variable<'a> {
    ghost use Rattle.std.specs.Prelude.{List, ℕ, ◌≤◌, length};
    ghost use Rattle.btx_text.specs.language.Limits.{greatest_string};
    ghost use Rattle.btx_stack.specs.refinement.Slots.{greatest_short};
    ghost use Rattle.btx_stack.specs.refinement.Variables.{variable_value};

    ghost Value = { List ℕ };

    ghost view = { λ v. variable_value v.source v.lent.now v.own.items v.large };

    ghost invariant = { λ v. (length v.own.items ≤ greatest_short) × (length v.lent.now ≤ greatest_string) };
}

impl<'a> Variable<'a> {
    /// A variable with no bytes.
    pub fn new(alloc: Global) -> Self
        ensures { result ≡ [] }
    {
        Variable {
            source: Source::Lent,
            lent: &[],
            own: Vec::new(alloc),
            large: Text::empty(),
        }
    }

    /// The bytes.
    #[inline(always)]
    pub fn as_bytes(&self) -> &[u8]
        ensures value { result.now ≡ self.now }
        ensures within { length self.now ≤ greatest_string }
    {
        match self.source {
            Source::Lent => self.lent,
            Source::Own => self.own.as_slice(),
            Source::Large => self.large.as_bytes(),
        }
    }

    /// The bytes, if they are a file's.
    #[inline(always)]
    pub(crate) fn lent(&self) -> Option<&'a [u8]>
        ensures value { IfSome result (λ bytes. bytes.now ≡ self.now) }
        ensures within { IfSome result (λ _. length self.now ≤ greatest_string) }
    {
        match self.source {
            Source::Lent => Some(self.lent),
            _ => None,
        }
    }

    /// The string once more, if it is shared. No bytes are copied.
    pub(crate) fn large(&self, alloc: Global) -> Result<Option<Text<'a>>, AllocError>
        ensures value { IfOk result (λ large. IfSome large (λ text. text ≡ self.now)) }
    {
        match self.source {
            Source::Large => Ok(Some(self.large.copy(alloc)?)),
            _ => Ok(None),
        }
    }

    /// The bytes, if they are in room of its own.
    #[inline(always)]
    pub(crate) fn own(&self) -> Option<&[u8]>
        ensures value { IfSome result (λ bytes. bytes.now ≡ self.now) }
        ensures within { IfSome result (λ _. length self.now ≤ greatest_short) }
    {
        match self.source {
            Source::Own => Some(self.own.as_slice()),
            _ => None,
        }
    }

    /// Sets the value to a string of a file.
    #[inline(always)]
    pub fn lend(&mut self, bytes: &'a [u8])
        requires { length bytes.now ≤ greatest_string }
        ensures { self.new ≡ bytes.now }
    {
        self.source = Source::Lent;
        self.lent = bytes;
    }

    /// Sets the value to a copy of a short string.
    pub fn keep(&mut self, bytes: &[u8]) -> Result<(), AllocError>
        requires { length bytes.now ≤ greatest_short }
        ensures { OnOk result (self.new ≡ bytes.now) }
    {
        self.source = Source::Own;
        self.own.truncate(0);
        self.own.extend_from_slice(bytes)?;
        Ok(())
    }

    /// Sets the value to a string that is shared from now on.
    pub fn share(&mut self, text: Text<'a>) -> Result<(), AllocError>
        ensures { OnOk result (self.new ≡ text.entry) }
    {
        self.large = text.share()?;
        self.source = Source::Large;
        Ok(())
    }

    /// Sets the value to a string: a short one is copied, a long one is shared from now on.
    pub fn set(&mut self, text: Text<'a>) -> Result<(), AllocError>
        ensures { OnOk result (self.new ≡ text.entry) }
    {
        if text.len() > GREATEST_SHORT {
            return self.share(text);
        }
        self.keep(text.as_bytes())
    }
}
