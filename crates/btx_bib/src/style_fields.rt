//! The fields that a style declares, as databases name them.
ghost use Rattle.std.specs.Prelude.{◌≡◌, Some, IfOk, IfSome, OnOk};
ghost use Rattle.btx_text.specs.language.Keys.{folded};
ghost use Rattle.btx_bst.specs.language.Style.{field_of};

use btx_bst::{Callee, Style};
use btx_text::Lowered;
use std::alloc::{AllocError, Global};
use std::marker::Model;

// How many names are remembered at most.
const PLACES: usize = 256;

/// The name of a declared field, and its number.
#[derive(Clone, Copy)]
pub struct KnownField<'r> {
    /// The name, in lower case as databases mostly have it.
    pub name: &'r [u8],
    /// The number.
    pub number: usize,
}

/// A style, with the names of its fields by a place that a name's bytes give: most names of a database are found there, without being
/// lowered and hashed. A clause sees the style.
#[derive(Drop)]
pub struct StyleFields<'r, 'a> {
    style: &'r Style<'a>,
    known: Vec<Option<KnownField<'r>>>,
}

impl<'r, 'a> Model for StyleFields<'r, 'a> {
    ghost use Rattle.std.specs.Prelude.{All};
    ghost use Rattle.btx_bst.specs.language.Style.{Style};
    ghost use Rattle.btx_bib.specs.refinement.KnownFields.{IsKnownField};

    ghost Value = { Style };

    ghost view = { λ fields. fields.style.now };

    ghost invariant = { λ fields. All (IsKnownField fields.style.now) fields.known.items };
}

// The place of a name. Any place is right; no two names of usual fields have the same.
#[inline(always)]
fn place_of(name: &[u8]) -> usize {
    match (name.first(), name.get(name.len() / 2), name.last()) {
        (Some(first), Some(middle), Some(last)) => {
            let sum = first.wrapping_mul(3).wrapping_add(middle.wrapping_mul(35));
            usize::from(sum.wrapping_add(*last))
        }
        _ => 0,
    }
}

impl<'r, 'a> StyleFields<'r, 'a> {
    /// The fields of a style.
    pub fn of(alloc: Global, style: &'r Style<'a>) -> Result<StyleFields<'r, 'a>, AllocError>
        ensures { IfOk result (λ fields. fields ≡ style.entry.now) }
    {
        let mut fields = StyleFields {
            style,
            known: vec![in alloc; None; PLACES]?,
        };
        for number in 0..style.fields() {
            if let Ok(number) = u32::try_from(number) {
                fields.remember(alloc, style.name(Callee::Field(number)))?;
            }
        }
        Ok(fields)
    }

    // Remembers a name, if it is that of a field.
    fn remember(&mut self, alloc: Global, name: &'r [u8]) -> Result<(), AllocError>
        ensures { OnOk result (self.new ≡ self.old) }
    {
        let Some(number) = self.looked_up(alloc, name)? else {
            return Ok(());
        };
        let place = place_of(name);
        if place < self.known.len() {
            self.known[place] = Some(KnownField { name, number });
        }
        Ok(())
    }

    // The number of a field, as the style has it.
    #[inline(never)]
    fn looked_up(&self, alloc: Global, name: &[u8]) -> Result<Option<usize>, AllocError>
        ensures { IfOk result (λ number. number ≡ field_of self.now (folded name.now)) }
    {
        let lowered = Lowered::of(alloc, name)?;
        match self.style.field(lowered.as_bytes()) {
            Some(number) => Ok(Some(number as usize)),
            None => Ok(None),
        }
    }

    // The number of a field whose name is remembered.
    #[inline(always)]
    fn remembered(&self, name: &[u8]) -> Option<usize>
        ensures { IfSome result (λ number. field_of self.now (folded name.now) ≡ Some number) }
    {
        match self.known.get(place_of(name)) {
            Some(Some(known)) if known.name == name => Some(known.number),
            _ => None,
        }
    }

    /// The number of a declared field by its name.
    #[inline(always)]
    pub fn number(&self, alloc: Global, name: &[u8]) -> Result<Option<usize>, AllocError>
        ensures { IfOk result (λ number. number ≡ field_of self.now (folded name.now)) }
    {
        if let Some(number) = self.remembered(name) {
            return Ok(Some(number));
        }
        self.looked_up(alloc, name)
    }

    /// The style.
    pub fn style(&self) -> &'r Style<'a>
        ensures { result.now ≡ self.now }
    {
        self.style
    }
}
