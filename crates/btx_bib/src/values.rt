//! The values of the declared fields.
use crate::places::Places;
use crate::spelling::Spelling;
use crate::texts::Texts;
use btx_text::Text;
use std::alloc::{AllocError, Global};
use std::marker::Model;

// Room for the values of an entry: most have no more.
const MOSTLY_GIVEN: usize = 16;

// Room for the values that an entry inherits, and for its parent's key: most need no more.
const MOSTLY_INHERITED: usize = 8;

/// For each declared field its value, or that it is missing.
#[derive(Drop)]
pub struct Values<'a> {
    // Of each declared field.
    places: Places,
    // The values that there are.
    texts: Texts<'a>,
}

impl<'a> Model for Values<'a> {
    ghost use Rattle.std.specs.Prelude.{List, ℕ, Option, All, length, map};
    ghost use Rattle.btx_bib.specs.refinement.Values.{IsWithin, text_at};

    ghost Value = { List (Option (List ℕ)) };

    ghost view = { λ values. map (text_at values.texts.lent.items values.texts.made.items) values.places };

    ghost invariant = { λ values. All (IsWithin (length values.texts.lent.items) (length values.texts.made.items)) values.places };
}

impl<'a> Values<'a> {
    ghost use Rattle.std.specs.Prelude.{◌≡◌, ◌≤◌, [], Some, IfOk, IfSome, OnOk, length, option_copied, is_some};
    ghost use Rattle.btx_text.specs.language.Limits.{greatest_string};
    ghost use Rattle.btx_bib.specs.language.Values.{field_value};
    ghost use Rattle.btx_bib.specs.refinement.Finding.{changed_at};
    ghost use Rattle.btx_bib.specs.refinement.Filling.{blanks};
    ghost use Rattle.std.specs.Option.{option_or};
    ghost use Rattle.btx_bib.specs.language.Entries.{parent_in};
    ghost use Rattle.btx_bib.specs.language.Passes.{inherited_values, without_parent};

    /// The value of a field by its number, if there is one. A field that isn't declared has none.
    #[inline(always)]
    pub fn get(&self, field: usize) -> Option<&[u8]>
        ensures value { option_copied result ≡ field_value field self.now }
        ensures within { IfSome result (λ text. length text.now ≤ greatest_string) }
    {
        match self.places.get(field) {
            Some(place) => self.texts.at(place),
            None => None,
        }
    }

    /// The value of a field once more, if there is one.
    #[inline(always)]
    pub fn copied(&self, alloc: Global, field: usize) -> Result<Option<Text<'a>>, AllocError>
        ensures { IfOk result (λ copy. copy ≡ field_value field self.now) }
    {
        match self.places.get(field) {
            Some(place) => self.texts.copied(alloc, place),
            None => Ok(None),
        }
    }

    /// No value.
    pub fn new(alloc: Global) -> Self
        ensures { result ≡ [] }
    {
        Values {
            places: Places::new(alloc),
            texts: Texts {
                lent: Vec::new(alloc),
                made: Vec::new(alloc),
            },
        }
    }

    /// All fields are missing.
    pub fn missing(alloc: Global, count: usize) -> Result<Self, AllocError>
        ensures { IfOk result (λ values. values ≡ blanks count) }
    {
        Ok(Values {
            places: Places::missing(alloc, count)?,
            texts: Texts {
                lent: Vec::with_capacity(alloc, count.min(MOSTLY_GIVEN))?,
                made: Vec::new(alloc),
            },
        })
    }

    /// Whether a field has a value.
    #[inline(always)]
    pub fn has(&self, field: usize) -> bool
        ensures { result ≡ is_some (field_value field self.now) }
    {
        let value = self.get(field);
        value.is_some()
    }

    /// Puts the value of a field.
    #[inline(always)]
    pub fn put(&mut self, alloc: Global, field: usize, value: Text<'a>) -> Result<(), AllocError>
        ensures { OnOk result (self.new ≡ changed_at field (λ old. Some value.entry) self.old) }
    {
        if field < self.places.len() {
            let place = self.texts.add(value)?;
            self.places.set(alloc, field, place)?;
        }
        Ok(())
    }

    /// Gives back the room that no value takes. With a parent there is room for what most children inherit, so that their values
    /// needn't move then. The lent values move to room of their size, so that the room that they leave is taken whole by the next entry's.
    pub fn trim(&mut self, alloc: Global) -> Result<(), AllocError>
        ensures { OnOk result (self.new ≡ self.old) }
    {
        let inherited = if self.has_parent() {
            MOSTLY_INHERITED
        } else {
            0
        };
        let room = self.texts.lent.len().saturating_add(inherited);
        let mut lent = Vec::with_capacity(alloc, room)?;
        lent.append(&mut self.texts.lent)?;
        self.texts.lent = lent;
        self.texts.made.shrink_to_fit();
        Ok(())
    }

    /// The key of the parent once more: the value of the first declared field.
    pub fn parent(&self, alloc: Global) -> Result<Option<Text<'a>>, AllocError>
        ensures { IfOk result (λ parent. parent ≡ parent_in self.now) }
    {
        self.copied(alloc, 0)
    }

    /// Whether there is a parent.
    pub fn has_parent(&self) -> bool
        ensures { result ≡ is_some (parent_in self.now) }
    {
        self.has(0)
    }

    // Takes the value of a field from the parent, if it is missing.
    #[inline(always)]
    fn fill(&mut self, alloc: Global, field: usize, parent: &Values<'a>) -> Result<(), AllocError>
        ensures { OnOk result (self.new ≡ changed_at field (λ own. option_or own (field_value field parent.now)) self.old) }
    {
        if self.has(field) {
            return Ok(());
        }
        match parent.copied(alloc, field)? {
            Some(value) => self.put(alloc, field, value),
            None => Ok(()),
        }
    }

    /// Takes the values that are missing from the parent. The first becomes the parent's key; what stood there keeps its room.
    pub fn inherit(
        &mut self,
        alloc: Global,
        key: &Spelling<'a>,
        parent: &Values<'a>,
    ) -> Result<(), AllocError>
        requires { length key.now ≤ greatest_string }
        ensures { OnOk result (self.new ≡ inherited_values key.now self.old parent.now) }
    {
        self.put(alloc, 0, key.to_text(alloc)?)?;
        for field in 1..self.places.len() {
            self.fill(alloc, field, parent)?;
        }
        self.texts.lent.shrink_to_fit();
        self.texts.made.shrink_to_fit();
        Ok(())
    }

    /// Drops the key of the parent.
    pub fn cut(&mut self)
        ensures { self.new ≡ without_parent self.old }
    {
        if self.places.len() > 0 {
            self.places.clear(0);
        }
    }
}
