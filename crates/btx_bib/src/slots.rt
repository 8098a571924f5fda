//! The places of the list.
use crate::names::Names;
use crate::spelling::Spelling;
use crate::values::Values;
use btx_text::{Lowered, Text};
use std::alloc::{AllocError, Global};
use std::marker::Model;

/// What the list has of an entry: the number of the style's function for its type, and the values of the declared fields.
#[derive(Drop)]
pub struct Body<'a> {
    pub kind: Option<u32>,
    pub values: Values<'a>,
}

/// A place of the list. Whether its entry stays is known once all databases are read.
#[derive(Drop)]
pub struct Slot<'a> {
    /// The key, as the list spells it.
    pub key: Spelling<'a>,
    /// Whether it was cited.
    pub is_cited: bool,
    /// How many references it lacks to stay without having been cited.
    pub wanting: u32,
    /// Its entry, if there is one.
    pub body: Option<Body<'a>>,
}

/// The list.
#[derive(Drop)]
pub struct Slots<'a> {
    pub(crate) list: Vec<Slot<'a>>,
}

impl<'a> Model for Slots<'a> {
    ghost use Rattle.std.specs.Prelude.{List};
    ghost use Rattle.btx_bib.specs.declared.slots.Slot.{Slot};

    ghost Value = { List Slot };

    ghost view = { λ slots. slots.list.items };
}

impl<'a> Slots<'a> {
    ghost use Rattle.std.specs.Prelude.{◌≡◌, ◌≤◌, [], ◌∷◌, ◌++◌, None, Some, IfOk, IfSome, OnOk, length, option_copied, slice_get};
    ghost use Rattle.std.specs.Str.{bytes_eq};
    ghost use Rattle.btx_text.specs.language.Keys.{folded};
    ghost use Rattle.btx_text.specs.language.Limits.{greatest_string};
    ghost use Rattle.btx_bib.specs.refinement.Finding.{changed_at, first_place};
    ghost use Rattle.btx_bib.specs.refinement.Passes.{with_body};
    ghost use Rattle.btx_bib.specs.language.Passes.{inherited_from, without_crossref};
    ghost use Rattle.std.specs.Option.{option_map, option_map_or};
    ghost use Rattle.btx_bib.specs.refinement.Drafts.{has_body, once_more, settled, settled_all, with_entry};
    ghost use Rattle.btx_bib.specs.refinement.Steps.{slot_by};

    /// No place.
    pub fn new(alloc: Global) -> Self
        ensures { result ≡ [] }
    {
        Slots {
            list: Vec::new(alloc),
        }
    }

    /// How many places there are.
    pub fn len(&self) -> usize
        ensures { result ≡ length (settled_all self.now) }
    {
        self.list.len()
    }

    /// Adds a place.
    pub fn push(&mut self, slot: Slot<'a>) -> Result<(), AllocError>
        ensures { OnOk result (self.new ≡ self.old ++ slot.entry ∷ []) }
    {
        self.list.push(slot)?;
        Ok(())
    }

    /// Whether there is an entry at a place.
    pub fn has_body(&self, place: usize) -> bool
        ensures { result ≡ has_body (slice_get self.now place) }
    {
        match self.list.get(place) {
            Some(slot) => slot.body.is_some(),
            None => false,
        }
    }

    /// Puts an entry at a place.
    #[tactic(auto, using(crate::proofs::PlaceLemmas::change_steps))]
    pub fn fill(&mut self, place: usize, key: Spelling<'a>, body: Body<'a>)
        ensures { self.new ≡ changed_at place (with_entry body.entry key.entry) self.old }
    {
        if place < self.list.len() {
            let slot = &mut self.list[place];
            slot.fill(key, body);
        }
    }

    /// Counts a reference to a place.
    #[tactic(auto, using(crate::proofs::PlaceLemmas::change_steps))]
    pub fn refer(&mut self, place: usize)
        ensures { self.new ≡ changed_at place once_more self.old }
    {
        if place < self.list.len() {
            let slot = &mut self.list[place];
            slot.wanting = slot.wanting.saturating_sub(1);
        }
    }

    /// The place at an index.
    pub fn at(&self, place: usize) -> Option<&Slot<'a>>
        ensures { option_map settled (option_copied result) ≡ slice_get (settled_all self.now) place }
    {
        self.list.get(place)
    }

    // The place of a key in lower case.
    fn by_name(&self, names: &Names<'_>, lowered: &[u8]) -> Option<&Slot<'a>>
        ensures { option_map settled (option_copied result) ≡ slot_by (settled_all self.now) (first_place (bytes_eq lowered.now) names.now) }
    {
        match names.position(lowered) {
            Some(place) => self.at(place),
            None => None,
        }
    }

    /// The place of a key.
    pub fn find(
        &self,
        alloc: Global,
        names: &Names<'_>,
        key: &[u8],
    ) -> Result<Option<&Slot<'a>>, AllocError>
        ensures { IfOk result (λ found. option_map settled (option_copied found)
            ≡ slot_by (settled_all self.now) (first_place (bytes_eq (folded key.now)) names.now)) }
    {
        let lowered = Lowered::of(alloc, key)?;
        Ok(self.by_name(names, lowered.as_bytes()))
    }

    // Takes the entry at a place away.
    #[tactic(auto, using(crate::proofs::PlaceLemmas::change_steps))]
    fn take_body(&mut self, place: usize) -> Option<Body<'a>>
        ensures body { result ≡ option_map_or (λ slot. slot.body) (slice_get (settled_all self.old) place) None }
        ensures slots { settled_all self.new ≡ changed_at place (λ slot. with_body slot None) (settled_all self.old) }
    {
        if place < self.list.len() {
            let slot = &mut self.list[place];
            return slot.body.take();
        }
        None
    }

    // Puts an entry at a place.
    #[tactic(auto, using(crate::proofs::PlaceLemmas::change_steps))]
    fn put_body(&mut self, place: usize, body: Body<'a>)
        ensures { settled_all self.new ≡ changed_at place (λ slot. with_body slot (Some body.entry)) (settled_all self.old) }
    {
        if place < self.list.len() {
            let slot = &mut self.list[place];
            slot.put_body(body);
        }
    }

    /// The entry at a place takes the values that it lacks from its parent, which stands at another. It is away while it does: so one that is its own
    /// parent finds none there, and keeps those that it has.
    pub fn inherit(&mut self, alloc: Global, place: usize, parent: usize) -> Result<(), AllocError>
        requires { IfSome (slice_get (settled_all self.old) parent) (λ slot. length slot.key ≤ greatest_string) }
        ensures { OnOk result (settled_all self.new
            ≡ changed_at place (inherited_from (slice_get (settled_all self.old) parent)) (settled_all self.old)) }
    {
        let Some(mut body) = self.take_body(place) else {
            return Ok(());
        };
        if let Some(slot) = self.at(parent) {
            slot.give_values(alloc, &mut body.values)?;
        }
        self.put_body(place, body);
        Ok(())
    }

    /// Removes the parent of the entry at `place`.
    #[tactic(auto, using(crate::proofs::PlaceLemmas::change_steps))]
    pub fn cut(&mut self, place: usize)
        ensures { settled_all self.new ≡ changed_at place without_crossref (settled_all self.old) }
    {
        if place < self.list.len() {
            let slot = &mut self.list[place];
            slot.cut();
        }
    }
}

impl<'a> Slot<'a> {
    ghost use Rattle.std.specs.Prelude.{◌≡◌, ◌≤◌, [], length, Some, IfOk, OnOk, is_some};
    ghost use Rattle.btx_text.specs.language.Limits.{greatest_string};
    ghost use Rattle.btx_bib.specs.refinement.Passes.{with_body};
    ghost use Rattle.btx_bib.specs.refinement.Drafts.{settled, with_entry};
    ghost use Rattle.btx_bib.specs.language.Passes.{without_crossref, inherited_values, parent_at, body_values};

    // Puts an entry here.
    fn fill(&mut self, key: Spelling<'a>, body: Body<'a>)
        ensures { self.new ≡ with_entry body.entry key.entry self.old }
    {
        if !self.is_cited {
            self.key = key;
        }
        self.body = Some(body);
    }

    /// Whether its entry stays in the list: it was cited, or is referred to often enough.
    pub fn stays(&self) -> bool
        ensures { result ≡ (settled self.now).stays }
    {
        self.is_cited || self.wanting == 0
    }

    /// The key of the parent once more.
    pub fn parent(&self, alloc: Global) -> Result<Option<Text<'a>>, AllocError>
        ensures { IfOk result (λ parent. parent ≡ parent_at (settled self.now)) }
    {
        match &self.body {
            Some(body) => body.values.parent(alloc),
            None => Ok(None),
        }
    }

    /// Whether there is a parent.
    pub fn has_parent(&self) -> bool
        ensures { result ≡ is_some (parent_at (settled self.now)) }
    {
        match &self.body {
            Some(body) => body.values.has_parent(),
            None => false,
        }
    }

    // The values of the entry, or these if there is none.
    fn values_or<'s>(&'s self, none: &'s Values<'a>) -> &'s Values<'a>
        requires { none.now ≡ [] }
        ensures { result.now ≡ body_values self.now.body }
    {
        match &self.body {
            Some(body) => &body.values,
            None => none,
        }
    }

    // Gives a child's values what they lack.
    fn give_values(&self, alloc: Global, child: &mut Values<'a>) -> Result<(), AllocError>
        requires { length self.now.key ≤ greatest_string }
        ensures { OnOk result (child.new ≡ inherited_values self.now.key child.old (body_values self.now.body)) }
    {
        let none = Values::new(alloc);
        child.inherit(alloc, &self.key, self.values_or(&none))
    }

    // Has this entry from now on.
    fn put_body(&mut self, body: Body<'a>)
        ensures { settled self.new ≡ with_body (settled self.old) (Some body.entry) }
    {
        self.body = Some(body);
    }

    // The entry has no parent from now on.
    fn cut(&mut self)
        ensures { settled self.new ≡ without_crossref (settled self.old) }
    {
        if let Some(body) = &mut self.body {
            body.values.cut();
        }
    }
}
