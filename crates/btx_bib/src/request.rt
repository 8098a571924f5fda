//! What is asked of the databases.
use crate::draft::StoreDecision;
use crate::slots::{Body, Slot, Slots};
use crate::spelling::{Spelling, Word};
use crate::style_fields::StyleFields;
use btx_aux::AuxJob;
use btx_bst::Style;
use btx_text::Lowered;
use std::alloc::{AllocError, Global};

/// What a job and its style ask of the databases.
#[derive(Drop)]
pub struct Request<'r, 'a> {
    /// The job, which cites the keys.
    pub job: &'a AuxJob,
    /// The number of keys that were cited before `*`, if it was cited.
    pub all: Option<usize>,
    /// The style, which declares the fields and the types.
    pub style: StyleFields<'r, 'a>,
    /// How many references keep an entry that wasn't cited.
    pub fewest: u32,
}

impl<'r, 'a> Request<'r, 'a> {
    ghost use Rattle.std.specs.Prelude.{◌≡◌, true, map, option_copied, IfOk};
    ghost use Rattle.btx_text.specs.language.Keys.{folded};
    ghost use Rattle.btx_bib.specs.language.Requests.{asked};
    ghost use Rattle.btx_bib.specs.refinement.Requests.{wanted};
    ghost use Rattle.btx_bib.specs.language.Listing.{first_cited, last_cited};
    ghost use Rattle.btx_aux.specs.refinement.Entries.{texts_of};
    ghost use Rattle.btx_aux.specs.language.Names.{listed_as};
    ghost use Rattle.btx_aux.specs.refinement.KeyTable.{listed_by};
    ghost use Rattle.btx_bib.specs.refinement.Drafts.{late_slot, new_standing, open_slot, with_entry};

    /// What a job and its style ask, where an entry that isn't cited stays if at least `min_crossrefs` others refer to it, or, with `*`, in any case.
    pub fn of(
        alloc: Global,
        style: &'r Style<'a>,
        job: &'a AuxJob,
        min_crossrefs: u32,
    ) -> Result<Request<'r, 'a>, AllocError>
        ensures { IfOk result (λ request. wanted request ≡ asked style.entry.now job.entry.now min_crossrefs) }
    {
        let all = job.all();
        let fewest = match all {
            Some(_) => 0,
            None => min_crossrefs,
        };
        Ok(Request {
            job,
            all,
            style: StyleFields::of(alloc, style)?,
            fewest,
        })
    }

    // The keys that were cited before `*`, and those after it. Where it wasn't cited, all stand before it.
    #[tactic(auto, using(crate::proofs::RequestLemmas::cited_parts))]
    fn cited_parts(&self) -> (&'a [Vec<u8>], &'a [Vec<u8>])
        ensures first { texts_of result.0.now ≡ first_cited self.now.all self.now.job.now.keys }
        ensures last { texts_of result.1.now ≡ last_cited self.now.all self.now.job.now.keys }
    {
        let cited = self.job.keys();
        match self.all {
            Some(place) if place < cited.len() => cited.split_at(place),
            Some(_) | None => (cited, &[]),
        }
    }

    /// The cited keys with which the list begins: those before `*`, if it was cited.
    pub fn first_cited(&self) -> &'a [Vec<u8>]
        ensures { texts_of result.now ≡ first_cited self.now.all self.now.job.now.keys }
    {
        self.cited_parts().0
    }

    /// The keys that were cited after `*`.
    pub fn last_cited(&self) -> &'a [Vec<u8>]
        ensures { texts_of result.now ≡ last_cited self.now.all self.now.job.now.keys }
    {
        self.cited_parts().1
    }

    /// The number of a declared field by its name.
    #[inline(always)]
    pub fn field(&self, alloc: Global, name: &[u8]) -> Result<Option<usize>, AllocError>
        ensures { IfOk result (λ number. number ≡ (wanted self.now).field (folded name.now)) }
    {
        self.style.number(alloc, name)
    }

    /// The number of the style's function for a type.
    pub fn kind(&self, alloc: Global, name: &[u8]) -> Result<Option<u32>, AllocError>
        ensures { IfOk result (λ number. number ≡ (wanted self.now).kind (folded name.now)) }
    {
        let lowered = Lowered::of(alloc, name)?;
        Ok(self.style.style().type_function(lowered.as_bytes()))
    }

    /// How the key was cited whose lowered form this is.
    pub fn cited_as(&self, lowered: &[u8]) -> Option<&'a [u8]>
        ensures { option_copied result ≡ listed_by self.now.job.now.keys lowered.now }
    {
        let place = self.job.position(lowered)?;
        let key = self.job.keys().get(place)?;
        Some(key.as_slice())
    }

    /// The places of some cited keys.
    pub fn cited_slots(&self, alloc: Global, keys: &'a [Vec<u8>]) -> Result<Slots<'a>, AllocError>
        ensures { IfOk result (λ slots. slots ≡ map (open_slot (wanted self.now) true 0) (texts_of keys.entry.now)) }
    {
        let mut slots = Slots::new(alloc);
        for key in keys {
            let slot = Slot {
                key: Spelling::of_file(key.as_slice()),
                is_cited: true,
                wanting: self.fewest,
                body: None,
            };
            slots.push(slot)?;
        }
        Ok(slots)
    }

    /// How an entry stands whose key isn't in the list.
    pub fn decision_of_new(&self) -> StoreDecision
        ensures { result ≡ new_standing self.now.all }
    {
        match self.all {
            Some(_) => StoreDecision::Expected,
            None => StoreDecision::Unwanted,
        }
    }

    /// The place of an entry whose key isn't in the list. It is spelled as it was cited, if it was.
    pub fn late_slot(&self, key: &Word<'a>, lowered: &[u8], body: Body<'a>) -> Slot<'a>
        requires { lowered.now ≡ folded key.now }
        ensures { result ≡ with_entry body.entry key.now (late_slot (wanted self.now) key.now (listed_as (wanted self.now).cited key.now)) }
    {
        let cited = self.cited_as(lowered);
        let is_cited = cited.is_some();
        let key = Spelling::of_file(cited.unwrap_or(key.as_bytes()));
        Slot {
            key,
            is_cited,
            wanting: self.fewest,
            body: Some(body),
        }
    }
}
