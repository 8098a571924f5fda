//! The list of keys, while databases are read, and the library that it comes to.
use crate::end::End;
use crate::entry::Entry;
use crate::library::Library;
use crate::message::Messages;
use crate::names::Names;
use crate::passes::entries_of;
use crate::request::Request;
use crate::slots::{Body, Slot, Slots};
use crate::spelling::{Spelling, Word};
use btx_text::{Lowered, Text};
use std::alloc::{AllocError, Global};

/// The keys of the list in lower case, and its places.
#[derive(Drop)]
pub struct ListBuilder<'a> {
    pub names: Names<'a>,
    pub slots: Slots<'a>,
}

/// How an entry stands when its key was read.
#[derive(Clone, Copy)]
pub enum StoreDecision {
    /// It isn't stored.
    Unwanted,
    /// An entry with its key is stored.
    Repeated,
    /// It is stored.
    Expected,
}

impl<'a> ListBuilder<'a> {
    ghost use Rattle.std.specs.Prelude.{◌≡◌, ◌++◌, OnOk, IfOk};
    ghost use Rattle.btx_aux.specs.refinement.Entries.{texts_of};
    ghost use Rattle.btx_bib.specs.refinement.Drafts.{cited_all, cited_at, empty, has_entry, place_in, referred, referred_at, settled_all, standing_at};
    ghost use Rattle.btx_bib.specs.refinement.Drafts.{stored_at};
    ghost use Rattle.btx_bib.specs.refinement.Readings.{IsListed, library_listed, listed_draft};
    ghost use Rattle.btx_bib.specs.language.Passes.{entries_of, reference_messages};
    ghost use Rattle.btx_bib.specs.refinement.Requests.{wanted};
    ghost use Rattle.btx_bib.specs.language.Listing.{first_cited};

    /// The list with the cited keys that it begins with, no two of which are equal without case.
    pub fn of_cited(alloc: Global, request: &Request<'_, 'a>) -> Result<ListBuilder<'a>, AllocError>
        ensures { IfOk result (λ draft. draft ≡ cited_all (wanted request.now) empty (first_cited request.now.all request.now.job.now.keys)) }
    {
        request.job.keys_differ();
        let cited = request.first_cited();
        Ok(ListBuilder {
            names: Names::of(alloc, request.job, cited.len())?,
            slots: request.cited_slots(alloc, cited)?,
        })
    }

    /// Lists some cited keys.
    pub fn cite_all(
        &mut self,
        alloc: Global,
        request: &Request<'_, '_>,
        keys: &'a [Vec<u8>],
    ) -> Result<(), AllocError>
        ensures { OnOk result (self.new ≡ cited_all (wanted request.now) self.old (texts_of keys.entry.now)) }
    {
        for key in keys {
            self.cite(alloc, request, key.as_slice())?;
        }
        Ok(())
    }

    /// The library, once all databases are read: the keys that are cited last are listed too, and what the passes report is added to the messages.
    pub fn into_library(
        self,
        alloc: Global,
        request: &Request<'_, 'a>,
        preamble: Text<'a>,
        mut messages: Messages<'a>,
    ) -> Result<Library<'a>, AllocError>
        requires { IsListed (listed_draft (wanted request.now) self) }
        ensures { IfOk result (λ library. library
            ≡ library_listed (settled_all (listed_draft (wanted request.now) self.entry).slots) preamble.entry messages.entry) }
    {
        let mut draft = self;
        draft.cite_all(alloc, request, request.last_cited())?;
        let entries = draft.into_entries(alloc, &mut messages)?;
        Ok(Library {
            entries,
            preamble,
            messages,
            ending: End::Whole,
        })
    }

    // The entries that stay, with what they inherit.
    fn into_entries(
        self,
        alloc: Global,
        messages: &mut Messages<'a>,
    ) -> Result<Vec<Entry<'a>>, AllocError>
        requires { IsListed self }
        ensures entries { IfOk result (λ entries. entries.items ≡ entries_of (settled_all self.entry.slots)) }
        ensures messages { OnOk result (messages.new ≡ messages.old ++ reference_messages (settled_all self.entry.slots)) }
    {
        let ListBuilder { names, slots } = self;
        entries_of(slots, alloc, names, messages)
    }

    // Lists a cited key.
    #[tactic(auto, using(crate::proofs::PlaceLemmas::add_steps))]
    fn cite(
        &mut self,
        alloc: Global,
        request: &Request<'_, '_>,
        key: &'a [u8],
    ) -> Result<(), AllocError>
        ensures { OnOk result (self.new ≡ cited_at (wanted request.now) key.entry.now self.old (place_in self.old key.entry.now)) }
    {
        let lowered = Lowered::of(alloc, key)?;
        if let Some(_) = self.names.position(lowered.as_bytes()) {
            return Ok(());
        }
        self.names.add(alloc, lowered)?;
        let slot = Slot {
            key: Spelling::of_file(key),
            is_cited: true,
            wanting: request.fewest,
            body: None,
        };
        self.slots.push(slot)
    }

    /// How an entry with this key stands.
    pub fn standing(
        &self,
        alloc: Global,
        request: &Request<'_, '_>,
        key: &[u8],
    ) -> Result<StoreDecision, AllocError>
        ensures { IfOk result (λ standing. standing ≡ standing_at (wanted request.now) self.now (place_in self.now key.now)) }
    {
        let lowered = Lowered::of(alloc, key)?;
        let Some(place) = self.names.position(lowered.as_bytes()) else {
            return Ok(request.decision_of_new());
        };
        if self.slots.has_body(place) {
            return Ok(StoreDecision::Repeated);
        }
        Ok(StoreDecision::Expected)
    }

    /// Whether an entry with this key is stored.
    pub fn has_entry(&self, alloc: Global, key: &[u8]) -> Result<bool, AllocError>
        ensures { IfOk result (λ stored. stored ≡ has_entry self.now (place_in self.now key.now)) }
    {
        let lowered = Lowered::of(alloc, key)?;
        match self.names.position(lowered.as_bytes()) {
            Some(place) => Ok(self.slots.has_body(place)),
            None => Ok(false),
        }
    }

    /// Stores an entry, at the place of its key or at a new one, and counts its reference.
    #[tactic(auto, using(crate::proofs::PlaceLemmas::add_steps), unfolding(crate::specs::refinement::Drafts::stored_at))]
    pub fn store(
        &mut self,
        alloc: Global,
        request: &Request<'_, 'a>,
        key: &Word<'a>,
        body: Body<'a>,
    ) -> Result<(), AllocError>
        ensures { OnOk result (self.new ≡ stored_at (wanted request.now) key.now body.entry self.old (place_in self.old key.now)) }
    {
        let parent = body.values.parent(alloc)?;
        let lowered = Lowered::of(alloc, key.as_bytes())?;
        match self.names.position(lowered.as_bytes()) {
            Some(place) => self
                .slots
                .fill(place, Spelling::of_file(key.as_bytes()), body),
            None => {
                let slot = request.late_slot(key, lowered.as_bytes(), body);
                self.names.add(alloc, lowered)?;
                self.slots.push(slot)?;
            }
        }
        self.refer(alloc, request, parent)
    }

    // Counts the reference of an entry, if it has one. With `*` it doesn't count.
    fn refer(
        &mut self,
        alloc: Global,
        request: &Request<'_, '_>,
        parent: Option<Text<'a>>,
    ) -> Result<(), AllocError>
        ensures { OnOk result (self.new ≡ referred (wanted request.now) self.old parent.entry) }
    {
        let None = request.all else {
            return Ok(());
        };
        match parent {
            Some(parent) => self.refer_to(alloc, request, parent),
            None => Ok(()),
        }
    }

    // Counts a reference to a key, which is listed if it wasn't.
    #[tactic(auto, using(crate::proofs::PlaceLemmas::add_steps))]
    fn refer_to(
        &mut self,
        alloc: Global,
        request: &Request<'_, '_>,
        key: Text<'a>,
    ) -> Result<(), AllocError>
        ensures { OnOk result (self.new ≡ referred_at (wanted request.now) key.entry self.old (place_in self.old key.entry)) }
    {
        let lowered = Lowered::of(alloc, key.as_bytes())?;
        if let Some(place) = self.names.position(lowered.as_bytes()) {
            self.slots.refer(place);
            return Ok(());
        }
        self.names.add(alloc, lowered)?;
        let slot = Slot {
            key: Spelling::of_value(key, alloc)?,
            is_cited: false,
            wanting: request.fewest.saturating_sub(1),
            body: None,
        };
        self.slots.push(slot)
    }
}
