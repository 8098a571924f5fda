//! The passes over the list, once all databases are read: inherited values, parents, and what stays.
ghost use Rattle.std.specs.Prelude.{◌≡◌, ◌++◌, [], OnOk, IfOk, option_copied, slice_get};
ghost use Rattle.std.specs.Option.{option_map};
ghost use Rattle.std.specs.List.{flat_map};
ghost use Rattle.btx_bib.specs.refinement.Drafts.{settled, settled_all};
ghost use Rattle.btx_bib.specs.refinement.Finding.{changed_at};
ghost use Rattle.btx_bib.specs.language.Passes.{after_first, after_second, check_messages, checked, entries_of, entry_at, inherited, is_parent};
ghost use Rattle.btx_bib.specs.language.Passes.{parent_messages, reference_messages, pass_messages};
ghost use Rattle.btx_bib.specs.refinement.Steps.{lower_keys, messages_by};
ghost use Rattle.btx_bib.specs.refinement.Passes.{absence_messages};

use crate::entry::Entry;
use crate::message::{Message, Messages};
use crate::names::Names;
use crate::slots::{Body, Slot, Slots};
use crate::spelling::Spelling;
use btx_text::{Lowered, Text};
use std::alloc::{AllocError, Global};

// The first pass, at one place.
#[tactic(auto, using(crate::proofs::PassLemmas::inherit_steps))]
fn inherit_at(
    slots: &mut Slots<'_>,
    alloc: Global,
    names: &Names<'_>,
    place: usize,
) -> Result<(), AllocError>
    requires { names.now ≡ lower_keys (settled_all slots.old) }
    ensures { OnOk result (settled_all slots.new ≡ changed_at place (inherited (settled_all slots.old)) (settled_all slots.old)) }
{
    let Some(slot) = slots.at(place) else {
        return Ok(());
    };
    let Some(key) = slot.parent(alloc)? else {
        return Ok(());
    };
    let lowered = Lowered::of(alloc, key.as_bytes())?;
    let Some(parent) = names.position(lowered.as_bytes()) else {
        return Ok(());
    };
    slots.inherit(alloc, place, parent)
}

// The first pass: each entry takes what it lacks from its parent.
fn inherit(slots: &mut Slots<'_>, alloc: Global, names: &Names<'_>) -> Result<(), AllocError>
    requires { names.now ≡ lower_keys (settled_all slots.old) }
    ensures pass { OnOk result (settled_all slots.new ≡ after_first (settled_all slots.old)) }
    ensures names { OnOk result (names.now ≡ lower_keys (settled_all slots.new)) }
{
    for place in 0..slots.len() {
        inherit_at(slots, alloc, names, place)?;
    }
    Ok(())
}

// Whether a parent has an entry that stays.
fn is_parent(parent: Option<&Slot<'_>>) -> bool
    ensures { result ≡ is_parent (option_map settled (option_copied parent.entry)) }
{
    match parent {
        Some(slot) => slot.body.is_some() && slot.stays(),
        None => false,
    }
}

// Reports a parent that has no entry, or has a parent.
fn report_parent<'a>(
    alloc: Global,
    child: &Spelling<'a>,
    key: &Text<'a>,
    parent: Option<&Slot<'a>>,
    messages: &mut Messages<'a>,
) -> Result<(), AllocError>
    ensures { OnOk result (messages.new ≡ messages.old ++ parent_messages child.now key.now (option_map settled (option_copied parent.entry))) }
{
    let is_nested = match parent {
        Some(slot) if slot.body.is_some() && !slot.has_parent() => return Ok(()),
        Some(slot) => slot.body.is_some(),
        None => false,
    };
    let key = Spelling::of_value(key.copy(alloc)?, alloc)?;
    let child = child.copy(alloc)?;
    messages.push(if is_nested {
        Message::NestedReference(child, key)
    } else {
        Message::BadReference(child, key)
    })
}

// The second pass, at one place.
#[tactic(auto, using(crate::proofs::PassLemmas::check_steps))]
fn check_at<'a>(
    slots: &mut Slots<'a>,
    alloc: Global,
    names: &Names<'_>,
    place: usize,
    messages: &mut Messages<'a>,
) -> Result<(), AllocError>
    requires { names.now ≡ lower_keys (settled_all slots.old) }
    ensures slots { OnOk result (settled_all slots.new ≡ changed_at place (checked (settled_all slots.old)) (settled_all slots.old)) }
    ensures messages { OnOk result (messages.new ≡ messages.old ++ messages_by (settled_all slots.old) (slice_get (settled_all slots.old) place)) }
{
    let Some(slot) = slots.at(place) else {
        return Ok(());
    };
    let Some(key) = slot.parent(alloc)? else {
        return Ok(());
    };
    let parent = slots.find(alloc, names, key.as_bytes())?;
    let stays = is_parent(parent);
    report_parent(alloc, &slot.key, &key, parent, messages)?;
    if stays {
        return Ok(());
    }
    slots.cut(place);
    Ok(())
}

// The second pass: parents that don't stay are reported and taken away.
fn check<'a>(
    slots: &mut Slots<'a>,
    alloc: Global,
    names: &Names<'_>,
    messages: &mut Messages<'a>,
) -> Result<(), AllocError>
    requires { names.now ≡ lower_keys (settled_all slots.old) }
    ensures slots { OnOk result (settled_all slots.new ≡ after_second (settled_all slots.old)) }
    ensures messages { OnOk result (messages.new ≡ messages.old ++ pass_messages checked check_messages [] (settled_all slots.old)) }
{
    for place in 0..slots.len() {
        check_at(slots, alloc, names, place, messages)?;
    }
    Ok(())
}

// Adds the entry of a place, if it has one that stays. A key without an entry is reported.
fn close<'a>(
    slot: Slot<'a>,
    entries: &mut Vec<Entry<'a>>,
    messages: &mut Messages<'a>,
) -> Result<(), AllocError>
    ensures entries { OnOk result (entries.new.items ≡ entries.old.items ++ entry_at (settled slot.entry)) }
    ensures messages { OnOk result (messages.new ≡ messages.old ++ absence_messages (settled slot.entry)) }
{
    let stays = slot.stays();
    let Slot { key, body, .. } = slot;
    let Some(body) = body else {
        messages.push(Message::NoEntry(key))?;
        return Ok(());
    };
    if !stays {
        return Ok(());
    }
    let Body { kind, values } = body;
    entries.push(Entry { key, kind, values })?;
    Ok(())
}

// The entries that stay. Keys without an entry are reported.
fn staying<'a>(
    slots: Slots<'a>,
    alloc: Global,
    messages: &mut Messages<'a>,
) -> Result<Vec<Entry<'a>>, AllocError>
    ensures entries { IfOk result (λ entries. entries.items ≡ flat_map entry_at (settled_all slots.entry)) }
    ensures messages { OnOk result (messages.new ≡ messages.old ++ flat_map absence_messages (settled_all slots.entry)) }
{
    let mut entries = Vec::new(alloc);
    let Slots { list } = slots;
    for slot in list {
        close(slot, &mut entries, messages)?;
    }
    Ok(entries)
}

// The list after both passes. No key is looked up any more, so the names are dropped.
fn passed<'a>(
    mut slots: Slots<'a>,
    alloc: Global,
    names: Names<'_>,
    messages: &mut Messages<'a>,
) -> Result<Slots<'a>, AllocError>
    requires { names ≡ lower_keys (settled_all slots) }
    ensures slots { IfOk result (λ passed. settled_all passed ≡ after_second (after_first (settled_all slots.entry))) }
    ensures messages { OnOk result (messages.new ≡ messages.old ++ pass_messages checked check_messages [] (after_first (settled_all slots.entry))) }
{
    inherit(&mut slots, alloc, &names)?;
    check(&mut slots, alloc, &names, messages)?;
    Ok(slots)
}

/// The entries of a list that stay, with what they inherit; what the passes report is added to the messages.
#[tactic(auto, unfolding(crate::specs::language::Passes::entries_of, crate::specs::language::Passes::reference_messages))]
pub fn entries_of<'a>(
    slots: Slots<'a>,
    alloc: Global,
    names: Names<'_>,
    messages: &mut Messages<'a>,
) -> Result<Vec<Entry<'a>>, AllocError>
    requires { names ≡ lower_keys (settled_all slots) }
    ensures entries { IfOk result (λ entries. entries.items ≡ entries_of (settled_all slots.entry)) }
    ensures messages { OnOk result (messages.new ≡ messages.old ++ reference_messages (settled_all slots.entry)) }
{
    let slots = passed(slots, alloc, names, messages)?;
    staying(slots, alloc, messages)
}
