//! Where the values of the declared fields stand.
ghost use Rattle.std.specs.Prelude.{◌≡◌, IfOk, IfSome, map};
ghost use Rattle.btx_bib.specs.declared.places.Place.TheVariants as Place;
ghost use Rattle.btx_bib.specs.refinement.ShortPlaces.{place_in};

use crate::few_places::FewPlaces;
use std::alloc::{AllocError, Global};
use std::marker::Model;

/// Where the value of a field stands.
#[derive(Clone, Copy)]
pub enum Place {
    /// The field is missing.
    Missing,
    /// It is the lent value of this number.
    Lent(u32),
    /// It is the made value of this number.
    Made(u32),
}

// The first code of a made value, in a byte.
const FIRST_MADE: u8 = 128;

/// A place in a byte.
#[derive(Clone, Copy)]
pub struct ShortPlace {
    // 0 where the field is missing; then the lent values, and from 128 on those that were made.
    code: u8,
}

impl ShortPlace {
    /// The field is missing.
    pub fn missing() -> ShortPlace
        ensures { place_in result ≡ Place.Missing }
    {
        ShortPlace { code: 0 }
    }

    /// A place, if it has room in a byte.
    #[inline(always)]
    fn of(place: Place) -> Option<ShortPlace>
        ensures { IfSome result (λ short. place_in short ≡ place) }
    {
        match place {
            Place::Missing => Some(ShortPlace { code: 0 }),
            Place::Lent(number) => match u8::try_from(number) {
                Ok(number) if number < FIRST_MADE - 1 => Some(ShortPlace { code: number + 1 }),
                Ok(_) | Err(_) => None,
            },
            Place::Made(number) => match u8::try_from(number) {
                Ok(number) if number < FIRST_MADE => Some(ShortPlace {
                    code: FIRST_MADE + number,
                }),
                Ok(_) | Err(_) => None,
            },
        }
    }

    /// The place.
    #[inline(always)]
    fn place(self) -> Place
        ensures { result ≡ place_in self }
    {
        if self.code == 0 {
            return Place::Missing;
        }
        if self.code < FIRST_MADE {
            return Place::Lent(u32::from(self.code - 1));
        }
        Place::Made(u32::from(self.code - FIRST_MADE))
    }
}

// How the places are kept.
#[derive(Drop)]
enum Kept {
    // In a byte each, of few fields.
    Few(FewPlaces),
    // In a byte each.
    Short(Vec<ShortPlace>),
    // As they are: some have no room in a byte.
    Long(Vec<Place>),
}

/// For each declared field where its value stands. Most entries have so few values that a place takes a byte.
#[derive(Drop)]
pub struct Places {
    kept: Kept,
}

impl Model for Places {
    ghost use Rattle.std.specs.Prelude.{List};
    ghost use Rattle.btx_bib.specs.declared.places.Place.{Place};
    ghost use Rattle.btx_bib.specs.refinement.Values.{places_in};

    ghost Value = { List Place };

    ghost view = { λ places. places_in places.kept };
}

impl Places {
    ghost use Rattle.std.specs.Prelude.{◌≡◌, ◌<◌, [], IfOk, OnErr, OnOk, length, replicate, slice_get, slice_set};

    /// The places of `count` fields, all of them missing.
    pub fn missing(alloc: Global, count: usize) -> Result<Places, AllocError>
        ensures { IfOk result (λ places. places ≡ replicate count Place.Missing) }
    {
        if let Some(few) = FewPlaces::missing(count) {
            return Ok(Places {
                kept: Kept::Few(few),
            });
        }
        Ok(Places {
            kept: Kept::Short(vec![in alloc; ShortPlace::missing(); count]?),
        })
    }

    /// No field.
    pub fn new(alloc: Global) -> Places
        ensures { result ≡ [] }
    {
        Places {
            kept: Kept::Short(Vec::new(alloc)),
        }
    }

    /// How many fields there are.
    #[inline(always)]
    pub fn len(&self) -> usize
        ensures { result ≡ length self.now }
    {
        match &self.kept {
            Kept::Few(few) => few.as_slice().len(),
            Kept::Short(list) => list.len(),
            Kept::Long(list) => list.len(),
        }
    }

    /// The place of a field.
    #[inline(always)]
    pub fn get(&self, field: usize) -> Option<Place>
        ensures { result ≡ slice_get self.now field }
    {
        match &self.kept {
            Kept::Few(few) => match few.as_slice().get(field) {
                Some(short) => Some(short.place()),
                None => None,
            },
            Kept::Short(list) => match list.get(field) {
                Some(short) => Some(short.place()),
                None => None,
            },
            Kept::Long(list) => match list.get(field) {
                Some(place) => Some(*place),
                None => None,
            },
        }
    }

    /// Puts the value of a field elsewhere.
    #[inline(always)]
    #[tactic(auto, using(crate::proofs::TextLemmas::place_steps))]
    pub fn set(&mut self, alloc: Global, field: usize, place: Place) -> Result<(), AllocError>
        requires { field < length self.old }
        ensures ok { OnOk result (self.new ≡ slice_set self.old field place) }
        ensures err { OnErr result (self.new ≡ self.old) }
    {
        match &mut self.kept {
            Kept::Long(list) => list[field] = place,
            Kept::Few(few) => match ShortPlace::of(place) {
                Some(short) => few.set(field, short),
                None => {
                    let mut long = lengthened(alloc, few.as_slice())?;
                    long[field] = place;
                    self.kept = Kept::Long(long);
                }
            },
            Kept::Short(list) => match ShortPlace::of(place) {
                Some(short) => list[field] = short,
                None => {
                    let mut long = lengthened(alloc, list.as_slice())?;
                    long[field] = place;
                    self.kept = Kept::Long(long);
                }
            },
        }
        Ok(())
    }

    /// A field is missing from now on.
    #[tactic(auto, using(crate::proofs::TextLemmas::place_steps))]
    pub fn clear(&mut self, field: usize)
        requires { field < length self.old }
        ensures { self.new ≡ slice_set self.old field Place.Missing }
    {
        match &mut self.kept {
            Kept::Long(list) => list[field] = Place::Missing,
            Kept::Few(few) => few.set(field, ShortPlace::missing()),
            Kept::Short(list) => list[field] = ShortPlace::missing(),
        }
    }
}

// Places that were kept in a byte each.
fn lengthened(alloc: Global, places: &[ShortPlace]) -> Result<Vec<Place>, AllocError>
    ensures { IfOk result (λ long. long.items ≡ map place_in places.now) }
{
    let mut long = Vec::with_capacity(alloc, places.len())?;
    for place in places {
        long.push(place.place())?;
    }
    Ok(long)
}
