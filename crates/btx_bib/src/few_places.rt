//! The places of few fields.
use crate::places::ShortPlace;
use std::marker::Model;

// The most fields that are few.
const FEW: usize = 30;

/// The places of at most 30 fields, in a byte each: they take no memory of their own.
#[derive(Drop)]
pub struct FewPlaces {
    // Those after the last field are missing.
    codes: [ShortPlace; FEW],
    // The number of fields.
    count: u8,
}

impl Model for FewPlaces {
    ghost use Rattle.std.specs.Prelude.{◌≤◌, List, length};
    ghost use Rattle.btx_bib.specs.declared.places.Place.{Place};
    ghost use Rattle.btx_bib.specs.refinement.ShortPlaces.{few_places};

    ghost Value = { List Place };

    ghost view = { λ few. few_places few.codes few.count };

    ghost invariant = { λ few. few.count ≤ length few.codes };
}

impl FewPlaces {
    ghost use Rattle.std.specs.Prelude.{◌≡◌, ◌<◌, IfSome, length, map, replicate, slice_set};
    ghost use Rattle.btx_bib.specs.declared.places.Place.TheVariants as Place;
    ghost use Rattle.btx_bib.specs.refinement.ShortPlaces.{place_in};

    /// This number of fields is missing, if they are few enough.
    #[tactic(auto, using(crate::proofs::TextLemmas::few_steps))]
    pub fn missing(count: usize) -> Option<FewPlaces>
        ensures { IfSome result (λ few. few ≡ replicate count Place.Missing) }
    {
        match u8::try_from(count) {
            Ok(number) if count <= FEW => Some(FewPlaces {
                codes: [ShortPlace::missing(); FEW],
                count: number,
            }),
            Ok(_) | Err(_) => None,
        }
    }

    /// The places, in a byte each.
    #[inline(always)]
    pub fn as_slice(&self) -> &[ShortPlace]
        ensures { map place_in result.now ≡ self.now }
    {
        self.codes.as_slice().split_at(usize::from(self.count)).0
    }

    /// Puts the value of a field elsewhere.
    #[inline(always)]
    #[tactic(auto, using(crate::proofs::TextLemmas::few_steps))]
    pub fn set(&mut self, field: usize, place: ShortPlace)
        requires { field < length self.old }
        ensures { self.new ≡ slice_set self.old field (place_in place) }
    {
        self.codes[field] = place;
    }
}
