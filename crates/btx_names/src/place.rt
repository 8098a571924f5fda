//! Places in bytes that are kept.
ghost use Rattle.std.specs.Prelude.{◌≡◌};
ghost use Rattle.btx_names.specs.refinement.Places.{bytes_at};

/// Some bytes among others: where they begin, and how many they are.
#[derive(Clone, Copy)]
pub struct Place {
    /// How many bytes stand before them.
    pub from: usize,
    /// How many they are.
    pub len: usize,
}

impl Place {
    /// The bytes at this place. What of it lies after the end has none.
    #[tactic(auto, using(crate::proofs::PlaceLemmas::place_steps))]
    pub fn of(self, bytes: &[u8]) -> &[u8]
        ensures { result.now ≡ bytes_at bytes.now self }
    {
        let (_, behind) = bytes.split_at(self.from.min(bytes.len()));
        let (these, _) = behind.split_at(self.len.min(behind.len()));
        these
    }
}
