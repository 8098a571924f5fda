//! The law of line breaking.
ghost use Rattle.std.specs.Prelude.{◌≡◌, ◌<◌, ◌≤◌, ◌∷◌, ◌++◌, [], Bool, true, false, List, ℕ, length, if◌then◌else◌};
ghost use Rattle.btx_out.specs.language.Breaking.{Broken, Unbroken, break_of, indented, written_line, committed, wrap};
ghost use Rattle.btx_out.specs.laws.Breaking.{Collecting, Passing, Swallowing, left};
ghost use Rattle.btx_out.specs.laws.Lengths.{IsLineLength};
ghost use Rattle.btx_out.specs.laws.Places.{IsBreakInside, IsBreakPast, IsUnbroken};
ghost use Rattle.btx_out.specs.laws.States.{left_after, sure_after, wrap_after};

/// A law of the definitions, for every length of a line: what is sure of a pending line begins all that may come of it, and what
/// follows it depends on what is left of the pending line and on the bytes that come, and on nothing else.
pub fn one_way_to_go_on()
    ensures wraps { (line_length : ℕ) (t u : List ℕ) → IsLineLength line_length →
        wrap line_length (t ++ u) ≡ committed line_length t ++ wrap_after line_length (left line_length t) u }
    ensures committed_lines { (line_length : ℕ) (t u : List ℕ) → IsLineLength line_length →
        committed line_length (t ++ u) ≡ committed line_length t ++ sure_after line_length (left line_length t) u }
    ensures lefts { (line_length : ℕ) (t u : List ℕ) → IsLineLength line_length →
        left line_length (t ++ u) ≡ left_after line_length (left line_length t) u }
{}

/// What a text gives, by where it is broken, for every length of a line.
pub fn table()
    // A text that fits a line.
    ensures short { (line_length : ℕ) (t : List ℕ) → IsLineLength line_length → length t ≤ line_length →
        (wrap line_length t ≡ written_line t) × (committed line_length t ≡ []) × (left line_length t ≡ Collecting t) }
    // A longer one that ends with its break.
    ensures ends { (line_length : ℕ) (t head : List ℕ) (is_past : Bool) → IsLineLength line_length → line_length < length t →
        break_of line_length t ≡ Broken is_past head [] →
        (wrap line_length t ≡ written_line head) × (committed line_length t ≡ written_line head)
        × (left line_length t ≡ (if is_past then Swallowing else Collecting (indented []))) }
    // A longer one that goes on after its break, after two spaces.
    ensures goes_on { (line_length : ℕ) (t head rest : List ℕ) (b : ℕ) (is_past : Bool) → IsLineLength line_length → line_length < length t →
        break_of line_length t ≡ Broken is_past head (b ∷ rest) →
        let more = indented (b ∷ rest) in
        (wrap line_length t ≡ written_line head ++ wrap line_length more) × (committed line_length t ≡ written_line head ++ committed line_length more)
        × (left line_length t ≡ left line_length more) }
    // A longer one without a break.
    ensures unbroken { (line_length : ℕ) (t : List ℕ) → IsLineLength line_length → line_length < length t → break_of line_length t ≡ Unbroken →
        (wrap line_length t ≡ t ++ 10 ∷ []) × (committed line_length t ≡ t) × (left line_length t ≡ Passing) }
{}

/// Where a text is broken that is longer than a line, for every length of a line.
pub fn places()
    // Inside the line at its last whitespace byte, which goes; never before index 3.
    ensures inside { (line_length : ℕ) (t head rest : List ℕ) → line_length < length t → break_of line_length t ≡ Broken false head rest →
        IsBreakInside line_length t head rest }
    // Where the line has no such whitespace, past it at the next one, whose whole run goes.
    ensures past { (line_length : ℕ) (t head rest : List ℕ) → line_length < length t → break_of line_length t ≡ Broken true head rest →
        IsBreakPast line_length t head rest }
    // Where there is no whitespace at all from index 3 on, nowhere.
    ensures unbroken { (line_length : ℕ) (t : List ℕ) → line_length < length t → break_of line_length t ≡ Unbroken → IsUnbroken t }
{}
