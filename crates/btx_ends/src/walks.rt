//! The checker's part on loops that walk along texts.
ghost use Rattle.std.specs.Prelude.{◌<◌, ◌≡◌, IsTrue, true, length};
ghost use Rattle.btx_ends.specs.Certificates as within;
ghost use Rattle.btx_ends.specs.Keeping.{said_by};
ghost use Rattle.btx_ends.specs.Shortening.{effects_by, kinds_by};
ghost use Rattle.btx_ends.specs.Views.{claims_of};

use crate::checker::Certificate;
use crate::claims::Claims;
use crate::kinds::kinds_hold;
use crate::measures::Walk;
use crate::shortening::effects_hold;
use crate::walking::{Said, is_said_to_move, moves_hold, place_measure, size_measure, tells_part};
use btx_bst::Style;

// The walk of a number; past the last one that of the first variables.
fn walk_of(walks: &[Walk], k: usize) -> Walk
    ensures { result ≡ within.walks_by walks.now k }
{
    if k < walks.len() {
        walks[k]
    } else {
        Walk {
            text: 0,
            place: 0,
            size: 0,
        }
    }
}

// Answers whether a function is the test of the walk that is claimed.
fn part_holds(style: &Style, walks: &[Walk], integers: u32, claim: u32, number: usize) -> bool
    requires { number < length style.now.bodies }
    ensures { IsTrue result → within.PartHolds style.now (within.walks_by walks.now) integers claim number }
{
    if claim == 0 {
        return true;
    }
    let walk = walk_of(walks, (claim - 1) as usize);
    walk.place < integers && walk.size < integers && tells_part(style, walk, style.body(number))
}

// Answers whether that is so of all functions.
fn parts_hold(style: &Style, walks: &[Walk], integers: u32, parts: &[u32]) -> bool
    ensures { IsTrue result → within.PartsHold style.now (within.walks_by walks.now) integers parts.now }
{
    if parts.len() > style.functions() {
        return false;
    }
    for number in 0..parts.len() {
        if !part_holds(style, walks, integers, parts[number], number) {
            return false;
        }
    }
    true
}

/// Answers whether what is said of all functions holds of the text, the place and the size of a walk.
pub(crate) fn effects_stay(style: &Style, walk: Walk, said: Said<'_>) -> bool
    ensures { IsTrue result → within.WalkEffectsHold style.now walk (kinds_by said.entry.kinds.now) (effects_by said.entry.places.now) (effects_by said.entry.sizes.now) }
{
    match (place_measure(walk), size_measure(walk)) {
        (Some(place), Some(size)) => {
            effects_hold(style, place, said.kinds, said.places)
                && effects_hold(style, size, said.kinds, said.sizes)
        }
        _ => false,
    }
}

// Answers whether a function moves the place of a walk on, by what is said of all functions.
fn moves_by(style: &Style, walk: Walk, said: Said<'_>, number: usize) -> bool
    ensures { IsTrue result → within.MovesBy style.now walk (kinds_by said.entry.kinds.now) (effects_by said.entry.places.now) (effects_by said.entry.sizes.now) (said_by said.entry.moves.now) number }
{
    is_said_to_move(said, number)
        && kinds_hold(style, said.kinds)
        && effects_stay(style, walk, said)
        && moves_hold(style, walk, said)
}

// Answers whether a function moves the place on of the walk that is claimed.
fn move_holds(
    style: &Style,
    walks: &[Walk],
    certificate: &Certificate,
    claim: u32,
    number: usize,
) -> bool
    ensures { IsTrue result → within.MoveHolds style.now (within.walks_by walks.now) claim number }
{
    if claim == 0 {
        return true;
    }
    let k = (claim - 1) as usize;
    if k >= certificate.places.len()
        || k >= certificate.sizes.len()
        || k >= certificate.movers.len()
    {
        return false;
    }
    let said = Said {
        kinds: certificate.kinds.as_slice(),
        places: certificate.places[k].as_slice(),
        sizes: certificate.sizes[k].as_slice(),
        moves: certificate.movers[k].as_slice(),
    };
    moves_by(style, walk_of(walks, k), said, number)
}

// Answers whether that is so of all functions.
fn all_move(style: &Style, walks: &[Walk], certificate: &Certificate, moves: &[u32]) -> bool
    ensures { IsTrue result → within.AllMove style.now (within.walks_by walks.now) moves.now }
{
    for number in 0..moves.len() {
        if !move_holds(style, walks, certificate, moves[number], number) {
            return false;
        }
    }
    true
}

/// Answers whether all claims on loops that walk along texts hold.
pub(crate) fn walks_hold(style: &Style, claims: Claims<'_>, certificate: &Certificate) -> bool
    ensures { IsTrue result → within.WalksHold (claims_of claims.entry) style.now }
{
    let walks = certificate.walks.as_slice();
    parts_hold(style, walks, claims.integers, claims.parts)
        && all_move(style, walks, certificate, claims.moves)
}
