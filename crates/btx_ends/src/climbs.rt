//! The checker's part on loops that count a variable up to a limit.
ghost use Rattle.std.specs.Prelude.{◌<◌, ◌≡◌, IsTrue, true, length};
ghost use Rattle.btx_ends.specs.Certificates as within;
ghost use Rattle.btx_ends.specs.declared.measures.Limit.TheVariants as limit;
ghost use Rattle.btx_ends.specs.Shortening.{effects_by, kinds_by};
ghost use Rattle.btx_ends.specs.Views.{claims_of};

use crate::checker::Certificate;
use crate::claims::{Claims, claim_of};
use crate::climbing::{raises, tells_below};
use crate::kinds::kinds_hold;
use crate::measures::{Climb, Limit, Walk};
use crate::walking::Said;
use crate::walks::effects_stay;
use btx_bst::Style;

// The climb of a number; past the last one that of the first variables.
fn climb_of(climbs: &[Climb], k: usize) -> Climb
    ensures { result ≡ within.climbs_by climbs.now k }
{
    if k < climbs.len() {
        climbs[k]
    } else {
        Climb {
            walk: Walk {
                text: 0,
                place: 0,
                size: 0,
            },
            limit: Limit::Size,
        }
    }
}

// Answers whether a variable that is a limit is below 2^31, and isn't the place.
fn size_within(claims: Claims<'_>, walk: Walk) -> bool
    ensures { IsTrue result → within.LimitWithin (claims_of claims.entry) walk limit.Size }
{
    let claim = claim_of(claims.bounds, walk.size as usize);
    claim != 0 && claim <= 1 << 31 && walk.size != walk.place
}

// Answers whether a limit is below 2^31.
fn limit_within(claims: Claims<'_>, walk: Walk, limit: Limit) -> bool
    ensures { IsTrue result → within.LimitWithin (claims_of claims.entry) walk limit }
{
    match limit {
        Limit::Size => size_within(claims, walk),
        Limit::Length => claims.kept < 1 << 31,
        Limit::Number(n) => n <= 1 << 30,
    }
}

// Answers whether a function is the test of the climb that is claimed.
fn limit_holds(
    style: &Style,
    claims: Claims<'_>,
    climbs: &[Climb],
    claim: u32,
    number: usize,
) -> bool
    requires { number < length style.now.bodies }
    ensures { IsTrue result → within.LimitHolds (claims_of claims.entry) style.now (within.climbs_by climbs.now) claim number }
{
    if claim == 0 {
        return true;
    }
    let climb = climb_of(climbs, (claim - 1) as usize);
    climb.walk.place < claims.integers
        && climb.walk.size < claims.integers
        && limit_within(claims, climb.walk, climb.limit)
        && tells_below(style, climb, style.body(number))
}

// Answers whether that is so of all functions.
fn limits_hold(style: &Style, claims: Claims<'_>, climbs: &[Climb], limits: &[u32]) -> bool
    ensures { IsTrue result → within.LimitsHold (claims_of claims.entry) style.now (within.climbs_by climbs.now) limits.now }
{
    if limits.len() > style.functions() {
        return false;
    }
    for number in 0..limits.len() {
        if !limit_holds(style, claims, climbs, limits[number], number) {
            return false;
        }
    }
    true
}

// Answers whether a function raises the place of a climb, by what is said of all functions.
fn raises_by(style: &Style, climb: Climb, said: Said<'_>, number: usize) -> bool
    requires { number < length style.now.bodies }
    ensures { IsTrue result → within.RaisesBy style.now climb (kinds_by said.entry.kinds.now) (effects_by said.entry.places.now) (effects_by said.entry.sizes.now) number }
{
    raises(style, climb, said, style.body(number))
        && kinds_hold(style, said.kinds)
        && effects_stay(style, climb.walk, said)
}

// Answers whether a function raises the place of the climb that is claimed.
fn raise_holds(
    style: &Style,
    climbs: &[Climb],
    certificate: &Certificate,
    claim: u32,
    number: usize,
) -> bool
    requires { number < length style.now.bodies }
    ensures { IsTrue result → within.RaiseHolds style.now (within.climbs_by climbs.now) claim number }
{
    if claim == 0 {
        return true;
    }
    let k = (claim - 1) as usize;
    if k >= certificate.climb_places.len() || k >= certificate.climb_sizes.len() {
        return false;
    }
    let said = Said {
        kinds: certificate.kinds.as_slice(),
        places: certificate.climb_places[k].as_slice(),
        sizes: certificate.climb_sizes[k].as_slice(),
        moves: &[],
    };
    raises_by(style, climb_of(climbs, k), said, number)
}

// Answers whether that is so of all functions.
fn all_raise(style: &Style, climbs: &[Climb], certificate: &Certificate, raises: &[u32]) -> bool
    ensures { IsTrue result → within.AllRaise style.now (within.climbs_by climbs.now) raises.now }
{
    if raises.len() > style.functions() {
        return false;
    }
    for number in 0..raises.len() {
        if !raise_holds(style, climbs, certificate, raises[number], number) {
            return false;
        }
    }
    true
}

/// Answers whether all claims on loops that count up hold.
pub(crate) fn climbs_hold(style: &Style, claims: Claims<'_>, certificate: &Certificate) -> bool
    ensures { IsTrue result → within.ClimbsHold (claims_of claims.entry) style.now }
{
    let climbs = certificate.climbs.as_slice();
    limits_hold(style, claims, climbs, claims.limits)
        && all_raise(style, climbs, certificate, claims.raises)
}
