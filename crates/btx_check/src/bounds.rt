//! Bounds of integers.
ghost use Rattle.std.specs.Prelude.{◌≡◌, ℕ, suc, ◌≤◌, ℤ, pos, negsuc, ◌≤ℤ◌, ◌+ℤ◌, ◌-ℤ◌, int_lt, true, false, Option, IsTrue};
ghost use Rattle.std.specs.Option.{MatchOption};
ghost use Rattle.std.specs.Ordering.{int_eq};
ghost use Rattle.btx_stack.specs.declared.literal.Literal.TheVariants.{Integer};
ghost use Rattle.btx_step.specs.language.Control.{is_positive};
ghost use Rattle.btx_check.specs.declared.description.Value.TheVariants as value;
ghost use Rattle.btx_check.specs.declared.description.Upper.TheVariants as upper;
ghost use Rattle.btx_check.specs.Descriptions.{Above, Below, Is};
ghost use Rattle.btx_check.specs.Bounds.{Narrows, Matches};

use crate::description::{Upper, Value};

/// The greater of two lower bounds.
pub(crate) fn raise(low: Option<i32>, to: Option<i32>) -> Option<i32>
    ensures { (n : ℤ) → Above low n → Above to n → Above result n }
{
    match low {
        None => to,
        Some(a) => match to {
            None => low,
            Some(b) => if a < b { to } else { low },
        },
    }
}

/// The lesser of two upper bounds.
pub(crate) fn lower(high: Upper, to: Upper) -> Upper
    ensures { (left : ℕ) (n : ℤ) → Below left high n → Below left to n → Below left result n }
{
    match (high, to) {
        (_, Upper::Number(None)) => high,
        (Upper::Number(None), _) => to,
        (Upper::Counter, Upper::Number(Some(_))) => to,
        (_, Upper::Counter) => high,
        (Upper::Number(Some(a)), Upper::Number(Some(b))) => if b < a { to } else { high },
    }
}

// A lower bound of what is greater.
fn next(low: Option<i32>) -> Option<i32>
    ensures { (x y : ℤ) → Above low y → int_lt y x ≡ true → Above result x }
{
    match low {
        None => None,
        Some(a) => if a < 2_000_000_000 { Some(a + 1) } else { None },
    }
}

// An upper bound of what is less.
fn previous(high: Upper) -> Upper
    ensures { (left : ℕ) (x y : ℤ) → Below left high x → int_lt y x ≡ true → Below left result y }
{
    match high {
        Upper::Counter => high,
        Upper::Number(h) => match h {
            None => high,
            Some(a) => if a > -2_000_000_000 {
                Upper::Number(Some(a - 1))
            } else {
                high
            },
        },
    }
}

/// What is known of an integer of these bounds where it is above 0.
pub fn positive(low: Option<i32>, high: Upper) -> Value
    ensures { (left : ℕ) (n : ℤ) → Is left (value.Integer low high) (Integer n) → is_positive n ≡ true → Is left result (Integer n) }
{
    Value::Integer(raise(low, Some(1)), high)
}

/// .. and where it isn't.
pub fn not_positive(low: Option<i32>, high: Upper) -> Value
    ensures { (left : ℕ) (n : ℤ) → Is left (value.Integer low high) (Integer n) → is_positive n ≡ false → Is left result (Integer n) }
{
    Value::Integer(low, lower(high, Upper::Number(Some(0))))
}

/// A lower bound of a sum.
pub(crate) fn sum_low(a: Option<i32>, b: Option<i32>) -> Option<i32>
    ensures { (x y : ℤ) → Above a x → Above b y → Above result (x +ℤ y) }
{
    match a {
        None => None,
        Some(m) => match b {
            None => None,
            Some(n) => m.checked_add(n),
        },
    }
}

/// Whether an integer of this upper bound is at most a number.
pub(crate) fn is_at_most(high: Upper, most: i32) -> bool
    ensures { IsTrue result → (left : ℕ) (x : ℤ) → Below left high x → x ≤ℤ most }
{
    matches!(high, Upper::Number(Some(n)) if n <= most)
}

/// Whether an integer of this lower bound is at least a number.
pub(crate) fn is_at_least(low: Option<i32>, least: i32) -> bool
    ensures { IsTrue result → (x : ℤ) → Above low x → least ≤ℤ x }
{
    matches!(low, Some(n) if least <= n)
}

// An upper bound of a sum of integers below two numbers.
fn number_sum(a: Option<i32>, b: Option<i32>) -> Option<i32>
    ensures { (before left : ℕ) (x y : ℤ) → Below before (upper.Number a) x → Below before (upper.Number b) y → Below left (upper.Number result) (x +ℤ y) }
{
    match a {
        None => None,
        Some(m) => match b {
            None => None,
            Some(n) => m.checked_add(n),
        },
    }
}

// An upper bound of the sum of what counts steps and another integer, one step later.
fn counter_sum(b: Upper) -> Upper
    ensures first { (left : ℕ) (x y : ℤ) → Below (suc left) upper.Counter x → Below (suc left) b y → Below left result (x +ℤ y) }
    ensures second { (left : ℕ) (x y : ℤ) → Below (suc left) b x → Below (suc left) upper.Counter y → Below left result (x +ℤ y) }
{
    if is_at_most(b, 1) {
        return Upper::Counter;
    }
    Upper::Number(None)
}

/// An upper bound of a sum, one step later.
pub(crate) fn sum_high(a: Upper, b: Upper) -> Upper
    ensures { (left : ℕ) (x y : ℤ) → Below (suc left) a x → Below (suc left) b y → Below left result (x +ℤ y) }
{
    match a {
        Upper::Counter => counter_sum(b),
        Upper::Number(m) => match b {
            Upper::Counter => counter_sum(a),
            Upper::Number(n) => Upper::Number(number_sum(m, n)),
        },
    }
}

/// A lower bound of a difference.
pub(crate) fn difference_low(a: Option<i32>, b: Upper) -> Option<i32>
    ensures { (left : ℕ) (x y : ℤ) → Above a x → Below left b y → Above result (x -ℤ y) }
{
    match b {
        Upper::Counter => None,
        Upper::Number(b) => match a {
            None => None,
            Some(m) => match b {
                None => None,
                Some(n) => m.checked_sub(n),
            },
        },
    }
}

/// An upper bound of a difference, one step later.
pub(crate) fn difference_high(a: Upper, b: Option<i32>) -> Upper
    ensures { (left : ℕ) (x y : ℤ) → Below (suc left) a x → Above b y → Below left result (x -ℤ y) }
{
    match b {
        None => Upper::Number(None),
        Some(n) => match a {
            Upper::Counter => if n >= -1 {
                Upper::Counter
            } else {
                Upper::Number(None)
            },
            Upper::Number(h) => match h {
                None => Upper::Number(None),
                Some(m) => Upper::Number(m.checked_sub(n)),
            },
        },
    }
}

// What is known of an integer that is described twice.
fn both(low: Option<i32>, high: Upper, low2: Option<i32>, high2: Upper) -> Value
    ensures { (left : ℕ) (n : ℤ) → Is left (value.Integer low high) (Integer n) → Is left (value.Integer low2 high2) (Integer n) → Is left result (Integer n) }
{
    Value::Integer(raise(low, low2), lower(high, high2))
}

/// What is known of the two integers of a comparison, the left one and the right one, if it answers 1, and otherwise.
#[derive(Clone, Copy)]
pub(crate) struct Compared {
    pub left: Value,
    pub right: Value,
    pub left_otherwise: Value,
    pub right_otherwise: Value,
}

/// What is known of two integers if the first is greater, and if it isn't.
pub(crate) fn if_greater(low: Option<i32>, high: Upper, low2: Option<i32>, high2: Upper) -> Compared
    ensures so { Narrows true (value.Integer low high) (value.Integer low2 high2) result.left result.right }
    ensures other { Narrows false (value.Integer low high) (value.Integer low2 high2) result.left_otherwise result.right_otherwise }
{
    Compared {
        left: Value::Integer(raise(low, next(low2)), high),
        right: Value::Integer(low2, lower(high2, previous(high))),
        left_otherwise: Value::Integer(low, lower(high, high2)),
        right_otherwise: Value::Integer(raise(low2, low), high2),
    }
}

/// What is known of two integers if the first is less, and if it isn't.
pub(crate) fn if_less(low: Option<i32>, high: Upper, low2: Option<i32>, high2: Upper) -> Compared
    ensures so { Narrows true (value.Integer low2 high2) (value.Integer low high) result.right result.left }
    ensures other { Narrows false (value.Integer low2 high2) (value.Integer low high) result.right_otherwise result.left_otherwise }
{
    let turned = if_greater(low2, high2, low, high);
    Compared {
        left: turned.right,
        right: turned.left,
        left_otherwise: turned.right_otherwise,
        right_otherwise: turned.left_otherwise,
    }
}

/// What is known of two integers if they are equal, and if they aren't.
pub(crate) fn if_equal(low: Option<i32>, high: Upper, low2: Option<i32>, high2: Upper) -> Compared
    ensures so { Matches true (value.Integer low high) (value.Integer low2 high2) result.left result.right }
    ensures other { Matches false (value.Integer low high) (value.Integer low2 high2) result.left_otherwise result.right_otherwise }
{
    let same = both(low, high, low2, high2);
    Compared {
        left: same,
        right: same,
        left_otherwise: other_than(low, high, low2, high2),
        right_otherwise: other_than(low2, high2, low, high),
    }
}

// The number that an integer of these bounds is, if it can be one alone.
fn only(low: Option<i32>, high: Upper) -> Option<i32>
    ensures { MatchOption result (Unit {0}) (λ n. (left : ℕ) (x : ℤ) → Above low x → Below left high x → x ≡ n) }
{
    match high {
        Upper::Counter => None,
        Upper::Number(high) => match (low, high) {
            (Some(m), Some(n)) => if m == n { low } else { None },
            _ => None,
        },
    }
}

// A lower bound of what isn't this number.
fn low_without(low: Option<i32>, n: i32) -> Option<i32>
    ensures { (x : ℤ) → Above low x → int_eq x n ≡ false → Above result x }
{
    match low {
        None => None,
        Some(m) => if m == n && m < 2_000_000_000 {
            Some(m + 1)
        } else {
            low
        },
    }
}

// An upper bound of what isn't this number.
fn high_without(high: Upper, n: i32) -> Upper
    ensures { (left : ℕ) (x : ℤ) → Below left high x → int_eq x n ≡ false → Below left result x }
{
    match high {
        Upper::Counter => high,
        Upper::Number(h) => match h {
            None => high,
            Some(m) => if m == n && m > -2_000_000_000 {
                Upper::Number(Some(m - 1))
            } else {
                high
            },
        },
    }
}

// What is known of an integer that isn't another one.
fn other_than(low: Option<i32>, high: Upper, low2: Option<i32>, high2: Upper) -> Value
    ensures { (left : ℕ) (x y : ℤ) → Is left (value.Integer low high) (Integer x) → Is left (value.Integer low2 high2) (Integer y) → int_eq x y ≡ false → Is left result (Integer x) }
{
    match only(low2, high2) {
        None => Value::Integer(low, high),
        Some(n) => Value::Integer(low_without(low, n), high_without(high, n)),
    }
}
