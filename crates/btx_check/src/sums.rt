//! What is known of sums and differences.
ghost use Rattle.std.specs.Prelude.{◌≡◌, ℕ, suc, ◌≤◌, ℤ, pos, ◌≤ℤ◌, ◌+ℤ◌, ◌-ℤ◌, true, false, Option, IsTrue, cond};
ghost use Rattle.btx_stack.specs.declared.literal.Literal.TheVariants.{Integer};
ghost use Rattle.btx_step.specs.language.Arithmetic.{fits};
ghost use Rattle.btx_check.specs.declared.description.Value.TheVariants as value;
ghost use Rattle.btx_check.specs.Promise.{most_steps};
ghost use Rattle.btx_check.specs.Descriptions.{Above, Below, Is};
ghost use Rattle.btx_check.specs.Bounds.{SumIs};

use crate::bounds::{difference_high, difference_low, is_at_least, is_at_most, sum_high, sum_low};
use crate::description::{Upper, Value};

/// Whether an upper bound is so small that a sum with an integer of at most 100,000,000 fits 32 bits.
pub fn is_counted(high: Upper) -> bool
    ensures { IsTrue result → (left : ℕ) (x : ℤ) → Below left high x → x ≤ℤ pos 2000000000 }
{
    match high {
        Upper::Counter => true,
        Upper::Number(_) => is_at_most(high, 2_000_000_000),
    }
}

/// Whether a sum of integers of these upper bounds is at most 2,100,000,000.
pub fn is_low_sum(high: Upper, high2: Upper) -> bool
    ensures { IsTrue result → (left : ℕ) (x y : ℤ) → Below left high x → Below left high2 y → (x +ℤ y) ≤ℤ pos 2100000000 }
{
    if is_at_most(high, 1_000_000_000) && is_at_most(high2, 1_000_000_000) {
        return true;
    }
    if is_counted(high) && is_at_most(high2, 100_000_000) {
        return true;
    }
    is_at_most(high, 100_000_000) && is_counted(high2)
}

/// Whether a difference of integers of these bounds is at most 2,100,000,000.
pub fn is_low_difference(high: Upper, low2: Option<i32>) -> bool
    ensures { IsTrue result → (left : ℕ) (x y : ℤ) → Below left high x → Above low2 y → (x -ℤ y) ≤ℤ pos 2100000000 }
{
    if is_at_most(high, 1_000_000_000) && is_at_least(low2, -1_000_000_000) {
        return true;
    }
    is_counted(high) && is_at_least(low2, -100_000_000)
}

// What is known of a result within these bounds, which is 0 where it doesn't fit.
fn bounded_result(least: Option<i32>, most: Upper) -> Value
    ensures { (left : ℕ) (z : ℤ) → Above least z → Below left most z → Is left result (Integer (cond (fits z) z (pos 0))) }
{
    if is_at_least(least, 0) {
        return Value::any_count();
    }
    if is_at_most(most, 0) {
        return Value::Integer(None, Upper::Number(Some(0)));
    }
    Value::any_integer()
}

/// The bounds of a sum. If it may not fit, it may be 0.
pub fn sum_of(low: Option<i32>, high: Upper, low2: Option<i32>, high2: Upper) -> Value
    ensures { SumIs (λ x y. x +ℤ y) (value.Integer low high) (value.Integer low2 high2) result }
{
    let least = sum_low(low, low2);
    let most = sum_high(high, high2);
    if !is_at_least(low, -1_000_000_000) {
        return bounded_result(least, most);
    }
    if !is_at_least(low2, -1_000_000_000) {
        return bounded_result(least, most);
    }
    if !is_low_sum(high, high2) {
        return bounded_result(least, most);
    }
    Value::Integer(least, most)
}

/// The bounds of a difference. If it may not fit, it may be 0.
pub fn difference_of(low: Option<i32>, high: Upper, low2: Option<i32>, high2: Upper) -> Value
    ensures { SumIs (λ x y. x -ℤ y) (value.Integer low high) (value.Integer low2 high2) result }
{
    let least = difference_low(low, high2);
    let most = difference_high(high, low2);
    if !is_at_least(low, -1_000_000_000) {
        return bounded_result(least, most);
    }
    if !is_at_most(high2, 1_000_000_000) {
        return bounded_result(least, most);
    }
    if !is_low_difference(high, low2) {
        return bounded_result(least, most);
    }
    Value::Integer(least, most)
}
