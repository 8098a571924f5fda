//! Whether one description says no less than another.
ghost use Rattle.std.specs.Prelude.{◌≡◌, ℕ, ℤ, ◌<◌, ◌≤◌, length, IsTrue, true, false, Option, slice_index_or};
ghost use Rattle.btx_check.specs.Promise.{most_steps};
ghost use Rattle.btx_check.specs.Descriptions.{Above, Below};
ghost use Rattle.btx_check.specs.Inclusion.{ValueWithin, StackMaps, NameMaps, FieldsMap, ValuesMap};
ghost use Rattle.btx_check.specs.declared.description.Value.TheVariants as value;

use crate::description::{Mask, Upper, Value};

/// Whether a lower bound implies another.
pub fn low_within(a: Option<i32>, b: Option<i32>) -> bool
    ensures { IsTrue result → (n : ℤ) → Above a n → Above b n }
{
    match b {
        None => true,
        Some(n) => match a {
            None => false,
            Some(m) => n <= m,
        },
    }
}

/// Whether an upper bound implies another.
pub fn high_within(a: Upper, b: Upper) -> bool
    ensures { IsTrue result → (left : ℕ) → left ≤ most_steps → (n : ℤ) → Below left a n → Below left b n }
{
    match (a, b) {
        (_, Upper::Number(None)) => true,
        (Upper::Counter, Upper::Counter) => true,
        (Upper::Number(Some(m)), Upper::Counter) => m <= 500_000_000,
        (Upper::Number(Some(m)), Upper::Number(Some(n))) => m <= n,
        _ => false,
    }
}
/// Whether a mask allows no more than another.
pub fn mask_within(a: Mask, b: Mask) -> bool
    ensures { IsTrue result → ValueWithin (value.Text a) (value.Text b) }
{
    (!a.missing || b.missing)
        && (!a.empty || b.empty)
        && (!a.white || b.white)
        && (!a.full || b.full)
}

/// Whether a description says no less than another.
pub fn value_within(a: Value, b: Value) -> bool
    ensures { IsTrue result → ValueWithin a b }
{
    match b {
        Value::Any => true,
        Value::Integer(low, high) => match a {
            Value::Integer(low2, high2) => low_within(low2, low) && high_within(high2, high),
            _ => false,
        },
        Value::Text(m) => match a {
            Value::Text(n) => mask_within(n, m),
            _ => false,
        },
        Value::Function(f) => match a {
            Value::Function(g) => f == g,
            _ => false,
        },
    }
}

/// Whether each number on a stack has its own of another.
pub fn stack_maps(numbers: &[usize], a: &[usize], b: &[usize]) -> bool
    ensures { IsTrue result → StackMaps numbers.now a.now b.now }
{
    if a.len() != b.len() {
        return false;
    }
    for k in 0..b.len() {
        if !name_maps(numbers, Some(a[k]), Some(b[k])) {
            return false;
        }
    }
    true
}

/// The same for a name.
pub fn name_maps(numbers: &[usize], a: Option<usize>, b: Option<usize>) -> bool
    ensures { IsTrue result → NameMaps numbers.now a b }
{
    match b {
        None => true,
        Some(j) => {
            if j >= numbers.len() {
                return false;
            }
            match a {
                None => false,
                Some(i) => i == numbers[j],
            }
        }
    }
}

/// The same for fields.
pub fn fields_map(numbers: &[usize], a: &[Option<usize>], b: &[Option<usize>]) -> bool
    ensures { IsTrue result → FieldsMap numbers.now a.now b.now }
{
    for f in 0..b.len() {
        let own = if f < a.len() { a[f] } else { None };
        if !name_maps(numbers, own, b[f]) {
            return false;
        }
    }
    true
}

/// Whether what is known of each number says no less than what is to be known.
pub fn values_map(numbers: &[usize], a: &[Value], b: &[Value]) -> bool
    ensures { IsTrue result → ValuesMap numbers.now a.now b.now }
{
    if numbers.len() != b.len() {
        return false;
    }
    for j in 0..b.len() {
        let i = numbers[j];
        if i >= a.len() {
            return false;
        }
        if !value_within(a[i], b[j]) {
            return false;
        }
    }
    true
}
