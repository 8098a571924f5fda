//! Marks that differ for descriptions that aren't alike, so that not each literal need be compared. No proof rests on them.
use crate::description::{Upper, Value};
use crate::joining::{Sign, sign_of};
use btx_bst::Callee;

/// Marks of what `State::is_like` compares: alike descriptions have the same, and others mostly not. 0 is unknown.
#[derive(Clone, Copy)]
pub(crate) struct Fingerprint {
    /// Of the whole stack and the flags.
    pub fine: u64,
    /// Of what is compared where there are many descriptions.
    pub coarse: u64,
}

impl Fingerprint {
    /// The likeness of a description that may be like any other.
    pub fn unknown() -> Fingerprint {
        Fingerprint { fine: 0, coarse: 0 }
    }

    /// That of a description joined from two of this likeness: if they were compared coarsely, they may differ in what is finer.
    pub fn joined(self, is_coarse: bool) -> Fingerprint {
        Fingerprint {
            fine: if is_coarse { 0 } else { self.fine },
            coarse: self.coarse,
        }
    }

    /// Whether descriptions of these likenesses may be alike.
    pub fn may_be(self, other: Fingerprint, is_coarse: bool) -> bool {
        if is_coarse {
            is_same(self.coarse, other.coarse)
        } else {
            is_same(self.fine, other.fine)
        }
    }
}

fn is_same(a: u64, b: u64) -> bool {
    a == b || a == 0 || b == 0
}

/// A mark, and after it another one.
pub fn mixed(mark: u64, other: u64) -> u64 {
    mark.wrapping_mul(0x9E37_79B9_7F4A_7C15).wrapping_add(other)
}

/// What tells shapes of literals apart.
pub(crate) fn mark_of_shape(value: Value) -> u64 {
    match value {
        Value::Integer(low, high) => match sign_of(low, high) {
            Sign::Positive => 1,
            Sign::NotPositive => 2,
            Sign::Open => 3,
        },
        Value::Text(m) => if m.full { 4 } else { 5 },
        _ => mark_of_kind(value),
    }
}

/// What tells kinds of literals apart, and functions of a style.
pub(crate) fn mark_of_kind(value: Value) -> u64 {
    match value {
        Value::Integer(_, _) => 1,
        Value::Text(_) => 4,
        Value::Any => 6,
        Value::Function(f) => match f {
            Callee::User(i) => mixed(i as u64, 8),
            _ => 7,
        },
    }
}

/// A mark, and after it those of the numbers of names.
pub(crate) fn mixed_names(mark: u64, numbers: &[Option<usize>]) -> u64 {
    let mut mark = mark;
    for number in numbers {
        mark = mixed(mark, mark_of_number(*number));
    }
    mark
}

fn mark_of_number(number: Option<usize>) -> u64 {
    match number {
        None => 0,
        Some(n) => (n as u64).wrapping_add(1),
    }
}

/// What tells apart whatever may be known of a literal.
pub fn mark_of_value(value: Value) -> u64 {
    match value {
        Value::Any => 1,
        Value::Integer(low, high) => mixed(mixed(2, mark_of_bound(low)), mark_of_upper(high)),
        Value::Text(m) => {
            let mut mark: u64 = 3;
            mark = mixed(mark, if m.missing { 1 } else { 0 });
            mark = mixed(mark, if m.empty { 1 } else { 0 });
            mark = mixed(mark, if m.white { 1 } else { 0 });
            mixed(mark, if m.full { 1 } else { 0 })
        }
        Value::Function(_) => mark_of_kind(value),
    }
}

fn mark_of_bound(bound: Option<i32>) -> u64 {
    match bound {
        None => 1,
        Some(n) => mixed(n.unsigned_abs() as u64, if n < 0 { 2 } else { 3 }),
    }
}

fn mark_of_upper(bound: Upper) -> u64 {
    match bound {
        Upper::Counter => 4,
        Upper::Number(n) => mark_of_bound(n),
    }
}
