//! Faults that the search for places meets: which fault a function has, which operand is its reason, and what follows it.
use crate::findings::{Fault, Operand};
use crate::search::Search;
use btx_bst::{BuiltIn, Callee};
use btx_check::State;
use btx_check::adding::add;
use btx_check::description::Value;
use btx_check::operands::is_fit;
use btx_check::rules::mask_of;
use btx_step::OperandKind;
use btx_step::operands::{Default, Operand as Wants, default_of, operands_of};
use btx_step::stand_in::StandIn;
use std::alloc::AllocError;

/// The operands of a function, the top one first. A function of the style takes none itself, nor does a name.
pub fn operands_for(f: Callee) -> &'static [Wants] {
    match f {
        Callee::BuiltIn(b) => operands_of(b),
        _ => &[],
    }
}

impl Search {
    /// Notes the fault of a function: the operand that is the reason, if one is.
    pub fn fault(
        &mut self,
        a: &State,
        f: Callee,
        is_first: bool,
    ) -> Result<Option<Operand>, AllocError> {
        if !a.has_entry() && needs_entry(f) {
            self.note(a, f, Fault::NoEntry, None, is_first)?;
            return Ok(None);
        }
        if a.height() < operands_for(f).len() {
            self.note(a, f, Fault::EmptyStack, None, is_first)?;
            return Ok(None);
        }
        if !a.has_entry() && assigns_in_entry(a, f) {
            self.note(a, f, Fault::NoEntry, None, is_first)?;
            return Ok(None);
        }
        let operand = wrong_operand(a, f);
        self.note(a, f, fault_of(f, operand), operand, is_first)?;
        Ok(operand)
    }

    /// Adds what follows a fault: without the operands, and with what stands in for a result; or with the operands, where they are put back.
    pub fn recover(
        &mut self,
        a: &State,
        f: Callee,
        out: &mut Vec<State>,
    ) -> Result<(), AllocError> {
        let mut b = a.copy()?;
        if let Default::Push(stand_in) = default_for(a, f) {
            for _ in 0..operands_for(f).len() {
                let _ = b.pop();
            }
            match stand_in {
                StandIn::Nothing => {}
                StandIn::Zero => b.push_new(Value::zero())?,
                StandIn::Empty => b.push_new(Value::Text(mask_of(b"")))?,
            }
        }
        add(&self.work, out, b)
    }

    /// Notes the fault of the function `f` at `a`, and adds to `out` what follows it.
    pub fn spoil(
        &mut self,
        a: &State,
        f: Callee,
        is_first: bool,
        out: &mut Vec<State>,
    ) -> Result<(), AllocError> {
        let _ = self.fault(a, f, is_first)?;
        self.recover(a, f, out)
    }
}

// What follows a fault of a function. Where an entry is lacking, nothing is pushed.
fn default_for(a: &State, f: Callee) -> Default {
    match f {
        Callee::BuiltIn(b) if a.has_entry() || !needs_entry(f) => default_of(b),
        _ => Default::Push(StandIn::Nothing),
    }
}

// Whether a function needs an entry.
fn needs_entry(f: Callee) -> bool {
    match f {
        Callee::BuiltIn(b) => matches!(
            b,
            BuiltIn::Cite | BuiltIn::Type | BuiltIn::CallType | BuiltIn::Missing
        ),
        Callee::Field(_) | Callee::EntryInteger(_) | Callee::EntryString(_) => true,
        _ => false,
    }
}

// What is assigned to, if `f` is `:=`.
fn assigned(a: &State, f: Callee) -> Option<Callee> {
    if f != Callee::BuiltIn(BuiltIn::Assign) {
        return None;
    }
    match a.value_at(0) {
        Some(Value::Function(variable)) => Some(variable),
        _ => None,
    }
}

// Whether a function assigns to a variable of an entry.
fn assigns_in_entry(a: &State, f: Callee) -> bool {
    match assigned(a, f) {
        Some(Callee::EntryInteger(_)) | Some(Callee::EntryString(_)) => true,
        _ => false,
    }
}

// The kind of the value that a function assigns, if it assigns to a variable.
fn assigned_kind(a: &State, f: Callee) -> Option<OperandKind> {
    match assigned(a, f) {
        Some(Callee::EntryInteger(_)) | Some(Callee::GlobalInteger(_)) => Some(
            OperandKind::Integer,
        ),
        Some(Callee::EntryString(_)) | Some(Callee::GlobalString(_)) => Some(OperandKind::Text),
        _ => None,
    }
}

// The first operand that may be wrong.
fn wrong_operand(a: &State, f: Callee) -> Option<Operand> {
    let operands = operands_for(f);
    let stack = a.stack();
    for k in 0..operands.len() {
        if k < stack.len() {
            let number = stack[k];
            let value = a.value(number);
            let wanted = match operands[k] {
                Wants::Of(kind) => Some(kind),
                Wants::Any if k == 1 => assigned_kind(a, f),
                Wants::Any => None,
            };
            let is_right = match wanted {
                Some(wanted) => is_fit(value, Wants::Of(wanted)),
                None => is_right_here(a, value, f),
            };
            if !is_right {
                return Some(Operand {
                    position: k,
                    value,
                    name: name_of(a, number),
                    wanted,
                });
            }
        }
    }
    None
}

// Whether an operand of no kind is right: of `=`.
fn is_right_here(a: &State, value: Value, f: Callee) -> bool {
    match (f, value) {
        (Callee::BuiltIn(BuiltIn::Equals), Value::Text(m)) => !m.missing,
        (Callee::BuiltIn(BuiltIn::Equals), Value::Integer(_, _)) => {
            matches!(a.value_at(0), Some(Value::Integer(_, _)))
                && matches!(a.value_at(1), Some(Value::Integer(_, _)))
        }
        (Callee::BuiltIn(BuiltIn::Equals), _) => false,
        _ => true,
    }
}

// The message of a function whose operand is wrong.
fn fault_of(f: Callee, operand: Option<Operand>) -> Fault {
    match f {
        Callee::BuiltIn(BuiltIn::Equals) => Fault::Incomparable,
        Callee::BuiltIn(BuiltIn::Assign) => match operand {
            Some(_) => Fault::WrongKind,
            None => Fault::NotAssignable,
        },
        _ => Fault::WrongKind,
    }
}

/// Takes a missing field from what an operand may be, if it may be a string as well.
pub fn narrow(a: &mut State, operand: Option<Operand>) -> bool {
    match operand {
        Some(operand) => match operand.value {
            Value::Text(m) => {
                if !m.missing || !(m.empty || m.white || m.full) {
                    return false;
                }
                match a.number_at(operand.position) {
                    None => false,
                    Some(number) => {
                        a.know(number, Value::Text(m.present()));
                        true
                    }
                }
            }
            _ => false,
        },
        None => false,
    }
}

// The name whose value the literal of this number is.
fn name_of(a: &State, number: usize) -> Option<Callee> {
    if let Some(k) = place_of(a.fields(), number) {
        return Some(Callee::Field(k));
    }
    if let Some(k) = place_of(a.global_strings(), number) {
        return Some(Callee::GlobalString(k));
    }
    Some(Callee::GlobalInteger(place_of(a.global_integers(), number)?))
}

// The first place where `number` stands among the numbers of names.
fn place_of(numbers: &[Option<usize>], number: usize) -> Option<u32> {
    for k in 0..numbers.len() {
        if numbers[k] == Some(number) {
            return u32::try_from(k).ok();
        }
    }
    None
}
