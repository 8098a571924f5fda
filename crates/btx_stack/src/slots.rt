//! The stack of slots over one pool of bytes, below the layer of long strings.
ghost use Rattle.std.specs.Prelude.{◌≡◌, ◌≤◌, ◌<◌, ◌+◌, [], ◌∷◌, length, drop, IfOk, IfSome, IfNone, OnErr, IsSome, is_some, IsTrue};
ghost use Rattle.btx_text.specs.language.Limits.{greatest_string};
ghost use Rattle.btx_code.specs.refinement.Ops.{callee_of, Runs};
ghost use Rattle.btx_stack.specs.refinement.Slots.{greatest_short};
ghost use Rattle.btx_stack.specs.refinement.Steps.{Steps, Partly, GivesString, compared, cut, put_for_integers, replaced, below_choice, one_if, large_on};
ghost use Rattle.btx_stack.specs.refinement.Steps.{integer_on, has_function, has_missing, plain_on, plain_off, with_pushed, below_top, has_text, top_joined};
ghost use Rattle.btx_stack.specs.refinement.Steps.{swapped, duplicated};
ghost use Rattle.btx_stack.specs.refinement.Content as content;

use crate::literal::Literal;
use crate::pool::{again, append_two, exchange, keep, put_before};
use crate::slot::{Slot, SlotKind, are_large, are_same};
use crate::variable::Variable;
use btx_code::Op;
use btx_code::op::Function;
use btx_text::{MOST_LITERALS, Text};
use std::alloc::{AllocError, Global};
use std::marker::Model;

/// The greatest length of a string that was made and whose bytes are in the pool.
pub const GREATEST_SHORT: usize = 1024;

/// At most 1,000 slots, seen as what they hold, top first.
#[derive(Drop)]
pub struct Slots<'a> {
    // 1,000 slots, of which those from `top` on are in use, top first.
    all: Vec<Slot<'a>>,
    top: usize,
    // The bytes of the strings that were made, those of the top one at the end.
    pool: Vec<u8>,
}

impl<'a> Model for Slots<'a> {
    ghost use Rattle.std.specs.Prelude.{List};
    ghost use Rattle.btx_stack.specs.refinement.Content.{Content};

    ghost Value = { List Content };

    ghost use Rattle.std.specs.Prelude.{drop, ◌≡◌, ◌≤◌, length};
    ghost use Rattle.btx_stack.specs.refinement.Slots.{contents_of, Stand};

    ghost view = { λ s. contents_of (drop s.top s.all.items) s.pool.items };

    ghost invariant = { λ s. (length s.all.items ≡ 1000) × (s.top ≤ 1000) × Stand (drop s.top s.all.items) (length s.pool.items) };
}

impl<'a> Slots<'a> {
    /// An empty stack.
    pub fn new(alloc: Global) -> Result<Self, AllocError>
        ensures { IfOk result (λ s. s ≡ []) }
    {
        Ok(Slots {
            all: vec![in alloc; Slot::empty(); MOST_LITERALS]?,
            top: MOST_LITERALS,
            pool: Vec::new(alloc),
        })
    }

    /// How many slots are in use.
    #[tactic(auto, using(crate::proofs::Pushes::count_is, crate::proofs::Pushes::count_within))]
    #[inline(always)]
    pub fn len(&self) -> usize
        ensures length { result ≡ length self.now }
        ensures within { length self.now ≤ 1000 }
    {
        MOST_LITERALS - self.top
    }

    /// Pushes an integer and answers true, or answers false where there is no room.
    #[tactic(auto, using(crate::proofs::Pushes::small, crate::proofs::Pushes::full, crate::proofs::Pushes::push_here))]
    #[inline(always)]
    pub fn push_integer(&mut self, integer: i32) -> bool
        ensures steps { Steps result self.old (with_pushed (content.Integer integer) self.old) self.new }
        ensures room { length self.old < 1000 → IsTrue result }
    {
        let at = self.top;
        if at == 0 {
            return false;
        }
        let start = self.pool.len() as u32;
        self.all[at - 1].set_integer(integer, start);
        self.top = at - 1;
        true
    }

    /// Pushes a function and answers true, or answers false where there is no room.
    #[tactic(auto, using(crate::proofs::Pushes::small, crate::proofs::Pushes::full, crate::proofs::Pushes::push_here))]
    #[inline(always)]
    pub fn push_function(&mut self, op: Op, number: u32) -> bool
        requires { Runs op }
        ensures steps { Steps result self.old (with_pushed (content.Function (callee_of op number)) self.old) self.new }
        ensures room { length self.old < 1000 → IsTrue result }
    {
        let at = self.top;
        if at == 0 {
            return false;
        }
        let start = self.pool.len() as u32;
        self.all[at - 1].set_function(op, number, start);
        self.top = at - 1;
        true
    }

    /// Pushes the value of a missing field and answers true, or answers false where there is no room.
    #[tactic(auto, using(crate::proofs::Pushes::small, crate::proofs::Pushes::full, crate::proofs::Pushes::push_here))]
    #[inline(always)]
    pub fn push_missing(&mut self) -> bool
        ensures steps { Steps result self.old (with_pushed content.Missing self.old) self.new }
        ensures room { length self.old < 1000 → IsTrue result }
    {
        let at = self.top;
        if at == 0 {
            return false;
        }
        let start = self.pool.len() as u32;
        self.all[at - 1].set_missing(start);
        self.top = at - 1;
        true
    }

    /// Pushes a string of a file and answers true, or answers false where there is no room.
    #[tactic(auto, using(crate::proofs::Pushes::small, crate::proofs::Pushes::full, crate::proofs::Pushes::push_here))]
    #[inline(always)]
    pub fn push_lent(&mut self, bytes: &'a [u8]) -> bool
        requires { length bytes.now ≤ greatest_string }
        ensures steps { Steps result self.old (with_pushed (content.Text bytes.now) self.old) self.new }
        ensures room { length self.old < 1000 → IsTrue result }
    {
        let at = self.top;
        if at == 0 {
            return false;
        }
        let start = self.pool.len() as u32;
        self.all[at - 1].set_lent(bytes, start);
        self.top = at - 1;
        true
    }

    /// Pushes a copy of `bytes` and answers true, or answers false where there is no room.
    #[tactic(auto, using(crate::proofs::Pushes::small, crate::proofs::Pushes::full, crate::proofs::Pushes::push_there))]
    #[inline(always)]
    pub fn push_made(&mut self, bytes: &[u8]) -> Result<bool, AllocError>
        requires { length bytes.now ≤ greatest_short }
        ensures steps { IfOk result (λ done. Steps done self.old (with_pushed (content.Text bytes.now) self.old) self.new) }
        ensures room { IfOk result (λ done. length self.old < 1000 → IsTrue done) }
        ensures unchanged { OnErr result (self.new ≡ self.old) }
    {
        let at = self.top;
        if at == 0 {
            return Ok(false);
        }
        let start = self.pool.len() as u32;
        self.pool.extend_from_slice(bytes)?;
        self.all[at - 1].set_made(start);
        self.top = at - 1;
        Ok(true)
    }

    /// Pushes a long string, by its index, and answers true, or answers false where there is no room.
    #[tactic(auto, using(crate::proofs::Pushes::small, crate::proofs::Pushes::full, crate::proofs::Pushes::push_here))]
    #[inline(always)]
    pub fn push_large(&mut self, number: u32) -> bool
        ensures steps { Steps result self.old (with_pushed (content.Large number) self.old) self.new }
        ensures room { length self.old < 1000 → IsTrue result }
    {
        let at = self.top;
        if at == 0 {
            return false;
        }
        let start = self.pool.len() as u32;
        self.all[at - 1].set_large(number, start);
        self.top = at - 1;
        true
    }

    /// The index of the long string on top, if there is one.
    #[tactic(auto, using(crate::proofs::Pushes::count_within, crate::proofs::Opens::no_large))]
    #[inline(always)]
    pub fn top_large(&self) -> Option<u32>
        ensures place { result ≡ large_on self.now }
        ensures within { length self.now ≤ 1000 }
    {
        let at = self.top;
        if at == MOST_LITERALS {
            return None;
        }
        let a = self.all[at];
        match a.kind {
            SlotKind::Large => Some(a.number),
            _ => None,
        }
    }

    /// Pops the top literal, unless it is a long string. The pool's bytes go with it.
    #[tactic(auto, using(crate::proofs::Pushes::room_below))]
    pub fn pop(&mut self, alloc: Global) -> Result<Option<Literal<'a>>, AllocError>
        ensures value { IfOk result (λ value. value ≡ plain_on self.old) }
        ensures rest { IfOk result (λ _. self.new ≡ plain_off self.old) }
        ensures room { IfOk result (λ value. IsSome value → length self.new < 1000) }
        ensures unchanged { OnErr result (self.new ≡ self.old) }
    {
        let at = self.top;
        if at == MOST_LITERALS {
            return Ok(None);
        }
        let a = self.all[at];
        let value = match a.kind {
            SlotKind::Integer => Literal::Integer(a.integer),
            SlotKind::Function => Literal::Function(a.callee()),
            SlotKind::Missing => Literal::Missing,
            SlotKind::Lent => Literal::Text(Text::borrowed(a.bytes)),
            SlotKind::Made => Literal::Text(Text::owned(Vec::from_slice(
                alloc,
                &self.pool[a.start as usize..],
            )?)),
            SlotKind::Large => return Ok(None),
        };
        self.pool.truncate(a.start as usize);
        self.top = at + 1;
        Ok(Some(value))
    }

    /// Pops what stands on top. The pool's bytes go with it.
    #[inline(always)]
    pub fn drop_top(&mut self)
        requires { 0 < length self.old }
        ensures { self.new ≡ below_top self.old }
    {
        let at = self.top;
        let start = self.all[at].start as usize;
        self.pool.truncate(start);
        self.top = at + 1;
    }

    /// Pops the function on top and answers it, by its op and its number; or answers none where none stands there, and changes nothing.
    #[tactic(auto, using(crate::proofs::Alone::function_off, crate::proofs::Alone::function_off_stands, crate::proofs::Alone::function_off_runs))]
    #[inline(always)]
    pub fn take_function(&mut self) -> Option<Function>
        ensures some { IfSome result (λ f. self.old ≡ content.Function (callee_of f.op f.number) ∷ self.new) }
        ensures runs { IfSome result (λ f. Runs f.op) }
        ensures none { IfNone result (self.new ≡ self.old) }
    {
        let at = self.top;
        if at == MOST_LITERALS {
            return None;
        }
        let a = self.all[at];
        match a.kind {
            SlotKind::Function => {
                self.top = at + 1;
                Some(Function {
                    op: a.op,
                    number: a.number,
                })
            }
            _ => None,
        }
    }

    /// Pops the integer on top and answers it; or answers none where none stands there, and changes nothing.
    #[tactic(auto, using(crate::proofs::Alone::integer_off, crate::proofs::Alone::integer_off_stands))]
    #[inline(always)]
    pub fn take_integer(&mut self) -> Option<i32>
        ensures some { IfSome result (λ n. self.old ≡ content.Integer n ∷ self.new) }
        ensures none { IfNone result (self.new ≡ self.old) }
    {
        let at = self.top;
        if at == MOST_LITERALS {
            return None;
        }
        let a = self.all[at];
        match a.kind {
            SlotKind::Integer => {
                self.top = at + 1;
                Some(a.integer)
            }
            _ => None,
        }
    }

    /// The bytes of the string `depth` below the top, if one stands there that isn't a long one.
    #[tactic(auto, using(crate::proofs::Depths::end_top, crate::proofs::Depths::end_above, crate::proofs::Depths::depth_within, crate::proofs::Depths::depth_low, crate::proofs::Depths::depth_text, crate::proofs::Depths::depth_kind, crate::proofs::Depths::no_text_there))]
    #[inline(always)]
    pub fn text_at(&self, depth: usize) -> Option<&[u8]>
        ensures some { is_some result ≡ has_text (drop depth self.now) }
        ensures text { IfSome result (λ text. drop depth self.now ≡ content.Text text.now ∷ drop (depth + 1) self.now) }
    {
        if depth >= MOST_LITERALS - self.top {
            return None;
        }
        let slot = self.all[self.top + depth];
        if !slot.kind.is_text() {
            return None;
        }
        if depth == 0 {
            return Some(slot.text(&self.pool, self.pool.len()));
        }
        let end = self.all[self.top + depth - 1].start as usize;
        Some(slot.text(&self.pool, end))
    }

    /// The integer `depth` below the top, if one stands there.
    #[tactic(auto, using(crate::proofs::Depths::depth_integer, crate::proofs::Depths::depth_no_integer, crate::proofs::Depths::no_integer_there))]
    #[inline(always)]
    pub fn integer_at(&self, depth: usize) -> Option<i32>
        ensures { result ≡ integer_on (drop depth self.now) }
    {
        if depth >= MOST_LITERALS - self.top {
            return None;
        }
        let slot = self.all[self.top + depth];
        match slot.kind {
            SlotKind::Integer => Some(slot.integer),
            _ => None,
        }
    }

    /// The function `depth` below the top, if one stands there.
    #[tactic(auto, using(crate::proofs::Depths::depth_function, crate::proofs::Depths::depth_has_function, crate::proofs::Depths::depth_no_function, crate::proofs::Depths::no_function_there, crate::proofs::Depths::depth_runs))]
    #[inline(always)]
    pub fn function_at(&self, depth: usize) -> Option<Function>
        ensures some { is_some result ≡ has_function (drop depth self.now) }
        ensures function { IfSome result (λ f. drop depth self.now ≡ content.Function (callee_of f.op f.number) ∷ drop (depth + 1) self.now) }
        ensures runs { IfSome result (λ f. Runs f.op) }
    {
        if depth >= MOST_LITERALS - self.top {
            return None;
        }
        let slot = self.all[self.top + depth];
        match slot.kind {
            SlotKind::Function => Some(Function {
                op: slot.op,
                number: slot.number,
            }),
            _ => None,
        }
    }

    /// Whether the value of a missing field stands `depth` below the top.
    #[tactic(auto, using(crate::proofs::Depths::depth_missing, crate::proofs::Depths::depth_no_missing, crate::proofs::Depths::no_missing_there))]
    #[inline(always)]
    pub fn missing_at(&self, depth: usize) -> bool
        ensures { result ≡ has_missing (drop depth self.now) }
    {
        if depth >= MOST_LITERALS - self.top {
            return false;
        }
        let slot = self.all[self.top + depth];
        match slot.kind {
            SlotKind::Missing => true,
            _ => false,
        }
    }

    /// The index of the long string `depth` below the top, if one stands there.
    #[tactic(auto, using(crate::proofs::Depths::depth_large, crate::proofs::Depths::depth_no_large, crate::proofs::Depths::no_large_there))]
    #[inline(always)]
    pub fn large_at(&self, depth: usize) -> Option<u32>
        ensures { result ≡ large_on (drop depth self.now) }
    {
        if depth >= MOST_LITERALS - self.top {
            return None;
        }
        let slot = self.all[self.top + depth];
        match slot.kind {
            SlotKind::Large => Some(slot.number),
            _ => None,
        }
    }

    /// Compares the two integers or the two strings on top, replaces them by 1 where they are equal and by 0 where not, and answers true; or answers false
    /// where they are neither, or one is a long string.
    #[tactic(auto, using(crate::proofs::Alone::integers_compared, crate::proofs::Alone::integers_stand, crate::proofs::Alone::texts_compared, crate::proofs::Alone::texts_stand, crate::proofs::Alone::first_within, crate::proofs::Alone::second_within))]
    #[inline(always)]
    pub fn equal(&mut self) -> bool
        ensures { Partly result self.old (compared self.old) self.new }
    {
        let at = self.top;
        if at >= 999 {
            return false;
        }
        let a = self.all[at];
        let b = self.all[at + 1];
        if !b.kind.is_text() {
            return self.equal_integers();
        }
        if !a.kind.is_text() {
            return false;
        }
        let same = are_same(&self.pool, &a, &b);
        self.pool.truncate(b.start as usize);
        self.all[at + 1].set_integer(truth(same), b.start);
        self.top = at + 1;
        true
    }

    // The same of integers.
    #[tactic(auto, using(crate::proofs::Alone::integers_compared, crate::proofs::Alone::integers_stand))]
    #[inline(always)]
    fn equal_integers(&mut self) -> bool
        ensures { Partly result self.old (compared self.old) self.new }
    {
        let at = self.top;
        if at >= 999 {
            return false;
        }
        let a = self.all[at];
        let b = self.all[at + 1];
        match (b.kind, a.kind) {
            (SlotKind::Integer, SlotKind::Integer) => {
                self.all[at + 1].set_integer(truth(b.integer == a.integer), b.start);
                self.top = at + 1;
                true
            }
            _ => false,
        }
    }

    /// Replaces the two integers on top by this one and answers true, or answers false where there are no two integers on top.
    #[tactic(auto, using(crate::proofs::Alone::integers_replaced, crate::proofs::Alone::integers_stand))]
    #[inline(always)]
    pub fn put_for_integers(&mut self, integer: i32) -> bool
        ensures { Partly result self.old (put_for_integers integer self.old) self.new }
    {
        let at = self.top;
        if at >= 999 {
            return false;
        }
        let a = self.all[at];
        let b = self.all[at + 1];
        match (b.kind, a.kind) {
            (SlotKind::Integer, SlotKind::Integer) => {
                self.all[at + 1].set_integer(integer, b.start);
                self.top = at + 1;
                true
            }
            _ => false,
        }
    }

    /// Replaces what stands on top by an integer and answers true, or answers false where nothing does, or it is a long string.
    #[tactic(auto, using(crate::proofs::Alone::replaced_here))]
    #[inline(always)]
    pub fn replace_integer(&mut self, integer: i32) -> bool
        ensures { Partly result self.old (replaced (content.Integer integer) self.old) self.new }
    {
        let at = self.top;
        if at == MOST_LITERALS {
            return false;
        }
        let a = self.all[at];
        if a.kind.is_large() {
            return false;
        }
        let start = a.start;
        self.pool.truncate(start as usize);
        self.all[at].set_integer(integer, start);
        true
    }

    /// Pops the operands of `if$`, two functions and an integer below them, and answers true; or answers false where others stand on top.
    #[tactic(auto, using(crate::proofs::Alone::choice_off, crate::proofs::Alone::choice_stands))]
    #[inline(always)]
    pub fn drop_choice(&mut self) -> bool
        ensures { Partly result self.old (below_choice self.old) self.new }
    {
        let at = self.top;
        if at >= 998 {
            return false;
        }
        let a = self.all[at];
        let b = self.all[at + 1];
        let c = self.all[at + 2];
        match (c.kind, b.kind, a.kind) {
            (SlotKind::Integer, SlotKind::Function, SlotKind::Function) => {
                self.top = at + 3;
                true
            }
            _ => false,
        }
    }

    /// Replaces two integers on top and the string below them by `count` bytes of the string, from the one at `from` on, and answers true; or answers
    /// false where others stand on top, the string has fewer bytes, or it is a long one.
    #[tactic(auto, using(crate::proofs::Cuts::cut_lent, crate::proofs::Cuts::cut_lent_stands, crate::proofs::Cuts::lent_within, crate::proofs::Cuts::cut_made, crate::proofs::Cuts::cut_made_stands, crate::proofs::Cuts::third_within))]
    #[inline(always)]
    pub fn cut(&mut self, from: usize, count: usize) -> bool
        ensures { Partly result self.old (cut from count self.old) self.new }
    {
        let at = self.top;
        if at >= 998 {
            return false;
        }
        let a = self.all[at];
        let b = self.all[at + 1];
        let t = self.all[at + 2];
        match (a.kind, b.kind, t.kind) {
            (SlotKind::Integer, SlotKind::Integer, SlotKind::Lent) => {
                if from > t.bytes.len() {
                    return false;
                }
                if count > t.bytes.len() - from {
                    return false;
                }
                let bytes = &t.bytes[from..from + count];
                self.all[at + 2].set_lent(bytes, t.start);
                self.top = at + 2;
                true
            }
            (SlotKind::Integer, SlotKind::Integer, SlotKind::Made) => {
                let start = t.start as usize;
                let size = self.pool.len() - start;
                if from > size {
                    return false;
                }
                if count > size - from {
                    return false;
                }
                keep(&mut self.pool, start, from, count);
                self.top = at + 2;
                true
            }
            _ => false,
        }
    }

    /// Joins the two strings on top, the lower one first, and answers true; or answers false where they are no two strings, or would be too long for
    /// the pool.
    #[tactic(auto, using(crate::proofs::Joins::join_made, crate::proofs::Few::fewer_than_two))]
    #[inline(always)]
    pub fn join(&mut self) -> Result<bool, AllocError>
        ensures steps { IfOk result (λ done. Steps done self.old (top_joined self.old) self.new) }
        ensures unchanged { OnErr result (self.new ≡ self.old) }
    {
        let at = self.top;
        if at >= 999 {
            return Ok(false);
        }
        let a = self.all[at];
        let b = self.all[at + 1];
        let size = self.pool.len();
        match (b.kind, a.kind) {
            (SlotKind::Made, SlotKind::Made) => {
                if size - b.start as usize > GREATEST_SHORT {
                    return Ok(false);
                }
                self.top = at + 1;
                Ok(true)
            }
            (SlotKind::Made, SlotKind::Lent) => {
                if size - b.start as usize + a.bytes.len() > GREATEST_SHORT {
                    return Ok(false);
                }
                self.pool.extend_from_slice(a.bytes)?;
                self.top = at + 1;
                Ok(true)
            }
            (SlotKind::Lent, SlotKind::Made) => {
                if b.bytes.len() + (size - a.start as usize) > GREATEST_SHORT {
                    return Ok(false);
                }
                put_before(&mut self.pool, a.start as usize, b.bytes)?;
                self.all[at + 1].set_made(a.start);
                self.top = at + 1;
                Ok(true)
            }
            (SlotKind::Lent, SlotKind::Lent) => {
                if b.bytes.len() + a.bytes.len() > GREATEST_SHORT {
                    return Ok(false);
                }
                append_two(&mut self.pool, b.bytes, a.bytes)?;
                self.all[at + 1].set_made(a.start);
                self.top = at + 1;
                Ok(true)
            }
            _ => Ok(false),
        }
    }

    /// Exchanges the two on top and answers true, or answers false where there are fewer, or both are long strings.
    #[tactic(auto, using(crate::proofs::Swaps::swap_fits, crate::proofs::Swaps::swap_stands, crate::proofs::Swaps::swap_shows, crate::proofs::Swaps::swap_large, crate::proofs::Few::fewer_than_two))]
    #[inline(always)]
    pub fn swap(&mut self) -> Result<bool, AllocError>
        ensures steps { IfOk result (λ done. Steps done self.old (swapped self.old) self.new) }
        ensures unchanged { OnErr result (self.new ≡ self.old) }
    {
        let at = self.top;
        if at >= 999 {
            return Ok(false);
        }
        let mut a = self.all[at];
        let mut b = self.all[at + 1];
        if are_large(a.kind, b.kind) {
            return Ok(false);
        }
        let size = self.pool.len();
        let above = size - a.start as usize;
        let below = (a.start - b.start) as usize;
        exchange(&mut self.pool, b.start as usize, below)?;
        a.start = b.start;
        b.start = (b.start as usize + above) as u32;
        self.all[at] = b;
        self.all[at + 1] = a;
        Ok(true)
    }

    /// Pushes what stands on top once more and answers true, or answers false where nothing does, it is a long string, or there is no room.
    #[tactic(auto, using(crate::proofs::Pushes::small, crate::proofs::Joins::push_again, crate::proofs::Joins::large_again, crate::proofs::Few::no_room_again))]
    #[inline(always)]
    pub fn duplicate(&mut self) -> Result<bool, AllocError>
        ensures steps { IfOk result (λ done. Steps done self.old (duplicated self.old) self.new) }
        ensures unchanged { OnErr result (self.new ≡ self.old) }
    {
        let at = self.top;
        if at == 0 {
            return Ok(false);
        }
        if at == MOST_LITERALS {
            return Ok(false);
        }
        let mut a = self.all[at];
        if a.kind.is_large() {
            return Ok(false);
        }
        let size = self.pool.len();
        again(&mut self.pool, a.start as usize)?;
        a.start = size as u32;
        self.all[at - 1] = a;
        self.top = at - 1;
        Ok(true)
    }

    /// Moves the string on top into a variable and answers true, or answers false where it is no such string, or has more than `most` bytes.
    #[inline(always)]
    pub fn give(&mut self, variable: &mut Variable<'a>, most: usize) -> Result<bool, AllocError>
        ensures gives { IfOk result (λ done. GivesString done most self.old self.new variable.old variable.new) }
        ensures unchanged { OnErr result (self.new ≡ self.old) }
    {
        let at = self.top;
        if at == MOST_LITERALS {
            return Ok(false);
        }
        let a = self.all[at];
        match a.kind {
            SlotKind::Lent => {
                if a.bytes.len() > most {
                    return Ok(false);
                }
                variable.lend(a.bytes);
                self.top = at + 1;
                Ok(true)
            }
            SlotKind::Made => {
                let start = a.start as usize;
                if self.pool.len() - start > most {
                    return Ok(false);
                }
                variable.keep(&self.pool[start..])?;
                self.pool.truncate(start);
                self.top = at + 1;
                Ok(true)
            }
            _ => Ok(false),
        }
    }
}

// The truth as an integer.
#[inline(always)]
fn truth(is_true: bool) -> i32
    ensures { result ≡ one_if is_true }
{
    if is_true { 1 } else { 0 }
}
