//! A literal as the stack keeps it.
ghost use Rattle.std.specs.Prelude.{◌≡◌, ◌≤◌, length, IsTrue, drop, take};
ghost use Rattle.std.specs.Str.{bytes_eq};
ghost use Rattle.btx_text.specs.language.Limits.{greatest_string};
ghost use Rattle.btx_code.specs.refinement.Ops.{callee_of, Runs};
ghost use Rattle.btx_stack.specs.refinement.Slots.{IsPlainSlot, IsMade, is_text_kind, is_large_kind, are_large_kinds, content_of, slot_text};
ghost use Rattle.btx_stack.specs.refinement.Content as content;

use btx_bst::Callee;
use btx_code::Op;
use btx_code::op::callee_of;

/// What a slot holds.
#[derive(Clone, Copy, PartialEq, Eq)]
pub enum SlotKind {
    Integer,
    Function,
    Missing,
    /// A string that stands in a file.
    Lent,
    /// A short string that was made: the pool's bytes from the slot's start to the start of the slot above it.
    Made,
    /// A long string that was made, by its index among the long ones.
    Large,
}

impl SlotKind {
    /// Whether it is a string whose bytes the slot or the pool knows.
    #[inline(always)]
    pub fn is_text(self) -> bool
        ensures { result ≡ is_text_kind self }
    {
        matches!(self, SlotKind::Lent | SlotKind::Made)
    }

    /// Whether it is a long string.
    #[inline(always)]
    pub fn is_large(self) -> bool
        ensures { result ≡ is_large_kind self }
    {
        self == SlotKind::Large
    }
}

/// Whether both are long strings.
#[inline(always)]
pub fn are_large(a: SlotKind, b: SlotKind) -> bool
    ensures { result ≡ are_large_kinds a b }
{
    a == SlotKind::Large && b == SlotKind::Large
}

/// Whether the two strings on top, of which `a` is the top one, are the same.
#[inline(always)]
pub fn are_same(pool: &[u8], a: &Slot<'_>, b: &Slot<'_>) -> bool
    requires top { IsTrue (is_text_kind a.now.kind) }
    requires below { IsTrue (is_text_kind b.now.kind) }
    requires in_order { b.now.start ≤ a.now.start }
    requires within { a.now.start ≤ length pool.now }
    ensures { result ≡ bytes_eq (slot_text b.now (drop b.now.start (take a.now.start pool.now))) (slot_text a.now (drop a.now.start pool.now)) }
{
    b.text(pool, a.start as usize) == a.text(pool, pool.len())
}

/// A literal, but for the bytes of a string that was made. Each field but `kind` and `start` has a meaning for some kinds alone.
#[derive(Clone, Copy)]
pub struct Slot<'a> {
    pub kind: SlotKind,
    /// The op that runs a function.
    pub op: Op,
    /// The number of a function among those of its kind, or the index of a long string.
    pub number: u32,
    pub integer: i32,
    /// How many bytes the pool has below this slot.
    pub start: u32,
    /// The bytes of a string that stands in a file.
    pub bytes: &'a [u8],
}

impl<'a> Slot<'a> {
    /// A slot that holds no string.
    pub fn empty() -> Self
        ensures { IsPlainSlot result 0 content.Missing }
    {
        Slot {
            kind: SlotKind::Missing,
            op: Op::Skip,
            number: 0,
            integer: 0,
            start: 0,
            bytes: &[],
        }
    }

    /// The function that this slot holds.
    #[inline(always)]
    pub fn callee(&self) -> Callee
        ensures { result ≡ callee_of self.now.op self.now.number }
    {
        callee_of(self.op, self.number)
    }

    /// The bytes of the string that this slot holds, where those of the pool end at `end`.
    #[tactic(auto, using(crate::proofs::Opens::range_is))]
    #[inline(always)]
    pub fn text<'b>(&self, pool: &'b [u8], end: usize) -> &'b [u8]
    where
        'a: 'b,
        requires text { IsTrue (is_text_kind self.now.kind) }
        requires in_order { self.now.start ≤ end }
        requires within { end ≤ length pool.now }
        ensures value { result.now ≡ slot_text self.now (drop self.now.start (take end pool.now)) }
        ensures content { content.Text result.now ≡ content_of self.now (drop self.now.start (take end pool.now)) }
    {
        match self.kind {
            SlotKind::Lent => self.bytes,
            _ => &pool[self.start as usize..end],
        }
    }

    /// The slot holds an integer from now on.
    #[inline(always)]
    pub fn set_integer(&mut self, integer: i32, start: u32)
        ensures { IsPlainSlot self.new start (content.Integer integer) }
    {
        self.kind = SlotKind::Integer;
        self.integer = integer;
        self.start = start;
    }

    /// The slot holds a function from now on.
    #[inline(always)]
    pub fn set_function(&mut self, op: Op, number: u32, start: u32)
        requires { Runs op }
        ensures { IsPlainSlot self.new start (content.Function (callee_of op number)) }
    {
        self.kind = SlotKind::Function;
        self.op = op;
        self.number = number;
        self.start = start;
    }

    /// The slot holds the value of a missing field from now on.
    #[inline(always)]
    pub fn set_missing(&mut self, start: u32)
        ensures { IsPlainSlot self.new start content.Missing }
    {
        self.kind = SlotKind::Missing;
        self.start = start;
    }

    /// The slot holds a string of a file from now on.
    #[inline(always)]
    pub fn set_lent(&mut self, bytes: &'a [u8], start: u32)
        requires { length bytes.now ≤ greatest_string }
        ensures { IsPlainSlot self.new start (content.Text bytes.now) }
    {
        self.kind = SlotKind::Lent;
        self.bytes = bytes;
        self.start = start;
    }

    /// The slot holds a long string from now on.
    #[inline(always)]
    pub fn set_large(&mut self, number: u32, start: u32)
        ensures { IsPlainSlot self.new start (content.Large number) }
    {
        self.kind = SlotKind::Large;
        self.number = number;
        self.start = start;
    }

    /// The slot holds the pool's bytes from `start` on from now on.
    #[inline(always)]
    pub fn set_made(&mut self, start: u32)
        ensures { IsMade self.new start }
    {
        self.kind = SlotKind::Made;
        self.start = start;
    }
}
