//! The breaker of long lines.
ghost use Rattle.std.specs.Prelude.{◌≡◌, ◌++◌, ◌+◌, ◌<◌, ◌≤◌, [], ℕ, List, Option, length, drop, take, Some, None, IfOk, IfErr, IfSome, IsSome, IsTrue, OnOk};
ghost use Rattle.std.specs.Prelude.{OnErr, Err, is_err, take_while};
ghost use Rattle.std.specs.Io.KnownBytes.{Appends};
ghost use Rattle.arrayvec.specs.ArrayVec.{array_vec_len};
ghost use Rattle.btx_text.specs.language.Class.{is_white};
ghost use Rattle.btx_text.specs.refinement.Counts.{RisesIf};
ghost use Rattle.btx_out.specs.declared.breaker.State.TheVariants as states;
ghost use Rattle.btx_out.specs.refinement.Breakers.{Ends, EndsPart, Finishes, FinishesPart, Puts, PutsPart, failed, holding, is_fresh};
ghost use Rattle.btx_out.specs.language.Breaking.{from_white, indented, last_white, written_line as line_of, skip_white, till_white};
ghost use Rattle.btx_out.specs.laws.Breaking.{Collecting, Passing, Swallowing};
ghost use Rattle.btx_out.specs.refinement.Breaking.{is_not_white};
ghost use Rattle.btx_out.specs.laws.Lengths.{IsLineLength};
ghost use Rattle.btx_out.specs.refinement.Parts.{Advances, left_of};
ghost use Rattle.btx_out.specs.language.Pieces.{AppendsPrefix};
ghost use Rattle.btx_out.specs.laws.States.{break_full, end_written, left_after, sure_after};

use crate::line_length::LineLength;
use crate::log::write_whole;
use crate::sink::Sink;
use arrayvec::ArrayVec;
use btx_text::Fault;
use btx_text::classify::is_white;
use btx_text::trimming::without_trailing_white;
use std::marker::Model;

// The bytes of a line that may still be broken. The longest line is one byte shorter: byte 10 comes after it when it is written.
type Kept = ArrayVec<u8, 1001>;

// The lines that become sure by one call, gathered so that one write takes them. There is room for the longest line.
type Gathered = ArrayVec<u8, 1024>;

/// The first index at which a line is broken: a shorter head isn't worth a line, and a line is never broken at the two spaces before it.
pub const FIRST_BREAK: usize = 3;

// What is done with the bytes that come.
#[derive(Clone, Copy, PartialEq, Eq)]
enum State {
    // They are kept: the line may still be broken at its last whitespace byte.
    Collecting,
    // They are passed on up to the next whitespace byte, which ends the line: it had no whitespace where it could be broken.
    Passing,
    // Whitespace is dropped: it follows a break past the line.
    Swallowing,
}

// What is done with which bytes.
#[derive(Clone, Copy)]
struct Next<'a> {
    state: State,
    rest: &'a [u8],
}

// Puts byte 10 after the line that stands before an index, where the byte is no longer needed, and answers the length of both, or 0 for
// a line of whitespace alone.
fn end_line(text: &mut [u8], at: usize) -> usize
    requires { at < length text.old }
    ensures line { take result text.new ≡ line_of (take at text.old) }
    ensures within { result ≤ length text.old }
    ensures rest { drop (at + 1) text.new ≡ drop (at + 1) text.old }
{
    let kept = without_trailing_white(&text[..at]).len();
    if kept == 0 && at > 0 {
        return 0;
    }
    text[kept] = b'\n';
    kept + 1
}

// Moves what stands after an index to the front, after two spaces, and answers the length of both.
fn carry_over(text: &mut [u8], at: usize) -> usize
    requires inside { at < length text.old }
    requires room { 0 < at }
    ensures next { take result text.new ≡ indented (drop (at + 1) text.old) }
    ensures len { result + at ≡ length text.old + 1 }
{
    let start = at - 1;
    text[start] = b' ';
    text[at] = b' ';
    text.copy_within(start.., 0);
    text.len() - start
}

// The last whitespace byte at which a line is broken.
#[tactic(auto, using(crate::proofs::KeptLemmas::last_whites))]
fn last_white(text: &[u8]) -> Option<usize>
    ensures value { result ≡ last_white (length text.now) text.now }
    ensures within { IfSome result (λ at. (3 ≤ at) × (at < length text.now)) }
{
    let mut end = text.len();
    while end > FIRST_BREAK {
        end -= 1;
        if is_white(text[end]) {
            return Some(end);
        }
    }
    None
}

// Breaks a line of one byte more than fits at its last whitespace byte, and gathers what becomes sure. One without such whitespace is passed on.
fn break_full(line: &mut Kept, gathered: &mut Gathered) -> State
    requires room { array_vec_len gathered.old + array_vec_len line.old ≤ 1024 }
    ensures state { left_of result line.new.items
        ≡ (break_full line.old.items (last_white (array_vec_len line.old) line.old.items)).0 }
    ensures fits { 0 < array_vec_len line.old → array_vec_len line.new < array_vec_len line.old }
    ensures committed { gathered.new.items
        ≡ gathered.old.items ++ (break_full line.old.items (last_white (array_vec_len line.old) line.old.items)).1 }
{
    match last_white(line.as_slice()) {
        Some(at) => {
            let end = end_line(line.as_mut_slice(), at);
            gathered
                .try_extend_from_slice(&line.as_slice()[..end])
                .unwrap();
            let next = carry_over(line.as_mut_slice(), at);
            line.truncate(next);
            State::Collecting
        }
        None => {
            gathered.try_extend_from_slice(line.as_slice()).unwrap();
            line.clear();
            State::Passing
        }
    }
}

// How many bytes stand before the first whitespace byte.
fn non_whitespace_len(bytes: &[u8]) -> usize
    ensures { result ≡ length (take_while is_not_white bytes.now) }
{
    bytes.iter().take_while(|byte| !is_white(**byte)).count()
}

// What stands before the first whitespace byte, and what stands from it on.
fn split_at_white(bytes: &[u8]) -> (&[u8], &[u8])
    ensures before { result.0.now ≡ till_white bytes.now }
    ensures from { result.1.now ≡ from_white bytes.now }
{
    bytes.split_at(non_whitespace_len(bytes))
}

// How many whitespace bytes stand at the front.
fn white_len(bytes: &[u8]) -> usize
    ensures { result ≡ length (take_while is_white bytes.now) }
{
    bytes.iter().take_while(|byte| is_white(**byte)).count()
}

// What comes after the whitespace at the front.
fn after_white(bytes: &[u8]) -> &[u8]
    ensures { result.now ≡ skip_white bytes.now }
{
    bytes.split_at(white_len(bytes)).1
}

// Keeps bytes up to one more than fits a line, where the line is broken and what becomes sure is gathered. Answers what is done with the bytes
// that are left.
fn collect<'a>(
    line_length: usize,
    line: &mut Kept,
    bytes: &'a [u8],
    gathered: &mut Gathered,
) -> Next<'a>
    requires some { 0 < length bytes.now }
    requires kept { array_vec_len line.old ≤ line_length }
    requires range { IsLineLength line_length }
    requires room { array_vec_len gathered.old + line_length < 1024 }
    ensures goes_on { Advances line_length (Collecting line.old.items) bytes.now (left_of result.state line.new.items) result.rest.now
        (Some gathered.old.items) (Some gathered.new.items) }
    ensures fewer { length result.rest.now < length bytes.now }
    ensures fits { array_vec_len line.new ≤ line_length }
{
    // One byte more than a line has room.
    let room = line_length + 1 - line.len();
    if bytes.len() < room {
        line.try_extend_from_slice(bytes).unwrap();
        return Next {
            state: State::Collecting,
            rest: &[],
        };
    }
    let (first, rest) = bytes.split_at(room);
    line.try_extend_from_slice(first).unwrap();
    let state = break_full(line, gathered);
    Next { state, rest }
}

// Whether more bytes are collected: there are some, the line may still be broken, and there is room to gather another.
fn gathers_more(line_length: usize, next: Next<'_>, gathered: &Gathered) -> bool
    ensures { IsTrue result → (next.entry.state ≡ states.Collecting) × (0 < length next.entry.rest.now) × (array_vec_len gathered.now + line_length < 1024) }
{
    matches!(next.state, State::Collecting)
        && !next.rest.is_empty()
        && gathered.remaining_capacity() > line_length
}

// Collects bytes, and gathers the lines that become sure, as many as there is room for. Answers what is done with the bytes that are left.
fn gather<'a>(
    line_length: usize,
    line: &mut Kept,
    bytes: &'a [u8],
    gathered: &mut Gathered,
) -> Next<'a>
    requires some { 0 < length bytes.now }
    requires kept { array_vec_len line.old ≤ line_length }
    requires range { IsLineLength line_length }
    requires room { array_vec_len gathered.old + line_length < 1024 }
    ensures goes_on { Advances line_length (Collecting line.old.items) bytes.now (left_of result.state line.new.items) result.rest.now
        (Some gathered.old.items) (Some gathered.new.items) }
    ensures fewer { length result.rest.now < length bytes.now }
    ensures fits { array_vec_len line.new ≤ line_length }
{
    let mut next = collect(line_length, line, bytes, gathered);
    while gathers_more(line_length, next, gathered) {
        next = collect(line_length, line, next.rest, gathered);
    }
    next
}

// Collects bytes, and writes the lines that become sure, those that can be gathered at once. Answers what is done with the bytes that are left.
fn collect_lines<'a, W: Sink>(
    line_length: usize,
    line: &mut Kept,
    bytes: &'a [u8],
    sink: &mut W,
) -> Result<Next<'a>, Fault>
    requires some { 0 < length bytes.now }
    requires kept { array_vec_len line.old ≤ line_length }
    requires range { IsLineLength line_length }
    ensures goes_on { IfOk result (λ next. Advances line_length (Collecting line.old.items) bytes.now (left_of next.state line.new.items) next.rest.now
        (W.received sink.old) (W.received sink.new)) }
    ensures fewer { IfOk result (λ next. length next.rest.now < length bytes.now) }
    ensures fits { OnOk result (array_vec_len line.new ≤ line_length) }
    ensures err { OnErr result (AppendsPrefix (W.received sink.old) (W.received sink.new)
        (sure_after line_length (Collecting line.old.items) bytes.now)) }
    ensures fault { IfErr result (λ fault. fault ≡ Fault.Device) }
    ensures counts { RisesIf (is_err result) (W.failures sink.old, W.failures sink.new) }
{
    // Most bytes fit the line, and nothing becomes sure.
    if bytes.len() <= line_length - line.len() {
        line.try_extend_from_slice(bytes).unwrap();
        return Ok(Next {
            state: State::Collecting,
            rest: &[],
        });
    }
    let mut gathered = Gathered::new();
    let next = gather(line_length, line, bytes, &mut gathered);
    write_whole(gathered.as_slice(), sink)?;
    Ok(next)
}

// Passes on what stands before the first whitespace byte, which ends the line. Answers what is done with the bytes that are left.
fn pass<'a, W: Sink>(bytes: &'a [u8], sink: &mut W) -> Result<Next<'a>, Fault>
    requires { 0 < length bytes.now }
    ensures goes_on { IfOk result (λ next. (line_length : ℕ) (kept : List ℕ) → Advances line_length Passing bytes.now (left_of next.state kept) next.rest.now
        (W.received sink.old) (W.received sink.new)) }
    ensures fewer { IfOk result (λ next. length next.rest.now < length bytes.now) }
    ensures err { OnErr result ((line_length : ℕ) → AppendsPrefix (W.received sink.old) (W.received sink.new) (sure_after line_length Passing bytes.now)) }
    ensures fault { IfErr result (λ fault. fault ≡ Fault.Device) }
    ensures counts { RisesIf (is_err result) (W.failures sink.old, W.failures sink.new) }
{
    let (ink, rest) = split_at_white(bytes);
    write_whole(ink, sink)?;
    let Some((_, others)) = rest.split_first() else {
        return Ok(Next {
            state: State::Passing,
            rest: &[],
        });
    };
    write_whole(b"\n", sink)?;
    Ok(Next {
        state: State::Swallowing,
        rest: others,
    })
}

// Drops the whitespace at the front. What follows it goes on after two spaces. Answers what is done with the bytes that are left.
fn drop_leading_whitespace<'a>(line: &mut Kept, bytes: &'a [u8]) -> Next<'a>
    requires some { 0 < length bytes.now }
    ensures goes_on { (line_length : ℕ) (received : Option (List ℕ)) →
        Advances line_length Swallowing bytes.now (left_of result.state line.new.items) result.rest.now received received }
    ensures fewer { length result.rest.now < length bytes.now }
    ensures fits { (line_length : ℕ) → IsLineLength line_length → array_vec_len line.old ≤ line_length → array_vec_len line.new ≤ line_length }
{
    let Some((first, rest)) = after_white(bytes).split_first() else {
        return Next {
            state: State::Swallowing,
            rest: &[],
        };
    };
    line.clear();
    line.push(b' ');
    line.push(b' ');
    line.push(*first);
    Next {
        state: State::Collecting,
        rest,
    }
}

// Takes the first bytes of those that come. Answers what is done with the rest.
fn take_some<'a, W: Sink>(
    line_length: usize,
    state: State,
    line: &mut Kept,
    bytes: &'a [u8],
    sink: &mut W,
) -> Result<Next<'a>, Fault>
    requires some { 0 < length bytes.now }
    requires kept { array_vec_len line.old ≤ line_length }
    requires range { IsLineLength line_length }
    ensures goes_on { IfOk result (λ next. Advances line_length (left_of state line.old.items) bytes.now (left_of next.state line.new.items) next.rest.now
        (W.received sink.old) (W.received sink.new)) }
    ensures fewer { IfOk result (λ next. length next.rest.now < length bytes.now) }
    ensures fits { OnOk result (array_vec_len line.new ≤ line_length) }
    ensures err { OnErr result (AppendsPrefix (W.received sink.old) (W.received sink.new)
        (sure_after line_length (left_of state line.old.items) bytes.now)) }
    ensures fault { IfErr result (λ fault. fault ≡ Fault.Device) }
    ensures counts { RisesIf (is_err result) (W.failures sink.old, W.failures sink.new) }
{
    match state {
        State::Collecting => collect_lines(line_length, line, bytes, sink),
        State::Passing => pass(bytes, sink),
        State::Swallowing => Ok(drop_leading_whitespace(line, bytes)),
    }
}

// Takes all bytes that come.
fn take_all<W: Sink>(
    line_length: usize,
    state: State,
    line: &mut Kept,
    bytes: &[u8],
    sink: &mut W,
) -> Result<State, Fault>
    requires kept { array_vec_len line.old ≤ line_length }
    requires range { IsLineLength line_length }
    ensures state { IfOk result (λ after. left_of after line.new.items ≡ left_after line_length (left_of state line.old.items) bytes.now) }
    ensures fits { OnOk result (array_vec_len line.new ≤ line_length) }
    ensures ok { OnOk result (Appends (W.received sink.old) (W.received sink.new)
        (sure_after line_length (left_of state line.old.items) bytes.now)) }
    ensures err { OnErr result (AppendsPrefix (W.received sink.old) (W.received sink.new)
        (sure_after line_length (left_of state line.old.items) bytes.now)) }
    ensures fault { IfErr result (λ fault. fault ≡ Fault.Device) }
    ensures counts { RisesIf (is_err result) (W.failures sink.old, W.failures sink.new) }
{
    let mut state = state;
    let mut rest = bytes;
    while !rest.is_empty() {
        let next = take_some(line_length, state, line, rest, sink)?;
        state = next.state;
        rest = next.rest;
    }
    Ok(state)
}

// Writes what the end of the pending line writes.
fn write_end<W: Sink>(state: State, line: &mut Kept, sink: &mut W) -> Result<(), Fault>
    requires { array_vec_len line.old ≤ 1000 }
    ensures ok { OnOk result (Appends (W.received sink.old) (W.received sink.new) (end_written (left_of state line.old.items))) }
    ensures err { OnErr result (AppendsPrefix (W.received sink.old) (W.received sink.new) (end_written (left_of state line.old.items))) }
    ensures fault { IfErr result (λ fault. fault ≡ Fault.Device) }
    ensures counts { RisesIf (is_err result) (W.failures sink.old, W.failures sink.new) }
{
    match state {
        State::Collecting => {
            let at = line.len();
            line.push(b'\n');
            let end = end_line(line.as_mut_slice(), at);
            write_whole(&line.as_slice()[..end], sink)
        }
        State::Passing => write_whole(b"\n", sink),
        State::Swallowing => Ok(()),
    }
}

/// Breaks logical lines into lines of at most a given number of bytes, where whitespace allows it. It is seen as that length and what is left of the
/// pending line. It takes no memory. After a failed write every call answers Device and writes nothing.
#[derive(Drop)]
pub struct Breaker {
    line_length: usize,
    line: Kept,
    // None after a failed write.
    state: Option<State>,
}

impl Model for Breaker {
    ghost use Rattle.std.specs.Prelude.{◌≤◌};
    ghost use Rattle.arrayvec.specs.ArrayVec.{array_vec_len};
    ghost use Rattle.btx_out.specs.refinement.Breakers.{Held};
    ghost use Rattle.btx_out.specs.laws.Lengths.{IsLineLength};

    ghost Value = { Held };

    ghost use Rattle.btx_out.specs.refinement.Parts.{held_of};

    ghost view = { λ breaker. held_of breaker.line_length breaker.state breaker.line.items };

    ghost invariant = { λ breaker. IsLineLength breaker.line_length × (array_vec_len breaker.line ≤ breaker.line_length) };
}

impl Breaker {
    /// A breaker with nothing pending.
    pub fn new(line_length: LineLength) -> Self
        ensures held { result ≡ holding line_length (Collecting []) }
        ensures range { IsLineLength line_length }
    {
        Breaker {
            line_length: line_length.get() as usize,
            line: ArrayVec::new(),
            state: Some(State::Collecting),
        }
    }

    /// Takes more bytes of the pending line, and writes what becomes sure. The only fault is the device's: a prefix of that was then
    /// written, and nothing after the write that failed.
    pub fn put<W: Sink>(&mut self, bytes: &[u8], sink: &mut W) -> Result<(), Fault>
        ensures ok { OnOk result (Puts self.old self.new bytes.now (W.received sink.old) (W.received sink.new)) }
        ensures holds { OnOk result (IsSome self.new.pending) }

        ensures err { OnErr result (self.new ≡ failed self.old.line_length) }
        ensures part { OnErr result (PutsPart self.old bytes.now (W.received sink.old) (W.received sink.new)) }
        ensures fault { IfErr result (λ fault. fault ≡ Fault.Device) }

        ensures counts { IsSome self.old.pending → RisesIf (is_err result) (W.failures sink.old, W.failures sink.new) }
        ensures after_failure { self.old.pending ≡ None → (result ≡ Err Fault.Device) × (sink.new ≡ sink.old) }
    {
        let state = self.state.ok_or(Fault::Device)?;
        match take_all(self.line_length, state, &mut self.line, bytes, sink) {
            Ok(next) => {
                self.state = Some(next);
                Ok(())
            }
            Err(fault) => {
                self.state = None;
                self.line.clear();
                Err(fault)
            }
        }
    }

    /// Ends the pending line: writes the rest of its lines, and begins a new one. The only fault is the device's: a prefix of that
    /// was then written, and nothing after the write that failed.
    pub fn newline<W: Sink>(&mut self, sink: &mut W) -> Result<(), Fault>
        ensures ok { OnOk result (Ends self.old (W.received sink.old) (W.received sink.new)) }
        ensures fresh { OnOk result (self.new ≡ holding self.old.line_length (Collecting [])) }

        ensures err { OnErr result (self.new ≡ failed self.old.line_length) }
        ensures part { OnErr result (EndsPart self.old (W.received sink.old) (W.received sink.new)) }
        ensures fault { IfErr result (λ fault. fault ≡ Fault.Device) }

        ensures counts { IsSome self.old.pending → RisesIf (is_err result) (W.failures sink.old, W.failures sink.new) }
        ensures after_failure { self.old.pending ≡ None → (result ≡ Err Fault.Device) × (sink.new ≡ sink.old) }
    {
        let state = self.state.ok_or(Fault::Device)?;
        let result = write_end(state, &mut self.line, sink);
        self.state = result.is_ok().then_some(State::Collecting);
        self.line.clear();
        result
    }

    /// Ends the pending line as `newline` does, if there is anything in it, and writes nothing else.
    pub fn finish<W: Sink>(&mut self, sink: &mut W) -> Result<(), Fault>
        ensures ok { OnOk result (Finishes self.old (W.received sink.old) (W.received sink.new)) }
        ensures fresh { OnOk result (self.new ≡ holding self.old.line_length (Collecting [])) }

        ensures err { OnErr result (self.new ≡ failed self.old.line_length) }
        ensures part { OnErr result (FinishesPart self.old (W.received sink.old) (W.received sink.new)) }
        ensures fault { IfErr result (λ fault. fault ≡ Fault.Device) }

        ensures counts { IsSome self.old.pending → RisesIf (is_err result) (W.failures sink.old, W.failures sink.new) }
        ensures after_failure { self.old.pending ≡ None → (result ≡ Err Fault.Device) × (sink.new ≡ sink.old) }
    {
        if self.is_fresh() {
            return Ok(());
        }
        self.newline(sink)
    }

    // Whether nothing is pending.
    fn is_fresh(&self) -> bool
        ensures fresh { result ≡ is_fresh self.now.pending }
        ensures range { IsLineLength self.now.line_length }
    {
        matches!(self.state, Some(State::Collecting)) && self.line.is_empty()
    }
}
