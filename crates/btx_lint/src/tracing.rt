//! The search for all places where a style may go wrong: it executes functions on descriptions as `btx_check` does, and goes on after a fault. No proof rests
//! on it.
use crate::faults::{narrow, operands_for};
use crate::findings::{Fault, Finding};
use crate::frames::{End, Framed};
use crate::least::{Least, SPARE_LITERALS};
use crate::reach::Reaches;
use crate::search::{BeforeAndAfterFault, Search, add_type, is_even, mark};
use crate::traces::{Trace, mark_of};
use btx_bst::{BuiltIn, Callee, Style, Token};
use btx_check::State;
use btx_check::adding::{add, add_known, add_sure};
use btx_check::bounds::{not_positive, positive};
use btx_check::description::Value;
use btx_check::loops::{all_in, copies_of, proposed};
use btx_check::memo::LEAST_TOKENS;
use btx_check::name_rules::assign;
use btx_check::rules::{one_step, push_token};
use btx_check::work::{Room, Work};
use std::alloc::AllocError;
use std::mem;

impl Search {
    /// A function, from a description: what it leads to is added to the others.
    #[cycle(tracing)]
    #[inline(never)]
    pub fn function(
        &mut self,
        style: &Style,
        room: Room,
        a: State,
        is_first: bool,
        f: Callee,
        out: &mut BeforeAndAfterFault,
    ) -> Result<(), AllocError> {
        if room.fuel == 0 {
            self.work.gave_up = true;
            return Ok(());
        }
        if !self.work.step() {
            return Ok(());
        }
        self.least.met(room.fuel, room.loops);
        let room = Room {
            fuel: room.fuel - 1,
            deep: room.deep,
            loops: room.loops,
        };
        match f {
            Callee::BuiltIn(BuiltIn::If) => self.choice(style, room, a, is_first, out),
            Callee::BuiltIn(BuiltIn::While) => self.turns(style, room, a, is_first, out),
            Callee::BuiltIn(BuiltIn::CallType) => self.by_type(style, room, a, is_first, out),
            Callee::User(i) => self.user(style, room, a, is_first, i, out),
            _ => self.simple(style, a, is_first, f, out),
        }
    }

    // A token, from each of these.
    #[cycle(tracing)]
    #[inline(never)]
    fn token(
        &mut self,
        style: &Style,
        room: Room,
        states: Vec<State>,
        is_first: bool,
        t: Token,
        out: &mut BeforeAndAfterFault,
    ) -> Result<(), AllocError> {
        for a in states {
            match t {
                Token::Run(f) => self.function(style, room, a, is_first, f, out)?,
                _ => {
                    let _ = push_token(&self.work, style, a, t, out.lane(is_first))?;
                }
            }
        }
        Ok(())
    }

    // A function of the style. What it led to from an equal description is found again, if that was kept.
    #[cycle(tracing)]
    #[inline(never)]
    fn user(
        &mut self,
        style: &Style,
        room: Room,
        a: State,
        is_first: bool,
        i: u32,
        out: &mut BeforeAndAfterFault,
    ) -> Result<(), AllocError> {
        if i as usize >= style.functions() {
            return Ok(());
        }
        if style.body(i as usize).len() < LEAST_TOKENS {
            let ends = self.body(style, room, a, is_first, i)?;
            return out.join_sure(&self.work, ends);
        }
        self.reaches.learn(self.work.alloc, style, i)?;
        let framed = Framed::new(self.work.alloc, &self.reaches, &a, i)?;
        let mark = mark_of(&framed.frame, i, is_first);
        match self
            .traces
            .recall(room, self.work.steps, &framed.frame, i, is_first, mark)
        {
            Some(k) => self.again(k, room, &a, &framed, i, out),
            None => self.anew(style, room, a, is_first, i, out),
        }
    }

    // What a function of the style led to, once more: its steps, what was found in it, and its ends.
    fn again(
        &mut self,
        k: usize,
        room: Room,
        a: &State,
        framed: &Framed,
        i: u32,
        out: &mut BeforeAndAfterFault,
    ) -> Result<(), AllocError> {
        if k >= self.traces.table.entries.len() {
            return Ok(());
        }
        let entry_type = self.entry_type;
        let trace = &self.traces.table.entries[k];
        self.work.steps = self.work.steps.saturating_sub(trace.steps);
        self.least.met(
            room.fuel.saturating_sub(trace.room.fuel),
            room.loops.saturating_sub(trace.room.loops),
        );
        self.least.touched(a.height(), trace.depth);
        add_types(&mut self.found, &trace.found, entry_type)?;
        self.noted.extend_from_slice(&trace.found)?;
        put_back(
            &self.work,
            &self.reaches,
            &trace.good,
            framed,
            a,
            i,
            &mut out.good,
        )?;
        put_back(
            &self.work,
            &self.reaches,
            &trace.spoilt,
            framed,
            a,
            i,
            &mut out.spoilt,
        )
    }

    // A function of the style, of which nothing is remembered. What it leads to is remembered, if the search wasn't given up in it and the type of the entry
    // not asked for.
    #[cycle(tracing)]
    #[inline(never)]
    fn anew(
        &mut self,
        style: &Style,
        room: Room,
        a: State,
        is_first: bool,
        i: u32,
        out: &mut BeforeAndAfterFault,
    ) -> Result<(), AllocError> {
        let steps = self.work.steps;
        let types_asked = self.types_asked;
        let gave_up = self.work.gave_up;
        self.work.gave_up = false;
        let noted = self.noted.len();
        let before = mem::replace(&mut self.least, Least::new(room));
        let from = a.copy()?;
        let to = self.body(style, room, a, is_first, i)?;
        let found = self.noted_from(noted)?;
        let least = mem::replace(&mut self.least, before);
        self.least.met(least.fuel, least.loops);
        self.least.left(least.literals);
        if !self.work.gave_up && self.types_asked == types_asked {
            let used = steps.saturating_sub(self.work.steps);
            self.remember(room, least, &from, is_first, i, &to, used, found)?;
        }
        self.work.gave_up = self.work.gave_up || gave_up;
        out.join_sure(&self.work, to)
    }

    // Remembers what a function of the style led to.
    fn remember(
        &mut self,
        room: Room,
        least: Least,
        from: &State,
        is_first: bool,
        i: u32,
        to: &BeforeAndAfterFault,
        steps: u64,
        found: Vec<usize>,
    ) -> Result<(), AllocError> {
        let height = from.height().saturating_add(SPARE_LITERALS);
        let depth = height.saturating_sub(least.literals);
        self.reaches.touched(i, depth);
        let framed = Framed::new(self.work.alloc, &self.reaches, from, i)?;
        let good = ends_of(&self.work, &self.reaches, &framed, from, &to.good, i)?;
        let spoilt = ends_of(&self.work, &self.reaches, &framed, from, &to.spoilt, i)?;
        self.traces.keep(Trace {
            mark: mark_of(&framed.frame, i, is_first),
            function: i,
            is_first,
            room: Room {
                fuel: room.fuel.saturating_sub(least.fuel),
                deep: 0,
                loops: room.loops.saturating_sub(least.loops),
            },
            depth,
            from: framed.frame,
            good,
            spoilt,
            steps,
            found,
        })
    }

    // The body of a function of the style: what it leads to.
    #[cycle(tracing)]
    #[inline(never)]
    fn body(
        &mut self,
        style: &Style,
        room: Room,
        a: State,
        is_first: bool,
        i: u32,
    ) -> Result<BeforeAndAfterFault, AllocError> {
        let mut now = BeforeAndAfterFault::new(self.work.alloc);
        if i as usize >= style.functions() {
            return Ok(now);
        }
        self.work.enter(i, 0)?;
        now.lane(is_first).push(a)?;
        for t in style.body(i as usize) {
            let mut after = BeforeAndAfterFault::new(self.work.alloc);
            let before = mem::replace(&mut now, BeforeAndAfterFault::new(self.work.alloc));
            self.token(style, room, before.good, true, *t, &mut after)?;
            self.token(style, room, before.spoilt, false, *t, &mut after)?;
            now = after;
            self.work.advance();
        }
        self.work.leave();
        if is_first && !is_even(&now.good) {
            mark(&mut self.uneven, i);
        }
        Ok(now)
    }

    // A function of one step. Where an operand may be wrong and may be right, the search goes on with the latter; and with what follows the fault.
    #[inline(never)]
    fn simple(
        &mut self,
        style: &Style,
        a: State,
        is_first: bool,
        f: Callee,
        out: &mut BeforeAndAfterFault,
    ) -> Result<(), AllocError> {
        self.touch(&a, f);
        let mut now = a;
        for _ in 0..4 {
            let is_done = match f {
                Callee::BuiltIn(BuiltIn::Assign) => assign(
                    &self.work,
                    style,
                    now.copy()?,
                    out.lane(is_first),
                )?,
                _ => one_step(&self.work, now.copy()?, f, out.lane(is_first))?,
            };
            if is_done {
                return Ok(());
            }
            let operand = self.fault(&now, f, is_first)?;
            self.recover(&now, f, &mut out.spoilt)?;
            if !narrow(&mut now, operand) {
                return Ok(());
            }
        }
        Ok(())
    }

    // Notes how many literals a function of one step touches.
    fn touch(&mut self, a: &State, f: Callee) {
        match f {
            Callee::BuiltIn(BuiltIn::Stack) => self.least.left(0),
            _ => self.least.touched(a.height(), operands_for(f).len()),
        }
    }

    // `if$`.
    #[cycle(tracing)]
    #[inline(never)]
    fn choice(
        &mut self,
        style: &Style,
        room: Room,
        a: State,
        is_first: bool,
        out: &mut BeforeAndAfterFault,
    ) -> Result<(), AllocError> {
        self.least.touched(a.height(), 3);
        let third = a.number_at(2);
        match (a.value_at(0), a.value_at(1), a.value_of(third), third) {
            (
                Some(Value::Function(g)),
                Some(Value::Function(f)),
                Some(Value::Integer(low, high)),
                Some(number),
            ) => {
                let mut no = a;
                let _ = no.pop();
                let _ = no.pop();
                let _ = no.pop();
                let mut yes = no.copy()?;
                yes.know(number, positive(low, high));
                no.know(number, not_positive(low, high));
                self.branches(style, room, yes, no, number, f, g, is_first, out)
            }
            _ => {
                let f = Callee::BuiltIn(BuiltIn::If);
                self.spoil(&a, f, is_first, &mut out.spoilt)
            }
        }
    }

    // The two functions of an `if$`.
    #[cycle(tracing)]
    #[inline(never)]
    fn branches(
        &mut self,
        style: &Style,
        room: Room,
        yes: State,
        no: State,
        number: usize,
        f: Callee,
        g: Callee,
        is_first: bool,
        out: &mut BeforeAndAfterFault,
    ) -> Result<(), AllocError> {
        let height = no.height();
        let after_yes = self.branch(style, room, yes, number, is_first, f)?;
        let after_no = self.branch(style, room, no, number, is_first, g)?;
        if is_first {
            self.compare(height, &after_yes.good, &after_no.good)?;
        }
        out.join(&self.work, after_yes)?;
        out.join(&self.work, after_no)
    }

    // One of them, where the result of the test has a number: nothing is to be done if it can't be.
    #[cycle(tracing)]
    #[inline(never)]
    fn branch(
        &mut self,
        style: &Style,
        room: Room,
        a: State,
        number: usize,
        is_first: bool,
        f: Callee,
    ) -> Result<BeforeAndAfterFault, AllocError> {
        let mut after = BeforeAndAfterFault::new(self.work.alloc);
        if room.fuel > 0 && a.is_impossible_at(number) {
            let _ = self.work.step();
            return Ok(after);
        }
        self.function(style, room, a, is_first, f, &mut after)?;
        Ok(after)
    }

    // `while$`.
    #[cycle(tracing)]
    #[inline(never)]
    fn turns(
        &mut self,
        style: &Style,
        room: Room,
        a: State,
        is_first: bool,
        out: &mut BeforeAndAfterFault,
    ) -> Result<(), AllocError> {
        self.least.touched(a.height(), 2);
        match (a.value_at(0), a.value_at(1)) {
            (Some(Value::Function(g)), Some(Value::Function(f))) => {
                if room.loops == 0 {
                    self.work.gave_up = true;
                    return Ok(());
                }
                self.least.met(room.fuel, room.loops - 1);
                let inside = Room {
                    fuel: room.fuel,
                    deep: room.deep,
                    loops: room.loops - 1,
                };
                let mut below = a;
                let _ = below.pop();
                let _ = below.pop();
                self.heads(style, inside, &below, is_first, f, g, out)
            }
            _ => {
                let f = Callee::BuiltIn(BuiltIn::While);
                self.spoil(&a, f, is_first, &mut out.spoilt)
            }
        }
    }

    // A loop: heads are proposed until its body leads back to them. What follows a fault in it isn't followed round it.
    #[cycle(tracing)]
    #[inline(never)]
    fn heads(
        &mut self,
        style: &Style,
        room: Room,
        b: &State,
        is_first: bool,
        f: Callee,
        g: Callee,
        out: &mut BeforeAndAfterFault,
    ) -> Result<(), AllocError> {
        let mut heads: Vec<State> = Vec::new(self.work.alloc);
        let head = b.copy()?;
        heads.push(head)?;
        for round in 0..40 {
            let mut tests = BeforeAndAfterFault::new(self.work.alloc);
            let copies = copies_of(&self.work, &heads)?;
            self.token(style, room, copies, is_first, Token::Run(f), &mut tests)?;
            let mut again: Vec<State> = Vec::new(self.work.alloc);
            let mut ends: Vec<State> = Vec::new(self.work.alloc);
            self.turn(tests.lane(is_first), is_first, &mut again, &mut ends)?;
            let mut bodies = BeforeAndAfterFault::new(self.work.alloc);
            self.token(style, room, again, is_first, Token::Run(g), &mut bodies)?;
            let back = bodies.lane(is_first);
            if all_in(&self.work, back, &heads)? {
                for e in ends {
                    add(&self.work, out.lane(is_first), e)?;
                }
                return Ok(());
            }
            heads = proposed(&self.work, b, heads, back, round > 0)?;
        }
        self.work.gave_up = true;
        Ok(())
    }

    // Splits descriptions by the result of a loop's test.
    fn turn(
        &mut self,
        tests: &[State],
        is_first: bool,
        again: &mut Vec<State>,
        ends: &mut Vec<State>,
    ) -> Result<(), AllocError> {
        for a in tests {
            self.least.touched(a.height(), 1);
            let mut below = a.copy()?;
            let top = below.pop();
            match (a.value_of(top), top) {
                (Some(Value::Integer(low, high)), Some(number)) => {
                    let on = positive(low, high);
                    let off = not_positive(low, high);
                    add_known(&self.work, below.copy()?, number, on, again)?;
                    add_known(&self.work, below, number, off, ends)?;
                }
                (value, _) => {
                    let fault = if value.is_none() {
                        Fault::EmptyStack
                    } else {
                        Fault::WrongKind
                    };
                    self.note(a, Callee::BuiltIn(BuiltIn::While), fault, None, is_first)?;
                }
            }
        }
        Ok(())
    }

    // `call.type$`.
    #[cycle(tracing)]
    #[inline(never)]
    fn by_type(
        &mut self,
        style: &Style,
        room: Room,
        a: State,
        is_first: bool,
        out: &mut BeforeAndAfterFault,
    ) -> Result<(), AllocError> {
        if !a.has_entry() {
            return self.note(
                &a,
                Callee::BuiltIn(BuiltIn::CallType),
                Fault::NoEntry,
                None,
                is_first,
            );
        }
        self.types_asked = self.types_asked.wrapping_add(1);
        for k in 0..self.allowed.len() {
            if k < self.allowed.len() {
                let number = self.allowed[k];
                self.entry_type = Some(number);
                self.function(style, room, a.copy()?, is_first, Callee::User(number), out)?;
            }
        }
        self.entry_type = None;
        match style.type_function(b"default.type") {
            None => add_sure(&self.work, out.lane(is_first), a),
            Some(number) => self.function(style, room, a, is_first, Callee::User(number), out),
        }
    }
}

// Adds a type to those of several places.
fn add_types(
    found: &mut [Finding],
    numbers: &[usize],
    entry_type: Option<u32>,
) -> Result<(), AllocError> {
    for number in numbers {
        if *number < found.len() {
            add_type(&mut found[*number].types, entry_type)?;
        }
    }
    Ok(())
}

// Adds what became of a frame, in another description.
fn put_back(
    work: &Work,
    reaches: &Reaches,
    ends: &[End],
    framed: &Framed,
    a: &State,
    i: u32,
    out: &mut Vec<State>,
) -> Result<(), AllocError> {
    for end in ends {
        let b = end.put_back(work.alloc, reaches, framed, a, i)?;
        add_sure(work, out, b)?;
    }
    Ok(())
}

// What became of a frame, in each of these.
fn ends_of(
    work: &Work,
    reaches: &Reaches,
    framed: &Framed,
    from: &State,
    states: &[State],
    i: u32,
) -> Result<Vec<End>, AllocError> {
    let mut ends: Vec<End> = Vec::with_capacity(work.alloc, states.len())?;
    for a in states {
        let end = End::new(work.alloc, reaches, framed, from, a, i)?;
        ends.push(end)?;
    }
    Ok(ends)
}
