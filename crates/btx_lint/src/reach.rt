//! What functions of the style can touch: names in the functions that they lead to, and as many literals on top as a run touched. No proof rests on it.
use crate::frames::KINDS;
use btx_bst::{Callee, Style, Token};
use std::alloc::{AllocError, Global};

/// What a function of the style can touch.
#[derive(Drop)]
struct TouchedNames {
    is_known: bool,
    // Whether it may touch anything.
    is_whole: bool,
    // Of each name: whether it can touch it.
    names: Vec<bool>,
    // How many literals on top it was seen to touch.
    depth: usize,
}

/// What functions of the style can touch.
#[derive(Drop)]
pub struct Reaches {
    functions: Vec<TouchedNames>,
    // The number of the first name of each kind.
    firsts: [usize; KINDS],
    // How many names there are.
    names: usize,
    // Of each name: 1, or what tells it apart if descriptions are kept apart by it.
    flags: Vec<usize>,
    // How much may still be looked at.
    budget: usize,
}

// How much may be looked at in all to find what functions can touch.
const MOST_LOOKS: usize = 20_000_000;

impl Reaches {
    /// Nothing is known of any function.
    pub fn new(alloc: Global, style: &Style, flags: &[Callee]) -> Result<Reaches, AllocError> {
        let strings = style.global_integers();
        let integers = strings.saturating_add(style.global_strings());
        let texts = integers.saturating_add(style.entry_integers());
        let fields = texts.saturating_add(style.entry_strings());
        let names = fields.saturating_add(style.fields());
        let mut reaches = Reaches {
            functions: Vec::with_capacity(alloc, style.functions())?,
            firsts: [0, strings, integers, texts, fields],
            names,
            flags: vec![in alloc; 1; names]?,
            budget: MOST_LOOKS,
        };
        for _ in 0..style.functions() {
            reaches.functions.push(TouchedNames {
                is_known: false,
                is_whole: true,
                names: Vec::new(alloc),
                depth: 0,
            })?;
        }
        reaches.mark_flags(flags);
        Ok(reaches)
    }

    fn mark_flags(&mut self, flags: &[Callee]) {
        for k in 0..flags.len() {
            if let Some(number) = self.number(flags[k]) {
                if number < self.flags.len() {
                    self.flags[number] = k.saturating_add(2);
                }
            }
        }
    }

    // The number of a name among all.
    fn number(&self, name: Callee) -> Option<usize> {
        match name {
            Callee::GlobalInteger(i) => Some(i as usize),
            Callee::GlobalString(i) => Some(self.firsts[1].saturating_add(i as usize)),
            Callee::EntryInteger(i) => Some(self.firsts[2].saturating_add(i as usize)),
            Callee::EntryString(i) => Some(self.firsts[3].saturating_add(i as usize)),
            Callee::Field(i) => Some(self.firsts[4].saturating_add(i as usize)),
            _ => None,
        }
    }

    // The number among all of a name of a kind.
    fn number_of(&self, kind: usize, k: usize) -> usize {
        if kind < KINDS {
            self.firsts[kind].saturating_add(k)
        } else {
            k
        }
    }

    /// The mark of the name `k` of a kind outside a frame: names with one mark count as the same.
    pub fn flag(&self, kind: usize, k: usize) -> usize {
        let number = self.number_of(kind, k);
        if number < self.flags.len() {
            self.flags[number]
        } else {
            1
        }
    }

    /// How many literals on top a function was seen to touch.
    pub fn depth(&self, i: u32) -> usize {
        if (i as usize) < self.functions.len() {
            self.functions[i as usize].depth
        } else {
            0
        }
    }

    /// Notes that the function `i` touched `depth` literals on top of the stack.
    pub fn touched(&mut self, i: u32, depth: usize) {
        if (i as usize) < self.functions.len() && self.functions[i as usize].depth < depth {
            self.functions[i as usize].depth = depth;
        }
    }

    /// Whether a function may touch anything.
    pub fn is_whole(&self, i: u32) -> bool {
        (i as usize) >= self.functions.len() || self.functions[i as usize].is_whole
    }

    /// Whether a function can touch a name.
    pub fn has(&self, i: u32, kind: usize, k: usize) -> bool {
        if (i as usize) >= self.functions.len() {
            return true;
        }
        let number = self.number_of(kind, k);
        let names = &self.functions[i as usize].names;
        number < names.len() && names[number]
    }

    /// Finds out what a function can touch, unless that is known.
    pub fn learn(&mut self, alloc: Global, style: &Style, i: u32) -> Result<(), AllocError> {
        let i = i as usize;
        if i >= self.functions.len() || self.functions[i].is_known {
            return Ok(());
        }
        self.functions[i].is_known = true;
        let cost = self.names.saturating_add(i);
        if self.budget < cost {
            return Ok(());
        }
        self.budget = self.budget.saturating_sub(cost);
        let mut names: Vec<bool> = vec![in alloc; false; self.names]?;
        let mut open: Vec<bool> = vec![in alloc; false; i.saturating_add(1)]?;
        set(&mut open, i);
        let is_whole = self.follow(style, &mut open, &mut names);
        if i < self.functions.len() {
            self.functions[i].names = names;
            self.functions[i].is_whole = is_whole;
        }
        Ok(())
    }

    // Finds the names in the functions that are led to, from the last: those that a function uses have lower numbers. Whether not all can be found.
    fn follow(&mut self, style: &Style, open: &mut Vec<bool>, names: &mut Vec<bool>) -> bool {
        let mut is_whole = false;
        for k in 0..open.len() {
            if k < open.len() {
                let j = open.len() - 1 - k;
                if open[j] && !self.look(style, j, open, names) {
                    is_whole = true;
                }
            }
        }
        is_whole
    }

    // Notes the names and functions in a body. Whether all functions in it have lower numbers.
    fn look(&mut self, style: &Style, j: usize, open: &mut [bool], names: &mut [bool]) -> bool {
        if j >= style.functions() {
            return false;
        }
        let mut is_lower = true;
        for t in style.body(j) {
            self.budget = self.budget.saturating_sub(1);
            match *t {
                Token::Run(Callee::User(u)) | Token::Quote(Callee::User(u)) => {
                    is_lower = is_lower && (u as usize) < j;
                    set(open, u as usize);
                }
                Token::Run(f) | Token::Quote(f) => {
                    if let Some(number) = self.number(f) {
                        set(names, number);
                    }
                }
                _ => {}
            }
        }
        is_lower
    }
}

fn set(marks: &mut [bool], k: usize) {
    if k < marks.len() {
        marks[k] = true;
    }
}
