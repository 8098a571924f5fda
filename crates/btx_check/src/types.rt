//! Which functions of a style are meant as types of entries: a guess, which the verdict states.
use btx_bst::{BuiltIn, Callee, Item, Style, Token};
use std::alloc::{AllocError, Global};

// The types that databases use.
const STANDARD: &[u8] =
    b"article book booklet conference inbook incollection inproceedings manual mastersthesis misc phdthesis proceedings techreport unpublished collection patent electronic online www webpage periodical thesis report standard software dataset";

// Of each function: whether it reaches `write$`, whether it reaches `cite$`, and whether a function that isn't another name of it uses it.
#[derive(Drop)]
struct Uses {
    writes: Vec<bool>,
    cites: Vec<bool>,
    used: Vec<bool>,
}

/// The functions that are meant as types: those of standard names, and those without a dot in their names that no other function uses and that write an
/// entry with its key. If there is none, the style may make a list without keys, as one of addresses: then those that write.
pub fn meant_types(alloc: Global, style: &Style) -> Result<Vec<u32>, AllocError> {
    let mut uses = uses_of(alloc, style)?;
    let types = types_by(alloc, style, &uses)?;
    if types.is_empty() {
        uses.cites = vec![in alloc; true; style.functions()]?;
        return types_by(alloc, style, &uses);
    }
    Ok(types)
}

// The functions that are meant as types, by what each reaches.
fn types_by(alloc: Global, style: &Style, uses: &Uses) -> Result<Vec<u32>, AllocError> {
    let mut meant: Vec<bool> = Vec::new(alloc);
    let mut types: Vec<u32> = Vec::new(alloc);
    for i in 0..style.functions() {
        let is_meant = is_type(style, uses, &meant, i);
        meant.push(is_meant)?;
        if is_meant && i < u32::MAX as usize {
            types.push(i as u32)?;
        }
    }
    Ok(types)
}

// Whether a function is meant as a type.
fn is_type(style: &Style, uses: &Uses, meant: &[bool], i: usize) -> bool {
    if i >= u32::MAX as usize {
        return false;
    }
    let name = style.name(Callee::User(i as u32));
    match style.type_function(name) {
        Some(number) => {
            if number as usize != i {
                return false;
            }
        }
        None => return false,
    }
    if is_standard(name) {
        return true;
    }
    if name.contains(&b'.') {
        return false;
    }
    is_other_name(style, meant, i)
        || (!at(&uses.used, i) && at(&uses.writes, i) && at(&uses.cites, i))
}

// Whether a function is another name of a type.
fn is_other_name(style: &Style, meant: &[bool], i: usize) -> bool {
    if i >= style.functions() {
        return false;
    }
    match style.body(i) {
        [Token::Run(Callee::User(j))] => at(meant, *j as usize),
        _ => false,
    }
}

// Whether databases use a type of this name.
fn is_standard(name: &[u8]) -> bool {
    let mut start = 0;
    for end in 0..STANDARD.len() {
        if STANDARD[end] == b' ' {
            if start <= end && &STANDARD[start..end] == name {
                return true;
            }
            start = end + 1;
        }
    }
    start <= STANDARD.len() && &STANDARD[start..] == name
}

// What each function reaches, and which functions are used.
fn uses_of(alloc: Global, style: &Style) -> Result<Uses, AllocError> {
    let mut uses = Uses {
        writes: Vec::new(alloc),
        cites: Vec::new(alloc),
        used: vec![in alloc; false; style.functions()]?,
    };
    for i in 0..style.functions() {
        let body = style.body(i);
        let mut writes = false;
        let mut cites = false;
        for token in body {
            match *token {
                Token::Run(f) | Token::Quote(f) => {
                    writes = writes || reaches(&uses.writes, f, BuiltIn::Write);
                    cites = cites || reaches(&uses.cites, f, BuiltIn::Cite);
                    if body.len() != 1 {
                        mark(&mut uses.used, f);
                    }
                }
                _ => {}
            }
        }
        uses.writes.push(writes)?;
        uses.cites.push(cites)?;
    }
    Ok(uses)
}

// Whether a function is a built-in one, or reaches it.
fn reaches(reached: &[bool], f: Callee, wanted: BuiltIn) -> bool {
    match f {
        Callee::BuiltIn(b) => b == wanted,
        Callee::User(j) => at(reached, j as usize),
        _ => false,
    }
}

fn mark(used: &mut [bool], f: Callee) {
    match f {
        Callee::User(j) => {
            if (j as usize) < used.len() {
                used[j as usize] = true;
            }
        }
        _ => {}
    }
}

fn at(flags: &[bool], i: usize) -> bool {
    if i < flags.len() { flags[i] } else { false }
}

/// Integer variables that are assigned nothing but literals and such variables: of each variable whether it is one.
#[derive(Drop)]
pub(crate) struct ConstantVariables {
    pub globals: Vec<bool>,
    pub entries: Vec<bool>,
}

/// Which integer variables are assigned nothing but literals and such variables.
pub(crate) fn constants(alloc: Global, style: &Style) -> Result<ConstantVariables, AllocError> {
    let mut are = ConstantVariables {
        globals: vec![in alloc; true; style.global_integers()]?,
        entries: vec![in alloc; true; style.entry_integers()]?,
    };
    for i in 0..style.functions() {
        let body = style.body(i);
        for k in 0..body.len() {
            if !is_assigned_literal(body, k) {
                are.exclude(body[k]);
            }
        }
    }
    Ok(are)
}

impl ConstantVariables {
    // Excludes the variable that a token quotes, if it quotes one.
    fn exclude(&mut self, token: Token) {
        match token {
            Token::Quote(Callee::GlobalInteger(v)) => clear(&mut self.globals, v),
            Token::Quote(Callee::EntryInteger(v)) => clear(&mut self.entries, v),
            _ => {}
        }
    }

    /// Whether a callee is such a variable.
    pub fn has(&self, f: Callee) -> bool {
        match f {
            Callee::GlobalInteger(v) => at(&self.globals, v as usize),
            Callee::EntryInteger(v) => at(&self.entries, v as usize),
            _ => false,
        }
    }
}

fn clear(marks: &mut [bool], i: u32) {
    if (i as usize) < marks.len() {
        marks[i as usize] = false;
    }
}

// Whether a quoted variable is assigned an integer that is written before it.
fn is_assigned_literal(body: &[Token], k: usize) -> bool {
    if k == 0 || k >= body.len() || body.len() - k < 2 {
        return false;
    }
    let after = body[k + 1];
    if after != Token::Run(Callee::BuiltIn(BuiltIn::Assign)) {
        return false;
    }
    let before = body[k - 1];
    match before {
        Token::Integer(_) => true,
        Token::Run(Callee::GlobalInteger(_)) => true,
        _ => false,
    }
}

/// The most bodies that may be open at once.
pub(crate) const MOST_BODIES: usize = 4096;

/// How many bodies are open at once at most, as a guess: a quoted function is thought to be executed where it is quoted. It counts only once the check has
/// gone by with it.
pub(crate) fn likely_depth(
    alloc: Global,
    style: &Style,
    allowed: &[u32],
) -> Result<usize, AllocError> {
    let before = depths(alloc, style, 0)?;
    let mut of_types = match style.type_function(b"default.type") {
        Some(number) => depth_at(&before, number),
        None => 0,
    };
    for number in allowed {
        let depth = depth_at(&before, *number);
        of_types = if depth > of_types { depth } else { of_types };
    }
    let depths = depths(alloc, style, of_types)?;
    let mut most = 1;
    for item in style.items() {
        match *item {
            Item::Execute(f) | Item::Iterate(f) | Item::Reverse(f) => {
                let depth = depth_of(&depths, f, of_types);
                most = if depth > most { depth } else { most };
            }
            _ => {}
        }
    }
    Ok(if most < MOST_BODIES {
        most
    } else {
        MOST_BODIES
    })
}

// Of each function, how many bodies it opens at most; `of_types` is that of `call.type$`. A function mentions only functions of lower numbers.
fn depths(alloc: Global, style: &Style, of_types: usize) -> Result<Vec<usize>, AllocError> {
    let mut depths: Vec<usize> = Vec::new(alloc);
    for i in 0..style.functions() {
        let mut deepest = 0;
        for token in style.body(i) {
            match *token {
                Token::Run(f) | Token::Quote(f) => {
                    let depth = depth_of(&depths, f, of_types);
                    deepest = if depth > deepest { depth } else { deepest };
                }
                _ => {}
            }
        }
        depths.push(deepest.saturating_add(1))?;
    }
    Ok(depths)
}

// How many bodies a function opens.
fn depth_of(depths: &[usize], f: Callee, of_types: usize) -> usize {
    match f {
        Callee::User(i) => depth_at(depths, i),
        Callee::BuiltIn(BuiltIn::CallType) => of_types,
        _ => 0,
    }
}

fn depth_at(depths: &[usize], i: u32) -> usize {
    if (i as usize) < depths.len() {
        depths[i as usize]
    } else {
        0
    }
}

/// Which global variables a function can assign: of each, whether it is quoted in what the function reaches.
#[derive(Drop)]
pub(crate) struct Assigned {
    pub integers: Vec<bool>,
    pub strings: Vec<bool>,
}

/// What a function can assign, where entries have these types. A function mentions only functions of lower numbers, but for `call.type$`.
pub(crate) fn assigned_by(
    alloc: Global,
    style: &Style,
    allowed: &[u32],
    f: Callee,
) -> Result<Assigned, AllocError> {
    let mut reached: Vec<bool> = vec![in alloc; false; style.functions()]?;
    mark(&mut reached, f);
    if f == Callee::BuiltIn(BuiltIn::CallType) {
        mark_types(style, allowed, &mut reached);
    }
    let mut found = Assigned {
        integers: vec![in alloc; false; style.global_integers()]?,
        strings: vec![in alloc; false; style.global_strings()]?,
    };
    for _ in 0..2 {
        for k in 0..style.functions() {
            let i = style.functions() - 1 - k;
            if at(&reached, i) {
                for token in style.body(i) {
                    reach(style, allowed, &mut reached, &mut found, *token);
                }
            }
        }
    }
    Ok(found)
}

// Marks what a token reaches or assigns.
fn reach(style: &Style, allowed: &[u32], reached: &mut [bool], found: &mut Assigned, token: Token) {
    match token {
        Token::Quote(Callee::GlobalInteger(v)) => set(&mut found.integers, v),
        Token::Quote(Callee::GlobalString(v)) => set(&mut found.strings, v),
        Token::Run(Callee::BuiltIn(BuiltIn::CallType))
        | Token::Quote(Callee::BuiltIn(BuiltIn::CallType)) => mark_types(style, allowed, reached),
        Token::Run(f) | Token::Quote(f) => mark(reached, f),
        _ => {}
    }
}

// Marks the functions of types.
fn mark_types(style: &Style, allowed: &[u32], reached: &mut [bool]) {
    for number in allowed {
        set(reached, *number);
    }
    match style.type_function(b"default.type") {
        Some(number) => set(reached, number),
        None => {}
    }
}

fn set(marks: &mut [bool], i: u32) {
    if (i as usize) < marks.len() {
        marks[i as usize] = true;
    }
}
