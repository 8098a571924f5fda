//! A recorder of where the tokens and the items of a style stand.
ghost use Rattle.std.specs.Prelude.{◌≡◌, OnOk, Option, None, Some, length};
ghost use Rattle.btx_bst.specs.laws.Recorded as spec;
ghost use Rattle.btx_bst.specs.refinement.Views.{word_view};

use crate::bodies::Bodies;
use crate::open::Open;
use crate::span::{Spot, Stretch};
use crate::word::Word;
use std::alloc::{AllocError, Global};
use std::marker::Model;

/// What takes note of where the tokens and the items of a style stand while it is read; or takes none.
pub trait Recording {
    // What is recorded, if anything is.
    ghost recorded: { Self → Option spec.Recorded };

    /// A word of a body was read, which gave a message if it is `logged`.
    fn word(&mut self, word: Word<'_>, met: Stretch, logged: bool) -> Result<(), AllocError>
        ensures { OnOk result (spec.Records (spec.word_recorded (word_view word.entry) met logged) (recorded self.old) (recorded self.new)) };

    /// An item was read.
    fn item(&mut self, met: Stretch) -> Result<(), AllocError>
        ensures { OnOk result (spec.Records (spec.with_item met) (recorded self.old) (recorded self.new)) };

    /// A body begins. Answers how many functions are recorded.
    fn begin(&mut self) -> usize
        ensures begun { spec.Records spec.begun (recorded self.old) (recorded self.new) }
        ensures count { (r : spec.Recorded) → recorded self.old ≡ Some r → result ≡ length r.bodies };

    /// A body ends: whole, or broken off, and no more than `count` functions stay recorded.
    fn end(&mut self, count: usize, is_whole: bool) -> Result<(), AllocError>
        ensures { OnOk result (spec.Records (spec.ended count is_whole) (recorded self.old) (recorded self.new)) };
}

/// Takes no note.
#[derive(Drop)]
pub struct NoRecord;

impl Recording for NoRecord {
    ghost recorded = { λ _. None };

    #[inline(always)]
    fn word(&mut self, _word: Word<'_>, _met: Stretch, _logged: bool) -> Result<(), AllocError> {
        Ok(())
    }

    #[inline(always)]
    fn item(&mut self, _met: Stretch) -> Result<(), AllocError> {
        Ok(())
    }

    #[inline(always)]
    fn begin(&mut self) -> usize {
        0
    }

    #[inline(always)]
    fn end(&mut self, _count: usize, _is_whole: bool) -> Result<(), AllocError> {
        Ok(())
    }
}

/// Where the tokens and the items stand that were read so far.
#[derive(Drop)]
pub struct Recorder {
    open: Open<Stretch>,
    braces: Vec<Spot>,
    bodies: Bodies<Stretch>,
    items: Vec<Stretch>,
}

impl Model for Recorder {
    ghost use Rattle.std.specs.Prelude.{reverse};
    ghost use Rattle.btx_bst.specs.laws.Recorded.{Recorded};

    ghost Value = { Recorded };

    ghost view = { λ r. record { tokens = r.open.tokens; around = r.open.around; braces = reverse r.braces.items; bodies = r.bodies; items = r.items.items } };
}

impl Recorder {
    /// Nothing is recorded.
    pub fn new(alloc: Global) -> Self
        ensures { result ≡ spec.nothing_recorded }
    {
        Recorder {
            open: Open::new(alloc),
            braces: Vec::new(alloc),
            bodies: Bodies::new(alloc),
            items: Vec::new(alloc),
        }
    }

    // A further token of the innermost function.
    fn add_token(&mut self, met: Stretch) -> Result<(), AllocError>
        ensures { OnOk result (self.new ≡ spec.with_token met self.old) }
    {
        self.open.push(met)?;
        Ok(())
    }

    // A further item.
    fn add_item(&mut self, met: Stretch) -> Result<(), AllocError>
        ensures { OnOk result (self.new ≡ spec.with_item met self.old) }
    {
        self.items.push(met)?;
        Ok(())
    }

    // A `{` begins a function inside the innermost one.
    fn opened(&mut self, brace: Spot) -> Result<(), AllocError>
        ensures { OnOk result (self.new ≡ spec.opened brace self.old) }
    {
        self.open.open()?;
        self.braces.push(brace)?;
        Ok(())
    }

    // A `}` ends the innermost function, up to this spot.
    fn closed(&mut self, to: Spot) -> Result<(), AllocError>
        ensures { OnOk result (self.new ≡ spec.closed to self.old self.old.braces) }
    {
        let Some(from) = self.braces.pop() else {
            return Ok(());
        };
        self.bodies.add(self.open.tokens())?;
        self.open.leave();
        self.open.push(Stretch { from, to })?;
        Ok(())
    }

    /// Where the tokens of functions stand, and the items.
    pub fn into_parts(self) -> (Bodies<Stretch>, Vec<Stretch>)
        ensures bodies { result.0 ≡ self.bodies }
        ensures items { result.1.items ≡ self.items }
    {
        (self.bodies, self.items)
    }

    // A word of a body gives a message or, if it isn't `logged`, a token.
    fn given(&mut self, met: Stretch, logged: bool) -> Result<(), AllocError>
        ensures { OnOk result (self.new ≡ spec.given met logged self.old) }
    {
        if logged {
            self.add_item(met)
        } else {
            self.add_token(met)
        }
    }
}

impl Recording for Recorder {
    ghost recorded = { λ r. Some r };

    fn word(&mut self, word: Word<'_>, met: Stretch, logged: bool) -> Result<(), AllocError> {
        match word {
            Word::Open => self.opened(met.from),
            Word::Close => self.closed(met.to),
            Word::Unended | Word::Ended => Ok(()),
            _ => self.given(met, logged),
        }
    }

    fn item(&mut self, met: Stretch) -> Result<(), AllocError> {
        self.add_item(met)
    }

    fn begin(&mut self) -> usize {
        self.open.reset();
        self.braces.clear();
        self.bodies.len()
    }

    fn end(&mut self, count: usize, is_whole: bool) -> Result<(), AllocError> {
        if is_whole {
            self.bodies.add(self.open.tokens())
        } else {
            self.bodies.cut(count);
            Ok(())
        }
    }
}
