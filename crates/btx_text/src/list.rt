//! Lists that grow at their end.
use std::alloc::{AllocError, Global};
use std::marker::Model;

/// Values, in order. To contracts it is the list of them.
#[derive(Drop)]
pub struct List<T: Drop> {
    values: Vec<T>,
}

impl<T: Drop> Model for List<T> {
    ghost use Rattle.std.specs.Prelude.{List as Values};

    ghost Value = { Values T };

    ghost view = { λ list. list.values.items };
}

impl<T: Drop> List<T> {
    ghost use Rattle.std.specs.Prelude.{◌≡◌, [], ◌∷◌, ◌++◌, length, IfOk, OnOk};

    /// No value.
    pub fn new(alloc: Global) -> Self
        ensures { result ≡ [] }
    {
        List {
            values: Vec::new(alloc),
        }
    }

    /// One value.
    pub fn one(alloc: Global, value: T) -> Result<Self, AllocError>
        ensures { IfOk result (λ list. list ≡ value ∷ []) }
    {
        let mut list = List::new(alloc);
        list.push(value)?;
        Ok(list)
    }

    /// How many values there are.
    pub fn len(&self) -> usize
        ensures { result ≡ length self.now }
    {
        self.values.len()
    }

    /// Adds a value at the end.
    pub fn push(&mut self, value: T) -> Result<(), AllocError>
        ensures { OnOk result (self.new ≡ self.old ++ value ∷ []) }
    {
        self.values.push(value)?;
        Ok(())
    }

    /// The values, in order.
    pub fn as_slice(&self) -> &[T]
        ensures { result.now ≡ self.now }
    {
        self.values.as_slice()
    }
}
