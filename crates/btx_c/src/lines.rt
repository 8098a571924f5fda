//! The lines of a log, as proofs see them.
ghost use Rattle.std.specs.Prelude.{◌≡◌, [], List};
ghost use Rattle.std.specs.Borrow.{ftrue};
ghost use Rattle.btx_text.specs.language.LogLines.{Line};

use std::marker::Model;

/// Lines of a log. Only proofs speak of them: at run time there is nothing here.
#[derive(Drop)]
pub struct Lines {
    pub ghost list: { List Line },
}

impl Model for Lines {
    ghost also_owns = { λ _. ftrue };
}

impl Lines {
    /// No line yet.
    pub fn none() -> Lines
        ensures { result.list ≡ [] }
    {
        Lines {}
    }

    /// Lines, which a proof picks by what is seen.
    pub fn of<T>(&self, seen: &T) -> Lines
        ghost list: { List Line }
        ensures { result.list ≡ list }
    {
        Lines {}
    }
}
