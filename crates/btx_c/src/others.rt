//! Files of which nothing was said.
ghost use Rattle.std.specs.Prelude.{◌≡◌};
ghost use Rattle.std.specs.Borrow.{ftrue};
ghost use Rattle.btx_c.specs.CallerFiles.{OtherFiles};

use std::marker::Model;

/// Files of which nothing was said. Only proofs speak of them: at run time there is nothing here.
#[derive(Drop)]
pub struct UnnamedFiles {
    pub ghost files: { OtherFiles },
}

impl Model for UnnamedFiles {
    ghost also_owns = { λ _. ftrue };
}

impl UnnamedFiles {
    /// Makes any files.
    pub fn any() -> UnnamedFiles
        ghost files: { OtherFiles }
        ensures { result.files ≡ files }
    {
        UnnamedFiles {}
    }
}
