//! Where the files of a job stand.
ghost use Rattle.std.specs.Prelude.{◌≡◌, IfErr, IfOk, string_bytes};
ghost use Rattle.btx_command.specs.Paths.{output_path, path_in};

use crate::given::Settings;
use btx_run::RunFault;
use std::alloc::{AllocError, Global};

/// Makes the path of the file `name` in the folder `directory`.
pub(crate) fn path_in(alloc: Global, directory: &str, name: &str) -> Result<String, AllocError>
    ensures { IfOk result (λ path. string_bytes path ≡ path_in directory.now name.now) }
{
    let path = format!(in alloc; "{directory}/{name}")?;
    Ok(path)
}

/// Makes the path of the job's output with the ending `ending`. The only fault is want of memory.
pub fn path_of(alloc: Global, settings: &Settings<'_>, ending: &str) -> Result<String, RunFault>
    ensures path { IfOk result (λ path. string_bytes path ≡ output_path settings.now ending.now) }
    ensures fault { IfErr result (λ fault. fault ≡ RunFault.Memory) }
{
    let directory = settings.directory;
    let name = settings.name;
    let path = format!(in alloc; "{directory}/{name}{ending}")?;
    Ok(path)
}
