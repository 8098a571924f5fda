//! The reading of an open file.
ghost use Rattle.std.specs.Prelude.{◌≡◌, ◌++◌, IfOk, IfSome, OnErr, OnOk, length, take};
ghost use Rattle.std.specs.IoError.{error_kind};
ghost use Rattle.std.specs.Io.{ReadsAtMost};
ghost use Rattle.std.specs.Io.KnownBytes.{ReadConsumes};
ghost use Rattle.btx_aux.specs.language.Fetches.{is_device_fetch};
ghost use Rattle.btx_text.specs.refinement.Counts.{RisesIf};
ghost use Rattle.btx_command.specs.FileErrors.{read_fault};
ghost use Rattle.btx_command.specs.FolderFiles.{most_read};

use crate::system::System;
use btx_run::FetchFault;
use btx_text::GREATEST_FILE;
use std::io;
use std::io::ErrorKind;

// The greatest number of bytes that are read of a file.
const MOST_READ: usize = GREATEST_FILE + 1;

// The greatest number of bytes that one reading asks for.
const PIECE: usize = 16 * 1024;

// What a reading that failed means for a fetch: memory was refused, or the device failed; or nothing where a signal interrupted it, and it is tried again.
fn read_fault(error: &io::Error) -> Option<FetchFault>
    ensures { result ≡ read_fault (error_kind error.now) }
{
    match error.kind() {
        ErrorKind::Interrupted => None,
        ErrorKind::OutOfMemory => Some(FetchFault::Memory),
        _ => Some(FetchFault::Device),
    }
}

// Reads bytes of an open file, once, or again as often as a signal interrupts the reading; 2^64 such signals don't come. The fault is the device's exactly
// where it failed this reading, which is then the last call of the system.
fn read_some<S: System>(
    system: &mut S,
    file: &mut S::File,
    into: &mut [u8],
) -> Result<usize, FetchFault>
    ensures bound { ReadsAtMost result into.new }
    ensures bytes { ReadConsumes (S.File.remaining file.old) (S.File.remaining file.new) result into.new }
    ensures stays { S.content system.new ≡ S.content system.old }
    ensures counts { RisesIf (is_device_fetch result) (S.failures system.old, S.failures system.new) }
{
    for _ in 0..u64::MAX {
        match system.read(file, into) {
            Ok(count) => return Ok(count),
            Err(error) => {
                if let Some(fault) = read_fault(&error) {
                    return Err(fault);
                }
            }
        }
    }
    Err(FetchFault::Memory)
}

/// Appends the bytes of an open file, as far as one is read. The fault is the device's exactly where it failed a reading, so that such a reading is never
/// taken for the end of the file.
pub fn read_front<S: System>(
    system: &mut S,
    mut file: S::File,
    into: &mut Vec<u8>,
) -> Result<(), FetchFault>
    ensures bytes { OnOk result (IfSome (S.File.remaining file) (λ bytes. into.new.items ≡ into.old.items ++ take most_read bytes)) }
    ensures stays { S.content system.new ≡ S.content system.old }
    ensures counts { RisesIf (is_device_fetch result) (S.failures system.old, S.failures system.new) }
{
    let mut piece = [0; PIECE];
    let mut left = MOST_READ;
    for _ in 0..u64::MAX {
        let room = left.min(PIECE);
        let count = read_some(system, &mut file, &mut piece[..room])?;
        if count == 0 {
            return Ok(());
        }
        into.extend_from_slice(&piece[..count])
            .map_err(|_| FetchFault::Memory)?;
        left -= count;
    }
    Err(FetchFault::Memory)
}
