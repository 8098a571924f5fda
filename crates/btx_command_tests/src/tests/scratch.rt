//! Folders for the tests.
use std::alloc::Global;
use std::time::{SystemTime, UNIX_EPOCH};
use std::{env, fs, io};

// The nanoseconds since 1970.
fn moment(rt: &HostRuntime) -> io::Result<u128> {
    let now = SystemTime::now(rt)?;
    Ok(match now.duration_since(UNIX_EPOCH) {
        Ok(moment) => moment.as_nanos(),
        Err(_) => 0,
    })
}

// The path of a folder for temporary files, of this name and moment.
fn folder_of(rt: &HostRuntime, alloc: Global, name: &str, moment: u128) -> io::Result<String> {
    let temporary = env::temp_dir(rt)?;
    let folder = format!(in alloc; "{}/bibtex_{name}_{moment}", temporary.display())?;
    Ok(folder)
}

/// Makes a folder whose name no other run of the tests has.
pub fn make_folder(rt: &HostRuntime, alloc: Global, name: &str) -> io::Result<String> {
    let moment = moment(rt)?;
    let folder = folder_of(rt, alloc, name, moment)?;
    fs::create_dir_all(rt, folder.as_str())?;
    Ok(folder)
}

/// Writes the file `name` of the folder `folder`.
pub fn write_file(rt: &HostRuntime, folder: &str, name: &str, bytes: &[u8]) -> io::Result<()> {
    let path = format!(in rt.alloc(); "{folder}/{name}")?;
    fs::write(rt, path.as_str(), bytes)
}
