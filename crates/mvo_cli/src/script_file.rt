use crate::fault::Fault;
use std::alloc::AllocError;
use std::fs::{self, File, Files};
use std::io;

/// The bytes of a file with a script.
pub fn read_script(
    rt: &(impl AllocGlobal + Files<File = File>),
    path: &str,
) -> Result<Vec<u8>, Fault> {
    match fs::read(rt, path) {
        Ok(script) => Ok(script),
        Err(error) if error.kind() == io::ErrorKind::OutOfMemory => Err(Fault::OutOfMemory),
        Err(error) => Err(unread(rt, path, error)?),
    }
}

/// The fault that a file with a script can't be read.
fn unread(rt: &impl AllocGlobal, path: &str, error: io::Error) -> Result<Fault, AllocError> {
    let path = String::from_str(rt.alloc(), path)?;
    Ok(Fault::ScriptFile(path, error))
}
