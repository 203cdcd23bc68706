// The files of data/, by their names.
use std::fs::File;
use std::io::{Error, ErrorKind};
use std::rt::Files;
use std::{fs, str};

// The descriptor of standard error.
const STDERR_FILENO: i32 = 2;

// Opens the file of that name for reading, or says on standard error why it does not open.
pub fn open(rt: &(impl Files<File = File> + Eprint), name: &[u8]) -> Option<File> {
    match open_named(rt, name) {
        Ok(file) => Some(file),
        Err(error) => {
            io::write_all(STDERR_FILENO, name);
            let _ = eprintln!(rt; ": {error}");
            None
        }
    }
}

// Opens the file of that name, which std takes as text alone.
fn open_named(rt: &impl Files<File = File>, name: &[u8]) -> std::io::Result<File> {
    match str::from_utf8(name) {
        Ok(text) => fs::open(rt, text),
        Err(_) => Err(Error::new(ErrorKind::InvalidInput, "the name is not UTF-8")),
    }
}
