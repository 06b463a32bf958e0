//! A file that the words of a command name, read again.

use contest_file_faults::Report;
use contest_streams::{Counted, InputFault, read_limited};
use contest_types::limits::IMPORTED_FILE;
use std::alloc::AllocError;
use std::fs::File;
use std::io::{self, ErrorKind, Read};
use std::rt::Files;

/// The bytes of a file; none if it can't be opened or read, or is too large. The error is want of
/// memory.
pub(crate) fn read_again(rt: &HostRuntime, path: &str) -> Result<Option<Vec<u8>>, AllocError> {
    match File::open(rt, path) {
        Ok(file) => {
            let mut file = Counted::new(file);
            bytes_of(rt, &mut file)
        }
        Err(_) => Ok(None),
    }
}

fn bytes_of(rt: &HostRuntime, file: &mut Counted<File>) -> Result<Option<Vec<u8>>, AllocError> {
    match read_limited(rt.alloc(), file, IMPORTED_FILE) {
        Ok(bytes) => Ok(Some(bytes)),
        Err(InputFault::Memory) => Err(AllocError),
        Err(InputFault::File | InputFault::TooLarge) => Ok(None),
    }
}

/// Why a file can't be read now, if it can't.
pub(crate) fn fault_of(rt: &HostRuntime, path: &str) -> Option<&'static str> {
    match first_byte(rt, path) {
        Ok(_) => None,
        Err(error) => Some(reason_of(&error)),
    }
}

fn first_byte<F: Files>(files: &F, path: &str) -> io::Result<usize> {
    let mut file = File::open(files, path)?;
    let mut byte = [0u8; 1];
    file.read(&mut byte)
}

/// Why a file can't be opened or read.
pub(crate) fn reason_of(error: &io::Error) -> &'static str {
    match error.kind() {
        ErrorKind::NotFound => "there is no such file",
        ErrorKind::PermissionDenied => "this user may not read it",
        ErrorKind::IsADirectory => "it is a directory",
        ErrorKind::NotADirectory => "a part of its path is no directory",
        _ => "its disk failed, or the system refused to open it",
    }
}

/// Tells of a file at a path in a line: `PATH: words.`
pub(crate) fn tell_of_file(path: &str, words: &str, report: &mut Report) -> Result<(), AllocError> {
    report.begin()?;
    report.path(path)?;
    report.say(": ")?;
    report.say(words)?;
    report.say(".")?;
    report.end()
}
