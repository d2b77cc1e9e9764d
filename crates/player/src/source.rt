// Where the bytes of a recording come from.
use std::fs::File;
use std::io;
use std::io::{Read, Stdin};

// The library opens names that are UTF-8 alone. Of another one the system's error for bytes that are no text is told (EILSEQ).
const NO_TEXT: i32 = 84;

/// Where the bytes of a recording come from.
#[derive(Drop)]
pub enum Source {
    Standard(Stdin),
    Named(File),
}

impl Source {
    /// The file of a name; standard input where that is a minus sign.
    pub fn open(rt: &HostRuntime, name: &[u8]) -> io::Result<Source> {
        if matches!(name, b"-") {
            return Ok(Source::Standard(rt.stdin()));
        }
        match std::str::from_utf8(name) {
            Ok(path) => Ok(Source::Named(File::open(rt, path)?)),
            Err(_) => Err(io::Error::from_raw_os_error(NO_TEXT)),
        }
    }
}

/// What a recording of that name is called.
pub fn called(name: &[u8]) -> &[u8] {
    match name {
        b"-" => b"standard input",
        _ => name,
    }
}

impl Read for Source {
    fn read(&mut self, bytes: &mut [u8]) -> io::Result<usize> {
        match self {
            Source::Standard(stdin) => stdin.read(bytes),
            Source::Named(file) => file.read(bytes),
        }
    }
}
