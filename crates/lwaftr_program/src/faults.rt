// What a status says of the last call that failed, of the half that it is about.
use aftr_base::{OutOfMemory, Text};
use aftr_io::{ReadError, WriteError};
use aftr_text::{output_line, unread_line, unwritten_line};
use std::alloc::Global;
use std::io;

/// What the system said of the files that are read, of those that are written, and of standard output: each of the last call that failed.
#[derive(Clone, Copy)]
pub struct Said<'a> {
    pub reading: Option<&'a ReadError>,
    pub writing: Option<&'a WriteError>,
    pub sink: Option<io::Error>,
}

/// The file that could not be read, and why: with the place of the read, if that is not the first byte.
pub(crate) fn read_line(alloc: Global, said: Said<'_>) -> Result<Text, OutOfMemory> {
    match said.reading {
        Some(last) => unread_line(alloc, last),
        None => Ok(Text::of(String::new(alloc))),
    }
}

/// What could not be made or written, a file or standard output, and why.
pub(crate) fn write_line(alloc: Global, said: Said<'_>) -> Result<Text, OutOfMemory> {
    if let Some(error) = said.sink {
        return output_line(alloc, error);
    }
    match said.writing {
        Some(last) => unwritten_line(alloc, last),
        None => Ok(Text::of(String::new(alloc))),
    }
}
