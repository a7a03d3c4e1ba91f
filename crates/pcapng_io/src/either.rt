// A reader of a capture of either format.
ghost use Rattle.std.specs.Prelude.{◌≡◌, IfErr, IfOk};
ghost use Rattle.aftr_io.specs.Contents.{content, Told};
ghost use Rattle.aftr_io.specs.Outside.{OnlyReads};
ghost use Rattle.capture_io.specs.Answers.{is_read_fault};
ghost use Rattle.capture_io.specs.Refusals.{RefusesHeader};
ghost use Rattle.pcapng_io.specs.Either.{IsFresh, IsInHead, OpensEither, written_as};

use crate::NgReader;
use crate::reader::begins_section;
use aftr_base::OutOfMemory;
use aftr_io::{Reading, fill};
use capture_io::{
    CaptureError, CaptureReader, ClassicReader, Form, Records, Round, Window, Written,
};
use std::alloc::Global;

/// A reader of a capture: a file that begins as a pcapng file does is read as one, and every other file as a classic one.
#[derive(Drop)]
pub enum Reader {
    Classic(ClassicReader),
    Blocks(NgReader),
}

impl Reader {
    /// Reads the file header. What tells the format is not read again, so that the file may be a pipe. `ReadFault` comes only where a
    /// read of this file failed in this call: of a pcapng file before the end of the first interface's block, where there is one, and
    /// else at a place below 24.
    pub fn open<I: Reading>(
        alloc: Global,
        files: &mut I,
        name: &str,
    ) -> Result<Reader, CaptureError>
        ensures told { Told (I.readable files.old).held (λ m. OpensEither result (content m name.now)) }
        ensures refused { IfErr result RefusesHeader }
        ensures fresh { IfOk result IsFresh }
        ensures ready { IfOk result (λ reader. ⟦<Reader as CaptureReader>⟧.ready reader 0) }
        ensures reads { OnlyReads (is_read_fault result) name.now (IsInHead (I.readable files.old).held name.now)
            (I.readable files.old) (I.readable files.new) }
    {
        let mut first = [0; 4];
        let count = fill(alloc, files, name, 0, &mut first)?;
        let first = &first[..count];
        if begins_section(first) {
            let window = match Window::with(alloc, first) {
                Ok(window) => window,
                Err(_) => return Err(CaptureError::OutOfMemory),
            };
            let reader = NgReader::open_behind(alloc, files, name, window)?;
            return Ok(Reader::Blocks(reader));
        }
        let reader = ClassicReader::open_behind(alloc, files, name, first)?;
        Ok(Reader::Classic(reader))
    }

    /// The form in which packets are written for such a capture: its own, in the same resolution.
    pub fn written(&self) -> Written
        ensures { result ≡ written_as self.now }
    {
        match self {
            Reader::Classic(reader) => Written::Classic {
                nano: reader.form().nano,
            },
            Reader::Blocks(_) => Written::Blocks,
        }
    }
}

impl CaptureReader for Reader {
    ghost use Rattle.pcapng_io.specs.Either.{form_either, left_either, place_either, ready_either, stands_either};

    ghost stands = { stands_either };

    ghost left = { left_either };

    ghost at = { place_either };

    ghost ready = { ready_either };

    ghost form = { form_either };

    fn form(&self) -> Form {
        match self {
            Reader::Classic(reader) => reader.form(),
            Reader::Blocks(reader) => reader.form(),
        }
    }

    fn read_round<I: Reading>(
        &mut self,
        alloc: Global,
        files: &mut I,
        name: &str,
        number: u32,
        most_bytes: usize,
        room: Records,
    ) -> Result<Round, OutOfMemory> {
        match self {
            Reader::Classic(reader) => {
                reader.read_round(alloc, files, name, number, most_bytes, room)
            }
            Reader::Blocks(reader) => {
                reader.read_round(alloc, files, name, number, most_bytes, room)
            }
        }
    }

    fn one_left() {
        <ClassicReader as CaptureReader>::one_left();
        <NgReader as CaptureReader>::one_left();
    }

    fn some_left() {
        <ClassicReader as CaptureReader>::some_left();
        <NgReader as CaptureReader>::some_left();
    }
}
