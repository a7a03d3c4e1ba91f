// A table, read from a file.
ghost use Rattle.std.specs.Prelude.{◌≡◌, ◌<◌, ◌≤◌, ◌+◌, ◌^◌, IfOk, IfErr, Ok, length, take, drop};
ghost use Rattle.aftr_io.specs.Contents.{content, Told};
ghost use Rattle.aftr_io.specs.Outside.{OnlyReads, has_failed};
ghost use Rattle.binding_file.specs.Files.{TableOf};
ghost use Rattle.lwaftr_engine.specs.Answered.{IsNoTable, is_unread};

use aftr_base::Bytes;
use aftr_io::{Fault, Reading, bytes_at};
use binding_file::{FileError, FileRefused, read_table};
use binding_rules::Table;
use std::alloc::Global;

/// How many bytes are enough to judge a table file: one more than it may have.
pub const ENOUGH: usize = 16_777_217;

/// How many bytes are asked for at first.
const PIECE: usize = 65_536;

/// Why there is no table.
#[derive(Clone, Copy, Debug)]
pub enum NoTable {
    /// A read of the file failed.
    ReadFault,
    /// The file is no table, for this first reason.
    Refused(FileRefused),
    /// The allocator had no room.
    OutOfMemory,
}

/// The table that the file spells; a file that is not there holds no bytes. It is read from its start on, in pieces that
/// double, and never more of it than decides that it is too big: one byte more than 16,777,216.
pub fn table_in<I: Reading>(alloc: Global, files: &mut I, name: &str) -> Result<Table, NoTable>
    ensures table { IfOk result (λ t. Told (I.readable files.old).held (λ m. TableOf (content m name.now) (Ok t))) }
    ensures refused { IfErr result (λ why. Told (I.readable files.old).held (λ m. IsNoTable (content m name.now) why)) }
    ensures reads { OnlyReads (is_unread result) name.now (λ _. Unit {0}) (I.readable files.old) (I.readable files.new) }
{
    let bytes = match file_front(alloc, files, name, ENOUGH) {
        Ok(bytes) => bytes,
        Err(Fault::Failed) => return Err(NoTable::ReadFault),
        Err(Fault::OutOfMemory) => return Err(NoTable::OutOfMemory),
    };
    match read_table(alloc, bytes.as_slice()) {
        Ok(table) => Ok(table),
        Err(FileError::Refused(refusal)) => Err(NoTable::Refused(refusal)),
        Err(FileError::OutOfMemory) => Err(NoTable::OutOfMemory),
    }
}

/// The first bytes of a file, at most so many, in pieces that double.
pub fn file_front<I: Reading>(
    alloc: Global,
    files: &mut I,
    name: &str,
    most: usize,
) -> Result<Bytes, Fault>
    requires { most ≤ 2 ^ 32 }
    ensures bytes { IfOk result (λ bytes. Told (I.readable files.old).held (λ m. bytes ≡ take most (content m name.now))) }
    ensures reads { OnlyReads (has_failed result) name.now (λ place. place < most) (I.readable files.old) (I.readable files.new) }
{
    let mut list = Vec::new(alloc);
    'pieces: while list.len() < most {
        let have = list.len();
        let count = (most - have).min(PIECE.max(have));
        let piece = bytes_at(alloc, files, name, have as u64, count)?;
        let bytes = piece.as_slice();
        list.extend_from_slice(bytes)?;
        if bytes.len() < count {
            return Ok(Bytes::of(list));
        }
    }
    Ok(Bytes::of(list))
}
