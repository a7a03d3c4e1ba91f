// A table file is written anew in the newer edition.
ghost use Rattle.std.specs.Prelude.{◌≡◌, ◌≢◌, ◌≤◌, IfOk, Ok};
ghost use Rattle.aftr_io.specs.Contents.{Moves, Told, content};
ghost use Rattle.aftr_io.specs.Outside.{Rises};
ghost use Rattle.aftr_text.specs.Lines.{migrated_text};
ghost use Rattle.binding_file.specs.Files.{TextOf};
ghost use Rattle.binding_rules.specs.Tables.{BindingTable};
ghost use Rattle.lwaftr_engine.specs.Answered.{Puts, is_unput};
ghost use Rattle.lwaftr_engine.specs.Causes.{HasOneCause};
ghost use Rattle.lwaftr_engine.specs.Migrations.{IsMigratedLine, LeavesMigrated, in_edition_two};
ghost use Rattle.lwaftr_engine.specs.Questions.{Answers, FailedIn, IsComplete, RefusesAs};
ghost use Rattle.lwaftr_engine.specs.Worlds.{world};

use crate::queries::put_line;
use crate::status::Status;
use crate::table_file::{NoTable, table_in};
use aftr_base::{OutOfMemory, Text};
use aftr_io::{Fault, Outside, Reading, Sink, Writing, append_all};
use aftr_text::migrated_line;
use binding_file::{one_table, write_table};
use binding_rules::Table;
use std::alloc::Global;

/// Reads the table of a file, writes it in the newer edition to another one, which is made for it, and puts
/// `migrated N bindings` and a line feed. A refused file is answered as by `check_table`.
pub fn migrate<I: Reading, O: Writing, S: Sink>(
    alloc: Global,
    input: &str,
    output: &str,
    files: &mut Outside<I, O>,
    out: &mut S,
) -> Status
    ensures files { Told (I.readable files.old.reading).held (λ inputs. Moves (O.written files.old.writing).held (O.written files.new.writing).held
        (LeavesMigrated input.now output.now result
        (world (I.readable files.old.reading) (O.written files.old.writing) (S.out out.old) (S.faults out.old))
        (world (I.readable files.new.reading) (O.written files.new.writing) (S.out out.new) (S.faults out.new)) inputs)) }
    ensures read_kept { (I.readable files.new.reading).held ≡ (I.readable files.old.reading).held }
    ensures line { Answers IsMigratedLine result (S.out out.old) (S.out out.new) }
    ensures refused { Told (I.readable files.old.reading).held (λ m. RefusesAs (content m input.now) result) }
    ensures cause { HasOneCause result (world (I.readable files.old.reading) (O.written files.old.writing) (S.out out.old) (S.faults out.old))
        (world (I.readable files.new.reading) (O.written files.new.writing) (S.out out.new) (S.faults out.new)) }
    ensures failed_read { FailedIn input.now result (I.readable files.old.reading).last (I.readable files.new.reading).last }
    ensures complete { Told (I.readable files.old.reading).held (λ m. IsComplete (content m input.now) result
        (world (I.readable files.old.reading) (O.written files.old.writing) (S.out out.old) (S.faults out.old))
        (world (I.readable files.new.reading) (O.written files.new.writing) (S.out out.new) (S.faults out.new))) }
{
    // A law, and no step: a table file has one answer.
    one_table();
    let reading = &mut files.reading;
    let writing = &mut files.writing;
    let table = match table_in(alloc, reading, input) {
        Ok(table) => table,
        Err(NoTable::ReadFault) => return Status::ReadFault,
        Err(NoTable::Refused(refusal)) => return Status::BadTable(refusal),
        Err(NoTable::OutOfMemory) => return Status::OutOfMemory,
    };
    let count = table.bindings().len();
    let Ok(text) = newer_text(alloc, table) else {
        return Status::OutOfMemory;
    };
    match writing.create(alloc, output) {
        Ok(()) => {}
        Err(Fault::Failed) => return Status::WriteFault,
        Err(Fault::OutOfMemory) => return Status::OutOfMemory,
    }
    match append_all(alloc, writing, output, text.as_str().as_bytes()) {
        Ok(()) => {}
        Err(Fault::Failed) => return Status::WriteFault,
        Err(Fault::OutOfMemory) => return Status::OutOfMemory,
    }
    put_count(alloc, out, count)
}

// The table's text in the newer edition.
fn newer_text(alloc: Global, table: Table) -> Result<Text, OutOfMemory>
    ensures { IfOk result (λ text. TextOf text (Ok (in_edition_two table))) }
{
    let newer = table.into_edition_two();
    write_table(alloc, &newer)
}

// Puts the line of so many bindings.
fn put_count<S: Sink>(alloc: Global, out: &mut S, count: usize) -> Status
    requires { count ≤ 65536 }
    ensures puts { Puts result (migrated_text count) (S.out out.old) (S.out out.new) }
    ensures faults { Rises (is_unput result) (S.faults out.old) (S.faults out.new) }
{
    match migrated_line(alloc, count as u32) {
        Ok(line) => put_line(alloc, out, line.as_str().as_bytes()),
        Err(OutOfMemory) => Status::OutOfMemory,
    }
}
