// Questions about a table file, each answered by one line.
ghost use Rattle.std.specs.Prelude.{◌≡◌, ◌++◌, ℕ, ◌<◌, IfOk, codes, decimal, length};
ghost use Rattle.aftr_io.specs.Contents.{Told, content};
ghost use Rattle.aftr_io.specs.Outside.{Rises, Written as WrittenFiles};
ghost use Rattle.binding_rules.specs.Bindings.{bound};
ghost use Rattle.binding_rules.specs.Tables.{BindingTable};
ghost use Rattle.binding_rules.specs.declared.binding.Want.TheVariants as want;
ghost use Rattle.lwaftr_engine.specs.Causes.{HasOneCause};
ghost use Rattle.lwaftr_engine.specs.Answered.{IsOwnerText, Puts, is_unput};
ghost use Rattle.lwaftr_engine.specs.Questions.{Answers, FailedIn, IsComplete, IsLineOf, IsOwnerLine, IsValidLine, RefusesAs, valid_text};
ghost use Rattle.lwaftr_engine.specs.Worlds.{world};
ghost use Rattle.table_words.specs.Answers.{first_b4};
ghost use Rattle.table_words.specs.Layout.{AreCompiled, IsCompiled};

use crate::status::Status;
use crate::table_file::{NoTable, table_in};
use addr_text::write_v6;
use aftr_base::{OutOfMemory, Text, V4, V6};
use aftr_io::{Fault, Reading, Sink, put_all};
use binding_file::one_table;
use binding_rules::Want;
use std::alloc::Global;
use std::marker::Brand;
use std::sync::ledger::{Blank, Ledger};
use table_words::{SliceWords, Steps, compile, look};

/// Says whether a table file is valid: puts `valid N bindings` and a line feed, or answers `BadTable` with the first thing
/// that is wrong. It writes no file.
pub fn check_table<I: Reading, S: Sink>(
    alloc: Global,
    name: &str,
    files: &mut I,
    out: &mut S,
) -> Status
    ensures held { (I.readable files.new).held ≡ (I.readable files.old).held }
    ensures line { Answers (λ line. IsLineOf IsValidLine (I.readable files.old).held name.now line) result (S.out out.old) (S.out out.new) }
    ensures refused { Told (I.readable files.old).held (λ m. RefusesAs (content m name.now) result) }
    ensures cause { (writing : WrittenFiles) → HasOneCause result (world (I.readable files.old) writing (S.out out.old) (S.faults out.old))
        (world (I.readable files.new) writing (S.out out.new) (S.faults out.new)) }
    ensures failed_read { FailedIn name.now result (I.readable files.old).last (I.readable files.new).last }
    ensures complete { (writing : WrittenFiles) → Told (I.readable files.old).held (λ m. IsComplete (content m name.now) result
        (world (I.readable files.old) writing (S.out out.old) (S.faults out.old))
        (world (I.readable files.new) writing (S.out out.new) (S.faults out.new))) }
{
    // A law, and no step: a table file has one answer.
    one_table();
    let table = match table_in(alloc, files, name) {
        Ok(table) => table,
        Err(NoTable::ReadFault) => return Status::ReadFault,
        Err(NoTable::Refused(refusal)) => return Status::BadTable(refusal),
        Err(NoTable::OutOfMemory) => return Status::OutOfMemory,
    };
    match valid_line(alloc, table.bindings().len()) {
        Ok(line) => put_line(alloc, out, line.as_slice()),
        Err(OutOfMemory) => Status::OutOfMemory,
    }
}

/// Says who owns a port of an address under the table of a file: puts the end of the tunnel in its canonical text (RFC 5952,
/// section 4), or `none`, and a line feed. A refused file is answered as by `check_table`. It writes no file.
pub fn who_owns<I: Reading, S: Sink>(
    alloc: Global,
    name: &str,
    v4: V4,
    port: u16,
    files: &mut I,
    out: &mut S,
) -> Status
    ensures held { (I.readable files.new).held ≡ (I.readable files.old).held }
    ensures line { Answers (λ line. IsLineOf (IsOwnerLine v4 port) (I.readable files.old).held name.now line) result (S.out out.old) (S.out out.new) }
    ensures refused { Told (I.readable files.old).held (λ m. RefusesAs (content m name.now) result) }
    ensures cause { (writing : WrittenFiles) → HasOneCause result (world (I.readable files.old) writing (S.out out.old) (S.faults out.old))
        (world (I.readable files.new) writing (S.out out.new) (S.faults out.new)) }
    ensures failed_read { FailedIn name.now result (I.readable files.old).last (I.readable files.new).last }
    ensures complete { (writing : WrittenFiles) → Told (I.readable files.old).held (λ m. IsComplete (content m name.now) result
        (world (I.readable files.old) writing (S.out out.old) (S.faults out.old))
        (world (I.readable files.new) writing (S.out out.new) (S.faults out.new))) }
{
    // A law, and no step: a table file has one answer.
    one_table();
    let table = match table_in(alloc, files, name) {
        Ok(table) => table,
        Err(NoTable::ReadFault) => return Status::ReadFault,
        Err(NoTable::Refused(cause)) => return Status::BadTable(cause),
        Err(NoTable::OutOfMemory) => return Status::OutOfMemory,
    };
    let words = match compile(alloc, &table) {
        Ok(words) => words,
        Err(OutOfMemory) => return Status::OutOfMemory,
    };
    let owner = owner_in::<Brand>(words.as_slice(), v4, port, Blank::new(1));
    match owner_line(alloc, owner) {
        Ok(line) => put_line(alloc, out, line.as_slice()),
        Err(OutOfMemory) => Status::OutOfMemory,
    }
}

// The end of the tunnel of the port's owner, under the table whose words these are.
fn owner_in<L: Ledger>(words: &[u64], v4: V4, port: u16, blank: Blank) -> Option<V6>
    requires compiled { AreCompiled words.now }
    requires name { blank.name ≡ L.name }
    requires parts { blank.parts ≡ L.parts }
    requires some { 0 < blank.parts }
    ensures { (t : BindingTable) → IsCompiled t words.now → result ≡ first_b4 (bound t.bindings v4 (want.Port port)) }
{
    let mut steps = Steps::<L>::start(blank);
    look(&mut SliceWords(words), v4, Want::Port(port), &mut steps)
}

// The line of a file with so many bindings.
fn valid_line(alloc: Global, count: usize) -> Result<Text, OutOfMemory>
    ensures { IfOk result (λ line. line ≡ valid_text count) }
{
    Ok(Text::of(format!(in alloc; "valid {count} bindings\n")?))
}

// The line of the port's owner.
fn owner_line(alloc: Global, owner: Option<V6>) -> Result<Text, OutOfMemory>
    ensures { IfOk result (IsOwnerText owner) }
{
    let Some(b4) = owner else {
        return Text::copy(alloc, "none\n");
    };
    let mut line = String::from_str(alloc, write_v6(b4).as_str())?;
    line.push_str("\n")?;
    Ok(Text::of(line))
}

/// Puts a line.
pub fn put_line<S: Sink>(alloc: Global, out: &mut S, line: &[u8]) -> Status
    ensures puts { Puts result line.now (S.out out.old) (S.out out.new) }
    ensures faults { Rises (is_unput result) (S.faults out.old) (S.faults out.new) }
{
    match put_all(alloc, out, line) {
        Ok(()) => Status::Done,
        Err(Fault::Failed) => Status::WriteFault,
        Err(Fault::OutOfMemory) => Status::OutOfMemory,
    }
}
