// The files of loads, turned into loads side by side.
ghost use Rattle.std.specs.Prelude.{IfOk, List, [], ◌∷◌, ◌++◌, Ok};
ghost use Rattle.std.specs.List.{AllZip};
ghost use Rattle.load_files.specs.Texts.{IsLoadOfFile, IsLoadedAs, IsSaidBy};
ghost use Rattle.load_files.specs.declared.files.LoadFile.{LoadFile};

use aftr_base::{Bytes, OutOfMemory};
use binding_file::{FileError, read_table};
use binding_rules::Table;
use reload_plan::{Load, Loaded};
use std::alloc::Global;
use std::snapshot::Snapshot;
use std::thread::{Builder, Promise, Threads};
use swap_core::Window;
use table_words::compile;

/// The stack of a thread that turns a text into a load, in bytes. The tree of a text is made and let go of by recursion, so what
/// the system gives a thread may be too little.
const STACK: usize = 4_194_304;

/// A load's file.
#[derive(Debug, Drop)]
pub struct LoadFile {
    /// When its table comes into force.
    pub window: Window,
    /// Its bytes, or as many of them as show that it is too big.
    pub text: Bytes,
}

// What a thread gives back that was handed this file.
#[derive(Drop)]
struct LoadOf(Snapshot<LoadFile>);

impl Promise<Result<Load, OutOfMemory>> for LoadOf {
    ghost kept_by = { λ p r. IfOk r (IsLoadOfFile p.0.value) };
}

/// The loads of these files, in their order. Each text is read, judged and compiled by itself: the first in this thread, and each
/// other one in a new thread beside it, or in this one where no thread can be made. Text and tree are let go of where the words
/// are made. Want of memory for one of them is want of memory for all, told once no thread is left.
pub fn loads_of<R: Threads>(
    rt: &R,
    alloc: Global,
    mut files: Vec<LoadFile>,
) -> Result<Vec<Load>, OutOfMemory>
    ensures { IfOk result (λ loads. AllZip IsLoadOfFile files.items loads.items) }
{
    let Some(last) = files.pop() else {
        return Ok(Vec::new(alloc));
    };
    if files.is_empty() {
        return behind(Ok(Vec::new(alloc)), load_of(alloc, last));
    }
    let promise = LoadOf(Snapshot::of(&last));
    match Builder::new()
        .stack_size(STACK)
        .spawn_with(rt, promise, move || load_of(alloc, last))
    {
        Ok(thread) => {
            let before = loads_of(rt, alloc, files);
            let load = thread.join(rt);
            behind(before, load)
        }
        Err(refused) => {
            let before = loads_of(rt, alloc, files);
            let load = (refused.value)();
            behind(before, load)
        }
    }
}

// One load more.
fn behind(
    before: Result<Vec<Load>, OutOfMemory>,
    last: Result<Load, OutOfMemory>,
) -> Result<Vec<Load>, OutOfMemory>
    ensures { (files : List LoadFile) (file : LoadFile) → IfOk before (λ loads. AllZip IsLoadOfFile files loads.items) → IfOk last (IsLoadOfFile file) →
        IfOk result (λ loads. AllZip IsLoadOfFile (files ++ file ∷ []) loads.items) }
{
    let mut loads = before?;
    loads.push(last?)?;
    Ok(loads)
}

// The load of a file.
fn load_of(alloc: Global, file: LoadFile) -> Result<Load, OutOfMemory>
    ensures { IfOk result (IsLoadOfFile file) }
{
    let LoadFile { window, text } = file;
    let loaded = loaded_of(alloc, text)?;
    Ok(Load { window, loaded })
}

// What a text says.
fn loaded_of(alloc: Global, text: Bytes) -> Result<Loaded, OutOfMemory>
    ensures { IfOk result (IsSaidBy text) }
{
    let read = read_table(alloc, text.as_slice());
    drop(text);
    match read {
        Ok(table) => words_of(alloc, &table),
        Err(FileError::Refused(refusal)) => Ok(Loaded::Refused(refusal)),
        Err(FileError::OutOfMemory) => Err(OutOfMemory),
    }
}

// The words of a table.
fn words_of(alloc: Global, table: &Table) -> Result<Loaded, OutOfMemory>
    ensures { IfOk result (IsLoadedAs (Ok table.now)) }
{
    Ok(Loaded::Words(compile(alloc, table)?))
}
