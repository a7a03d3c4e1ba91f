// The loads of a run, read from their files.
ghost use Rattle.std.specs.Prelude.{◌≡◌, ◌≤◌, IfOk, map};
ghost use Rattle.std.specs.List.{AllZip};
ghost use Rattle.aftr_io.specs.Contents.{Told};
ghost use Rattle.aftr_io.specs.Outside.{OnlyReads, has_failed};
ghost use Rattle.lwaftr_engine.specs.Loads.{AreFitFor, AreLoadsOf, HasWindowOf, IsFileOf, OnlyReadsAmong};

use crate::table_file::{ENOUGH, file_front};
use aftr_base::OutOfMemory;
use aftr_io::{Fault, Reading};
use aftr_text::LoadWords;
use load_files::{LoadFile, loads_of};
use reload_plan::Load;
use std::alloc::Global;
use std::thread::Threads;

/// The loads of these words, each with the words of its table or with the reason why its file is none, in their order. As many
/// files as there are workers are read one after another, and then turned into loads side by side: no more texts are held at a
/// time, and no more threads are at work. A fault of reading is told as it comes, whatever the files read before it hold.
pub fn loads_in<R: Threads, I: Reading>(
    rt: &R,
    alloc: Global,
    files: &mut I,
    words: &[LoadWords],
    workers: u32,
) -> Result<Vec<Load>, Fault>
    requires some_one { 1 ≤ workers }
    ensures loads { IfOk result (λ loads. Told (I.readable files.old).held (λ m. AreLoadsOf m words.now loads.items)) }
    ensures fit { IfOk result (λ loads. AreFitFor words.now loads.items) }
    ensures reads { OnlyReadsAmong (has_failed result) (map (λ load. load.name) words.now) (I.readable files.old) (I.readable files.new) }
{
    let mut loads = Vec::with_capacity(alloc, words.len())?;
    let mut at = 0;
    'batches: while at < words.len() {
        let count = (words.len() - at).min(workers as usize);
        let mut batch = batch_in(rt, alloc, files, &words[at..at + count])?;
        loads.append(&mut batch)?;
        at += count;
    }
    Ok(loads)
}

// The loads of so few words that all their files are read before any text is judged.
fn batch_in<R: Threads, I: Reading>(
    rt: &R,
    alloc: Global,
    files: &mut I,
    words: &[LoadWords],
) -> Result<Vec<Load>, Fault>
    ensures loads { IfOk result (λ loads. Told (I.readable files.old).held (λ m. AreLoadsOf m words.now loads.items)) }
    ensures fit { IfOk result (λ loads. AreFitFor words.now loads.items) }
    ensures reads { OnlyReadsAmong (has_failed result) (map (λ load. load.name) words.now) (I.readable files.old) (I.readable files.new) }
{
    let read = files_in(alloc, files, words)?;
    match loads_of(rt, alloc, read) {
        Ok(loads) => Ok(loads),
        Err(OutOfMemory) => Err(Fault::OutOfMemory),
    }
}

// The files of these words, in their order.
fn files_in<I: Reading>(
    alloc: Global,
    files: &mut I,
    words: &[LoadWords],
) -> Result<Vec<LoadFile>, Fault>
    ensures texts { IfOk result (λ read. Told (I.readable files.old).held (λ m. AllZip (IsFileOf m) words.now read.items)) }
    ensures windows { IfOk result (λ read. AllZip HasWindowOf words.now read.items) }
    ensures reads { OnlyReadsAmong (has_failed result) (map (λ load. load.name) words.now) (I.readable files.old) (I.readable files.new) }
{
    let mut read = Vec::with_capacity(alloc, words.len())?;
    let mut at = 0;
    'files: while at < words.len() {
        let file = file_in(alloc, files, &words[at])?;
        read.push(file)?;
        at += 1;
    }
    Ok(read)
}

// One of them.
fn file_in<I: Reading>(alloc: Global, files: &mut I, words: &LoadWords) -> Result<LoadFile, Fault>
    ensures text { IfOk result (λ file. Told (I.readable files.old).held (λ m. IsFileOf m words.now file)) }
    ensures window { IfOk result (HasWindowOf words.now) }
    ensures reads { OnlyReads (has_failed result) words.now.name (λ _. Unit {0}) (I.readable files.old) (I.readable files.new) }
{
    let text = file_front(alloc, files, words.name.as_str(), ENOUGH)?;
    Ok(LoadFile {
        window: words.window,
        text,
    })
}
