// Tables of words.
ghost use Rattle.std.specs.Prelude.{◌≡◌, IfOk, replicate};

use aftr_base::{OutOfMemory, WordList};
use std::alloc::Global;

/// A table of so many words, each of them the same.
pub fn table(alloc: Global, count: usize, word: u64) -> Result<WordList, OutOfMemory>
    ensures { IfOk result (λ words. words ≡ replicate count word) }
{
    let mut list = Vec::new(alloc);
    list.resize(count, word)?;
    Ok(WordList::of(list))
}
