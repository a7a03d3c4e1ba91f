// The words of an area.
ghost use Rattle.std.specs.Prelude.{◌≡◌, ◌<◌, ◌≤◌, List, IfOk, length, slice_index, slice_set};
ghost use Rattle.swap_core.specs.States.{row_of};

use aftr_base::OutOfMemory;
use std::alloc::Global;
use std::marker::Model;

/// A row of words of fixed length.
#[derive(Debug, Drop)]
pub(crate) struct Row {
    words: Vec<u64>,
}

impl Model for Row {
    ghost use Rattle.std.specs.Prelude.{ℕ, List};

    ghost Value = { List ℕ };

    ghost view = { λ r. r.words.items };
}

impl Row {
    /// So many words: those at the front, and zeros after them.
    pub(crate) fn of(alloc: Global, front: &[u64], size: usize) -> Result<Row, OutOfMemory>
        requires { length front.now ≤ size }
        ensures { IfOk result (λ row. row ≡ row_of size front.now) }
    {
        let mut words = Vec::with_capacity(alloc, size)?;
        words.extend_from_slice(front)?;
        words.resize(size, 0)?;
        Ok(Row { words })
    }

    pub(crate) fn get(&self, place: usize) -> u64
        requires { place < length self.now }
        ensures { result ≡ slice_index self.now place }
    {
        self.words[place]
    }

    pub(crate) fn set(&mut self, place: usize, word: u64)
        requires { place < length self.old }
        ensures { self.new ≡ slice_set self.old place word }
    {
        self.words[place] = word;
    }
}
