// What command words ask for.
use aftr_base::{Text, V4};
use std::marker::Model;
use swap_core::Window;
use thiserror::Error;

/// A job of the program.
#[derive(Debug, Drop)]
pub enum Job {
    /// The records of a capture are judged under tables.
    Run(RunJob),
    /// Whether a table file is valid.
    Check { name: Text },
    /// Whose a port of an address is under the table of a file.
    Who { name: Text, v4: V4, port: u16 },
    /// A run over a generated capture: `count` records, from 1 to 1,000,000, by 1 to 16 workers.
    Demo { seed: u64, count: u32, workers: u32 },
    /// A table file is written anew in the newer edition, under another name.
    Migrate { input: Text, output: Text },
}

/// The files of a run, by their names, and how it runs. No output has the name of another file of the run.
#[derive(Debug, Drop)]
pub struct RunJob {
    /// The capture that is read.
    pub input: Text,
    /// The capture of the packets sent.
    pub output: Text,
    /// One line for each record.
    pub verdicts: Text,
    /// One line for each table.
    pub versions: Text,
    /// The table file that is in force first.
    pub table: Text,
    /// At most 255 tables that replace it, one after another.
    pub loads: LoadList,
    /// From 1 to 16.
    pub workers: u32,
    /// How many errors are sent in a second of the capture's time, from 1 to 1,000,000; without it as many as there are.
    pub errors: Option<u32>,
}

/// A table that comes into force during a run: when, and the name of its file.
#[derive(Debug, Drop)]
pub struct LoadWords {
    /// Just before which record: `earliest <= latest <= 2^31`, and neither is less than that of the load before.
    pub window: Window,
    pub name: Text,
}

/// The loads of a run, in the order of the words.
#[derive(Debug, Drop)]
pub struct LoadList {
    list: Vec<LoadWords>,
}

impl Model for LoadList {
    ghost use Rattle.std.specs.Prelude.{List};
    ghost use Rattle.aftr_text.specs.declared.jobs.LoadWords.{LoadWords};

    ghost Value = { List LoadWords };

    ghost view = { λ t. t.list.items };
}

impl LoadList {
    ghost use Rattle.std.specs.Prelude.{◌≡◌};

    /// Takes the list as it is, with its allocator.
    pub fn of(list: Vec<LoadWords>) -> Self
        ensures { result ≡ list.items }
    {
        LoadList { list }
    }

    pub fn as_slice(&self) -> &[LoadWords]
        ensures { result.now ≡ self.now }
    {
        &self.list
    }

    /// Gives the list back, without taking memory.
    pub fn into_list(self) -> Vec<LoadWords>
        ensures { result.items ≡ self }
    {
        self.list
    }
}

/// Why command words gave no job.
#[derive(Clone, Copy, Debug, PartialEq, Eq, Error)]
pub enum UsageError {
    /// They ask for none.
    #[error("the words ask for no job")]
    Usage,
    #[error("out of memory")]
    OutOfMemory,
}
