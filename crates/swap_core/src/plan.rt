// The tables that come into force one after another, and when each may.
ghost use Rattle.std.specs.Prelude.{◌≡◌, ◌≤◌, ◌<◌, [], ◌∷◌, IfOk, is_ok, if◌then◌else◌, length};
ghost use Rattle.swap_core.specs.Plans.{IsPlan, IsTableSize, MayFollow, limit as limit_of, longer, table};
ghost use Rattle.swap_core.specs.Plans.{threshold as threshold_of, window as window_of, width};

use aftr_base::{OutOfMemory, WordList};
use std::alloc::Global;
use std::marker::Model;

/// How many records may have been drawn when a table comes into force: at least the first, at most the second.
#[derive(Clone, Copy, Debug, PartialEq, Eq)]
pub struct Window {
    pub earliest: u32,
    pub latest: u32,
}

/// At least one and at most 256 tables, each of 1 to 2^24 words, and a window for each but the first. In each window
/// `earliest <= latest <= 2^31`, and neither falls from one window to the next.
#[derive(Debug, Drop)]
pub struct Plan {
    tables: Vec<WordList>,
    windows: Vec<Window>,
}

impl Model for Plan {
    ghost use Rattle.swap_core.specs.Plans.{IsPlan, Tables};

    ghost Value = { Tables };

    ghost view = { λ p. record { tables = p.tables.items; windows = p.windows.items } };

    ghost invariant = { λ p. IsPlan (record { tables = p.tables.items; windows = p.windows.items }) };
}

impl Plan {
    /// The plan of one table.
    pub fn of(alloc: Global, first: WordList) -> Result<Plan, OutOfMemory>
        requires { IsTableSize first }
        ensures { IfOk result (λ plan. plan ≡ record { tables = first ∷ []; windows = [] }) }
    {
        let mut tables = Vec::new(alloc);
        tables.push(first)?;
        Ok(Plan {
            tables,
            windows: Vec::new(alloc),
        })
    }

    /// One table more, for the end. After want of memory the plan is as before.
    pub fn add(&mut self, window: Window, words: WordList) -> Result<(), OutOfMemory>
        requires { MayFollow self.old window words }
        ensures { self.new ≡ (if is_ok result then longer self.old window words else self.old) }
    {
        self.windows.reserve(1)?;
        self.tables.push(words)?;
        self.windows.push_reserved(window);
        Ok(())
    }

    /// The most records that may be drawn while the version is in force: the `latest` of the window after it, or 2^31
    /// where there is none.
    pub fn limit(&self, version: u32) -> u32
        ensures { result ≡ limit_of self.now version }
    {
        let next = version as usize;
        if next < self.windows.len() {
            self.windows[next].latest
        } else {
            1 << 31
        }
    }

    /// The fewest records that have to be drawn before another version may follow this one: the `earliest` of the window after
    /// it, or 2^31 where there is none.
    pub fn threshold(&self, version: u32) -> u32
        ensures { result ≡ threshold_of self.now version }
    {
        let next = version as usize;
        if next < self.windows.len() {
            self.windows[next].earliest
        } else {
            1 << 31
        }
    }

    /// The number of tables.
    pub fn len(&self) -> u32
        ensures value { result ≡ length self.now.tables }
        ensures rules { IsPlan self.now }
    {
        self.tables.len() as u32
    }

    /// The words of table k.
    pub fn words(&self, k: u32) -> &[u64]
        requires { k < length self.now.tables }
        ensures { result.now ≡ table self.now k }
    {
        self.tables[k as usize].as_slice()
    }

    /// Window k, which belongs to table k.
    pub fn window(&self, k: u32) -> Window
        requires counted_from_one { 1 ≤ k }
        requires in_range { k < length self.now.tables }
        ensures { result ≡ window_of self.now k }
    {
        self.windows[k as usize - 1]
    }

    /// The length of the longest table.
    pub fn width(&self) -> usize
        ensures value { result ≡ width self.now }
        ensures small { result ≤ 16777216 }
    {
        let mut longest = 0;
        'tables: for table in &self.tables {
            longest = longest.max(table.as_slice().len());
        }
        longest
    }
}
