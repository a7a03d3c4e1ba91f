// Named lists of bytes in memory, seen as the map from names to bytes.
ghost use Rattle.std.specs.Prelude.{◌≡◌, ◌↔◌, ◌<◌, ◌++◌, IsTrue, IfOk, OnOk, OnErr, MatchOption};
ghost use Rattle.std.specs.Option.{option_copied};
ghost use Rattle.std.specs.FinMap as map;
ghost use Rattle.aftr_io.specs.Contents.{content, Writes};
ghost use Rattle.aftr_io.specs.Entries.{IsFirstOf, HasNoneOf};

use std::alloc::{AllocError, Global};
use std::marker::Model;

#[derive(Drop)]
struct Entry {
    name: String,
    bytes: Vec<u8>,
}

impl Model for Entry {
    ghost use Rattle.std.specs.Prelude.{ℕ, List, string_bytes};

    ghost Value = { List ℕ × List ℕ };

    ghost view = { λ entry. (string_bytes entry.name, entry.bytes.items) };
}

impl Entry {
    fn copy(alloc: Global, name: &str, bytes: &[u8]) -> Result<Entry, AllocError>
        ensures { IfOk result (λ entry. entry ≡ (name.now, bytes.now)) }
    {
        Ok(Entry {
            name: String::from_str(alloc, name)?,
            bytes: Vec::from_slice(alloc, bytes)?,
        })
    }

    fn is_named(&self, name: &str) -> bool
        ensures { IsTrue result ↔ (self.now.0 ≡ name.now) }
    {
        self.name.as_bytes() == name.as_bytes()
    }

    fn bytes(&self) -> &[u8]
        ensures { result.now ≡ self.now.1 }
    {
        &self.bytes
    }

    fn append(&mut self, bytes: &[u8]) -> Result<(), AllocError>
        ensures ok { OnOk result (self.new ≡ (self.old.0, self.old.1 ++ bytes.now)) }
        ensures err { OnErr result (self.new ≡ self.old) }
    {
        self.bytes.extend_from_slice(bytes)
    }
}

fn place(list: &[Entry], name: &str) -> Option<usize>
    ensures { MatchOption result (HasNoneOf list.now name.now) (IsFirstOf list.now name.now) }
{
    'entries: for (index, entry) in list.iter().enumerate() {
        if entry.is_named(name) {
            return Some(index);
        }
    }
    None
}

#[derive(Drop)]
pub struct Shelf {
    list: Vec<Entry>,
}

impl Model for Shelf {
    ghost use Rattle.std.specs.FinMap.{from_entries};
    ghost use Rattle.aftr_io.specs.Contents.{Contents, contents_code};

    ghost Value = { Contents };

    ghost coded = { contents_code };

    ghost view = { λ shelf. from_entries shelf.list.items };
}

impl Shelf {
    pub fn new(alloc: Global) -> Shelf
        ensures { result ≡ map.empty }
    {
        Shelf {
            list: Vec::new(alloc),
        }
    }

    pub fn get(&self, name: &str) -> Option<&[u8]>
        ensures { option_copied result ≡ map.get self.now name.now }
    {
        match place(&self.list, name) {
            Some(index) => Some(self.list[index].bytes()),
            None => None,
        }
    }

    pub fn set(&mut self, alloc: Global, name: &str, bytes: &[u8]) -> Result<(), AllocError>
        ensures ok { OnOk result (self.new ≡ map.insert self.old name.now bytes.now) }
        ensures writes { OnOk result (Writes self.old self.new name.now bytes.now) }
        ensures err { OnErr result (self.new ≡ self.old) }
    {
        let entry = Entry::copy(alloc, name, bytes)?;
        match place(&self.list, name) {
            Some(index) => self.list[index] = entry,
            None => self.list.push(entry)?,
        }
        Ok(())
    }

    pub fn append(&mut self, alloc: Global, name: &str, bytes: &[u8]) -> Result<(), AllocError>
        ensures ok { OnOk result (self.new
            ≡ map.insert self.old name.now (content self.old name.now ++ bytes.now)) }
        ensures writes { OnOk result (Writes self.old self.new name.now (content self.old name.now ++ bytes.now)) }
        ensures err { OnErr result (self.new ≡ self.old) }
    {
        match place(&self.list, name) {
            Some(index) => self.list[index].append(bytes)?,
            None => self.list.push(Entry::copy(alloc, name, bytes)?)?,
        }
        Ok(())
    }
}
