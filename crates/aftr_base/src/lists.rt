// The lists that the crates hand to one another. Contracts see each as its list.
use std::alloc::{AllocError, AllocFailed, Global};
use std::marker::Model;

/// The allocator had no room. Nothing lent to the call has changed, unless the call says otherwise.
#[derive(Clone, Copy, Debug, PartialEq, Eq)]
pub struct OutOfMemory;

impl From<AllocError> for OutOfMemory {
    fn from(_: AllocError) -> Self {
        OutOfMemory
    }
}

impl<T: Drop> From<AllocFailed<T>> for OutOfMemory {
    fn from(_: AllocFailed<T>) -> Self {
        OutOfMemory
    }
}

/// Bytes: a packet, a payload, the captured bytes of a record.
#[derive(Debug, Drop)]
pub struct Bytes {
    list: Vec<u8>,
}

impl Model for Bytes {
    ghost use Rattle.std.specs.Prelude.{ℕ, List};

    ghost Value = { List ℕ };

    ghost view = { λ t. t.list.items };
}

impl Bytes {
    ghost use Rattle.std.specs.Prelude.{◌≡◌, IfOk};

    /// Takes the list as it is, with its allocator.
    pub fn of(list: Vec<u8>) -> Self
        ensures { result ≡ list.items }
    {
        Bytes { list }
    }

    /// The same bytes, in memory of their own.
    pub fn copy(alloc: Global, from: &[u8]) -> Result<Self, OutOfMemory>
        ensures { IfOk result (λ copy. copy ≡ from.now) }
    {
        Ok(Bytes {
            list: from.to_vec(alloc)?,
        })
    }

    pub fn as_slice(&self) -> &[u8]
        ensures { result.now ≡ self.now }
    {
        &self.list
    }

    /// Gives the list back, without taking memory.
    pub fn into_list(self) -> Vec<u8>
        ensures { result.items ≡ self }
    {
        self.list
    }
}

/// A text, in UTF-8.
#[derive(Debug, Drop)]
pub struct Text {
    text: String,
}

impl Model for Text {
    ghost use Rattle.std.specs.Prelude.{ℕ, List, string_bytes};

    ghost Value = { List ℕ };

    ghost view = { λ t. string_bytes t.text };
}

impl Text {
    ghost use Rattle.std.specs.Prelude.{◌≡◌, IfOk, string_bytes};

    /// Takes the text as it is, with its allocator.
    pub fn of(list: String) -> Self
        ensures { result ≡ string_bytes list }
    {
        Text { text: list }
    }

    /// The same text, in memory of its own.
    pub fn copy(alloc: Global, from: &str) -> Result<Self, OutOfMemory>
        ensures { IfOk result (λ copy. copy ≡ from.now) }
    {
        Ok(Text {
            text: String::from_str(alloc, from)?,
        })
    }

    pub fn as_slice(&self) -> &[u8]
        ensures { result.now ≡ self.now }
    {
        self.text.as_bytes()
    }

    pub fn as_str(&self) -> &str
        ensures { result.now ≡ self.now }
    {
        self.text.as_str()
    }

    /// Gives the text back, without taking memory.
    pub fn into_list(self) -> String
        ensures { string_bytes result ≡ self }
    {
        self.text
    }
}

/// Numbers, as those of records.
#[derive(Debug, Drop)]
pub struct Numbers {
    list: Vec<u32>,
}

impl Model for Numbers {
    ghost use Rattle.std.specs.Prelude.{ℕ, List};

    ghost Value = { List ℕ };

    ghost view = { λ t. t.list.items };
}

impl Numbers {
    ghost use Rattle.std.specs.Prelude.{◌≡◌};

    /// Takes the list as it is, with its allocator.
    pub fn of(list: Vec<u32>) -> Self
        ensures { result ≡ list.items }
    {
        Numbers { list }
    }

    pub fn as_slice(&self) -> &[u32]
        ensures { result.now ≡ self.now }
    {
        &self.list
    }

    /// Gives the list back, without taking memory.
    pub fn into_list(self) -> Vec<u32>
        ensures { result.items ≡ self }
    {
        self.list
    }
}

/// The 64-bit words of a compiled table.
#[derive(Debug, Drop)]
pub struct WordList {
    list: Vec<u64>,
}

impl Model for WordList {
    ghost use Rattle.std.specs.Prelude.{ℕ, List};

    ghost Value = { List ℕ };

    ghost view = { λ t. t.list.items };
}

impl WordList {
    ghost use Rattle.std.specs.Prelude.{◌≡◌};

    /// Takes the list as it is, with its allocator.
    pub fn of(list: Vec<u64>) -> Self
        ensures { result ≡ list.items }
    {
        WordList { list }
    }

    pub fn as_slice(&self) -> &[u64]
        ensures { result.now ≡ self.now }
    {
        &self.list
    }

    /// Gives the list back, without taking memory.
    pub fn into_list(self) -> Vec<u64>
        ensures { result.items ≡ self }
    {
        self.list
    }
}

/// Packets, in order.
#[derive(Debug, Drop)]
pub struct Packets {
    list: Vec<Bytes>,
}

impl Model for Packets {
    ghost use Rattle.std.specs.Prelude.{ℕ, List};

    ghost Value = { List (List ℕ) };

    ghost view = { λ t. t.list.items };
}

impl Packets {
    ghost use Rattle.std.specs.Prelude.{◌≡◌, ◌<◌, ◌↔◌, length, slice_get, Some, IsTrue, []};

    /// Takes the list as it is, with its allocator.
    pub fn of(list: Vec<Bytes>) -> Self
        ensures { result ≡ list.items }
    {
        Packets { list }
    }

    /// How many packets there are.
    pub fn len(&self) -> usize
        ensures { result ≡ length self.now }
    {
        self.list.len()
    }

    pub fn is_empty(&self) -> bool
        ensures { IsTrue result ↔ (self.now ≡ []) }
    {
        self.list.is_empty()
    }

    /// The bytes of one packet.
    pub fn get(&self, i: usize) -> &[u8]
        requires { i < length self.now }
        ensures { slice_get self.now i ≡ Some result.now }
    {
        self.list[i].as_slice()
    }

    pub fn as_slice(&self) -> &[Bytes]
        ensures { result.now ≡ self.now }
    {
        &self.list
    }

    /// Gives the list back, without taking memory.
    pub fn into_list(self) -> Vec<Bytes>
        ensures { result.items ≡ self }
    {
        self.list
    }
}
