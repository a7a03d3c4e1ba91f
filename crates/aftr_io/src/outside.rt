// Files and standard output as the programs see them.
ghost use Rattle.std.specs.Prelude.{◌≡◌, ℕ, ◌<◌, ◌≤◌, ◌++◌, [], List, length, take, drop, Option, IfOk, OnErr};
ghost use Rattle.std.specs.Option.{option_map};
ghost use Rattle.aftr_io.specs.Contents.{content, Told, Created, Appended};
ghost use Rattle.aftr_io.specs.Outside.{OnlyReads, Readable, Rises, Written, has_failed};

use aftr_base::OutOfMemory as NoMemory;
use std::alloc::{AllocError, AllocFailed, Global};

/// Why a call of the outside gave no answer.
#[derive(Clone, Copy, Debug, PartialEq, Eq)]
pub enum Fault {
    /// The outside failed. It comes only if the count of faults rises in this call.
    Failed,
    /// The allocator had no room.
    OutOfMemory,
}

impl From<AllocError> for Fault {
    ghost use Rattle.aftr_io.specs.declared.outside.Fault.TheVariants as fault;

    ghost from_gives = { λ _ e. e ≡ fault.OutOfMemory };

    fn from(_: AllocError) -> Self {
        Fault::OutOfMemory
    }
}

impl<T: Drop> From<AllocFailed<T>> for Fault {
    ghost use Rattle.aftr_io.specs.declared.outside.Fault.TheVariants as fault;

    ghost from_gives = { λ _ e. e ≡ fault.OutOfMemory };

    fn from(_: AllocFailed<T>) -> Self {
        Fault::OutOfMemory
    }
}

impl From<NoMemory> for Fault {
    ghost use Rattle.aftr_io.specs.declared.outside.Fault.TheVariants as fault;

    ghost from_gives = { λ _ e. e ≡ fault.OutOfMemory };

    fn from(_: NoMemory) -> Self {
        Fault::OutOfMemory
    }
}

/// The half of the outside that is read: files by name. Two different names are two different files; a name is UTF-8 text, and what
/// it means is the implementation's matter. No call changes what the files hold.
pub trait Reading {
    /// What the files hold, if that is known; how many reads have failed; and the last one that did.
    ghost readable: { Self → Readable };

    /// Reads bytes of the file from the place `at` into the front of `into`, and answers how many. It may be fewer
    /// than are there; 0 says that `into` is empty or that nothing stands at the place.
    fn read(&mut self, alloc: Global, name: &str, at: u64, into: &mut [u8]) -> Result<usize, Fault>
        ensures within { IfOk result (λ n. n ≤ length into.old) }
        ensures bytes { IfOk result (λ n. Told (readable self.old).held
            (λ m. take n into.new ≡ take n (drop at (content m name.now)))) }
        ensures nothing { IfOk result (λ n. Told (readable self.old).held
            (λ m. n ≡ 0 → 0 < length into.old → drop at (content m name.now) ≡ [])) }
        ensures reads { OnlyReads (has_failed result) name.now (λ place. place ≡ at) (readable self.old) (readable self.new) };
}

/// The half of the outside that is written: files by name, as in `Reading`. A call that fails changes nothing that is known of what they
/// hold.
pub trait Writing {
    /// What the files hold, if that is known, and how many calls have failed.
    ghost written: { Self → Written };

    /// Makes the file, empty; one that was there loses its bytes.
    fn create(&mut self, alloc: Global, name: &str) -> Result<(), Fault>
        ensures held { Created result (written self.old).held (written self.new).held name.now }
        ensures spoiled { Rises (has_failed result) (written self.old).spoiled (written self.new).spoiled };

    /// Puts bytes behind those that the file holds, and answers how many of the front of `bytes` it took: at least
    /// one, unless `bytes` is empty.
    fn append(&mut self, alloc: Global, name: &str, bytes: &[u8]) -> Result<usize, Fault>
        ensures within { IfOk result (λ n. n ≤ length bytes.now) }
        ensures some { IfOk result (λ n. n ≡ 0 → bytes.now ≡ []) }
        ensures held { Appended result (written self.old).held (written self.new).held name.now bytes.now }
        ensures spoiled { Rises (has_failed result) (written self.old).spoiled (written self.new).spoiled };
}

/// The two halves of the outside. Borrow each field by itself, so that one thread can read while another one writes.
#[derive(Drop)]
pub struct Outside<I, O> {
    /// What is read: captures, tables and loads.
    pub reading: I,
    /// What is written.
    pub writing: O,
}

/// A stream of bytes that only grows, as standard output. A call that fails changes nothing that is known of its bytes.
pub trait Sink {
    /// The bytes taken so far, if they are known.
    ghost out: { Self → Option (List ℕ) };

    /// How many calls have answered `Failed`. It never falls, and stops at 2^64 - 1 if 64 bits keep it.
    ghost faults: { Self → ℕ };

    /// Answers how many of the front of `bytes` it took: at least one, unless `bytes` is empty.
    fn put(&mut self, alloc: Global, bytes: &[u8]) -> Result<usize, Fault>
        ensures within { IfOk result (λ n. n ≤ length bytes.now) }
        ensures some { IfOk result (λ n. n ≡ 0 → bytes.now ≡ []) }
        ensures out { IfOk result (λ n. out self.new ≡ option_map (λ taken. taken ++ take n bytes.now) (out self.old)) }
        ensures out_at_error { OnErr result (out self.new ≡ out self.old) }
        ensures faults { Rises (has_failed result) (faults self.old) (faults self.new) };
}
