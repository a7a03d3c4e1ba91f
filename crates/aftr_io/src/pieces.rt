// Loops around the calls of the outside, each of which may do less than was asked.
ghost use Rattle.std.specs.Prelude.{◌≡◌, ◌+◌, ◌^◌, ◌<◌, ◌≤◌, length, take, drop, min, IfOk};
ghost use Rattle.aftr_io.specs.Contents.{content, Told};
ghost use Rattle.aftr_io.specs.Outside.{OnlyReads, Rises, has_failed};
ghost use Rattle.aftr_io.specs.Pieces.{AppendedAll, TookAll};

use crate::{Fault, Reading, Sink, Writing};
use aftr_base::Bytes;
use std::alloc::Global;

/// Reads from the place `at` on until `into` is full or nothing is left, and answers how many bytes it read. The
/// bytes asked for end by place 2^64.
pub fn fill<I: Reading>(
    alloc: Global,
    files: &mut I,
    name: &str,
    at: u64,
    into: &mut [u8],
) -> Result<usize, Fault>
    requires { at + length into.old ≤ 2 ^ 64 }
    ensures within { IfOk result (λ n. n ≤ length into.old) }
    ensures bytes { IfOk result (λ n. Told (I.readable files.old).held
        (λ m. take n into.new ≡ take (length into.old) (drop at (content m name.now)))) }
    ensures count { IfOk result (λ n. Told (I.readable files.old).held
        (λ m. n ≡ min (length into.old) (length (drop at (content m name.now))))) }
    ensures reads { OnlyReads (has_failed result) name.now (λ place. (at ≤ place) × (place < at + length into.old))
        (I.readable files.old) (I.readable files.new) }
{
    let mut got = 0;
    'pieces: while got < into.len() {
        let place = at + got as u64;
        let count = files.read(alloc, name, place, &mut into[got..])?;
        if count == 0 {
            return Ok(got);
        }
        got += count;
    }
    Ok(got)
}

/// The `count` bytes of a file from the place `at` on, or as many of them as there are. The bytes asked for end by place 2^64.
pub fn bytes_at<I: Reading>(
    alloc: Global,
    files: &mut I,
    name: &str,
    at: u64,
    count: usize,
) -> Result<Bytes, Fault>
    requires { at + count ≤ 2 ^ 64 }
    ensures bytes { IfOk result (λ bytes. Told (I.readable files.old).held
        (λ m. bytes ≡ take count (drop at (content m name.now)))) }
    ensures within { IfOk result (λ bytes. length bytes ≤ count) }
    ensures reads { OnlyReads (has_failed result) name.now (λ place. (at ≤ place) × (place < at + count))
        (I.readable files.old) (I.readable files.new) }
{
    let mut list = vec![in alloc; 0; count]?;
    let got = fill(alloc, files, name, at, &mut list)?;
    list.truncate(got);
    Ok(Bytes::of(list))
}

/// Puts all of `bytes` behind what the file holds. After a fault the file may have the first few of them.
pub fn append_all<O: Writing>(
    alloc: Global,
    files: &mut O,
    name: &str,
    bytes: &[u8],
) -> Result<(), Fault>
    ensures held { AppendedAll result (O.written files.old).held (O.written files.new).held name.now bytes.now }
    ensures spoiled { Rises (has_failed result) (O.written files.old).spoiled (O.written files.new).spoiled }
{
    let mut done = 0;
    'pieces: while done < bytes.len() {
        done += files.append(alloc, name, &bytes[done..])?;
    }
    Ok(())
}

/// Puts all of `bytes` into the sink. After a fault it may have the first few of them.
pub fn put_all<S: Sink>(alloc: Global, sink: &mut S, bytes: &[u8]) -> Result<(), Fault>
    ensures out { TookAll result (S.out sink.old) (S.out sink.new) bytes.now }
    ensures faults { Rises (has_failed result) (S.faults sink.old) (S.faults sink.new) }
{
    let mut done = 0;
    'pieces: while done < bytes.len() {
        done += sink.put(alloc, &bytes[done..])?;
    }
    Ok(())
}
