// The calls of a system on files, by handles.
ghost use Rattle.std.specs.Prelude.{◌≡◌, ℕ, ◌+◌, ◌<◌, ◌≤◌, Bool, IsTrue, List, [], ◌++◌, length, take, drop};
ghost use Rattle.std.specs.Prelude.{None, Some, IfOk, OnOk, OnErr};
ghost use Rattle.aftr_io.specs.Contents.{Contents, content, Writes};
ghost use Rattle.aftr_io.specs.System.{IsAtEnd, WritePlace, moved};

use std::alloc::Global;
use std::io;

/// The few calls of a system by which its files are read and written. Two names are two files. An error changes nothing that is known but
/// the place of a handle that was to read or to seek.
pub trait System {
    /// A file that is open to be read.
    type ReadHandle: Drop;

    /// A file that is open to be written.
    type WriteHandle: Drop;

    /// Whether it is known what the files hold and what the handles are of. If not, no clause says anything of them.
    ghost tells: { Bool };

    /// What the files hold: a file that has no entry holds no bytes.
    ghost held: { Self → Contents };

    /// The name of the file that a handle reads, and the place of its next read.
    ghost reads: { Self.ReadHandle → List ℕ × ℕ };

    /// The name of the file that a handle writes, and the place of its next write. `None` is always the file's end.
    ghost writes: { Self.WriteHandle → WritePlace };

    /// Opens a file, to be read from its start on.
    fn open(&mut self, alloc: Global, name: &str) -> io::Result<Self::ReadHandle>
        ensures file { IsTrue tells → IfOk result (λ file. reads file ≡ (name.now, 0)) }
        ensures same { IsTrue tells → held self.new ≡ held self.old };

    /// Makes this the place of the next read.
    fn seek(&mut self, file: &mut Self::ReadHandle, at: u64) -> io::Result<()>
        ensures file { IsTrue tells → (reads file.new).0 ≡ (reads file.old).0 }
        ensures place { IsTrue tells → OnOk result ((reads file.new).1 ≡ at) }
        ensures same { IsTrue tells → held self.new ≡ held self.old };

    /// Reads bytes into the front of `into`, goes on behind them, and answers how many. It may be fewer than are there; 0 says that
    /// `into` is empty or that nothing stands at the place.
    fn read(&mut self, file: &mut Self::ReadHandle, into: &mut [u8]) -> io::Result<usize>
        ensures within { IfOk result (λ n. n ≤ length into.old) }
        ensures bytes { IsTrue tells → IfOk result (λ n. take n into.new
            ≡ take n (drop (reads file.old).1 (content (held self.old) (reads file.old).0))) }
        ensures nothing { IsTrue tells → IfOk result (λ n. n ≡ 0 → 0 < length into.old
            → drop (reads file.old).1 (content (held self.old) (reads file.old).0) ≡ []) }
        ensures file { IsTrue tells → (reads file.new).0 ≡ (reads file.old).0 }
        ensures place { IsTrue tells → IfOk result (λ n. (reads file.new).1 ≡ (reads file.old).1 + n) }
        ensures same { IsTrue tells → held self.new ≡ held self.old };

    /// Makes the file, empty, to be written from its start on; one that was there loses its bytes.
    fn create(&mut self, alloc: Global, name: &str) -> io::Result<Self::WriteHandle>
        ensures file { IsTrue tells → IfOk result (λ file. writes file ≡ (name.now, Some 0)) }
        ensures made { IsTrue tells → OnOk result (Writes (held self.old) (held self.new) name.now []) }
        ensures same { IsTrue tells → OnErr result (held self.new ≡ held self.old) };

    /// Opens a file that is there, to be written behind its last byte, whoever wrote that.
    fn open_end(&mut self, alloc: Global, name: &str) -> io::Result<Self::WriteHandle>
        ensures file { IsTrue tells → IfOk result (λ file. writes file ≡ (name.now, None)) }
        ensures same { IsTrue tells → held self.new ≡ held self.old };

    /// Puts bytes at the place of the next write, goes on behind them, and answers how many of the front of `bytes` it took. No clause
    /// says what becomes of bytes that are there already.
    fn write(
        &mut self,
        alloc: Global,
        file: &mut Self::WriteHandle,
        bytes: &[u8],
    ) -> io::Result<usize>
        ensures within { IfOk result (λ n. n ≤ length bytes.now) }
        ensures bytes { IsTrue tells → IsAtEnd (held self.old) (writes file.old) → IfOk result (λ n.
            Writes (held self.old) (held self.new) (writes file.old).0 (content (held self.old) (writes file.old).0 ++ take n bytes.now)) }
        ensures none { IsTrue tells → IfOk result (λ n. n ≡ 0 → held self.new ≡ held self.old) }
        ensures place { IsTrue tells → IfOk result (λ n. writes file.new ≡ moved (writes file.old) n) }
        ensures same { IsTrue tells → OnErr result (held self.new ≡ held self.old) }
        ensures stays { IsTrue tells → OnErr result (writes file.new ≡ writes file.old) };
}
