// Calls of the system that fail, each in turn and at its worst place, and what is answered then and afterwards.
use crate::outside::temporary;
use crate::systems::story;
use aftr_io::{Fault, Reading, RealSink, Writing, append_all, fill, put_all, real_files};
use std::alloc::{Allocator, Global};
use std::cell::Cell;
use std::fmt::Display;
use std::fs::{File, Metadata, OpenFile, OpenOptions};
use std::io::{ErrorKind, PipeWriter, Read, Seek, SeekFrom, Write};
use std::rt::Files as FileSystem;
use std::test::Fail;
use std::{fs, io, process};

// The system's files, of which the call of one number fails. Opening, reading, writing and seeking are counted together, from 0. A read
// gives at most four bytes, and a write takes at most three.
#[derive(Clone, Copy)]
struct Worn<'a> {
    system: &'a HostRuntime,
    calls: &'a Cell<u32>,
    failing: u32,
}

#[derive(Drop)]
struct WornFile<'a> {
    file: File,
    calls: &'a Cell<u32>,
    failing: u32,
}

fn count(calls: &Cell<u32>, failing: u32) -> io::Result<()> {
    let call = calls.get();
    calls.set(call.saturating_add(1));
    if call == failing {
        return Err(io::Error::from(ErrorKind::Other));
    }
    Ok(())
}

impl Read for WornFile<'_> {
    fn read(&mut self, buf: &mut [u8]) -> io::Result<usize> {
        count(self.calls, self.failing)?;
        let most = buf.len().min(4);
        self.file.read(&mut buf[..most])
    }
}

impl Write for WornFile<'_> {
    fn write(&mut self, buf: &[u8]) -> io::Result<usize> {
        count(self.calls, self.failing)?;
        let most = buf.len().min(3);
        self.file.write(&buf[..most])
    }

    fn flush(&mut self) -> io::Result<()> {
        self.file.flush()
    }
}

impl Seek for WornFile<'_> {
    fn seek(&mut self, pos: SeekFrom) -> io::Result<u64> {
        count(self.calls, self.failing)?;
        self.file.seek(pos)
    }
}

impl OpenFile for WornFile<'_> {
    fn metadata(&self) -> io::Result<Metadata> {
        self.file.metadata()
    }

    fn set_len(&self, size: u64) -> io::Result<()> {
        self.file.set_len(size)
    }

    fn sync_all(&self) -> io::Result<()> {
        self.file.sync_all()
    }

    fn sync_data(&self) -> io::Result<()> {
        self.file.sync_data()
    }
}

impl<'a> FileSystem for Worn<'a> {
    type File = WornFile<'a>;

    type Dir = <HostRuntime as FileSystem>::Dir;

    fn open_file(&self, how: &OpenOptions, path: &str) -> io::Result<WornFile<'a>> {
        count(self.calls, self.failing)?;
        Ok(WornFile {
            file: self.system.open_file(how, path)?,
            calls: self.calls,
            failing: self.failing,
        })
    }

    fn open_dir(&self, path: &str) -> io::Result<Self::Dir> {
        self.system.open_dir(path)
    }

    fn metadata(&self, path: &str) -> io::Result<Metadata> {
        self.system.metadata(path)
    }

    fn symlink_metadata(&self, path: &str) -> io::Result<Metadata> {
        self.system.symlink_metadata(path)
    }

    fn copy(&self, from: &str, to: &str) -> io::Result<u64> {
        self.system.copy(from, to)
    }

    fn rename(&self, from: &str, to: &str) -> io::Result<()> {
        self.system.rename(from, to)
    }

    fn remove_file(&self, path: &str) -> io::Result<()> {
        self.system.remove_file(path)
    }

    fn create_dir(&self, path: &str) -> io::Result<()> {
        self.system.create_dir(path)
    }

    fn remove_dir(&self, path: &str) -> io::Result<()> {
        self.system.remove_dir(path)
    }

    fn remove_dir_all<B: Allocator>(&self, alloc: B, path: &str) -> io::Result<()> {
        self.system.remove_dir_all(alloc, path)
    }
}

fn story_of<R: FileSystem + Copy + Drop>(
    alloc: Global,
    system: R,
    name: &str,
) -> Result<String, Fail> {
    let mut files = real_files(system, alloc);
    story(alloc, &mut files, name)
}

// By the number of the call that fails. The calls are: open to create, three writes (behind which the file has 0, 3 and 6
// bytes if they fail); open to read, two reads; a seek and a read; a seek and three reads.
const STORIES: &str =
    "fffff 0f000 0f302 0f605 08f07 08f07 08f07 088f7 088f7 0880f 0880f 0880f 0880f 08807";

#[test]
fn each_failing_call_of_the_system_is_told(rt: HostRuntime) -> Result<(), Fail> {
    let alloc = rt.alloc();
    let path = temporary(&rt, "worn")?;
    let mut failing = 0u32;
    for wanted in STORIES.split_whitespace() {
        let calls = Cell::new(0);
        let worn = Worn {
            system: &rt,
            calls: &calls,
            failing,
        };
        let told = story_of(alloc, worn, path.as_str())?;
        let _ = fs::remove_file(&rt, path.as_str());
        assert_eq!(rt; told.as_str(), wanted, "call {failing}");
        failing = failing.saturating_add(1);
    }
    Ok(())
}

// Reads a long file at three places, and makes it anew after the first read.
fn cut_while_read<I: Reading, O: Writing>(
    alloc: Global,
    reading: &mut I,
    writing: &mut O,
    name: &str,
) -> Result<[Result<usize, Fault>; 3], Fault> {
    let bytes = vec![in alloc; 7; 1_100_000]?;
    let mut into = [0; 4];
    writing.create(alloc, name)?;
    append_all(alloc, writing, name, &bytes)?;
    let whole = fill(alloc, reading, name, 0, &mut into);
    writing.create(alloc, name)?;
    Ok([
        whole,
        fill(alloc, reading, name, 1_050_000, &mut into),
        fill(alloc, reading, name, 8, &mut into),
    ])
}

fn cut_of<R: FileSystem + Copy + Drop>(
    alloc: Global,
    system: R,
    name: &str,
) -> Result<[Result<usize, Fault>; 3], Fault> {
    let mut files = real_files(system, alloc);
    cut_while_read(alloc, &mut files.reading, &mut files.writing, name)
}

#[test]
fn a_file_cut_while_it_is_read_ends_there(rt: HostRuntime) -> Result<(), Fail> {
    let path = temporary(&rt, "cut")?;
    let answers = cut_of(rt.alloc(), &rt, path.as_str());
    fs::remove_file(&rt, path.as_str())?;
    assert_eq!(rt; answers?, [Ok(4), Ok(0), Ok(0)]);
    Ok(())
}

// Puts one byte behind what each of twenty files holds, and makes them first if they are to be made.
fn put_in_each<O: Writing>(
    alloc: Global,
    files: &mut O,
    path: &str,
    byte: &[u8],
    anew: bool,
) -> Result<(), Fail> {
    for number in 10..30u32 {
        let name = format!(in alloc; "{path}_{number}")?;
        if anew {
            files.create(alloc, name.as_str())?;
        }
        append_all(alloc, files, name.as_str(), byte)?;
    }
    Ok(())
}

// The number of the first of these files that does not hold what was put into it.
fn first_wrong<I: Reading>(alloc: Global, files: &mut I, path: &str) -> Result<Option<u32>, Fail> {
    for number in 10..30u32 {
        let name = format!(in alloc; "{path}_{number}")?;
        let mut into = [0; 4];
        let count = fill(alloc, files, name.as_str(), 0, &mut into);
        if count != Ok(3) || into != *b"abc\0" {
            return Ok(Some(number));
        }
    }
    Ok(None)
}

fn in_turn<R: FileSystem + Copy + Drop>(
    alloc: Global,
    system: R,
    path: &str,
) -> Result<Option<u32>, Fail> {
    let mut files = real_files(system, alloc);
    put_in_each(alloc, &mut files.writing, path, b"a", true)?;
    put_in_each(alloc, &mut files.writing, path, b"b", false)?;
    put_in_each(alloc, &mut files.writing, path, b"c", false)?;
    first_wrong(alloc, &mut files.reading, path)
}

fn remove_all(rt: &HostRuntime, path: &str) -> Result<(), Fail> {
    for number in 10..30u32 {
        let name = format!(in rt.alloc(); "{path}_{number}")?;
        fs::remove_file(rt, name.as_str())?;
    }
    Ok(())
}

#[test]
fn twenty_files_are_written_in_turn(rt: HostRuntime) -> Result<(), Fail> {
    let path = temporary(&rt, "turn")?;
    let wrong = in_turn(rt.alloc(), &rt, path.as_str())?;
    remove_all(&rt, path.as_str())?;
    assert_eq!(rt; wrong, None);
    Ok(())
}

// A pipe as standard output, with room for so many bytes. It takes at most three at a time.
#[derive(Drop)]
struct Narrow<'a> {
    pipe: &'a PipeWriter,
    room: &'a Cell<usize>,
}

impl Print for Narrow<'_> {
    fn print<D: Display + Drop>(&self, _value: D) -> io::Result<()> {
        Err(io::Error::from(ErrorKind::Unsupported))
    }

    fn println<D: Display + Drop>(&self, _value: D) -> io::Result<()> {
        Err(io::Error::from(ErrorKind::Unsupported))
    }

    fn write_all(&self, _bytes: &[u8]) -> io::Result<()> {
        Err(io::Error::from(ErrorKind::Unsupported))
    }

    fn write_some(&self, bytes: &[u8]) -> io::Result<usize> {
        let room = self.room.get();
        if room == 0 {
            return Err(io::Error::from(ErrorKind::Other));
        }
        let most = bytes.len().min(room).min(3);
        let mut pipe = self.pipe;
        let count = pipe.write(&bytes[..most])?;
        self.room.set(room.saturating_sub(count));
        Ok(count)
    }
}

fn kind_of(last: Option<io::Error>) -> Option<ErrorKind> {
    match last {
        Some(error) => Some(error.kind()),
        None => None,
    }
}

// What a sink of this pipe answers to four puts, and what is said of its last failure before them and behind them.
fn puts(
    alloc: Global,
    pipe: &PipeWriter,
    room: &Cell<usize>,
) -> ([Result<(), Fault>; 4], [Option<ErrorKind>; 2]) {
    let mut sink = RealSink::new(Narrow { pipe, room });
    let before = kind_of(sink.last_error());
    let answers = [
        put_all(alloc, &mut sink, b"abcdefgh"),
        put_all(alloc, &mut sink, b"ABCDEFGH"),
        put_all(alloc, &mut sink, b""),
        put_all(alloc, &mut sink, b"x"),
    ];
    (answers, [before, kind_of(sink.last_error())])
}

#[test]
fn a_sink_takes_a_part_and_then_fails(rt: HostRuntime) -> Result<(), Fail> {
    let (mut end, pipe) = io::pipe(&rt)?;
    let room = Cell::new(13);
    let failed = Err(Fault::Failed);
    assert_eq!(rt;
        puts(rt.alloc(), &pipe, &room),
        (
            [Ok(()), failed, Ok(()), failed],
            [None, Some(ErrorKind::Other)]
        )
    );
    let mut into = [0; 32];
    let count = end.read(&mut into)?;
    assert_eq!(rt; into.get(..count), Some(b"abcdefghABCDE".as_slice()));
    Ok(())
}
