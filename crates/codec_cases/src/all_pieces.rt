// Captures in pieces of each size up to 64 bytes and whole, in rounds and one by one, with no read failing and with each in turn: they say
// what they say whole, and where a read failed the records before its place and then the fault.
use crate::blocks::{packets, push_next};
use crate::outside::number;
use crate::parts::first_bytes;
use crate::pipes::{Pipe, pipe_of};
use crate::rounds::{MOST, told_either};
use capture_io::{Records, next_record, read_header};
use std::alloc::Global;
use std::test::Fail;

/// More than any place of these captures.
const FAR: u64 = 1_000_000;

/// As many bytes as the longest of them and more.
const WHOLE: usize = 400;

// The first bytes of these parts, so many, with one byte changed.
fn changed(
    alloc: Global,
    parts: &str,
    size: usize,
    place: usize,
    byte: u8,
) -> Result<Vec<u8>, Fail> {
    let mut bytes = first_bytes(alloc, parts, size)?;
    if let Some(there) = bytes.get_mut(place) {
        *there = byte;
    }
    Ok(bytes)
}

fn classic_records(alloc: Global, pipe: &mut Pipe) -> Result<String, Fail> {
    let form = match read_header(alloc, pipe, "in") {
        Ok(form) => form,
        Err(error) => return Ok(format!(in alloc; "{error}")?),
    };
    let mut told = String::new(alloc);
    let mut at = 24;
    'records: for number in 0..9 {
        let found = next_record(alloc, pipe, "in", form, at.min(FAR), number);
        match push_next(alloc, &mut told, found)? {
            Some(next_at) => at = next_at,
            None => return Ok(told),
        }
    }
    Ok(told)
}

// How a capture is read.
#[derive(Clone, Copy)]
pub(crate) enum Way {
    Rounds,
    Records,
    Packets,
}

fn told(alloc: Global, way: Way, pipe: &mut Pipe) -> Result<String, Fail> {
    match way {
        Way::Rounds => {
            let (told, _) = told_either(alloc, pipe, MOST, Records::new(alloc))?;
            Ok(told.replace(alloc, "| ", "")?)
        }
        Way::Records => classic_records(alloc, pipe),
        Way::Packets => packets(alloc, pipe, 0),
    }
}

// Where a record ends of which this is told.
fn end_of(record: &str) -> u64 {
    match record.rsplit_once(' ') {
        Some((_, end)) => end.parse().unwrap_or(FAR),
        None => FAR,
    }
}

// Of the records of this text those that end at the place or before it.
fn records_by(alloc: Global, text: &str, place: u64) -> Result<String, Fail> {
    let mut records = String::new(alloc);
    let Some((all, _)) = text.rsplit_once("; ") else {
        return Ok(records);
    };
    'records: for record in all.split("; ") {
        if end_of(record) <= place {
            records.push_str(record)?;
            records.push_str("; ")?;
        }
    }
    Ok(records)
}

// Whether a fault is told behind these records.
fn is_fault(told: &str, records: &str) -> bool {
    match told.strip_prefix(records) {
        Some(fault) => fault == "fault" || fault == "a read failed",
        None => false,
    }
}

// Whether the reads went on, and a fault was told of the one that failed; nothing where something else was told than is right.
fn has_failed(
    alloc: Global,
    way: Way,
    bytes: &[u8],
    most: usize,
    call: u64,
    text: &str,
) -> Result<Option<bool>, Fail> {
    let mut pipe = pipe_of(alloc, bytes, most, call)?;
    let told = told(alloc, way, &mut pipe)?;
    let right = if pipe.failed {
        let records = records_by(alloc, text, pipe.at)?;
        is_fault(told.as_str(), records.as_str())
    } else {
        told.as_str() == text
    };
    Ok((right && pipe.strays == 0).then_some(pipe.failed))
}

/// Whether this is told of a pipe that gives at most so many bytes a read, none of which fails.
pub(crate) fn says(
    alloc: Global,
    way: Way,
    bytes: &[u8],
    most: usize,
    text: &str,
) -> Result<bool, Fail> {
    Ok(has_failed(alloc, way, bytes, most, FAR, text)? == Some(false))
}

// Whether this is told where no read fails, and what is right where one does, each in turn.
fn tells(alloc: Global, way: Way, bytes: &[u8], most: usize, text: &str) -> Result<bool, Fail> {
    'calls: for call in 0..FAR {
        match has_failed(alloc, way, bytes, most, call, text)? {
            Some(true) => {}
            Some(false) => return Ok(call > 0),
            None => return Ok(false),
        }
    }
    Ok(false)
}

fn tells_in_all_pieces(alloc: Global, bytes: &[u8], text: &str) -> Result<bool, Fail> {
    let alone = if bytes.starts_with(b"\n") {
        Way::Packets
    } else {
        Way::Records
    };
    'sizes: for size in 1..=65 {
        let most = if size == 65 { WHOLE } else { size };
        if !tells(alloc, Way::Rounds, bytes, most, text)?
            || !tells(alloc, alone, bytes, most, text)?
        {
            return Ok(false);
        }
    }
    Ok(true)
}

// Whether a line is right: the parts of a capture, how many bytes of it, the place of the byte that is changed, what it is then, and
// behind `=` what is told of it.
fn is_right(alloc: Global, line: &str) -> Result<bool, Fail> {
    let (head, text) = line.split_once('=').ok_or("an answer")?;
    let mut words = head.split(' ');
    let parts = words.next().unwrap_or("");
    let size = number(words.next());
    let place = number(words.next());
    let byte = number(words.next()).min(255) as u8;
    let bytes = changed(alloc, parts, size, place, byte)?;
    tells_in_all_pieces(alloc, &bytes, text)
}

// The first line that is not right.
fn first_wrong(alloc: Global, lines: &'static str) -> Result<&'static str, Fail> {
    'lines: for line in lines.lines() {
        if !is_right(alloc, line)? {
            return Ok(line);
        }
    }
    Ok("")
}

// The first datagram in its tunnel; another of 72 bytes is told to be another.
const DATAGRAMS: &str = "c 112 0 212=1.0 72 112; end
c 112 111 117=1.0 other 72 112; end
sihtur 152 0 10=1.0 72 152; end
sihtur 152 76 97=1.0 other 72 152; end";

const CLASSIC: &str = "c 23 0 212=cut header at 0
c 112 0 31=magic
c 112 4 3=version
c 112 20 113=link 113
c 24 0 212=end
c 30 0 212=cut header at 24
c 111 0 212=cut record at 24
c 112 34 4=too long at 24
x 112 0 77=1795739461.1000 72 112; end
y 90 0 161=1700000000.123456789 50 90; end
c23 147 0 212=1.0 72 112; 2.5 3 131; 3.6 0 147; end
cl 128 0 212=1.0 72 112; too long at 112";

const BLOCKS: &str = "siohtur 164 0 10=1.0 72 164; end
sihtur 151 0 10=ng cut 48
siehtur 172 0 10=ng mixed-links 48
sishtur 180 0 10=ng interface 76
shturi 152 0 10=ng interface 28
so 40 0 10=end
sihturd 164 0 10=1.0 72 152; ng length 152
sihturoSIHtu8R 308 0 10=1.0 72 152; 1.0 80 308; end
sihturSIHtu8R 296 0 10=1.0 72 152; 1.0 80 296; end
sihtur 152 8 78=ng order 0
sihtur 152 4 29=ng length 0
sihtur 152 24 32=ng length 0
sihtur 152 12 2=ng version 0
sihtur 152 36 113=ng link 28 113
sihtur 152 48 2=ng old 48
sihtur 152 48 5=end
sihtur 152 52 100=ng length 48
sihtur 152 53 1=ng cut 48
sihtur 152 56 1=ng interface 48
sihtur 152 63 255=ng time 48
sihtur 152 68 73=ng captured 48
sihtur 152 70 4=ng too-long 48";

// Simple packets, and resolutions.
const SIMPLE: &str = "SIHtu8R 144 43 80=0.0 80 144; end
SIHtu8R 144 43 0=ng captured 48
SIHtu8R 144 43 81=ng captured 48
SIHtu8R 144 31 5=ng interface 48
SNL 64 43 0=ng too-long 48
SIb 60 43 80=ng length 48
snhtur 164 48 0=1000000.0 72 164; end
snhtur 164 48 6=1.0 72 164; end
snhtur 164 48 9=0.1000000 72 164; end
snhtur 164 48 19=0.0 72 164; end
snhtur 164 48 20=ng resolution 28
snhtur 164 48 148=0.953674316 72 164; end
snhtur 164 48 191=0.0 72 164; end
snhtur 164 48 192=ng resolution 28
snhtur 164 46 2=ng options 28
snhtur 164 46 200=ng options 28
snhtur 164 44 8=1.0 72 164; end
snhtur 164 44 0=1.0 72 164; end";

#[test]
fn records_have_their_bytes_in_pieces(rt: HostRuntime) -> Result<(), Fail> {
    assert_eq!(rt; first_wrong(rt.alloc(), DATAGRAMS)?, "");
    Ok(())
}

#[test]
fn classic_captures_say_in_pieces_what_they_say_whole(rt: HostRuntime) -> Result<(), Fail> {
    assert_eq!(rt; first_wrong(rt.alloc(), CLASSIC)?, "");
    Ok(())
}

#[test]
fn blocks_say_in_pieces_what_they_say_whole(rt: HostRuntime) -> Result<(), Fail> {
    assert_eq!(rt; first_wrong(rt.alloc(), BLOCKS)?, "");
    Ok(())
}

#[test]
fn simple_packets_and_resolutions_are_so_in_pieces(rt: HostRuntime) -> Result<(), Fail> {
    assert_eq!(rt; first_wrong(rt.alloc(), SIMPLE)?, "");
    Ok(())
}
