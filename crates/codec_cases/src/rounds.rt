// Captures read in rounds by each reader: whole files, files that answer little, and each read failing.
ghost use Rattle.std.specs.Prelude.{◌≤◌, IfOk};

use crate::blocks::{joined, record_text};
use crate::outside::number;
use crate::parts::first_bytes;
use crate::pipes::{Pipe, pipe_of};
use aftr_io::Reading;
use capture_io::{CaptureError, CaptureReader, ClassicReader, Ending, Records, Written, piece_of};
use case_data::CAPTURE;
use pcapng_io::{NgReader, Reader};
use std::alloc::Global;
use std::test::Fail;

/// More captured bytes than any of these rounds has, and fewer than the least buffer.
pub(crate) const MOST: usize = 500_000;

/// A record of three bytes, cut from nine, at 2 seconds and 5 microseconds.
pub(crate) const SECOND: [u8; 19] = [
    2, 0, 0, 0, 5, 0, 0, 0, 3, 0, 0, 0, 9, 0, 0, 0, 0x61, 0x62, 0x63,
];

/// A record of no bytes, at 3 seconds and 6 microseconds.
pub(crate) const THIRD: [u8; 16] = [3, 0, 0, 0, 6, 0, 0, 0, 0, 0, 0, 0, 0, 0, 0, 0];

/// The header of a record of 262,145 bytes.
pub(crate) const TOO_LONG: [u8; 16] = [3, 0, 0, 0, 6, 0, 0, 0, 1, 0, 4, 0, 1, 0, 4, 0];

// What is told of each record, or how many there are where they are more than nine.
fn push_records(alloc: Global, told: &mut String, records: &Records) -> Result<(), Fail> {
    if records.len() > 9 {
        told.push_str(&format!(in alloc; "{} ", records.len())?)?;
        return Ok(());
    }
    'records: for i in 0..records.len() {
        let found = records.get(i);
        let text = record_text(
            alloc,
            found.seconds,
            found.fraction,
            found.bytes,
            found.next_at,
        )?;
        told.push_str(&text)?;
    }
    Ok(())
}

fn text_of_ending(alloc: Global, ending: Ending) -> Result<String, Fail> {
    let text = match ending {
        Ending::End => "end",
        Ending::Bad(refusal) => return Ok(format!(in alloc; "{refusal}")?),
        Ending::ReadFault => "fault",
    };
    Ok(String::from_str(alloc, text)?)
}

// Tells a round, and whether it was the last one.
fn push_round(
    alloc: Global,
    told: &mut String,
    records: &Records,
    ending: Option<Ending>,
) -> Result<bool, Fail> {
    push_records(alloc, told, records)?;
    let Some(ending) = ending else {
        told.push_str("| ")?;
        return Ok(false);
    };
    let text = text_of_ending(alloc, ending)?;
    told.push_str(text.as_str())?;
    Ok(true)
}

// What is told of a capture, and the room that its rounds had.
pub(crate) type Told = (String, Records);

// The records of nine rounds at most, a bar behind each, and the ending.
fn tell_rounds<R: CaptureReader, I: Reading>(
    alloc: Global,
    reader: &mut R,
    files: &mut I,
    most_bytes: usize,
    room: Records,
) -> Result<Told, Fail>
    requires ready { R.ready reader.old 0 }
    requires some { 1 ≤ most_bytes }
    requires most { most_bytes ≤ 67108864 }
{
    let mut told = String::new(alloc);
    let mut records = room;
    let mut number = 0u32;
    'rounds: for _ in 0..9 {
        let round = reader.read_round(alloc, files, "in", number, most_bytes, records)?;
        number = round.number;
        records = round.records;
        if push_round(alloc, &mut told, &records, round.ending)? {
            return Ok((told, records));
        }
    }
    Ok((told, records))
}

// The same of a capture that a reader opened, or why it did not.
fn told_of<R: CaptureReader + Drop>(
    alloc: Global,
    opened: Result<R, CaptureError>,
    pipe: &mut Pipe,
    most_bytes: usize,
    room: Records,
) -> Result<Told, Fail>
    requires ready { IfOk opened (λ reader. R.ready reader 0) }
    requires some { 1 ≤ most_bytes }
    requires most { most_bytes ≤ 67108864 }
{
    match opened {
        Ok(reader) => {
            let mut reader = reader;
            tell_rounds(alloc, &mut reader, pipe, most_bytes, room)
        }
        Err(error) => Ok((format!(in alloc; "{error}")?, room)),
    }
}

/// What the reader of either format tells.
pub(crate) fn told_either(
    alloc: Global,
    pipe: &mut Pipe,
    most_bytes: usize,
    room: Records,
) -> Result<Told, Fail>
    requires some { 1 ≤ most_bytes }
    requires most { most_bytes ≤ 67108864 }
{
    let opened = Reader::open(alloc, pipe, "in");
    told_of(alloc, opened, pipe, most_bytes, room)
}

fn told_by(
    alloc: Global,
    reader: &str,
    pipe: &mut Pipe,
    most_bytes: usize,
    room: Records,
) -> Result<Told, Fail>
    requires some { 1 ≤ most_bytes }
    requires most { most_bytes ≤ 67108864 }
{
    match reader {
        "classic" => {
            let opened = ClassicReader::open(alloc, pipe, "in");
            told_of(alloc, opened, pipe, most_bytes, room)
        }
        "blocks" => {
            let opened = NgReader::open(alloc, pipe, "in");
            told_of(alloc, opened, pipe, most_bytes, room)
        }
        _ => told_either(alloc, pipe, most_bytes, room),
    }
}

// Whether this is told where the read of a number fails, and no byte is asked for twice, of a pipe that gives at most so many bytes a
// read, in rounds of at most so many; and the room of the rounds.
fn is_told(
    alloc: Global,
    reader: &str,
    bytes: &[u8],
    bounds: (usize, usize),
    call: usize,
    text: &str,
    room: Records,
) -> Result<(bool, Records), Fail> {
    let (most, most_bytes) = bounds;
    let mut pipe = pipe_of(alloc, bytes, most, call as u64)?;
    let most_bytes = most_bytes.clamp(1, 67_108_864);
    let (told, back) = told_by(alloc, reader, &mut pipe, most_bytes, room)?;
    Ok((told.as_str() == text && pipe.strays == 0, back))
}

// The same for each call from a first one to a last one.
fn are_told(
    alloc: Global,
    reader: &str,
    bytes: &[u8],
    bounds: (usize, usize),
    calls: (usize, usize),
    text: &str,
    room: Records,
) -> Result<(bool, Records), Fail> {
    let (first, last) = calls;
    let mut room = room;
    'calls: for call in first..=last {
        let (right, back) = is_told(alloc, reader, bytes, bounds, call, text, room)?;
        room = back;
        if !right {
            return Ok((false, room));
        }
    }
    Ok((first <= last, room))
}

// Whether a line is right: who reads, the parts of a capture and how many bytes of it, how many a read gives at most, how many a round
// has, the first and the last of the reads that fail, each in turn, and behind `=` what is told: where rounds end, where a record is bad
// or cut.
fn is_right(alloc: Global, line: &str, room: Records) -> Result<(bool, Records), Fail> {
    let (head, text) = line.split_once('=').ok_or("an answer")?;
    let mut words = head.split(' ');
    let reader = words.next().unwrap_or("");
    let parts = words.next().unwrap_or("");
    let bytes = first_bytes(alloc, parts, number(words.next()))?;
    let bounds = (number(words.next()), number(words.next()));
    let calls = (number(words.next()), number(words.next()));
    are_told(alloc, reader, &bytes, bounds, calls, text, room)
}

// The first line that is not right. The rounds of each have the room of those before.
fn first_wrong(alloc: Global, lines: &'static str) -> Result<&'static str, Fail> {
    let mut room = Records::new(alloc);
    'lines: for line in lines.lines() {
        let (right, back) = is_right(alloc, line, room)?;
        room = back;
        if !right {
            return Ok(line);
        }
    }
    Ok("")
}

// No read fails of these. A block may be longer than a buffer; a piece of a header is cut.
const ENDS: &str =
    "classic c23 147 1000 500000 1000000 1000000=1.0 72 112; 2.5 3 131; 3.6 0 147; | end
classic c23 147 1000 73 1000000 1000000=1.0 72 112; 2.5 3 131; | 3.6 0 147; | end
classic c23 147 1000 72 1000000 1000000=1.0 72 112; | 2.5 3 131; 3.6 0 147; | end
classic c23 147 1 500000 1000000 1000000=1.0 72 112; | 2.5 3 131; | 3.6 0 147; | end
classic c23 147 100 500000 1000000 1000000=1.0 72 112; | 2.5 3 131; 3.6 0 147; | end
blocks sihturoSIHtu8R 308 1000 500000 1000000 1000000=1.0 72 152; 1.0 80 308; | end
blocks sihturoSIHtu8R 308 1000 72 1000000 1000000=1.0 72 152; | 1.0 80 308; | end
blocks sihturoSIHtu8R 308 1000 73 1000000 1000000=1.0 72 152; 1.0 80 308; | end
blocks sihturoSIHtu8R 308 150 500000 1000000 1000000=1.0 72 152; | 1.0 80 308; | end
blocks sihturoSIHtu8R 308 7 500000 1000000 1000000=1.0 72 152; | 1.0 80 308; | end
blocks sihturoSIHtu8R 308 1 500000 1000000 1000000=1.0 72 152; | 1.0 80 308; | end
blocks sihturfgFhtur 2000000 400000 500000 1000000 1000000=1.0 72 152; | 1.0 72 1500256; | end
blocks sihturfgFhtur 2000000 5000000 500000 1000000 1000000=1.0 72 152; | 1.0 72 1500256; | end
either c 3 1 500000 1000000 1000000=cut header at 0
either s 3 1 500000 1000000 1000000=cut header at 0";

// Rounds of a MiB, and of a quarter of one, over 20,000 records and blocks of no bytes.
const FULL: &str = "either km 2000000 2000000 1048576 1000000 1000000=16384 | 3616 | end
either km 2000000 2000000 262144 1000000 1000000=16384 | 3616 | end
either siB 2000000 2000000 1048576 1000000 1000000=16384 | 3616 | end
either siB 2000000 2000000 262144 1000000 1000000=8192 | 8192 | 3616 | end";

// By reads of single bytes the one that fails is that of its place: headers have 24 and 48 bytes, and the records end where they are
// told to. By reads of 13 bytes a section header takes three and an interface two, a packet's block eight, and the two behind it twelve.
const FAULTS: &str = "classic c23 147 1 500000 0 23=a read failed
classic c23 147 1 500000 24 111=fault
classic c23 147 1 500000 112 130=1.0 72 112; | fault
classic c23 147 1 500000 131 146=1.0 72 112; | 2.5 3 131; | fault
classic c23 147 1 500000 147 147=1.0 72 112; | 2.5 3 131; | 3.6 0 147; | fault
classic c23 147 1 500000 148 148=1.0 72 112; | 2.5 3 131; | 3.6 0 147; | end
blocks sihturoSIHtu8R 308 13 500000 0 4=a read failed
blocks sihturoSIHtu8R 308 13 500000 5 12=fault
blocks sihturoSIHtu8R 308 13 500000 13 24=1.0 72 152; | fault
blocks sihturoSIHtu8R 308 13 500000 25 25=1.0 72 152; | 1.0 80 308; | fault
blocks sihturoSIHtu8R 308 13 500000 26 26=1.0 72 152; | 1.0 80 308; | end
either c 112 1 500000 0 23=a read failed
either c 112 1 500000 24 111=fault
either c 112 1 500000 112 112=1.0 72 112; | fault
either sihturoSIHtu8R 308 1 500000 0 47=a read failed
either sihturoSIHtu8R 308 1 500000 48 151=fault
either sihturoSIHtu8R 308 1 500000 152 307=1.0 72 152; | fault
either sihturoSIHtu8R 308 1 500000 308 308=1.0 72 152; | 1.0 80 308; | fault";

const BAD: &str = "classic cl 128 1000 500000 9 9=1.0 72 112; too long at 112
classic cl 128 1000 500000 2 2=1.0 72 112; too long at 112
classic cl 128 100 500000 2 2=1.0 72 112; | fault
classic cl 128 1 500000 127 127=1.0 72 112; | fault
classic cl 128 1 500000 128 128=1.0 72 112; | too long at 112
blocks sihturd 164 1000 500000 1000000 1000000=1.0 72 152; ng length 152
blocks sihturd 164 1000 500000 4 4=fault
blocks sihturd 164 1000 500000 5 5=1.0 72 152; ng length 152
blocks sihturd 164 104 500000 1000000 1000000=1.0 72 152; | ng length 152
blocks sihturd 164 104 500000 5 5=1.0 72 152; | fault
blocks sihturd 164 1 500000 163 163=1.0 72 152; | fault
blocks sihturd 164 1 500000 164 164=1.0 72 152; | ng length 152
blocks sihtur 151 1000 500000 1000000 1000000=ng cut 48
blocks sihtur 151 1000 500000 5 5=fault";

#[test]
fn rounds_end_at_their_bytes_or_where_a_read_ends(rt: HostRuntime) -> Result<(), Fail> {
    assert_eq!(rt; first_wrong(rt.alloc(), ENDS)?, "");
    Ok(())
}

#[test]
fn a_round_has_16384_records_at_most(rt: HostRuntime) -> Result<(), Fail> {
    assert_eq!(rt; first_wrong(rt.alloc(), FULL)?, "");
    Ok(())
}

#[test]
fn the_records_before_a_fault_are_handed_up(rt: HostRuntime) -> Result<(), Fail> {
    assert_eq!(rt; first_wrong(rt.alloc(), FAULTS)?, "");
    Ok(())
}

#[test]
fn a_bad_record_is_told_where_no_read_failed(rt: HostRuntime) -> Result<(), Fail> {
    assert_eq!(rt; first_wrong(rt.alloc(), BAD)?, "");
    Ok(())
}

#[test]
fn pieces_stay_in_a_cache_or_have_what_a_round_has(rt: HostRuntime) {
    let cases = [
        (1, 262_144),
        (524_288, 262_144),
        (524_289, 524_289),
        (1_048_576, 1_048_576),
        (67_108_864, 1_048_576),
    ];
    for (round, piece) in cases {
        assert_eq!(rt; piece_of(round), piece, "of {round}");
    }
}

/// The header of a pcapng file, and what stands round a packet of 32 bytes at 1 second.
const SECTION: &[u8; 60] =
    b"\x0a\x0d\x0d\x0a\x1c\0\0\0\x4d\x3c\x2b\x1a\x01\0\0\0\xff\xff\xff\xff\xff\xff\xff\xff\x1c\0\0\0\x01\0\0\0\x20\0\0\0\x65\0\0\0\0\0\x04\0\x09\0\x01\0\x09\0\
     \0\0\0\0\0\0\x20\0\0\0";

const BLOCK_HEAD: &[u8; 28] =
    b"\x06\0\0\0\x40\0\0\0\0\0\0\0\0\0\0\0\0\xca\x9a\x3b\x20\0\0\0\x20\0\0\0";

// What is written of a packet of so many bytes at 1 second: the header, and what stands before it, and behind one of 33. And where
// the first two of these end.
fn pushed(alloc: Global, form: Written, size: u32) -> Result<(Vec<u8>, [usize; 2]), Fail>
    requires { size ≤ 262144 }
{
    let mut out = Vec::new(alloc);
    form.push_header(&mut out)?;
    let header = out.len();
    form.push_head(&mut out, 1, 0, size)?;
    let head = out.len();
    form.push_tail(&mut out, 33)?;
    Ok((out, [header, head]))
}

// Whether they are these bytes, and those end there.
fn are_pushed(
    alloc: Global,
    form: Written,
    size: u32,
    wanted: &[u8],
    wanted_ends: [usize; 2],
) -> Result<bool, Fail>
    requires { size ≤ 262144 }
{
    let (written, ends) = pushed(alloc, form, size)?;
    Ok(written.as_slice() == wanted && ends == wanted_ends)
}

#[test]
fn what_is_pushed_are_these_bytes(rt: HostRuntime) -> Result<(), Fail> {
    let blocks = joined(rt.alloc(), &[SECTION, BLOCK_HEAD, b"\0\0\0\x44\0\0\0"])?;
    let (header, _) = CAPTURE.split_at(40);
    let classic = Written::Classic { nano: false };
    let pushed = [
        are_pushed(rt.alloc(), Written::Blocks, 32, &blocks, [60, 88])?,
        are_pushed(rt.alloc(), classic, 72, header, [24, 40])?,
    ];
    assert_eq!(rt; pushed, [true; 2]);
    Ok(())
}
