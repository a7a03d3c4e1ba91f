// Blocks that are longer than what is kept of one, and sections of the most interfaces: they say what short ones say, and each of their
// bytes is read once and in order.
use crate::all_pieces::{Way, says};
use crate::parts::parts_of;
use crate::pipes::pipe_of;
use crate::rounds::{MOST, told_either};
use capture_io::Records;
use std::alloc::Global;
use std::test::Fail;

// Whether a file is this, in pieces of each size, in rounds and packet by packet.
fn is_told(alloc: Global, bytes: &[u8], text: &str) -> Result<bool, Fail> {
    Ok(
        says(alloc, Way::Rounds, bytes, 4_097, text)?
            && says(alloc, Way::Rounds, bytes, 300_001, text)?
            && says(alloc, Way::Rounds, bytes, 5_000_000, text)?
            && says(alloc, Way::Packets, bytes, 5_000_000, text)?,
    )
}

// Whether the file of a line is what the line says.
fn is_right(alloc: Global, line: &str) -> Result<bool, Fail> {
    let (parts, text) = line.split_once(' ').ok_or("parts")?;
    is_told(alloc, &parts_of(alloc, parts)?, text)
}

// The first line that is not right.
fn first_wrong(alloc: Global, lines: &'static str) -> Result<&'static str, Fail> {
    'lines: for line in lines.lines() {
        if !is_right(alloc, line)? {
            return Ok(line);
        }
    }
    Ok("")
}

// What long blocks are told as.
const TOLD: &str = "sAhtur 0.1000000 72 327840; end
sT ng options 28
sP ng options 28
Qihtur 1.0 72 327832; end
siOhtur 1.0 72 327844; end
siDhtur ng old 48
siEhtur 1.0 72 327832; 1.0 72 327936; end
siMhtur 0.0 72 327816; 1.0 72 327920; end
sE ng interface 28";

// As many interfaces as a section may have, and one more.
const INTERFACES: &str = "sjhtur 1.0 72 1310852; end
sjihtur ng interfaces 1310748";

#[test]
fn long_blocks_are_told_as_short_ones(rt: HostRuntime) -> Result<(), Fail> {
    assert_eq!(rt; first_wrong(rt.alloc(), TOLD)?, "");
    Ok(())
}

#[test]
fn a_section_has_65536_interfaces_at_most(rt: HostRuntime) -> Result<(), Fail> {
    assert_eq!(rt; first_wrong(rt.alloc(), INTERFACES)?, "");
    Ok(())
}

// Whether the block at a place is told to be bad in this way.
fn is_bad(alloc: Global, bytes: &[u8], why: &str, place: &str) -> Result<bool, Fail> {
    let text = format!(in alloc; "ng {why} {place}")?;
    is_told(alloc, bytes, text.as_str())
}

// Whether the last block of a file that has another last byte, and of one that has five bytes less, is told of its place.
fn ends_as(alloc: Global, line: &str) -> Result<bool, Fail> {
    let (parts, place) = line.split_once(' ').ok_or("parts")?;
    let mut bytes = parts_of(alloc, parts)?;
    if let Some(last) = bytes.last_mut() {
        *last = 7;
    }
    let other = is_bad(alloc, &bytes, "length", place)?;
    let count = bytes.len().saturating_sub(5);
    bytes.truncate(count);
    Ok(other && is_bad(alloc, &bytes, "cut", place)?)
}

// Files of which a long block is the last, and its place.
const ENDS: &str = "sA 28
sT 28
sP 28
Q 0
siO 48
siD 48
siE 48
sE 28
siM 48";

#[test]
fn long_blocks_have_an_end(rt: HostRuntime) -> Result<(), Fail> {
    for line in ENDS.lines() {
        assert!(rt; ends_as(rt.alloc(), line)?, "{line}");
    }
    Ok(())
}

// Whether the reads before the one of a call told nothing wrong: the front of what is told of all, and then the fault.
fn fails_well(alloc: Global, bytes: &[u8], call: u64) -> Result<bool, Fail> {
    let mut pipe = pipe_of(alloc, bytes, 100_000, call)?;
    let (told, _) = told_either(alloc, &mut pipe, MOST, Records::new(alloc))?;
    let told = told.as_str();
    Ok(
        pipe.strays == 0
            && (told == "a read failed"
                || told == "fault"
                || told == "0.1000000 72 327840; | fault"),
    )
}

#[test]
fn each_read_of_a_long_block_may_fail(rt: HostRuntime) -> Result<(), Fail> {
    let bytes = parts_of(rt.alloc(), "sAhturO")?;
    for call in 0..15 {
        assert_eq!(rt;
            fails_well(rt.alloc(), &bytes, call)?,
            call < 14,
            "call {call}"
        );
    }
    Ok(())
}
