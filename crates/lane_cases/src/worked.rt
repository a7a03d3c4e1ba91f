// The pieces of one tunnelled packet, of waits, and of floods.
use aftr_base::OutOfMemory;
use reassembly_lane::{Answer, Fed, FragBad, Lane, Piece};
use std::alloc::Global;
use std::test::Fail;

/// One second in nanoseconds.
const SECOND: u64 = 1_000_000_000;

/// UDP from 203.0.113.1 port 1232 to 198.51.100.7 port 53, 32 bytes.
const DATAGRAM: [u8; 32] =
    *b"\x45\x00\x00\x20\x00\x01\x00\x00\x40\x11\x14\x90\xcb\x00\x71\x01\xc6\x33\x64\x07\x04\xd0\x00\x35\x00\x0c\x00\x00test";

/// Feeds a piece of the datagram behind an IPv6 Fragment header, whose next header is the head.
fn feed(
    alloc: Global,
    lane: &mut Lane<u32>,
    offset: u16,
    more: bool,
    body: &[u8],
    next: u8,
) -> Result<Answer, OutOfMemory> {
    let fed = lane.feed(
        alloc,
        Piece {
            key: 7,
            offset,
            more,
            extra: 0,
            head: &[next],
            body,
            time: SECOND,
            number: 0,
        },
    )?;
    Ok(fed.answer)
}

/// Whether an answer is these bytes, with the next header 4.
fn is_whole(answer: &Answer, bytes: &[u8]) -> bool {
    match answer {
        Answer::Whole { head, body } => {
            head.as_slice() == [4].as_slice() && body.as_slice() == bytes
        }
        _ => false,
    }
}

/// A value that may go to another thread.
fn sendable<T: Send>(value: T) -> T {
    value
}

/// Whether a piece waits.
fn is_held(
    alloc: Global,
    lane: &mut Lane<u32>,
    offset: u16,
    body: &[u8],
    next: u8,
) -> Result<bool, OutOfMemory> {
    let answer = feed(alloc, lane, offset, offset != 2, body, next)?;
    Ok(matches!(answer, Answer::Held))
}

/// The third piece, the third again, the first and the second: whether the last made the datagram whole.
fn three_pieces(alloc: Global) -> Result<bool, OutOfMemory> {
    let mut lane = sendable(Lane::new(alloc));
    let (first, rest) = DATAGRAM.split_at(8);
    let (second, third) = rest.split_at(8);
    let waits = is_held(alloc, &mut lane, 2, third, 5)?
        && is_held(alloc, &mut lane, 2, third, 6)?
        && is_held(alloc, &mut lane, 0, first, 4)?;
    Ok(waits && is_whole(&feed(alloc, &mut lane, 1, true, second, 7)?, &DATAGRAM))
}

#[test]
fn three_fragments_out_of_order_with_a_repeat(rt: HostRuntime) -> Result<(), Fail> {
    assert!(rt; three_pieces(rt.alloc())?);
    Ok(())
}

/// Feeds the first eight bytes of a datagram of a key of its own.
fn eight(alloc: Global, lane: &mut Lane<u32>, number: u32, time: u64) -> Result<Fed, OutOfMemory> {
    lane.feed(
        alloc,
        Piece {
            key: number.wrapping_mul(16),
            offset: 0,
            more: true,
            extra: 0,
            head: &[4],
            body: b"eight by",
            time,
            number,
        },
    )
}

/// How many of the first pieces of 300 datagrams were held, and how many refused because 256 wait.
fn first_pieces(alloc: Global, lane: &mut Lane<u32>) -> Result<(u32, u32), OutOfMemory> {
    let mut held = 0u32;
    let mut full = 0u32;
    for number in 0..300 {
        match eight(alloc, lane, number, SECOND)?.answer {
            Answer::Held => held = held.wrapping_add(1),
            Answer::Refused(FragBad::Full) => full = full.wrapping_add(1),
            _ => {}
        }
    }
    Ok((held, full))
}

/// A piece at second 62, of another key: whether it is held, and the numbers from 0 to 255 are given up with it.
fn all_end(alloc: Global, lane: &mut Lane<u32>) -> Result<bool, OutOfMemory> {
    let fed = eight(alloc, lane, 300, 62 * SECOND)?;
    let all = fed.ended.as_slice().iter().copied().eq(0..256);
    Ok(all && matches!(fed.answer, Answer::Held))
}

/// What of 300 datagrams waits until its time is up, and whether all of that is given up then.
fn flood(alloc: Global, lane: &mut Lane<u32>) -> Result<(u32, u32, bool), OutOfMemory> {
    let (held, full) = first_pieces(alloc, lane)?;
    Ok((held, full, all_end(alloc, lane)?))
}

#[test]
fn of_300_datagrams_256_wait_until_their_time_is_up(rt: HostRuntime) -> Result<(), Fail> {
    let mut lane = Lane::new(rt.alloc());
    assert_eq!(rt; flood(rt.alloc(), &mut lane)?, (256, 44, true));
    assert_eq!(rt; lane.unfinished(rt.alloc())?.as_slice(), [300].as_slice());
    Ok(())
}
