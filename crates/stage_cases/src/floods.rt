// Many fragments, of one datagram and of many.
use crate::lines::goes;
use std::alloc::Global;
use std::test::Fail;

const PLAIN: u32 = 101;

/// A line of a tunnel packet that was not cut, and its item.
const WHOLE: &str = "1 6000000000200440 S A I = up 60000000 40 S A I\n";

/// The bytes behind the first eight of the datagram in `WHOLE`, and its item.
const REST: &str = "40111490cb007101c633640704d00035000c000074657374 = up 60000000 40 S A I";

/// Pushes the line of a tunnel packet with a Fragment header and eight bytes of what was cut, with more to follow: its second,
/// its offset in units of eight bytes, its identification, and what it becomes.
fn push_piece(
    text: &mut String,
    second: u32,
    offset: u16,
    id: u32,
    item: &str,
) -> Result<(), Fail> {
    let field = offset.wrapping_mul(8).wrapping_add(1);
    write!(
        text,
        "{second} 6000000000102c40 S A 0400{field:04x}{id:08x} 4500002000010000 = {item}\n"
    )?;
    Ok(())
}

/// Pushes the line of the last piece of the datagram in `WHOLE`, at second 1, with its identification.
fn push_last(text: &mut String, id: u32) -> Result<(), Fail> {
    write!(text, "1 6000000000202c40 S A 04000008{id:08x} {REST}\n")?;
    Ok(())
}

/// 257 pieces of one datagram, and the last is refused.
fn pieces_of_one(alloc: Global) -> Result<String, Fail> {
    let mut text = String::new(alloc);
    for offset in 0..256u16 {
        push_piece(&mut text, 1, offset, 1, "held")?;
    }
    push_piece(&mut text, 1, 256, 1, "bad frag-many")?;
    text.push_str("unfinished 0")?;
    Ok(text)
}

/// Pushes the lines of pieces that begin a datagram each, in one lane.
fn push_first_pieces(text: &mut String, from: u32, to: u32, item: &str) -> Result<(), Fail> {
    for index in from..to {
        push_piece(text, 1, 0, index.wrapping_mul(16), item)?;
    }
    Ok(())
}

/// 300 datagrams begin in one lane at second 1, and one more at second 62.
fn datagrams_of_one_lane(alloc: Global) -> Result<String, Fail> {
    let mut text = String::new(alloc);
    push_first_pieces(&mut text, 0, 256, "held")?;
    push_first_pieces(&mut text, 256, 300, "bad frag-full")?;
    text.push_str("|\n62 6000000000102c40 S A 04000001000012c0 4500002000010000 = held /")?;
    for number in 0..256u32 {
        write!(text, " {number}")?;
    }
    text.push_str("\nunfinished 300")?;
    Ok(text)
}

/// A fragment waits from the last record of one call to the first of the next, among packets that wait for nothing.
fn packets_and_two_pieces(alloc: Global) -> Result<String, Fail> {
    let mut text = String::new(alloc);
    for _ in 0..2000 {
        text.push_str(WHOLE)?;
    }
    push_piece(&mut text, 1, 0, 7, "held")?;
    text.push_str("|\n")?;
    push_last(&mut text, 7)?;
    text.push_str("unfinished")?;
    Ok(text)
}

/// So many datagrams over all lanes, their first pieces and then their last ones. Behind each piece comes this text.
fn datagrams_of_all_lanes(alloc: Global, count: u32, behind: &str) -> Result<String, Fail> {
    let mut text = String::new(alloc);
    for id in 0..count {
        push_piece(&mut text, 1, 0, id, "held")?;
        text.push_str(behind)?;
    }
    for id in 0..count {
        push_last(&mut text, id)?;
        text.push_str(behind)?;
    }
    text.push_str("unfinished")?;
    Ok(text)
}

#[test]
fn one_round_gives_what_one_record_at_a_time_gives(rt: HostRuntime) -> Result<(), Fail> {
    let beside = datagrams_of_all_lanes(rt.alloc(), 1100, "")?;
    assert!(rt; goes(&rt, PLAIN, &beside)?);
    let alone = datagrams_of_all_lanes(rt.alloc(), 1100, "|\n")?;
    assert!(rt; goes(&rt, PLAIN, &alone)?);
    Ok(())
}

#[test]
fn a_datagram_of_257_pieces(rt: HostRuntime) -> Result<(), Fail> {
    let case = pieces_of_one(rt.alloc())?;
    assert!(rt; goes(&rt, PLAIN, &case)?);
    Ok(())
}

#[test]
fn more_datagrams_than_a_lane_keeps(rt: HostRuntime) -> Result<(), Fail> {
    let case = datagrams_of_one_lane(rt.alloc())?;
    assert!(rt; goes(&rt, PLAIN, &case)?);
    Ok(())
}

#[test]
fn a_fragment_in_two_rounds_of_many_records(rt: HostRuntime) -> Result<(), Fail> {
    let case = packets_and_two_pieces(rt.alloc())?;
    assert!(rt; goes(&rt, PLAIN, &case)?);
    Ok(())
}
