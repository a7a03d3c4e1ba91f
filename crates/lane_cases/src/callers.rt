// The caller that the README of reassembly_lane shows, and what it answers.
use aftr_base::{Bytes, Numbers, OutOfMemory, V6};
use reassembly_lane::{Answer, Fed, Lane, Piece};
use std::alloc::Global;
use std::test::Fail;

/// Takes a fragment of an IPv6 datagram, whose key is its addresses and its identification. It answers the datagram's bytes, where
/// it was the last fragment missing, and the first records of the datagrams that are given up by then.
fn take(
    alloc: Global,
    lane: &mut Lane<(V6, V6, u32)>,
    piece: Piece<'_, (V6, V6, u32)>,
) -> Result<(Option<Bytes>, Numbers), OutOfMemory> {
    let Fed { ended, answer } = lane.feed(alloc, piece)?;
    match answer {
        Answer::Whole { body, .. } => Ok((Some(body), ended)), // its head is that of the fragment at offset 0
        Answer::Held => Ok((None, ended)),
        Answer::Refused(_) => Ok((None, ended)), // `Odd`, `Long`, `Overlap`, `Many`, `Full`
    }
}

// A fragment of the datagram from 1 to 2 with an identification, as a record with the same number.
fn piece(id: u32, offset: u16, more: bool, time: u64, body: &[u8]) -> Piece<'_, (V6, V6, u32)> {
    Piece {
        key: (V6(1), V6(2), id),
        offset,
        more,
        extra: 0,
        head: &[4],
        body,
        time,
        number: id,
    }
}

#[test]
fn two_fragments_make_a_datagram(rt: HostRuntime) -> Result<(), Fail> {
    let alloc = rt.alloc();
    let mut lane = Lane::new(alloc);
    let (whole, _) = take(alloc, &mut lane, piece(7, 1, false, 0, b"test"))?;
    assert!(rt; whole.is_none());
    let (whole, ended) = take(alloc, &mut lane, piece(7, 0, true, 0, b"eight by"))?;
    assert!(rt; whole.is_some_and(|body| body.as_slice() == b"eight bytest".as_slice()));
    assert!(rt; ended.as_slice().is_empty());
    Ok(())
}

// The first fragment of the one datagram comes 60 seconds and a nanosecond before that of the other.
#[test]
fn a_datagram_is_given_up_in_time(rt: HostRuntime) -> Result<(), Fail> {
    let alloc = rt.alloc();
    let mut lane = Lane::new(alloc);
    take(alloc, &mut lane, piece(7, 0, true, 0, b"eight by"))?;
    let (_, ended) = take(
        alloc,
        &mut lane,
        piece(9, 0, true, 60_000_000_001, b"eight by"),
    )?;
    assert_eq!(rt; ended.as_slice(), [7].as_slice());
    Ok(())
}
