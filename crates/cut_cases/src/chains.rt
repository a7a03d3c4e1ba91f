// Chains of extension headers, header by header as RFC 8200 lays them out. The bytes were written by hand.
use ipv6_chain::{Chain, ChainBad, Frag, Start, walk};
use std::process::Abort;
use std::test::Fail;

// An end without a Fragment header.
fn end(next: u8, at: usize) -> Result<Chain, ChainBad> {
    Ok(Chain {
        next,
        at,
        fragment: None,
    })
}

fn expect(rt: &impl Abort, next: u8, body: &[u8], start: Start, wanted: Result<Chain, ChainBad>) {
    assert!(rt; walk(next, body, start) == wanted);
}

#[test]
fn headers_are_passed(rt: HostRuntime) -> Result<(), Fail> {
    let options = [4, 0, 1, 4, 0, 0, 0, 0, 0x45];
    let long = [6, 1, 1, 12, 0, 0, 0, 0, 0, 0, 0, 0, 0, 0, 0, 0, 0x45];
    expect(&rt, 4, &options, Start::Packet, end(4, 0));
    expect(&rt, 59, &[], Start::Packet, end(59, 0));
    expect(&rt, 0, &options, Start::Packet, end(4, 8));
    expect(&rt, 60, &options, Start::Packet, end(4, 8));
    expect(&rt, 60, &options, Start::AfterFragment, end(4, 8));
    expect(&rt, 43, &[4, 0, 0, 0, 0, 0, 0, 0], Start::Packet, end(4, 8));
    expect(&rt, 60, &long, Start::Packet, end(6, 16));
    Ok(())
}

#[test]
fn headers_are_refused(rt: HostRuntime) -> Result<(), Fail> {
    let routing = [
        4, 2, 0, 1, 0, 0, 0, 0, 0, 0, 0, 0, 0, 0, 0, 0, 0, 0, 0, 0, 0, 0, 0, 0,
    ];
    let twice = [0, 0, 1, 4, 0, 0, 0, 0, 4, 0, 1, 4, 0, 0, 0, 0];
    expect(&rt, 43, &routing, Start::Packet, Err(ChainBad::Routing));
    expect(&rt, 43, &routing[..23], Start::Packet, Err(ChainBad::Short));
    expect(&rt, 60, &routing[..7], Start::Packet, Err(ChainBad::Short));
    expect(&rt, 0, &twice, Start::Packet, Err(ChainBad::Order));
    expect(&rt, 60, &twice, Start::Packet, Err(ChainBad::Order));
    expect(&rt, 0, &twice, Start::AfterFragment, Err(ChainBad::Order));
    expect(&rt, 0, &[], Start::AfterFragment, Err(ChainBad::Order));
    Ok(())
}

#[test]
fn a_fragment_header_ends_the_chain(rt: HostRuntime) -> Result<(), Fail> {
    let behind = Chain {
        next: 4,
        at: 16,
        fragment: Some(Frag {
            offset: 181,
            more: true,
            id: 0x0102_0304,
        }),
    };
    let alone = [44, 0, 1, 4, 0, 0, 0, 0, 4, 0, 0x05, 0xa9, 1, 2, 3, 4, 0x45];
    expect(&rt, 60, &alone, Start::Packet, Ok(behind));
    expect(&rt, 44, &alone[8..15], Start::Packet, Err(ChainBad::Short));
    expect(
        &rt,
        44,
        &alone[8..],
        Start::AfterFragment,
        Err(ChainBad::Order),
    );
    Ok(())
}
