// Generated captures beside bytes that were computed apart, and the tables that go with them.
ghost use Rattle.std.specs.Prelude.{◌≡◌, ◌≤◌};

use aftr_base::{V4, V6};
use std::alloc::Global;
use std::test::Fail;
use traffic_gen::{Traffic, traffic_of};

// One packet from a port that nobody owns.
const ONE_RECORD: &[u8; 112] =
    b"\xd4\xc3\xb2\xa1\x02\0\x04\0\0\0\0\0\0\0\0\0\0\0\x04\0e\0\0\0\0\0\0\0\0\0\0\0H\0\0\0H\0\0\0`\0\0\0\0\x20\x04@\x20\x01\x0d\xb8\0\x01\0\0\0\0\0\0\0\0\0~\
     \x20\x01\x0d\xb8\0\0\0\0\0\0\0\0\0\0\0\x01E\0\0\x20\0\0\0\0@\x11\x14\x8b\xcb\0q\x07\xc63d\x07\0\x01\05\0\x0c\0\0test";

// A packet from the server, and a millisecond later one from a subscriber to another.
const TWO_RECORDS: &[u8; 160] =
    b"\xd4\xc3\xb2\xa1\x02\0\x04\0\0\0\0\0\0\0\0\0\0\0\x04\0e\0\0\0\0\0\0\0\0\0\0\0\x20\0\0\0\x20\0\0\0E\0\0\x20\0\0\0\0@\x11\x14\x86\xc63d\x07\xcb\0q\x0c\05\
     \x06\xcb\0\x0c\0\0test\0\0\0\0\xe8\x03\0\0H\0\0\0H\0\0\0`\0\0\0\0\x20\x04@\x20\x01\x0d\xb8\0\x01\0\0\0\0\0\0\0\0\0K\x20\x01\x0d\xb8\0\0\0\0\0\0\0\0\0\0\0\
     \x01E\0\0\x20\0\x01\0\0@\x11\x02\xb9\xcb\0q\x04\xcb\0q\x0e\x06\xf8\x06\xf8\0\x0c\0\0test";

// The 64-bit hash FNV-1a of the bytes.
fn hash(bytes: &[u8]) -> u64 {
    let mut value: u64 = 0xcbf2_9ce4_8422_2325;
    for byte in bytes {
        value = (value ^ u64::from(*byte)).wrapping_mul(0x100_0000_01b3);
    }
    value
}

fn spells(alloc: Global, seed: u64, expected: &[u8], count: u32) -> bool
    requires some { 1 ≤ count }
    requires most { count ≤ 1000000 }
{
    match traffic_of(alloc, seed, count) {
        Ok(traffic) => traffic.capture.as_slice() == expected,
        Err(_) => false,
    }
}

// The bytes are as many as told, and have this hash.
fn hashes_to(alloc: Global, seed: u64, count: u32, len: usize, expected: u64) -> bool
    requires some { 1 ≤ count }
    requires most { count ≤ 1000000 }
{
    match traffic_of(alloc, seed, count) {
        Ok(traffic) => {
            let bytes = traffic.capture.as_slice();
            bytes.len() == len && hash(bytes) == expected
        }
        Err(_) => false,
    }
}

#[test]
fn captures_are_those_of_their_seed(rt: HostRuntime) {
    let alloc = rt.alloc();
    assert!(rt; spells(alloc, 0, ONE_RECORD, 1));
    assert!(rt; spells(alloc, 13, TWO_RECORDS, 2));
}

// All four kinds of packets, seconds above 0, and identifications that begin anew behind 65,535.
#[test]
fn long_captures_hash_as_computed_apart(rt: HostRuntime) {
    let alloc = rt.alloc();
    assert!(rt; hashes_to(alloc, 7, 2000, 156_344, 9_137_045_079_980_598_516));
    assert!(rt;
        hashes_to(
            alloc,
            u64::MAX,
            66_000,
            5_153_704,
            18_338_993_382_721_485_786
        )
    );
}

// The binding at a place is that of the subscriber with this end of the tunnel, address and identifier.
fn has(traffic: &Traffic, second: bool, at: usize, b4: u128, v4: u32, psid: u16) -> bool {
    let table = if second {
        &traffic.second
    } else {
        &traffic.first
    };
    match table.bindings().get(at) {
        Some(binding) => {
            binding.b4 == V6(b4)
                && binding.v4 == V4(v4)
                && binding.offset == 6
                && binding.length == 4
                && binding.psid == psid
        }
        None => false,
    }
}

#[test]
fn tables_have_the_subscribers(rt: HostRuntime) -> Result<(), Fail> {
    let prefix: u128 = 0x2001_0db8_0001_0000_0000_0000_0000_0000;
    let traffic = traffic_of(rt.alloc(), 0, 1)?;
    assert!(rt; traffic.first.bindings().len() == 256 && traffic.second.bindings().len() == 192);
    assert!(rt; has(&traffic, false, 0, prefix, 0xcb00_7100, 0));
    assert!(rt; has(&traffic, false, 255, prefix + 255, 0xcb00_710f, 15));
    assert!(rt; has(&traffic, true, 0, prefix + 64, 0xcb00_7104, 0));
    assert!(rt; has(&traffic, true, 191, prefix + 255, 0xcb00_710f, 15));
    Ok(())
}
