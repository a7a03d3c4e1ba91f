// Numbers and checksums of known bytes.
use aftr_base::{be16, be32, be128, patch16, put_checksum, sum16};
use std::test::Fail;

#[test]
fn reads_in_network_order(rt: HostRuntime) {
    let bytes = b"\x09\x20\x01\x0d\xb8\0\x01\0\0\0\0\0\0\0\0\0\x01";
    let numbers = (be16(bytes, 1), be32(bytes, 1), be128(bytes, 1));
    let wanted = (
        0x2001,
        0x2001_0db8,
        0x2001_0db8_0001_0000_0000_0000_0000_0001,
    );
    assert_eq!(rt; numbers, wanted);
}

// RFC 1071, section 3; an IPv4 header with its checksum b861 in it; that header without it; an odd byte.
const SUMMED: [(&[u8], u16); 5] = [
    (&[0x00, 0x01, 0xf2, 0x03, 0xf4, 0xf5, 0xf6, 0xf7], 0x220d),
    (
        &[
            0x45, 0, 0, 0x73, 0, 0, 0x40, 0, 0x40, 0x11, 0xb8, 0x61, 0xc0, 0xa8, 0, 1, 0xc0, 0xa8,
            0, 0xc7,
        ],
        0,
    ),
    (
        &[
            0x45, 0, 0, 0x73, 0, 0, 0x40, 0, 0x40, 0x11, 0, 0, 0xc0, 0xa8, 0, 1, 0xc0, 0xa8, 0,
            0xc7,
        ],
        0xb861,
    ),
    (&[0x12], 0xedff),
    (&[], 0xffff),
];

#[test]
fn sums_of_known_bytes(rt: HostRuntime) {
    for (bytes, sum) in SUMMED {
        assert_eq!(rt; sum16(bytes), sum, "at {bytes:?}");
    }
}

// 35,000 words of ffff fold to ffff, and the last byte adds ff00.
#[test]
fn sums_longer_lists_than_one_piece(rt: HostRuntime) -> Result<(), Fail> {
    let bytes = vec![in rt.alloc(); 0xff; 70_001]?;
    assert_eq!(rt; sum16(&bytes), 0x00ff);
    Ok(())
}

// RFC 1624, section 4.
#[test]
fn patches_the_known_example(rt: HostRuntime) {
    assert_eq!(rt; patch16(0xdd2f, 0x5555, 0x3285), 0x0000);
}

#[test]
fn puts_the_checksum_of_a_header(rt: HostRuntime) {
    let mut header = [
        0x45, 0, 0, 0x73, 0, 0, 0x40, 0, 0x40, 0x11, 7, 7, 0xc0, 0xa8, 0, 1, 0xc0, 0xa8, 0, 0xc7,
    ];
    put_checksum(&mut header, 10);
    assert_eq!(rt; be16(&header, 10), 0xb861);
}
