// Packets that an independent program built, passed on and wrapped.
use case_data::{AFTR, DOWN, DOWN_LOWERED, DOWN_TUNNEL, OPTIONS, SUBSCRIBER};
use ip_codec::ip4;
use softwire_encap::{encap, lower};
use std::alloc::Global;
use std::test::Fail;

// The fragment with options, passed on.
const OPTIONS_LOWERED: &[u8; 31] =
    b"\x47\xb8\0\x1f\xbe\xef\xa0\xb9\x06\x06\xb2\x73\x0a\0\0\x01\xff\xff\xff\xfe\x94\x04\0\0\x01\x01\x01\0\x01\x02\x03";
// A header whose checksum becomes 0.
const ZERO_SUM: &[u8; 20] =
    b"\x45\0\0\x14\x15\x9d\0\0\x40\x11\xfe\xff\xcb\0\x71\x01\xc6\x33\x64\x07";

const ZERO_SUM_LOWERED: &[u8; 20] =
    b"\x45\0\0\x14\x15\x9d\0\0\x3f\x11\0\0\xcb\0\x71\x01\xc6\x33\x64\x07";
// The last hop, with all bits of the type of service.
const LAST_HOP: &[u8; 20] =
    b"\x45\xff\0\x14\xff\xff\x40\0\x01\x32\xf4\xb5\xc0\0\x02\x01\xc0\0\x02\x02";

const LAST_HOP_LOWERED: &[u8; 20] =
    b"\x45\xff\0\x14\xff\xff\x40\0\0\x32\xf5\xb5\xc0\0\x02\x01\xc0\0\x02\x02";

#[test]
fn packets_are_passed_on(rt: HostRuntime) -> Result<(), Fail> {
    let cases: [(&[u8], &[u8]); 4] = [
        (DOWN, DOWN_LOWERED),
        (OPTIONS, OPTIONS_LOWERED),
        (ZERO_SUM, ZERO_SUM_LOWERED),
        (LAST_HOP, LAST_HOP_LOWERED),
    ];
    for (bytes, want) in cases {
        let view = ip4(bytes).ok().ok_or("a packet")?;
        assert!(rt; view.ttl >= 1);
        let packet = lower(rt.alloc(), &view)?;
        assert_eq!(rt; packet.as_slice(), want);
    }
    Ok(())
}

// The tunnel's header before the fragment with options, from 2001:db8::1 to 2001:db8:1::1: hop limit 1.
const OPTIONS_TUNNEL: &[u8; 40] =
    b"\x6b\x80\0\0\0\x1f\x04\x01\x20\x01\x0d\xb8\0\0\0\0\0\0\0\0\0\0\0\x01\x20\x01\x0d\xb8\0\x01\0\0\0\0\0\0\0\0\0\x01";

// Whether a packet goes into the tunnel behind this header.
fn is_wrapped(alloc: Global, inner: &[u8], hop: u8, header: &[u8]) -> Result<bool, Fail> {
    if inner.len() < 20 || inner.len() > 65535 {
        return Ok(false);
    }
    let packet = encap(alloc, AFTR, SUBSCRIBER, hop, inner)?;
    Ok(match packet.as_slice().strip_prefix(header) {
        Some(rest) => rest == inner,
        None => false,
    })
}

#[test]
fn packets_are_wrapped(rt: HostRuntime) -> Result<(), Fail> {
    let wrapped = [
        is_wrapped(rt.alloc(), DOWN_LOWERED, 64, DOWN_TUNNEL)?,
        is_wrapped(rt.alloc(), OPTIONS, 1, OPTIONS_TUNNEL)?,
    ];
    assert_eq!(rt; wrapped, [true; 2]);
    Ok(())
}
