// A subscriber's datagram, the answer to it, and what they become.

/// UDP of four bytes from 203.0.113.1 port 1232 to 198.51.100.7 port 53.
pub const UP: &[u8; 32] =
    b"\x45\0\0\x20\0\x01\0\0\x40\x11\x14\x90\xcb\0\x71\x01\xc6\x33\x64\x07\x04\xd0\0\x35\0\x0c\0\0test";

/// The same as it leaves the router, its time to live lowered.
pub const UP_LOWERED: &[u8; 32] =
    b"\x45\0\0\x20\0\x01\0\0\x3f\x11\x15\x90\xcb\0\x71\x01\xc6\x33\x64\x07\x04\xd0\0\x35\0\x0c\0\0test";

/// The tunnel header before it, from 2001:db8:1::1 to 2001:db8::1.
pub const UP_TUNNEL: &[u8; 40] =
    b"\x60\0\0\0\0\x20\x04\x40\x20\x01\x0d\xb8\0\x01\0\0\0\0\0\0\0\0\0\x01\x20\x01\x0d\xb8\0\0\0\0\0\0\0\0\0\0\0\x01";

/// The answer to it.
pub const DOWN: &[u8; 32] =
    b"\x45\0\0\x20\0\x02\0\0\x40\x11\x14\x8f\xc6\x33\x64\x07\xcb\0\x71\x01\0\x35\x04\xd0\0\x0c\0\0test";

/// The answer, its time to live lowered.
pub const DOWN_LOWERED: &[u8; 32] =
    b"\x45\0\0\x20\0\x02\0\0\x3f\x11\x15\x8f\xc6\x33\x64\x07\xcb\0\x71\x01\0\x35\x04\xd0\0\x0c\0\0test";

/// The tunnel header before the answer, from 2001:db8::1 to 2001:db8:1::1.
pub const DOWN_TUNNEL: &[u8; 40] =
    b"\x60\0\0\0\0\x20\x04\x40\x20\x01\x0d\xb8\0\0\0\0\0\0\0\0\0\0\0\x01\x20\x01\x0d\xb8\0\x01\0\0\0\0\0\0\0\0\0\x01";

/// The first datagram with a time to live of 1.
pub const LAST_HOP: &[u8; 32] =
    b"\x45\0\0\x20\0\x01\0\0\x01\x11\x53\x90\xcb\0\x71\x01\xc6\x33\x64\x07\x04\xd0\0\x35\0\x0c\0\0test";

/// The same as the first fragment of a longer one.
pub const FIRST_FRAGMENT: &[u8; 32] =
    b"\x45\0\0\x20\0\x01\x20\0\x40\x11\xf4\x8f\xcb\0\x71\x01\xc6\x33\x64\x07\x04\xd0\0\x35\0\x0c\0\0test";

/// The same bytes as of GRE (47), a protocol without ports.
pub const NO_PORTS: &[u8; 32] =
    b"\x45\0\0\x20\0\x01\0\0\x40\x2f\x14\x72\xcb\0\x71\x01\xc6\x33\x64\x07\x04\xd0\0\x35\0\x0c\0\0test";

/// A UDP header that is cut off behind three bytes.
pub const THREE_BYTES: &[u8; 23] =
    b"\x45\0\0\x17\0\x01\0\0\x40\x11\x14\x99\xcb\0\x71\x01\xc6\x33\x64\x07\x04\xd0\0";

/// A fragment with a type of service, the reserved bit, eight bytes of options and an odd payload.
pub const OPTIONS: &[u8; 31] =
    b"\x47\xb8\0\x1f\xbe\xef\xa0\xb9\x07\x06\xb1\x73\x0a\0\0\x01\xff\xff\xff\xfe\x94\x04\0\0\x01\x01\x01\0\x01\x02\x03";

/// A capture of plain IP, little-endian, in microseconds, with one record: the first datagram in its tunnel, at second 1.
pub const CAPTURE: &[u8; 112] =
    b"\xd4\xc3\xb2\xa1\x02\0\x04\0\0\0\0\0\0\0\0\0\0\0\x04\0\x65\0\0\0\x01\0\0\0\0\0\0\0\x48\0\0\0\x48\0\0\0\x60\0\0\0\0\x20\x04\x40\x20\x01\x0d\xb8\0\x01\0\0\0\0\0\0\0\0\0\x01\x20\x01\x0d\xb8\0\0\0\0\0\0\0\0\0\0\0\x01\x45\0\0\x20\0\x01\0\0\x40\x11\x14\x90\xcb\0\x71\x01\xc6\x33\x64\x07\x04\xd0\0\x35\0\x0c\0\0test";
