// Addresses, and numbers read from bytes.
ghost use Rattle.std.specs.Prelude.{◌≡◌, ◌+◌, ◌≤◌, length};
ghost use Rattle.aftr_base.specs.Numbers.{big_endian, span, with_word};

/// An IPv4 address (RFC 791): its 32 bits, the first byte of the dotted text in the highest eight.
#[derive(Clone, Copy, Debug, PartialEq, Eq, PartialOrd, Ord)]
pub struct V4(pub u32);

/// An IPv6 address (RFC 4291): its 128 bits, the first group of the text in the highest sixteen.
#[derive(Clone, Copy, Debug, PartialEq, Eq, PartialOrd, Ord)]
pub struct V6(pub u128);

/// The 16 bits at a place, in network order.
pub fn be16(bytes: &[u8], at: usize) -> u16
    requires { at + 2 ≤ length bytes.now }
    ensures { result ≡ big_endian (span bytes.now at 2) }
{
    u16::from_be_bytes([bytes[at], bytes[at + 1]])
}

/// The 32 bits at a place, in network order.
pub fn be32(bytes: &[u8], at: usize) -> u32
    requires { at + 4 ≤ length bytes.now }
    ensures { result ≡ big_endian (span bytes.now at 4) }
{
    u32::from_be_bytes([bytes[at], bytes[at + 1], bytes[at + 2], bytes[at + 3]])
}

/// The 128 bits at a place, in network order: an IPv6 address as it stands in a packet.
pub fn be128(bytes: &[u8], at: usize) -> u128
    requires { at + 16 ≤ length bytes.now }
    ensures { result ≡ big_endian (span bytes.now at 16) }
{
    u128::from(be64(bytes, at)) * 0x1_0000_0000_0000_0000 + u128::from(be64(bytes, at + 8))
}

fn be64(bytes: &[u8], at: usize) -> u64
    requires { at + 8 ≤ length bytes.now }
    ensures { result ≡ big_endian (span bytes.now at 8) }
{
    u64::from(be32(bytes, at)) * 0x1_0000_0000 + u64::from(be32(bytes, at + 4))
}

/// Puts a 16-bit word at a place, in network order.
pub fn put_be16(bytes: &mut [u8], at: usize, word: u16)
    requires { at + 2 ≤ length bytes.old }
    ensures { bytes.new ≡ with_word bytes.old at word }
{
    bytes[at..at + 2].copy_from_slice(&word.to_be_bytes());
}
