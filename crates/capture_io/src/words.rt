// Numbers of a capture, in the byte order of its file.
ghost use Rattle.std.specs.Prelude.{◌≡◌, ◌+◌, ◌≤◌, length};
ghost use Rattle.capture_io.specs.Words.{half_at, word_at};

/// The 16 bits at a place: big-endian where `big` is true, else little-endian.
pub fn half(big: bool, bytes: &[u8], at: usize) -> u16
    requires { at + 2 ≤ length bytes.now }
    ensures { result ≡ half_at big bytes.now at }
{
    let two = [bytes[at], bytes[at + 1]];
    if big {
        u16::from_be_bytes(two)
    } else {
        u16::from_le_bytes(two)
    }
}

/// The 32 bits at a place: big-endian where `big` is true, else little-endian.
pub fn word(big: bool, bytes: &[u8], at: usize) -> u32
    requires { at + 4 ≤ length bytes.now }
    ensures { result ≡ word_at big bytes.now at }
{
    let four = [bytes[at], bytes[at + 1], bytes[at + 2], bytes[at + 3]];
    if big {
        u32::from_be_bytes(four)
    } else {
        u32::from_le_bytes(four)
    }
}
