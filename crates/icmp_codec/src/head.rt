// The first 8 bytes of ICMP messages of both versions, and the types and codes that two crates name.
ghost use Rattle.std.specs.Prelude.{◌≡◌};
ghost use Rattle.icmp_codec.specs.Message4.{message_head};

/// Destination unreachable, an ICMPv4 message (RFC 792).
pub const UNREACHABLE: u8 = 3;

/// What an ICMP message says before what it quotes (RFC 792; RFC 4443, section 2.1).
#[derive(Clone, Copy, Debug, PartialEq, Eq)]
pub struct IcmpHead {
    /// The type of the message.
    pub kind: u8,
    pub code: u8,
    /// The 32 bits behind the checksum.
    pub word: u32,
}

/// How many bytes stand before what a message quotes (RFC 792; RFC 4443, section 2.1).
pub const ICMP_HEAD_LEN: usize = 8;

// Where the checksum stands among them.
pub const CHECKSUM: usize = 2;

// The first 8 bytes of a message, with zero in the place of the checksum.
pub fn head_bytes(head: IcmpHead) -> [u8; 8]
    ensures { result ≡ message_head head.kind head.code head.word }
{
    let [a, b, c, d] = head.word.to_be_bytes();
    [head.kind, head.code, 0, 0, a, b, c, d]
}
