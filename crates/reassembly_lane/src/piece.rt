// A fragment of a datagram.
ghost use Rattle.std.specs.Prelude.{◌≡◌};
ghost use Rattle.reassembly_lane.specs.Lanes.{fragment_of, is_long, is_odd, part_of};
ghost use Rattle.reassembly_lane.specs.Parts.{past, start};

/// One fragment of a datagram.
#[derive(Clone, Copy, Debug)]
pub struct Piece<'a, K> {
    /// What the fragments of one datagram have in common: addresses, protocol and identification (RFC 791, section 3.2, with
    /// RFC 6864, section 4.3; in IPv6 addresses and identification, RFC 8200, section 4.5).
    pub key: K,
    /// Where its bytes stand in the datagram, in units of 8 bytes.
    pub offset: u16,
    /// Whether fragments of the datagram follow behind it.
    pub more: bool,
    /// The bytes of the datagram that count towards its greatest length beside those put together, as an IPv4 header.
    pub extra: u16,
    /// What a whole datagram takes from its first fragment, as the header. That of another fragment is not kept.
    pub head: &'a [u8],
    /// Its bytes of the datagram.
    pub body: &'a [u8],
    /// When it came, in nanoseconds.
    pub time: u64,
    /// Its record's number.
    pub number: u32,
}

/// A piece as its datagram sees it: what is left without key, time and number.
#[derive(Clone, Copy)]
pub(crate) struct Fragment<'a> {
    pub(crate) offset: u16,
    pub(crate) more: bool,
    pub(crate) extra: u16,
    pub(crate) head: &'a [u8],
    pub(crate) body: &'a [u8],
}

impl<'a, K: Copy> Piece<'a, K> {
    /// The piece without what tells its datagram.
    pub(crate) fn fragment(&self) -> Fragment<'a>
        ensures { result ≡ fragment_of self.now }
    {
        Fragment {
            offset: self.offset,
            more: self.more,
            extra: self.extra,
            head: self.head,
            body: self.body,
        }
    }
}

/// The greatest length of a datagram.
pub(crate) const LONGEST: usize = 65535;

impl Fragment<'_> {
    /// Where its bytes begin in the datagram.
    pub(crate) fn start(self) -> usize
        ensures { result ≡ start (part_of self.entry) }
    {
        8 * usize::from(self.offset)
    }

    /// Where they end.
    pub(crate) fn end(self) -> usize
        ensures { result ≡ past (part_of self.entry) }
    {
        self.start() + self.body.len()
    }

    /// Whether it has no bytes, or some that do not fill units of 8 although more follow.
    pub(crate) fn is_odd(self) -> bool
        ensures { result ≡ is_odd (part_of self.entry) }
    {
        self.body.is_empty() || (self.more && self.body.len() % 8 != 0)
    }

    /// Whether it ends behind the greatest length of a datagram.
    pub(crate) fn is_long(self) -> bool
        ensures { result ≡ is_long (part_of self.entry) }
    {
        usize::from(self.extra) + self.end() > LONGEST
    }
}
