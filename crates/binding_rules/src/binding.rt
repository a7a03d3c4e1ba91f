// A row of the table, and what is looked for.
use aftr_base::{V4, V6};

/// A row of the binding table (RFC 7596 section 6.2): the subscriber whose tunnel ends at `b4` uses of the address `v4`
/// the ports of one port set identifier (RFC 7597 section 5.1).
#[derive(Clone, Copy, Debug, PartialEq, Eq)]
pub struct Binding {
    pub b4: V6,
    pub v4: V4,
    /// How many bits of a port come before the identifier.
    pub offset: u8,
    /// How many bits the identifier has.
    pub length: u8,
    pub psid: u16,
}

/// What is looked for: the owner of a port, or of the whole address.
#[derive(Clone, Copy, Debug, PartialEq, Eq)]
pub enum Want {
    Port(u16),
    Whole,
}
