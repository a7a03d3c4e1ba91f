// How the ports of an address are shared.
ghost use Rattle.std.specs.Prelude.{◌≡◌, ℕ, ◌+◌, ◌-◌, ◌<◌, ◌≤◌, ◌↔◌, IsErr, IfOk};
ghost use Rattle.port_set.specs.Shapes.{IsShape, IsNoShape};

use std::marker::Model;

/// The two numbers by which the ports of an address are shared (RFC 7597 section 5.1): how many bits of a port come
/// before the port set identifier, and how many bits the identifier has. An offset is at most 15, and the two together
/// are at most 16.
#[derive(Clone, Copy, Debug, PartialEq, Eq)]
pub struct Shape {
    offset: u8,
    length: u8,
}

impl Model for Shape {
    ghost use Rattle.port_set.specs.Shapes.{PortBits, IsShape};

    ghost Value = { PortBits };

    ghost view = { λ s. record { offset = s.offset; length = s.length } };

    ghost invariant = { λ s. IsShape s.offset s.length };

    ghost inverse = { λ bits. record { offset = bits.offset; length = bits.length } };
}

impl Shape {
    /// How many bits of a port come before the identifier (a in RFC 7597 section 5.1).
    pub fn offset(&self) -> u8
        ensures value { result ≡ self.now.offset }
        ensures fits { IsShape self.now.offset self.now.length }
    {
        self.offset
    }

    /// How many bits the identifier has (k in RFC 7597 section 5.1).
    pub fn length(&self) -> u8
        ensures value { result ≡ self.now.length }
        ensures fits { IsShape self.now.offset self.now.length }
    {
        self.length
    }

    /// How many bits of a port come after the identifier (m in RFC 7597 section 5.1).
    pub(crate) fn tail(&self) -> u8
        ensures value { result ≡ 16 - self.now.offset - self.now.length }
        ensures fits { IsShape self.now.offset self.now.length }
    {
        16 - self.offset - self.length
    }
}

/// The offset is above 15, the length above 16, or the two together are above 16: no port has so many bits.
#[derive(Clone, Copy, Debug, PartialEq, Eq)]
pub struct BadShape;

/// The shape of an offset and a length (RFC 7597, section 5.1); `BadShape` where the offset is above 15, the length above 16 or their
/// sum above 16.
pub fn shape_of(offset: u8, length: u8) -> Result<Shape, BadShape>
    ensures bad { IsErr result ↔ IsNoShape offset length }
    ensures numbers { IfOk result (λ shape. (shape.offset ≡ offset) × (shape.length ≡ length)) }
    ensures fits { IfOk result (λ shape. IsShape shape.offset shape.length) }
{
    if offset > 15 || length > 16 || offset + length > 16 {
        return Err(BadShape);
    }
    Ok(Shape { offset, length })
}
