// The port set of an identifier.
ghost use Rattle.std.specs.Prelude.{◌≡◌, ℕ, ◌^◌, ◌<◌, ◌↔◌, IsTrue, IsNone, IfSome, IfNone, Contains, length};
ghost use Rattle.std.specs.List.Sorted.{IsStrictlyIncreasing};
ghost use Rattle.port_set.specs.PortSets.{InSet, IsLow, IsOwner, OwnersAreApart, OwnersShareAll, in_set, owned_ports};

use crate::ports::{Ports, count_of, mask};
use crate::shape::Shape;

/// Whether the identifier owns the port: the bits of the port after the offset are the identifier, and where the
/// offset is above 0, the bits of the offset are not all 0.
pub fn owns(shape: Shape, psid: u16, port: u16) -> bool
    ensures member { IsTrue result ↔ InSet shape.offset shape.length psid port }
    ensures test { result ≡ in_set shape.offset shape.length psid port }
{
    psid_of(shape, port) == Some(psid)
}

/// The one identifier that owns the port; None where the offset is above 0 and its bits are all 0 in the port, which
/// no identifier owns. Two identifiers of one shape own no port in common, and together they own every other port.
pub fn psid_of(shape: Shape, port: u16) -> Option<u16>
    ensures none { IsNone result ↔ IsLow shape.offset port }
    ensures nobody { IfNone result ((psid : ℕ) → ¬ InSet shape.offset shape.length psid port) }
    ensures owner { IfSome result (λ psid. IsOwner shape.offset shape.length psid port) }
    ensures apart { OwnersAreApart shape.offset shape.length }
    ensures share_all { OwnersShareAll shape.offset shape.length }
{
    let bits = u32::from(port);
    if shape.offset() > 0 && bits >> (16 - shape.offset()) == 0 {
        return None;
    }
    Some(((bits >> shape.tail()) & mask(shape.length())) as u16)
}

/// How many ports each identifier owns.
pub fn count(shape: Shape) -> u32
    ensures { (psid : ℕ) → psid < 2 ^ shape.length → length (owned_ports shape.offset shape.length psid) ≡ result }
{
    count_of(shape)
}

/// The ports that the identifier owns, each once: ascending from the front, descending from the back.
pub fn ports_of(shape: Shape, psid: u16) -> Ports
    requires { psid < 2 ^ shape.length }
    ensures list { result ≡ owned_ports shape.offset shape.length psid }
    ensures members { (port : ℕ) → Contains result port ↔ InSet shape.offset shape.length psid port }
    ensures ascending { IsStrictlyIncreasing result }
{
    Ports::all(shape, psid)
}
