// The ports of an identifier, one after another.
ghost use Rattle.std.specs.Prelude.{◌≡◌, ℕ, ◌-◌, ◌^◌, ◌<◌, ◌≤◌, IfSome, length};
ghost use Rattle.std.specs.Iterator.{YieldsFirst, YieldsLast, item_count, at_most, UpTo};
ghost use Rattle.std.specs.Iterator.SizeHint.{IsWithinCount};
ghost use Rattle.port_set.specs.Places.{first_block, owned_count, port_at};
ghost use Rattle.port_set.specs.PortSets.{owned_ports};
ghost use Rattle.port_set.specs.Shapes.{IsShape};

use crate::shape::Shape;
use std::iter::FusedIterator;
use std::marker::Model;

/// The ports that an identifier owns, each once, seen as the list of those that are left: the front gives the least and
/// the back the greatest, in any mix.
#[derive(Clone, Debug, Drop)]
pub struct Ports {
    shape: Shape,
    psid: u16,
    // What is left are the owned ports from the place `front` up to the place `back`.
    front: u32,
    back: u32,
}

impl Model for Ports {
    ghost use Rattle.std.specs.Prelude.{List, ℕ};
    ghost use Rattle.port_set.specs.Places.{ports_between, IsPlaceRange};

    ghost Value = { List ℕ };

    ghost view = { λ p. ports_between p.shape.offset p.shape.length p.psid p.front p.back };

    ghost invariant = { λ p. IsPlaceRange p.shape.offset p.shape.length p.psid p.front p.back };
}

impl Ports {
    /// All ports of the identifier.
    pub(crate) fn all(shape: Shape, psid: u16) -> Ports
        requires { psid < 2 ^ shape.length }
        ensures { result ≡ owned_ports shape.offset shape.length psid }
    {
        Ports {
            shape,
            psid,
            front: 0,
            back: count_of(shape),
        }
    }
}

impl Iterator for Ports {
    type Item = u16;

    ghost next_gives = { YieldsFirst (λ left. left) };

    ghost remaining = { item_count (λ left. left) };

    fn next(&mut self) -> Option<u16> {
        if self.front == self.back {
            return None;
        }
        let port = port_of(self.shape, self.psid, self.front);
        self.front += 1;
        Some(port)
    }

    fn size_hint(&self) -> (usize, Option<usize>)
        ensures lower { IsWithinCount result.0 (at_most (length self.now)) }
        ensures upper { IfSome result.1 (UpTo (at_most (length self.now))) }
        ensures exact { (result.0 ≡ length self.now) × (result.1 ≡ Some (length self.now)) }
    {
        let left = self.len();
        (left, Some(left))
    }
}

impl DoubleEndedIterator for Ports {
    ghost next_back_gives = { YieldsLast (λ left. left) };

    fn next_back(&mut self) -> Option<u16> {
        if self.front == self.back {
            return None;
        }
        self.back -= 1;
        Some(port_of(self.shape, self.psid, self.back))
    }
}

impl ExactSizeIterator for Ports {
    fn len(&self) -> usize {
        (self.back - self.front) as usize
    }
}

impl FusedIterator for Ports {}

/// How many ports each identifier owns.
pub(crate) fn count_of(shape: Shape) -> u32
    ensures value { result ≡ owned_count shape.offset shape.length }
    ensures fits { IsShape shape.offset shape.length }
{
    ((1 << shape.offset()) - least_offset_bits(shape)) << shape.tail()
}

/// The least value of the offset's bits in an owned port: 0 where there are no such bits.
fn least_offset_bits(shape: Shape) -> u32
    ensures { result ≡ first_block shape.offset }
{
    if shape.offset() > 0 { 1 } else { 0 }
}

/// The lowest bits, all set.
pub(crate) fn mask(bits: u8) -> u32
    requires { bits ≤ 16 }
    ensures { result ≡ 2 ^ bits - 1 }
{
    (1 << bits) - 1
}

/// The owned port at a place of the ascending list.
fn port_of(shape: Shape, psid: u16, place: u32) -> u16
    requires in_range { psid < 2 ^ shape.length }
    requires owned { place < owned_count shape.offset shape.length }
    ensures { result ≡ port_at shape.offset shape.length psid place }
{
    let tail = shape.tail();
    let block = (place >> tail) + least_offset_bits(shape);
    let high = (block << shape.length()) + u32::from(psid);
    ((high << tail) + (place & mask(tail))) as u16
}
