// The generator: what is drawn for a record.
ghost use Rattle.std.specs.Prelude.{◌≡◌, ◌+◌, ◌<◌, ◌^◌};
ghost use Rattle.traffic_gen.specs.Drawing.{drawn, kind_of, turned};

// Knuth's multiplier for MMIX, and an odd increment: the state takes all values of 64 bits before it comes back.
const MULTIPLIER: u64 = 6_364_136_223_846_793_005;

const INCREMENT: u64 = 1_442_695_040_888_963_407;

/// What kind of packet a record is.
#[derive(Clone, Copy, Debug, PartialEq, Eq)]
pub enum Kind {
    /// From a subscriber to the server.
    Outward,
    /// From the server to a subscriber.
    Inward,
    /// From one subscriber to another.
    Between,
    /// From a subscriber's address and a port below 64, which nobody owns.
    Foreign,
}

/// What is drawn for a record.
#[derive(Clone, Copy, Debug, PartialEq, Eq)]
pub struct Draw {
    /// A subscriber's number, from 0 to 255.
    pub sender: u32,
    pub kind: Kind,
    /// Another one's number, or the same.
    pub receiver: u32,
    /// Which of the subscriber's 64 least ports, from 0 on.
    pub place: u32,
}

// One turn of the generator.
pub(crate) fn turned(state: u64) -> u64
    ensures { result ≡ turned state }
{
    state.wrapping_mul(MULTIPLIER).wrapping_add(INCREMENT)
}

// What a state draws: the upper half of its bits, which are the better ones.
pub(crate) fn drawn(state: u64) -> Draw
    ensures value { result ≡ drawn state }
    ensures sender { result.sender < 256 }
    ensures receiver { result.receiver < 256 }
    ensures place { result.place < 64 }
{
    let word = (state >> 32) as u32;
    Draw {
        sender: word % 256,
        kind: kind_of((word >> 8) % 4),
        receiver: (word >> 10) % 256,
        place: (word >> 18) % 64,
    }
}

fn kind_of(number: u32) -> Kind
    ensures { result ≡ kind_of number }
{
    match number {
        0 => Kind::Outward,
        1 => Kind::Inward,
        2 => Kind::Between,
        _ => Kind::Foreign,
    }
}
