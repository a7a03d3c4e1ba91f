// Why a pcapng file is refused.
ghost use Rattle.std.specs.Prelude.{◌≡◌};

use std::fmt;

/// Why a capture of blocks (pcapng) is refused. `at` is the place of the block. It prints as `ng cut 48`, `ng link 28 113`.
#[derive(Clone, Copy, Debug, PartialEq, Eq)]
pub enum NgBad {
    /// Fewer bytes are left than a block has, or than this one says.
    Cut { at: u64 },
    /// A section header's byte-order magic is that of neither order.
    Order { at: u64 },
    /// A block's length is no multiple of 4, too small for its type, or not the one that stands at its end.
    Length { at: u64 },
    /// A section's major version is not 1.
    Version { at: u64 },
    /// A packet in the obsolete block of type 2.
    Old { at: u64 },
    /// One interface more than the 65,536 that a section may have.
    Interfaces { at: u64 },
    /// An interface's link type is neither 1 nor 101.
    Link { at: u64, number: u32 },
    /// An interface's link type is not that of the file's first one.
    MixedLinks { at: u64 },
    /// An interface's option runs past its block, or its resolution has not one byte.
    Options { at: u64 },
    /// An interface's resolution is finer than 10^-19 or 2^-63 seconds.
    Resolution { at: u64 },
    /// A packet's section has no interface of its number.
    Interface { at: u64 },
    /// A packet behind 2^31 others.
    TooMany { at: u64 },
    /// A packet's captured length is above 262,144.
    TooLong { at: u64 },
    /// A packet's captured length is more than its block has room for.
    Captured { at: u64 },
    /// A packet's time is 2^32 seconds or more.
    Time { at: u64 },
    /// The place is above 2^62.
    Far { at: u64 },
}

impl fmt::Display for NgBad {
    ghost use Rattle.std.specs.Prelude.{Some};
    ghost use Rattle.capture_io.specs.Texts.{ng_text};

    ghost output = { λ refusal. Some (ng_text refusal) };

    fn fmt<W: fmt::Write>(&self, f: &mut fmt::Formatter<W>) -> fmt::Result {
        match *self {
            NgBad::Cut { at } => write!(f, "ng cut {at}"),
            NgBad::Order { at } => write!(f, "ng order {at}"),
            NgBad::Length { at } => write!(f, "ng length {at}"),
            NgBad::Version { at } => write!(f, "ng version {at}"),
            NgBad::Old { at } => write!(f, "ng old {at}"),
            NgBad::Interfaces { at } => write!(f, "ng interfaces {at}"),
            NgBad::Link { at, number } => write!(f, "ng link {at} {number}"),
            NgBad::MixedLinks { at } => write!(f, "ng mixed-links {at}"),
            NgBad::Options { at } => write!(f, "ng options {at}"),
            NgBad::Resolution { at } => write!(f, "ng resolution {at}"),
            NgBad::Interface { at } => write!(f, "ng interface {at}"),
            NgBad::TooMany { at } => write!(f, "ng too-many {at}"),
            NgBad::TooLong { at } => write!(f, "ng too-long {at}"),
            NgBad::Captured { at } => write!(f, "ng captured {at}"),
            NgBad::Time { at } => write!(f, "ng time {at}"),
            NgBad::Far { at } => write!(f, "ng far {at}"),
        }
    }
}
