// What all blocks have: a type, a total length of the whole block, and that length again at the end.
ghost use Rattle.std.specs.Prelude.{◌≡◌, ◌≤◌, IfOk};
ghost use Rattle.pcapng_io.specs.Frames.{head_in, is_no_total, least_total};

use capture_io::{CaptureBad, NgBad, word};

pub const SECTION: u32 = 0x0a0d0d0a;

pub const INTERFACE: u32 = 1;

pub const OLD_PACKET: u32 = 2;

pub const SIMPLE_PACKET: u32 = 3;

pub const ENHANCED_PACKET: u32 = 6;

const ORDER_MAGIC: u32 = 0x1a2b3c4d;

pub const HEAD_LEN: usize = 12;

/// A block's type, its length with everything, and the order of its numbers.
#[derive(Clone, Copy)]
pub struct Frame {
    pub big: bool,
    pub kind: u32,
    pub total: u32,
}

/// What the first bytes of a block say, as many of 12 as are there.
pub fn head_of(big: bool, head: &[u8], at: u64) -> Result<Frame, CaptureBad>
    ensures says { result ≡ head_in big head.now at }
    ensures least { IfOk result (λ frame. least_total frame.kind ≤ frame.total) }
    ensures some { IfOk result (λ frame. 12 ≤ frame.total) }
{
    if head.len() < HEAD_LEN {
        return Err(CaptureBad::Ng(NgBad::Cut { at }));
    }
    let begins_section = word(false, head, 0) == SECTION;
    let is_big = word(true, head, 8) == ORDER_MAGIC;
    let is_little = word(false, head, 8) == ORDER_MAGIC;
    if begins_section && !(is_big || is_little) {
        return Err(CaptureBad::Ng(NgBad::Order { at }));
    }
    let order = if begins_section { is_big } else { big };
    let kind = word(order, head, 0);
    let total = word(order, head, 4);
    if total % 4 != 0 || total < least_total_of(kind) {
        return Err(CaptureBad::Ng(NgBad::Length { at }));
    }
    Ok(Frame {
        big: order,
        kind,
        total,
    })
}

fn least_total_of(kind: u32) -> u32
    ensures is { result ≡ least_total kind }
    ensures some { 12 ≤ result }
{
    match kind {
        SECTION => 28,
        INTERFACE => 20,
        ENHANCED_PACKET => 32,
        SIMPLE_PACKET => 16,
        _ => 12,
    }
}
