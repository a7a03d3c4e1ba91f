// Captures that are written: their headers, and what stands round each packet.
ghost use Rattle.std.specs.Prelude.{◌≡◌, ◌/◌, ◌%◌, ◌^◌, ◌≤◌, ◌++◌, IfOk, IsErr};
ghost use Rattle.aftr_base.specs.Appended.{Extends};
ghost use Rattle.capture_io.specs.Packets.{block_head, block_len, block_tail, block_words, file_head, packet_head};
ghost use Rattle.capture_io.specs.Packets.{packet_tail, padding, record_head, section_bytes, ticks};

use crate::put_header;
use aftr_base::OutOfMemory;

/// The form of a capture that is written. Its packets are plain IP (link type 101), and its numbers little-endian.
#[derive(Clone, Copy, Debug, PartialEq, Eq)]
pub enum Written {
    /// pcap, version 2.4, with times in nanoseconds or in microseconds.
    Classic { nano: bool },
    /// pcapng: one section, one interface, and an enhanced packet block a packet, with times in nanoseconds.
    Blocks,
}

impl Written {
    /// Puts what a capture begins with behind what `out` holds.
    pub fn push_header(self, out: &mut Vec<u8>) -> Result<(), OutOfMemory>
        ensures bytes { IfOk result (λ _. out.new.items ≡ out.old.items ++ file_head self) }
        ensures kept { IsErr result → Extends out.old.items out.new.items }
    {
        match self {
            Written::Classic { nano } => out.extend_from_slice(&put_header(nano))?,
            Written::Blocks => out.extend_from_slice(&section())?,
        }
        Ok(())
    }

    /// Puts what stands before a packet of `count` bytes behind what `out` holds. In blocks the fraction counts
    /// nanoseconds.
    #[inline(always)]
    pub fn push_head(
        self,
        out: &mut Vec<u8>,
        seconds: u32,
        fraction: u32,
        count: u32,
    ) -> Result<(), OutOfMemory>
        requires { count ≤ 262144 }
        ensures bytes { IfOk result (λ _. out.new.items ≡ out.old.items ++ packet_head self seconds fraction count) }
        ensures kept { IsErr result → Extends out.old.items out.new.items }
    {
        match self {
            Written::Classic { .. } => push_record_head(out, seconds, fraction, count),
            Written::Blocks => push_block_head(out, seconds, fraction, count),
        }
    }

    /// Puts what stands behind a packet of `count` bytes behind what `out` holds.
    #[inline(always)]
    pub fn push_tail(self, out: &mut Vec<u8>, count: u32) -> Result<(), OutOfMemory>
        requires { count ≤ 262144 }
        ensures bytes { IfOk result (λ _. out.new.items ≡ out.old.items ++ packet_tail self count) }
        ensures kept { IsErr result → Extends out.old.items out.new.items }
    {
        match self {
            Written::Classic { .. } => Ok(()),
            Written::Blocks => push_block_tail(out, count),
        }
    }
}

/// A section header, and the description of an interface of plain IP (link type 101), with a snapshot length of 262,144 and times in
/// nanoseconds; little-endian.
pub fn section() -> [u8; 60]
    ensures { result ≡ section_bytes }
{
    [
        0x0a, 0x0d, 0x0d, 0x0a, 28, 0, 0, 0, 0x4d, 0x3c, 0x2b, 0x1a, 1, 0, 0, 0, 255, 255, 255,
        255, 255, 255, 255, 255, 28, 0, 0, 0, 1, 0, 0, 0, 32, 0, 0, 0, 101, 0, 0, 0, 0, 0, 4, 0, 9,
        0, 1, 0, 9, 0, 0, 0, 0, 0, 0, 0, 32, 0, 0, 0,
    ]
}

#[inline(always)]
fn push_record_head(
    out: &mut Vec<u8>,
    seconds: u32,
    fraction: u32,
    count: u32,
) -> Result<(), OutOfMemory>
    ensures bytes { IfOk result (λ _. out.new.items ≡ out.old.items ++ record_head seconds fraction count) }
    ensures kept { IsErr result → Extends out.old.items out.new.items }
{
    let [s0, s1, s2, s3] = seconds.to_le_bytes();
    let [f0, f1, f2, f3] = fraction.to_le_bytes();
    let [c0, c1, c2, c3] = count.to_le_bytes();
    out.extend_from_slice(&[
        s0, s1, s2, s3, f0, f1, f2, f3, c0, c1, c2, c3, c0, c1, c2, c3,
    ])?;
    Ok(())
}

fn padding_of(count: u32) -> u32
    ensures { result ≡ padding count }
{
    (4 - count % 4) % 4
}

fn block_len_of(count: u32) -> u32
    requires { count ≤ 262144 }
    ensures { result ≡ block_len count }
{
    32 + count + padding_of(count)
}

fn ticks_of(seconds: u32, fraction: u32) -> u64
    ensures { result ≡ ticks seconds fraction }
{
    u64::from(seconds) * 1_000_000_000 + u64::from(fraction)
}

fn high_half(time: u64) -> u32
    ensures { result ≡ time / 2 ^ 32 }
{
    (time / 0x1_0000_0000) as u32
}

fn low_half(time: u64) -> u32
    ensures { result ≡ time % 2 ^ 32 }
{
    (time % 0x1_0000_0000) as u32
}

// The head of a block of interface 0.
fn head_words(block: u32, high: u32, low: u32, count: u32) -> [u8; 28]
    ensures { result ≡ block_words block high low count }
{
    let [l0, l1, l2, l3] = block.to_le_bytes();
    let [h0, h1, h2, h3] = high.to_le_bytes();
    let [t0, t1, t2, t3] = low.to_le_bytes();
    let [c0, c1, c2, c3] = count.to_le_bytes();
    [
        6, 0, 0, 0, l0, l1, l2, l3, 0, 0, 0, 0, h0, h1, h2, h3, t0, t1, t2, t3, c0, c1, c2, c3, c0,
        c1, c2, c3,
    ]
}

#[inline(never)]
fn push_block_head(
    out: &mut Vec<u8>,
    seconds: u32,
    fraction: u32,
    count: u32,
) -> Result<(), OutOfMemory>
    requires { count ≤ 262144 }
    ensures bytes { IfOk result (λ _. out.new.items ≡ out.old.items ++ block_head seconds fraction count) }
    ensures kept { IsErr result → Extends out.old.items out.new.items }
{
    let time = ticks_of(seconds, fraction);
    let head = head_words(block_len_of(count), high_half(time), low_half(time), count);
    out.extend_from_slice(&head)?;
    Ok(())
}

#[inline(never)]
fn push_block_tail(out: &mut Vec<u8>, count: u32) -> Result<(), OutOfMemory>
    requires { count ≤ 262144 }
    ensures bytes { IfOk result (λ _. out.new.items ≡ out.old.items ++ block_tail count) }
    ensures kept { IsErr result → Extends out.old.items out.new.items }
{
    let [l0, l1, l2, l3] = block_len_of(count).to_le_bytes();
    match padding_of(count) {
        0 => out.extend_from_slice(&[l0, l1, l2, l3])?,
        1 => out.extend_from_slice(&[0, l0, l1, l2, l3])?,
        2 => out.extend_from_slice(&[0, 0, l0, l1, l2, l3])?,
        _ => out.extend_from_slice(&[0, 0, 0, l0, l1, l2, l3])?,
    }
    Ok(())
}
