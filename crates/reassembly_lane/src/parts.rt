// The parts of one datagram: what is kept of its fragments, in the order of their offsets.
ghost use Rattle.std.specs.Prelude.{◌≡◌, IfOk};
ghost use Rattle.reassembly_lane.specs.Lanes.{part_of};
ghost use Rattle.reassembly_lane.specs.Sound.{IsPlace};
ghost use Rattle.reassembly_lane.specs.Parts.{past, is_same, clash, overlap, ends_before};

use crate::piece::Fragment;
use aftr_base::{Bytes, OutOfMemory};
use std::alloc::Global;

/// What is kept of a fragment. Only that at offset 0 keeps its head.
#[derive(Debug, Drop)]
pub(crate) struct Part {
    pub(crate) offset: u16,
    pub(crate) more: bool,
    pub(crate) extra: u16,
    pub(crate) head: Bytes,
    pub(crate) body: Bytes,
}

/// Where a fragment's part goes among parts that ascend: behind those that begin before it.
pub(crate) fn place_of(parts: &[Part], offset: u16) -> usize
    ensures { IsPlace parts.now offset result }
{
    let mut low = 0;
    let mut high = parts.len();
    while low < high {
        let middle = low + (high - low) / 2;
        if parts[middle].offset < offset {
            low = middle + 1;
        } else {
            high = middle;
        }
    }
    low
}

/// The part of a fragment, in memory of its own.
pub(crate) fn new_part(alloc: Global, fragment: Fragment<'_>) -> Result<Part, OutOfMemory>
    ensures { IfOk result (λ part. part ≡ part_of fragment.entry) }
{
    let head = if fragment.offset == 0 {
        fragment.head
    } else {
        &[]
    };
    Ok(Part {
        offset: fragment.offset,
        more: fragment.more,
        extra: fragment.extra,
        head: Bytes::copy(alloc, head)?,
        body: Bytes::copy(alloc, fragment.body)?,
    })
}

/// Whether a fragment came before as this part.
pub(crate) fn is_repeat(part: &Part, fragment: Fragment<'_>) -> bool
    ensures { result ≡ is_same part.now (part_of fragment.entry) }
{
    part.offset == fragment.offset
        && part.more == fragment.more
        && part.body.as_slice() == fragment.body
}

/// Where a part ends in its datagram.
pub(crate) fn end_of_part(part: &Part) -> usize
    ensures { result ≡ past part.now }
{
    8 * usize::from(part.offset) + part.body.as_slice().len()
}

/// Whether a fragment and a part cannot both be right.
pub(crate) fn clash_with(part: &Part, fragment: Fragment<'_>) -> bool
    ensures { result ≡ clash (part_of fragment.entry) part.now }
{
    overlaps(part, fragment) || ends_before(part, fragment) || ends_behind(part, fragment)
}

fn overlaps(part: &Part, fragment: Fragment<'_>) -> bool
    ensures { result ≡ overlap (part_of fragment.entry) part.now }
{
    fragment.start() < end_of_part(part) && 8 * usize::from(part.offset) < fragment.end()
}

fn ends_behind(part: &Part, fragment: Fragment<'_>) -> bool
    ensures { result ≡ ends_before part.now (part_of fragment.entry) }
{
    !part.more && (!fragment.more || end_of_part(part) < fragment.end())
}

fn ends_before(part: &Part, fragment: Fragment<'_>) -> bool
    ensures { result ≡ ends_before (part_of fragment.entry) part.now }
{
    !fragment.more && (!part.more || fragment.end() < end_of_part(part))
}
