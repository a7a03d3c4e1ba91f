// Whether a datagram is whole with one more fragment, and its bytes.
ghost use Rattle.std.specs.Prelude.{◌≡◌, ◌≤◌, ◌++◌, false, None, if◌then◌else◌, IfOk, OnOk, length, take, drop, insert, Some};
ghost use Rattle.std.specs.List.{list_any};
ghost use Rattle.reassembly_lane.specs.Joined.{joined};
ghost use Rattle.reassembly_lane.specs.Lanes.{part_of};
ghost use Rattle.reassembly_lane.specs.Parts.{clash, end_of, first_of, whole_answer, whole_end};
ghost use Rattle.reassembly_lane.specs.Sound.{IsPlace, IsSound, IsSoundPart, part_at, total_size};

use crate::answer::{Answer, FragBad};
use crate::parts::{Part, end_of_part};
use crate::piece::{Fragment, LONGEST};
use aftr_base::{Bytes, OutOfMemory};
use std::alloc::Global;

/// Where the datagram ends, if these parts and the fragment at its place are all of it: parts that do not overlap are all
/// where they have as many bytes as the end of the last one says.
pub(crate) fn end_with(
    parts: &[Part],
    size: u32,
    place: usize,
    fragment: Fragment<'_>,
) -> Option<usize>
    requires sound { IsSound parts.now }
    requires part { IsSoundPart (part_of fragment) }
    requires place { IsPlace parts.now fragment.offset place }
    requires apart { list_any (clash (part_of fragment)) parts.now ≡ false }
    requires size { size ≡ total_size parts.now }
    ensures { result ≡ whole_end (insert parts.now place (part_of fragment.entry)) }
{
    let end = last_end(parts, place, fragment)?;
    if size as usize + fragment.body.len() == end {
        Some(end)
    } else {
        None
    }
}

/// Where the last part ends, if it is the datagram's last.
fn last_end(parts: &[Part], place: usize, fragment: Fragment<'_>) -> Option<usize>
    requires sound { IsSound parts.now }
    requires part { IsSoundPart (part_of fragment) }
    requires place { IsPlace parts.now fragment.offset place }
    requires apart { list_any (clash (part_of fragment)) parts.now ≡ false }
    ensures { result ≡ end_of (insert parts.now place (part_of fragment.entry)) }
{
    if place >= parts.len() {
        return end_unless_more(fragment.more, fragment.end());
    }
    let last = &parts[parts.len() - 1];
    end_unless_more(last.more, end_of_part(last))
}

fn end_unless_more(more: bool, end: usize) -> Option<usize>
    ensures { result ≡ (if more then None else Some end) }
{
    if more { None } else { Some(end) }
}

/// The answer where these parts and the fragment at its place are all of a datagram.
pub(crate) fn whole(
    alloc: Global,
    parts: &[Part],
    place: usize,
    fragment: Fragment<'_>,
    end: usize,
) -> Result<Answer, OutOfMemory>
    requires sound { IsSound parts.now }
    requires part { IsSoundPart (part_of fragment) }
    requires place { IsPlace parts.now fragment.offset place }
    requires apart { list_any (clash (part_of fragment)) parts.now ≡ false }
    requires whole { whole_end (insert parts.now place (part_of fragment)) ≡ Some end }
    ensures { IfOk result (λ answer. answer ≡ whole_answer (insert parts.now place (part_of fragment.entry)) end) }
{
    if usize::from(first_extra(parts, place, fragment)) + end > LONGEST {
        return Ok(Answer::Refused(FragBad::Long));
    }
    Ok(Answer::Whole {
        head: Bytes::copy(alloc, first_head(parts, place, fragment))?,
        body: join(alloc, parts, place, fragment.body, end)?,
    })
}

/// What the first part counts beside its bytes.
fn first_extra(parts: &[Part], place: usize, fragment: Fragment<'_>) -> u16
    requires { place ≤ length parts.now }
    ensures { result ≡ (part_at (insert parts.now place (part_of fragment.entry)) 0).extra }
{
    if place == 0 {
        return fragment.extra;
    }
    parts[0].extra
}

/// The head of the first part.
fn first_head<'a>(parts: &'a [Part], place: usize, fragment: Fragment<'a>) -> &'a [u8]
    requires within { place ≤ length parts.now }
    requires first { place ≡ 0 → fragment.offset ≡ 0 }
    ensures { result.now ≡ (part_at (insert parts.now place (part_of fragment.entry)) 0).head }
{
    if place == 0 {
        return fragment.head;
    }
    parts[0].head.as_slice()
}

/// The bytes of the parts with others at a place, in memory of their final size.
fn join(
    alloc: Global,
    parts: &[Part],
    place: usize,
    body: &[u8],
    end: usize,
) -> Result<Bytes, OutOfMemory>
    requires { place ≤ length parts.now }
    ensures { IfOk result (λ bytes. bytes ≡ joined (take place parts.now) ++ body.now ++ joined (drop place parts.now)) }
{
    let mut bytes = Vec::with_capacity(alloc, end)?;
    push_bodies(&mut bytes, &parts[..place])?;
    bytes.extend_from_slice(body)?;
    push_bodies(&mut bytes, &parts[place..])?;
    Ok(Bytes::of(bytes))
}

fn push_bodies(bytes: &mut Vec<u8>, parts: &[Part]) -> Result<(), OutOfMemory>
    ensures { OnOk result (bytes.new.items ≡ bytes.old.items ++ joined parts.now) }
{
    for part in parts {
        bytes.extend_from_slice(part.body.as_slice())?;
    }
    Ok(())
}
