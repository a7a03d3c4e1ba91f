// The lines of the tables of a run, as they come into force.
ghost use Rattle.std.specs.Prelude.{◌≡◌, ◌≤◌, ◌++◌, IfOk, IsErr, List, ℕ, drop, length, string_bytes};
ghost use Rattle.aftr_base.specs.Appended.{Extends};
ghost use Rattle.run_output.specs.Versions.{AreTold, EndsInForce, NoneIsDue, between, load_lines, named, point_of, slot_text};

use aftr_base::OutOfMemory;
use aftr_text::{LoadWords, push_point_line, push_refused_line, push_unreached_line};
use reload_plan::Slot;
use std::alloc::Global;

/// Puts the lines of the loads behind others that are told by now and were not before: those from the place `printed` up to the
/// last one, before a table that is not in force, that came into force, with the refused ones between them. `points` are those
/// so far; later ones change nothing of these lines. It answers the place of the first load whose line is still to come. After
/// an `Err` some of the lines may stand behind what stood there.
pub fn push_new_versions(
    alloc: Global,
    lines: &mut String,
    loads: &[LoadWords],
    slots: &[Slot],
    points: &[u32],
    printed: usize,
) -> Result<usize, OutOfMemory>
    requires same { length slots.now ≡ length loads.now }
    requires inside { printed ≤ length slots.now }
    ensures lines { IfOk result (λ to. (later : List ℕ) → string_bytes lines.new ≡ string_bytes lines.old
        ++ load_lines (points.now ++ later) (between printed to (named loads.now slots.now))) }
    ensures from { IfOk result (λ to. printed ≤ to) }
    ensures to { IfOk result (λ to. to ≤ length slots.now) }
    ensures none_left { IfOk result (λ to. NoneIsDue points.now (drop to slots.now)) }
    ensures last { IfOk result (λ to. EndsInForce points.now slots.now printed to) }
    ensures kept { IsErr result → Extends (string_bytes lines.old) (string_bytes lines.new) }
{
    let to = last_in_force(slots, points, printed);
    push_loads(alloc, lines, loads, slots, points, printed, to)?;
    Ok(to)
}

/// Puts the lines of all loads from the place `printed` on behind others, at the end of a run whose points these are: a table
/// that did not come into force was not reached. After an `Err` some of the lines may stand behind what stood there.
pub fn push_last_versions(
    alloc: Global,
    lines: &mut String,
    loads: &[LoadWords],
    slots: &[Slot],
    points: &[u32],
    printed: usize,
) -> Result<(), OutOfMemory>
    requires same { length slots.now ≡ length loads.now }
    requires inside { printed ≤ length slots.now }
    ensures lines { IfOk result (λ _. string_bytes lines.new ≡ string_bytes lines.old
        ++ load_lines points.now (drop printed (named loads.now slots.now))) }
    ensures kept { IsErr result → Extends (string_bytes lines.old) (string_bytes lines.new) }
{
    push_loads(alloc, lines, loads, slots, points, printed, loads.len())
}

// The place behind the last load that came into force, from a place on and before a table that did not.
fn last_in_force(slots: &[Slot], points: &[u32], printed: usize) -> usize
    requires inside { printed ≤ length slots.now }
    ensures from { printed ≤ result }
    ensures to { result ≤ length slots.now }
    ensures none_left { NoneIsDue points.now (drop result slots.now) }
    ensures last { EndsInForce points.now slots.now printed result }
    ensures told { AreTold points.now slots.now printed result }
{
    let mut last = printed;
    let mut at = printed;
    'slots: while at < slots.len() {
        match slots[at] {
            Slot::Refused(_) => {}
            Slot::Version(version) => {
                if point_of(points, version).is_none() {
                    return last;
                }
                last = at + 1;
            }
        }
        at += 1;
    }
    last
}

// The moment when a table came into force.
fn point_of(points: &[u32], version: u32) -> Option<u32>
    ensures { result ≡ point_of points.now version }
{
    points.get(version.saturating_sub(1) as usize).copied()
}

// The lines of the loads from a place on and before another.
fn push_loads(
    alloc: Global,
    lines: &mut String,
    loads: &[LoadWords],
    slots: &[Slot],
    points: &[u32],
    from: usize,
    to: usize,
) -> Result<(), OutOfMemory>
    requires same { length slots.now ≡ length loads.now }
    requires inside { to ≤ length slots.now }
    requires order { from ≤ to }
    ensures lines { IfOk result (λ _. string_bytes lines.new ≡ string_bytes lines.old
        ++ load_lines points.now (between from to (named loads.now slots.now))) }
    ensures kept { IsErr result → Extends (string_bytes lines.old) (string_bytes lines.new) }
{
    let mut at = from;
    'loads: while at < to {
        push_load(alloc, lines, loads[at].name.as_str(), slots[at], points)?;
        at += 1;
    }
    Ok(())
}

// The line of one load.
fn push_load(
    alloc: Global,
    lines: &mut String,
    name: &str,
    slot: Slot,
    points: &[u32],
) -> Result<(), OutOfMemory>
    ensures line { IfOk result (λ _. string_bytes lines.new ≡ string_bytes lines.old ++ slot_text points.now name.now slot) }
    ensures kept { IsErr result → Extends (string_bytes lines.old) (string_bytes lines.new) }
{
    match slot {
        Slot::Refused(cause) => push_refused_line(alloc, lines, name, cause),
        Slot::Version(version) => match point_of(points, version) {
            Some(point) => push_point_line(lines, version, name, point),
            None => push_unreached_line(lines, name),
        },
    }
}
