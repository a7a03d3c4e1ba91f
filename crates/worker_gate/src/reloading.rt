// The next tables are put into force, as long as they are due.
ghost use Rattle.std.specs.Prelude.{◌≡◌, ◌+◌, ◌<◌, ◌≤◌, ◌⊎◌, true};
ghost use Rattle.std.specs.Bool.{MatchBool};
ghost use Rattle.area_swap.specs.Values.{IsClear, IsDesk, IsOf, IsReady, IsResting};
ghost use Rattle.worker_gate.specs.Reloading.{CanReload, HasCountedLong, HasMorePoints, HasTurns, IsOver, IsPutOff, IsReloaded, KeepsPoints, StandsAtLimit};

use area_swap::{Areas, Desk, Due, Quiet};
use std::thread::yield_now;

// So many turns in a row with nothing to do end a reload.
const TURNS: u32 = 1_000_000;

// So often claims are counted before the time slice is given up: a claim lasts for the records of one draw, and where more threads
// want to run than there are processors, a time slice given up is one of milliseconds.
const COUNTS_BETWEEN: u32 = 1_024;

// So many looks in a row with nothing to do end a reload beside workers.
const LOOKS: u32 = 64_000_000;

// So often the reloader looks before the time slice is given up: a round is over within a few slices.
const LOOKS_BETWEEN: u32 = 262_144;

// So often the reloader looks where all workers may have stopped.
const LAST_LOOKS: u32 = 4_096;

// Whether the spare area came free for a table that is due.
fn comes_free(areas: &Areas, desk: &mut Desk) -> bool
    requires areas { IsOf areas.now desk.old }
    requires ready { IsReady desk.old.known }
    requires desk { IsDesk desk.old.known }
    ensures areas { IsOf areas.now desk.new }
    ensures desk { IsDesk desk.new.known }
    ensures turns { HasTurns desk.old.known desk.new.known }
    ensures free { MatchBool result (IsClear desk.new.known) (HasCountedLong desk.old.known desk.new.known) }
{
    'turns: for turn in 0..TURNS {
        if let Quiet::Free = areas.quiet(desk) {
            return true;
        }
        if turn % COUNTS_BETWEEN == COUNTS_BETWEEN - 1 {
            yield_now();
        }
    }
    false
}

// Writes the next table and puts it into force.
fn put_in_force(areas: &Areas, desk: &mut Desk)
    requires areas { IsOf areas.now desk.old }
    requires clear { IsClear desk.old.known }
    ensures areas { IsOf areas.now desk.new }
    ensures desk { IsDesk desk.new.known }
    ensures resting { IsResting desk.new.known }
    ensures points { HasMorePoints 1 desk.old.known desk.new.known }
    ensures turns { (desk.new.known.looks ≡ desk.old.known.looks) × (desk.new.known.counts ≡ desk.old.known.counts) }
{
    areas.write(desk);
    areas.publish(desk);
}

// One table more, or one of the ends.
fn put_next(areas: &Areas, desk: &mut Desk, end: u32) -> bool
    requires areas { IsOf areas.now desk.old }
    requires phase { IsResting desk.old.known ⊎ IsReady desk.old.known }
    ensures areas { IsOf areas.now desk.new }
    ensures phase { IsResting desk.new.known ⊎ IsReady desk.new.known }
    ensures desk { IsDesk desk.new.known }
    ensures looks { (desk.old.known.looks ≤ desk.new.known.looks) × (desk.old.known.counts ≤ desk.new.known.counts) }
    ensures next { MatchBool result (HasMorePoints 1 desk.old.known desk.new.known)
        (HasMorePoints 0 desk.old.known desk.new.known × IsReloaded end desk.old.known desk.new.known) }
{
    'turns: for _ in 0..TURNS {
        match areas.due(desk) {
            Due::None => return false,
            Due::Later { records, .. } => {
                if records >= end {
                    return false;
                }
                yield_now();
            }
            Due::Now => {
                let is_free = comes_free(areas, desk);
                if is_free {
                    put_in_force(areas, desk);
                }
                return is_free;
            }
        }
    }
    false
}

/// Puts the next tables into force, each as soon as it is due and nobody claims its area. It ends where no table is left, where
/// at least `end` records were drawn before the next table's window, or after a million turns in a row in which it only looked,
/// or only counted claims. It yields after each look and every so many counts. The answer is how many tables it put into force.
pub fn reload(areas: &Areas, desk: &mut Desk, end: u32) -> u32
    requires areas { IsOf areas.now desk.old }
    requires phase { IsResting desk.old.known ⊎ IsReady desk.old.known }
    ensures areas { IsOf areas.now desk.new }
    ensures phase { IsResting desk.new.known ⊎ IsReady desk.new.known }
    ensures desk { IsDesk desk.new.known }
    ensures points { HasMorePoints result desk.old.known desk.new.known }
    ensures ended { IsReloaded end desk.old.known desk.new.known }
{
    let mut published = 0;
    'tables: while put_next(areas, desk, end) {
        published += 1;
    }
    published
}

// Whether the table in force came where the version before it allowed no record more, and no record was drawn under it.
fn stands_at_limit(areas: &Areas, desk: &Desk, records: u32) -> bool
    requires areas { IsOf areas.now desk.now }
    ensures stands { result ≡ true → StandsAtLimit desk.now.known records }
{
    let points = desk.points();
    let count = points.len();
    count != 0 && points[count - 1] == records && areas.limit(count as u32 - 1) == records
}

// One table more beside workers, or one of the ends. Where all workers may have stopped, it looks so many times at least.
fn put_beside(areas: &Areas, desk: &mut Desk, end: u32, looks: u32) -> bool
    requires desk { CanReload areas.now desk.old }
    ensures desk { CanReload areas.now desk.new }
    ensures is_desk { IsDesk desk.new.known }
    ensures looks { (desk.old.known.looks ≤ desk.new.known.looks) × (desk.old.known.counts ≤ desk.new.known.counts) }
    ensures next { MatchBool result (HasMorePoints 1 desk.old.known desk.new.known)
        (HasMorePoints 0 desk.old.known desk.new.known × IsOver end desk.old.known desk.new.known) }
{
    'turns: for turn in 0..LOOKS {
        match areas.due(desk) {
            Due::None => return false,
            Due::Later { records, earliest } => {
                if earliest >= end {
                    return false;
                }
                if turn >= looks {
                    if stands_at_limit(areas, desk, records) {
                        return false;
                    }
                }
                if turn % LOOKS_BETWEEN == LOOKS_BETWEEN - 1 {
                    yield_now();
                }
            }
            Due::Now => {
                let came = comes_free(areas, desk);
                if came {
                    put_in_force(areas, desk);
                }
                return came;
            }
        }
    }
    false
}

/// Puts the next tables into force beside workers that draw records below `end`. It goes on until no window opens before the end,
/// or all workers may have stopped: they stop below `end` only where the version in force allows no record more. It yields every
/// so many looks.
pub(crate) fn reload_beside(areas: &Areas, desk: &mut Desk, end: u32)
    requires desk { CanReload areas.now desk.old }
    ensures desk { CanReload areas.now desk.new }
    ensures points { KeepsPoints desk.old.known desk.new.known }
    ensures over { IsOver end desk.old.known desk.new.known }
{
    let mut looks = LOOKS;
    'tables: while put_beside(areas, desk, end, looks) {
        looks = LAST_LOOKS;
    }
}

/// Puts the next table into force, if it is due and nobody claims its area. The answer is whether it did. It tries once and never
/// waits: a seat may hold that area until it has judged a whole round. If it put no table into force, either none is left, or the next
/// one waits for more records, or somebody claims its area.
pub fn put_due(areas: &Areas, desk: &mut Desk) -> bool
    requires desk { CanReload areas.now desk.old }
    ensures desk { CanReload areas.now desk.new }
    ensures is_desk { IsDesk desk.new.known }
    ensures next { MatchBool result (HasMorePoints 1 desk.old.known desk.new.known)
        (HasMorePoints 0 desk.old.known desk.new.known × IsPutOff desk.old.known desk.new.known) }
{
    match areas.due(desk) {
        Due::None => return false,
        Due::Later {
            records: _,
            earliest: _,
        } => return false,
        Due::Now => {}
    }
    match areas.quiet(desk) {
        Quiet::Claimed { count: _ } => false,
        Quiet::Free => {
            put_in_force(areas, desk);
            true
        }
    }
}
