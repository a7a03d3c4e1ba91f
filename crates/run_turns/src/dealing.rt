// Numbers for rounds, and the next tables.
ghost use Rattle.std.specs.Prelude.{◌≡◌, ◌+◌, ◌<◌, ◌≤◌, length};
ghost use Rattle.run_turns.specs.Dealing.{CanDeal, IsDealt};
ghost use Rattle.worker_gate.specs.Reloading.{CanReload, KeepsPoints};

use area_swap::{Areas, Desk, WorkerSeat};
use std::sync::Wait;
use std::thread::yield_now;
use worker_gate::{FreeSeat, HeldSeat, RoundDraw, draw_for, put_due};

/// The seat that draws the numbers of all rounds, and the desk that puts the next tables into force.
#[derive(Drop)]
pub struct Dealer<'a> {
    pub areas: &'a Areas,
    pub seat: WorkerSeat,
    pub desk: Desk,
}

/// What a round gets: so many numbers, and a seat that holds their version.
#[derive(Drop)]
pub struct Dealt<'a> {
    pub held: HeldSeat<'a>,
    pub count: u32,
}

// Puts each table into force that is due and whose area nobody claims.
fn publish(areas: &Areas, desk: &mut Desk)
    requires { CanReload areas.now desk.old }
    ensures desk { CanReload areas.now desk.new }
    ensures points { KeepsPoints desk.old.known desk.new.known }
    ensures there { length desk.new.known.points < length areas.now.plan.tables }
{
    'tables: while put_due(areas, desk) {}
}

// Where a round ends at the latest: where the next table may come.
fn edge(areas: &Areas, desk: &Desk, start: u32, end: u32) -> u32
    requires { start < end }
    ensures above { start < result }
    ensures below { result ≤ end }
{
    let threshold = areas.threshold(desk.points().len() as u32);
    if start < threshold && threshold < end {
        threshold
    } else {
        end
    }
}

// Waits until the version is known at the desk. It always is: the desk alone puts tables into force.
fn await_known<R: Wait>(rt: &R, version: u32, desk: &Desk)
    ensures { version ≤ length desk.now.known.points }
{
    'tries: for _ in rt.forever() {
        if version as usize <= desk.points().len() {
            return;
        }
        yield_now();
    }
    unreachable!()
}

/// Puts the tables into force that are due, and draws numbers from `start` on, below `end`, and below where the next table may come. If
/// the version in force allows no record more, it waits until the next table comes: its area comes free, since who holds it
/// needs nothing of the dealer.
pub fn deal_numbers<'a, R: Wait>(
    rt: &R,
    dealer: &mut Dealer<'a>,
    free: FreeSeat<'a>,
    start: u32,
    end: u32,
) -> Dealt<'a>
    requires can { CanDeal start dealer.old }
    requires its_areas { free.areas ≡ dealer.old.areas.now }
    requires some_one { start < end }
    ensures can { CanDeal (start + result.count) dealer.new }
    ensures dealt { IsDealt start end result.count free.entry result.held dealer.old dealer.new }
{
    let mut idle = free;
    'tries: for _ in rt.forever() {
        publish(dealer.areas, &mut dealer.desk);
        let until = edge(dealer.areas, &dealer.desk, start, end);
        match draw_for(rt, &mut dealer.seat, idle, start, until) {
            RoundDraw::Taken { held, count } => {
                await_known(rt, held.version(), &dealer.desk);
                return Dealt { held, count };
            }
            RoundDraw::Hold { free } => idle = free,
        }
        yield_now();
    }
    unreachable!()
}
