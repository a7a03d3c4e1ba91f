// Seats for the buffers of a run, and how they come back.
ghost use Rattle.std.specs.Prelude.{◌≡◌, ◌+◌, ◌%◌, ◌^◌, ◌≤◌, [], All, IfNone, IfSome, length, vec_capacity};
ghost use Rattle.area_swap.specs.Values.{HasWholeShare, IsIdle, IsOf};
ghost use Rattle.area_swap.specs.Views.{kept_lending};
ghost use Rattle.run_turns.specs.Turns.{IsHere, reads_in, reads_of, share_of, shares_in};
ghost use Rattle.table_words.specs.Layout.{AreCompiled};

use crate::passing::let_go;
use crate::turn::{Naming, Turn, TurnSeat};
use area_swap::{Areas, WorkerSeat};
use worker_gate::{FreeSeat, lend};

/// How often the share of a seat is halved to make seats for all buffers.
const HALVINGS: u32 = 6;

/// How many seats that makes: more than three for each of sixteen workers.
pub const SEATS: usize = 64;

// Puts the seat there, after it was halved so many times: each half has the same share.
fn spread<'a>(seat: FreeSeat<'a>, halvings: u32, seats: &mut Vec<FreeSeat<'a>>)
    requires few { halvings ≤ 6 }
    requires even { seat.known.share % 2 ^ halvings ≡ 0 }
    requires room { length seats.old.items + 2 ^ halvings ≤ vec_capacity seats.old }
    ensures many { length seats.new.items ≡ length seats.old.items + 2 ^ halvings }
    ensures room { vec_capacity seats.new ≡ vec_capacity seats.old }
    ensures shares { shares_in seats.new.items ≡ shares_in seats.old.items + seat.entry.known.share }
    ensures reads { reads_in seats.new.items ≡ reads_in seats.old.items + seat.entry.known.reads }
    ensures its_areas { All (λ f. f.areas ≡ seat.entry.areas) seats.old.items → All (λ f. f.areas ≡ seat.entry.areas) seats.new.items }
{
    if halvings == 0 {
        seats.push_reserved(seat);
        return;
    }
    let mut seat = seat;
    let part = seat.lend();
    spread(seat, halvings - 1, seats);
    spread(part, halvings - 1, seats);
}

/// Lends half of the share of the seat that draws. There is room for the seats that this makes.
pub fn lend_seats<'a>(areas: &'a Areas, seat: &mut WorkerSeat, seats: &mut Vec<FreeSeat<'a>>)
    requires its_areas { IsOf areas.now seat.old }
    requires idle { IsIdle seat.old.known }
    requires whole { HasWholeShare seat.old.known }
    requires compiled { All AreCompiled areas.now.plan.tables }
    requires none { seats.old.items ≡ [] }
    requires room { 64 ≤ vec_capacity seats.old }
    ensures its_areas { IsOf areas.now seat.new }
    ensures kept { seat.new.known ≡ kept_lending seat.old.known }
    ensures areas { All (λ f. f.areas ≡ areas.now) seats.new.items }
    ensures shares { shares_in seats.new.items ≡ 32768 }
{
    let first = lend(areas, seat);
    spread(first, HALVINGS, seats);
}

/// The seat of a buffer. It gives up the version that it holds.
pub fn seat_of<'a, N: Naming>(turn: Turn<'a, N>) -> Option<FreeSeat<'a>>
    requires here { IsHere N.areas turn.seat }
    ensures areas { IfSome result (λ f. f.areas ≡ N.areas) }
    ensures share { IfSome result (λ f. f.known.share ≡ share_of turn.entry.seat) }
    ensures reads { IfSome result (λ f. reads_of turn.entry.seat ≤ f.known.reads) }
    ensures none { IfNone result ((share_of turn.entry.seat ≡ 0) × (reads_of turn.entry.seat ≡ 0)) }
{
    let Turn { seat, .. } = turn;
    match seat {
        TurnSeat::Free(free) => Some(free),
        TurnSeat::Held(held) => Some(let_go(held)),
        TurnSeat::Away => None,
    }
}
