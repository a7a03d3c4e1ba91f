// The kinds of step, each by what it tells the seat that takes it, and the moves of seats.
use crate::board::View;
use atomic_table::{Join, Play, Split};

/// A load of the version word, to know it.
pub struct Glance;

impl Play<(), View> for Glance {
    ghost use Rattle.area_swap.specs.SeatSteps.{Glanced};

    ghost then = { Glanced };
}

/// The first load of the version word in a claim.
pub struct Look;

impl Play<(), View> for Look {
    ghost use Rattle.area_swap.specs.SeatSteps.{LookedAt};

    ghost then = { LookedAt };
}

/// 1 is added to the claims on an area.
pub struct Enter;

impl Play<(), View> for Enter {
    ghost use Rattle.area_swap.specs.SeatSteps.{Entered};

    ghost then = { Entered };
}

/// The second load of the version word in a claim.
pub struct Confirm;

impl Play<(), View> for Confirm {
    ghost use Rattle.area_swap.specs.SeatSteps.{Confirmed};

    ghost then = { Confirmed };
}

/// 1 is taken from the claims on an area.
pub struct Leave;

impl Play<(), View> for Leave {
    ghost use Rattle.area_swap.specs.SeatSteps.{LeftIt};

    ghost then = { LeftIt };
}

/// A load of a word of the held area.
pub struct ReadWord;

impl Play<(), View> for ReadWord {
    ghost use Rattle.area_swap.specs.SeatSteps.{ReadOne};

    ghost then = { ReadOne };
}

/// A compare-exchange of the version word, by some records more.
pub struct Exchange;

impl Play<(), View> for Exchange {
    ghost use Rattle.area_swap.specs.SeatSteps.{Drew};

    ghost then = { Drew };
}

/// The desk's load of the version word.
pub struct FindDue;

impl Play<(), View> for FindDue {
    ghost use Rattle.area_swap.specs.SeatSteps.{FoundDue};

    ghost then = { FoundDue };
}

/// The desk's load of the claims on the spare area.
pub struct CountClaims;

impl Play<(), View> for CountClaims {
    ghost use Rattle.area_swap.specs.SeatSteps.{ReadClaims};

    ghost then = { ReadClaims };
}

/// The desk's load by which it passes over words of the next table that stand in the spare area already.
pub struct PassWords;

impl Play<(), View> for PassWords {
    ghost use Rattle.area_swap.specs.SeatSteps.{Passed};

    ghost then = { Passed };
}

/// The desk's load of a word of the spare area, which may be the next table's already.
pub struct FindWord;

impl Play<(), View> for FindWord {
    ghost use Rattle.area_swap.specs.SeatSteps.{FoundWord};

    ghost then = { FoundWord };
}

/// The desk's store of a word of the next table.
pub struct WriteWord;

impl Play<(), View> for WriteWord {
    ghost use Rattle.area_swap.specs.SeatSteps.{Wrote};

    ghost then = { Wrote };
}

/// 1 is added to the version.
pub struct PublishTable;

impl Play<(), View> for PublishTable {
    ghost use Rattle.area_swap.specs.SeatSteps.{Published};

    ghost then = { Published };
}

/// The desk's seat is taken from the first seat.
pub struct DeskApart;

impl Split<View> for DeskApart {
    ghost use Rattle.area_swap.specs.Views.{desk_view, worker_view};

    ghost left = { worker_view };

    ghost right = { desk_view };
}

/// A worker's seat is split.
pub struct Halves;

impl Split<View> for Halves {
    ghost use Rattle.area_swap.specs.Views.{kept_half, new_half};

    ghost left = { kept_half };

    ghost right = { new_half };
}

/// A seat that never draws is split off a worker's.
pub struct Lending;

impl Split<View> for Lending {
    ghost use Rattle.area_swap.specs.Views.{kept_lending, lent_half};

    ghost left = { kept_lending };

    ghost right = { lent_half };
}

/// A worker's seat is joined into another.
pub struct Together;

impl Join<View> for Together {
    ghost use Rattle.area_swap.specs.Views.{spent_view, together};

    ghost both = { together };

    ghost spent = { spent_view };
}

/// The desk's seat is joined into a worker's.
pub struct WithDesk;

impl Join<View> for WithDesk {
    ghost use Rattle.area_swap.specs.Views.{spent_view, with_desk_of};

    ghost both = { with_desk_of };

    ghost spent = { spent_view };
}
