// The buffer of a round.
ghost use Rattle.area_swap.specs.Values.{AreasValue};
ghost use Rattle.run_turns.specs.Turns.{no_areas};

use capture_io::Form;
use item_stage::StagedRound;
use round_pipeline::RoundBuffer;
use run_output::Part;
use std::alloc::Global;
use std::marker::{Brand, PhantomData};
use worker_gate::{FreeSeat, HeldSeat};

/// Which areas the seats of a run are of. Each run picks them.
pub trait Naming {
    ghost areas: { AreasValue };
}

impl Naming for Brand {
    ghost areas = { no_areas };
}

/// The seat of a round.
#[derive(Drop)]
pub enum TurnSeat<'a> {
    /// It holds nothing.
    Free(FreeSeat<'a>),
    /// It holds the version under which the round's records were drawn.
    Held(HeldSeat<'a>),
    /// The buffer has none: the source has one for it, or somebody has it who puts it back.
    Away,
}

/// A round on its way: its records, the seat of whoever judges them, and what they write. Its memory serves round after round.
#[derive(Drop)]
pub struct Turn<'a, N: Naming> {
    /// The records, and what the stage made of each.
    pub round: StagedRound,
    /// The number of the first record.
    pub start: u32,
    pub seat: TurnSeat<'a>,
    /// The lines of the tables that came into force since the round before.
    pub versions: String,
    /// What the records write.
    pub part: Part,
    /// Memory was refused: the round is not whole, and the run ends.
    pub refused: bool,
    of: PhantomData<N>,
}

impl<'a, N: Naming> RoundBuffer for Turn<'a, N> {
    ghost use Rattle.run_turns.specs.Turns.{IsFree, IsReadRound};

    ghost empty = { λ t. IsFree N.areas t.seat };

    ghost filled = { λ t. IsReadRound N.areas t.start t.round t.seat t.refused };

    ghost judged = { λ t. IsReadRound N.areas t.start t.round t.seat t.refused };
}

impl<'a, N: Naming> Turn<'a, N> {
    ghost use Rattle.std.specs.Prelude.{◌≡◌};
    ghost use Rattle.run_turns.specs.declared.turn.TurnSeat.TheVariants as turn_seat;

    /// A buffer with no round and no seat, for a capture of this form.
    pub fn new(alloc: Global, form: Form) -> Turn<'a, N>
        ensures { result.seat ≡ turn_seat.Away }
    {
        Turn {
            round: StagedRound::new(alloc, form),
            start: 0,
            seat: TurnSeat::Away,
            versions: String::new(alloc),
            part: Part::new(alloc),
            refused: false,
            of: PhantomData,
        }
    }
}
