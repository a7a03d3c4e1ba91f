// What a seat knows, and the rule of the words.
use crate::answers::Seen;
use atomic_table::{Seat, Shared, Table, TableRule};
use std::alloc::Global;
use std::collections::LinkedList;
use swap_core::{Actor, DeskState, Plan};

/// What a seat knows: a worker's part, the readings of the version word, and the desk's part. Contracts alone see it, and
/// no value of it is made.
pub struct View {
    pub plan: Plan,
    /// Where the seat is on its way to a table, and what it has drawn.
    pub actor: Actor,
    /// Its share of 65,536: who has all of it works alone.
    pub share: u64,
    /// Its part of 65,536 in the right to draw. A seat with no part has drawn nothing, and one with all of it has drawn every number.
    pub right: u64,
    /// How many words of the areas it has read.
    pub reads: u64,
    /// The version word as it was read last, and the reading before that.
    pub seen: Seen,
    pub prior: Seen,
    /// How often it has read the version word.
    pub looks: u64,
    /// Whether the seat is the desk's.
    pub has_desk: bool,
    pub desk: DeskState,
    pub points: LinkedList<u32>,
    /// The claims on the spare area as they were read last, and how often they were read.
    pub counted: u64,
    pub counts: u64,
}

/// The rule of the words and views.
pub struct Swapping;

impl TableRule<(), View, Plan> for Swapping {
    ghost use Rattle.area_swap.specs.Rule.{Ruled};
    ghost use Rattle.area_swap.specs.Views.{first_view};

    ghost holds = { Ruled };

    ghost first = { first_view };
}

pub(crate) type Board = Table<(), View, Plan, Swapping, Global>;

pub(crate) type Place = Seat<(), View>;

pub(crate) type SharedWords = Shared<(), View, Plan, Swapping>;
