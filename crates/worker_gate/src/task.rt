// What is drawn and judged, and what the workers of a round share.
ghost use Rattle.std.specs.Prelude.{◌+◌, ◌≤◌, length};

use crate::gate::Gate;
use area_swap::Areas;
use item_stage::RoundItems;

/// Records to be drawn and judged: those with the numbers from `start` to below `end`. The first of the items is that of the record
/// with the number `start`.
#[derive(Drop)]
pub struct Work<'a, S: RoundItems, G: Gate> {
    pub items: &'a S,
    pub start: u32,
    pub end: u32,
    /// Called for each record between its draw and its judgement.
    pub gate: &'a G,
}

/// The same in the areas of the workers, up to `most` at once.
#[derive(Drop)]
pub(crate) struct Task<'a, S: RoundItems, G: Gate> {
    pub(crate) areas: &'a Areas,
    pub(crate) items: &'a S,
    pub(crate) start: u32,
    pub(crate) end: u32,
    pub(crate) most: u32,
    /// Each worker has a thread of its own.
    pub(crate) apart: bool,
    pub(crate) gate: &'a G,
    pub(crate) ghost inside: { end ≤ start + length (S.items items.now) },
    pub(crate) ghost some_one: { 1 ≤ most },
}
