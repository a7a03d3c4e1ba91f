// A row of lanes.
ghost use Rattle.std.specs.Prelude.{◌≡◌, ◌<◌, ◌++◌, IfOk, IsPermutation};
ghost use Rattle.item_stage.specs.Fragments.{lane_count};
ghost use Rattle.item_stage.specs.Ordered.{ascending};
ghost use Rattle.item_stage.specs.Waiting.{no_row, numbers_in, row_fed, row_turn};
ghost use Rattle.reassembly_lane.specs.Lanes.{arrival};

use crate::keys::LANES;
use aftr_base::{Numbers, OutOfMemory};
use reassembly_lane::{Fed, Lane, Piece};
use std::alloc::Global;
use std::marker::Model;

/// Sixteen lanes of fragments that wait, seen as the list of what waits in each.
#[derive(Debug, Drop)]
pub(crate) struct Row<K: Ord> {
    lanes: Vec<Lane<K>>,
}

impl<K: Ord> Model for Row<K> {
    ghost use Rattle.std.specs.Prelude.{◌≡◌, List, length};
    ghost use Rattle.reassembly_lane.specs.Contexts.{Partial};
    ghost use Rattle.item_stage.specs.Fragments.{lane_count};

    ghost Value = { List (List (K × Partial)) };

    ghost view = { λ r. r.lanes.items };

    ghost invariant = { λ r. length r.lanes.items ≡ lane_count };
}

impl<K: Ord + Copy + Drop> Row<K> {
    /// A row in which nothing waits.
    pub(crate) fn new(alloc: Global) -> Result<Self, OutOfMemory>
        ensures { IfOk result (λ row. row ≡ no_row) }
    {
        let mut lanes = Vec::with_capacity(alloc, LANES)?;
        'lanes: while lanes.len() < LANES {
            lanes.push(Lane::new(alloc))?;
        }
        Ok(Row { lanes })
    }

    /// Appends the first number of each datagram that waits, in no order.
    pub(crate) fn push_numbers(&self, alloc: Global, out: &mut Vec<u32>) -> Result<(), OutOfMemory>
        ensures { IfOk result (λ _. IsPermutation (out.old.items ++ numbers_in self.now) out.new.items) }
    {
        push_all(alloc, &self.lanes, out)
    }

    /// Gives a fragment to one lane. The others stay as they are.
    pub(crate) fn feed(
        &mut self,
        alloc: Global,
        lane: usize,
        piece: Piece<'_, K>,
    ) -> Result<Fed, OutOfMemory>
        requires { lane < lane_count }
        ensures { IfOk result (λ said. row_turn said self.new ≡ row_fed K.cmp self.old lane (arrival piece.entry)) }
    {
        Ok(self.lanes[lane].feed(alloc, piece)?)
    }
}

// The numbers of all that waits in some lanes.
fn push_all<K: Ord>(alloc: Global, lanes: &[Lane<K>], out: &mut Vec<u32>) -> Result<(), OutOfMemory>
    ensures { IfOk result (λ _. IsPermutation (out.old.items ++ numbers_in lanes.now) out.new.items) }
{
    let mut index = 0;
    'lanes: while index < lanes.len() {
        let waiting = lanes[index].unfinished(alloc)?;
        out.extend_from_slice(waiting.as_slice())?;
        index += 1;
    }
    Ok(())
}

/// The numbers, ascending.
pub(crate) fn ascending(mut numbers: Vec<u32>) -> Numbers
    ensures { result ≡ ascending numbers.items }
{
    numbers.sort_unstable();
    Numbers::of(numbers)
}

/// The numbers of two lists, ascending.
pub(crate) fn merged(first: Numbers, second: &Numbers) -> Result<Numbers, OutOfMemory>
    ensures { IfOk result (λ numbers. numbers ≡ ascending (first ++ second.now)) }
{
    let mut numbers = first.into_list();
    numbers.extend_from_slice(second.as_slice())?;
    Ok(ascending(numbers))
}
