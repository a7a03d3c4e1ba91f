// The contexts of a lane whose time is up.
ghost use Rattle.std.specs.Prelude.{◌≡◌, ◌≤◌, ℕ, IfOk, OnErr};
ghost use Rattle.reassembly_lane.specs.Lanes.{first_numbers, late_numbers, open_at};
ghost use Rattle.reassembly_lane.specs.Numbers.{IsAscending};
ghost use Rattle.reassembly_lane.specs.Since.{Since};

use crate::context::Context;
use crate::contexts::waits;
use aftr_base::{Numbers, OutOfMemory};
use std::alloc::Global;
use std::collections::BTreeMap;

/// What a look at all contexts told.
#[derive(Drop)]
pub(crate) struct Late {
    /// The first piece's number of each context whose time is up.
    pub(crate) numbers: Vec<u32>,
    /// A time that none of the others began before.
    pub(crate) oldest: u64,
}

/// Looks at each context once.
pub(crate) fn late_at<K: Ord>(
    alloc: Global,
    contexts: &BTreeMap<K, Context>,
    time: u64,
) -> Result<Late, OutOfMemory>
    ensures numbers { IfOk result (λ late. late.numbers.items ≡ late_numbers time contexts.now.entries) }
    ensures oldest { IfOk result (λ late. Since late.oldest (open_at time contexts.now.entries)) }
{
    let mut numbers = Vec::new(alloc);
    let mut oldest = u64::MAX;
    for (_, context) in contexts {
        if waits(time, context.begun()) {
            oldest = oldest.min(context.begun());
        } else {
            numbers.push(context.number())?;
        }
    }
    Ok(Late { numbers, oldest })
}

/// The first piece's number of each context.
pub(crate) fn all_numbers<K: Ord>(
    alloc: Global,
    contexts: &BTreeMap<K, Context>,
) -> Result<Vec<u32>, OutOfMemory>
    ensures { IfOk result (λ numbers. numbers.items ≡ first_numbers contexts.now.entries) }
{
    let mut numbers = Vec::with_capacity(alloc, contexts.len())?;
    for (_, context) in contexts {
        numbers.push(context.number())?;
    }
    Ok(numbers)
}

/// The numbers in order.
pub(crate) fn ascending(mut numbers: Vec<u32>) -> Numbers
    ensures { IsAscending numbers.items result }
{
    numbers.sort_unstable();
    Numbers::of(numbers)
}
