// Which words of a table are not those that stand in its area already: the desk looks at no others.
ghost use Rattle.std.specs.Prelude.{◌≡◌, ◌+◌, ◌<◌, ◌≤◌, false, IfOk, [], length, min, replicate, slice_index_or};
ghost use Rattle.swap_core.specs.Plans.{AreAlike, stale, width};
ghost use Rattle.area_swap.specs.Changes.{AreChanges, AreListed, block_words};

use aftr_base::OutOfMemory;
use std::alloc::Global;
use std::marker::Model;
use swap_core::Plan;

/// So many words are a block, which is 128 bytes: a list takes at most a thirty-second of the memory of its table, and twice that with
/// the room that it has grown to.
pub(crate) const BLOCK: usize = 16;

/// The blocks of a table that differ from what stands in its area before it is written, in order. It is seen as their list.
#[derive(Drop)]
pub(crate) struct Changes {
    blocks: Vec<u32>,
}

impl Model for Changes {
    ghost use Rattle.std.specs.Prelude.{ℕ, List};

    ghost Value = { List ℕ };

    ghost view = { λ c. c.blocks.items };
}

// Whether a word of the block that begins there may be another than stands there already.
fn differs(standing: &[u64], next: &[u64], first: usize) -> bool
    requires begins { first < length next.now }
    requires small { length next.now ≤ 16777216 }
    ensures { result ≡ false → AreAlike standing.now next.now first (min (length next.now) (first + block_words)) }
{
    let end = next.len().min(first + BLOCK);
    if standing.len() < end {
        return true;
    }
    'words: for place in first..end {
        let stands = standing[place];
        let word = next[place];
        if stands != word {
            return true;
        }
    }
    false
}

impl Changes {
    ghost use Rattle.std.specs.Prelude.{◌≡◌, ◌≤◌, IfOk, length};
    ghost use Rattle.area_swap.specs.Changes.{AreChanges};

    /// The blocks of the next words that differ from those that stand there.
    fn of(alloc: Global, standing: &[u64], next: &[u64]) -> Result<Changes, OutOfMemory>
        requires { length next.now ≤ 16777216 }
        ensures { IfOk result (λ changes. AreChanges standing.now next.now 0 (length next.now) changes) }
    {
        let mut blocks = Vec::new(alloc);
        let count = (next.len() + BLOCK - 1) / BLOCK;
        'listing: for block in 0..count {
            if differs(standing, next, block * BLOCK) {
                blocks.push(block as u32)?;
            }
        }
        Ok(Changes { blocks })
    }
}

/// The blocks of the table that comes next while the version is in force.
pub(crate) fn blocks_of(lists: &[Changes], version: usize) -> &[u32]
    requires { version < length lists.now }
    ensures { result.now ≡ slice_index_or lists.now version [] }
{
    let changes = &lists[version];
    changes.blocks.as_slice()
}

// The words that stand in the spare area while the version is in force.
fn standing<'a>(plan: &'a Plan, zeros: &'a [u64], version: u32) -> &'a [u64]
    requires there { version < length plan.now.tables }
    requires zeros { zeros.now ≡ replicate (width plan.now) 0 }
    ensures { result.now ≡ stale plan.now version }
{
    if version == 0 {
        zeros
    } else {
        plan.words(version - 1)
    }
}

/// For each table but the first its changes.
pub(crate) fn changes_of(alloc: Global, plan: &Plan) -> Result<Vec<Changes>, OutOfMemory>
    ensures { IfOk result (λ lists. AreListed plan.now lists.items) }
{
    let long = plan.width();
    let mut zeros: Vec<u64> = Vec::with_capacity(alloc, long)?;
    zeros.resize(long, 0)?;
    let mut lists = Vec::new(alloc);
    'versions: for version in 0..plan.len() - 1 {
        let before = standing(plan, zeros.as_slice(), version);
        let changes = Changes::of(alloc, before, plan.words(version + 1))?;
        lists.push(changes)?;
    }
    Ok(lists)
}
