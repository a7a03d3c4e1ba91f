// The plan of a run.
ghost use Rattle.std.specs.Prelude.{◌≡◌, ◌+◌, ◌≤◌, All, IfOk, List, ℕ, length};
ghost use Rattle.swap_core.specs.Plans.{MayFollow};
ghost use Rattle.table_words.specs.Layout.{AreCompiled};
ghost use Rattle.reload_plan.specs.Accepted.{AreSound, accepted, after, slot_of, slots_from};
ghost use Rattle.reload_plan.specs.declared.loads.Loaded.TheVariants as loaded;

use crate::loads::{Load, Loaded, Made, Slot, Slots};
use aftr_base::{OutOfMemory, WordList};
use std::alloc::Global;
use swap_core::Plan;

/// The tables of a run: the first one, and behind it the loads that are tables, each with its window. A refused load takes no
/// version.
pub fn plan(alloc: Global, first: WordList, loads: Vec<Load>) -> Result<Made, OutOfMemory>
    requires few { length loads.items ≤ 255 }
    requires first { AreCompiled first }
    requires loads { AreSound loads.items }
    ensures plan { IfOk result (λ made. made.plan ≡ accepted first loads.items) }
    ensures slots { IfOk result (λ made. made.slots ≡ slots_from 0 loads.items) }
    ensures compiled { IfOk result (λ made. All AreCompiled made.plan.tables) }
{
    let mut plan = Plan::of(alloc, first)?;
    let mut slots = Vec::with_capacity(alloc, loads.len())?;
    'loads: for load in loads {
        let slot = take(&mut plan, load)?;
        slots.push(slot)?;
    }
    Ok(Made {
        plan,
        slots: Slots::of(slots),
    })
}

// Takes one load more.
fn take(plan: &mut Plan, load: Load) -> Result<Slot, OutOfMemory>
    requires { (words : List ℕ) → load.loaded ≡ loaded.Words words → MayFollow plan.old load.window words }
    ensures plan { IfOk result (λ _. plan.new ≡ after plan.old load) }
    ensures slot { IfOk result (λ slot. slot ≡ slot_of load.loaded (length plan.old.windows + 1)) }
{
    let Load { window, loaded } = load;
    match loaded {
        Loaded::Words(words) => {
            plan.add(window, words)?;
            Ok(Slot::Version(plan.len() - 1))
        }
        Loaded::Refused(cause) => Ok(Slot::Refused(cause)),
    }
}
