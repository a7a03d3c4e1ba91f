// The places of each address, chained from the last one to the first, and from the first one to the last.
ghost use Rattle.std.specs.Prelude.{ℕ, ◌≡◌, ◌+◌, ◌<◌, ◌≤◌, ◌↔◌, Some, length, slice_get, IfOk, IsTrue};
ghost use Rattle.std.specs.Ordering.{nat_cmp};
ghost use Rattle.std.specs.BTreeMap.{get};
ghost use Rattle.binding_rules.specs.Conflicts.{HaveCommonPort, HaveOneShape};
ghost use Rattle.binding_rules.specs.Scans.{IsLinked, IsLinkedUp, IsNearest, IsLast, IsLeast, IsLeastUnlike, IsLater, IsAtAddress, AreWell, ends_within};
ghost use Rattle.binding_rules.specs.Steps.{count_of};

use crate::binding::Binding;
use crate::counter::Steps;
use crate::ports::have_common_port;
use aftr_base::OutOfMemory;
use std::alloc::Global;
use std::collections::BTreeMap;
use std::sync::ledger::Ledger;

/// For each place the nearest earlier place of the same address and the nearest later one, and for each address its last
/// place.
#[derive(Drop)]
pub(crate) struct Chains {
    pub(crate) previous: Vec<Option<u32>>,
    pub(crate) next: Vec<Option<u32>>,
    pub(crate) last: BTreeMap<u32, u32>,
}

pub(crate) fn chains_of(alloc: Global, bindings: &[Binding]) -> Result<Chains, OutOfMemory>
    requires { length bindings.now ≤ 65536 }
    ensures linked { IfOk result (λ c. IsLinked bindings.now c.previous.items) }
    ensures linked_up { IfOk result (λ c. IsLinkedUp bindings.now c.next.items) }
    ensures ends { IfOk result (λ c. (a : ℕ) → IsNearest bindings.now a (length bindings.now) (get nat_cmp c.last a)) }
{
    let mut previous = Vec::new(alloc);
    let mut last = BTreeMap::new(alloc);
    'places: for place in 0..bindings.len() {
        let earlier = last.insert(bindings[place].v4.0, place as u32)?;
        previous.push(earlier)?;
    }
    let next = next_of(alloc, bindings, &previous)?;
    Ok(Chains {
        previous,
        next,
        last,
    })
}

/// For each place the nearest later place of the same address.
fn next_of(
    alloc: Global,
    bindings: &[Binding],
    previous: &[Option<u32>],
) -> Result<Vec<Option<u32>>, OutOfMemory>
    requires few { length bindings.now ≤ 65536 }
    requires linked { IsLinked bindings.now previous.now }
    ensures { IfOk result (λ next. IsLinkedUp bindings.now next.items) }
{
    let mut next = Vec::with_capacity(alloc, bindings.len())?;
    'places: for place in 0..bindings.len() {
        next.push(None)?;
        if let Some(earlier) = previous[place] {
            next[earlier as usize] = Some(place as u32);
        }
    }
    Ok(next)
}

/// The first place of the address of which `last` is a place.
pub(crate) fn head_of<L: Ledger>(
    bindings: &[Binding],
    previous: &[Option<u32>],
    last: u32,
    steps: &mut Steps<L>,
) -> u32
    requires linked { IsLinked bindings.now previous.now }
    requires within { last < length bindings.now }
    ensures head { (a : ℕ) → IsAtAddress bindings.now a last → IsLeast (IsAtAddress bindings.now a) (Some result) }
    ensures cost { (a : ℕ) → IsAtAddress bindings.now a last → steps.new ≤ steps.old + count_of a bindings.now }
{
    let mut place = last;
    'chain: while let Some(earlier) = previous[place as usize] {
        steps.tick();
        place = earlier;
    }
    place
}

/// The least place of the address whose binding has another shape than `like`.
pub(crate) fn least_unlike<L: Ledger>(
    bindings: &[Binding],
    previous: &[Option<u32>],
    last: u32,
    like: Binding,
    steps: &mut Steps<L>,
) -> Option<u32>
    requires linked { IsLinked bindings.now previous.now }
    requires last { IsLast bindings.now like.v4.0 last }
    ensures least { IsLeastUnlike bindings.now like.v4.0 like result }
    ensures cost { steps.new ≤ steps.old + count_of like.v4.0 bindings.now }
{
    let mut found = None;
    let mut at = Some(last);
    'chain: while let Some(place) = at {
        steps.tick();
        if !have_one_shape(like, bindings[place as usize]) {
            found = at;
        }
        at = previous[place as usize];
    }
    found
}

pub(crate) fn have_one_shape(x: Binding, y: Binding) -> bool
    ensures { IsTrue result ↔ HaveOneShape x y }
{
    x.offset == y.offset && x.length == y.length
}

/// The least place of the address behind `place` whose binding has a port in common with `binding`, the one at `place`.
pub(crate) fn least_common<L: Ledger>(
    bindings: &[Binding],
    previous: &[Option<u32>],
    last: u32,
    place: u32,
    binding: Binding,
    steps: &mut Steps<L>,
) -> Option<u32>
    requires linked { IsLinked bindings.now previous.now }
    requires last { IsLast bindings.now binding.v4.0 last }
    requires well { AreWell bindings.now }
    requires there { slice_get bindings.now place ≡ Some binding }
    ensures least { IsLeast (IsLater bindings.now binding.v4.0 (Some place) (HaveCommonPort binding)) result }
    ensures cost { steps.new ≤ steps.old + count_of binding.v4.0 bindings.now }
{
    let mut found = None;
    let mut at = Some(last);
    'chain: while let Some(later) = at {
        steps.tick();
        if later == place {
            return found;
        }
        if have_common_port(binding, bindings[later as usize]) {
            found = at;
        }
        at = previous[later as usize];
    }
    found
}

/// Whether the address of which `last` is the last place has at most so many bindings.
pub(crate) fn has_at_most<L: Ledger>(
    bindings: &[Binding],
    previous: &[Option<u32>],
    last: u32,
    most: u32,
    steps: &mut Steps<L>,
) -> bool
    requires linked { IsLinked bindings.now previous.now }
    requires within { last < length bindings.now }
    ensures few { result ≡ ends_within previous.now (Some last) most }
    ensures cost { steps.new ≤ steps.old + most }
{
    let mut left = most;
    let mut at = Some(last);
    'chain: while let Some(place) = at {
        if left == 0 {
            return false;
        }
        steps.tick();
        left -= 1;
        at = previous[place as usize];
    }
    true
}
