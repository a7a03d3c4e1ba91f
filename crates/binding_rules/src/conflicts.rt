// The first conflict, found address by address.
ghost use Rattle.std.specs.Prelude.{◌≡◌, ℕ, ◌+◌, ◌*◌, ◌<◌, ◌≤◌, true, false, None, Some, length, IfOk};
ghost use Rattle.binding_rules.specs.Conflicts.{Conflict};
ghost use Rattle.binding_rules.specs.Scans.{IsLinked, IsLinkedUp, IsLast, IsLeast, IsFirstPair, IsAtAddress, AreShared, IsOwnersOf};
ghost use Rattle.binding_rules.specs.Scans.{AreWell, AreFresh, earlier_of, ends_within, paired, slot, most_compared};
ghost use Rattle.binding_rules.specs.Steps.{addresses, count_of};

use crate::binding::Binding;
use crate::chains::{Chains, chains_of, has_at_most, head_of, least_common, least_unlike};
use crate::counter::Steps;
use crate::owners::meet;
use crate::settings::Edition;
use aftr_base::{OutOfMemory, V4};
use std::alloc::Global;
use std::marker::Brand;
use std::sync::ledger::{Blank, Ledger};

/// Up to how many bindings of unlike shapes on one address are compared each with each.
const MOST_COMPARED: u32 = 256;

/// The places of two bindings, the first before the second.
#[derive(Clone, Copy, Debug, PartialEq, Eq)]
pub(crate) struct Pair {
    pub(crate) first: u32,
    pub(crate) second: u32,
}

/// Of two pairs the one whose second place, or at the same second place whose first place, is less.
fn earlier(x: Option<Pair>, y: Option<Pair>) -> Option<Pair>
    ensures { result ≡ earlier_of x y }
{
    match (x, y) {
        (Some(a), Some(b)) => {
            if b.second < a.second || b.second == a.second && b.first < a.first {
                y
            } else {
                x
            }
        }
        (None, y) => y,
        (x, None) => x,
    }
}

fn pair_of(first: u32, second: Option<u32>) -> Option<Pair>
    ensures { result ≡ paired first second }
{
    Some(Pair {
        first,
        second: second?,
    })
}

/// The first pair of the address that has an identifier in common.
fn shared_pair<L: Ledger>(
    bindings: &[Binding],
    previous: &[Option<u32>],
    v4: V4,
    last: u32,
    owners: &mut [Option<u32>],
    steps: &mut Steps<L>,
) -> Option<Pair>
    requires few { length bindings.now ≤ 65536 }
    requires linked { IsLinked bindings.now previous.now }
    requires last { IsLast bindings.now v4.0 last }
    requires well { AreWell bindings.now }
    requires size { length owners.old ≡ 65536 }
    requires fresh { AreFresh bindings.now v4.0 owners.old }
    ensures first { IsFirstPair bindings.now (AreShared false) (IsAtAddress bindings.now v4.0) result }
    ensures owners { IsOwnersOf bindings.now v4.0 owners.old owners.new }
    ensures cost { steps.new ≤ steps.old + count_of v4.0 bindings.now }
{
    let mut best = None;
    let mut at = Some(last);
    'chain: while let Some(place) = at {
        let met = meet(
            bindings,
            v4,
            false,
            place,
            bindings[place as usize],
            owners,
            steps,
        );
        best = earlier(best, pair_of(place, met));
        at = previous[place as usize];
    }
    best
}

/// The same for ports, by a comparison of each two bindings of the address. It takes no slots. At most `MOST_COMPARED` bindings are
/// compared so, since the comparisons grow with the square of their number.
fn compared_pair<L: Ledger>(
    bindings: &[Binding],
    previous: &[Option<u32>],
    v4: V4,
    last: u32,
    steps: &mut Steps<L>,
) -> Option<Pair>
    requires linked { IsLinked bindings.now previous.now }
    requires few { ends_within previous.now (Some last) most_compared ≡ true }
    requires last { IsLast bindings.now v4.0 last }
    requires well { AreWell bindings.now }
    ensures first { IsFirstPair bindings.now (AreShared true) (IsAtAddress bindings.now v4.0) result }
    ensures cost { steps.new ≤ steps.old + 65792 }
{
    let mut best = None;
    let mut at = Some(last);
    'chain: while let Some(place) = at {
        let met = least_common(
            bindings,
            previous,
            last,
            place,
            bindings[place as usize],
            steps,
        );
        best = earlier(best, pair_of(place, met));
        at = previous[place as usize];
    }
    best
}

/// The same by the slots of the ports, from the first place up. It ends at the first place that owns a port of an earlier
/// one: before it no port was taken twice, so no more than twice 65,536 ports are looked at.
fn risen_pair<L: Ledger>(
    bindings: &[Binding],
    next: &[Option<u32>],
    v4: V4,
    head: u32,
    owners: &mut [Option<u32>],
    steps: &mut Steps<L>,
) -> Option<Pair>
    requires few { length bindings.now ≤ 65536 }
    requires linked { IsLinkedUp bindings.now next.now }
    requires head { IsLeast (IsAtAddress bindings.now v4.0) (Some head) }
    requires well { AreWell bindings.now }
    requires size { length owners.old ≡ 65536 }
    requires fresh { AreFresh bindings.now v4.0 owners.old }
    ensures first { IsFirstPair bindings.now (AreShared true) (IsAtAddress bindings.now v4.0) result }
    ensures owners { IsOwnersOf bindings.now v4.0 owners.old owners.new }
    ensures cost { steps.new ≤ steps.old + 262144 }
{
    let mut at = Some(head);
    'chain: while let Some(second) = at {
        let binding = bindings[second as usize];
        if let Some(first) = meet(bindings, v4, true, second, binding, owners, steps) {
            return Some(Pair { first, second });
        }
        at = next[second as usize];
    }
    None
}

/// The first conflict of the address. Where all its bindings have one shape, a common port is an equal identifier.
fn address_pair<L: Ledger>(
    edition: Edition,
    bindings: &[Binding],
    chains: &Chains,
    v4: V4,
    last: u32,
    owners: &mut [Option<u32>],
    steps: &mut Steps<L>,
) -> Option<Pair>
    requires few { length bindings.now ≤ 65536 }
    requires linked { IsLinked bindings.now chains.now.previous.items }
    requires linked_up { IsLinkedUp bindings.now chains.now.next.items }
    requires last { IsLast bindings.now v4.0 last }
    requires well { AreWell bindings.now }
    requires size { length owners.old ≡ 65536 }
    requires fresh { AreFresh bindings.now v4.0 owners.old }
    ensures first { IsFirstPair bindings.now (Conflict edition) (IsAtAddress bindings.now v4.0) result }
    ensures owners { IsOwnersOf bindings.now v4.0 owners.old owners.new }
    ensures cost { steps.new ≤ steps.old + 400000 + 10 * count_of v4.0 bindings.now }
{
    let previous = chains.previous.as_slice();
    match edition {
        Edition::One => {
            let shared = shared_pair(bindings, previous, v4, last, owners, steps);
            let head = head_of(bindings, previous, last, steps);
            let unlike = least_unlike(bindings, previous, last, bindings[head as usize], steps);
            earlier(pair_of(head, unlike), shared)
        }
        Edition::Two => {
            let unlike = least_unlike(bindings, previous, last, bindings[last as usize], steps);
            if unlike.is_none() {
                shared_pair(bindings, previous, v4, last, owners, steps)
            } else if has_at_most(bindings, previous, last, MOST_COMPARED, steps) {
                compared_pair(bindings, previous, v4, last, steps)
            } else {
                let head = head_of(bindings, previous, last, steps);
                risen_pair(bindings, chains.next.as_slice(), v4, head, owners, steps)
            }
        }
    }
}

/// A slot for each port or identifier, none of them taken.
fn no_owners(alloc: Global) -> Result<Vec<Option<u32>>, OutOfMemory>
    ensures size { IfOk result (λ owners. length owners.items ≡ 65536) }
    ensures none { IfOk result (λ owners. (key : ℕ) → key < 65536 → slot owners.items key ≡ None) }
{
    let mut owners = Vec::with_capacity(alloc, 65536)?;
    'keys: while owners.len() < 65536 {
        owners.push(None)?;
    }
    Ok(owners)
}

/// The first conflict.
pub(crate) fn first_conflict(
    alloc: Global,
    edition: Edition,
    bindings: &[Binding],
) -> Result<Option<Pair>, OutOfMemory>
    requires few { length bindings.now ≤ 65536 }
    requires well { AreWell bindings.now }
    ensures { IfOk result (λ best. IsFirstPair bindings.now (Conflict edition) (λ n. Unit {0}) best) }
{
    conflict_in::<Brand>(alloc, edition, bindings, Blank::new(1))
}

fn conflict_in<L: Ledger>(
    alloc: Global,
    edition: Edition,
    bindings: &[Binding],
    blank: Blank,
) -> Result<Option<Pair>, OutOfMemory>
    requires few { length bindings.now ≤ 65536 }
    requires well { AreWell bindings.now }
    requires name { blank.name ≡ L.name }
    requires parts { blank.parts ≡ L.parts }
    requires some { 0 < blank.parts }
    ensures { IfOk result (λ best. IsFirstPair bindings.now (Conflict edition) (λ n. Unit {0}) best) }
{
    let mut steps = Steps::<L>::start(blank);
    counted_conflict(alloc, edition, bindings, &mut steps)
}

/// The same with its steps: of each place, slot or pair that is looked at, at most 400,000 an address and 10 a binding.
fn counted_conflict<L: Ledger>(
    alloc: Global,
    edition: Edition,
    bindings: &[Binding],
    steps: &mut Steps<L>,
) -> Result<Option<Pair>, OutOfMemory>
    requires few { length bindings.now ≤ 65536 }
    requires well { AreWell bindings.now }
    ensures first { IfOk result (λ best. IsFirstPair bindings.now (Conflict edition) (λ n. Unit {0}) best) }
    ensures cost { steps.new ≤ steps.old + 400000 * addresses bindings.now + 10 * length bindings.now }
{
    let chains = chains_of(alloc, bindings)?;
    let mut owners = no_owners(alloc)?;
    let mut best = None;
    'places: for place in 0..bindings.len() {
        let v4 = bindings[place].v4;
        if chains.last.get(&v4.0).copied() == Some(place as u32) {
            let found = address_pair(
                edition,
                bindings,
                &chains,
                v4,
                place as u32,
                &mut owners,
                steps,
            );
            best = earlier(best, found);
        }
    }
    Ok(best)
}
