// The owner of what is wanted, among the entries of an address.
ghost use Rattle.std.specs.Prelude.{◌≡◌, ℕ, ◌+◌, ◌-◌, ◌*◌, ◌/◌, ◌^◌, ◌<◌, ◌≤◌, IfSome, IfNone};
ghost use Rattle.table_words.specs.Reads.{read_more};
ghost use Rattle.table_words.specs.Spans.{IsEntryRange, IsHere, IsFound, IsNotFound, AreAlike, AreMarked, IsTunnelOfOwner, HasNoOwner, first_at, mark_of};
ghost use Rattle.table_words.specs.Tried.{IsOwnerBounded, IsTryingBounded};

use crate::counter::Steps;
use crate::entries::{MIXED, first_word, key_of, tunnel_end};
use crate::probes::{Spot, reach_of_key, spot_of};
use crate::reader::Words;
use crate::searches::{lower_bound, place_of};
use aftr_base::V6;
use binding_rules::Want;
use std::sync::ledger::Ledger;

/// The tunnel's end of the one entry that owns what is wanted, among those that a search for an address had not ruled out
/// when it found one of them. Only where that one is marked has the address several shapes.
#[inline(always)]
pub(crate) fn owner_near<W: Words, L: Ledger>(
    words: &mut W,
    spot: Spot,
    want: Want,
    steps: &mut Steps<L>,
) -> Option<V6>
    requires span { IsEntryRange (W.list words.old) spot.low spot.high }
    requires here { IsHere (W.list words.old) spot.low spot.high spot.at spot.first }
    requires alike { mark_of spot.first ≡ 0 → AreAlike (W.list words.old) spot.low spot.high (spot.first / 4294967296) }
    requires marked { mark_of spot.first ≡ 1 → AreMarked (W.list words.old) spot.low spot.high (spot.first / 4294967296) }
    ensures owner { IfSome result (λ b4. IsTunnelOfOwner (W.list words.old) spot.low spot.high (spot.first / 4294967296) want b4.0) }
    ensures none { IfNone result (HasNoOwner (W.list words.old) spot.low spot.high (spot.first / 4294967296) want) }
    ensures bound { IsOwnerBounded (W.list words.old) spot.low spot.high (mark_of spot.first) result steps.old steps.new }
    ensures list { W.list words.new ≡ W.list words.old }
    ensures reads { W.reads words.new ≡ read_more (W.reads words.old) (steps.new - steps.old) }
    ensures goes { W.goes words.old words.new }
    ensures later { steps.old ≤ steps.new }
{
    if spot.first / MIXED % 2 == 1 {
        return owner_mixed(words, spot.low, spot.high, spot.first, want, steps);
    }
    owner_alike(words, spot, want, steps)
}

/// The same where all entries of the address have one shape. The one that was found tells it, and with it the first word
/// that the owner has.
#[inline(always)]
fn owner_alike<W: Words, L: Ledger>(
    words: &mut W,
    spot: Spot,
    want: Want,
    steps: &mut Steps<L>,
) -> Option<V6>
    requires span { IsEntryRange (W.list words.old) spot.low spot.high }
    requires here { IsHere (W.list words.old) spot.low spot.high spot.at spot.first }
    requires alike { AreAlike (W.list words.old) spot.low spot.high (spot.first / 4294967296) }
    ensures owner { IfSome result (λ b4. IsTunnelOfOwner (W.list words.old) spot.low spot.high (spot.first / 4294967296) want b4.0) }
    ensures none { IfNone result (HasNoOwner (W.list words.old) spot.low spot.high (spot.first / 4294967296) want) }
    ensures bound { (d : ℕ) → spot.high - spot.low < 2 ^ d → steps.new ≤ steps.old + d + 3 }
    ensures list { W.list words.new ≡ W.list words.old }
    ensures reads { W.reads words.new ≡ read_more (W.reads words.old) (steps.new - steps.old) }
    ensures goes { W.goes words.old words.new }
    ensures later { steps.old ≤ steps.new }
{
    let key = key_of(spot.first, want)?;
    let owner = spot_of(words, reach_of_key(spot, key), key, key, steps)?;
    Some(tunnel_end(words, owner.at, steps))
}

/// The same where the entries of the address have several shapes: each of them is tried in turn. `found` is the first word that was
/// found. All of it fits into registers, so that a search for an address of one shape keeps nothing in memory.
fn owner_mixed<W: Words, L: Ledger>(
    words: &mut W,
    low: u32,
    high: u32,
    found: u64,
    want: Want,
    steps: &mut Steps<L>,
) -> Option<V6>
    requires span { IsEntryRange (W.list words.old) low high }
    requires marked { AreMarked (W.list words.old) low high (found / 4294967296) }
    ensures owner { IfSome result (λ b4. IsTunnelOfOwner (W.list words.old) low high (found / 4294967296) want b4.0) }
    ensures none { IfNone result (HasNoOwner (W.list words.old) low high (found / 4294967296) want) }
    ensures bound { IsTryingBounded (W.list words.old) low high result steps.old steps.new }
    ensures list { W.list words.new ≡ W.list words.old }
    ensures reads { W.reads words.new ≡ read_more (W.reads words.old) (steps.new - steps.old) }
    ensures goes { W.goes words.old words.new }
    ensures later { steps.old ≤ steps.new }
{
    let address = found / 0x1_0000_0000;
    let mut from = low;
    let mut least = address * 0x1_0000_0000;
    'shapes: loop {
        from = lower_bound(words, from, high, least, steps);
        if from >= high {
            return None;
        }
        let first = first_word(words, from, steps);
        if first / 0x1_0000_0000 != address {
            return None;
        }
        if let Some(end) = owner_like(words, from, high, first, want, steps) {
            return Some(end);
        }
        least = first - first % 0x1_0000 + 0x1_0000;
    }
}

/// Of these entries the tunnel's end of the one with the address and shape of this first word that owns what is wanted.
pub(crate) fn owner_like<W: Words, L: Ledger>(
    words: &mut W,
    from: u32,
    to: u32,
    first: u64,
    want: Want,
    steps: &mut Steps<L>,
) -> Option<V6>
    requires span { IsEntryRange (W.list words.old) from to }
    requires here { first ≡ first_at (W.list words.old) from }
    requires some { from < to }
    ensures owner { IfSome result (λ b4. IsFound (W.list words.old) from to first want b4.0) }
    ensures none { IfNone result (IsNotFound (W.list words.old) from to first want) }
    ensures bound { (d : ℕ) → to - from < 2 ^ d → steps.new ≤ steps.old + d + 3 }
    ensures bound_none { IfNone result ((d : ℕ) → to - from < 2 ^ d → steps.new ≤ steps.old + d + 1) }
    ensures list { W.list words.new ≡ W.list words.old }
    ensures reads { W.reads words.new ≡ read_more (W.reads words.old) (steps.new - steps.old) }
    ensures goes { W.goes words.old words.new }
    ensures later { steps.old ≤ steps.new }
{
    let key = key_of(first, want)?;
    let at = place_of(words, from, to, first, key, steps);
    if at >= to || first_word(words, at, steps) != key {
        return None;
    }
    Some(tunnel_end(words, at, steps))
}
