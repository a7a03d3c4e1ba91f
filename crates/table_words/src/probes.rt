// The search that begins where an entry is guessed to be.
ghost use Rattle.std.specs.Prelude.{◌≡◌, ℕ, ◌+◌, ◌-◌, ◌*◌, ◌^◌, ◌<◌, ◌≤◌, IfSome, IfNone};
ghost use Rattle.table_words.specs.Reads.{read_more};
ghost use Rattle.table_words.specs.Spans.{IsEntryRange, IsSpot, HasNoSpot, IsReach};
ghost use Rattle.table_words.specs.Tried.{IsNarrowed};

use crate::counter::Steps;
use crate::entries::first_word;
use crate::reader::Words;
use aftr_base::V4;
use std::sync::ledger::Ledger;

/// An entry that was found, its first word, and the entries that the search had not ruled out.
#[derive(Clone, Copy, Debug)]
pub(crate) struct Spot {
    pub(crate) low: u32,
    pub(crate) high: u32,
    pub(crate) at: u32,
    pub(crate) first: u64,
}

/// Entries, and the one of them to read first.
#[derive(Clone, Copy, Debug)]
pub(crate) struct Reach {
    pub(crate) low: u32,
    pub(crate) high: u32,
    pub(crate) guess: u32,
}

/// An entry of these whose first word is from `least` to `most`. It reads the entry at `guess` first, and halves the
/// entries at each further step.
#[inline(always)]
pub(crate) fn spot_of<W: Words, L: Ledger>(
    words: &mut W,
    reach: Reach,
    least: u64,
    most: u64,
    steps: &mut Steps<L>,
) -> Option<Spot>
    requires span { IsEntryRange (W.list words.old) reach.low reach.high }
    requires low_guess { reach.low < reach.high → reach.low ≤ reach.guess }
    requires high_guess { reach.low < reach.high → reach.guess < reach.high }
    ensures spot { IfSome result (λ s. IsSpot (W.list words.old) reach.low reach.high least most s.low s.high s.at s.first) }
    ensures none { IfNone result (HasNoSpot (W.list words.old) reach.low reach.high least most) }
    ensures halved { IfSome result (λ s. 2 ^ (steps.new - (steps.old + 2)) * (s.high - s.low) ≤ reach.high - reach.low) }
    ensures cost { 2 ^ (steps.new - (steps.old + 1)) ≤ 2 * (reach.high - reach.low) + 1 }
    ensures list { W.list words.new ≡ W.list words.old }
    ensures reads { W.reads words.new ≡ read_more (W.reads words.old) (steps.new - steps.old) }
    ensures goes { W.goes words.old words.new }
    ensures later { steps.old ≤ steps.new }
{
    let mut low = reach.low;
    let mut high = reach.high;
    let mut at = reach.guess;
    'search: while low < high {
        let first = first_word(words, at, steps);
        if first < least {
            low = at + 1;
        } else if first > most {
            high = at;
        } else {
            return Some(Spot {
                low,
                high,
                at,
                first,
            });
        }
        at = low + (high - low) / 2;
    }
    None
}

/// An entry of these that has the address.
#[inline(always)]
pub(crate) fn spot_of_address<W: Words, L: Ledger>(
    words: &mut W,
    from: u32,
    to: u32,
    v4: V4,
    steps: &mut Steps<L>,
) -> Option<Spot>
    requires { IsEntryRange (W.list words.old) from to }
    ensures spot { IfSome result (λ s. IsSpot (W.list words.old) from to (v4.0 * 4294967296) (v4.0 * 4294967296 + 4294967295) s.low s.high s.at s.first) }
    ensures none { IfNone result (HasNoSpot (W.list words.old) from to (v4.0 * 4294967296) (v4.0 * 4294967296 + 4294967295)) }
    ensures left { IfSome result (λ s. (d : ℕ) → to - from < 2 ^ d → IsNarrowed d (s.high - s.low) (steps.new - steps.old)) }
    ensures cost { (d : ℕ) → to - from < 2 ^ d → steps.new ≤ steps.old + d + 3 }
    ensures list { W.list words.new ≡ W.list words.old }
    ensures reads { W.reads words.new ≡ read_more (W.reads words.old) (steps.new - steps.old) }
    ensures goes { W.goes words.old words.new }
    ensures later { steps.old ≤ steps.new }
{
    let guess = guess_of(words, from, to, v4, steps);
    let near = Reach {
        low: from,
        high: to,
        guess,
    };
    let least = u64::from(v4.0) * 0x1_0000_0000;
    spot_of(words, near, least, least + 0xffff_ffff, steps)
}

/// The entry of these where the address stands if the addresses rise evenly from the first of them to the last. Fewer than
/// eight entries are not worth the two reads.
#[inline(always)]
pub(crate) fn guess_of<W: Words, L: Ledger>(
    words: &mut W,
    from: u32,
    to: u32,
    v4: V4,
    steps: &mut Steps<L>,
) -> u32
    requires { IsEntryRange (W.list words.old) from to }
    ensures from_on { from ≤ result }
    ensures up_to { from < to → result < to }
    ensures cost { steps.new ≤ steps.old + 2 }
    ensures list { W.list words.new ≡ W.list words.old }
    ensures reads { W.reads words.new ≡ read_more (W.reads words.old) (steps.new - steps.old) }
    ensures goes { W.goes words.old words.new }
    ensures later { steps.old ≤ steps.new }
{
    let count = to - from;
    if count < 8 {
        return from + count / 2;
    }
    let address = u64::from(v4.0);
    let first = first_word(words, from, steps) / 0x1_0000_0000;
    if address <= first {
        return from;
    }
    let last = first_word(words, to - 1, steps) / 0x1_0000_0000;
    if last <= address {
        return to - 1;
    }
    from + share_of(count, address - first, last - first)
}

/// So much of the count as the part is of the whole.
fn share_of(count: u32, part: u64, whole: u64) -> u32
    requires some { 0 < count }
    requires less { part < whole }
    requires small { whole < 4294967296 }
    ensures { result < count }
{
    (part * u64::from(count) / whole) as u32
}

/// The entries of these among which the key can be. From one entry to the next the first words rise by at least 1, so the
/// key is at most as many entries away as it is from the first word that was found; and it is just so far where no
/// identifier between is free.
pub(crate) fn reach_of_key(spot: Spot, key: u64) -> Reach
    requires low { spot.low ≤ spot.at }
    requires high { spot.at < spot.high }
    ensures { IsReach spot.low spot.high spot.at spot.first key result.low result.high result.guess }
{
    if key < spot.first {
        let back = spot.first - key;
        let low = if back < u64::from(spot.at - spot.low) {
            spot.at - back as u32
        } else {
            spot.low
        };
        Reach {
            low,
            high: spot.at,
            guess: low,
        }
    } else {
        let ahead = key - spot.first;
        let last = if ahead < u64::from(spot.high - spot.at) {
            spot.at + ahead as u32
        } else {
            spot.high - 1
        };
        Reach {
            low: spot.at,
            high: last + 1,
            guess: last,
        }
    }
}
