// Where the entries of an address can be, and the search among them.
ghost use Rattle.std.specs.Prelude.{◌≡◌, ◌+◌, ◌-◌, ◌*◌, ◌^◌, ◌<◌, ◌≤◌};
ghost use Rattle.binding_rules.specs.Tables.{BindingTable};
ghost use Rattle.table_words.specs.Layout.{IsCompiled, AreCompiled};
ghost use Rattle.table_words.specs.Reads.{read_more};
ghost use Rattle.table_words.specs.Spans.{IsEntryRange, IsIndexGroup, IsBoundary, IsUpperEnd, first_at};

use crate::counter::Steps;
use crate::entries::first_word;
use crate::reader::Words;
use aftr_base::V4;
use std::sync::ledger::Ledger;

/// The entries from one place up to another.
#[derive(Clone, Copy, Debug)]
pub(crate) struct Span {
    pub(crate) from: u32,
    pub(crate) to: u32,
}

/// The entries whose addresses agree with this one in the top 16 bits.
pub(crate) fn group_of<W: Words, L: Ledger>(words: &mut W, v4: V4, steps: &mut Steps<L>) -> Span
    requires { AreCompiled (W.list words.old) }
    ensures span { IsEntryRange (W.list words.old) result.from result.to }
    ensures group { (t : BindingTable) → IsCompiled t (W.list words.old) → IsIndexGroup t (W.list words.old) v4.0 result.from result.to }
    ensures list { W.list words.new ≡ W.list words.old }
    ensures reads { W.reads words.new ≡ read_more (W.reads words.old) 2 }
    ensures goes { W.goes words.old words.new }
    ensures steps { steps.new ≡ steps.old + 2 }
{
    let high = v4.0 / 0x1_0000;
    let from = words.word(8 + high, steps) as u32;
    let to = words.word(9 + high, steps) as u32;
    Span { from, to }
}

/// The first of these entries whose first word is not below the key. It halves the entries at each step.
pub(crate) fn lower_bound<W: Words, L: Ledger>(
    words: &mut W,
    from: u32,
    to: u32,
    key: u64,
    steps: &mut Steps<L>,
) -> u32
    requires { IsEntryRange (W.list words.old) from to }
    ensures place { IsBoundary (W.list words.old) from to key result }
    ensures cost { 2 ^ (steps.new - steps.old) ≤ 2 * (to - from) + 1 }
    ensures list { W.list words.new ≡ W.list words.old }
    ensures reads { W.reads words.new ≡ read_more (W.reads words.old) (steps.new - steps.old) }
    ensures goes { W.goes words.old words.new }
    ensures later { steps.old ≤ steps.new }
{
    let mut low = from;
    let mut high = to;
    'search: while low < high {
        let middle = low + (high - low) / 2;
        if first_word(words, middle, steps) < key {
            low = middle + 1;
        } else {
            high = middle;
        }
    }
    low
}

/// The first of these entries whose first word is not below the key, where `first` is the first word of the first of
/// them. From one entry to the next the first words rise by at least 1, so the key is at most as far behind the first
/// entry as it is above its first word.
pub(crate) fn place_of<W: Words, L: Ledger>(
    words: &mut W,
    from: u32,
    to: u32,
    first: u64,
    key: u64,
    steps: &mut Steps<L>,
) -> u32
    requires span { IsEntryRange (W.list words.old) from to }
    requires here { first ≡ first_at (W.list words.old) from }
    requires some { from < to }
    ensures place { IsBoundary (W.list words.old) from to key result }
    ensures cost { 2 ^ (steps.new - steps.old) ≤ 2 * (to - from) + 1 }
    ensures list { W.list words.new ≡ W.list words.old }
    ensures reads { W.reads words.new ≡ read_more (W.reads words.old) (steps.new - steps.old) }
    ensures goes { W.goes words.old words.new }
    ensures later { steps.old ≤ steps.new }
{
    let end = end_of(from, to, first, key);
    lower_bound(words, from, end, key, steps)
}

/// The end of the entries among which the key can be.
fn end_of(from: u32, to: u32, first: u64, key: u64) -> u32
    requires { from < to }
    ensures { IsUpperEnd from to first key result }
{
    let ahead = key.saturating_sub(first);
    if ahead < u64::from(to - from) {
        from + ahead as u32 + 1
    } else {
        to
    }
}
