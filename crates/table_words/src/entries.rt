// The three words of an entry.
ghost use Rattle.std.specs.Prelude.{◌≡◌, ◌+◌, ◌-◌, ◌*◌, ◌/◌, ◌%◌, ◌<◌, ◌≤◌, length};
ghost use Rattle.port_set.specs.Shapes.{IsShape};
ghost use Rattle.table_words.specs.Layout.{first_entry};
ghost use Rattle.table_words.specs.Reads.{read_more};
ghost use Rattle.table_words.specs.Spans.{IsKey, first_at, b4_at};

use crate::counter::Steps;
use crate::reader::Words;
use aftr_base::V6;
use binding_rules::Want;
use port_set::{psid_of, shape_of};
use std::sync::ledger::Ledger;

/// Where the first entry stands: behind the eight words of settings and the 65,537 of the index.
pub(crate) const FIRST_ENTRY: u32 = 65_545;

/// What is added to the first word of each entry of an address whose bindings have two shapes: the top bit of the offset.
pub(crate) const MIXED: u64 = 0x8000_0000;

/// The first word of an entry.
pub(crate) fn first_word<W: Words, L: Ledger>(
    words: &mut W,
    entry: u32,
    steps: &mut Steps<L>,
) -> u64
    requires few { entry < 65536 }
    requires within { first_entry + 3 * entry + 3 ≤ length (W.list words.old) }
    ensures value { result ≡ first_at (W.list words.old) entry }
    ensures list { W.list words.new ≡ W.list words.old }
    ensures reads { W.reads words.new ≡ read_more (W.reads words.old) 1 }
    ensures goes { W.goes words.old words.new }
    ensures steps { steps.new ≡ steps.old + 1 }
{
    words.word(FIRST_ENTRY + 3 * entry, steps)
}

/// The address of the tunnel's end of an entry.
pub(crate) fn tunnel_end<W: Words, L: Ledger>(words: &mut W, entry: u32, steps: &mut Steps<L>) -> V6
    requires few { entry < 65536 }
    requires within { first_entry + 3 * entry + 3 ≤ length (W.list words.old) }
    ensures value { result.0 ≡ b4_at (W.list words.old) entry }
    ensures list { W.list words.new ≡ W.list words.old }
    ensures reads { W.reads words.new ≡ read_more (W.reads words.old) 2 }
    ensures goes { W.goes words.old words.new }
    ensures steps { steps.new ≡ steps.old + 2 }
{
    let high = words.word(FIRST_ENTRY + 1 + 3 * entry, steps);
    let low = words.word(FIRST_ENTRY + 2 + 3 * entry, steps);
    V6(u128::from(high) * 0x1_0000_0000_0000_0000 + u128::from(low))
}

/// The first word that the owner of what is wanted has, if it has the address and the shape of this first word; None
/// where no binding of this shape can own it.
#[inline(always)]
pub(crate) fn key_of(first: u64, want: Want) -> Option<u64>
    requires { IsShape (first / 16777216 % 128) (first / 65536 % 256) }
    ensures { IsKey first want result }
{
    let offset = (first / 0x100_0000 % 0x80) as u8;
    let length = (first / 0x1_0000 % 0x100) as u8;
    let least = first - first % 0x1_0000;
    match want {
        Want::Port(port) => {
            let Ok(shape) = shape_of(offset, length) else {
                unreachable!()
            };
            Some(least + u64::from(psid_of(shape, port)?))
        }
        Want::Whole if offset == 0 && length == 0 => Some(least),
        Want::Whole => None,
    }
}
