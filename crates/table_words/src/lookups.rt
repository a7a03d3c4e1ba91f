// What the words of a table say of an address.
ghost use Rattle.std.specs.Prelude.{◌≡◌, ◌+◌, ◌-◌, ◌<◌, ◌≤◌};
ghost use Rattle.binding_rules.specs.Bindings.{bound};
ghost use Rattle.binding_rules.specs.Tables.{BindingTable};
ghost use Rattle.table_words.specs.Answers.{first_b4, has_v4, has_binding, tunnel_of};
ghost use Rattle.table_words.specs.Bounds.{group_digits};
ghost use Rattle.table_words.specs.Layout.{IsCompiled, AreCompiled};
ghost use Rattle.table_words.specs.Reads.{read_more};
ghost use Rattle.table_words.specs.Spent.{IsBounded};

use crate::counter::Steps;
use crate::destination::Destination;
use crate::entries::first_word;
use crate::owners::owner_near;
use crate::probes::spot_of_address;
use crate::reader::Words;
use crate::searches::{group_of, lower_bound};
use aftr_base::{V4, V6};
use binding_rules::Want;
use std::sync::ledger::Ledger;

/// Whether some binding of the table has the address, and the tunnel's end of the one that owns the port, or, for
/// `Whole`, whose offset and length are both 0: `has_address` and `look` in one search. The condition is that the words
/// are compiled from a table. With B binary digits in the greatest number of bindings that agree in the top 16 bits of
/// their addresses, and at most G different shapes at one address, it reads at most `G * (2 * B + 4) + B + 4` words, and B
/// fewer where it finds an owner, and where no address has two shapes, as in every table of edition One. It reads at least one word,
/// whatever the table has.
// It is inlined where packets are judged, with what it calls: what the words are read through stays in registers, and so
// does the answer.
#[inline(always)]
pub fn destination_of<W: Words, L: Ledger>(
    words: &mut W,
    v4: V4,
    want: Want,
    steps: &mut Steps<L>,
) -> Destination
    requires { AreCompiled (W.list words.old) }
    ensures address { (t : BindingTable) → IsCompiled t (W.list words.old) → has_binding result ≡ has_v4 t.bindings v4 }
    ensures owner { (t : BindingTable) → IsCompiled t (W.list words.old) → tunnel_of result ≡ first_b4 (bound t.bindings v4 want) }
    ensures bounds { IsBounded (W.list words.old) (tunnel_of result) steps.old steps.new }
    ensures list { W.list words.new ≡ W.list words.old }
    ensures reads { W.reads words.new ≡ read_more (W.reads words.old) (steps.new - steps.old) }
    ensures goes { W.goes words.old words.new }
    ensures rises { steps.old + 1 ≤ steps.new }
{
    let group = group_of(words, v4, steps);
    let Some(spot) = spot_of_address(words, group.from, group.to, v4, steps) else {
        return Destination::Unbound;
    };
    let owner = owner_near(words, spot, want, steps);
    Destination::of_owner(owner)
}

/// The tunnel's end of the one binding of the table with this address that owns the port, or, for `Whole`, whose offset
/// and length are both 0; None exactly where the table has none. The condition and the words read are those of
/// `destination_of`.
#[inline(always)]
pub fn look<W: Words, L: Ledger>(
    words: &mut W,
    v4: V4,
    want: Want,
    steps: &mut Steps<L>,
) -> Option<V6>
    requires { AreCompiled (W.list words.old) }
    ensures owner { (t : BindingTable) → IsCompiled t (W.list words.old) → result ≡ first_b4 (bound t.bindings v4 want) }
    ensures bounds { IsBounded (W.list words.old) result steps.old steps.new }
    ensures list { W.list words.new ≡ W.list words.old }
    ensures reads { W.reads words.new ≡ read_more (W.reads words.old) (steps.new - steps.old) }
    ensures goes { W.goes words.old words.new }
    ensures later { steps.old ≤ steps.new }
    ensures rises { steps.old + 1 ≤ steps.new }
{
    destination_of(words, v4, want, steps).tunnel()
}

/// Whether some binding of the table has the address. The condition is that of `look`. It reads at least one word, and
/// at most B + 3.
pub fn has_address<W: Words, L: Ledger>(words: &mut W, v4: V4, steps: &mut Steps<L>) -> bool
    requires { AreCompiled (W.list words.old) }
    ensures answer { (t : BindingTable) → IsCompiled t (W.list words.old) → result ≡ has_v4 t.bindings v4 }
    ensures bound { (t : BindingTable) → IsCompiled t (W.list words.old) → steps.new ≤ steps.old + group_digits t.bindings + 3 }
    ensures list { W.list words.new ≡ W.list words.old }
    ensures reads { W.reads words.new ≡ read_more (W.reads words.old) (steps.new - steps.old) }
    ensures goes { W.goes words.old words.new }
    ensures later { steps.old ≤ steps.new }
    ensures rises { steps.old + 1 ≤ steps.new }
{
    let group = group_of(words, v4, steps);
    let address = u64::from(v4.0);
    let at = lower_bound(words, group.from, group.to, address * 0x1_0000_0000, steps);
    at < group.to && first_word(words, at, steps) / 0x1_0000_0000 == address
}
