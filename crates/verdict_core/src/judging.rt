// The verdict on an item.
ghost use Rattle.std.specs.Prelude.{◌≡◌, ◌+◌, ◌≤◌, false, Some};
ghost use Rattle.binding_rules.specs.Tables.{BindingTable, binding_table};
ghost use Rattle.ip_codec.specs.Seen.{seen};
ghost use Rattle.table_words.specs.Bounds.{found_bound, look_bound};
ghost use Rattle.table_words.specs.Layout.{IsCompiled, AreCompiled, has_two_shapes};
ghost use Rattle.verdict_core.specs.Access.{HasAccess};
ghost use Rattle.verdict_core.specs.Bounds.{IsWithin, Reads, judge_bound, judge_into_bound};
ghost use Rattle.verdict_core.specs.Fitting.{AsksTable, Fits, HasRoom};
ghost use Rattle.verdict_core.specs.Lines.{verdict_in};
ghost use Rattle.verdict_core.specs.Verdicts.{IsVerdict, lines, verdict_of};

use crate::answers::drop_silently;
use crate::asking::read_count;
use crate::downstream::judge_down;
use crate::messages::{judge_message, judge_six};
use crate::upstream::{judge_unread, judge_up};
use crate::verdicts::Verdict;
use binding_rules::Softwire;
use ip_codec::ItemView;
use std::sync::ledger::Ledger;
use table_words::{Steps, Words, softwire};

/// The verdict on an item under a table, the one that the lines allow (RFC 7596, section 6.2). The condition is that the
/// words are compiled from a table. It takes no memory.
pub fn judge<W: Words, L: Ledger>(
    words: &mut W,
    item: &ItemView<'_>,
    steps: &mut Steps<L>,
) -> Verdict
    requires { AreCompiled (W.list words.old) }

    // Which verdict it is, and what it can be.
    ensures verdict { (t : BindingTable) → IsCompiled t (W.list words.old) → IsVerdict t (seen item.now) result }
    ensures fits { Fits (seen item.now) result }
    ensures room { HasRoom result }

    // Who may send, who receives, and whom errors reach.
    ensures access { (t : BindingTable) → IsCompiled t (W.list words.old) → HasAccess t (seen item.now) result }

    // What it reads.
    ensures reads { Reads W.Words words.old words.new steps.old steps.new }
    ensures rises { AsksTable (seen item.now) → steps.old + 1 ≤ steps.new }
    ensures bound { (t : BindingTable) → IsCompiled t (W.list words.old) → steps.new ≤ steps.old + judge_bound (look_bound t.bindings) }
    ensures one_shape { (t : BindingTable) → IsCompiled t (W.list words.old) → has_two_shapes t.bindings ≡ false →
        steps.new ≤ steps.old + judge_bound (found_bound t.bindings) }
{
    let settings = softwire(words, steps);
    let mut verdict = Verdict::Held;
    judge_into(words, &settings, item, &mut verdict, steps);
    verdict
}

/// The same verdict with the table's settings handed in, as `softwire` gives them, so that a caller with many items under one table
/// reads them once, and written where the caller keeps it, whatever stood there: a verdict has many words, and each call that hands
/// it on would copy them. It reads one word at least, unless the item is held or dropped already.
pub fn judge_into<W: Words, L: Ledger>(
    words: &mut W,
    settings: &Softwire,
    item: &ItemView<'_>,
    verdict: &mut Verdict,
    steps: &mut Steps<L>,
)
    requires compiled { AreCompiled (W.list words.old) }
    requires settings { (t : BindingTable) → IsCompiled t (W.list words.old) → settings.now ≡ t.softwire }

    // Which verdict it is.
    ensures value { (t : BindingTable) → IsCompiled t (W.list words.old) → verdict.new ≡ verdict_of t (seen item.now) }

    // What it reads.
    ensures reads { Reads W.Words words.old words.new steps.old steps.new }
    ensures rises { AsksTable (seen item.now) → steps.old + 1 ≤ steps.new }
    ensures bound { (t : BindingTable) → IsCompiled t (W.list words.old) → steps.new ≤ steps.old + judge_into_bound (look_bound t.bindings) }
    ensures one_shape { (t : BindingTable) → IsCompiled t (W.list words.old) → has_two_shapes t.bindings ≡ false →
        steps.new ≤ steps.old + judge_into_bound (found_bound t.bindings) }
{
    judge_under(words, settings, item, verdict, steps);
}

// The verdict under these settings and the rest of the table, each kind of item by its own lines. Where nothing is looked up,
// the number of bindings is read.
fn judge_under<W: Words, L: Ledger>(
    words: &mut W,
    settings: &Softwire,
    item: &ItemView<'_>,
    verdict: &mut Verdict,
    steps: &mut Steps<L>,
)
    requires { AreCompiled (W.list words.old) }
    ensures verdict { (t : BindingTable) → IsCompiled t (W.list words.old) →
        verdict_in (lines (binding_table t.edition settings.now t.bindings) (seen item.now)) ≡ Some verdict.new }
    ensures reads { Reads W.Words words.old words.new steps.old steps.new }
    ensures rises { AsksTable (seen item.now) → steps.old + 1 ≤ steps.new }
    ensures bound { IsWithin judge_into_bound (W.list words.old) steps.old steps.new }
{
    match item {
        ItemView::Held => *verdict = Verdict::Held,
        ItemView::Bad(why) => drop_silently(*why, verdict),
        ItemView::Down { packet } => judge_down(words, settings, &packet.view, verdict, steps),
        ItemView::Up { outer, inner } => {
            judge_up(words, settings, outer, &inner.view, verdict, steps)
        }
        ItemView::UpUnread { outer, inner } => {
            read_count(words, steps);
            judge_unread(settings, outer, inner.why, verdict)
        }
        ItemView::OtherIp6 { dst } => {
            read_count(words, steps);
            judge_six(settings, *dst, verdict)
        }
        ItemView::Icmp6 { src, dst, message } => {
            read_count(words, steps);
            judge_message(words, settings, *src, *dst, message, verdict, steps)
        }
    }
}
