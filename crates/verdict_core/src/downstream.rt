// The verdict on a packet from the IPv4 network.
ghost use Rattle.std.specs.Prelude.{◌≡◌, ℕ, ◌+◌, ◌==◌, ◌≤◌, not, ◌&&◌, IfOk, Some, Ok};
ghost use Rattle.binding_rules.specs.Tables.{BindingTable, binding_table};
ghost use Rattle.ip_codec.specs.Packet4.{packet4};
ghost use Rattle.ip_codec.specs.declared.rules.Rule.TheVariants as rule;
ghost use Rattle.port_locate.specs.Keys.{downstream_key};
ghost use Rattle.port_locate.specs.declared.keys.Key.TheVariants as key;
ghost use Rattle.table_words.specs.Layout.{IsCompiled, AreCompiled};
ghost use Rattle.verdict_core.specs.Answers.{no_owner, refused, too_large, time_exceeded};
ghost use Rattle.verdict_core.specs.Bounds.{IsWithin, Reads};
ghost use Rattle.verdict_core.specs.Lines.{verdict_in};
ghost use Rattle.verdict_core.specs.Verdicts.{down_lines, down_refusals, down_ways};
ghost use Rattle.verdict_core.specs.declared.verdicts.Path.TheVariants as path;

use crate::answers::{
    inward, inward_room, is_expired, is_too_large, no_owner, time_exceeded, too_large,
};
use crate::asking::{refuse, wants_of};
use crate::verdicts::{Path, Verdict};
use aftr_base::V6;
use binding_rules::Softwire;
use ip_codec::{ICMP, Ip4View, Rule};
use port_locate::Wants;
use std::sync::ledger::Ledger;
use table_words::{Steps, Words, look};

// Inlined as `judge_up` is: what the words are read through stays in registers from one word to the next.
#[inline(always)]
pub fn judge_down<W: Words, L: Ledger>(
    words: &mut W,
    settings: &Softwire,
    packet: &Ip4View<'_>,
    verdict: &mut Verdict,
    steps: &mut Steps<L>,
)
    requires { AreCompiled (W.list words.old) }
    ensures verdict { (t : BindingTable) → IsCompiled t (W.list words.old) →
        verdict_in (down_lines (binding_table t.edition settings.now t.bindings) (Ok (packet4 packet.now))) ≡ Some verdict.new }
    ensures reads { Reads W.Words words.old words.new steps.old steps.new }
    ensures rises { steps.old + 1 ≤ steps.new }
    ensures bound { IsWithin (λ look. look) (W.list words.old) steps.old steps.new }
{
    let wants = match wants_down(settings, packet) {
        Ok(wants) => wants,
        Err(why) => {
            refuse(words, why, verdict, steps);
            return;
        }
    };
    let end = look(words, packet.dst, wants.destination, steps);
    down_way(settings, packet, end, verdict);
}

// What the packet asks for, or by which rule it is dropped before the table is searched.
#[inline(always)]
fn wants_down(settings: &Softwire, packet: &Ip4View<'_>) -> Result<Wants, Rule>
    ensures lines { verdict_in (down_refusals settings.now (packet4 packet.now) (downstream_key (packet4 packet.now))) ≡ refused result }
    ensures destination { IfOk result (λ wants. key.At wants.destination ≡ downstream_key (packet4 packet.now)) }
{
    if packet.dst == settings.own {
        return Err(Rule::ToSelf);
    }
    if is_kept_out(settings, packet) {
        return Err(Rule::IcmpOff);
    }
    wants_of(packet)
}

// ICMP that the table lets not in.
fn is_kept_out(settings: &Softwire, packet: &Ip4View<'_>) -> bool
    ensures { result ≡ ((packet.now.protocol == 1) && not settings.now.icmp_in) }
{
    packet.protocol == ICMP && !settings.icmp_in
}

// By the tunnel's end of the destination's owner.
fn down_way(settings: &Softwire, packet: &Ip4View<'_>, end: Option<V6>, verdict: &mut Verdict)
    ensures { verdict_in (down_ways settings.now (packet4 packet.now) end) ≡ Some verdict.new }
{
    let Some(to) = end else {
        drop_unowned(settings, packet, verdict);
        return;
    };
    if is_expired(packet) {
        drop_expired(settings, packet, verdict);
        return;
    }
    let room = inward_room(settings);
    if is_too_large(room, packet) {
        drop_too_large(settings, room, packet, verdict);
        return;
    }
    *verdict = inward(settings, false, to);
}

// Nobody owns the destination. Drops are rare: what makes them stands out of the way of packets that pass.
#[cold]
#[inline(never)]
fn drop_unowned(settings: &Softwire, packet: &Ip4View<'_>, verdict: &mut Verdict)
    ensures { verdict.new ≡ no_owner settings.now rule.NoBinding path.Plain (packet4 packet.now) }
{
    *verdict = no_owner(settings, Rule::NoBinding, Path::Plain, packet);
}

// The time to live is used up.
#[cold]
#[inline(never)]
fn drop_expired(settings: &Softwire, packet: &Ip4View<'_>, verdict: &mut Verdict)
    ensures { verdict.new ≡ time_exceeded settings.now path.Plain (packet4 packet.now) }
{
    *verdict = time_exceeded(settings, Path::Plain, packet);
}

// The packet is larger than this and must not be cut.
#[cold]
#[inline(never)]
fn drop_too_large(settings: &Softwire, room: u16, packet: &Ip4View<'_>, verdict: &mut Verdict)
    ensures { verdict.new ≡ too_large settings.now room path.Plain (packet4 packet.now) }
{
    *verdict = too_large(settings, room, Path::Plain, packet);
}
