// The verdict on a packet from a subscriber.
ghost use Rattle.std.specs.Prelude.{◌≡◌, ◌++◌, ℕ, ◌+◌, ◌≤◌, true, IfOk, Some, None, Ok, Err};
ghost use Rattle.binding_rules.specs.Tables.{BindingTable, binding_table};
ghost use Rattle.ip_codec.specs.Packet4.{packet4};
ghost use Rattle.ip_codec.specs.declared.rules.Rule.TheVariants as rule;
ghost use Rattle.port_locate.specs.Keys.{downstream_key, upstream_key};
ghost use Rattle.port_locate.specs.declared.keys.Key.TheVariants as key;
ghost use Rattle.table_words.specs.Answers.{has_binding, tunnel_of};
ghost use Rattle.table_words.specs.Layout.{IsCompiled, AreCompiled};
ghost use Rattle.verdict_core.specs.Answers.{no_owner, not_sender, refused, too_large, time_exceeded, way_back};
ghost use Rattle.verdict_core.specs.Bounds.{IsWithin, Reads, judge_into_bound};
ghost use Rattle.verdict_core.specs.Lines.{decided, verdict_in};
ghost use Rattle.verdict_core.specs.Verdicts.{hairpin_lines, onward_refusals, outward_lines, sender_lines, up_lines, up_refusals};

use crate::answers::{
    drop_silently, ends_at, inward, inward_room, is_expired, is_too_large, no_owner, not_sender,
    time_exceeded, too_large, way_back,
};
use crate::asking::{refuse, wants_of};
use crate::verdicts::Verdict;
use aftr_base::V6;
use binding_rules::Softwire;
use ip_codec::{Ip4Bad, Ip4View, Outer, Rule};
use port_locate::Wants;
use std::sync::ledger::Ledger;
use table_words::{Destination, Steps, Words, destination_of, look};

// Inlined where packets are judged, so that what the words are read through stays in registers from one word to the next.
#[inline(always)]
pub fn judge_up<W: Words, L: Ledger>(
    words: &mut W,
    settings: &Softwire,
    outer: &Outer,
    packet: &Ip4View<'_>,
    verdict: &mut Verdict,
    steps: &mut Steps<L>,
)
    requires { AreCompiled (W.list words.old) }
    ensures verdict { (t : BindingTable) → IsCompiled t (W.list words.old) →
        verdict_in (up_lines (binding_table t.edition settings.now t.bindings) outer.now (Ok (packet4 packet.now))) ≡ Some verdict.new }
    ensures reads { Reads W.Words words.old words.new steps.old steps.new }
    ensures rises { steps.old + 1 ≤ steps.new }
    ensures bound { IsWithin judge_into_bound (W.list words.old) steps.old steps.new }
{
    let wants = match wants_up(settings, outer, packet) {
        Ok(wants) => wants,
        Err(why) => {
            refuse(words, why, verdict, steps);
            return;
        }
    };
    let end = look(words, packet.src, wants.source, steps);
    if stops_sender(settings, outer, end, verdict) {
        return;
    }
    if stops_onward(settings, outer, packet, verdict) {
        return;
    }
    let destination = destination_of(words, packet.dst, wants.destination, steps);
    onward(settings, outer, packet, destination, verdict);
}

// What the packet asks for, or by which rule it is dropped before the table is searched.
#[inline(always)]
fn wants_up(settings: &Softwire, outer: &Outer, packet: &Ip4View<'_>) -> Result<Wants, Rule>
    ensures lines { verdict_in (up_refusals settings.now outer.now (packet4 packet.now) (upstream_key (packet4 packet.now))) ≡ refused result }
    ensures source { IfOk result (λ wants. key.At wants.source ≡ upstream_key (packet4 packet.now)) }
    ensures destination { IfOk result (λ wants. key.At wants.destination ≡ downstream_key (packet4 packet.now)) }
{
    if outer.dst != settings.aftr {
        return Err(Rule::NotOurs);
    }
    wants_of(packet)
}

// Drops it where its sender may not send, by the tunnel's end of the owner of its source, and tells whether.
#[inline(always)]
fn stops_sender(settings: &Softwire, outer: &Outer, end: Option<V6>, verdict: &mut Verdict) -> bool
    ensures { verdict_in (sender_lines settings.now outer.now end) ≡ decided result verdict.new }
{
    if !ends_at(end, outer.src) {
        drop_denied(settings, outer, verdict);
        return true;
    }
    false
}

// Drops it where it may not go on although its sender may send, before its destination is searched, and tells whether.
#[inline(always)]
fn stops_onward(
    settings: &Softwire,
    outer: &Outer,
    packet: &Ip4View<'_>,
    verdict: &mut Verdict,
) -> bool
    ensures { verdict_in (onward_refusals settings.now outer.now (packet4 packet.now)) ≡ decided result verdict.new }
{
    if is_expired(packet) {
        drop_expired(settings, outer, packet, verdict);
        return true;
    }
    false
}

// Where it goes, by what the table has of its destination. Inlined, so that what was found of it stays in registers.
#[inline(always)]
fn onward(
    settings: &Softwire,
    outer: &Outer,
    packet: &Ip4View<'_>,
    destination: Destination,
    verdict: &mut Verdict,
)
    ensures { verdict_in (hairpin_lines settings.now outer.now (packet4 packet.now) (has_binding destination) (tunnel_of destination)
        ++ outward_lines settings.now outer.now (packet4 packet.now)) ≡ Some verdict.new }
{
    match destination {
        Destination::Unbound => outward(settings, outer, packet, verdict),
        Destination::Unowned => hairpin_unowned(settings, outer, packet, verdict),
        Destination::Owned(to) => hairpin_owned(settings, outer, packet, to, verdict),
    }
}

// The verdict where the inner bytes are no IPv4 packet.
pub fn judge_unread(settings: &Softwire, outer: &Outer, refusal: Ip4Bad, verdict: &mut Verdict)
    ensures { (t : BindingTable) → verdict_in (up_lines (binding_table t.edition settings.now t.bindings) outer.now (Err refusal)) ≡ Some verdict.new }
{
    if outer.dst != settings.aftr {
        drop_silently(Rule::NotOurs, verdict);
        return;
    }
    match refusal {
        Ip4Bad::Checksum => drop_silently(Rule::InnerChecksum, verdict),
        _ => drop_silently(Rule::InnerMalformed, verdict),
    }
}

// The sender does not own its source. Drops are rare: what makes them stands out of the way of packets that pass, with
// the words that it needs for itself.
#[cold]
#[inline(never)]
fn drop_denied(settings: &Softwire, outer: &Outer, verdict: &mut Verdict)
    ensures { verdict.new ≡ not_sender settings.now outer.now }
{
    *verdict = not_sender(settings, outer);
}

// Nobody owns the destination.
#[cold]
#[inline(never)]
fn drop_unowned(settings: &Softwire, outer: &Outer, packet: &Ip4View<'_>, verdict: &mut Verdict)
    ensures { verdict.new ≡ no_owner settings.now rule.HairpinNoBinding (way_back settings.now outer.now) (packet4 packet.now) }
{
    let path = way_back(settings, outer);
    *verdict = no_owner(settings, Rule::HairpinNoBinding, path, packet);
}

// The time to live is used up.
#[cold]
#[inline(never)]
fn drop_expired(settings: &Softwire, outer: &Outer, packet: &Ip4View<'_>, verdict: &mut Verdict)
    ensures { verdict.new ≡ time_exceeded settings.now (way_back settings.now outer.now) (packet4 packet.now) }
{
    *verdict = time_exceeded(settings, way_back(settings, outer), packet);
}

// The packet is larger than this and must not be cut.
#[cold]
#[inline(never)]
fn drop_too_large(
    settings: &Softwire,
    room: u16,
    outer: &Outer,
    packet: &Ip4View<'_>,
    verdict: &mut Verdict,
)
    ensures { verdict.new ≡ too_large settings.now room (way_back settings.now outer.now) (packet4 packet.now) }
{
    *verdict = too_large(settings, room, way_back(settings, outer), packet);
}

// From subscriber to subscriber, where nobody owns the destination.
#[cold]
#[inline(never)]
fn hairpin_unowned(settings: &Softwire, outer: &Outer, packet: &Ip4View<'_>, verdict: &mut Verdict)
    ensures { verdict_in (hairpin_lines settings.now outer.now (packet4 packet.now) true None) ≡ Some verdict.new }
{
    hairpin(settings, outer, packet, None, verdict);
}

// The same, where the owner's tunnel ends there.
#[inline(never)]
fn hairpin_owned(
    settings: &Softwire,
    outer: &Outer,
    packet: &Ip4View<'_>,
    to: V6,
    verdict: &mut Verdict,
)
    ensures { verdict_in (hairpin_lines settings.now outer.now (packet4 packet.now) true (Some to)) ≡ Some verdict.new }
{
    hairpin(settings, outer, packet, Some(to), verdict);
}

// By the tunnel's end of the owner of the destination. Inlined, so that either way has its own tests alone.
#[inline(always)]
fn hairpin(
    settings: &Softwire,
    outer: &Outer,
    packet: &Ip4View<'_>,
    end: Option<V6>,
    verdict: &mut Verdict,
)
    ensures { verdict_in (hairpin_lines settings.now outer.now (packet4 packet.now) true end) ≡ Some verdict.new }
{
    if !settings.hairpin {
        drop_silently(Rule::HairpinOff, verdict);
        return;
    }
    let Some(to) = end else {
        drop_unowned(settings, outer, packet, verdict);
        return;
    };
    let room = inward_room(settings);
    if is_too_large(room, packet) {
        drop_too_large(settings, room, outer, packet, verdict);
        return;
    }
    *verdict = inward(settings, true, to);
}

// Out to the IPv4 network.
fn outward(settings: &Softwire, outer: &Outer, packet: &Ip4View<'_>, verdict: &mut Verdict)
    ensures { verdict_in (outward_lines settings.now outer.now (packet4 packet.now)) ≡ Some verdict.new }
{
    if packet.dst == settings.own {
        drop_silently(Rule::ToSelf, verdict);
        return;
    }
    if is_too_large(settings.mtu4, packet) {
        drop_too_large(settings, settings.mtu4, outer, packet, verdict);
        return;
    }
    *verdict = Verdict::Outward { mtu: settings.mtu4 };
}
