// The verdict on an IPv6 packet without an IPv4 packet inside: most are no softwire's, and some are ICMPv6 errors about
// tunnel packets of the router.
ghost use Rattle.std.specs.Prelude.{◌≡◌, ℕ, ◌*◌, if◌then◌else◌, Some, Ok};
ghost use Rattle.std.specs.Option.{option_map};
ghost use Rattle.binding_rules.specs.Tables.{BindingTable, binding_table};
ghost use Rattle.icmp_codec.specs.Message6.{icmp6_of, message6};
ghost use Rattle.icmp_errors.specs.Answers.{gets_answer};
ghost use Rattle.icmp_relay.specs.Quotes.{inner_packet, tunnel_quote};
ghost use Rattle.ip_codec.specs.declared.items.Item.TheVariants as item;
ghost use Rattle.ip_codec.specs.declared.rules.Rule.TheVariants as rule;
ghost use Rattle.port_locate.specs.Keys.{key_of};
ghost use Rattle.table_words.specs.Answers.{has_binding, tunnel_of};
ghost use Rattle.table_words.specs.Layout.{IsCompiled, AreCompiled};
ghost use Rattle.verdict_core.specs.Answers.{relayed, silent};
ghost use Rattle.verdict_core.specs.Bounds.{IsWithin, Reads};
ghost use Rattle.verdict_core.specs.Lines.{verdict_in};
ghost use Rattle.verdict_core.specs.Verdicts.{error_lines, is_tunnel_error, lines, message_refusals, quote_lines, quote_refusals};
ghost use Rattle.verdict_core.specs.Verdicts.{quoted_destination, quoted_source, receiver_lines, relay_lines, six_lines};

use crate::answers::{drop_silently, ends_at, relayed, silent};
use crate::verdicts::{Path, Verdict};
use aftr_base::V6;
use binding_rules::Softwire;
use icmp_codec::{ICMP_HEAD_LEN, Icmp6View, icmp6};
use icmp_relay::{Quote, may_relay, quote_from, quote_to, read_quote};
use ip_codec::Rule;
use port_locate::Wants;
use std::sync::ledger::Ledger;
use table_words::{Destination, Steps, Words, destination_of, look};

pub fn judge_six(settings: &Softwire, dst: V6, verdict: &mut Verdict)
    ensures { verdict_in (six_lines settings.now dst) ≡ Some verdict.new }
{
    if dst != settings.aftr {
        drop_silently(Rule::NotOurs, verdict);
    } else {
        drop_silently(Rule::NotSoftwire, verdict);
    }
}

// The verdict on an ICMPv6 message.
#[inline(never)]
pub fn judge_message<W: Words, L: Ledger>(
    words: &mut W,
    settings: &Softwire,
    src: V6,
    dst: V6,
    message: &[u8],
    verdict: &mut Verdict,
    steps: &mut Steps<L>,
)
    requires { AreCompiled (W.list words.old) }
    ensures verdict { (t : BindingTable) → IsCompiled t (W.list words.old) →
        verdict_in (lines (binding_table t.edition settings.now t.bindings) (item.Icmp6 src dst message.now)) ≡ Some verdict.new }
    ensures reads { Reads W.Words words.old words.new steps.old steps.new }
    ensures bound { IsWithin (λ look. 2 * look) (W.list words.old) steps.old steps.new }
{
    if let Some(refused) = message_refusal(settings, dst, message) {
        *verdict = refused;
        return;
    }
    *verdict = judge_error(words, settings, src, dst, message, steps);
}

// What needs no reading of the message but its type.
fn message_refusal(settings: &Softwire, dst: V6, message: &[u8]) -> Option<Verdict>
    ensures { verdict_in (message_refusals settings.now dst message.now) ≡ result }
{
    if dst != settings.aftr {
        return Some(silent(Rule::NotOurs));
    }
    if !is_tunnel_error(message) {
        return Some(silent(Rule::NotSoftwire));
    }
    None
}

// Whether it is an error that the way of a tunnel packet can give.
fn is_tunnel_error(message: &[u8]) -> bool
    ensures { result ≡ is_tunnel_error message.now }
{
    message.len() >= ICMP_HEAD_LEN && message[0] >= 1 && message[0] <= 4
}

// The verdict on an error, by what it quotes.
fn judge_error<W: Words, L: Ledger>(
    words: &mut W,
    settings: &Softwire,
    src: V6,
    dst: V6,
    message: &[u8],
    steps: &mut Steps<L>,
) -> Verdict
    requires { AreCompiled (W.list words.old) }
    ensures verdict { (t : BindingTable) → IsCompiled t (W.list words.old) →
        verdict_in (error_lines (binding_table t.edition settings.now t.bindings) (icmp6_of src.0 dst.0 message.now)) ≡ Some result }
    ensures reads { Reads W.Words words.old words.new steps.old steps.new }
    ensures bound { IsWithin (λ look. 2 * look) (W.list words.old) steps.old steps.new }
{
    match icmp6(src, dst, message) {
        Ok(error) => judge_intact(words, settings, &error, steps),
        Err(_) => silent(Rule::RelayBad),
    }
}

// The verdict on an error that is intact.
fn judge_intact<W: Words, L: Ledger>(
    words: &mut W,
    settings: &Softwire,
    error: &Icmp6View<'_>,
    steps: &mut Steps<L>,
) -> Verdict
    requires { AreCompiled (W.list words.old) }
    ensures verdict { (t : BindingTable) → IsCompiled t (W.list words.old) →
        verdict_in (error_lines (binding_table t.edition settings.now t.bindings) (Ok (message6 error.now))) ≡ Some result }
    ensures reads { Reads W.Words words.old words.new steps.old steps.new }
    ensures bound { IsWithin (λ look. 2 * look) (W.list words.old) steps.old steps.new }
{
    match read_quote(error.rest) {
        Ok(quote) => judge_quote(words, settings, error.kind, error.word, &quote, steps),
        Err(_) => silent(Rule::RelayBad),
    }
}

// The verdict on an error of this type and word that quotes a tunnel packet.
fn judge_quote<W: Words, L: Ledger>(
    words: &mut W,
    settings: &Softwire,
    kind: u8,
    word: u32,
    quote: &Quote<'_>,
    steps: &mut Steps<L>,
) -> Verdict
    requires { AreCompiled (W.list words.old) }
    ensures verdict { (t : BindingTable) → IsCompiled t (W.list words.old) →
        verdict_in (quote_lines (binding_table t.edition settings.now t.bindings) kind word (Ok (tunnel_quote quote.now))) ≡ Some result }
    ensures reads { Reads W.Words words.old words.new steps.old steps.new }
    ensures bound { IsWithin (λ look. 2 * look) (W.list words.old) steps.old steps.new }
{
    if let Some(refused) = quote_refusal(settings, quote) {
        return refused;
    }
    let Some(wants) = quote_wants(quote) else {
        return silent(Rule::RelayNoBinding);
    };
    let end = look(words, quote.dst, wants.destination, steps);
    if let Some(refused) = receiver_refusal(quote, end) {
        return refused;
    }
    let source = destination_of(words, quote.src, wants.source, steps);
    relay(settings, kind, word, quote, source)
}

// What the quoted packet asks for at both ends, where it names a port.
fn quote_wants(quote: &Quote<'_>) -> Option<Wants>
    ensures source { quoted_source (tunnel_quote quote.now) ≡ key_of (option_map (λ wants. wants.source) result) }
    ensures destination { quoted_destination (tunnel_quote quote.now) ≡ key_of (option_map (λ wants. wants.destination) result) }
{
    let source = quote_from(quote)?;
    let destination = quote_to(quote)?;
    Some(Wants {
        source,
        destination,
    })
}

// The quoted packet is not the router's.
fn quote_refusal(settings: &Softwire, quote: &Quote<'_>) -> Option<Verdict>
    ensures { verdict_in (quote_refusals settings.now (tunnel_quote quote.now)) ≡ result }
{
    if quote.src6 == settings.aftr {
        None
    } else {
        Some(silent(Rule::RelayBad))
    }
}

// By the tunnel's end of the owner of the quoted destination.
fn receiver_refusal(quote: &Quote<'_>, end: Option<V6>) -> Option<Verdict>
    ensures { verdict_in (receiver_lines (tunnel_quote quote.now) end) ≡ result }
{
    if ends_at(end, quote.dst6) {
        None
    } else {
        Some(silent(Rule::RelayNoBinding))
    }
}

// By what the table has of the quoted source.
fn relay(
    settings: &Softwire,
    kind: u8,
    word: u32,
    quote: &Quote<'_>,
    source: Destination,
) -> Verdict
    ensures { verdict_in (relay_lines settings.now kind word (tunnel_quote quote.now) (has_binding source) (tunnel_of source)) ≡ Some result }
{
    match source {
        Destination::Unowned => silent(Rule::RelayNoBinding),
        Destination::Unbound => relayed_along(settings, kind, word, quote, Path::Plain),
        Destination::Owned(to) => {
            let path = Path::Tunnel {
                from: settings.aftr,
                to,
                hop: settings.hop_limit,
            };
            relayed_along(settings, kind, word, quote, path)
        }
    }
}

// Where an ICMP error may be sent about the quoted packet.
fn relayed_along(settings: &Softwire, kind: u8, word: u32, quote: &Quote<'_>, path: Path) -> Verdict
    ensures { result ≡ (if gets_answer (inner_packet quote.now) then relayed settings.now kind word path else silent rule.RelayMute) }
{
    if may_relay(quote) {
        relayed(settings, kind, word, path)
    } else {
        silent(Rule::RelayMute)
    }
}
