// What a packet asks of a table, and what is read of one where nothing is looked up.
ghost use Rattle.std.specs.Prelude.{◌≡◌, ◌+◌, IfOk};
ghost use Rattle.ip_codec.specs.Packet4.{packet4};
ghost use Rattle.port_locate.specs.Keys.{downstream_key, upstream_key};
ghost use Rattle.port_locate.specs.declared.keys.Key.TheVariants as key;
ghost use Rattle.table_words.specs.Layout.{AreCompiled};
ghost use Rattle.verdict_core.specs.Answers.{refused, silent};
ghost use Rattle.verdict_core.specs.Bounds.{Reads};
ghost use Rattle.verdict_core.specs.Lines.{verdict_in};
ghost use Rattle.verdict_core.specs.Verdicts.{key_lines};

use crate::answers::silent;
use crate::verdicts::Verdict;
use ip_codec::{Ip4View, Rule};
use port_locate::{Keys, Wants, keys_of};
use std::sync::ledger::Ledger;
use table_words::{Steps, Words};

// Where the words of a table have the number of its bindings.
const COUNT: u32 = 0;

// What a packet asks for at both ends, or by which rule it is dropped since it asks for nothing.
#[inline(always)]
pub fn wants_of(packet: &Ip4View<'_>) -> Result<Wants, Rule>
    ensures up { verdict_in (key_lines (upstream_key (packet4 packet.now))) ≡ refused result }
    ensures down { verdict_in (key_lines (downstream_key (packet4 packet.now))) ≡ refused result }
    ensures source { IfOk result (λ wants. key.At wants.source ≡ upstream_key (packet4 packet.now)) }
    ensures destination { IfOk result (λ wants. key.At wants.destination ≡ downstream_key (packet4 packet.now)) }
{
    match keys_of(packet) {
        Keys::At(wants) => Ok(wants),
        Keys::NoPort => Err(Rule::NoPort),
        Keys::IcmpBad => Err(Rule::IcmpBad),
    }
}

// Reads the number of bindings, where nothing is looked up: whoever is judged under a table has read one of its words.
pub fn read_count<W: Words, L: Ledger>(words: &mut W, steps: &mut Steps<L>)
    requires { AreCompiled (W.list words.old) }
    ensures reads { Reads W.Words words.old words.new steps.old steps.new }
    ensures steps { steps.new ≡ steps.old + 1 }
{
    words.word(COUNT, steps);
}

// Dropped before anything is looked up, and nobody is told.
#[cold]
#[inline(never)]
pub fn refuse<W: Words, L: Ledger>(
    words: &mut W,
    why: Rule,
    verdict: &mut Verdict,
    steps: &mut Steps<L>,
)
    requires { AreCompiled (W.list words.old) }
    ensures verdict { verdict.new ≡ silent why }
    ensures reads { Reads W.Words words.old words.new steps.old steps.new }
    ensures steps { steps.new ≡ steps.old + 1 }
{
    read_count(words, steps);
    *verdict = silent(why);
}
