// The settings in the words of a table.
ghost use Rattle.std.specs.Prelude.{◌≡◌, ◌+◌};
ghost use Rattle.binding_rules.specs.Tables.{BindingTable};
ghost use Rattle.table_words.specs.Layout.{IsCompiled, AreCompiled};
ghost use Rattle.table_words.specs.Reads.{read_more};

use crate::counter::Steps;
use crate::reader::Words;
use aftr_base::{V4, V6};
use binding_rules::Softwire;
use std::sync::ledger::Ledger;

/// The settings of the table. The condition is that of `look`. It reads four words.
pub fn softwire<W: Words, L: Ledger>(words: &mut W, steps: &mut Steps<L>) -> Softwire
    requires { AreCompiled (W.list words.old) }
    ensures value { (t : BindingTable) → IsCompiled t (W.list words.old) → result ≡ t.softwire }
    ensures list { W.list words.new ≡ W.list words.old }
    ensures reads { W.reads words.new ≡ read_more (W.reads words.old) 4 }
    ensures goes { W.goes words.old words.new }
    ensures steps { steps.new ≡ steps.old + 4 }
{
    let high = words.word(1, steps);
    let low = words.word(2, steps);
    let own = words.word(3, steps);
    let sizes = words.word(4, steps);
    Softwire {
        aftr: V6(u128::from(high) * 0x1_0000_0000_0000_0000 + u128::from(low)),
        own: V4((own / 0x1_0000_0000) as u32),
        mtu6: (sizes / 0x1_0000_0000) as u16,
        mtu4: (sizes / 0x1_0000 % 0x1_0000) as u16,
        hop_limit: (sizes % 0x1_0000) as u8,
        hairpin: own % 2 == 1,
        icmp_in: own / 2 % 2 == 1,
        errors_up: own / 4 % 2 == 1,
        errors_down: own / 8 % 2 == 1,
    }
}
