// Items that are all alike, and what becomes of them.
use case_data::{AFTR, SUBSCRIBER};
use ip_codec::{ItemView, Outer, Rule};
use item_stage::RoundItems;
use verdict_core::{Reply, Verdict};
use worker_gate::Outcome;

/// So many records with one item.
#[derive(Drop)]
pub struct Alike<'a> {
    pub item: ItemView<'a>,
    pub count: usize,
}

impl<'a> RoundItems for Alike<'a> {
    ghost use Rattle.std.specs.Prelude.{replicate};
    ghost use Rattle.ip_codec.specs.Seen.{seen};

    ghost items = { λ s. replicate s.count (seen s.item) };

    fn len(&self) -> usize {
        self.count
    }

    fn item_into<'b>(&'b self, _index: usize, item: &mut ItemView<'b>) {
        *item = self.item;
    }
}

/// The header of the tunnel in which the subscriber sends.
pub const OUTER: Outer = Outer {
    word: 0x6000_0000,
    hop: 64,
    src: SUBSCRIBER,
    dst: AFTR,
};

/// Whether this is the outcome of the subscriber's packet with this number under this version: the packet goes out under the tables with
/// even numbers, and is dropped under the others.
pub fn is_judged_under(outcome: &Outcome, number: u32, version: u32) -> bool {
    let verdict = if version % 2 == 0 {
        Verdict::Outward { mtu: 1500 }
    } else {
        Verdict::Drop {
            why: Rule::NoBinding,
            reply: Reply::Silent,
        }
    };
    *outcome
        == Outcome {
            number,
            version,
            verdict,
        }
}

/// Whether this is the outcome of the subscriber's packet with this number: below `second` it is judged under the first table, and from
/// there on under the second.
pub fn is_judged(outcome: &Outcome, number: u32, second: u32) -> bool {
    is_judged_under(outcome, number, u32::from(number >= second))
}
