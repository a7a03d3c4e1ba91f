// Lookups over the words of a table, and how many words each read.
ghost use Rattle.std.specs.Prelude.{◌≡◌, ◌<◌};
ghost use Rattle.table_words.specs.Layout.{AreCompiled};

use aftr_base::{V4, V6, WordList};
use binding_rules::{Softwire, Want};
use std::marker::Brand;
use std::sync::ledger::{Blank, Ledger};
use table_words::{
    Destination, SliceWords, Steps, Words, destination_of, has_address, look, softwire,
};

// The words of a slice, and how many were read.
#[derive(Drop)]
struct CountedWords<'a> {
    words: &'a [u64],
    count: u64,
}

impl<'a> Words for CountedWords<'a> {
    ghost use Rattle.std.proofs.Common.{◌∙◌};
    ghost use Rattle.std.specs.Prelude.{None, refl};

    ghost list = { λ s. s.words.now };

    ghost reads = { λ _. None };

    ghost goes = { λ x y. y.words.now ≡ x.words.now };

    ghost stays = { λ _. refl };

    ghost goes_on = { λ x y z h k. k ∙ h };

    fn word<L: Ledger>(&mut self, j: u32, steps: &mut Steps<L>) -> u64 {
        steps.tick();
        self.count = self.count.saturating_add(1);
        self.words[j as usize]
    }
}

fn counted_look<L: Ledger>(words: &[u64], v4: V4, want: Want, blank: Blank) -> (Option<V6>, u64)
    requires compiled { AreCompiled words.now }
    requires name { blank.name ≡ L.name }
    requires parts { blank.parts ≡ L.parts }
    requires some { 0 < blank.parts }
{
    let mut counted = CountedWords { words, count: 0 };
    let mut steps = Steps::<L>::start(blank);
    let owner = look(&mut counted, v4, want, &mut steps);
    (owner, counted.count)
}

// The owner, and how many words were read for it.
pub(crate) fn owner(words: &WordList, v4: V4, want: Want) -> (Option<V6>, u64)
    requires { AreCompiled words.now }
{
    counted_look::<Brand>(words.as_slice(), v4, want, Blank::new(1))
}

fn counted_destination<L: Ledger>(
    words: &[u64],
    v4: V4,
    want: Want,
    blank: Blank,
) -> (Destination, u64)
    requires compiled { AreCompiled words.now }
    requires name { blank.name ≡ L.name }
    requires parts { blank.parts ≡ L.parts }
    requires some { 0 < blank.parts }
{
    let mut counted = CountedWords { words, count: 0 };
    let mut steps = Steps::<L>::start(blank);
    let found = destination_of(&mut counted, v4, want, &mut steps);
    (found, counted.count)
}

// What the table has of a destination, and how many words were read for it.
pub(crate) fn destination(words: &WordList, v4: V4, want: Want) -> (Destination, u64)
    requires { AreCompiled words.now }
{
    counted_destination::<Brand>(words.as_slice(), v4, want, Blank::new(1))
}

fn facts_in<L: Ledger>(words: &[u64], v4: V4, blank: Blank) -> (bool, Softwire)
    requires compiled { AreCompiled words.now }
    requires name { blank.name ≡ L.name }
    requires parts { blank.parts ≡ L.parts }
    requires some { 0 < blank.parts }
{
    let mut words = SliceWords(words);
    let mut steps = Steps::<L>::start(blank);
    let has = has_address(&mut words, v4, &mut steps);
    (has, softwire(&mut words, &mut steps))
}

// Whether some binding has the address, and the settings.
pub(crate) fn facts(words: &WordList, v4: V4) -> (bool, Softwire)
    requires { AreCompiled words.now }
{
    facts_in::<Brand>(words.as_slice(), v4, Blank::new(1))
}
