// The options that every piece of an IPv4 packet carries.
ghost use Rattle.std.specs.Prelude.{◌≡◌, ◌+◌, ◌%◌, ◌<◌, ◌≤◌, ◌++◌, [], length, MatchOption, true, false};
ghost use Rattle.fragmenter.specs.Kept.{copied_of, if_copied, kept, option_len, ends, padding};

use std::marker::Model;

// The types of options that have no length byte, and the flag that an option is copied into every piece (RFC 791, section
// 3.1).
const END: u8 = 0;

const NO_OPERATION: u8 = 1;

const COPIED: u8 = 0x80;

// What fills up a word of four bytes.
const PADDING: [u8; 3] = [0; 3];

// The most bytes of options that a header has.
const MOST: usize = 40;

// Options of one header, seen as their bytes. They stand in no memory of their own.
#[derive(Drop)]
pub(crate) struct Options {
    bytes: [u8; 40],
    len: usize,
}

impl Model for Options {
    ghost use Rattle.std.specs.Prelude.{ℕ, ◌≤◌, List, take};

    ghost Value = { List ℕ };

    ghost view = { λ o. take o.len o.bytes };

    ghost invariant = { λ o. o.len ≤ 40 };
}

impl Options {
    fn none() -> Options
        ensures { result ≡ [] }
    {
        Options {
            bytes: [0; MOST],
            len: 0,
        }
    }

    pub(crate) fn as_slice(&self) -> &[u8]
        ensures { result.now ≡ self.now }
    {
        &self.bytes[..self.len]
    }

    fn len(&self) -> usize
        ensures { result ≡ length self.now }
    {
        self.len
    }

    fn push(&mut self, more: &[u8])
        requires { length self.old + length more.now ≤ 40 }
        ensures { self.new ≡ self.old ++ more.now }
    {
        let end = self.len + more.len();
        self.bytes[self.len..end].copy_from_slice(more);
        self.len = end;
    }
}

// The options of every piece but the first: those that are copied, in order, and zeros up to a whole word of four bytes.
pub(crate) fn copied(options: &[u8]) -> Options
    requires whole_words { length options.now % 4 ≡ 0 }
    requires most { length options.now ≤ 40 }
    ensures copied { result ≡ copied_of options.now }
    ensures whole { length result % 4 ≡ 0 }
    ensures no_more { length result ≤ length options.now }
{
    let mut list = Options::none();
    let mut at = 0;
    'options: while let Some(len) = first_option(&options[at..]) {
        push_if_copied(&mut list, &options[at..at + len]);
        at += len;
    }
    let missing = (4 - list.len() % 4) % 4;
    list.push(&PADDING[..missing]);
    list
}

// Appends an option that is copied, and no other.
fn push_if_copied(list: &mut Options, option: &[u8])
    requires some { 1 ≤ length option.now }
    requires room { length list.old + length option.now ≤ 40 }
    ensures { list.new ≡ list.old ++ if_copied option.now }
{
    if option[0] >= COPIED {
        list.push(option);
    }
}

// How many bytes the first option has; none where the options end, or one is not whole.
fn first_option(left: &[u8]) -> Option<usize>
    ensures { MatchOption result (ends left.now ≡ true)
        (λ len. (ends left.now ≡ false) × (len ≡ option_len left.now) × (1 ≤ len) × (len ≤ length left.now)) }
{
    if left.is_empty() || left[0] == END {
        return None;
    }
    if left[0] == NO_OPERATION {
        return Some(1);
    }
    if left.len() < 2 {
        return None;
    }
    let len = usize::from(left[1]);
    if len < 2 || left.len() < len {
        return None;
    }
    Some(len)
}
