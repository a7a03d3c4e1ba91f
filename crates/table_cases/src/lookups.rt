// What the words of a table say: their layout, the owners of ports, and what a table has of a destination.
ghost use Rattle.table_words.specs.Layout.{AreCompiled};

use crate::counted::{destination, facts, owner};
use crate::rows::{rows_of, table};
use aftr_base::{V4, V6, WordList};
use binding_rules::{Table, Want, find};
use case_data::{SETTINGS, subscriber};
use std::alloc::Global;
use std::test::Fail;
use table_words::{Destination, compile};

// Tables, apart by an empty line: the edition, how many words it has, how many are read for a destination at most, and the rows; behind
// it a line for each look. `word` names the place of a word, or the first and the last one of some, and the word in hexadecimal
// digits. Others name a destination, by a port and the address in hexadecimal digits or 203.0.113.1, and who has it: a
// subscriber by its number, or none.
const LAYOUTS: &str = "\
one 65548 22|6 8 52
word 0|1
word 1|20010db800000000
word 2|1
word 3|c000020100000003
word 4|5dc05dc0040
word 5-51976|0
word 51977-65544|1
word 65545|cb00710106080034
word 65546|20010db800010000
word 65547|1
1232|1

# the shape of the first word of an entry is its bits 31 to 16; the top one marks an address of two shapes
two 65551 22|6 8 52, 6 8 53
word 5-7|0
word 65545|cb00710106080034
word 65548|cb00710106080035

two 65551 22|6 8 52, cb007102 6 10 5
word 5-7|0
word 65545|cb00710106080034
word 65548|cb007102060a0005

two 65551 22|6 8 52, 6 10 5
word 5-7|0
word 65545|cb00710186080034
word 65548|cb007101860a0005

two 65551 22|6 8 52, 0 16 80
word 5-7|0
word 65545|cb00710180100050
word 65548|cb00710186080034

# and no other one
two 65563 27|cb007103 0 0 0, cb007102 6 10 5, 6 8 52, cb007102 6 8 52, cb007102 6 8 53, 6 8 53
word 65545|cb00710106080034
word 65548|cb00710106080035
word 65551|cb00710286080034
word 65554|cb00710286080035
word 65557|cb007102860a0005
word 65560|cb00710300000000";

const DESTINATIONS: &str = "\
# identifier 52 owns the ports 1232 to 1235, 2256 and more, and 53 the four behind them (RFC 7597, appendix A)
one 65551 22|6 8 52, 6 8 53
1232|1
1235|1
1236|2
1240|unowned
208|unowned
whole|unowned
1232 cb007102|unbound
1232 1|unbound

two 65551 22|6 8 52, 0 16 80
80|2
1232|1
64723|1
81|unowned
whole|unowned
80 cb007102|unbound
80 1|unbound

one 65548 22|0 0 0
whole|1

# every port but those below 1,024, and so not the whole address
one 65548 22|6 0 0
whole|unowned

one 65545 8|
whole|unbound";

// The destination that a line names.
fn asked(question: &str) -> Option<(V4, Want)> {
    let (port, v4) = question.split_once(' ').unwrap_or((question, "cb007101"));
    let v4 = V4(u32::from_str_radix(v4, 16).ok()?);
    if port == "whole" {
        return Some((v4, Want::Whole));
    }
    Some((v4, Want::Port(port.parse().ok()?)))
}

// What a table has of the destination whose answer is this.
fn answered(answer: &str) -> Option<Destination> {
    match answer {
        "1" => Some(Destination::Owned(subscriber(1))),
        "2" => Some(Destination::Owned(subscriber(2))),
        "unowned" => Some(Destination::Unowned),
        "unbound" => Some(Destination::Unbound),
        _ => None,
    }
}

// The owner by a reading of the list.
fn owner_in_list(table: &Table, v4: V4, want: Want) -> Option<V6> {
    let place = find(table, v4, want)?;
    Some(table.bindings().get(place)?.b4)
}

fn end_of(found: Destination) -> Option<V6> {
    match found {
        Destination::Owned(end) => Some(end),
        _ => None,
    }
}

// Whether the list and the words have just this of a destination, and at most so many words are read for it.
fn is_found(
    table: &Table,
    words: &WordList,
    asked: (V4, Want),
    found: Destination,
    most: u64,
) -> bool
    requires { AreCompiled words.now }
{
    let (v4, want) = asked;
    let (told, count) = destination(words, v4, want);
    told == found
        && count <= most
        && owner(words, v4, want).0 == end_of(found)
        && owner_in_list(table, v4, want) == end_of(found)
        && facts(words, v4) == (found != Destination::Unbound, SETTINGS)
}

// Whether these places of the words have this word.
fn have(words: &WordList, places: &str, word: &str) -> Result<bool, Fail> {
    let (first, last) = places.split_once('-').unwrap_or((places, places));
    let (first, last) = (first.parse::<usize>()?, last.parse::<usize>()?);
    let word = u64::from_str_radix(word, 16)?;
    let mut right = true;
    for place in first..=last {
        right &= words.as_slice().get(place).copied() == Some(word);
    }
    Ok(right)
}

fn is_right(table: &Table, words: &WordList, most: u64, line: &str) -> Result<bool, Fail>
    requires { AreCompiled words.now }
{
    let (question, answer) = line.split_once('|').ok_or("an answer")?;
    if let Some(places) = question.strip_prefix("word ") {
        return have(words, places, answer);
    }
    let asked = asked(question).ok_or("a destination")?;
    let found = answered(answer).ok_or("who has it")?;
    Ok(is_found(table, words, asked, found, most))
}

// The first line of a table that is not right.
fn first_wrong_of(
    alloc: Global,
    head: &str,
    lines: &'static str,
) -> Result<Option<&'static str>, Fail> {
    let (numbers, rows) = head.split_once('|').ok_or("rows")?;
    let (edition, numbers) = numbers.split_once(' ').ok_or("a number of words")?;
    let (count, most) = numbers.split_once(' ').ok_or("how many are read")?;
    let table = table(alloc, edition, rows)?;
    let words = compile(alloc, &table)?;
    if words.as_slice().len() != count.parse::<usize>()? {
        return Ok(Some("the number of words"));
    }
    let most = most.parse::<u64>()?;
    for line in lines.lines() {
        if !is_right(&table, &words, most, line)? {
            return Ok(Some(line));
        }
    }
    Ok(None)
}

// The first table of which a line is not right, and that line.
fn first_wrong(
    alloc: Global,
    tables: &'static str,
) -> Result<Option<(&'static str, &'static str)>, Fail> {
    for section in tables.split("\n\n") {
        let (first, rest) = section.split_once('\n').ok_or("lines")?;
        let (head, lines) = if first.starts_with('#') {
            rest.split_once('\n').ok_or("lines")?
        } else {
            (first, rest)
        };
        if let Some(line) = first_wrong_of(alloc, head, lines)? {
            return Ok(Some((head, line)));
        }
    }
    Ok(None)
}

#[test]
fn has_the_words_of_the_layout_and_marks_addresses_of_two_shapes(
    rt: HostRuntime,
) -> Result<(), Fail> {
    assert_eq!(rt; first_wrong(rt.alloc(), LAYOUTS)?, None);
    Ok(())
}

#[test]
fn tells_owners_and_bound_addresses_without_one(rt: HostRuntime) -> Result<(), Fail> {
    assert_eq!(rt; first_wrong(rt.alloc(), DESTINATIONS)?, None);
    Ok(())
}

/// Tables: the edition, how many words are read at most where an owner is found and where none is, and the rows. The first has up to five
/// shapes at one address, and ten bindings in one group of addresses; the second one shape an address, and up to two bindings in one
/// group; the next one shape an address, and ten bindings in one group; the last no binding.
///
/// With B digits in the greatest group and G shapes at one address: G * (2 * B + 4) + 4, and B more where there is no owner and G is
/// above 1. Ten bindings have 4 digits, two have 2.
pub const TABLES: &str = "\
two 64 68|cb007101 15 0 0, cb007100 0 16 1024, cb007100 6 8 52, cb007100 2 14 70, cb007100 6 8 53, cb007100 6 10 5, cb007100 0 12 4000, \
    cb007100 0 16 80, cb007102 0 0 0, ffffffff 0 16 65535, ffffffff 10 6 62, 0 0 0 0, ffff 1 15 9
one 12 12|ffff0000 0 1 1, 10000 4 2 3, ffff0000 0 1 0, 1 0 0 0
one 16 16|cb007102 6 8 255, cb007102 6 8 53, cb007102 6 8 52, cb007102 6 8 5, cb007102 6 8 0, cb007100 0 0 0, cb007101 2 2 2, \
    cb007101 2 2 0, cb00ffff 15 1 1, cb00ffff 15 1 0
two 16 16|cb007102 6 8 255, cb007102 6 8 53, cb007102 6 8 52, cb007102 6 8 5, cb007102 6 8 0, cb007100 0 0 0, cb007101 2 2 2, \
    cb007101 2 2 0, cb00ffff 15 1 1, cb00ffff 15 1 0
one 8 8|";

/// What is looked for at an address.
pub const WANTS: [Want; 16] = [
    Want::Whole,
    Want::Port(0),
    Want::Port(80),
    Want::Port(81),
    Want::Port(1023),
    Want::Port(1024),
    Want::Port(1029),
    Want::Port(1232),
    Want::Port(1236),
    Want::Port(1240),
    Want::Port(16_454),
    Want::Port(32_777),
    Want::Port(64_000),
    Want::Port(64_016),
    Want::Port(65_534),
    Want::Port(65_535),
];

const ADDRESSES: [u32; 11] = [
    0,
    1,
    0xffff,
    0x1_0000,
    0xcb00_7100,
    0xcb00_7101,
    0xcb00_7102,
    0xcb00_ffff,
    0xcb01_0000,
    0xffff_0000,
    0xffff_ffff,
];

// What the table has of a destination, by a reading of its list.
fn destination_in_list(table: &Table, v4: V4, want: Want, is_bound: bool) -> Destination {
    match owner_in_list(table, v4, want) {
        Some(end) => Destination::Owned(end),
        None if is_bound => Destination::Unowned,
        None => Destination::Unbound,
    }
}

// Whether the words say of all that is looked for at an address what the list says.
fn agree(table: &Table, words: &WordList, v4: V4, is_bound: bool) -> bool
    requires { AreCompiled words.now }
{
    let mut right = facts(words, v4).0 == is_bound;
    for want in WANTS {
        let found = destination_in_list(table, v4, want, is_bound);
        right &= is_found(table, words, (v4, want), found, u64::MAX);
    }
    right
}

// The first address of which a table's words say something else than its list.
fn first_other(alloc: Global, edition: &str, rows: &str) -> Result<Option<u32>, Fail> {
    let table = table(alloc, edition, rows)?;
    let words = compile(alloc, &table)?;
    let rows = rows_of(alloc, rows)?;
    for address in ADDRESSES {
        let is_bound = rows.iter().any(|row| row.0 == address);
        if !agree(&table, &words, V4(address), is_bound) {
            return Ok(Some(address));
        }
    }
    Ok(None)
}

#[test]
fn agrees_with_the_list(rt: HostRuntime) -> Result<(), Fail> {
    for line in TABLES.lines() {
        let (head, rows) = line.split_once('|').ok_or("rows")?;
        let (edition, _) = head.split_once(' ').ok_or("bounds")?;
        assert_eq!(rt; first_other(rt.alloc(), edition, rows)?, None, "{line}");
    }
    Ok(())
}
