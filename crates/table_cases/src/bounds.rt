// How many words lookups read, by the numbers of the table.
ghost use Rattle.std.specs.Prelude.{IfOk};
ghost use Rattle.table_words.specs.Layout.{AreCompiled};

use crate::counted::{destination, owner};
use crate::lookups::{TABLES, WANTS};
use crate::rows::{rows_of, table, table_under};
use aftr_base::{V4, WordList};
use binding_rules::{Edition, Want};
use case_data::{SETTINGS, SHARED, subscriber};
use std::alloc::Global;
use std::test::Fail;
use table_words::compile;

// The words of the table of a text's rows.
fn words_of(alloc: Global, edition: &str, rows: &str) -> Result<WordList, Fail>
    ensures { IfOk result (λ words. AreCompiled words) }
{
    let table = table(alloc, edition, rows)?;
    let words = compile(alloc, &table)?;
    Ok(words)
}

// The words of 65,536 whole addresses from the first one on, so far apart.
fn words_of_addresses(alloc: Global, first: u32, step: u32) -> Result<WordList, Fail>
    ensures { IfOk result (λ words. AreCompiled words) }
{
    let mut rows = Vec::new(alloc);
    for number in 0..65_536u32 {
        rows.push((number.wrapping_mul(step).wrapping_add(first), 0, 0, 0))?;
    }
    let table = table_under(alloc, Edition::One, SETTINGS, &rows)?;
    let words = compile(alloc, &table)?;
    Ok(words)
}

// The first of these addresses whose owner is not found by ten words.
fn first_beyond_ten(words: &WordList) -> Option<u32>
    requires { AreCompiled words.now }
{
    for high in 0..65_536u32 {
        let (found, count) = owner(words, V4(high * 65_536 + 1), Want::Whole);
        if found != Some(subscriber(high + 1)) || count > 10 {
            return Some(high);
        }
    }
    None
}

#[test]
fn reads_ten_words_at_most_for_one_of_65536_addresses(rt: HostRuntime) -> Result<(), Fail> {
    let words = words_of_addresses(rt.alloc(), 1, 65_536)?;
    assert_eq!(rt; first_beyond_ten(&words), None);
    Ok(())
}

// Whether a look over the words reads at most so many where it finds an owner, and so many where it finds none; both by either call.
fn reads_within(words: &WordList, v4: V4, want: Want, bounds: (u64, u64)) -> bool
    requires { AreCompiled words.now }
{
    let (found, any) = bounds;
    let (end, count) = owner(words, v4, want);
    let most = if end.is_some() { found } else { any };
    let (_, again) = destination(words, v4, want);
    count >= 1 && count <= most && again >= 1 && again <= most
}

// The same for all that is looked for at an address.
fn read_within(words: &WordList, v4: V4, bounds: (u64, u64)) -> bool
    requires { AreCompiled words.now }
{
    let mut right = true;
    for want in WANTS {
        right &= reads_within(words, v4, want, bounds);
    }
    right
}

// The first address of these rows, or one beside it, for which more words are read.
fn first_beyond(
    alloc: Global,
    edition: &str,
    rows: &str,
    bounds: (u64, u64),
) -> Result<Option<u32>, Fail> {
    let words = words_of(alloc, edition, rows)?;
    let list = rows_of(alloc, rows)?;
    for row in &list {
        for address in [row.0.wrapping_sub(1), row.0, row.0.wrapping_add(1)] {
            if !read_within(&words, V4(address), bounds) {
                return Ok(Some(address));
            }
        }
    }
    Ok(None)
}

// The same for a line of tables.
fn first_beyond_in(alloc: Global, line: &str) -> Result<Option<u32>, Fail> {
    let (head, rows) = line.split_once('|').ok_or("rows")?;
    let (edition, bounds) = head.split_once(' ').ok_or("bounds")?;
    let (found, any) = bounds.split_once(' ').ok_or("a second one")?;
    first_beyond(alloc, edition, rows, (found.parse()?, any.parse()?))
}

#[test]
fn reads_no_more_words_than_the_bounds_of_the_table(rt: HostRuntime) -> Result<(), Fail> {
    for line in TABLES.lines() {
        assert_eq!(rt; first_beyond_in(rt.alloc(), line)?, None, "{line}");
    }
    Ok(())
}

// Whether looks over each of the words read as many of them, and find the same, by either call.
fn read_alike(words: &WordList, others: &WordList, v4: V4) -> bool
    requires some { AreCompiled words.now }
    requires other { AreCompiled others.now }
{
    let mut right = true;
    for want in WANTS {
        right &= owner(words, v4, want) == owner(others, v4, want)
            && destination(words, v4, want) == destination(others, v4, want);
    }
    right
}

const GROUP: &str =
    "cb007102 6 8 255, cb007102 6 8 53, cb007102 6 8 52, cb007102 6 8 5, cb007102 6 8 0, cb007100 0 0 0, cb007101 2 2 2, \
    cb007101 2 2 0, cb00ffff 15 1 1, cb00ffff 15 1 0";

// The first address of the group that is not read alike beside an address of two shapes.
fn first_unlike(alloc: Global) -> Result<Option<u32>, Fail> {
    let alone = words_of(alloc, "two", GROUP)?;
    let rows = format!(in alloc; "{GROUP}, dfffff01 6 8 52, dfffff01 6 10 5")?;
    let beside = words_of(alloc, "two", rows.as_str())?;
    let list = rows_of(alloc, GROUP)?;
    for row in &list {
        if !read_alike(&alone, &beside, V4(row.0)) {
            return Ok(Some(row.0));
        }
    }
    Ok(None)
}

#[test]
fn an_address_of_two_shapes_costs_the_others_nothing(rt: HostRuntime) -> Result<(), Fail> {
    assert_eq!(rt; first_unlike(rt.alloc())?, None);
    Ok(())
}

// The first port for which more than 42 words are read, at an address of 65,536 bindings or at another one.
fn first_port_beyond(words: &WordList) -> Option<u16>
    requires { AreCompiled words.now }
{
    for number in 0..=256u16 {
        let port = number.wrapping_mul(255);
        if !reads_within(words, SHARED, Want::Port(port), (42, 42))
            || !reads_within(words, V4(SHARED.0 ^ 1), Want::Port(port), (42, 42))
        {
            return Some(port);
        }
    }
    None
}

// The first address of a group for which more than 42 words are read, or where those of the group beside it are.
fn first_address_beyond(words: &WordList) -> Option<u32>
    requires { AreCompiled words.now }
{
    for low in 0..=256u32 {
        let v4 = 0xcb00_0000 + low * 255;
        if !reads_within(words, V4(v4), Want::Port(80), (42, 42))
            || !reads_within(words, V4(v4 ^ 0x1_0000), Want::Whole, (42, 42))
        {
            return Some(v4);
        }
    }
    None
}

#[test]
fn reads_42_words_at_most_where_65536_bindings_are_in_one_group(
    rt: HostRuntime,
) -> Result<(), Fail> {
    let words = words_of(rt.alloc(), "one", "0 16 0-65535")?;
    assert_eq!(rt; first_port_beyond(&words), None);
    let words = words_of_addresses(rt.alloc(), 0xcb00_0000, 1)?;
    assert_eq!(rt; first_address_beyond(&words), None);
    Ok(())
}
