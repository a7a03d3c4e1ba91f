// Tables that keep the rules, and the first rule that one breaks.
use crate::rows::{edition_of, rows_of, table, table_under};
use binding_file::RuleText;
use binding_rules::{Binding, Edition, Softwire, TableError};
use case_data::{SETTINGS, SHARED, subscriber};
use std::alloc::Global;
use std::test::Fail;

// A line has the edition and the settings of a table, its rows, and how many bindings it has or the first rule that it breaks. Lines
// behind `#` say what the next ones are about.
const CONFLICTS: &str = "\
# identifier 52 of shape (6, 8) owns the ports 1232 to 1235 and more (RFC 7597, appendix A)
two|6 8 52, 0 16 80|2 bindings
one|6 8 52, 0 16 80|mixed-shape 0 1
two|6 8 52, 0 16 1232|twice 0 1
# equal identifiers of unlike shapes, of which no port is in both
two|6 8 52, 0 16 52|2 bindings
# the whole address beside anything
two|0 16 9, 0 0 0|twice 0 1
one|0 0 0, 0 0 0|twice 0 1
# the least second place, and then the least first one
two|0 8 1, 0 8 2, 0 16 512, 0 16 256, 0 16 512|twice 1 2
one|0 8 1, 0 8 2, 0 16 512, 0 16 256, 0 16 512|mixed-shape 0 2
two|0 16 256, 0 16 257, 0 8 1|twice 0 2
# up to 256 bindings of unlike shapes are compared two by two; the upper half of the ports, and one port more
two|0 16 0-253, 1 0 0, 0 16 500|256 bindings
two|0 16 0-254, 1 0 0, 0 16 500|257 bindings
two|0 16 0-255, 1 0 0, 0 16 500|258 bindings
two|0 16 0-399, 1 0 0, 0 16 500|402 bindings
two|0 16 0-253, 1 0 0, 0 16 40000|twice 254 255
two|0 16 0-254, 1 0 0, 0 16 40000|twice 255 256
two|0 16 0-255, 1 0 0, 0 16 40000|twice 256 257
two|0 16 0-399, 1 0 0, 0 16 40000|twice 400 401
# the ports 128 to 191
two|0 16 0-253, 1 0 0, 0 10 2, 0 16 3|twice 128 255
two|0 16 0-254, 1 0 0, 0 10 2, 0 16 3|twice 128 256
two|0 16 0-255, 1 0 0, 0 10 2, 0 16 3|twice 128 257
two|0 16 0-399, 1 0 0, 0 10 2, 0 16 3|twice 128 401
# every port, twice
two|0 16 0-253, 0 0 0, 0 0 0|twice 0 254
two|0 16 0-254, 0 0 0, 0 0 0|twice 0 255
two|0 16 0-255, 0 0 0, 0 0 0|twice 0 256
two|0 16 0-399, 0 0 0, 0 0 0|twice 0 400
two|0 16 0-253, 1 0 0, 0 16 9, 0 0 0|twice 9 255
two|0 16 0-254, 1 0 0, 0 16 9, 0 0 0|twice 9 256
two|0 16 0-255, 1 0 0, 0 16 9, 0 0 0|twice 9 257
two|0 16 0-399, 1 0 0, 0 16 9, 0 0 0|twice 9 401";

// Of the last row all is wrong.
const IN_ORDER: &str = "\
one no-mtu6-no-hop|6 8 52, c0000201 0 17 0, c0000201 0 17 0|mtu
one no-mtu4|6 8 52, 0 0 0, c0000201 0 17 0|mtu
one no-hop|6 8 52, c0000201 0 17 0, c0000201 0 17 0|hop
one|6 8 52, c0000201 16 0 1, c0000201 0 17 0|shape 1
one|6 8 52, c0000201 6 8 256, c0000201 0 17 0|psid 1
one|6 8 52, c0000201 6 8 255, c0000201 0 17 0|own-address 1";

const COUNTS: &str = "\
one|6 6 0-63, 6 6 0|twice 0 64
one|0 16 0-65535|65536 bindings
one|0 16 0-65535, 0 16 0|too-many 65537";

fn settings_of(name: &str) -> Option<Softwire> {
    let mut settings = SETTINGS;
    match name {
        "" => {}
        "no-mtu6-no-hop" => {
            settings.mtu6 = 1279;
            settings.hop_limit = 0;
        }
        "no-mtu4" => settings.mtu4 = 575,
        "no-hop" => settings.hop_limit = 0,
        _ => return None,
    }
    Some(settings)
}

// How many bindings the table of such rows has, or the first rule that it breaks.
fn outcome(alloc: Global, head: &str, rows: &str) -> Result<String, Fail> {
    let (edition, settings) = head.split_once(' ').unwrap_or((head, ""));
    let edition = edition_of(edition).ok_or("an edition")?;
    let settings = settings_of(settings).ok_or("settings")?;
    match table_under(alloc, edition, settings, &rows_of(alloc, rows)?) {
        Ok(table) => {
            let count = table.bindings().len();
            Ok(format!(in alloc; "{count} bindings")?)
        }
        Err(TableError::Refused(refused)) => {
            let rule = RuleText(refused);
            Ok(format!(in alloc; "{rule}")?)
        }
        Err(TableError::OutOfMemory) => Err("out of memory".into()),
    }
}

fn is_right(alloc: Global, line: &str) -> Result<bool, Fail> {
    let (head, rest) = line.split_once('|').ok_or("rows")?;
    let (rows, wanted) = rest.split_once('|').ok_or("an outcome")?;
    Ok(outcome(alloc, head, rows)?.as_str() == wanted)
}

fn first_wrong(alloc: Global, lines: &'static str) -> Result<Option<&'static str>, Fail> {
    for line in lines.lines() {
        if !line.starts_with('#') && !is_right(alloc, line)? {
            return Ok(Some(line));
        }
    }
    Ok(None)
}

#[test]
fn names_the_first_conflict_of_few_and_of_many(rt: HostRuntime) -> Result<(), Fail> {
    assert_eq!(rt; first_wrong(rt.alloc(), CONFLICTS)?, None);
    Ok(())
}

#[test]
fn refuses_in_order(rt: HostRuntime) -> Result<(), Fail> {
    assert_eq!(rt; first_wrong(rt.alloc(), IN_ORDER)?, None);
    Ok(())
}

#[test]
fn takes_65536_bindings(rt: HostRuntime) -> Result<(), Fail> {
    assert_eq!(rt; first_wrong(rt.alloc(), COUNTS)?, None);
    Ok(())
}

// A comparison of each two of these bindings, or a look at every port of each, would not end within the test's steps.
#[test]
fn tests_many_bindings_of_two_shapes_without_comparing_each_two(
    rt: HostRuntime,
) -> Result<(), Fail> {
    let alloc = rt.alloc();
    let upper = outcome(alloc, "two", "0 16 0-7999, 1 0 0")?;
    assert_eq!(rt; upper.as_str(), "8001 bindings");
    // Every port, and the upper half of the ports, in turn.
    let rows = "0 0 0, 1 0 0, ".repeat(alloc, 4_000)?;
    let in_turn = outcome(alloc, "two", rows.as_str())?;
    assert_eq!(rt; in_turn.as_str(), "twice 0 1");
    Ok(())
}

fn row(number: u32, psid: u16) -> Binding {
    Binding {
        b4: subscriber(number),
        v4: SHARED,
        offset: 6,
        length: 8,
        psid,
    }
}

// Whether a table of this edition keeps all but that on its way into edition two.
fn is_moved(alloc: Global, edition: &str) -> Result<bool, Fail> {
    let table = table(alloc, edition, "6 8 52, 6 8 53")?.into_edition_two();
    let rows = [row(1, 52), row(2, 53)];
    Ok(
        table.edition() == Edition::Two
            && table.softwire() == SETTINGS
            && table.bindings() == rows.as_slice(),
    )
}

#[test]
fn moves_a_table_into_edition_two(rt: HostRuntime) -> Result<(), Fail> {
    let moved = [is_moved(rt.alloc(), "one")?, is_moved(rt.alloc(), "two")?];
    assert_eq!(rt; moved, [true; 2]);
    Ok(())
}
