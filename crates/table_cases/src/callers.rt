// The callers that the READMEs of port_set, binding_rules, binding_file and table_words show, and what they answer.
ghost use Rattle.std.specs.Prelude.{◌≡◌, ◌^◌, ◌<◌, vec_len};

use crate::rows::{bindings_of, rows_of, table};
use aftr_base::{OutOfMemory, V4, V6};
use binding_file::{FileError, read_table};
use binding_rules::{Binding, Edition, Refused, Softwire, Table, TableError, Want, find, table_of};
use case_data::{PORT_SET_TABLE, SETTINGS, SHARED, SUBSCRIBER, subscriber};
use port_set::{BadShape, Ports, ports_of, psid_of, shape_of};
use std::alloc::Global;
use std::marker::Brand;
use std::sync::ledger::{Blank, Ledger};
use std::test::Fail;
use table_words::{Destination, SliceWords, Steps, compile, destination_of};

/// All ports of the subscriber who has this one, where a port set has an offset of 6 and a length of 8 bits: 1232 to 1235, 2256
/// to 2259 and so on for 1232. Nobody has the ports below 1024.
fn ports_beside(port: u16) -> Result<Option<Ports>, BadShape> {
    let shape = shape_of(6, 8)?;
    let Some(psid) = psid_of(shape, port) else {
        return Ok(None);
    };
    Ok(Some(ports_of(shape, psid)))
}

/// The tunnel's end of the subscriber who has a port of an address, or the first rule that the bindings break.
fn end_of_owner(
    alloc: Global,
    softwire: Softwire,
    bindings: Vec<Binding>,
    v4: V4,
    port: u16,
) -> Result<Option<V6>, TableError>
    requires { vec_len bindings < 2 ^ 32 }
{
    let table = table_of(alloc, Edition::One, softwire, bindings)?;
    let Some(place) = find(&table, v4, Want::Port(port)) else {
        return Ok(None);
    };
    Ok(Some(table.bindings()[place].b4))
}

/// What an operator is told of a table file: how many bindings it has, or what is wrong first, as `missing softwire aftr`.
fn report(alloc: Global, text: &[u8]) -> Result<String, OutOfMemory> {
    match read_table(alloc, text) {
        Ok(table) => Ok(format!(in alloc; "{} bindings", table.bindings().len())?),
        Err(FileError::Refused(refused)) => Ok(format!(in alloc; "{refused}")?),
        Err(FileError::OutOfMemory) => Err(OutOfMemory),
    }
}

/// What a table has of a port of an address, by its words: `Unbound` where no subscriber has the address, `Unowned` where none of
/// those who do has the port, or the end of the owner's tunnel.
fn destination<L: Ledger>(
    alloc: Global,
    table: &Table,
    v4: V4,
    port: u16,
    blank: Blank,
) -> Result<Destination, OutOfMemory>
    requires name { blank.name ≡ L.name }
    requires parts { blank.parts ≡ L.parts }
    requires some { 0 < blank.parts }
{
    let words = compile(alloc, table)?; // once, for all lookups
    let mut reader = SliceWords(words.as_slice());
    let mut steps = Steps::<L>::start(blank); // counts the words that are read, in contracts alone
    Ok(destination_of(&mut reader, v4, Want::Port(port), &mut steps))
}

// The first five ports of this list, and how many there are.
fn first_ports(port: u16) -> Result<Option<([u16; 5], usize)>, BadShape> {
    let Some(mut ports) = ports_beside(port)? else {
        return Ok(None);
    };
    let len = ports.len();
    let mut first = [0; 5];
    for place in &mut first {
        *place = ports.next().unwrap_or(0);
    }
    Ok(Some((first, len)))
}

// RFC 7597, appendix A, example 1.
#[test]
fn the_ports_beside_a_port_are_told(rt: HostRuntime) {
    let first = Ok(Some(([1232, 1233, 1234, 1235, 2256], 252)));
    assert_eq!(rt; first_ports(1232), first);
    assert_eq!(rt; first_ports(2256), first);
    assert_eq!(rt; first_ports(1023), Ok(None));
}

// The tunnel's end of who has this port of the address that two rows share, or why they are no table.
fn owner_by(alloc: Global, rows: &str, port: u16) -> Result<Result<Option<V6>, TableError>, Fail> {
    let bindings = bindings_of(alloc, &rows_of(alloc, rows)?)?;
    if bindings.len() > 2 {
        return Err("two rows".into());
    }
    Ok(end_of_owner(alloc, SETTINGS, bindings, SHARED, port))
}

#[test]
fn the_owner_of_a_port_is_found(rt: HostRuntime) -> Result<(), Fail> {
    let alloc = rt.alloc();
    let (first, second) = (0, 1);
    let twice = TableError::Refused(Refused::Twice { first, second });
    let owners = [
        owner_by(alloc, "6 8 52, 6 8 53", 1236)?,
        owner_by(alloc, "6 8 52, 6 8 53", 1240)?,
        owner_by(alloc, "6 8 52, 6 8 52", 1232)?,
    ];
    assert_eq!(rt; owners, [Ok(Some(subscriber(2))), Ok(None), Err(twice)]);
    Ok(())
}

#[test]
fn an_operator_is_told_of_a_file(rt: HostRuntime) -> Result<(), Fail> {
    let table = report(rt.alloc(), PORT_SET_TABLE.as_bytes())?;
    assert_eq!(rt; table.as_str(), "1 bindings");
    let refused = report(rt.alloc(), b"version = 1\n[softwire]\n")?;
    assert_eq!(rt; refused.as_str(), "missing softwire aftr");
    Ok(())
}

fn found(alloc: Global, table: &Table, v4: V4, port: u16) -> Result<Destination, OutOfMemory> {
    destination::<Brand>(alloc, table, v4, port, Blank::new(1))
}

#[test]
fn the_words_tell_a_destination(rt: HostRuntime) -> Result<(), Fail> {
    let table = table(rt.alloc(), "one", "6 8 52")?;
    let destinations = [
        found(rt.alloc(), &table, SHARED, 1232)?,
        found(rt.alloc(), &table, SHARED, 1240)?,
        found(rt.alloc(), &table, V4(SHARED.0 + 1), 1232)?,
    ];
    let wanted = [
        Destination::Owned(SUBSCRIBER),
        Destination::Unowned,
        Destination::Unbound,
    ];
    assert_eq!(rt; destinations, wanted);
    Ok(())
}
