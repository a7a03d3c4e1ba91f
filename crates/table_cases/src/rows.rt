// Tables by the rows of a text.
use aftr_base::V4;
use binding_rules::{Binding, Edition, Softwire, Table, TableError, table_of};
use case_data::{SETTINGS, subscriber};
use std::alloc::Global;
use std::test::Fail;

/// A binding: address, offset, length and identifier.
pub type Row = (u32, u8, u8, u16);

/// The bindings of rows, of subscribers from 1 on.
pub fn bindings_of(alloc: Global, rows: &[Row]) -> Result<Vec<Binding>, TableError> {
    let mut bindings = Vec::new(alloc);
    let mut number = 0u32;
    for (v4, offset, length, psid) in rows {
        number = number.wrapping_add(1);
        let binding = Binding {
            b4: subscriber(number),
            v4: V4(*v4),
            offset: *offset,
            length: *length,
            psid: *psid,
        };
        if bindings.push(binding).is_err() {
            return Err(TableError::OutOfMemory);
        }
    }
    Ok(bindings)
}

/// The table of these rows with these settings.
pub fn table_under(
    alloc: Global,
    edition: Edition,
    settings: Softwire,
    rows: &[Row],
) -> Result<Table, TableError> {
    let bindings = bindings_of(alloc, rows)?;
    if bindings.len() > 65_537 {
        return Err(TableError::OutOfMemory);
    }
    table_of(alloc, edition, settings, bindings)
}

/// Puts the bindings of a row behind a list: an address in hexadecimal digits, or none for 203.0.113.1, an offset, a length, and an
/// identifier, or the first one and the last one of many, as `0-253`.
fn put_row(list: &mut Vec<Row>, row: &str) -> Result<(), Fail> {
    let (rest, psids) = row.rsplit_once(' ').ok_or("an identifier")?;
    let (rest, length) = rest.rsplit_once(' ').ok_or("a length")?;
    let (v4, offset) = rest.rsplit_once(' ').unwrap_or(("cb007101", rest));
    let (first, last) = psids.split_once('-').unwrap_or((psids, psids));
    let v4 = u32::from_str_radix(v4, 16)?;
    let (offset, length) = (offset.parse::<u8>()?, length.parse::<u8>()?);
    let (first, last) = (first.parse::<u16>()?, last.parse::<u16>()?);
    for psid in first..=last {
        list.push((v4, offset, length, psid))?;
    }
    Ok(())
}

/// The rows of a text, apart by `, `.
pub fn rows_of(alloc: Global, text: &str) -> Result<Vec<Row>, Fail> {
    let mut list = Vec::new(alloc);
    for row in text.split(", ") {
        if row != "" {
            put_row(&mut list, row)?;
        }
    }
    Ok(list)
}

/// The edition of this name.
pub fn edition_of(name: &str) -> Option<Edition> {
    match name {
        "one" => Some(Edition::One),
        "two" => Some(Edition::Two),
        _ => None,
    }
}

/// The table of an edition by its name, and of the rows of a text.
pub fn table(alloc: Global, edition: &str, rows: &str) -> Result<Table, Fail> {
    let edition = edition_of(edition).ok_or("an edition")?;
    let rows = rows_of(alloc, rows)?;
    Ok(table_under(alloc, edition, SETTINGS, &rows)?)
}
