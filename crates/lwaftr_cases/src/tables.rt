// Table files by name.
use crate::cases::word;
use std::alloc::Global;
use std::test::Fail;

const SETTINGS: &str = "[softwire]\naftr = \"2001:db8::1\"\nown = \"192.0.2.1\"\n";

/// The bindings of tables: the table's name, how many, the last group of the end of the first one's tunnel, its address, the offset, the
/// length and the identifier. Each has the next end; and the next identifier behind the same address, or else the next address.
const BINDINGS: &str = "\
whole 1 1 cb007101 0 0 0
shared 1 1 cb007101 6 8 52
next 1 1 cb007101 6 8 53
pair 2 1 cb007101 6 8 52
odd 1 1 cb007101 6 8 52
odd 1 2 cb007101 0 16 80
clash 1 1 cb007101 6 8 52
clash 1 2 cb007101 0 16 1232
city 64 100 cb007101 6 6 0
crowd 64 100 cb007101 6 6 0
crowd 1 140 cb007101 6 6 0
thin 5 100 cb007101 6 6 0
thin 58 106 cb007101 6 6 6
most 65536 0 0a010000 0 0 0
more 65536 0 0a010000 0 0 0
more 1 0 0a020000 0 0 0";

/// Puts bindings behind a table. `row` is what a line of them has behind the name.
fn put_bindings(alloc: Global, table: &mut String, row: &str) -> Result<(), Fail> {
    let end = u32::from_str_radix(word(row, 1), 16)?;
    let address = u32::from_str_radix(word(row, 2), 16)?;
    let (offset, length) = (word(row, 3), word(row, 4));
    let psid = word(row, 5).parse::<u32>()?;
    for number in 0..word(row, 0).parse::<u32>()? {
        let end = end.wrapping_add(number);
        let (further, next) = if length == "0" {
            (number, 0)
        } else {
            (0, number)
        };
        let [a, b, c, d] = address.wrapping_add(further).to_be_bytes();
        let psid = psid.wrapping_add(next);
        table.push_str(&format!(in alloc;
            "[[binding]]\nb4 = \"2001:db8:1::{end:x}\"\nipv4 = \"{a}.{b}.{c}.{d}\"\noffset = {offset}\nlength = {length}\npsid = {psid}\n"
        )?)?;
    }
    Ok(())
}

/// The text of a table: its name, with `/2` behind it for version 2, and one more setting behind a `+`, as in
/// `whole+errors_up=true`. `none` has no binding, and `=END` one of 203.0.113.1 with an end that is spelled so; of a `city` of 64
/// subscribers of one address, with 16 ports in each of 63 ranges, a `crowd` has a subscriber twice, and a `thin` one lacks one; `most`
/// and `more` are whole addresses. `bare` is no table, nor is `bad`, nor the `empty` text, nor `-`, which is no file.
pub fn table_text(alloc: Global, table: &str) -> Result<String, Fail> {
    let (named, setting) = table.split_once('+').unwrap_or((table, ""));
    let (name, version) = named.split_once('/').unwrap_or((named, "1"));
    let mut text = match name {
        "bad" => return Ok(String::from_str(alloc, "=")?),
        "empty" | "-" => return Ok(String::new(alloc)),
        "bare" => return Ok(String::from_str(alloc, "version = 1\n")?),
        _ => format!(in alloc; "version = {version}\n{SETTINGS}{setting}\n")?,
    };
    if let Some(end) = name.strip_prefix('=') {
        text.push_str(&format!(in alloc;
            "[[binding]]\nb4 = \"{end}\"\nipv4 = \"203.0.113.1\"\n"
        )?)?;
    }
    for line in BINDINGS.lines() {
        let (first, row) = line.split_once(' ').ok_or("a name")?;
        if first == name {
            put_bindings(alloc, &mut text, row)?;
        }
    }
    Ok(text)
}
