// The words of a table.
ghost use Rattle.std.specs.Prelude.{◌≡◌, ◌+◌, ◌*◌, ◌/◌, ◌%◌, ◌^◌, ◌<◌, ◌≤◌, ◌++◌, IfOk, OnOk, List, ℕ, length, map, vec_len, IsPermutation, Bool};
ghost use Rattle.binding_rules.specs.Tables.{BindingTable};
ghost use Rattle.table_words.specs.Layout.{IsCompiled, AreCompiled, row, flag, flags};
ghost use Rattle.table_words.specs.Parts.{IsAscending, AreUnmarked, IsEndOfAddress, TellsMixed, settings_words, index_words, entry_words};

use crate::entries::{FIRST_ENTRY, MIXED};
use aftr_base::{OutOfMemory, WordList};
use binding_rules::{Binding, Softwire, Table};
use std::alloc::Global;

/// The words of the table, which `look`, `has_address` and `softwire` read: the settings in eight words, an index by the
/// top 16 bits of an address in 65,537 words, and an entry of three words for each binding, which is marked where the
/// bindings of its address have two shapes. `OutOfMemory` comes where the allocator has no room for them.
pub fn compile(alloc: Global, table: &Table) -> Result<WordList, OutOfMemory>
    ensures words { IfOk result (λ words. IsCompiled table.now words) }
    ensures some_table { IfOk result (λ words. AreCompiled words) }
    ensures size { IfOk result (λ words. length words ≡ 65545 + 3 * length table.now.bindings) }
{
    let bindings = table.bindings();
    let rows = rows_of(alloc, bindings)?;
    let mut words = Vec::with_capacity(alloc, FIRST_ENTRY as usize + 3 * rows.len())?;
    put_settings(&mut words, rows.len(), table.softwire())?;
    put_index(&mut words, &rows)?;
    put_entries(&mut words, &rows)?;
    Ok(WordList::of(words))
}

/// The first word and the tunnel's end of each binding, ascending.
fn rows_of(alloc: Global, bindings: &[Binding]) -> Result<Vec<(u64, u128)>, OutOfMemory>
    ensures same { IfOk result (λ rows. IsPermutation (map row bindings.now) rows.items) }
    ensures ascending { IfOk result (λ rows. IsAscending rows.items) }
{
    let mut rows = Vec::with_capacity(alloc, bindings.len())?;
    'bindings: for binding in bindings {
        rows.push(row_of(*binding))?;
    }
    rows.sort_unstable();
    Ok(rows)
}

/// The first word and the tunnel's end of a binding.
fn row_of(binding: Binding) -> (u64, u128)
    ensures { result ≡ row binding }
{
    let first = u64::from(binding.v4.0) * 0x1_0000_0000
        + u64::from(binding.offset) * 0x100_0000
        + u64::from(binding.length) * 0x1_0000
        + u64::from(binding.psid);
    (first, binding.b4.0)
}

/// Puts the eight words before the index: how many rows there are, and the settings.
fn put_settings(words: &mut Vec<u64>, count: usize, softwire: Softwire) -> Result<(), OutOfMemory>
    ensures { OnOk result (words.new.items ≡ words.old.items ++ settings_words softwire count) }
{
    words.extend_from_slice(&[
        count as u64,
        high_half(softwire.aftr.0),
        low_half(softwire.aftr.0),
        u64::from(softwire.own.0) * 0x1_0000_0000 + flags_of(softwire),
        u64::from(softwire.mtu6) * 0x1_0000_0000
            + u64::from(softwire.mtu4) * 0x1_0000
            + u64::from(softwire.hop_limit),
        0,
        0,
        0,
    ])?;
    Ok(())
}

fn flags_of(softwire: Softwire) -> u64
    ensures value { result ≡ flags softwire }
    ensures small { result < 16 }
{
    flag_of(softwire.hairpin, 1)
        + flag_of(softwire.icmp_in, 2)
        + flag_of(softwire.errors_up, 4)
        + flag_of(softwire.errors_down, 8)
}

fn flag_of(on: bool, worth: u64) -> u64
    ensures value { result ≡ flag on worth }
    ensures small { result ≤ worth }
{
    if on { worth } else { 0 }
}

fn high_half(address: u128) -> u64
    ensures { result ≡ address / 2 ^ 64 }
{
    (address / 0x1_0000_0000_0000_0000) as u64
}

fn low_half(address: u128) -> u64
    ensures { result ≡ address % 2 ^ 64 }
{
    (address % 0x1_0000_0000_0000_0000) as u64
}

/// Puts the index: for each h from 0 to 65,536 the number of rows whose address has its top 16 bits below h.
fn put_index(words: &mut Vec<u64>, rows: &[(u64, u128)]) -> Result<(), OutOfMemory>
    requires { IsAscending rows.now }
    ensures { OnOk result (words.new.items ≡ words.old.items ++ index_words rows.now 65537) }
{
    let mut below = 0;
    'index: for high in 0..0x1_0001u64 {
        'rows: while below < rows.len() && rows[below].0 / 0x1_0000_0000_0000 < high {
            below += 1;
        }
        words.push(below as u64)?;
    }
    Ok(())
}

/// Puts the three words of each row, the rows of an address marked where they have two shapes. Ascending rows of one
/// address stand together, from its least shape to its greatest.
fn put_entries(words: &mut Vec<u64>, rows: &[(u64, u128)]) -> Result<(), OutOfMemory>
    requires ascending { IsAscending rows.now }
    requires unmarked { AreUnmarked rows.now }
    ensures { OnOk result ((mixed : ℕ → Bool) → TellsMixed rows.now mixed → words.new.items ≡ words.old.items ++ entry_words mixed rows.now) }
{
    let mut from = 0;
    'addresses: while from < rows.len() {
        let to = end_of_address(rows, from);
        let mixed = rows[from].0 / 0x1_0000 != rows[to - 1].0 / 0x1_0000;
        put_address(words, &rows[from..to], mixed)?;
        from = to;
    }
    Ok(())
}

/// The end of the rows that have the address of this one.
fn end_of_address(rows: &[(u64, u128)], from: usize) -> usize
    requires ascending { IsAscending rows.now }
    requires within { from < length rows.now }
    ensures { IsEndOfAddress rows.now from result }
{
    let address = rows[from].0 / 0x1_0000_0000;
    let mut to = from + 1;
    'rows: while to < rows.len() && rows[to].0 / 0x1_0000_0000 == address {
        to += 1;
    }
    to
}

/// Puts the three words of each row of an address.
fn put_address(words: &mut Vec<u64>, rows: &[(u64, u128)], mixed: bool) -> Result<(), OutOfMemory>
    requires { AreUnmarked rows.now }
    ensures { OnOk result (words.new.items ≡ words.old.items ++ entry_words (λ _. mixed) rows.now) }
{
    let mark = flag_of(mixed, MIXED);
    'rows: for row in rows {
        words.extend_from_slice(&[row.0 + mark, high_half(row.1), low_half(row.1)])?;
    }
    Ok(())
}
