// Whether an item is the one that a text names.
use crate::words::{bytes_of, numbers_of};
use aftr_base::OutOfMemory;
use ip_codec::{Ip4View, ItemView, Outer};
use item_stage::{Items, RoundItems};
use std::alloc::Global;
use std::test::Fail;

/// The word that an item's text begins with.
fn kind_of(item: &ItemView<'_>) -> &'static str {
    match item {
        ItemView::Held => "held",
        ItemView::Bad(_) => "bad",
        ItemView::Down { .. } => "down",
        ItemView::Up { .. } => "up",
        ItemView::UpUnread { .. } => "unread",
        ItemView::OtherIp6 { .. } => "six",
        ItemView::Icmp6 { .. } => "icmp6",
    }
}

fn push_packet(list: &mut Vec<u8>, view: &Ip4View<'_>) -> Result<(), OutOfMemory> {
    list.extend_from_slice(view.header)?;
    list.extend_from_slice(view.payload)?;
    Ok(())
}

fn push_address(list: &mut Vec<u8>, address: u128) -> Result<(), OutOfMemory> {
    list.extend_from_slice(&address.to_be_bytes())?;
    Ok(())
}

/// Pushes the fields of an outer header: its word, hop limit and addresses.
fn push_outer(list: &mut Vec<u8>, outer: &Outer) -> Result<(), OutOfMemory> {
    list.extend_from_slice(&outer.word.to_be_bytes())?;
    list.push(outer.hop)?;
    push_address(list, outer.src.0)?;
    push_address(list, outer.dst.0)
}

/// Pushes the bytes of an item: its fields and addresses in their order, and what stands behind them.
fn push_item(list: &mut Vec<u8>, item: &ItemView<'_>) -> Result<(), OutOfMemory> {
    match item {
        ItemView::Held => Ok(()),
        ItemView::Bad(rule) => Ok(list.extend_from_slice(rule.name().as_bytes())?),
        ItemView::Down { packet } => push_packet(list, &packet.view),
        ItemView::Up { outer, inner } => {
            push_outer(list, outer)?;
            push_packet(list, &inner.view)
        }
        ItemView::UpUnread { outer, inner } => {
            push_outer(list, outer)?;
            Ok(list.extend_from_slice(inner.bytes)?)
        }
        ItemView::OtherIp6 { dst } => push_address(list, dst.0),
        ItemView::Icmp6 { src, dst, message } => {
            push_address(list, src.0)?;
            push_address(list, dst.0)?;
            Ok(list.extend_from_slice(message)?)
        }
    }
}

fn item_bytes(alloc: Global, item: &ItemView<'_>) -> Result<Vec<u8>, OutOfMemory> {
    let mut list = Vec::new(alloc);
    push_item(&mut list, item)?;
    Ok(list)
}

/// Whether an item has the bytes of these words; what was bad has the name of its rule.
fn has_words(alloc: Global, item: &ItemView<'_>, words: &str) -> Result<bool, Fail> {
    let bytes = item_bytes(alloc, item)?;
    if let ItemView::Bad(_) = item {
        return Ok(bytes.as_slice() == words.as_bytes());
    }
    Ok(bytes.as_slice() == bytes_of(alloc, words)?.as_slice())
}

fn is_item(alloc: Global, item: &ItemView<'_>, text: &str) -> Result<bool, Fail> {
    let text = text.trim();
    let (kind, words) = text.split_once(' ').unwrap_or((text, ""));
    if kind != kind_of(item) {
        return Ok(false);
    }
    has_words(alloc, item, words)
}

/// Whether numbers are those of a text.
pub fn are(alloc: Global, numbers: &[u32], text: &str) -> Result<bool, Fail> {
    Ok(numbers_of(alloc, text)?.as_slice() == numbers)
}

/// Whether the entry of the record at this index is the one that a text names.
fn is_entry(alloc: Global, items: &Items<'_>, index: usize, text: &str) -> Result<bool, Fail> {
    if index >= items.len() {
        return Ok(false);
    }
    let (item, numbers) = text.split_once('/').unwrap_or((text, ""));
    if !are(alloc, items.ended(index), numbers)? {
        return Ok(false);
    }
    is_item(alloc, &items.item(index), item)
}

/// The first line of a round whose record has another entry than the line says.
pub fn first_other<'a>(
    alloc: Global,
    items: &Items<'_>,
    round: &'a str,
) -> Result<Option<&'a str>, Fail> {
    let mut index = 0usize;
    for line in round.lines() {
        if let Some((_, entry)) = line.split_once('=') {
            if !is_entry(alloc, items, index, entry)? {
                return Ok(Some(line));
            }
            index = index.wrapping_add(1);
        }
    }
    Ok(None)
}
