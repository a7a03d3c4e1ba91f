// Lists give back what they were made of.
use aftr_base::{Bytes, Numbers, Packets, Text, WordList};
use std::alloc::Global;
use std::test::Fail;

const BYTES: &[u8] = &[1, 2, 3];

const TEXT: &str = "2001:db8::1";

fn bytes_are_kept(alloc: Global) -> Result<bool, Fail> {
    let bytes = Bytes::copy(alloc, BYTES)?;
    Ok(bytes.as_slice() == BYTES)
}

fn texts_are_kept(alloc: Global) -> Result<bool, Fail> {
    let text = Text::copy(alloc, TEXT)?;
    let kept = text.as_str() == TEXT && text.as_slice() == TEXT.as_bytes();
    Ok(kept && Text::of(text.into_list()).as_str() == TEXT)
}

fn numbers_are_kept(alloc: Global) -> Result<bool, Fail> {
    let numbers = Numbers::of(vec![in alloc; 7, 8]?);
    Ok(numbers.as_slice() == [7, 8].as_slice())
}

fn words_are_kept(alloc: Global) -> Result<bool, Fail> {
    let words = WordList::of(vec![in alloc; 1 << 40]?);
    Ok(words.as_slice() == [1 << 40].as_slice())
}

// A packet, and one of no bytes.
fn packets_are_kept(alloc: Global) -> Result<bool, Fail> {
    let packets = Packets::of(vec![in alloc;
        Bytes::copy(alloc, BYTES)?,
        Bytes::of(Vec::new(alloc)),
    ]?);
    let kept = packets.len() == 2 && !packets.is_empty();
    Ok(kept && packets.get(0) == BYTES && packets.get(1).is_empty())
}

#[test]
fn lists_give_back_what_they_were_made_of(rt: HostRuntime) -> Result<(), Fail> {
    let alloc = rt.alloc();
    let kept = [
        bytes_are_kept(alloc)?,
        texts_are_kept(alloc)?,
        numbers_are_kept(alloc)?,
        words_are_kept(alloc)?,
        packets_are_kept(alloc)?,
    ];
    assert_eq!(rt; kept, [true; 5]);
    Ok(())
}
