// Captures, made of bytes that other tools would write.
use crate::given::PACKETS;
use std::alloc::Global;
use std::test::Fail;

/// More packets by name. `eight` and `rest` are pieces of a tunnel packet as `outer-1` is; Q and d-other are P and d of a port that is
/// another subscriber's; `d` is a datagram of no bytes to the subscriber, and `d-sent` as it is sent.
const MORE: &str = "\
Q 600000000020044020010db800010000000000000000000120010db8000000000000000000000001450000200001000040111490cb007101c633640704d40035000c000074657374
d 4500001c0001000040111494c6336407cb007101003504d000080000
d-other 4500001c0001000040111494c6336407cb007101003504d400080000
d-sent 60000000001c044020010db800000000000000000000000120010db80001000000000000000000014500001c000100003f111594c6336407cb007101003504d000080000
eight 6000000000102c4020010db800010000000000000000000120010db8000000000000000000000001 # 382062797465732e
first 6000000000102c4020010db800010000000000000000000120010db8000000000000000000000001 # 4500002000010000
rest 6000000000202c4020010db800010000000000000000000120010db8000000000000000000000001 # 40111490cb007101c633640704d00035000c000074657374";

/// Puts the bytes behind a list that a text spells in hexadecimal digits. What is no digit is passed over.
fn put_digits(list: &mut Vec<u8>, text: &str) -> Result<(), Fail> {
    let mut high = None;
    for digit in text.bytes() {
        let value = match digit {
            b'0'..=b'9' => digit - b'0',
            b'a'..=b'f' => digit - b'a' + 10,
            _ => continue,
        };
        high = match high {
            None => Some(value),
            Some(first) => {
                list.push(value.wrapping_add(first << 4))?;
                None
            }
        };
    }
    Ok(())
}

/// The bytes that words of hexadecimal digits spell, one word behind another. A word `61*1433` is a byte that comes so many
/// times.
pub fn hex(alloc: Global, text: &str) -> Result<Vec<u8>, Fail> {
    let mut list = Vec::new(alloc);
    for word in text.split(' ') {
        let (digits, count) = word.split_once('*').unwrap_or((word, "1"));
        for _ in 0..count.parse::<u32>()? {
            put_digits(&mut list, digits)?;
        }
    }
    Ok(list)
}

/// Puts these words behind a list, each with its low byte first.
fn put_words(list: &mut Vec<u8>, words: &[u32]) -> Result<(), Fail> {
    for word in words {
        list.extend_from_slice(&word.to_le_bytes())?;
    }
    Ok(())
}

/// How a capture is written: classic, in microseconds or nanoseconds, or as blocks (pcapng), in nanoseconds.
#[derive(Clone, Copy)]
pub enum Form {
    Micro,
    Nano,
    Blocks,
}

/// The front of a capture of this form, little-endian, of this link type: its byte in digits, `01` or `65`.
pub fn front(alloc: Global, form: Form, link: &str) -> Result<Vec<u8>, Fail> {
    let digits = match form {
        Form::Micro => "d4c3b2a1 02000400 00000000 00000000 00000400 LL000000",
        Form::Nano => "4d3cb2a1 02000400 00000000 00000000 00000400 LL000000",
        // A section header, and an interface with a resolution of nanoseconds.
        Form::Blocks => {
            "0a0d0d0a 1c000000 4d3c2b1a 01000000 ffffffffffffffff 1c000000 \
             01000000 20000000 LL000000 00000400 09000100 09000000 00000000 20000000"
        }
    };
    hex(alloc, &digits.replace(alloc, "LL", link)?)
}

/// Puts a packet behind a capture as a block, its time in nanoseconds.
fn put_block(list: &mut Vec<u8>, time: u64, packet: &[u8]) -> Result<(), Fail> {
    let length = u32::try_from(packet.len())?;
    let padding = length.wrapping_neg() % 4;
    let total = length.wrapping_add(padding).wrapping_add(32);
    let high = u32::try_from(time / 4_294_967_296)?;
    let low = u32::try_from(time % 4_294_967_296)?;
    put_words(list, &[6, total, 0, high, low, length, length])?;
    list.extend_from_slice(packet)?;
    for _ in 0..padding {
        list.push(0)?;
    }
    put_words(list, &[total])
}

/// Puts a packet behind a capture of this form, at so many seconds and microseconds.
pub fn put_packet(
    list: &mut Vec<u8>,
    form: Form,
    seconds: u32,
    micros: u32,
    packet: &[u8],
) -> Result<(), Fail> {
    let nanos = micros.wrapping_mul(1_000);
    let fraction = match form {
        Form::Micro => micros,
        Form::Nano => nanos,
        Form::Blocks => {
            let time = u64::from(seconds).wrapping_mul(1_000_000_000);
            return put_block(list, time.wrapping_add(u64::from(nanos)), packet);
        }
    };
    let length = u32::try_from(packet.len())?;
    put_words(list, &[seconds, fraction, length, length])?;
    list.extend_from_slice(packet)?;
    Ok(())
}

/// The digits of the packet of this name.
fn digits_of(name: &str) -> Option<&'static str> {
    for text in [MORE, PACKETS] {
        for line in text.lines() {
            let (first, digits) = line.split_once(' ')?;
            if first == name {
                return Some(digits);
            }
        }
    }
    None
}

/// The packet of this name. Of a piece a Fragment header stands behind `#`, eight bytes in hexadecimal digits, and behind `+` how much
/// more it is at each turn.
fn packet(alloc: Global, name: &str, turn: u64) -> Result<Vec<u8>, Fail> {
    let (name, header) = name.split_once('#').unwrap_or((name, ""));
    let digits = digits_of(name).ok_or("a packet of this name")?;
    if header == "" {
        return hex(alloc, digits);
    }
    let (first, step) = header.split_once('+').unwrap_or((header, "0"));
    let rise = u64::from_str_radix(step, 16)?.wrapping_mul(turn);
    let number = u64::from_str_radix(first, 16)?.wrapping_add(rise);
    let header = format!(in alloc; "{number:016x}")?;
    hex(alloc, &digits.replace(alloc, "#", &header)?)
}

/// Puts records behind a capture: NAME@SECONDS or NAME@SECONDS.MICROSECONDS, with `+1` behind it each so many seconds later than the one
/// before it, and with `*3` behind that so many. Names that are apart by `/` come in turn; `-` is no record.
fn put_records(alloc: Global, list: &mut Vec<u8>, form: Form, record: &str) -> Result<(), Fail> {
    let (names, time) = record.split_once('@').ok_or("a time")?;
    let (time, count) = time.split_once('*').unwrap_or((time, "1"));
    let (time, step) = time.split_once('+').unwrap_or((time, "0"));
    let (seconds, micros) = time.split_once('.').unwrap_or((time, "0"));
    let (seconds, micros) = (seconds.parse::<u32>()?, micros.parse::<u32>()?);
    let (step, kinds) = (step.parse::<u32>()?, names.split('/').count().max(1));
    for number in 0..count.parse::<u32>()? {
        let name = names.split('/').nth(number as usize % kinds).unwrap_or("-");
        if name != "-" {
            let packet = packet(alloc, name, number as u64 / kinds as u64)?;
            let seconds = seconds.wrapping_add(step.wrapping_mul(number));
            put_packet(list, form, seconds, micros, &packet)?;
        }
    }
    Ok(())
}

/// The capture of these records, apart by blanks; behind the word `=ethernet` they are frames.
pub fn capture_of(alloc: Global, form: Form, records: &str) -> Result<Vec<u8>, Fail> {
    let frames = records.strip_prefix("=ethernet ");
    let mut list = front(alloc, form, if frames.is_some() { "01" } else { "65" })?;
    for record in frames.unwrap_or(records).split(' ') {
        if record != "" {
            put_records(alloc, &mut list, form, record)?;
        }
    }
    Ok(list)
}
