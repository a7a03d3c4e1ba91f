// Port sets: examples of RFC 7597, and the ports of many shapes.
use port_set::{BadShape, Shape, count, owns, ports_of, shape_of};
use std::str::SplitWhitespace;
use std::test::Fail;

// A line has an offset, a length and an identifier; how many ports it has, the first, the last, and the sum of those between, or `none`
// where they do not fit into a port; some of the ports that it owns; and some that it does not own. The numbers are from a filter over all
// 65,536 ports in Python. 52 behind an offset of 6 and in 8 bits: RFC 7597, appendix A, example 1.
const SETS: &str = "\
0 0 0|65536 0 65535 2147385345|0 65535|
0 16 65535|1 65535 - 0|65535|65534
6 0 0|64512 1024 65535 2146860545|1024|1023
6 8 52|252 1232 64723 8244375|1232 1235 2256 64720 64723|208 1231 1236 64724
4 8 17|240 4368 61727 7865305||
15 1 1|32767 3 65535 1073676285||
15 0 0|65534 2 65535 2147385342||
3 5 0|1792 8192 57599 58882945||
10 6 63|1023 127 65535 33520451||
0 8 255|256 65280 65535 16613505||
1 15 1|1 32769 - 0||
4 4 15|3840 7936 65535 140990849||
6 11 0|none||
16 0 0|none||
0 17 0|none||
15 2 0|none||
255 255 0|none||";

// How many ports the identifier owns, the first, the last, and the sum of those between.
type Summary = (usize, Option<u16>, Option<u16>, u64);

fn summary(shape: Shape, psid: u16) -> Result<Summary, BadShape> {
    if u32::from(psid) >= 1 << shape.length() {
        return Err(BadShape);
    }
    let mut ports = ports_of(shape, psid);
    let len = ports.len();
    let first = ports.next();
    let last = ports.next_back();
    let sum = ports.fold(0u64, |sum, port| sum.wrapping_add(u64::from(port)));
    Ok((len, first, last, sum))
}

// The summary that a line has; `-` is no port.
fn told(mut words: SplitWhitespace<'_>) -> Option<Summary> {
    let len = words.next()?.parse().ok()?;
    let first = words.next()?.parse().ok();
    let last = words.next()?.parse().ok();
    let sum = words.next()?.parse().ok()?;
    Some((len, first, last, sum))
}

// Whether the identifier owns each of these ports, or none of them.
fn are_owned(shape: Shape, psid: u16, ports: &str, owned: bool) -> Result<bool, Fail> {
    let mut right = true;
    for port in ports.split_whitespace() {
        right &= owns(shape, psid, port.parse()?) == owned;
    }
    Ok(right)
}

fn is_right(line: &str) -> Result<bool, Fail> {
    let (numbers, rest) = line.split_once('|').ok_or("a summary")?;
    let (numbers_told, rest) = rest.split_once('|').ok_or("ports")?;
    let (owned, others) = rest.split_once('|').ok_or("other ports")?;
    let (offset, rest) = numbers.split_once(' ').ok_or("a length")?;
    let (length, psid) = rest.split_once(' ').ok_or("an identifier")?;
    let Ok(shape) = shape_of(offset.parse()?, length.parse()?) else {
        return Ok(numbers_told == "none");
    };
    let psid = psid.parse()?;
    let wanted = told(numbers_told.split_whitespace()).ok_or("a summary")?;
    Ok(
        summary(shape, psid) == Ok(wanted)
            && count(shape) as usize == wanted.0
            && are_owned(shape, psid, owned, true)?
            && are_owned(shape, psid, others, false)?,
    )
}

#[test]
fn gives_each_owned_port_once_and_refuses_what_does_not_fit(rt: HostRuntime) -> Result<(), Fail> {
    for line in SETS.lines() {
        assert!(rt; is_right(line)?, "{line}");
    }
    Ok(())
}

#[test]
fn gives_the_ports_from_both_ends(rt: HostRuntime) -> Result<(), Fail> {
    let mut ports = ports_of(shape_of(6, 8)?, 52);
    let ends = (ports.next(), ports.next_back(), ports.next(), ports.len());
    assert_eq!(rt; ends, (Some(1232), Some(64723), Some(1233), 249));
    Ok(())
}
