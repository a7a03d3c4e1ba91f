// Bytes as words of hexadecimal digits.
use std::alloc::Global;
use std::test::Fail;

/// What a word stands for: the addresses of two subscribers, of the router's end of the tunnel and of a host that is none of
/// them; a datagram of 32 bytes; nothing; or the word's own digits.
fn digits_of(word: &str) -> &str {
    match word {
        "S" => "20010db8000100000000000000000001",
        "T" => "20010db8000100000000000000000002",
        "A" => "20010db8000000000000000000000001",
        "E" => "20010db8000900000000000000000001",
        "I" => "450000200001000040111490cb007101c633640704d00035000c000074657374",
        "-" => "",
        _ => word,
    }
}

fn digit(byte: u8) -> u8 {
    match byte {
        b'0'..=b'9' => byte.wrapping_sub(b'0'),
        _ => byte.wrapping_sub(b'a').wrapping_add(10),
    }
}

fn push_bytes(out: &mut Vec<u8>, word: &str) -> Result<(), Fail> {
    let mut high: Option<u8> = None;
    for byte in digits_of(word).bytes() {
        match high {
            Some(first) => {
                out.push(first.wrapping_mul(16).wrapping_add(digit(byte)))?;
                high = None;
            }
            None => high = Some(digit(byte)),
        }
    }
    Ok(())
}

/// The bytes of all words of a text.
pub fn bytes_of(alloc: Global, text: &str) -> Result<Vec<u8>, Fail> {
    let mut out = Vec::new(alloc);
    for word in text.split_whitespace() {
        push_bytes(&mut out, word)?;
    }
    Ok(out)
}

/// The numbers of all words of a text.
pub fn numbers_of(alloc: Global, text: &str) -> Result<Vec<u32>, Fail> {
    let mut out = Vec::new(alloc);
    for word in text.split_whitespace() {
        out.push(word.parse::<u32>()?)?;
    }
    Ok(out)
}
