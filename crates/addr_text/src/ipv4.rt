// IPv4 addresses and their texts.
ghost use Rattle.std.specs.Prelude.{◌≡◌, ℕ, ◌+◌, ◌≤◌, ◌<◌, ◌++◌, ◌↔◌, length, decimal, Ok, IsErr};
ghost use Rattle.arrayvec.specs.ArrayString.{array_string_len};
ghost use Rattle.addr_text.specs.Ipv4.{IsV4Text, v4_text};

use aftr_base::V4;
use arrayvec::ArrayString;
use std::net::Ipv4Addr;

/// The text spells no address.
#[derive(Clone, Copy, Debug, PartialEq, Eq)]
pub struct BadText;

/// The IPv4 address that a text spells: four decimal numbers from 0 to 255 joined by dots, without leading zeros, signs
/// or blanks, the highest byte first. `BadText` exactly where it spells none.
pub fn read_v4(text: &str) -> Result<V4, BadText>
    ensures spelled { (a : ℕ) → (result ≡ Ok (record { 0 = a })) ↔ IsV4Text text.now a }
    ensures bad { IsErr result ↔ ((a : ℕ) → ¬ (IsV4Text text.now a)) }
{
    match text.parse::<Ipv4Addr>() {
        Ok(address) => Ok(V4(address.to_bits())),
        Err(_) => Err(BadText),
    }
}

/// The one text of an IPv4 address, such as `192.0.2.1`. `read_v4` reads it back.
pub fn write_v4(a: V4) -> ArrayString<15>
    ensures canonical { result.bytes ≡ v4_text a.0 }
    ensures spelled { IsV4Text result.bytes a.0 }
{
    let [first, second, third, fourth] = a.0.to_be_bytes();
    let mut text = ArrayString::new();
    push_decimal(&mut text, first);
    text.push('.');
    push_decimal(&mut text, second);
    text.push('.');
    push_decimal(&mut text, third);
    text.push('.');
    push_decimal(&mut text, fourth);
    text
}

// Appends a byte in decimal.
fn push_decimal(text: &mut ArrayString<15>, byte: u8)
    requires { array_string_len text.old + 3 ≤ 15 }
    ensures digits { text.new.bytes ≡ text.old.bytes ++ decimal byte }
    ensures len { array_string_len text.new ≤ array_string_len text.old + 3 }
{
    if byte >= 100 {
        text.push(digit(byte / 100));
    }
    if byte >= 10 {
        text.push(digit(byte / 10 % 10));
    }
    text.push(digit(byte % 10));
}

// The digit of a number below ten.
fn digit(number: u8) -> char
    requires { number < 10 }
    ensures { result ≡ 48 + number }
{
    (b'0' + number) as char
}
