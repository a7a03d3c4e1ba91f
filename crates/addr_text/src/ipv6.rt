// IPv6 addresses and their texts.
ghost use Rattle.std.specs.Prelude.{◌≡◌, ℕ, ◌+◌, ◌*◌, ◌^◌, ◌≤◌, ◌<◌, ◌++◌, ◌↔◌, false, length, Ok, IsErr};
ghost use Rattle.std.specs.Fmt.{digit_glyph};
ghost use Rattle.std.specs.Int.Digits.{number_from_digits};
ghost use Rattle.std.specs.Net.Text.{longest_zero_run as longest_run};
ghost use Rattle.arrayvec.specs.ArrayString.{array_string_len};
ghost use Rattle.addr_text.specs.Ipv6.{IsV6Text};
ghost use Rattle.addr_text.specs.Canonical.{IsCanonical, groups_of, group_text, groups_text};

use crate::BadText;
use aftr_base::V6;
use arrayvec::ArrayString;
use std::net::Ipv6Addr;

// The fewest zero groups that `::` stands for (RFC 5952, section 4.2.2).
const FEWEST: usize = 2;

/// The IPv6 address that a text spells (RFC 4291, section 2.2): eight groups of one to four hexadecimal digits of either
/// case, joined by colons. Once, `::` may stand for one zero group or more, and the last two groups may be written as an
/// IPv4 text. No zone name follows. `BadText` exactly where the text spells none.
pub fn read_v6(text: &str) -> Result<V6, BadText>
    ensures spelled { (a : ℕ) → (result ≡ Ok (record { 0 = a })) ↔ IsV6Text text.now a }
    ensures bad { IsErr result ↔ ((a : ℕ) → ¬ (IsV6Text text.now a)) }
{
    match text.parse::<Ipv6Addr>() {
        Ok(address) => Ok(V6(joined(address.segments()))),
        Err(_) => Err(BadText),
    }
}

/// The canonical text of an IPv6 address (RFC 5952, section 4): lower case, no leading zeros, and `::` for the longest run
/// of two zero groups or more, the first of equal ones. It has no dotted part. `read_v6` reads it back.
pub fn write_v6(a: V6) -> ArrayString<39>
    ensures canonical { IsCanonical result.bytes (groups_of a.0) }
    ensures spelled { IsV6Text result.bytes a.0 }
{
    let groups = split(a.0);
    let (start, count) = longest_zero_run(&groups);
    let mut text = ArrayString::new();
    if count < FEWEST {
        push_groups(&mut text, &groups);
    } else {
        push_groups(&mut text, &groups[..start]);
        text.push_str("::");
        push_groups(&mut text, &groups[start + count..]);
    }
    text
}

// The address of eight groups, the highest first.
fn joined(groups: [u16; 8]) -> u128
    ensures { result ≡ number_from_digits (2 ^ 16) groups }
{
    let [a, b, c, d, e, f, g, h] = groups;
    let high = quarter(a, b) * 0x1_0000_0000 + quarter(c, d);
    let low = quarter(e, f) * 0x1_0000_0000 + quarter(g, h);
    high * 0x1_0000_0000_0000_0000 + low
}

// Two groups as one number, the high one first.
fn quarter(high: u16, low: u16) -> u128
    ensures { result ≡ high * 2 ^ 16 + low }
{
    u128::from(high) * 0x1_0000 + u128::from(low)
}

// The groups of an address, the highest first.
#[tactic(auto, unfolding(crate::specs::Canonical::groups_of))]
fn split(bits: u128) -> [u16; 8]
    ensures { result ≡ groups_of bits }
{
    [
        (bits >> 112) as u16,
        (bits >> 96 & 0xffff) as u16,
        (bits >> 80 & 0xffff) as u16,
        (bits >> 64 & 0xffff) as u16,
        (bits >> 48 & 0xffff) as u16,
        (bits >> 32 & 0xffff) as u16,
        (bits >> 16 & 0xffff) as u16,
        (bits & 0xffff) as u16,
    ]
}

// Where the longest run of zero groups starts, and how many they are: of equal runs the first.
fn longest_zero_run(groups: &[u16]) -> (usize, usize)
    ensures value { result ≡ longest_run groups.now }
    ensures within { result.0 + result.1 ≤ length groups.now }
{
    let mut start = groups.len();
    let mut longest = 0;
    let mut run = 0;
    'groups: for i in (0..groups.len()).rev() {
        run = if groups[i] == 0 { run + 1 } else { 0 };
        if run >= longest {
            start = i;
            longest = run;
        }
    }
    (start, longest)
}

// Appends groups with colons between them.
fn push_groups(text: &mut ArrayString<39>, groups: &[u16])
    requires { array_string_len text.old + 5 * length groups.now ≤ 40 }
    ensures groups { text.new.bytes ≡ text.old.bytes ++ groups_text groups.now }
    ensures len { array_string_len text.new ≤ array_string_len text.old + 5 * length groups.now }
{
    if let [first, rest @ ..] = groups {
        push_group(text, *first);
        'rest: for group in rest {
            text.push(':');
            push_group(text, *group);
        }
    }
}

// Appends a group in lower-case hexadecimal digits, without leading zeros.
fn push_group(text: &mut ArrayString<39>, group: u16)
    requires { array_string_len text.old + 4 ≤ 39 }
    ensures digits { text.new.bytes ≡ text.old.bytes ++ group_text group }
    ensures len { array_string_len text.new ≤ array_string_len text.old + 4 }
{
    if group >= 0x1000 {
        text.push(hex_digit(group / 0x1000));
    }
    if group >= 0x100 {
        text.push(hex_digit(group / 0x100 % 16));
    }
    if group >= 0x10 {
        text.push(hex_digit(group / 0x10 % 16));
    }
    text.push(hex_digit(group % 16));
}

// The lower-case digit of a number below sixteen.
fn hex_digit(number: u16) -> char
    requires { number < 16 }
    ensures value { result ≡ digit_glyph false number }
    ensures ascii { result < 128 }
{
    if number < 10 {
        (b'0' + number as u8) as char
    } else {
        (b'a' + (number - 10) as u8) as char
    }
}
