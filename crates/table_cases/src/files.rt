// Files as an operator writes them, and what they are.
use aftr_base::{V4, V6};
use binding_file::{
    FileError, FileRefused, LoadText, Name, Place, RuleText, read_table, write_table,
};
use binding_rules::{Binding, Edition, Refused, Softwire, Table, table_of};
use case_data::{SETTINGS, SHARED, SUBSCRIBER, subscriber};
use std::alloc::Global;
use std::test::Fail;

const SOUND: &str = "version = 1
[softwire]
aftr = \"2001:db8::1\"
own = \"192.0.2.1\"
mtu6 = 1500
mtu4 = 1400
hop_limit = 64
hairpin = true
icmp_in = false
errors_up = true
errors_down = false
[[binding]]
b4 = \"2001:db8:1::1\"
ipv4 = \"203.0.113.1\"
offset = 6
length = 8
psid = 52
[[binding]]
b4 = \"2001:db8:1::2\"
ipv4 = \"203.0.113.2\"
";

// A line has a piece of the sound file, what stands there in its place, and the answer. `|` ends a line of the file.
const EDITS: &str = "version ~ version ~ valid 2
version = 1 ~ version = 2 ~ valid 2
version = 1 ~ # a comment|version = 0x1 # another ~ valid 2
version = 1| ~  ~ missing version
version = 1 ~ version = \"1\" ~ kind version
version = 1 ~ version = 1.0 ~ kind version
version = 1 ~ version = 2026-11-27 ~ kind version
version = 1 ~ version = true ~ kind version
version = 1 ~ version = [1] ~ kind version
version = 1 ~ version = 0 ~ version
version = 1 ~ version = 3 ~ version
version = 1 ~ version = -1 ~ version
version = 1 ~ version = 4294967297 ~ version
version = 1 ~ version = 1|version = 1 ~ not-toml
version = 1 ~ version 1 ~ not-toml
version = 1 ~ version = 9223372036854775808 ~ not-toml
version = 1 ~ version = 1|name = 2 ~ unknown-key
version = 1 ~ version = 3|name = 2 ~ version
version = 1 ~ version = 1|Version = 1 ~ unknown-key
[softwire] ~ [tunnel] ~ unknown-key
[softwire] ~ [softwire.x] ~ missing softwire aftr
version = 1|[softwire] ~ version = 1|softwire = 5|[[binding]]|[binding.x] ~ kind softwire
version = 1|[softwire] ~ version = 1|[[softwire]] ~ kind softwire
version = 1|[softwire] ~ version = 1|softwire.vlan = 3|[[binding]]|[binding.x] ~ missing softwire aftr
aftr = \"2001:db8::1\"| ~  ~ missing softwire aftr
aftr = \"2001:db8::1\" ~ aftr = 1 ~ kind softwire aftr
aftr = \"2001:db8::1\" ~ aftr = [\"2001:db8::1\"] ~ kind softwire aftr
aftr = \"2001:db8::1\" ~ aftr = \"2001:db8::1/128\" ~ address softwire aftr
aftr = \"2001:db8::1\" ~ aftr = \"192.0.2.1\" ~ address softwire aftr
aftr = \"2001:db8::1\" ~ aftr = \"\" ~ address softwire aftr
aftr = \"2001:db8::1\" ~ aftr = '2001:DB8:0:0::1' ~ valid 2
aftr = \"2001:db8::1\" ~ \"aftr\" = \"2001:db8:\\u003a1\" ~ valid 2
aftr = \"2001:db8::1\" ~ aftr = \"x\"|aftr = \"y\" ~ not-toml
own = \"192.0.2.1\"| ~  ~ missing softwire own
own = \"192.0.2.1\" ~ own = 192 ~ kind softwire own
own = \"192.0.2.1\" ~ own = \"192.0.2.01\" ~ address softwire own
own = \"192.0.2.1\" ~ own = \"::192.0.2.1\" ~ address softwire own
own = \"192.0.2.1\" ~ own = \"203.0.113.2\" ~ rules own-address 1
mtu6 = 1500| ~  ~ valid 2
mtu6 = 1500 ~ mtu6 = 1500.0 ~ kind softwire mtu6
mtu6 = 1500 ~ mtu6 = 65536 ~ range softwire mtu6
mtu6 = 1500 ~ mtu6 = 65535 ~ valid 2
mtu6 = 1500 ~ mtu6 = -1 ~ range softwire mtu6
mtu6 = 1500 ~ mtu6 = 1_280 ~ valid 2
mtu6 = 1500 ~ mtu6 = 1279 ~ rules mtu
mtu6 = 1500 ~ mtu6 = 0 ~ rules mtu
mtu4 = 1400 ~ mtu4 = \"1400\" ~ kind softwire mtu4
mtu4 = 1400 ~ mtu4 = 65536 ~ range softwire mtu4
mtu4 = 1400 ~ mtu4 = 66936 ~ range softwire mtu4
mtu4 = 1400 ~ mtu4 = -9223372036854775808 ~ range softwire mtu4
mtu4 = 1400 ~ mtu4 = 576 ~ valid 2
mtu4 = 1400 ~ mtu4 = 575 ~ rules mtu
hop_limit = 64 ~ hop_limit = 07:32:00 ~ kind softwire hop_limit
hop_limit = 64 ~ hop_limit = 256 ~ range softwire hop_limit
hop_limit = 64 ~ hop_limit = 320 ~ range softwire hop_limit
hop_limit = 64 ~ hop_limit = -1 ~ range softwire hop_limit
hop_limit = 64 ~ hop_limit = 255 ~ valid 2
hop_limit = 64 ~ hop_limit = 0 ~ rules hop
hop_limit = 64 ~ hop-limit = 64 ~ unknown-key
hairpin = true ~ hairpin = 1 ~ kind softwire hairpin
hairpin = true ~ hairpin = \"true\" ~ kind softwire hairpin
icmp_in = false ~ icmp_in = 0 ~ kind softwire icmp_in
errors_up = true ~ errors_up = {} ~ kind softwire errors_up
errors_down = false ~ errors_down = inf ~ kind softwire errors_down
errors_down = false ~ errors_down = False ~ not-toml
errors_down = false ~ errors_sideways = false ~ unknown-key
mtu6 = 1500|mtu4 = 1400 ~ mtu6 = 65536|mtu4 = true ~ range softwire mtu6
mtu6 = 1500|mtu4 = 1400 ~ mtu4 = true|mtu6 = 65536 ~ range softwire mtu6
own = \"192.0.2.1\"|mtu6 = 1500 ~ own = \"x\"|mtu6 = \"x\" ~ address softwire own
[[binding]]|b4 = \"2001:db8:1::2\" ~ [binding]|b4 = \"2001:db8:1::2\" ~ not-toml
[softwire] ~ binding = 3|[softwire] ~ not-toml
b4 = \"2001:db8:1::1\"| ~  ~ missing binding 0 b4
b4 = \"2001:db8:1::2\"| ~  ~ missing binding 1 b4
b4 = \"2001:db8:1::1\" ~ b4 = 4 ~ kind binding 0 b4
b4 = \"2001:db8:1::2\" ~ b4 = \"2001:db8:1:::2\" ~ address binding 1 b4
ipv4 = \"203.0.113.1\"| ~  ~ missing binding 0 ipv4
ipv4 = \"203.0.113.2\" ~ ipv4 = 203.0 ~ kind binding 1 ipv4
ipv4 = \"203.0.113.2\" ~ ipv4 = \"203.0.113\" ~ address binding 1 ipv4
ipv4 = \"203.0.113.2\" ~ ipv4 = \"203.0.113.1\" ~ rules mixed-shape 0 1
offset = 6 ~ offset = \"6\" ~ kind binding 0 offset
offset = 6 ~ offset = 256 ~ range binding 0 offset
offset = 6 ~ offset = -6 ~ range binding 0 offset
offset = 6 ~ offset = 255 ~ rules shape 0
offset = 6|length = 8|psid = 52 ~ length = 16|psid = 65535 ~ valid 2
length = 8 ~ length = false ~ kind binding 0 length
length = 8 ~ length = 256 ~ range binding 0 length
length = 8 ~ length = 11 ~ rules shape 0
length = 8 ~ len = 8 ~ unknown-key
psid = 52 ~ psid = 52.0 ~ kind binding 0 psid
psid = 52 ~ psid = 65536 ~ range binding 0 psid
psid = 52 ~ psid = 65588 ~ range binding 0 psid
psid = 52 ~ psid = -1 ~ range binding 0 psid
psid = 52 ~ psid = 256 ~ rules psid 0
psid = 52 ~ psid = 255 ~ valid 2
psid = 52 ~ psid = 52|psids = 52 ~ unknown-key
ipv4 = \"203.0.113.2\" ~ ipv4 = \"203.0.113.2\"|psid = 9223372036854775807 ~ range binding 1 psid
psid = 52|[[binding]]|b4 = \"2001:db8:1::2\" ~ psid = 52|x = 1|[[binding]]|b4 = 2 ~ unknown-key
psid = 52|[[binding]]|b4 = \"2001:db8:1::2\" ~ psid = 256|[[binding]]|b4 = 2 ~ kind binding 1 b4
ipv4 = \"203.0.113.2\" ~ ipv4 = \"203.0.113.3\"|[[binding]]|b4 = \"::2\"|ipv4 = \"203.0.113.1\"|offset = 6|length = 8|psid = 52 ~ rules twice 0 2
";

// Whole files, told the same way.
const FILES: &str = " ~ missing version
# nothing but a comment ~ missing version
= ~ not-toml
version = 1 ~ missing softwire
version = 1|softwire = 5 ~ kind softwire
softwire = 5 ~ missing version
version = 1|softwire = {aftr = \"::1\", own = \"1.2.3.4\"} ~ valid 0
version = 1|softwire.aftr = \"::1\"|softwire.own = \"1.2.3.4\" ~ valid 0
softwire.aftr = \"::1\"|version = 1|softwire.\"own\" = \"1.2.3.4\"|binding = [] ~ valid 0
version = 1|binding = 3|softwire = {aftr = \"::1\", own = \"1.2.3.4\"} ~ kind binding
version = 1|binding = [{b4 = 1}, 2]|softwire = {aftr = \"::1\", own = \"1.2.3.4\"} ~ kind binding
version = 1|binding = {b4 = \"::2\"}|softwire = {aftr = \"::1\", own = \"1.2.3.4\"} ~ kind binding
version = 1|binding = 3|softwire = {aftr = \"::1\"} ~ missing softwire own
version = 1|binding = [{b4 = \"::2\", ipv4 = \"1.2.3.5\"}, {ipv4.x = 2}]|softwire = {aftr = \"::1\", own = \"1.2.3.4\"} ~ missing binding 1 b4
version = 1|binding = [{ipv4 = \"1.2.3.5\", b4 = \"::2\"}]|softwire = {aftr = \"::1\", own = \"1.2.3.4\"} ~ valid 1
version = 1|[softwire]|aftr = \"::1\"|own = \"1.2.3.4\"|[binding] ~ kind binding
version = 1|[softwire]|aftr = \"::1\"|own = \"1.2.3.4\"|[[binding]] ~ missing binding 0 b4
version = 1|[softwire]|aftr = \"::1\"|own = \"1.2.3.4\"|[bindings] ~ unknown-key
";

// What reading says of a file, as a text.
pub(crate) fn answer(alloc: Global, file: &[u8]) -> Result<String, Fail> {
    Ok(match read_table(alloc, file) {
        Ok(table) => {
            let count = table.bindings().len();
            format!(in alloc; "valid {count}")?
        }
        Err(error) => format!(in alloc; "{error}")?,
    })
}

// Puts a text so many times behind another one, as `x 97` says; by the thousand, since that takes fewer steps.
fn put_run(alloc: Global, text: &mut String, run: &str) -> Result<(), Fail> {
    let (piece, count) = run.rsplit_once(' ').ok_or("a number")?;
    let count = count.parse::<usize>()?;
    let thousand = piece.repeat(alloc, count.min(1_000))?;
    for _ in 0..count / 1_000 {
        text.push_str(thousand.as_str())?;
    }
    let rest = piece.repeat(alloc, count % 1_000)?;
    text.push_str(rest.as_str())?;
    Ok(())
}

/// The text that a line spells: `|` is a line feed, and between two backquotes stands a piece, and how many times it comes.
pub(crate) fn spelled(alloc: Global, line: &str) -> Result<String, Fail> {
    let line = line.replace(alloc, "|", "\n")?;
    let mut text = String::new(alloc);
    for (at, part) in line.split('`').enumerate() {
        if at % 2 == 0 {
            text.push_str(part)?;
        } else {
            put_run(alloc, &mut text, part)?;
        }
    }
    Ok(text)
}

/// Whether the file that a line spells has its answer.
pub(crate) fn has_answer(alloc: Global, line: &str, wanted: &str) -> Result<bool, Fail> {
    let file = spelled(alloc, line)?;
    Ok(answer(alloc, file.as_bytes())?.as_str() == wanted)
}

// The sound file with another piece in place of one.
fn edited(alloc: Global, from: &str, to: &str) -> Result<String, Fail> {
    let old = spelled(alloc, from)?;
    let new = spelled(alloc, to)?;
    let (before, after) = SOUND.split_once(old.as_str()).ok_or("a piece of the file")?;
    Ok(format!(in alloc; "{before}{new}{after}")?)
}

fn is_answered(alloc: Global, line: &str) -> Result<bool, Fail> {
    let (from, rest) = line.split_once(" ~ ").ok_or("an edit")?;
    let (to, wanted) = rest.split_once(" ~ ").ok_or("an answer")?;
    let file = edited(alloc, from, to)?;
    Ok(answer(alloc, file.as_bytes())?.as_str() == wanted)
}

#[test]
fn names_the_first_thing_that_is_wrong(rt: HostRuntime) -> Result<(), Fail> {
    for line in EDITS.lines() {
        assert!(rt; is_answered(rt.alloc(), line)?, "{line}");
    }
    for line in FILES.lines() {
        let (file, wanted) = line.split_once(" ~ ").ok_or("an answer")?;
        assert!(rt; has_answer(rt.alloc(), file, wanted)?, "{line}");
    }
    Ok(())
}

// Whether bytes have their answer.
pub(crate) fn are(alloc: Global, bytes: &[u8], wanted: &str) -> Result<bool, Fail> {
    Ok(answer(alloc, bytes)?.as_str() == wanted)
}

#[test]
fn reads_other_line_ends_and_no_other_coding(rt: HostRuntime) -> Result<(), Fail> {
    let alloc = rt.alloc();
    let ends = SOUND.replace(alloc, "\n", "\r\n")?;
    let answers = [
        are(alloc, ends.as_bytes(), "valid 2")?,
        are(alloc, SOUND.trim_end().as_bytes(), "valid 2")?,
        are(alloc, &[0xef, 0xbb, 0xbf], "missing version")?,
        are(alloc, &[0xff], "not-toml")?,
        are(alloc, &[b'#', 0xc3], "not-toml")?,
        are(alloc, &[0], "not-toml")?,
    ];
    assert_eq!(rt; answers, [true; 6]);
    Ok(())
}

#[test]
fn the_greatest_file_has_16_777_216_bytes(rt: HostRuntime) -> Result<(), Fail> {
    let alloc = rt.alloc();
    let file = vec![in alloc; b'\n'; 16_777_217]?;
    assert!(rt; are(alloc, &file, "too-big")?);
    assert!(rt; are(alloc, &file[1..], "missing version")?);
    Ok(())
}

fn binding(b4: V6, v4: V4, offset: u8, length: u8, psid: u16) -> Binding {
    Binding {
        b4,
        v4,
        offset,
        length,
        psid,
    }
}

fn same(x: &Table, y: &Table) -> bool {
    x.edition() == y.edition() && x.softwire() == y.softwire() && x.bindings() == y.bindings()
}

const UNUSUAL: Softwire = Softwire {
    mtu6: 65535,
    mtu4: 576,
    hop_limit: 1,
    hairpin: false,
    icmp_in: false,
    errors_up: true,
    errors_down: true,
    ..SETTINGS
};

// Whether a table that is written reads as the same.
fn is_kept(alloc: Global, table: &Table) -> Result<bool, Fail> {
    let text = write_table(alloc, table)?;
    Ok(same(&read_table(alloc, text.as_slice())?, table))
}

#[test]
fn a_table_that_is_written_reads_as_the_same(rt: HostRuntime) -> Result<(), Fail> {
    let alloc = rt.alloc();
    let one = binding(SUBSCRIBER, SHARED, 6, 8, 52);
    let two = binding(subscriber(2), SHARED, 0, 16, 80);
    let whole = binding(V6(0), V4(0xcb00_7102), 0, 0, 0);
    let list = vec![in alloc; one]?;
    assert!(rt; is_kept(alloc, &table_of(alloc, Edition::One, SETTINGS, list)?)?);
    let list = Vec::new(alloc);
    assert!(rt; is_kept(alloc, &table_of(alloc, Edition::One, UNUSUAL, list)?)?);
    let list = vec![in alloc; one, two, whole]?;
    assert!(rt; is_kept(alloc, &table_of(alloc, Edition::Two, UNUSUAL, list)?)?);
    Ok(())
}

#[test]
fn the_sound_file_has_its_table(rt: HostRuntime) -> Result<(), Fail> {
    let sound = read_table(rt.alloc(), SOUND.as_bytes())?;
    let one = binding(SUBSCRIBER, SHARED, 6, 8, 52);
    let other = binding(subscriber(2), V4(0xcb00_7102), 0, 0, 0);
    assert!(rt; sound.bindings() == [one, other].as_slice());
    let settings = Softwire {
        mtu4: 1400,
        icmp_in: false,
        errors_up: true,
        ..SETTINGS
    };
    assert!(rt; sound.softwire() == settings);
    Ok(())
}

const LAST_IDENTIFIER: Place = Place::Binding {
    at: 3,
    name: Name::Psid,
};

// The refusals, with their texts, by their numbers from 1 on.
const REFUSALS: [(FileRefused, &str); 10] = [
    (FileRefused::TooBig, "too-big"),
    (FileRefused::NotToml, "not-toml"),
    (
        FileRefused::Missing(Place::Softwire(Name::Aftr)),
        "missing softwire aftr",
    ),
    (FileRefused::Kind(Place::Top(Name::Version)), "kind version"),
    (FileRefused::UnknownKey, "unknown-key"),
    (
        FileRefused::Address(Place::Softwire(Name::Own)),
        "address softwire own",
    ),
    (FileRefused::Range(LAST_IDENTIFIER), "range binding 3 psid"),
    (
        FileRefused::Rules(Refused::TooMany { count: 65537 }),
        "rules too-many 65537",
    ),
    (FileRefused::Version, "version"),
    (FileRefused::TooCostly, "too-costly"),
];

// Whether a refusal has this number and this text.
fn is_refusal(
    alloc: Global,
    refused: FileRefused,
    number: usize,
    wanted: &str,
) -> Result<bool, Fail> {
    let text = format!(in alloc; "{refused}")?;
    Ok(usize::from(refused.number()) == number && text.as_str() == wanted)
}

#[test]
fn refusals_have_texts_and_numbers(rt: HostRuntime) -> Result<(), Fail> {
    for (at, (refused, wanted)) in REFUSALS.iter().enumerate() {
        assert!(rt;
            is_refusal(rt.alloc(), *refused, at + 1, wanted)?,
            "{wanted}"
        );
    }
    Ok(())
}

#[test]
fn rules_loads_and_errors_have_texts(rt: HostRuntime) -> Result<(), Fail> {
    let (first, second) = (0, 64);
    let mixed = RuleText(Refused::MixedShape { first, second });
    let twice = LoadText(FileRefused::Rules(Refused::Twice { first, second }));
    let range = LoadText(FileRefused::Range(LAST_IDENTIFIER));
    let none = FileError::OutOfMemory;
    let texts = format!(in rt.alloc(); "{mixed}, {twice}, {range}, {none}")?;
    let wanted = "mixed-shape 0 64, twice 0 64, range binding 3 psid, out of memory";
    assert_eq!(rt; texts.as_str(), wanted);
    Ok(())
}
