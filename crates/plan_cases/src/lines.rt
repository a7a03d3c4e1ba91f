// The lines that only some runs write: a limited record, loads, a table in its newer edition; and lines behind others.
ghost use Rattle.std.specs.Prelude.{◌+◌, ◌<◌};

use aftr_text::{
    RecordNumber, limited_line, migrated_line, point_line, push_counted_line, push_ended_line,
    push_limited_line, push_point_line, push_refused_line, push_unreached_line, push_verdict_line,
    refused_line, unreached_line,
};
use binding_file::{FileRefused, Name, Place};
use binding_rules::Refused;
use ip_codec::Rule;
use std::alloc::Global;
use std::fmt::Write;
use std::test::Fail;
use verdict_core::{Reply, Verdict};

#[test]
fn a_limited_record(rt: HostRuntime) -> Result<(), Fail> {
    let line = limited_line(rt.alloc(), 1, 0, Rule::Ttl)?;
    assert_eq!(rt; line.as_str(), "1 0 drop ttl limited 0\n");
    Ok(())
}

// The rules by their names, in the order in which FORMATS lists them.
#[test]
fn rules_have_their_names(rt: HostRuntime) -> Result<(), Fail> {
    let rules = [
        (Rule::FrameShort, "frame-short"),
        (Rule::FrameType, "frame-type"),
        (Rule::Ip4Malformed, "ip4-malformed"),
        (Rule::Ip4Checksum, "ip4-checksum"),
        (Rule::Ip6Malformed, "ip6-malformed"),
        (Rule::Ip6Chain, "ip6-chain"),
        (Rule::FragOdd, "frag-odd"),
        (Rule::FragLong, "frag-long"),
        (Rule::FragOverlap, "frag-overlap"),
        (Rule::FragMany, "frag-many"),
        (Rule::FragFull, "frag-full"),
        (Rule::NotOurs, "not-ours"),
        (Rule::NotSoftwire, "not-softwire"),
        (Rule::InnerMalformed, "inner-malformed"),
        (Rule::InnerChecksum, "inner-checksum"),
        (Rule::ToSelf, "to-self"),
        (Rule::IcmpOff, "icmp-off"),
        (Rule::IcmpBad, "icmp-bad"),
        (Rule::NoPort, "no-port"),
        (Rule::NoBinding, "no-binding"),
        (Rule::Ttl, "ttl"),
        (Rule::TooBig, "too-big"),
        (Rule::HairpinOff, "hairpin-off"),
        (Rule::HairpinNoBinding, "hairpin-no-binding"),
        (Rule::Relayed, "relayed"),
        (Rule::RelayBad, "relay-bad"),
        (Rule::RelayNoBinding, "relay-no-binding"),
        (Rule::RelayMute, "relay-mute"),
    ];
    let mut lines = Vec::new(rt.alloc());
    let mut expected = String::new(rt.alloc());
    for (why, name) in rules {
        let reply = Reply::Silent;
        push_verdict_line(&mut lines, 5, 0, &Verdict::Drop { why, reply }, 0)?;
        write!(expected, "5 0 drop {name} 0\n")?;
    }
    assert_eq!(rt; lines.as_slice(), expected.as_bytes());
    Ok(())
}

#[test]
fn loads(rt: HostRuntime) -> Result<(), Fail> {
    let alloc = rt.alloc();
    assert_eq!(rt;
        point_line(alloc, 1, "t1.toml", 4)?.as_str(),
        "1 t1.toml at 4\n"
    );
    assert_eq!(rt;
        unreached_line(alloc, "t1.toml")?.as_str(),
        "- t1.toml not-reached\n"
    );
    let twice = FileRefused::Rules(Refused::Twice {
        first: 0,
        second: 64,
    });
    assert_eq!(rt;
        refused_line(alloc, "t2.toml", twice)?.as_str(),
        "- t2.toml refused twice 0 64\n"
    );
    let missing = FileRefused::Missing(Place::Softwire(Name::Aftr));
    assert_eq!(rt;
        refused_line(alloc, "a b", missing)?.as_str(),
        "- a b refused missing softwire aftr\n"
    );
    Ok(())
}

#[test]
fn a_newer_edition(rt: HostRuntime) -> Result<(), Fail> {
    assert_eq!(rt;
        migrated_line(rt.alloc(), 1)?.as_str(),
        "migrated 1 bindings\n"
    );
    assert_eq!(rt;
        migrated_line(rt.alloc(), 65_536)?.as_str(),
        "migrated 65536 bindings\n"
    );
    Ok(())
}

#[test]
fn lines_of_records_behind_others(rt: HostRuntime) -> Result<(), Fail> {
    let mut lines = Vec::from_slice(rt.alloc(), b"#\n")?;
    push_verdict_line(&mut lines, 7, 1, &Verdict::Held, 0)?;
    push_limited_line(&mut lines, 8, 1, Rule::TooBig)?;
    push_ended_line(&mut lines, true, 7)?;
    push_verdict_line(&mut lines, 9, 1, &Verdict::Held, 1)?;
    let expected = b"#\n7 1 held 0\n8 1 drop too-big limited 0\nexpired 7\n9 1 held 1\n";
    assert_eq!(rt; lines.as_slice(), expected.as_slice());
    Ok(())
}

// The line of a number, and that of the next one with its digits kept.
fn put_two(lines: &mut Vec<u8>, expected: &mut String, first: u32) -> Result<(), Fail>
    requires { first + 1 < 4294967296 }
{
    let mut number = RecordNumber::of(first);
    push_counted_line(lines, &number, 3, &Verdict::Outward { mtu: 1500 }, 1)?;
    number.rise();
    push_counted_line(lines, &number, 12, &Verdict::Held, 0)?;
    let next = number.get();
    write!(expected, "{first} 3 up 1\n{next} 12 held 0\n")?;
    Ok(())
}

// A number rises where its last digit alone changes, and where others do.
#[test]
fn numbers_rise(rt: HostRuntime) -> Result<(), Fail> {
    let mut lines = Vec::new(rt.alloc());
    let mut expected = String::new(rt.alloc());
    put_two(&mut lines, &mut expected, 0)?;
    put_two(&mut lines, &mut expected, 8)?;
    put_two(&mut lines, &mut expected, 9)?;
    put_two(&mut lines, &mut expected, 1_998)?;
    put_two(&mut lines, &mut expected, 1_999)?;
    put_two(&mut lines, &mut expected, 999_999_999)?;
    put_two(&mut lines, &mut expected, 4_294_967_294)?;
    assert_eq!(rt; lines.as_slice(), expected.as_bytes());
    Ok(())
}

fn other_lines(alloc: Global) -> Result<String, Fail> {
    let mut text = String::from_str(alloc, "#\n")?;
    push_point_line(&mut text, 255, "t1", 2_147_483_648)?;
    push_refused_line(alloc, &mut text, "t2", FileRefused::TooBig)?;
    push_unreached_line(&mut text, "t3")?;
    Ok(text)
}

#[test]
fn lines_behind_others(rt: HostRuntime) -> Result<(), Fail> {
    let text = other_lines(rt.alloc())?;
    let expected = "#
255 t1 at 2147483648
- t2 refused too-big
- t3 not-reached
";
    assert_eq!(rt; text.as_str(), expected);
    Ok(())
}
