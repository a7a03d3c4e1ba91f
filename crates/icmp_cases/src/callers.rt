// The callers that the READMEs of icmp_codec, icmp_errors and icmp_relay show, and what they answer.
use crate::codec::{ECHO, UNREACHABLE};
use crate::errors::{AFTR, EXCEEDED, LAST_HOP, OWN};
use crate::relay::{MESSAGE, ON_THE_WAY, RELAYED};
use aftr_base::{OutOfMemory, V4, V6};
use icmp_codec::{Icmp6View, IcmpBad, icmp4, icmp6};
use icmp_errors::{gets_answer, push_time_exceeded};
use icmp_relay::{may_relay, push_relay, read_quote};
use ip_codec::{Ip4View, ip4};
use std::test::Fail;

/// Who sent the packet that an ICMP error quotes; none for an echo, which quotes nothing.
fn quoted_sender(message: &[u8]) -> Result<Option<V4>, IcmpBad> {
    let message = icmp4(message)?; // or `Short`, `Checksum`, `Embedded`
    match message.embedded {
        Some(quoted) => Ok(Some(quoted.src)),
        None => Ok(None),
    }
}

/// Tells the sender of a packet, from the address `own`, that its time to live is used up, where a sender may be told.
fn tell_sender(out: &mut Vec<u8>, own: V4, packet: &Ip4View<'_>) -> Result<(), OutOfMemory> {
    if gets_answer(packet) {
        push_time_exceeded(out, own, packet)?;
    }
    Ok(())
}

/// Tells an IPv4 host that its packet was too big for a link behind this end of the tunnel, which an ICMPv6 error says. It answers
/// whether the error is about a packet of the tunnel.
fn tell_host(
    out: &mut Vec<u8>,
    own: V4,
    aftr: V6,
    error: &Icmp6View<'_>,
) -> Result<bool, OutOfMemory> {
    let Ok(quote) = read_quote(error.rest) else {
        return Ok(false);
    };
    if quote.src6 != aftr || !may_relay(&quote) {
        return Ok(false);
    }
    let room = error.word.saturating_sub(40).min(65_535) as u16; // what fits behind the tunnel's header
    push_relay(out, own, 4, room, &quote)?;
    Ok(true)
}

#[test]
fn the_quoted_sender_is_told(rt: HostRuntime) {
    assert_eq!(rt; quoted_sender(UNREACHABLE), Ok(Some(V4(0xcb00_7101))));
    assert_eq!(rt; quoted_sender(ECHO), Ok(None));
    assert_eq!(rt; quoted_sender(&ECHO[..7]), Err(IcmpBad::Short));
}

#[test]
fn a_sender_is_told_of_the_last_hop(rt: HostRuntime) -> Result<(), Fail> {
    let Ok(packet) = ip4(LAST_HOP) else {
        return Err("a packet".into());
    };
    let mut out = Vec::new(rt.alloc());
    tell_sender(&mut out, OWN, &packet)?;
    assert_eq!(rt; out.as_slice(), EXCEEDED.as_slice());
    Ok(())
}

#[test]
fn a_host_is_told_of_a_link_behind_the_tunnel(rt: HostRuntime) -> Result<(), Fail> {
    let Ok(error) = icmp6(ON_THE_WAY, AFTR, MESSAGE) else {
        return Err("a message".into());
    };
    let mut out = Vec::new(rt.alloc());
    assert!(rt; tell_host(&mut out, OWN, AFTR, &error)?);
    assert_eq!(rt; out.as_slice(), RELAYED.as_slice());
    assert!(rt; !tell_host(&mut out, OWN, ON_THE_WAY, &error)?);
    Ok(())
}
