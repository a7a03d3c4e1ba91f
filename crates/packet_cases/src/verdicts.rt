// Verdicts under compiled tables, on items of each kind.
use crate::under_tables::{dropped, first_wrong, judged, table};
use crate::{down_verdicts, hairpin_verdicts, message_verdicts};
use ip_codec::{ItemView, Rule};
use std::test::Fail;
use table_words::compile;
use verdict_core::Verdict;

// Packets of subscribers: a table with its settings, and then a line for each item with its verdict, as `under_tables` reads them.
const LINES: &str = "\
52|
# the identifiers 52 and 53 of the shared address (RFC 7597, appendix A), by source port
1 up port 1232|out 1500
1 up port 1235|out 1500
1 up port 2256|out 1500
1 up port 64723|out 1500
1 up port 1236|no-binding silent
1 up port 208|no-binding silent

52 53|
1 up port 1232|out 1500
2 up port 1232|no-binding silent
1 up port 1235|out 1500
2 up port 1235|no-binding silent
1 up port 2256|out 1500
2 up port 2256|no-binding silent
1 up port 64723|out 1500
2 up port 64723|no-binding silent
2 up port 1236|out 1500
1 up port 1236|no-binding silent
1 up port 208|no-binding silent

52|
# the rule of each drop
2 up|no-binding silent
1-elsewhere up|not-ours silent
1-elsewhere checksum|not-ours silent
1-elsewhere unreachable-up-bad|not-ours silent
1 to-own|to-self silent
2 to-own|no-binding silent
1 checksum|inner-checksum silent
1 up front 31|inner-malformed silent
1 three-bytes|no-port silent
1 first-fragment|no-port silent
1 no-ports|no-binding silent
1 unreachable-up-bad|icmp-bad silent
1 unreachable-up-ttl-1|ttl silent

52 53|no-icmp
# an echo by its identifier, and an error by the port of the packet that it quotes, whatever `icmp_in` says
1 echo-up|out 1500
2 echo-up|no-binding silent
1 unreachable-up|out 1500
2 unreachable-up|no-binding silent

52|errors-up
# told to the tunnel that the packet came through, whosoever its source is, but not to a group of hosts
1 up|out 1500
2 up|no-binding policy router 2 64
group up|no-binding silent

52|
# a time to live that is used up
1 up-ttl-1|ttl exceeded own router 1 64
2 up-ttl-1|no-binding silent
1 up-ttl-0|ttl exceeded own router 1 64
2 up-ttl-0|no-binding silent

52|mtu4-576
# up to the greatest size; in pieces where DF is clear
1 up-576-df long 576|out 576
1 up-577-df long 577|too-big too-big 576 own router 1 64
1 up-577 long 577|out 576

whole|
# a whole address
1 up|out 1500
1 no-ports|out 1500";

#[test]
fn items_have_their_verdicts(rt: HostRuntime) -> Result<(), Fail> {
    for lines in [
        LINES,
        hairpin_verdicts::LINES,
        down_verdicts::LINES,
        message_verdicts::LINES,
    ] {
        assert_eq!(rt; first_wrong(rt.alloc(), lines)?, None);
    }
    Ok(())
}

#[test]
fn keeps_what_the_stage_said(rt: HostRuntime) -> Result<(), Fail> {
    let alloc = rt.alloc();
    let words = compile(alloc, &table(alloc, &[])?)?;
    assert_eq!(rt; judged(&words, &ItemView::Held), Verdict::Held);
    for rule in [
        Rule::FrameShort,
        Rule::FrameType,
        Rule::Ip4Malformed,
        Rule::Ip4Checksum,
        Rule::Ip6Malformed,
        Rule::Ip6Chain,
        Rule::FragOdd,
        Rule::FragLong,
        Rule::FragOverlap,
        Rule::FragMany,
        Rule::FragFull,
    ] {
        let bad = ItemView::Bad(rule);
        assert_eq!(rt; judged(&words, &bad), dropped(rule), "{rule}");
    }
    Ok(())
}
