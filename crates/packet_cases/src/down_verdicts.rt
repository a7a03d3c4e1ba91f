// Verdicts on packets from the IPv4 network. A table with its settings, and then a line for each item with its
// verdict, as `under_tables` reads them.

pub const LINES: &str = "\
53 52|
# an echo reply by its identifier, an ICMP error by the source port of the packet that it quotes
plain down|in router 2 64 1500
plain echo-reply-down|in router 2 64 1500
plain unreachable-down|in router 2 64 1500
plain down-own|to-self silent
plain down-208|no-binding silent
plain echo-reply-208|no-binding silent
plain down-3-bytes|no-port silent
plain first-fragment|no-port silent
plain unreachable-down-bad|icmp-bad silent
plain unreachable-down-bad-quote|icmp-bad silent

52|no-icmp
# no ICMP comes in where the table says so
plain echo-reply-down|icmp-off silent
plain unreachable-down|icmp-off silent
plain unreachable-down-bad|icmp-off silent
plain down|in router 1 64 1500

52|errors-down
# nobody owns the port
plain down-208|no-binding unreachable own plain
plain echo-reply-208|no-binding unreachable own plain

52|
# a time to live that is used up; a group of hosts is not told
plain down-ttl-1|ttl exceeded own plain
plain down-ttl-1-group|ttl silent
# whole up to the size of the tunnel, 1,500 bytes with its header
plain down-1460-df long 1460|in router 1 64 1500
plain down-1461-df long 1461|too-big too-big 1460 own plain
plain down-1461 long 1461|in router 1 64 1500";
