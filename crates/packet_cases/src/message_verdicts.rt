// Verdicts on IPv6 packets without an IPv4 packet inside, among them ICMPv6 errors about tunnel packets.
// A table with its settings, and then a line for each item with its verdict, as `under_tables` reads them.

pub const LINES: &str = "\
|
# no softwire
six|not-softwire silent
six-elsewhere|not-ours silent
message-elsewhere relayed-bad|not-ours silent
message relayed-129|not-softwire silent
message relayed front 7|not-softwire silent
message relayed front 8|relay-bad silent

52 53|
# errors about packets of the router itself
message relayed|relayed relay 4 1360 own plain
message relayed-huge|relayed relay 4 65535 own plain
message relayed-1|relayed relay 1 0 own plain
# to the subscriber that sent the packet, and raised to 1,280 before the header of the tunnel comes off
message relayed-hairpin|relayed relay 4 1240 own router 1 64
message relayed-bad|relay-bad silent
message relayed-foreign|relay-bad silent
message relayed-elsewhere|relay-no-binding silent
message relayed-lost|relay-no-binding silent
message relayed-mute|relay-mute silent

53|
# the quoted packet went to port 1232, which the one binding does not own
message relayed|relay-no-binding silent";
