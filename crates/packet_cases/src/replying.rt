// What senders are told of packets that are dropped. The lengths follow from RFC 1812, section 4.3.2.3, and RFC 4443, section 2.4 (c). A
// line is as in `rendering`.

pub const LINES: &str = "\
# in the tunnel, the last one 616 bytes
exceeded|last-hop|1|0 exceeded-before+last-hop
unreachable|stray|1|0 unreachable-before+stray
exceeded|used-up+0..1441|1|0 used-up-before+used-up+0..528
# hosts as it is, 576 bytes
too-big 1460|long-df+0..1441|1|0 too-big-before+long-df+0..528
# of the policy, 120 bytes and 1,280
policy|up|1|0 policy-before+other-tunnel+up
policy|forged+0..1441|1|0 forged-before+forged+0..1172
# a quote that is cut begins with all options, 576 bytes and 1,280
too-big 1460|with-options+0..1441|1|0 with-options-before+with-options+0..524
policy|forged-options+0..1441|1|0 forged-options-before+forged-options+0..1168
# extension headers are left out of a quote, 120 bytes
policy-about|behind-options+up|1|0 policy-before+other-tunnel+up
# errors about tunnel packets are passed on to a host and to a subscriber
relayed 1360|packet-too-big+down-tunnel+down-lowered|1|0 relayed-before+down-lowered
relayed-back 1360|hairpin-too-big+hairpin-tunnel+hairpin-lowered|1|0 relayed-back-before+hairpin-lowered";
