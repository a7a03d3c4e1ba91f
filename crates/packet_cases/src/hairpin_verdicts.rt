// Verdicts on packets from subscriber to subscriber. A table with its settings, and then a line for each item with its
// verdict, as `under_tables` reads them.

pub const LINES: &str = "\
52 53|
1 hairpin-1236|back router 2 64 1500
1 hairpin-echo|back router 1 64 1500
2 hairpin-1236|no-binding silent
1 hairpin-1240|hairpin-no-binding silent
# the time to live is looked at before the owner of the destination
1 hairpin-1240-ttl-1|ttl exceeded own router 1 64
1 hairpin-1461-df long 1461|too-big too-big 1460 own router 1 64

52 53|no-hairpin
# nothing is turned where the table says so
1 hairpin-1236|hairpin-off silent
1 hairpin-1240|hairpin-off silent
1 hairpin-echo|hairpin-off silent

52 53|errors-down
# nobody owns the port
1 hairpin-1240|hairpin-no-binding unreachable own router 1 64";
