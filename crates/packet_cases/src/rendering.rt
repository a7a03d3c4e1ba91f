// Packets that go on, whole and cut, and those that are dropped: what is recorded of them.
use crate::replying;
use crate::sending::first_wrong;
use packet_render::MOST_PACKETS;
use std::test::Fail;

// A line is a way, a packet, how many packets are recorded, and some of these, as `sending` reads them.
const LINES: &str = "\
# whole
out 1500|up|1|0 up-lowered
in 1500 9|down|1|0 down-tunnel+down-lowered
back 1500|hairpin|1|0 hairpin-tunnel+hairpin-lowered
# 1,500 bytes in the tunnel, and two fragments of 1,496 and 61
in 1500 9|fitting+0..1440|1|0 fitting-tunnel+fitting-lowered+0..1440
in 1500 9|long+0..1441|2|0 long-first+long-lowered+0..1428|1 long-last+1428..1441
# to a neighbour, fragments of 1,280 and 69
back 1280|long-hairpin+0..1233|2|0 hairpin-first+long-hairpin-lowered+0..1212|1 hairpin-last+1212..1233
# the longest packet, the last fragment of 239 bytes
in 1280 0|longest+0..65515|54|0 longest-first+longest-lowered+0..1212|53 longest-last+65276..65515
# on their way out
out 576|options+0..1100|3|0 options-first+0..512|1 options-second+512..1064|2 options-last+1064..1100
# the most pieces are 128, the last of 451 bytes
out 576|all-copied+0..65475|128|0 copied-first+0..512|64 copied-middle+32768..33280|127 copied-last+65024..65475
# nothing is sent in silence
dropped|up|0";

#[test]
fn packets_are_recorded(rt: HostRuntime) -> Result<(), Fail> {
    for lines in [LINES, replying::LINES] {
        assert_eq!(rt; first_wrong(rt.alloc(), lines)?, "");
    }
    assert_eq!(rt; MOST_PACKETS, 128);
    Ok(())
}
