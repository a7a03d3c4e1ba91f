// Captures of several records, and what a run has to write of them. `diff/worked_cases` prints these tables.

/// Packets by name, as `captures::hex` reads them.
pub const PACKETS: &str = "\
P 600000000020044020010db800010000000000000000000120010db8000000000000000000000001450000200001000040111490cb007101c633640704d00035000c000074657374
p 45000020000100003f111590cb007101c633640704d00035000c000074657374
ttl 600000000020044020010db800010000000000000000000120010db8000000000000000000000001450000200001000001115390cb007101c633640704d00035000c000074657374
exceeded 60000000003c044020010db800000000000000000000000120010db80001000000000000000000014500003c0000400040013cbec0000201cb0071010b0008150000000045000020000100\
    0001115390cb007101c633640704d00035000c000074657374
bare 450000200001000040111490cb007101c633640704d00035000c000074657374
empty -
long 450005b50002000040110efac6336407cb007101003504d005a10000 61*1433
long-1 6000000005b02c4020010db800000000000000000000000120010db80001000000000000000000010400000100000009450005b5000200003f110ffac6336407cb007101003504d005a1000\
    0 61*1420
long-2 6000000000152c4020010db800000000000000000000000120010db8000100000000000000000001040005a80000000961616161616161616161616161
outer-1 6000000000102c4020010db800010000000000000000000120010db800000000000000000000000104000001000000074500002000010000
outer-2 6000000000102c4020010db800010000000000000000000120010db8000000000000000000000001040000090000000740111490cb007101
outer-3 6000000000182c4020010db800010000000000000000000120010db80000000000000000000000010400001000000007c633640704d00035000c000074657374
outer-2+3 6000000000182c4020010db800010000000000000000000120010db8000000000000000000000001040000090000000740111490cb007101c633640704d00035
inner-1 60000000001c044020010db800010000000000000000000120010db80000000000000000000000014500001c000120004011f493cb007101c633640704d00035000c0000
inner-2 600000000018044020010db800010000000000000000000120010db8000000000000000000000001450000180001000140111497cb007101c633640774657374
down-1 4500001c000520004011f48fc6336407cb007101003504d000100000
down-2 4500001c000500014011148fc6336407cb0071016161616161616161
down 600000000024044020010db800000000000000000000000120010db800010000000000000000000145000024000500003f111588c6336407cb007101003504d0001000006161616161616161
arp 0200000000020200000000010806 00*28
tagged 0200000000020200000000018100006486dd600000000020044020010db800010000000000000000010520010db8000000000000000000000001450000200001000040111490cb007101c633\
    640704500035000c000074657374000000000000
tagged-sent 45000020000100003f111590cb007101c633640704500035000c000074657374
tcp-down 0200000000020200000000010800450000280001000040061493c6336407cb0071010050045000000001000000005002020000000000000000000000
tcp-down-sent 600000000028044020010db800000000000000000000000120010db800010000000000000000010545000028000100003f061593c6336407cb0071010050045000000001000000005\
    002020000000000
reply 02000000000202000000000108004500001c00010000400114a4c6336407cb0071010000fbad04510001 00*18
reply-sent 60000000001c044020010db800000000000000000000000120010db80001000000000000000001054500001c000100003f0115a4c6336407cb0071010000fbad04510001
tcp-up 02000000000202000000000186dd600000000028044020010db800010000000000000000010520010db8000000000000000000000001450000280001000040061493cb007101c63364070452\
    005000000001000000005002020000000000
udp-6 02000000000202000000000186dd600000000020044020010db800010000000000000000010620010db8000000000000000000000001450000200001000040111490cb007101c633640704600\
    035000c000074657374
udp-6-sent 45000020000100003f111590cb007101c633640704600035000c000074657374
low 0200000000020200000000010800450000200001000040111490c6336407cb00710100350050000c0000746573740000000000000000000000000000
echo-6 02000000000202000000000186dd60000000001c044020010db800010000000000000000010620010db80000000000000000000000014500001c00010000400114a4cb007101c63364070800\
    f39d04610001
echo-6-sent 4500001c000100003f0115a4cb007101c63364070800f39d04610001";

/// Each line has a title, the table, the words behind it (a load's file is the table of that name), the records, the lines of
/// VERDICTS, the lines of VERSIONS behind the first, the summary, the packets that leave, and the line of the status.
pub const RUNS: &str = "\
one datagram|whole||P@1|0 0 up 1||records 1 held 0 forwarded 1 dropped 0 packets 1 version 0|p@1|done
no records|whole|||||records 0 held 0 forwarded 0 dropped 0 packets 0 version 0||done
a load before no record|whole|0-0:none|||1 none at 0|records 0 held 0 forwarded 0 dropped 0 packets 0 version 1||done
a load that is not reached|whole|1-5:none|||- none not-reached|records 0 held 0 forwarded 0 dropped 0 packets 0 version 0||done
a cut tunnel packet|whole||empty@1 empty@1 empty@1 empty@1 empty@1 empty@1 empty@1 empty@1 empty@1 long@2.5|0 0 drop frame-short 0, 1 0 drop frame-short 0, \
    2 0 drop frame-short 0, 3 0 drop frame-short 0, 4 0 drop frame-short 0, 5 0 drop frame-short 0, 6 0 drop frame-short 0, 7 0 drop frame-short 0, \
    8 0 drop frame-short 0, 9 0 down 2||records 10 held 0 forwarded 1 dropped 9 packets 2 version 0|long-1@2.5 long-2@2.5|done
pieces of a tunnel packet in any order|whole||outer-3@1 outer-3@1 outer-1@2 outer-2@3|0 0 held 0, 1 0 held 0, 2 0 held 0, 3 0 up 1||\
    records 4 held 3 forwarded 1 dropped 0 packets 1 version 0|p@3|done
pieces that overlap|whole||outer-3@1 outer-1@1 outer-2+3@1 outer-2@1|0 0 held 0, 1 0 held 0, 2 0 drop frag-overlap 0, 3 0 drop frag-overlap 0, unfinished 0||\
    records 4 held 2 forwarded 0 dropped 2 packets 0 version 0||done
pieces 60 seconds apart|whole||inner-1@5 inner-2@65|0 0 held 0, 1 0 up 1||records 2 held 1 forwarded 1 dropped 0 packets 1 version 0|p@65|done
pieces a microsecond further apart|whole||inner-1@5 inner-2@65.1|0 0 held 0, expired 0, 1 0 held 0, unfinished 1||\
    records 2 held 2 forwarded 0 dropped 0 packets 0 version 0||done
pieces from the IPv4 network|whole||down-2@1 down-1@1.7|0 0 held 0, 1 0 down 1||records 2 held 1 forwarded 1 dropped 0 packets 1 version 0|down@1.7|done
whole at the next table|whole|1-1:none|inner-1@5 inner-2@6|0 0 held 0, 1 1 drop no-binding 0|1 none at 1|\
    records 2 held 1 forwarded 0 dropped 1 packets 0 version 1||done
loads, refused ones and one that is not reached|whole|1-1:whole 2-2:bad 2-2:shared 9-9:bad 9-9:none --workers 4|P@1 P@2 P@3 P@4 P@5 P@6|0 0 up 1, 1 1 up 1, \
    2 2 up 1, 3 2 up 1, 4 2 up 1, 5 2 up 1|1 whole at 1, - bad refused not-toml, 2 shared at 2, - bad refused not-toml, - none not-reached|\
    records 6 held 0 forwarded 6 dropped 0 packets 6 version 2|p@1 p@2 p@3 p@4 p@5 p@6|done, a load was refused
a load behind the last record|whole|6-9:none --workers=2|P@1 P@2 P@3 P@4 P@5 P@6|0 0 up 1, 1 0 up 1, 2 0 up 1, 3 0 up 1, 4 0 up 1, 5 0 up 1|1 none at 6|\
    records 6 held 0 forwarded 6 dropped 0 packets 6 version 1|p@1 p@2 p@3 p@4 p@5 p@6|done
a load that has come too late|whole|7-9:none|P@1 P@2 P@3 P@4 P@5 P@6|0 0 up 1, 1 0 up 1, 2 0 up 1, 3 0 up 1, 4 0 up 1, 5 0 up 1|- none not-reached|\
    records 6 held 0 forwarded 6 dropped 0 packets 6 version 0|p@1 p@2 p@3 p@4 p@5 p@6|done
a city on Ethernet|city|3-3:crowd 4-4:thin|=ethernet arp@1 tagged@1.1 tcp-down@1.2 reply@1.3 tcp-up@2 udp-6@2.1 low@2.2 echo-6@2.3|0 0 drop frame-type 0, \
    1 0 up 1, 2 0 down 1, 3 0 down 1, 4 1 drop no-binding 0, 5 1 up 1, 6 1 drop no-binding 0, 7 1 up 1|- crowd refused twice 0 64, 1 thin at 4|\
    records 8 held 0 forwarded 5 dropped 3 packets 5 version 1|tagged-sent@1.1 tcp-down-sent@1.2 reply-sent@1.3 udp-6-sent@2.1 echo-6-sent@2.3|done, \
    a load was refused
one error a second|whole|--errors 1|ttl@1 ttl@1 ttl@2|0 0 drop ttl 1, 1 0 drop ttl limited 0, 2 0 drop ttl 1||\
    records 3 held 0 forwarded 0 dropped 3 packets 2 version 0|exceeded@1 exceeded@2|done
two errors a second, five at once|whole|--errors=2 --workers 4|ttl@1 ttl@1 ttl@1 ttl@1 ttl@1|0 0 drop ttl 1, 1 0 drop ttl 1, 2 0 drop ttl limited 0, \
    3 0 drop ttl limited 0, 4 0 drop ttl limited 0||records 5 held 0 forwarded 0 dropped 5 packets 2 version 0|exceeded@1 exceeded@1|done
a time that goes back|whole|--errors 1|ttl@5 ttl@1 ttl@6|0 0 drop ttl 1, 1 0 drop ttl limited 0, 2 0 drop ttl 1||\
    records 3 held 0 forwarded 0 dropped 3 packets 2 version 0|exceeded@5 exceeded@6|done
a limit takes no forwarding|whole|--errors 1|ttl@1 P@1 ttl@1 P@1 bare@1|0 0 drop ttl 1, 1 0 up 1, 2 0 drop ttl limited 0, 3 0 up 1, 4 0 drop no-binding 0||\
    records 5 held 0 forwarded 2 dropped 3 packets 3 version 0|exceeded@1 p@1 p@1|done
no limit|whole||ttl@1 ttl@1 ttl@1|0 0 drop ttl 1, 1 0 drop ttl 1, 2 0 drop ttl 1||records 3 held 0 forwarded 0 dropped 3 packets 3 version 0|\
    exceeded@1 exceeded@1 exceeded@1|done";
