// Pieces of which two rules are true at once: which one decides. The rules in their order: datagrams that are late end; odd;
// long; full; refused already; a repeat; an overlap; one too many; whole. Pieces have the numbers of their lines, from 0 on.
use crate::pieces::first_other;
use std::test::Fail;

const LATE: &str = "nothing
    1 0 more 8 1 0 0 held
    2 0 more 7 1 0 60000000001 odd 1
    nothing
    1 0 more 8 1 0 0 held
    2 8191 last 8 1 0 60000000001 long 4
    nothing
    1 0 more 16 1 0 0 held
    1 1 more 8 1 0 0 overlap
    1 1 more 8 1 0 60000000001 held 7
    nothing
    1 0 more 8 1 0 0 held
    2 0 more 16 1 0 1 held
    2 1 more 8 1 0 1 overlap
    2 1 more 8 1 0 60000000001 overlap 11
    nothing
    1 0 more 8 1 0 0 held
    1 0 more 8 1 0 60000000001 held 16
    1 1 last 8 1 0 60000000002 whole
    nothing
    1 0 more 16 1 0 0 held
    1 1 more 8 1 0 60000000001 held 20
    nothing
    1 0 more 8 1 0 0 held
    1 1 last 8 1 0 60000000001 held 23
    nothing
    2 0 more 8 1 0 0 held
    1 0 more 8 1 0 1 held
    1 1 last 8 1 0 60000000001 whole 26
    nothing
    1 0 more 8 1 0 0 held
    1 1 more 8 1 0 30000000000 held
    1 2 last 8 1 0 60000000001 held 30
    nothing
    1 0 more 8 1 0 60000000000 held
    2 0 more 8 1 0 0 held
    3 0 more 8 1 0 60000000001 held 35
    256 pieces
    1 256 more 8 1 0 60000000001 held 0
    unfinished 38";

const ODD: &str = "nothing
    1 8191 more 9 1 0 0 odd
    nothing
    1 0 more 16 1 0 0 held
    1 1 more 8 1 0 0 overlap
    1 2 more 7 1 0 0 odd
    nothing
    1 0 more 16 1 0 0 held
    1 1 more 7 1 0 0 odd
    1 2 last 8 1 0 0 whole
    nothing
    1 0 more 8 1 0 0 held
    1 1 last 0 1 0 0 odd
    1 1 last 8 1 0 0 whole
    256 datagrams
    1 0 more 7 1 0 0 odd
    1 0 more 8 1 0 0 full
    256 pieces
    1 256 more 7 1 0 0 odd
    1 256 more 8 1 0 0 many";

const LONG: &str = "nothing
    1 0 more 16 1 0 0 held
    1 1 more 8 1 0 0 overlap
    1 8191 last 8 1 0 0 long
    nothing
    1 8190 more 8 1 0 0 held
    1 8190 more 8 1 8 0 long
    1 8190 more 8 1 7 0 held
    nothing
    1 8190 more 8 1 0 0 held
    1 8190 last 16 1 0 0 long
    1 8190 more 8 1 0 0 held
    nothing
    1 0 more 65528 1 0 0 held
    1 8191 last 7 1 1 0 long
    1 8191 last 7 1 0 0 whole
    nothing
    1 0 more 65528 1 1 0 held
    1 8191 last 7 1 0 0 long
    1 8191 last 7 1 0 0 held
    256 datagrams
    1 8191 last 8 1 0 0 long
    256 pieces
    1 8191 last 8 1 0 0 long
    1 256 more 8 1 0 0 many";

const FULL: &str = "256 datagrams
    1 0 last 8 1 0 0 full
    1000 1 last 8 1 0 0 whole
    1 0 last 8 1 0 0 whole";

const REFUSED: &str = "nothing
    1 0 more 16 1 0 0 held
    1 1 more 8 1 0 0 overlap
    1 0 more 16 1 0 0 overlap
    1 2 last 8 1 0 0 overlap
    unfinished 1
    256 pieces
    1 256 more 8 1 0 0 many
    1 255 more 16 1 0 0 many
    1 0 more 8 1 0 0 many
    256 pieces
    1 0 more 16 1 0 0 overlap
    1 256 more 8 1 0 0 overlap";

const KEPT: &str = "nothing
    1 0 more 16 1 0 0 held
    1 0 more 16 1 0 0 held
    1 2 last 8 1 0 0 whole
    nothing
    1 2 last 8 1 0 0 held
    1 2 last 8 1 0 0 held
    1 0 more 16 1 0 0 whole
    nothing
    1 0 more 8 1 0 0 held
    1 1 more 8 1 0 0 held
    1 1 last 16 1 0 0 overlap
    nothing
    1 0 more 8 1 0 0 held
    1 0 more 8 2 0 0 overlap
    nothing
    1 0 more 8 1 0 0 held
    1 0 last 8 1 0 0 overlap
    nothing
    1 2 last 8 1 0 0 held
    1 1 last 8 1 0 0 overlap
    nothing
    1 2 last 8 1 0 0 held
    1 3 more 8 1 0 0 overlap
    nothing
    1 3 more 8 1 0 0 held
    1 2 last 8 1 0 0 overlap
    nothing
    1 2 last 9 1 0 0 held
    1 3 last 1 1 0 0 overlap
    256 pieces
    1 255 more 8 1 0 0 held
    1 255 more 16 1 0 0 overlap
    256 pieces
    1 256 last 8 1 0 0 many
    256 pieces
    1 256 more 8 1 0 0 many
    unfinished 0";

const OVERLAP: &str = "nothing
    7 2 last 16 1 0 1000000000 held
    7 0 more 8 1 0 1000000000 held
    7 1 more 16 1 0 1000000000 overlap
    7 1 more 8 1 0 1000000000 overlap
    unfinished 1";

const WAITS: &str = "nothing
    7 0 more 16 1 0 1000000000 held
    7 2 last 16 1 0 61000000000 whole
    unfinished
    7 0 more 16 1 0 1000000000 held
    7 2 last 16 1 0 61000001000 held 4
    unfinished 5";

/// The cases, each with what it shows.
const CASES: [(&str, &str); 8] = [
    ("late datagrams end whatever the answer", LATE),
    ("odd comes next", ODD),
    ("then long", LONG),
    ("then full, also for a piece that is whole", FULL),
    ("then an earlier refusal", REFUSED),
    ("then a repeat, an overlap and one too many", KEPT),
    ("an overlap refuses the whole datagram", OVERLAP),
    (
        "a datagram waits sixty seconds and no microsecond longer",
        WAITS,
    ),
];

#[test]
fn lanes_say_what_the_lines_say(rt: HostRuntime) -> Result<(), Fail> {
    for (what, lines) in CASES {
        assert_eq!(rt; first_other(rt.alloc(), lines)?, None, "{what}");
    }
    Ok(())
}
