// Datagrams in pieces that are many, late, or in two rounds.
use crate::captures::Form;
use crate::worked::leaves;
use std::test::Fail;

/// Runs, as lines of `given` tell them: 257 pieces of one datagram, of 8 bytes each; 300 datagrams that begin in one lane at one time, and
/// one that begins there when all those have ended; a datagram whose pieces are the last record of a full round and the first one behind
/// it; and 40,000 records of which each even one is the first piece of a datagram, and each odd one the rest of the one that began 11
/// records before, where the first odd ones are whole datagrams.
const RUNS: &str = "\
the 257th piece is refused|whole|--workers {workers}|eight#0400000100000007+800000000@1*257|0..256 0 held 0, 256 0 drop frag-many 0, unfinished 0||\
    records 257 held 256 forwarded 0 dropped 1 packets 0 version 0||done
a lane has room for 256 datagrams|whole|--workers {workers}|first#0400000100000000+10@1*300 first#04000001000012c0@62|\
    0..256 0 held 0, 256..300 0 drop frag-full 0, expired 0..256, 300 0 held 0, unfinished 300||\
    records 301 held 257 forwarded 0 dropped 44 packets 0 version 0||done
a datagram begins in one round and ends in the next|whole|--workers {workers}|P@1*16383 first#0400000100000007@1 rest#0400000800000007@1 P@1*3615|\
    0..16383 0 up 1, 16383 0 held 0, 16384..20000 0 up 1||records 20000 held 1 forwarded 19999 dropped 0 packets 19999 version 0|p@1*19999|done
datagrams in pieces over all rounds|whole|--workers {workers}|\
    first#0400000100000000+2/P@1*10 first#040000010000000a+2/rest#0400000800000000+2@1*39990|0..40000 0 held 0;0 up 1, unfinished 39990, unfinished 39992, \
    unfinished 39994, unfinished 39996, unfinished 39998||records 40000 held 20000 forwarded 20000 dropped 0 packets 20000 version 0|p@1*20000|done";

#[test]
fn datagrams_in_pieces_that_are_many_or_in_two_rounds(rt: HostRuntime) -> Result<(), Fail> {
    let alloc = rt.alloc();
    for line in RUNS.lines() {
        for workers in ["1", "4", "16"] {
            assert!(rt;
                leaves(&rt, alloc, Form::Micro, line, workers)?,
                "{line} {workers}"
            );
        }
    }
    Ok(())
}
