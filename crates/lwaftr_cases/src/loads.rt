// Loads that are read in batches, as many at a time as there are workers.
use crate::captures::Form;
use crate::worked::leaves;
use std::test::Fail;

/// Nine loads, as a line of `given` tells a run: batches of two and of four have refused ones at their beginning, in the middle and at
/// their end.
const NINE: &str = "nine loads|whole|\
    1-1:bad 1-1:shared 2-2:clash 2-2:whole 3-3:none 3-3:bad 4-4:whole 5-5:clash 5-5:shared --workers {workers}|P@1+1*6|\
    0 0 up 1, 1 1 up 1, 2 2 up 1, 3 3 drop no-binding 0, 4 4 up 1, 5 5 up 1|\
    - bad refused not-toml, 1 shared at 1, - clash refused mixed-shape 0 1, 2 whole at 2, 3 none at 3, - bad refused not-toml, 4 whole at 4, \
    - clash refused mixed-shape 0 1, 5 shared at 5|\
    records 6 held 0 forwarded 5 dropped 1 packets 5 version 5|p@1 p@2 p@3 p@5 p@6|done, a load was refused";

/// Five loads, refused ones among them, and how many reads there are before the outputs are made.
pub const FIVE: &str =
    "five loads|whole|1-1:bad 2-2:shared 3-3:bad 4-4:none 5-5:bad --workers {workers}|P@1+1*6|\
    0..2 0 up 1, 2..4 1 up 1, 4..6 2 drop no-binding 0|\
    - bad refused not-toml, 1 shared at 2, - bad refused not-toml, 2 none at 4, - bad refused not-toml|\
    records 6 held 0 forwarded 4 dropped 2 packets 4 version 2|p@1+1*4|done, a load was refused|14";

#[test]
fn loads_are_answered_in_their_order(rt: HostRuntime) -> Result<(), Fail> {
    let alloc = rt.alloc();
    for workers in ["1", "2", "3", "4", "16"] {
        for line in [NINE, FIVE] {
            assert!(rt;
                leaves(&rt, alloc, Form::Micro, line, workers)?,
                "{line} {workers}"
            );
        }
    }
    Ok(())
}
