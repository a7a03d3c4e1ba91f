// Which errors a limit lets through, by times in seconds.
ghost use Rattle.std.specs.Prelude.{◌≤◌};

use error_limit::Limiter;

// Whether the errors at these times (nanoseconds) are sent as told.
fn passes(rate: u32, errors: &[(u64, bool)]) -> bool
    requires some { 1 ≤ rate }
    requires most { rate ≤ 1000000 }
{
    let mut limiter = Limiter::new(rate);
    let mut right = true;
    for &(time, sent) in errors {
        right &= limiter.pass(time) == sent;
    }
    right
}

const SECOND: u64 = 1_000_000_000;

#[test]
fn one_a_second(rt: HostRuntime) {
    assert!(rt; passes(1, &[(SECOND, true), (SECOND, false), (2 * SECOND, true)]));
    assert!(rt;
        passes(
            1,
            &[(SECOND, true), (2 * SECOND - 1, false), (2 * SECOND, true)]
        )
    );
}

#[test]
fn as_many_at_once_as_in_a_second(rt: HostRuntime) {
    let at_once = [
        (SECOND, true),
        (SECOND, true),
        (SECOND, false),
        (SECOND, false),
        (SECOND, false),
    ];
    assert!(rt; passes(2, &at_once));
}

#[test]
fn time_that_goes_back_counts_as_the_latest(rt: HostRuntime) {
    assert!(rt;
        passes(
            1,
            &[(5 * SECOND, true), (SECOND, false), (6 * SECOND, true)]
        )
    );
}

#[test]
fn fractions_are_kept(rt: HostRuntime) {
    let tenths = SECOND / 10;
    assert!(rt;
        passes(
            2,
            &[
                (0, true),
                (4 * tenths, true),
                (5 * tenths, true),
                (9 * tenths, false),
                (10 * tenths, true)
            ]
        )
    );
    assert!(rt; passes(1_000_000, &[(u64::MAX, true), (0, true)]));
}
