// The limit of a run, the room of its rounds, and the lines of datagrams.
use run_output::{Rendered, new_limit, push_ended_lines};
use std::test::Fail;

#[test]
fn a_rate_makes_a_limit(rt: HostRuntime) {
    assert!(rt; new_limit(None).is_none());
    let Some(mut limit) = new_limit(Some(2)) else {
        panic!(rt; "no limit")
    };
    let second = 1_000_000_000;
    let asked = [
        limit.pass(second),
        limit.pass(second),
        limit.pass(second),
        limit.pass(2 * second),
    ];
    assert_eq!(rt; asked, [true, true, false, true]);
}

#[test]
fn rooms_have_a_part_for_each_thread(rt: HostRuntime) -> Result<(), Fail> {
    let alloc = rt.alloc();
    assert_eq!(rt; Rendered::new(alloc, 1)?.parts().len(), 1);
    assert_eq!(rt; Rendered::new(alloc, 16)?.parts().len(), 16);
    Ok(())
}

#[test]
fn datagrams_that_were_never_whole(rt: HostRuntime) -> Result<(), Fail> {
    let mut lines = Vec::from_slice(rt.alloc(), b"#\n")?;
    push_ended_lines(&mut lines, true, &[3, 40])?;
    push_ended_lines(&mut lines, false, &[7])?;
    push_ended_lines(&mut lines, false, &[])?;
    let expected = b"#\nexpired 3\nexpired 40\nunfinished 7\n";
    assert_eq!(rt; lines.as_slice(), expected.as_slice());
    Ok(())
}
