// Two threads that hand values to one another (hand_over).
use crate::callers::{AnyNumber, answer_all, ask_all};
use hand_over::{Bells, line};
use std::test::Fail;

// As where no thread can be made: nobody is there by the time that nothing more is asked, and who comes then is told so.
#[test]
fn nothing_is_asked_where_nobody_answers(rt: HostRuntime) -> Result<(), Fail> {
    let alloc = rt.alloc();
    let bells = Bells::new();
    let (mut asker, mut answerer) = line(alloc, &bells)?;
    let got = ask_all(&rt, alloc, &[1, 2, 3], &mut asker)?;
    assert_eq!(rt; got.len(), 0);
    assert!(rt; !answerer.begin());
    answer_all(&rt, &mut answerer);
    Ok(())
}

#[test]
fn what_was_asked_before_the_end_is_taken(rt: HostRuntime) -> Result<(), Fail> {
    let alloc = rt.alloc();
    let bells = Bells::new();
    let (mut asker, mut answerer) = line::<u32, u64, AnyNumber>(alloc, &bells)?;
    assert!(rt; answerer.begin());
    assert!(rt; asker.wait_for_answerer(&rt));
    asker.ask(&rt, 7);
    asker.ask(&rt, 8);
    asker.end();
    assert_eq!(rt; answerer.take(&rt), Some(7));
    assert_eq!(rt; answerer.take(&rt), Some(8));
    assert_eq!(rt; answerer.take(&rt), None);
    Ok(())
}
