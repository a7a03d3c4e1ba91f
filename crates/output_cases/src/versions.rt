// The lines of tables, as they come into force: four loads, of which the first two and the last are tables.
use aftr_base::Text;
use aftr_text::LoadWords;
use binding_file::FileRefused;
use reload_plan::Slot;
use run_output::{push_last_versions, push_new_versions};
use std::alloc::Global;
use std::test::Fail;
use swap_core::Window;

fn load(alloc: Global, name: &str, earliest: u32) -> Result<LoadWords, Fail> {
    Ok(LoadWords {
        window: Window {
            earliest,
            latest: 1000,
        },
        name: Text::of(String::from_str(alloc, name)?),
    })
}

pub(crate) const SLOTS: [Slot; 4] = [
    Slot::Version(1),
    Slot::Version(2),
    Slot::Refused(FileRefused::TooBig),
    Slot::Version(3),
];

pub(crate) fn loads(alloc: Global) -> Result<Vec<LoadWords>, Fail> {
    let mut list = Vec::new(alloc);
    list.push(load(alloc, "a", 1)?)?;
    list.push(load(alloc, "b", 2)?)?;
    list.push(load(alloc, "c", 3)?)?;
    list.push(load(alloc, "d", 4)?)?;
    Ok(list)
}

// The lines that are told by now and were not before, and the place of the next load.
fn told(
    alloc: Global,
    loads: &[LoadWords],
    points: &[u32],
    printed: usize,
) -> Result<(String, usize), Fail> {
    let mut lines = String::new(alloc);
    if loads.len() != SLOTS.len() || printed > SLOTS.len() {
        return Ok((lines, 0));
    }
    let next = push_new_versions(alloc, &mut lines, loads, &SLOTS, points, printed)?;
    Ok((lines, next))
}

// The lines that are left at the end.
fn left(
    alloc: Global,
    loads: &[LoadWords],
    points: &[u32],
    printed: usize,
) -> Result<String, Fail> {
    let mut lines = String::new(alloc);
    if loads.len() == SLOTS.len() && printed <= SLOTS.len() {
        push_last_versions(alloc, &mut lines, loads, &SLOTS, points, printed)?;
    }
    Ok(lines)
}

fn is_told(answer: &(String, usize), lines: &str, next: usize) -> bool {
    answer.0.as_str() == lines && answer.1 == next
}

#[test]
fn tables_are_told_as_they_come(rt: HostRuntime) -> Result<(), Fail> {
    let alloc = rt.alloc();
    let list = loads(alloc)?;
    let none = told(alloc, &list, &[], 0)?;
    let first = told(alloc, &list, &[5], 0)?;
    let again = told(alloc, &list, &[5], 1)?;
    let third = told(alloc, &list, &[5, 5, 9], 1)?;
    assert!(rt; is_told(&none, "", 0));
    assert!(rt; is_told(&first, "1 a at 5\n", 1));
    assert!(rt; is_told(&again, "", 1));
    assert!(rt; is_told(&third, "2 b at 5\n- c refused too-big\n3 d at 9\n", 4));
    Ok(())
}

#[test]
fn the_rest_is_told_at_the_end(rt: HostRuntime) -> Result<(), Fail> {
    let alloc = rt.alloc();
    let list = loads(alloc)?;
    let some = left(alloc, &list, &[5, 6], 2)?;
    let all = left(alloc, &list, &[], 0)?;
    let none = left(alloc, &list, &[5, 6, 7], 4)?;
    assert_eq!(rt; some.as_str(), "- c refused too-big\n- d not-reached\n");
    assert_eq!(rt;
        all.as_str(),
        "- a not-reached\n- b not-reached\n- c refused too-big\n- d not-reached\n"
    );
    assert_eq!(rt; none.as_str(), "");
    Ok(())
}
