// A round that owns its records, by what it holds from one call to the next.
use crate::items::are;
use crate::lines::{form, records_in};
use item_stage::{RoundItems, Stage, StagedRound};
use std::test::Fail;

const PLAIN: u32 = 101;

/// A fragment, and one in its lane that comes when its time is up.
const LATE: &str = "\
1 6000000000102c40 S A 04000001000000014500002000010000 = held
61.000001 6000000000102c40 S A 04000001000000114500002000010000 = held / 0";

#[test]
fn a_round_has_items_once_a_stage_has_taken_its_records(rt: HostRuntime) -> Result<(), Fail> {
    let alloc = rt.alloc();
    let mut stage = Stage::new(alloc, form(PLAIN))?;
    let mut round = StagedRound::new(alloc, form(PLAIN));
    round.put_records(records_in(alloc, LATE)?);
    assert_eq!(rt; round.records().len(), 2);
    assert_eq!(rt; round.len(), 0);
    stage.stage(alloc, &mut round, 0)?;
    assert_eq!(rt; round.records().len(), 2);
    assert_eq!(rt; round.len(), 2);
    assert!(rt; are(alloc, round.ended(0), "")?);
    assert!(rt; are(alloc, round.ended(1), "0")?);
    Ok(())
}

#[test]
fn records_that_are_taken_out_leave_no_items(rt: HostRuntime) -> Result<(), Fail> {
    let alloc = rt.alloc();
    let mut stage = Stage::new(alloc, form(PLAIN))?;
    let mut round = StagedRound::new(alloc, form(PLAIN));
    round.put_records(records_in(alloc, LATE)?);
    assert_eq!(rt; round.records().len(), 2);
    stage.stage(alloc, &mut round, 0)?;
    let records = round.take_records(alloc);
    assert_eq!(rt; records.len(), 2);
    assert_eq!(rt; round.records().len(), 0);
    assert_eq!(rt; round.len(), 0);
    round.put_records(records);
    assert_eq!(rt; round.records().len(), 2);
    assert_eq!(rt; round.len(), 0);
    Ok(())
}
