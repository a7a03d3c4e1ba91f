// The caller that the README of item_stage shows, and what it answers.
ghost use Rattle.std.specs.Prelude.{◌≤◌, ◌^◌, length};

use crate::records::{packets_of, records_of};
use aftr_base::OutOfMemory;
use capture_io::{Form, Records};
use ip_codec::ItemView;
use item_stage::{RoundItems, Stage};
use std::alloc::Global;
use std::test::Fail;

/// How many of the first records of a capture are packets in a subscriber's tunnel.
fn count_up(alloc: Global, form: Form, records: &Records) -> Result<usize, OutOfMemory>
    requires { length records.now ≤ 2 ^ 31 }
{
    let mut stage = Stage::new(alloc, form)?;
    let items = stage.items(alloc, records, 0)?; // 0 is the number of the first of them
    let mut found = 0;
    'items: for index in 0..items.len() {
        if let ItemView::Up { .. } = items.item(index) {
            found += 1;
        }
    }
    stage.take_back(items); // their memory serves the next round
    Ok(found)
}

/// A subscriber's packet in its tunnel, an answer to it, and a packet of no kind.
const LINES: &str = "\
1 6000000000200440 S A I = up
1 I = down
1 00 = bad";

#[test]
fn packets_in_a_tunnel_are_counted(rt: HostRuntime) -> Result<(), Fail> {
    let alloc = rt.alloc();
    let packets = packets_of(alloc, LINES)?;
    let records = records_of(alloc, &packets)?;
    let form = Form {
        big: false,
        nano: false,
        link: 101,
    };
    assert_eq!(rt; records.len(), 3);
    assert_eq!(rt; count_up(alloc, form, &records)?, 1);
    Ok(())
}
