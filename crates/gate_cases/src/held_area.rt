// The lookups of a table over the words of a held area.
ghost use Rattle.std.specs.Prelude.{◌≡◌, ◌<◌};
ghost use Rattle.table_words.specs.Layout.{AreCompiled};
ghost use Rattle.area_swap.specs.Reading.{OnlyReads};
ghost use Rattle.area_swap.specs.Values.{HoldsOne, IsOf};
ghost use Rattle.area_swap.specs.Views.{held_table};

use crate::plans::words_of;
use aftr_base::{V4, V6};
use area_swap::{Areas, Claim, WorkerSeat, prepare};
use binding_rules::Want;
use case_data::{SHARED, SUBSCRIBER};
use std::marker::Brand;
use std::sync::ledger::{Blank, Ledger};
use std::test::Fail;
use swap_core::Plan;
use table_words::{Steps, look};
use worker_gate::HeldArea;

fn look_in<L: Ledger>(
    areas: &Areas,
    seat: &mut WorkerSeat,
    v4: V4,
    want: Want,
    blank: Blank,
) -> Option<V6>
    requires areas { IsOf areas.now seat.old }
    requires holding { HoldsOne seat.old.known }
    requires compiled { AreCompiled (held_table seat.old.known) }
    requires name { blank.name ≡ L.name }
    requires parts { blank.parts ≡ L.parts }
    requires some { 0 < blank.parts }
    ensures areas { IsOf areas.now seat.new }
    ensures reads { OnlyReads seat.old seat.new }
{
    let mut steps = Steps::<L>::start(blank);
    let mut held = HeldArea::of(areas, seat);
    look(&mut held, v4, want, &mut steps)
}

// The end of the tunnel of who owns the port.
fn owner(areas: &Areas, seat: &mut WorkerSeat, v4: V4, port: u16) -> Option<V6>
    requires areas { IsOf areas.now seat.old }
    requires holding { HoldsOne seat.old.known }
    requires compiled { AreCompiled (held_table seat.old.known) }
    ensures areas { IsOf areas.now seat.new }
    ensures reads { OnlyReads seat.old seat.new }
{
    look_in::<Brand>(areas, seat, v4, Want::Port(port), Blank::new(1))
}

#[test]
fn looks_a_port_up_in_a_held_area(rt: HostRuntime) -> Result<(), Fail> {
    let alloc = rt.alloc();
    let plan = Plan::of(alloc, words_of(alloc, 52)?)?;
    let (areas, mut seat, _) = prepare(alloc, plan)?;
    let Claim::Held { version: 0 } = areas.claim(&mut seat) else {
        panic!(rt; "not held")
    };
    let b4 = owner(&areas, &mut seat, SHARED, 1232);
    let none = owner(&areas, &mut seat, SHARED, 1236);
    areas.leave(&mut seat);
    assert_eq!(rt; (b4, none), (Some(SUBSCRIBER), None));
    Ok(())
}
