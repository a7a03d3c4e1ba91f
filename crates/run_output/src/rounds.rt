// A round of records, as its parts are rendered from it.
ghost use Rattle.std.specs.Prelude.{◌≡◌, ◌+◌, ◌^◌, ◌≤◌, length};

use capture_io::{Form, Records, Written};
use item_stage::Items;
use worker_gate::Outcomes;

/// The records of a round, of which the first has the number `start`, with their items and outcomes.
#[derive(Clone, Copy)]
pub struct RoundRecords<'a> {
    pub start: u32,
    pub records: &'a Records,
    pub items: &'a Items<'a>,
    pub outcomes: &'a Outcomes<'a>,
}

/// The records of a round, of which the first has the number `start`, with their items. They are not judged yet.
#[derive(Clone, Copy)]
pub struct DrawnRound<'a> {
    /// What the capture's header says of its records.
    pub form: Form,
    /// In which form packets are written.
    pub written: Written,
    pub start: u32,
    pub records: &'a Records,
    pub items: &'a Items<'a>,
    pub ghost same: { length items.now ≡ length records.now },
    pub ghost few: { start + length records.now ≤ 2 ^ 31 },
}

/// The same with their outcomes, and all else that their rendering needs.
#[derive(Clone, Copy)]
pub(crate) struct Round<'a> {
    pub(crate) form: Form,
    pub(crate) written: Written,
    pub(crate) start: u32,
    pub(crate) records: &'a Records,
    pub(crate) items: &'a Items<'a>,
    pub(crate) outcomes: &'a Outcomes<'a>,
    /// Which of the records have an error that is kept back.
    pub(crate) limited: &'a [bool],
    /// How many records a part has, where so many are left.
    pub(crate) size: usize,
    pub(crate) ghost same: { length items.now ≡ length records.now },
    pub(crate) ghost marked: { length limited.now ≡ length records.now },
    pub(crate) ghost few: { start + length records.now ≤ 2 ^ 31 },
    pub(crate) ghost small: { size ≤ 2 ^ 31 },
}
