// The stage that takes a capture's records.
ghost use Rattle.std.specs.Prelude.{◌≡◌, ◌+◌, ◌^◌, ◌<◌, ◌≤◌, ◌↔◌, List, [], ◌++◌, length, IfOk, IfErr, IsErr};
ghost use Rattle.capture_io.specs.declared.forms.Rec.{Rec as Record};
ghost use Rattle.item_stage.specs.Items.{entries_of, unfinished_of};
ghost use Rattle.item_stage.specs.Marks.{HasMarked, entries_by, entry_by, turning};
ghost use Rattle.item_stage.specs.Stages.{HasFailed, Stands};
ghost use Rattle.capture_io.specs.Records.{seen};
ghost use Rattle.item_stage.specs.Alone.{item_of};
ghost use Rattle.item_stage.specs.Heads.{HaveHeaders};
ghost use Rattle.item_stage.specs.Turns.{entries_from, rows_after, turn};

use crate::alone::read_alone;
use crate::looking::needs_no_lane;
use crate::marks::{Mark, Marks};
use crate::rounds::{Items, RoundMarks};
use crate::rows::Rows;
use crate::staged_round::StagedRound;
use crate::turns::{Moment, take};
use aftr_base::{Numbers, OutOfMemory};
use capture_io::{Form, RecordView, Records, time_of};
use std::alloc::Global;
use std::marker::Model;
use std::mem::replace;

/// What takes the records of one capture, in their order, and says what each becomes. Fragments wait in it for the rest of
/// their datagrams, from one call to the next.
#[derive(Debug, Drop)]
pub struct Stage {
    form: Form,
    // How many records were taken.
    number: u32,
    failed: bool,
    rows: Rows,
    // Memory for the marks of a round: those of one that is done.
    room: Marks,
}

impl Model for Stage {
    ghost use Rattle.std.specs.Prelude.{◌≡◌, false};
    ghost use Rattle.item_stage.specs.Heads.{HaveHeaders};
    ghost use Rattle.item_stage.specs.Stages.{Staged};

    ghost Value = { Staged };

    ghost view = { λ s. record { form = s.form; number = s.number; failed = s.failed; rows = s.rows } };

    ghost invariant = { λ s. s.failed ≡ false → HaveHeaders s.rows };
}

impl Stage {
    /// A stage that has taken no record yet, for a capture of this form.
    pub fn new(alloc: Global, form: Form) -> Result<Stage, OutOfMemory>
        ensures form { IfOk result (λ stage. stage.form ≡ form) }
        ensures number { IfOk result (λ stage. stage.number ≡ 0) }
        ensures stands { IfOk result (λ stage. Stands stage []) }
    {
        Ok(Stage {
            form,
            number: 0,
            failed: false,
            rows: Rows::new(alloc)?,
            room: Marks::new(alloc),
        })
    }

    /// Takes the next records, and gives an entry for each. The first of them has the number `start`, which is how many were
    /// taken before; all numbers are below 2^31.
    /// After `OutOfMemory` the stage has failed, and answers that to every later call. It is given no runtime, so it starts no thread.
    pub fn items<'a>(
        &mut self,
        alloc: Global,
        records: &'a Records,
        start: u32,
    ) -> Result<Items<'a>, OutOfMemory>
        requires start { start ≡ self.old.number }
        requires few { start + length records.now ≤ 2 ^ 31 }
        ensures entries { IfOk result (λ items. (taken : List Record) → Stands self.old taken →
            entries_of self.old.form (taken ++ records.now) ≡ entries_of self.old.form taken ++ items) }
        ensures stands { IfOk result (λ _. (taken : List Record) → Stands self.old taken → Stands self.new (taken ++ records.now)) }
        ensures count { IfOk result (λ items. length items ≡ length records.now) }
        ensures form { self.new.form ≡ self.old.form }
        ensures number { IfOk result (λ _. self.new.number ≡ self.old.number + length records.now) }
        ensures fails { IfErr result (λ _. HasFailed self.new) }
        ensures failed { HasFailed self.old → IsErr result }
    {
        let form = self.form();
        let room = self.take_room(alloc);
        let marks = self.mark_all(alloc, records, start, room)?;
        Ok(Items::of(form, records, RoundMarks::Own(marks)))
    }

    /// Takes the records of a round, and puts their entries into it. They are those of `items`, as are the conditions and errors.
    /// After an error the round has its records and no entries.
    pub fn stage(
        &mut self,
        alloc: Global,
        round: &mut StagedRound,
        start: u32,
    ) -> Result<(), OutOfMemory>
        requires start { start ≡ self.old.number }
        requires few { start + length round.old.records ≤ 2 ^ 31 }
        ensures records { round.new.records ≡ round.old.records }
        ensures entries { IfOk result (λ _. (taken : List Record) → Stands self.old taken →
            entries_of self.old.form (taken ++ round.old.records) ≡ entries_of self.old.form taken ++ round.new.entries) }
        ensures stands { IfOk result (λ _. (taken : List Record) → Stands self.old taken → Stands self.new (taken ++ round.old.records)) }
        ensures count { IfOk result (λ _. length round.new.entries ≡ length round.old.records) }
        ensures form { self.new.form ≡ self.old.form }
        ensures number { IfOk result (λ _. self.new.number ≡ self.old.number + length round.old.records) }
        ensures none { IfErr result (λ _. round.new.entries ≡ []) }
        ensures fails { IfErr result (λ _. HasFailed self.new) }
        ensures failed { HasFailed self.old → IsErr result }
    {
        let form = self.form();
        let room = round.take_room(alloc);
        let marks = self.mark_all(alloc, round.records(), start, room)?;
        round.put_marks(form, marks);
        Ok(())
    }

    /// Takes back the items of a round that is done: their memory serves the next.
    pub fn take_back(&mut self, items: Items<'_>)
        ensures { self.new ≡ self.old }
    {
        if let Some(room) = items.into_room() {
            self.room = room;
        }
    }

    // That of the capture.
    fn form(&self) -> Form
        ensures { result ≡ self.now.form }
    {
        self.form
    }

    // Memory for marks.
    fn take_room(&mut self, alloc: Global) -> Marks
        ensures { self.new ≡ self.old }
    {
        replace(&mut self.room, Marks::new(alloc))
    }

    // Gives the next records to the lanes, and answers their marks. These stand in the room.
    fn mark_all(
        &mut self,
        alloc: Global,
        records: &Records,
        start: u32,
        room: Marks,
    ) -> Result<Marks, OutOfMemory>
        requires start { start ≡ self.old.number }
        requires few { start + length records.now ≤ 2 ^ 31 }
        ensures entries { IfOk result (λ marks. (taken : List Record) → Stands self.old taken →
            entries_of self.old.form (taken ++ records.now)
            ≡ entries_of self.old.form taken ++ entries_by self.old.form records.now marks.slots) }
        ensures stands { IfOk result (λ _. (taken : List Record) → Stands self.old taken → Stands self.new (taken ++ records.now)) }
        ensures count { IfOk result (λ marks. length marks.slots ≡ length records.now) }
        ensures form { self.new.form ≡ self.old.form }
        ensures number { IfOk result (λ _. self.new.number ≡ self.old.number + length records.now) }
        ensures fails { IfErr result (λ _. HasFailed self.new) }
        ensures failed { HasFailed self.old → IsErr result }
    {
        self.still_takes()?;
        match take_all(alloc, self.form, &mut self.rows, records, start, room) {
            Ok(marks) => {
                self.number = number_behind(start, records.len());
                Ok(marks)
            }
            Err(why) => {
                self.failed = true;
                Err(why)
            }
        }
    }

    /// The first record's number of each datagram of which some fragments came and others are missing, ascending.
    pub fn unfinished(&self, alloc: Global) -> Result<Numbers, OutOfMemory>
        ensures numbers { IfOk result (λ numbers. (taken : List Record) → Stands self.now taken →
            numbers ≡ unfinished_of self.now.form taken) }
        ensures failed { HasFailed self.now → IsErr result }
    {
        self.still_takes()?;
        Ok(self.rows.unfinished(alloc)?)
    }

    /// `OutOfMemory` from a stage that has failed.
    fn still_takes(&self) -> Result<(), OutOfMemory>
        ensures { IsErr result ↔ HasFailed self.now }
    {
        if self.failed {
            return Err(OutOfMemory);
        }
        Ok(())
    }
}

// The number of the record behind `count` records, the first of which has the number `start`.
fn number_behind(start: u32, count: usize) -> u32
    requires { start + count ≤ 2 ^ 31 }
    ensures { result ≡ start + count }
{
    start + count as u32
}

// Gives records to the lanes, one after the other, the first of which has this number. Their marks stand in the room.
fn take_all(
    alloc: Global,
    form: Form,
    rows: &mut Rows,
    records: &Records,
    start: u32,
    room: Marks,
) -> Result<Marks, OutOfMemory>
    requires few { start + length records.now ≤ 2 ^ 31 }
    requires headers { HaveHeaders rows.old }
    ensures headers { IfOk result (λ _. HaveHeaders rows.new) }
    ensures marks { IfOk result (λ marks. entries_by form records.now marks.slots ≡ entries_from form rows.old start records.now) }
    ensures count { IfOk result (λ marks. length marks.slots ≡ length records.now) }
    ensures rows { IfOk result (λ _. rows.new ≡ rows_after form rows.old start records.now) }
{
    let mut marks = room;
    marks.restart(records.len())?;
    let mut index = 0;
    'records: while index < records.len() {
        let number = number_behind(start, index);
        mark_one(alloc, form, rows, number, records.get(index), &mut marks)?;
        index += 1;
    }
    Ok(marks)
}

// Gives one record to the lanes, and puts its mark behind the others. Most records need no lane.
#[inline(always)]
fn mark_one(
    alloc: Global,
    form: Form,
    rows: &mut Rows,
    number: u32,
    view: RecordView<'_>,
    marks: &mut Marks,
) -> Result<(), OutOfMemory>
    requires headers { HaveHeaders rows.old }
    requires room { length marks.old.slots < marks.old.room }
    requires few { length marks.old.slots < 2 ^ 31 }
    ensures headers { IfOk result (λ _. HaveHeaders rows.new) }
    ensures marked { IfOk result (λ _. HasMarked form number (seen view.entry) rows.old rows.new marks.old.slots marks.new.slots) }
    ensures room { IfOk result (λ _. marks.new.room ≡ marks.old.room) }
{
    if needs_no_lane(form, view.bytes) {
        marks.push_alone();
        return Ok(());
    }
    mark_read(alloc, form, rows, number, view, marks)
}

// Marks a record that has to be read. It puts the mark down itself: where the mark is answered, its place is cleared for
// each record.
#[inline(never)]
fn mark_read(
    alloc: Global,
    form: Form,
    rows: &mut Rows,
    number: u32,
    view: RecordView<'_>,
    marks: &mut Marks,
) -> Result<(), OutOfMemory>
    requires headers { HaveHeaders rows.old }
    requires room { length marks.old.slots < marks.old.room }
    requires few { length marks.old.slots < 2 ^ 31 }
    ensures headers { IfOk result (λ _. HaveHeaders rows.new) }
    ensures marked { IfOk result (λ _. HasMarked form number (seen view.entry) rows.old rows.new marks.old.slots marks.new.slots) }
    ensures room { IfOk result (λ _. marks.new.room ≡ marks.old.room) }
{
    match take_read(alloc, form, rows, number, view)? {
        Some(mark) => marks.push(mark),
        None => {
            marks.push_alone();
            Ok(())
        }
    }
}

// Reads a record, and gives it to the lanes.
fn take_read(
    alloc: Global,
    form: Form,
    rows: &mut Rows,
    number: u32,
    view: RecordView<'_>,
) -> Result<Option<Mark>, OutOfMemory>
    requires { HaveHeaders rows.old }
    ensures headers { IfOk result (λ _. HaveHeaders rows.new) }
    ensures turn { IfOk result (λ mark. turning rows.new (entry_by (item_of form (seen view.entry).bytes) mark) ≡ turn form rows.old number (seen view.entry)) }
{
    let at = Moment {
        time: time_of(form, view.seconds, view.fraction),
        number,
    };
    let alone = read_alone(form, view.bytes);
    take(alloc, rows, at, &alone)
}
